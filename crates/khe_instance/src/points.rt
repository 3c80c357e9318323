//! Monitors, and the points at which they watch.

use crate::rules::Kind;
use khe_base::{EventId, ResourceId};

/// What a monitor watches.
#[derive(Clone, Copy, PartialEq, Eq)]
pub enum Point {
    Event(EventId),
    EventResource { event: EventId, place: u32 },
    /// The number of an event group.
    EventGroup(u32),
    /// The place of a pair in its constraint's list.
    EventPair(u32),
    Resource(ResourceId),
}

/// A constraint at one of its points: the smallest thing that has a deviation and a cost.
#[derive(Clone, Copy, PartialEq, Eq)]
pub struct Monitor {
    pub kind: Kind,
    /// The number of its constraint.
    pub constraint: u32,
    pub point: Point,
}
