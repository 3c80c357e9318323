//! The parts of which an instance is made.

use crate::points::Monitor;
use crate::rules::Constraint;
use khe_base::{ListedSet, ResourceId, Seq, Text, TimeId};

/// A resource: a teacher, a class or a room.
#[derive(Drop)]
pub struct ResourceInfo {
    pub id: Text,
    /// The number of its type.
    pub rtype: u32,
}

/// A group of events, of which a course is one.
#[derive(Drop)]
pub struct GroupInfo {
    pub id: Text,
    /// A set over all events of the instance.
    pub events: ListedSet,
}

/// One of the resources that an event needs.
#[derive(Drop)]
pub struct Place {
    /// What the resource is to be in the event. Without one the place is preassigned.
    pub role: Option<Text>,
    /// The type that the resource must have.
    pub rtype: u32,
    /// The preassigned resource.
    pub fixed: Option<ResourceId>,
    /// What the event is worth to the resource, in the units of LimitWorkload.
    pub workload: u32,
}

/// An event: something that is held for a number of times, with resources.
#[derive(Drop)]
pub struct EventInfo {
    pub id: Text,
    /// In times, at least 1.
    pub duration: u32,
    /// The preassigned starting time.
    pub fixed: Option<TimeId>,
    /// The number of its first meet slot: the durations of all earlier events.
    pub first_meet: u32,
    pub places: Seq<Place>,
}

/// The parts of an instance, each list in the order of its numbers.
pub struct Parts {
    pub id: Text,
    /// The Ids of the times, in chronological order.
    pub times: Seq<Text>,
    /// How many resource types there are.
    pub types: u32,
    pub resources: Seq<ResourceInfo>,
    pub groups: Seq<GroupInfo>,
    pub events: Seq<EventInfo>,
    pub constraints: Seq<Constraint>,
    pub monitors: Seq<Monitor>,
    /// The least common multiple of all durations of events, and 1 where there are none.
    pub unit: u64,
}

// By hand: an exit of a caller then has one call to prove, and not a drop for each field.
impl Drop for Parts {
    fn drop(self) {
        let Parts {
            id: _id,
            times: _times,
            types: _types,
            resources: _resources,
            groups: _groups,
            events: _events,
            constraints: _constraints,
            monitors: _monitors,
            unit: _unit,
        } = self;
    }
}
