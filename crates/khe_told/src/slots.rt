//! One meet slot as contracts see it.

use khe_base::{EventId, MeetId, ResourceId, Seq, TimeId};

/// How long a live meet is, and when it starts.
#[derive(Clone, Copy, PartialEq, Eq)]
pub struct Span {
    /// In times, at least 1.
    pub duration: u32,
    pub start: Option<TimeId>,
}

/// A meet slot of an event: its live meet, where it has one, and what each place of the event is
/// given in that meet. A told state is a list of these, one for each meet slot of the instance;
/// contracts alone see slots, and no value of this type is kept in memory.
#[derive(Drop)]
pub struct Slot {
    pub meet: MeetId,
    pub event: EventId,
    /// The live meet, or `None` where the slot is free.
    pub span: Option<Span>,
    /// One entry for each place of the event, all `None` where the slot is free.
    pub given: Seq<Option<ResourceId>>,
}
