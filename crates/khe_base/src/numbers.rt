//! The numbers by which parts of an instance and of a timetable are named, each with a type of its own.

/// The number of a time: its place among the times of the instance, which is the chronological
/// order. Numbers start at 0.
#[derive(Clone, Copy, Debug, PartialEq, Eq, PartialOrd, Ord, Hash)]
pub struct TimeId(pub u32);

/// The number of a resource: its place among the resources of the instance, from 0.
#[derive(Clone, Copy, Debug, PartialEq, Eq, PartialOrd, Ord, Hash)]
pub struct ResourceId(pub u32);

/// The number of an event: its place among the events of the instance, from 0.
#[derive(Clone, Copy, Debug, PartialEq, Eq, PartialOrd, Ord, Hash)]
pub struct EventId(pub u32);

/// The number of a meet slot: the durations of all earlier events, and the slot's place in its
/// own event.
#[derive(Clone, Copy, Debug, PartialEq, Eq, PartialOrd, Ord, Hash)]
pub struct MeetId(pub u32);

/// The number of a monitor, from 0: monitors are numbered constraint by constraint in the order of the archive,
/// and within a constraint in the order of its points.
#[derive(Clone, Copy, Debug, PartialEq, Eq, PartialOrd, Ord, Hash)]
pub struct MonitorId(pub u32);

/// The number of a group of monitors, from 0.
#[derive(Clone, Copy, Debug, PartialEq, Eq, PartialOrd, Ord, Hash)]
pub struct GroupId(pub u32);

/// A task: a meet, and a place among the event resources of the meet's event, from 0.
#[derive(Clone, Copy, Debug, PartialEq, Eq, PartialOrd, Ord, Hash)]
pub struct TaskId {
    pub meet: MeetId,
    pub place: u32,
}
