//! A timetable from scratch: its meets, its tasks and its groups of monitors.

use khe_base::{EventId, GroupId, MeetId, MonitorId, ResourceId, Seq, TaskId, TimeId};

/// A meet: a part of an event that is held without a break.
#[derive(Clone, Copy, PartialEq, Eq)]
pub struct Meet {
    pub meet: MeetId,
    pub event: EventId,
    /// In times, at least 1.
    pub duration: u32,
    pub start: Option<TimeId>,
}

/// A task: what one place of a meet's event is given in this meet.
#[derive(Clone, Copy, PartialEq, Eq)]
pub struct Task {
    pub task: TaskId,
    pub resource: Option<ResourceId>,
}

/// A task with its meet: what one resource has to do when the meet runs.
#[derive(Clone, Copy, PartialEq, Eq)]
pub struct Duty {
    pub meet: Meet,
    /// The number of the place of the meet's event.
    pub place: u32,
    pub resource: Option<ResourceId>,
}

/// A group of monitors whose costs are added up.
#[derive(Drop)]
pub struct Group {
    pub group: GroupId,
    /// In the order in which they were added.
    pub children: Seq<MonitorId>,
}

/// A timetable as plain lists, each ascending in its number.
pub struct Plain {
    pub meets: Seq<Meet>,
    pub tasks: Seq<Task>,
    /// The monitors that cost nothing whatever their deviation.
    pub detached: Seq<MonitorId>,
    pub groups: Seq<Group>,
}

// By hand: an exit of a caller then has one call to prove, and not a drop for each field.
impl Drop for Plain {
    fn drop(self) {
        let Plain {
            meets: _meets,
            tasks: _tasks,
            detached: _detached,
            groups: _groups,
        } = self;
    }
}
