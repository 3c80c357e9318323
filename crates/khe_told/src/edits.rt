//! The sixteen edits, and the record that leads back from each.

use khe_base::{GroupId, MeetId, MonitorId, ResourceId, TaskId, TimeId};

/// An edit of a timetable: ten of its meets and tasks, six of its monitors and their groups.
#[derive(Clone, Copy, PartialEq, Eq)]
pub enum Edit {
    /// Gives a meet without a start this one.
    Assign { meet: MeetId, time: TimeId },
    /// Takes the start of a meet.
    Unassign { meet: MeetId },
    /// Moves a meet from its start to another.
    MoveTo { meet: MeetId, time: TimeId },
    /// Cuts a meet in two: it keeps this duration, and the rest is a new meet straight after it,
    /// with the same resources.
    Split { meet: MeetId, cut: u32 },
    /// Joins two meets of one event, of which the second starts where the first ends, with the
    /// same resources, into the first.
    Merge { first: MeetId, second: MeetId },
    /// Exchanges the starts of two meets.
    SwapMeets { a: MeetId, b: MeetId },
    /// Gives a task without a resource this one.
    Give { task: TaskId, resource: ResourceId },
    /// Takes the resource of a task.
    Take { task: TaskId },
    /// Gives a task another resource in place of its own.
    Regive { task: TaskId, resource: ResourceId },
    /// Exchanges the resources of two tasks.
    SwapTasks { a: TaskId, b: TaskId },
    /// Lets the cost of a detached monitor count again.
    Attach { monitor: MonitorId },
    /// Leaves a monitor's cost out of all totals.
    Detach { monitor: MonitorId },
    /// Makes a group without children, with the lowest free number.
    MakeGroup,
    /// Drops a group without children.
    DropGroup { group: GroupId },
    /// Makes a monitor the last child of a group.
    AddChild { group: GroupId, child: MonitorId },
    /// Takes a child out of a group.
    RemoveChild { group: GroupId, child: MonitorId },
}

/// The record that leads back from an edit.
#[derive(Clone, Copy, PartialEq, Eq)]
pub enum Back {
    /// This edit leads back.
    By(Edit),
    /// A Merge is undone by a cut: the first meet keeps this duration, and the rest goes into the
    /// second's slot, whichever slots are free.
    Cut {
        first: MeetId,
        cut: u32,
        second: MeetId,
    },
    /// A DropGroup is undone by making the group with its old number.
    Make(GroupId),
    /// A RemoveChild is undone by putting the child back at its old place, from 0.
    Insert {
        group: GroupId,
        child: MonitorId,
        place: u32,
    },
}
