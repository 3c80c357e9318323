//! Edits and changes in short.

ghost use Rattle.std.specs.Prelude.{◌≡◌, true};
ghost use Rattle.khe_solution.specs.Refusing.{is_of_meets};

use khe_base::{MeetId, ResourceId, TaskId, TimeId};
use khe_told::{Change, Edit};

/// An edit of meets and tasks by its numbers: the meet, for a task also the place, and then what
/// the edit asks for.
#[derive(Clone, Copy)]
pub(crate) enum Act {
    Assign(u32, u32),
    Unassign(u32),
    MoveTo(u32, u32),
    Split(u32, u32),
    Merge(u32, u32),
    SwapMeets(u32, u32),
    Give(u32, u32, u32),
    Take(u32, u32),
    Regive(u32, u32, u32),
    SwapTasks(u32, u32, u32, u32),
}

/// A change by its numbers: the meet, for a task also the place, and then the duration, the start or
/// the resource.
#[derive(Clone, Copy)]
pub(crate) enum Move {
    Add(u32, u32),
    Drop(u32, u32),
    Place(u32, u32),
    Lift(u32, u32),
    Give(u32, u32, u32),
    Take(u32, u32, u32),
}

pub(crate) fn task(meet: u32, place: u32) -> TaskId {
    TaskId {
        meet: MeetId(meet),
        place,
    }
}

impl Act {
    pub(crate) fn edit(self) -> Edit
        ensures { is_of_meets result ≡ true }
    {
        match self {
            Act::Assign(meet, time) => Edit::Assign {
                meet: MeetId(meet),
                time: TimeId(time),
            },
            Act::Unassign(meet) => Edit::Unassign { meet: MeetId(meet) },
            Act::MoveTo(meet, time) => Edit::MoveTo {
                meet: MeetId(meet),
                time: TimeId(time),
            },
            Act::Split(meet, cut) => Edit::Split {
                meet: MeetId(meet),
                cut,
            },
            Act::Merge(first, second) => Edit::Merge {
                first: MeetId(first),
                second: MeetId(second),
            },
            Act::SwapMeets(a, b) => Edit::SwapMeets {
                a: MeetId(a),
                b: MeetId(b),
            },
            Act::Give(meet, place, resource) => Edit::Give {
                task: task(meet, place),
                resource: ResourceId(resource),
            },
            Act::Take(meet, place) => Edit::Take {
                task: task(meet, place),
            },
            Act::Regive(meet, place, resource) => Edit::Regive {
                task: task(meet, place),
                resource: ResourceId(resource),
            },
            Act::SwapTasks(meet, place, other, there) => Edit::SwapTasks {
                a: task(meet, place),
                b: task(other, there),
            },
        }
    }
}

impl Move {
    pub(crate) fn change(self) -> Change {
        match self {
            Move::Add(meet, duration) => Change::Add {
                meet: MeetId(meet),
                duration,
            },
            Move::Drop(meet, duration) => Change::Drop {
                meet: MeetId(meet),
                duration,
            },
            Move::Place(meet, start) => Change::Place {
                meet: MeetId(meet),
                start: TimeId(start),
            },
            Move::Lift(meet, start) => Change::Lift {
                meet: MeetId(meet),
                start: TimeId(start),
            },
            Move::Give(meet, place, resource) => Change::Give {
                task: task(meet, place),
                resource: ResourceId(resource),
            },
            Move::Take(meet, place, resource) => Change::Take {
                task: task(meet, place),
                resource: ResourceId(resource),
            },
        }
    }

    /// The change that leads back, written apart from the program's own.
    pub(crate) fn inverse(self) -> Move {
        match self {
            Move::Add(meet, duration) => Move::Drop(meet, duration),
            Move::Drop(meet, duration) => Move::Add(meet, duration),
            Move::Place(meet, start) => Move::Lift(meet, start),
            Move::Lift(meet, start) => Move::Place(meet, start),
            Move::Give(meet, place, resource) => Move::Take(meet, place, resource),
            Move::Take(meet, place, resource) => Move::Give(meet, place, resource),
        }
    }
}
