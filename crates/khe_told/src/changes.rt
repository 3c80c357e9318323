//! The six changes, the smallest steps of an edit.

ghost use Rattle.std.specs.Prelude.{◌≡◌};
ghost use Rattle.khe_told.specs.Changes.{meet_of, inverse, span_after};

use crate::slots::Span;
use khe_base::{MeetId, ResourceId, TaskId, TimeId};

/// A change of the meets and tasks: the smallest step of an edit, and what listeners are
/// told. Add and Drop, Place and Lift, and Give and Take are inverses.
#[derive(Clone, Copy, PartialEq, Eq)]
pub enum Change {
    /// A meet of this duration, at least 1, comes into a free slot, without a start and with a
    /// task without a resource for each place.
    Add { meet: MeetId, duration: u32 },
    /// A meet of this duration, without a start and with nothing given, leaves its slot free.
    Drop { meet: MeetId, duration: u32 },
    /// A meet without a start gets this one.
    Place { meet: MeetId, start: TimeId },
    /// A meet loses its start.
    Lift { meet: MeetId, start: TimeId },
    /// A task without a resource gets this one.
    Give { task: TaskId, resource: ResourceId },
    /// A task loses its resource.
    Take { task: TaskId, resource: ResourceId },
}

impl Change {
    /// The meet that it changes, or whose task it changes.
    pub fn meet(self) -> MeetId
        ensures { result.0 ≡ meet_of self }
    {
        match self {
            Change::Add { meet, .. } => meet,
            Change::Drop { meet, .. } => meet,
            Change::Place { meet, .. } => meet,
            Change::Lift { meet, .. } => meet,
            Change::Give { task, .. } => task.meet,
            Change::Take { task, .. } => task.meet,
        }
    }

    /// The change that leads back.
    pub fn inverse(self) -> Change
        ensures { result ≡ inverse self }
    {
        match self {
            Change::Add { meet, duration } => Change::Drop { meet, duration },
            Change::Drop { meet, duration } => Change::Add { meet, duration },
            Change::Place { meet, start } => Change::Lift { meet, start },
            Change::Lift { meet, start } => Change::Place { meet, start },
            Change::Give { task, resource } => Change::Take { task, resource },
            Change::Take { task, resource } => Change::Give { task, resource },
        }
    }
    /// The duration and the start of its meet after it, from those before it.
    pub fn span_after(self, span: Option<Span>) -> Option<Span>
        ensures { result ≡ span_after span self }
    {
        match self {
            Change::Add { duration, .. } => Some(Span {
                duration,
                start: None,
            }),
            Change::Drop { .. } => None,
            Change::Place { start, .. } => Some(Span {
                start: Some(start),
                ..span?
            }),
            Change::Lift { .. } => Some(Span {
                start: None,
                ..span?
            }),
            Change::Give { .. } => span,
            Change::Take { .. } => span,
        }
    }
}
