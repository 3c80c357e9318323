//! What a move moves.

use khe_base::{MeetId, TaskId};

/// What a move moves.
#[derive(Clone, Copy, PartialEq, Eq)]
pub enum Moved {
    Meet(MeetId),
    Task(TaskId),
}
