//! Why a session is not opened, and why a line is not answered.

use thiserror::Error;

/// Why a session was not opened.
#[derive(Drop)]
pub enum Unopened {
    /// The archive was refused, or the solution: the line that says so, with its line feed.
    Refused(Vec<u8>),
    /// Memory was refused.
    NoMemory,
}

/// Why a line was not answered.
#[derive(Clone, Copy, Debug, PartialEq, Eq, Error)]
pub enum SessionFault {
    /// Memory was refused: the session is spent from here on.
    #[error("out of memory")]
    NoMemory,
    /// Memory was refused to an earlier line, or the session answered 2^64 - 1 lines.
    #[error("the session is spent")]
    Spent,
}
