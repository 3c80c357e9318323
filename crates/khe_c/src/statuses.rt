//! The statuses of calls.

/// The call did what it says.
pub(crate) const DONE: u32 = 0;

/// The archive or the solution is refused.
pub(crate) const REFUSED: u32 = 3;

/// Memory was refused.
pub(crate) const NO_MEMORY: u32 = 6;

/// The handle is closed, or for one that is to be opened: it is open.
pub(crate) const CLOSED: u32 = 8;

/// The answer is longer than the room.
pub(crate) const NO_ROOM: u32 = 9;
