//! A place in the list of the moves of a monitor.

use khe_base::MonitorId;

/// A place inside a part of a list of moves.
#[derive(Clone, Copy, PartialEq, Eq)]
pub struct Spot {
    /// The meet slot or task slot of the part's meet or task, or the one from which on a meet or task
    /// is looked for.
    pub item: u32,
    /// The next choice for the meet or task, and `None` where one is still looked for.
    pub choice: Option<u32>,
}

/// A place in the list of a monitor's moves. It borrows nothing: what stands there is read in the
/// state that it is used with.
#[derive(Clone, Copy, PartialEq, Eq)]
pub struct Cursor {
    pub monitor: MonitorId,
    /// The place of the part in the row of the monitor's kind.
    pub part: u32,
    pub spot: Spot,
}
