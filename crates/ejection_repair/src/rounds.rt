//! Lists that are begun inside and taken round.

use repair_moves::Cursor;

/// A place of a list of moves that is begun inside and taken round.
#[derive(Clone, Copy)]
pub(crate) struct MoveRound {
    pub(crate) cursor: Cursor,
    /// The start of the list.
    pub(crate) first: Cursor,
    /// How many moves stand before the place of the beginning, and are still to come.
    pub(crate) before: u64,
    /// Whether the end of the list was passed.
    pub(crate) wrapped: bool,
}

/// A place of the defects, which are begun inside and taken round.
#[derive(Clone, Copy)]
pub(crate) struct DefectRound {
    /// The next defect has at least this number.
    pub(crate) from: u32,
    /// How many defects stand before the place of the beginning, and are still to come.
    pub(crate) before: u64,
    /// Whether the last defect was passed.
    pub(crate) wrapped: bool,
}
