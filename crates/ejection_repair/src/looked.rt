//! What a search for lower totals looks for, and what it came to.

use khe_base::Totals;

/// What a search for lower totals came to.
#[derive(Clone, Copy)]
pub(crate) enum Looked {
    /// All was looked at, and nothing is lower.
    Through,
    /// The engine's state is lower.
    Found,
    /// No try is left, and there is one more to be made.
    Spent,
}

/// What a search is for, and where it begins lists.
#[derive(Clone, Copy)]
pub(crate) struct Aim {
    /// The totals that a chain is to go below.
    pub(crate) lowest: Totals,
    pub(crate) diversifier: u64,
    /// How many marks may be open beside one for each move of a chain: with one, moves of one meet or
    /// task are tried while it is lifted.
    pub(crate) spare_marks: u32,
}
