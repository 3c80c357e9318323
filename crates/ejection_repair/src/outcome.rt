//! How a repair ended.

/// How a repair ended.
#[derive(Clone, Copy, PartialEq, Eq)]
pub enum Outcome {
    /// No chain of at most `depth` moves leaves lower totals.
    Done {
        /// How many chains were taken.
        accepted: u64,
        /// How many chains were looked at.
        tried: u64,
    },
    /// As many chains were looked at as was allowed, and one more was ahead.
    Spent {
        /// How many chains were taken.
        accepted: u64,
        /// How many chains were looked at: the budget.
        tried: u64,
        /// No chain of at most this many moves leaves lower totals.
        complete_to: u32,
    },
}

/// How the lengths were gone through in one state.
#[derive(Clone, Copy)]
pub(crate) enum Round {
    /// All were gone through, and nothing is lower.
    Settled,
    /// A chain was taken.
    Taken,
    /// No try is left, and this many lengths were gone through.
    Spent(u32),
}
