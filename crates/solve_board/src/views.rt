//! What a seat of a board knows.

use khe_base::Seq;

/// What a seat of a board knows. No program makes a value of it: it stands in contracts alone.
pub struct BoardView {
    /// The numbers that the seat has claimed, in their order; also those of the seats that were
    /// joined into it.
    pub claims: Seq<u64>,
    /// The jobs that it has offered, each of them claimed.
    pub offers: Seq<u64>,
    /// The numbers that its looks answered.
    pub looks: Seq<u64>,
    /// The least offer that it has seen, its own among them, or the number of jobs where it has
    /// seen none.
    pub seen: u64,
    /// How many jobs the board has. The jobs are the numbers below it.
    pub jobs: u64,
    /// How many seats may still be split off it: 2^32 at first, and 0 for a seat that was split off.
    pub left: u64,
    /// How many seats were joined into it, itself included. The `left` and `weight` of all seats
    /// add up to 2^32 + 1, so a seat that has it all is the only one.
    pub weight: u64,
}
