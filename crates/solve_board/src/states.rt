//! A board as plain data.

use khe_base::Seq;

/// A board as plain data, without threads: what `board_step` leads on from.
#[derive(Drop)]
pub struct BoardState {
    /// The number that is claimed next.
    pub next: u64,
    /// The numbers that each worker has claimed, in their order.
    pub claims: Seq<Seq<u64>>,
    /// The jobs that each worker has offered, in their order.
    pub offers: Seq<Seq<u64>>,
}

/// A step of one worker on a board as plain data. A worker is named by its place in the lists.
#[derive(Clone, Copy, PartialEq, Eq)]
pub enum BoardStep {
    /// The worker claims the next number.
    Claim { worker: u32 },
    /// The worker offers a job that it has claimed.
    Offer { worker: u32, job: u64 },
    /// The worker looks, which changes nothing.
    Look { worker: u32 },
}
