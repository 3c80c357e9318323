//! The workers that share a run.

use khe_io::Gate;
use std::thread::Threads;

/// The threads of a run, the gate that its workers pass, and how many workers there are.
#[derive(Clone, Copy)]
pub struct Crew<'a, R: Threads + Sync, G: Gate> {
    /// The threads of a run.
    pub rt: &'a R,
    /// The gate that its workers pass before each of their jobs.
    pub gate: &'a G,
    /// How many workers share the work, 1 to `WORKERS`.
    pub workers: u32,
}
