//! What one job comes to, and what all come to.

use khe_base::{Seq, Totals};
use khe_instance::Plain;

/// What one job comes to: a timetable, and what it costs.
#[derive(Drop)]
pub struct Answer {
    pub totals: Totals,
    pub plain: Plain,
}

/// What became of a job.
#[derive(Clone, Copy, PartialEq, Eq)]
pub enum Fate {
    /// It ran, and came to these totals.
    Ran(Totals),
    /// It was left out, since a lower job came to a timetable that costs nothing. That job is named.
    Skipped { by: u64 },
}

/// What all jobs together come to.
#[derive(Drop)]
pub struct Solved {
    /// The job with the least totals, and the lowest number among those with equal totals.
    pub job: u64,
    /// What that job's timetable costs.
    pub totals: Totals,
    /// That job's timetable.
    pub plain: Plain,
    /// What became of each job, in the order of their numbers.
    pub fates: Seq<Fate>,
}

/// A job that ran, and its totals.
#[derive(Clone, Copy)]
pub(crate) struct Row {
    pub(crate) job: u64,
    pub(crate) totals: Totals,
}

/// The least result of some jobs.
#[derive(Drop)]
pub(crate) struct Best {
    pub(crate) job: u64,
    pub(crate) totals: Totals,
    pub(crate) plain: Plain,
}
