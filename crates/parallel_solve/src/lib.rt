//! What several workers do together: the solutions of an archive evaluated in threads, all at once
//! or as far as a report has come. The answer is that of one thread, for every number of workers.
#![tactic(auto)]

mod draws;
mod evaluating;
mod jobs;
mod spans;
mod verdicts;
mod windows;

pub use evaluating::{all_solutions, evaluate_all};
pub use jobs::{SolutionJob, Solutions, Window, Work};
pub use verdicts::{Judging, Verdict, numbered, rooms_of};
pub use windows::WindowMaker;
