//! The run of a generated job: edits and marks that are drawn after its archive are carried out on an
//! engine of its first solution, and one line tells how that went.
#![tactic(auto)]

mod drawing;
mod lines;
mod marks;
mod running;

pub use running::{Counts, Job, run_line};
