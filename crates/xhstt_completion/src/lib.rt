//! Completion: the state of an instance that a solution of an archive says, or why the solution is
//! invalid.
#![tactic(auto)]

mod causes;
mod chains;
mod checking;
mod completion;
mod entries;
#[allow(dead_code)]
mod examples;
mod faults;
mod lookups;
mod many;
mod states;
mod tables;

pub use completion::{numbered_solution, solution};
pub use faults::{Cause, SolutionFault};
