//! How far long work is, as a line on a terminal.
#![tactic(auto)]

mod progress;

pub use progress::{Cleared, Progress, Terminals, Work, work_of};
