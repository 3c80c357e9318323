//! Many jobs that each come to a timetable with its totals, shared by workers, and the least of their
//! results: which timetable that is does not depend on the number of workers, nor on their turns. And
//! many repairs of one timetable as such jobs, each of which begins its lists elsewhere.
#![tactic(auto)]

mod answers;
mod crews;
mod fates;
mod jobs;
mod laws;
mod pool;
mod ranks;
mod repairs;
mod solving;
mod workers;
mod works;

pub use answers::{Answer, Fate, Solved};
pub use pool::solved_by;
pub use solving::{Effort, solve};
pub use works::Work;
