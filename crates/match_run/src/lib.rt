//! What a matching makes of an archive: the tasks of one time of a solution are matched, the timetable that it leaves
//! takes the place of the solution, and the archive is written with a line for each task, for each price of a resource,
//! and on the whole.
#![tactic(auto)]

mod finding;
mod laws;
mod lines;
mod sending;

pub use finding::{Found, find};
pub use lines::match_lines;
pub use sending::send_matched;
