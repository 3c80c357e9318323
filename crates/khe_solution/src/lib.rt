//! A timetable that is edited: the ten edits of meets and tasks, each refused for the first cause of
//! its row or carried out as a list of changes, of which a watcher is notified one by one, and the way
//! back from each.
#![tactic(auto)]

mod bits;
mod checks;
mod edits;
mod effects;
mod laws;
mod lists;
mod lives;
mod marks;
mod notes;
mod reads;
mod room;
mod slots;
mod solution;
mod tasks;

pub use notes::invert;
pub use room::room_for;
pub use solution::{RestingSolution, Solution};
