//! Meets that are tied to meets: a follower starts a fixed number of times later than its leader, wherever that
//! one goes.
#![tactic(auto)]

mod bars;
mod carrying;
mod editing;
mod edits;
mod examples;
mod lines;
mod records;
mod rows;
mod table;
mod tied;
mod undoing;

pub use edits::{Tie, TiedEdit, TiedFault, TiedRefusal};
pub use lines::{TiedCommand, read_tied_line};
pub use tied::Tied;
