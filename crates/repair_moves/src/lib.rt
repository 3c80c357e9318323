//! The moves of a monitor that costs something: the edits that repair tries for it, in their order,
//! one after another and without a list of them.
#![tactic(auto)]

mod alike;
mod choosing;
mod cursors;
mod examples;
mod items;
mod laws;
mod moved;
mod parts;
mod reads;
mod stuck;
mod walking;

pub use cursors::{Cursor, Spot};
pub use moved::Moved;
pub use parts::Part;
pub use stuck::is_stuck;
pub use walking::{moves, next_move};
