//! The generator of archives: an instance of a size with a constraint of each kind, and four solutions of
//! it, drawn from a seed.
#![tactic(auto)]

mod constraints;
mod drawing;
mod draws;
mod durations;
mod events;
mod generating;
#[allow(dead_code)]
mod laws;
mod lists;
mod names;
mod resources;
mod sizes;
mod solutions;
mod times;

pub use drawing::{DrawnEntry, DrawnEvent, DrawnJob};
pub use draws::Draws;
pub use durations::slot_count;
pub use generating::generate;
pub use sizes::resource_count;
