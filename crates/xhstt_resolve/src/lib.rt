//! The instances of an XHSTT archive: references are followed, groups are expanded into their members and
//! constraints into their monitors, or the archive's first fault is named.
#![tactic(auto)]

mod building;
mod collecting;
mod counting;
mod events;
mod faults;
mod grouped_sets;
mod instances;
mod members;
mod monitors;
mod places;
mod points;
mod resolving;
mod resources;
mod roles;
mod rules;
mod sizes;
mod tables;
mod units;
mod watching;

pub use faults::ResolveFault;
pub use resolving::{Resolved, resolve};
