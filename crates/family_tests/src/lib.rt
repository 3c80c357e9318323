//! What tests of the families stand on: a family beside the deviations that it told, which asks of
//! each change whether it fits, and turns by it if it does.
#![tactic(auto)]

#[cfg(test)]
mod all_kinds;
#[cfg(test)]
mod archives;
mod bench;
#[cfg(test)]
mod event_rows;
mod fitting;
#[cfg(test)]
mod large;
mod marks;
#[cfg(test)]
mod moves;
#[cfg(test)]
mod resource_rows;
#[cfg(test)]
mod returning;

pub use bench::Bench;
