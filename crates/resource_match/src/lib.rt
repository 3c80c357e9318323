//! A cheapest matching of tasks and resources: each task is given one resource or none, and no
//! resource is given twice. The choice comes with prices, which show that no choice is cheaper.
//!
//! Prices of tasks and resources bound choices where no resource has a price above 0, no task one above what it
//! costs with no resource, and no task and resource prices that add to more than what the two cost together: all
//! prices then add to at most the sum of any choice. Where they add to just the sum of one, none is cheaper.
#![tactic(auto)]

pub mod choices;
mod examples;
mod exits;
pub mod laws;
mod matching;
pub mod prices;
mod search;
mod settling;
mod summing;

pub use settling::cheapest;
pub use summing::sum_of;
