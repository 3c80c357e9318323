//! The demands of a timetable: each task wants a resource at each time of its meet, and a resource
//! that is to be free at a time wants that time for itself. How many demands no assignment can
//! serve, and which ones compete, is kept up as the timetable changes, and is told of the state alone;
//! and families that keep the demands beside them.
#![tactic(auto)]

mod cells;
mod demand;
mod demand_keepers;
mod demands;
mod listing;
mod renewing;
mod resource_sets;
mod sets;
mod shortages;
mod start_sets;
mod units;
mod with_demands;

pub use demand::Demand;
pub use demand_keepers::DemandKeeper;
pub use demands::Demands;
pub use shortages::{Shortage, shortage_of};
pub use with_demands::WithDemands;
