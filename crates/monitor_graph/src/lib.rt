//! Deviations of monitors as costs: totals that each change keeps, the defects in the order of their
//! numbers, the monitors that became dearer, and groups of monitors.
#![tactic(auto)]

mod benches;
mod dearer;
mod edits;
mod graph;
mod group_costs;
mod groups;
mod lines;
mod listing;
mod opening;
mod rows;

pub use graph::Graph;
pub use lines::Line;
