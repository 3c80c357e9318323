//! What a timetable costs, added up anew from its meets and tasks: the deviation and the cost of each
//! monitor, and both totals.
#![tactic(auto)]

mod costing;
mod evaluation;
mod measuring;

pub use evaluation::{Values, evaluate, evaluate_in};
