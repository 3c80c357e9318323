//! A cheapest matching of the tasks that run at one time with the resources of one type: the tasks are stripped, what
//! each would cost with no resource and with each resource is asked, and the cheapest choice is made where the
//! timetable then costs less.
#![tactic(auto)]

mod asking;
mod laws;
mod leaders;
mod likenesses;
mod making;
mod matching;
mod outcomes;
mod reads;
mod tasks;
mod wishes;

pub use matching::match_at;
pub use outcomes::{MatchFault, Matched};
