//! Repair of a timetable by ejection chains: each move of a defect, and then of the one monitor that
//! it made dearer, is tried on the engine and taken back, until a chain leaves lower totals.
#![tactic(auto)]

mod asks;
mod endings;
mod examples;
mod inside;
mod lengths;
mod lifting;
mod looked;
mod marking;
mod moving;
mod outcome;
mod repairing;
mod rotating;
mod rounds;
mod searching;
mod spans;
mod sweeping;
mod trails;

pub use inside::repair_inside;
pub use outcome::Outcome;
pub use repairing::repair;
