//! A starting timetable of an instance: each event is cut as its Split Events constraints allow, then each
//! meet gets the time, and each task the resource, that lowers the totals most.
#![tactic(auto)]

mod amounts;
mod beginning;
mod bounds;
mod built;
mod choosing;
mod constructing;
mod examples;
mod laws;
mod ordering;

pub use built::Built;
pub use constructing::construct;
