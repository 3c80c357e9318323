//! How often each resource is used at each time, with a row of bits for each resource, so that
//! the busy and the idle times of a set of times are counted 64 at once.
#![tactic(auto)]

mod masks;
mod rows;
mod tables;

pub use masks::Mask;
pub use tables::Timetable;
