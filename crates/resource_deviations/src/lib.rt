//! The deviations of the monitors at resources, of a whole timetable at once: the tasks are gone
//! over once, and each monitor then reads what was added up.
#![tactic(auto)]

mod deviations;
mod filling;
mod masks;
mod measures;
mod rooms;
mod rows;

pub use deviations::ResourceDeviations;
pub use rooms::ResourceRoom;
