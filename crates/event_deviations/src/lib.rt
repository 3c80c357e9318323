//! The deviations of the constraint kinds whose points are events, places of events, event groups
//! and pairs of events, of a whole timetable at once.
#![tactic(auto)]

mod at_events;
mod at_groups;
mod at_places;
mod deviations;
mod index;
mod links;
mod lists;
mod marks;
mod rooms;
mod short_lists;
mod starts;
mod tasks;

pub use deviations::EventDeviations;
pub use rooms::EventRoom;
pub use tasks::duties;
