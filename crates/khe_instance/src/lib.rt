//! An instance of the high school timetabling problem: its times, resources, events, constraints
//! and monitors, and the timetables that are made for it.
#![tactic(auto)]

mod by_place;
mod by_time;
mod by_type;
mod examples;
mod instances;
mod laws;
mod listing;
mod monitor_tables;
mod parts;
mod points;
mod rules;
mod slots;
mod states;

pub use by_place::monitors_by_place;
pub use by_time::monitors_by_time;
pub use instances::Instance;
pub use monitor_tables::MonitorTable;
pub use parts::{EventInfo, GroupInfo, Parts, Place, ResourceInfo};
pub use points::{Monitor, Point};
pub use rules::{Constraint, EventPair, Kind, Rule, Spread};
pub use states::{Duty, Group, Meet, Plain, Task};
