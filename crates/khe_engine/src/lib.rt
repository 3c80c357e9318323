//! The engine: a timetable that is edited, with the deviations and costs of all monitors, groups of
//! monitors, marks, and the way back to each mark.
#![tactic(auto)]

mod asking;
mod behind;
mod edited;
mod editing;
mod engine;
mod facts;
mod faults;
mod late;
mod listeners;
mod listing;
mod measuring;
mod opening;
mod regrouping;
mod resting;
mod settling;
mod shortages;
mod telling;
mod trials;
mod undoing;
mod values;

pub use behind::Behind;
pub use edited::Edited;
pub use engine::Engine;
pub use faults::EditFault;
pub use resting::Resting;
