//! What construction makes of an archive: a timetable of one of its instances from nothing takes the place of all
//! its solutions, as it is or repaired, and the archive is written with a line on it.
#![tactic(auto)]

mod building;
mod grouping;
mod lines;
mod sending;

pub use building::build;
pub use grouping::regroup;
pub use lines::construct_line;
pub use sending::{send_built, send_mended};
