//! What repair makes of an archive: a solution of it is repaired, or by many jobs the least result is
//! found, the timetable takes its place, and the archive is written with a line on how that ended.
#![tactic(auto)]

mod laws;
mod lines;
mod mending;
mod placing;
mod sending;
mod solves;

pub use lines::{repair_line, solve_line};
pub use mending::{Mended, mend};
pub use placing::respell;
pub use sending::{send_repaired, send_with};
pub use solves::send_solved;
