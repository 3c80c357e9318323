//! Timetables as the entries of solutions: what a repaired timetable is written as.
#![tactic(auto)]

mod entries;
#[allow(dead_code)]
mod examples;
mod spelling;

pub use spelling::spell;
