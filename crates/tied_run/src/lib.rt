//! Runs a script with ties: each line is read and carried out on a timetable with ties, and its answer is written.
#![tactic(auto)]

mod answering;
#[allow(dead_code)]
mod examples;
mod playing;
mod ties;

pub use playing::TiedPlayer;
