//! The lines of the report on an archive's solutions, and of the answers to a script: each call makes one line, or
//! adds one to a text, and the line ends with a line feed. The source of the rules is this project's own form of a
//! report.
#![tactic(auto)]

mod answers;
mod demands;
#[allow(dead_code)]
mod examples;
mod lines;
mod points;
mod words;

pub use answers::{group_line, meet_line, ok_line, refused_line, task_line};
pub use demands::{deficit_line, push_demand_line};
pub use lines::{
    header_line, invalid_line, monitor_line, push_cause, push_monitor_line, solution_line,
    total_line,
};
