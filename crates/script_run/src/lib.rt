//! Runs a script on an engine: each line is read and carried out, and its answer is written.
#![tactic(auto)]

mod answering;
mod asking;
mod commands;
mod faults;
mod onward;
mod players;
mod putting_off;
mod questions;
mod running;
mod shortages;

pub use answering::{push_answer, push_mark, push_ok};
pub use asking::asks_often;
pub use commands::answer_command;
pub use faults::fault_line;
pub use onward::Onward;
pub use players::Player;
pub use putting_off::PutOff;
pub use questions::push_question_answer;
pub use running::{run, run_counting};
pub use shortages::Shortages;
