//! The lines of a script and what they say: one line, one command.
#![tactic(auto)]

mod commands;
#[allow(dead_code)]
mod examples;
mod forms;
mod lines;
mod numbers;
mod reading;
mod words;

pub use commands::{Command, LineFault, Question, Subject};
pub use lines::first_line;
pub use numbers::numbers_of;
pub use reading::{asks_deficit, read_line};
pub use words::{count_words, first_word};
