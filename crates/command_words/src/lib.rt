//! What the words of the command line ask for, and laws on the table of commands that tells it.
#![tactic(auto)]

mod laws;
mod words;

pub use words::{Request, request_of};
