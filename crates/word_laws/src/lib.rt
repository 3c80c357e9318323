//! A law on the outcomes of words by the table of commands, and lines of words that the table reads or does not. The
//! crate has no code.
#![tactic(auto)]

mod examples;
mod laws;
