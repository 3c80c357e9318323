//! Laws of the texts that bytes spell, and of the first faults of bytes that spell none.
//!
//! What bytes spell is only one table and one forest. The faults are told by what some text begins with,
//! and not by the machine that finds them. The crate has no code.
#![tactic(auto)]

#[allow(dead_code)]
mod examples;
#[allow(dead_code)]
mod laws;
