//! Laws on what the program writes: each run has one outcome, and what it wrote is read as it should. The crate has
//! no code.
#![tactic(auto)]

mod laws;
