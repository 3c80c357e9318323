//! Laws on what the program tells of an archive's text: a fault is told by the rows of faults, and what stands in a
//! text by its grammar. The crate has no code.
#![tactic(auto)]

mod laws;
