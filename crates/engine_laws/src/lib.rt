//! What is true of every state of an engine, and of what repair comes to. The crate has no code: its laws are the
//! contracts of functions that do nothing.
#![tactic(auto)]

mod laws;
