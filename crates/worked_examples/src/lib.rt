//! Worked examples of the definitions that the engine's contracts cite. The crate has no code: its examples are the
//! contracts of functions that do nothing.
#![tactic(auto)]

mod costs;
mod demands;
mod edits;
mod keywords;
mod repairs;
mod resolving;
mod worlds;
