//! A box as its pointer, which a struct of another language can hold.
#![tactic(auto)]

mod boxes;

pub use boxes::Loose;
