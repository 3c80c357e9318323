//! A journal: a stack of records with marks, from which the records since the innermost mark are
//! taken back one by one.
#![tactic(auto)]

mod journal;

pub use journal::Journal;
