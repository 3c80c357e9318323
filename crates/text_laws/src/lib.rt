//! What the texts that are written say when they are read again. The crate has no code: other crates cite its lemmas.
#![tactic(auto)]

mod laws;
