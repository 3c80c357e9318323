//! Archives that are the same but for the places of their references and names: nothing that is made of an
//! archive depends on these. The crate has no code: other crates cite its lemmas.
#![tactic(auto)]

mod laws;
