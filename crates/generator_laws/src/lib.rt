//! Laws of the archive that is made from a seed and a size of 1 to 2000: no Id of it comes twice, each of
//! its references names something, it is within all limits, so that it is never refused; and its first
//! solution can be completed. The crate has no code: other crates cite its lemmas (`MadeLaws`).
#![tactic(auto)]

#[allow(dead_code)]
mod laws;
