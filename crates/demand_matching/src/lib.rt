//! A maximum matching of demands and supplies that is kept up as demands change, the number of
//! demands that no matching can serve, and the least set of demands that shows why.
#![tactic(auto)]

mod domains;
mod empty;
mod matching;
mod order;
mod reach;
mod sets;
mod table;
mod windows;

pub use domains::{Domain, Pick};
pub use matching::Matching;
