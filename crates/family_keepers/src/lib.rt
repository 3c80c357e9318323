//! Families that share what was told: keepers of deviations beside meets and tasks that are told in one
//! place, two keepers as one, and the family of a keeper.
#![tactic(auto)]

mod keepers;
mod keeping;
mod two_keepers;

pub use keepers::Keeper;
pub use keeping::Keeping;
pub use two_keepers::TwoKeepers;
