//! The supplies that a demand may have.

/// Some numbers: one, or those of a set that was given at the start.
#[derive(Clone, Copy, PartialEq, Eq)]
pub enum Pick {
    /// This number alone.
    One(u32),
    /// The members of the set with this number.
    Set(u32),
}

/// The supplies that a demand may have: each resource of the pick, at each time of the pick
/// moved on by the shift.
#[derive(Clone, Copy, PartialEq, Eq)]
pub struct Domain {
    /// The times before they are moved on.
    pub times: Pick,
    /// By how many times they are moved on.
    pub shift: u32,
    /// The resources.
    pub resources: Pick,
}
