//! One demand.

use khe_base::{MeetId, ResourceId, TimeId};

/// What needs one supply, a resource at a time, for itself. Demands are ordered by variant, and within a
/// variant by its fields.
#[derive(Clone, Copy, PartialEq, Eq)]
pub enum Demand {
    /// A task, at one of the times of its meet: the offset says how many times later than the meet's start.
    Task {
        meet: MeetId,
        place: u32,
        offset: u32,
    },
    /// A resource that is to be free at a time: what keeps it free then.
    Unavailable {
        resource: ResourceId,
        time: TimeId,
    },
}
