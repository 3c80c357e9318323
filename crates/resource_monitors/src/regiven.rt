//! What the places of a meet are given before and after.

use khe_base::ResourceId;
use khe_told::Places;

/// What the places of a meet are given before and after, and which of them may be given something else, or for other
/// times.
#[derive(Clone, Copy)]
pub(crate) struct Regiven<'a> {
    pub(crate) before: &'a [Option<ResourceId>],
    pub(crate) later: &'a [Option<ResourceId>],
    pub(crate) places: Places,
}
