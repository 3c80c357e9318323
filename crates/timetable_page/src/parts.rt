//! What the sections of a page are made from.

use crate::words::Choice;
use khe_base::Text;
use resource_deviations::ResourceRoom;
use xhstt_resolve::Resolved;
use xhstt_shape::{Archive, RawInstance, RawSolution};

/// An archive with its solutions, and what their sections look up.
#[derive(Clone, Copy)]
pub(crate) struct Parts<'a> {
    pub archive: &'a Archive,
    pub resolved: &'a Resolved,
    /// The rooms in which the timetables of each instance are evaluated.
    pub rooms: &'a [ResourceRoom],
    /// The number of the group of each solution.
    pub groups: &'a [u32],
    /// The solutions, over all groups.
    pub raws: &'a [&'a RawSolution],
    /// Which solutions have timetables.
    pub choice: Choice<'a>,
}

/// A solution as the archive spells it, with its number, its instance, and what its group is called.
#[derive(Clone, Copy)]
pub(crate) struct Spelled<'a> {
    pub number: u32,
    pub instance: &'a RawInstance,
    pub group: &'a Text,
    pub solution: &'a RawSolution,
}
