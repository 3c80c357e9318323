//! What the parts of a section look up.

use crate::busy::Timetable;
use crate::labels::Labels;
use crate::layout::Layout;
use khe_instance::{Instance, Plain};
use xhstt_references::Names;
use xhstt_shape::RawInstance;

/// A solution with its timetable, and what the parts of its section look up.
#[derive(Clone, Copy)]
pub(crate) struct View<'a> {
    /// The number of the solution.
    pub number: u32,
    pub inst: &'a Instance,
    pub raw: &'a RawInstance,
    pub plain: &'a Plain,
    pub table: &'a Timetable,
    pub layout: &'a Layout,
    pub labels: &'a Labels,
    /// The Ids of the time groups, in order.
    pub time_groups: &'a Names,
}
