//! What the windows of a report are made from.

use khe_base::Text;
use parallel_solve::WindowMaker;
use resource_deviations::ResourceRoom;
use xhstt_resolve::Resolved;
use xhstt_shape::RawSolution;

/// What the windows of a report are made from.
#[derive(Clone, Copy)]
pub(crate) struct ReportParts<'a, 'b> {
    pub resolved: &'a Resolved,
    /// The rooms in which the solutions of each instance are evaluated.
    pub rooms: &'a [ResourceRoom],
    /// The solutions, over all groups.
    pub raws: &'a [&'a RawSolution],
    /// The Id of the group of each solution.
    pub groups: &'b [&'b Text],
    /// Whether all monitors are wanted, also those without a deviation.
    pub all: bool,
    pub windows: WindowMaker,
}
