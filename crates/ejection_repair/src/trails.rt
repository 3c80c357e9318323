//! What the moves of a chain moved.

ghost use Rattle.std.specs.Prelude.{◌≤◌};
ghost use Rattle.ejection_repair.specs.declared.lengths.TheConstants.{TRAIL_ITEMS};

use crate::lengths::TRAIL_ITEMS;
use repair_moves::Moved;

/// What the moves of a chain moved: two at most for each move.
#[derive(Clone, Copy)]
pub(crate) struct Trail {
    pub(crate) items: [Moved; TRAIL_ITEMS],
    pub(crate) count: usize,
    ghost fits: { count ≤ TRAIL_ITEMS },
}
