//! How long the trail of a chain may be.

use khe_base::limits::CHAIN_MOVES;

/// How many meets and tasks the moves of a chain move at most: two for each of them.
pub(crate) const TRAIL_ITEMS: usize = 2 * CHAIN_MOVES as usize;
