//! The rule that the table under a board keeps between any two steps, and the names of the steps.

ghost use Rattle.solve_board.specs.Rule.{Holds};
ghost use Rattle.solve_board.specs.Views.{first_view, spent_view, split_view, new_view, joined_view};
ghost use Rattle.solve_board.specs.Plays.{Claims, Offers, Looks, Tells};

use crate::views::BoardView;
use atomic_table::{Join, Play, Split, TableRule};

/// What the two words and all views keep between any two steps. Its key is the number of jobs.
pub struct BoardRule;

impl TableRule<(), BoardView, u64> for BoardRule {
    ghost holds = { Holds };

    ghost first = { first_view };
}

/// The next number is found, and joins the claims.
pub struct Claim;

impl Play<(), BoardView> for Claim {
    ghost then = { Claims };
}

/// A job joins the offers.
pub struct Offer;

impl Play<(), BoardView> for Offer {
    ghost then = { Offers };
}

/// The least offer is found.
pub struct Look;

impl Play<(), BoardView> for Look {
    ghost then = { Looks };
}

/// No number was claimed twice. It changes nothing.
pub struct Tell;

impl Play<(), BoardView> for Tell {
    ghost then = { Tells };
}

/// A new seat is split off.
pub struct Part;

impl Split<BoardView> for Part {
    ghost left = { split_view };

    ghost right = { new_view };
}

/// One seat is joined into another.
pub struct Both;

impl Join<BoardView> for Both {
    ghost both = { joined_view };

    ghost spent = { spent_view };
}
