//! Choices for small costs. Each function's contract is an example: it is proved, and nothing calls it.
#![allow(dead_code)]

ghost use Rattle.std.specs.Prelude.{◌≡◌, Some, [], ◌∷◌};
ghost use Rattle.resource_match.specs.Choices.{BoundsChoices, choice_sum, least_sum};
ghost use Rattle.resource_match.specs.Examples.{bounds, two_by_two};
ghost use Rattle.resource_match.specs.Prices.{price_of};

// The first resource is the cheapest of both tasks. Where the first to come takes it, the other one costs 5 more;
// where it takes the second one, both cost 3, and prices that bound choices add to just that.
fn a_task_leaves_its_cheapest_resource()
    ensures task_by_task { choice_sum two_by_two (Some 0 ∷ Some 1 ∷ []) ≡ record { hard = 6; soft = 0 } }
    ensures cheapest { choice_sum two_by_two (Some 1 ∷ Some 0 ∷ []) ≡ record { hard = 3; soft = 0 } }
    ensures bounds { BoundsChoices two_by_two bounds }
    ensures exact { least_sum bounds ≡ price_of (record { hard = 3; soft = 0 }) }
{}
