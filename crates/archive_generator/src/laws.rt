//! Laws of the definitions. Nothing calls them, since it is the check that shows them.

ghost use Rattle.std.specs.Prelude.{ℕ, ◌+◌, ◌*◌, ◌<◌, ◌↔◌};
ghost use Rattle.archive_generator.specs.Constraints.{pair_count};

// There is a pair for each tenth group of two events that has two.
fn a_pair_for_each_tenth_half()
    ensures { (k size : ℕ) → (k < pair_count size) ↔ (20 * k + 1 < size) }
{}
