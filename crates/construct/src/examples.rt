//! How small events are cut, and what is constructed of a small instance. Each function's contract is an example: it
//! is proved, and nothing calls it.
#![allow(dead_code)]
#![tactic(auto, unfolding(crate::specs::Begun::begun_slot, crate::specs::Begun::begun_slots, crate::specs::Choices::are_lower, crate::specs::Choices::assigns, crate::specs::Choices::gives, crate::specs::Choices::if_lower, crate::specs::Choices::is_accepted, crate::specs::Choices::least, crate::specs::Choices::lesser, crate::specs::Choices::lowered, crate::specs::Choices::lowering, crate::specs::Choices::totals_after, crate::specs::Choices::totals_at, crate::specs::Constructed::constructed, crate::specs::Constructed::staffed, crate::specs::Constructed::timed, crate::specs::Cuts::allows, crate::specs::Cuts::amount_of, crate::specs::Cuts::bounds_in, crate::specs::Cuts::bounds_of, crate::specs::Cuts::least_amount, crate::specs::Cuts::narrowed, crate::specs::Cuts::part, crate::specs::Cuts::parts, crate::specs::Cuts::set_by, crate::specs::Cuts::widest, crate::specs::Orders::lasting, crate::specs::Orders::order, crate::specs::Orders::order_to, crate::specs::Orders::tasks_of, khe_engine::specs::States::edited, khe_engine::specs::Values::deviations_in, khe_solution::specs::Editing::edited, khe_solution::specs::Refusing::refusal))]

ghost use Rattle.std.specs.Prelude.{◌≡◌, None, [], ◌∷◌};
ghost use Rattle.std.specs.List.{fold};
ghost use Rattle.construct.specs.Begun.{begun_slots};
ghost use Rattle.construct.specs.Constructed.{constructed, timed};
ghost use Rattle.construct.specs.Cuts.{least_amount, narrowed, parts, widest};
ghost use Rattle.construct.specs.Examples.{at, bounds, free, given, slot, small, state_of};

// A duration of 3 is not cut where two meets of 1 are the most: it stays whole.
fn an_event_stays_whole()
    ensures { least_amount (bounds 1 1 1 2) 3 ≡ 1 }
{}

// The first parts have what remains.
fn a_duration_has_a_remainder()
    ensures least { least_amount (bounds 1 3 1 9) 7 ≡ 3 }
    ensures parts { parts 7 3 ≡ 3 ∷ 2 ∷ 2 ∷ [] }
{}

// Of two constraints the stricter bound counts: at least 2, at most 3, and three meets or more.
fn two_constraints_are_kept()
    ensures bounds { fold narrowed (widest 7) (bounds 2 9 1 9 ∷ bounds 1 3 3 5 ∷ []) ≡ bounds 2 3 3 5 }
    ensures least { least_amount (bounds 2 3 3 5) 7 ≡ 3 }
    ensures none { least_amount (bounds 3 3 1 9) 7 ≡ 1 }
{}

// An event with a preassigned time is one meet, which starts then.
fn a_preassigned_event_is_not_cut()
    ensures { begun_slots small ≡ slot 0 0 2 None None ∷ slot 1 0 1 None None ∷ free 2 0 ∷ slot 3 1 1 (at 0) None ∷ [] }
{}

// The longer meet costs as much at either time as without one, so it stays; the shorter one goes to the only time
// that lowers the totals.
fn a_time_that_lowers_nothing_is_not_taken()
    ensures { timed small (state_of (slot 0 0 2 None None ∷ slot 1 0 1 None None ∷ free 2 0 ∷ slot 3 1 1 (at 0) None ∷ [])) (0 ∷ 1 ∷ [])
        ≡ state_of (slot 0 0 2 None None ∷ slot 1 0 1 (at 2) None ∷ free 2 0 ∷ slot 3 1 1 (at 0) None ∷ []) }
{}

// Then each task is given the first resource of its type where that lowers the totals: the second event wants none.
fn a_small_instance_is_constructed()
    ensures { constructed small (state_of (slot 0 0 2 None None ∷ slot 1 0 1 None None ∷ free 2 0 ∷ slot 3 1 1 (at 0) None ∷ []))
        ≡ state_of (slot 0 0 2 None (given 1) ∷ slot 1 0 1 (at 2) (given 1) ∷ free 2 0 ∷ slot 3 1 1 (at 0) None ∷ []) }
{}
