//! What small states cost, and whose cost it is. Each function's contract is an example: it is proved, and nothing
//! calls it.
#![allow(dead_code)]
#![tactic(auto, unfolding(khe_engine::specs::Values::deviations_in))]

ghost use Rattle.std.specs.Prelude.{◌≡◌, Some, None, true, false, [], ◌∷◌};
ghost use Rattle.khe_engine.specs.Values.{costs, deviations_in, group_totals, totals};
ghost use Rattle.khe_instance.specs.EventDeviation as event;
ghost use Rattle.khe_instance.specs.Examples as given;
ghost use Rattle.worked_examples.specs.School.{at, blank, costing, detached, grouped, has, monitor, school, state, strict_school, whole};

// Nothing is assigned: a weight of 2 for each of four times, and of 1 for each of four resources.
fn nothing_is_assigned()
    ensures deviations { deviations_in school blank ≡ 3 ∷ 1 ∷ 3 ∷ 1 ∷ 0 ∷ 0 ∷ 0 ∷ [] }
    ensures costs { costs school (state blank) ≡ 6 ∷ 2 ∷ 3 ∷ 1 ∷ 0 ∷ 0 ∷ 0 ∷ [] }
    ensures totals { totals school (state blank) ≡ costing 12 0 }
{}

// A clash of both events is hard, and that the second event is not at its time is soft where this is not required.
fn costs_are_hard_or_soft()
    ensures clash { costs school (state (whole (at 0) (has 0) (at 1) (has 0))) ≡ 0 ∷ 0 ∷ 0 ∷ 0 ∷ 5 ∷ 0 ∷ 3 ∷ [] }
    ensures both { totals school (state (whole (at 0) (has 0) (at 1) (has 0))) ≡ costing 5 3 }
    ensures soft { totals school (state (whole (at 0) (has 0) (at 1) (has 1))) ≡ costing 0 3 }
    ensures hard { totals strict_school (state (whole (at 0) (has 0) (at 1) (has 1))) ≡ costing 3 0 }
    ensures none { totals school (state (whole (at 0) (has 0) (at 0) (has 1))) ≡ costing 0 0 }
{}

// A monitor that is detached keeps its deviation and costs nothing.
fn a_detached_monitor_costs_nothing()
    ensures deviations { deviations_in school (detached blank).slots ≡ 3 ∷ 1 ∷ 3 ∷ 1 ∷ 0 ∷ 0 ∷ 0 ∷ [] }
    ensures costs { costs school (detached blank) ≡ 0 ∷ 2 ∷ 3 ∷ 1 ∷ 0 ∷ 0 ∷ 0 ∷ [] }
    ensures totals { totals school (detached blank) ≡ costing 6 0 }
{}

// A group costs what its children do, and one without children nothing.
fn a_group_costs_what_its_children_do()
    ensures two { group_totals school (grouped (Some (monitor 1 ∷ monitor 0 ∷ [])) (Some [])) 0 ≡ costing 8 0 }
    ensures none { group_totals school (grouped (Some (monitor 1 ∷ monitor 0 ∷ [])) (Some [])) 1 ≡ costing 0 0 }
    ensures all { totals school (grouped (Some (monitor 1 ∷ monitor 0 ∷ [])) (Some [])) ≡ costing 12 0 }
{}

// Prefer Times with a duration is of the meets of that duration alone: here the one of duration 3, which starts at the
// second time, and not that of duration 2, which does too.
fn prefer_times_is_of_one_duration()
    ensures matching { event.prefer_times (given.meet 0 0 3 1 ∷ given.meet 3 0 2 1 ∷ []) 0 (true ∷ false ∷ []) (Some 3) ≡ 3 }
    ensures any { event.prefer_times (given.meet 0 0 3 1 ∷ given.meet 3 0 2 1 ∷ []) 0 (true ∷ false ∷ []) None ≡ 5 }
    ensures preferred { event.prefer_times (given.meet 0 0 3 0 ∷ given.meet 3 0 2 1 ∷ []) 0 (true ∷ false ∷ []) (Some 3) ≡ 0 }
{}
