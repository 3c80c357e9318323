//! Chains of two moves, the one monitor that is dearer, the place at which a diversifier begins, and what repair comes
//! to. Each function's contract is an example: it is proved, and nothing calls it.
#![allow(dead_code)]
#![tactic(auto, unfolding(ejection_repair::specs::Chains::chains, ejection_repair::specs::Chains::extensions, ejection_repair::specs::Chains::longer, ejection_repair::specs::Chains::rotated, ejection_repair::specs::Chains::tried, ejection_repair::specs::Repaired::repaired, ejection_repair::specs::Repaired::run, ejection_repair::specs::Repaired::tries_from, ejection_repair::specs::Trails::is_fresh, ejection_repair::specs::Trails::was_moved, ejection_repair::specs::Values::are_lower, ejection_repair::specs::Values::costs_at, ejection_repair::specs::Values::defects_from, ejection_repair::specs::Values::totals_at, khe_engine::specs::States::edited, khe_engine::specs::Values::deviations_in, khe_solution::specs::Editing::edited, khe_solution::specs::Refusing::refusal, monitor_graph::specs::Dearer::dearer_from, monitor_graph::specs::Dearer::only, repair_moves::specs::Items::is_free_at, repair_moves::specs::Items::is_item, repair_moves::specs::Items::is_meet_at, repair_moves::specs::Items::is_open_at, repair_moves::specs::Items::is_task_at, repair_moves::specs::Items::item_slots, repair_moves::specs::Items::task_at, repair_moves::specs::Moved::moved_by, repair_moves::specs::Moves::choices, repair_moves::specs::Moves::choices_from, repair_moves::specs::Moves::edit_of, repair_moves::specs::Moves::is_accepted, repair_moves::specs::Moves::items_from, repair_moves::specs::Moves::moves, repair_moves::specs::Moves::moves_of, repair_moves::specs::Moves::moves_under, repair_moves::specs::Moves::part_from, repair_moves::specs::Picked::picked, repair_moves::specs::Table::parts_of))]

ghost use Rattle.std.specs.Prelude.{ℕ, ◌≡◌, Some, None, [], ◌∷◌, map};
ghost use Rattle.ejection_repair.specs.Chains.{Chain, chains, rotated};
ghost use Rattle.ejection_repair.specs.Repaired.{repaired};
ghost use Rattle.ejection_repair.specs.Values.{costs_at, totals_at};
ghost use Rattle.ejection_repair.specs.declared.outcome.Outcome.TheVariants.{Done, Spent};
ghost use Rattle.khe_told.specs.declared.edits.Edit.TheVariants as edit;
ghost use Rattle.monitor_graph.specs.Dearer.{dearer, only};
ghost use Rattle.repair_moves.specs.Moves.{moves};
ghost use Rattle.worked_examples.specs.Clash.{begun, clash, timed};
ghost use Rattle.worked_examples.specs.School.{costing, meet, time};

// The first event costs 1. It goes to another time, or exchanges its start with the second one.
fn a_defect_has_three_moves()
    ensures costs { costs_at clash begun ≡ 1 ∷ 0 ∷ 0 ∷ [] }
    ensures moves { moves clash begun.slots 0 ≡ edit.MoveTo (meet 0) (time 0) ∷ edit.MoveTo (meet 0) (time 2) ∷ edit.SwapMeets (meet 0) (meet 1) ∷ [] }
{}

// At the first time it clashes with the second event, and only the clash is dearer. Where they exchange their starts
// only the second event is; and at the third time no monitor is.
fn one_monitor_is_dearer()
    ensures clash { costs_at clash (timed 0 0) ≡ 0 ∷ 0 ∷ 5 ∷ [] }
    ensures clashes { only (dearer (costs_at clash begun) (costs_at clash (timed 0 0))) ≡ Some 2 }
    ensures exchanged { only (dearer (costs_at clash begun) (costs_at clash (timed 0 1))) ≡ Some 1 }
    ensures none { only (dearer (costs_at clash begun) (costs_at clash (timed 2 0))) ≡ None }
    ensures several { only (dearer (0 ∷ 0 ∷ 0 ∷ []) (costs_at clash (timed 1 1))) ≡ None }
{}

// No chain of one move leaves lower totals. Of those of two the second event's moves away from the clash extend the
// first chain, since the first event was moved; and an exchange moved both.
fn chains_have_two_moves()
    ensures one { map (λ (c : Chain). c.state) (chains clash begun 0 1) ≡ timed 0 0 ∷ timed 2 0 ∷ timed 0 1 ∷ [] }
    ensures two { map (λ (c : Chain). c.state) (chains clash begun 0 2) ≡ timed 0 0 ∷ timed 0 1 ∷ timed 0 2 ∷ timed 2 0 ∷ timed 0 1 ∷ [] }
{}

// A diversifier of 1 begins each list at its second place, and goes round.
fn a_diversifier_goes_round()
    ensures round { rotated {A = ℕ} 4 (7 ∷ 8 ∷ 9 ∷ []) ≡ 8 ∷ 9 ∷ 7 ∷ [] }
    ensures one { map (λ (c : Chain). c.state) (chains clash begun 1 1) ≡ timed 2 0 ∷ timed 0 1 ∷ timed 0 0 ∷ [] }
{}

// Three chains of one move are tried in vain, and the third of at most two leaves no defect; with a budget of 5 it
// is not come to, and one length was gone through.
fn two_moves_mend_what_one_does_not()
    ensures shallow { repaired clash begun 1 10 0 ≡ record { state = begun; outcome = Done 0 3 } }
    ensures deep { repaired clash begun 2 10 0 ≡ record { state = timed 0 2; outcome = Done 1 6 } }
    ensures spent { repaired clash begun 2 5 0 ≡ record { state = begun; outcome = Spent 0 5 1 } }
    ensures before { totals_at clash begun ≡ costing 1 0 }
    ensures after { totals_at clash (timed 0 2) ≡ costing 0 0 }
{}

// With a diversifier of 1 the chain that is taken is the eighth.
fn a_diversifier_takes_another_way()
    ensures { repaired clash begun 2 10 1 ≡ record { state = timed 0 2; outcome = Done 1 8 } }
{}
