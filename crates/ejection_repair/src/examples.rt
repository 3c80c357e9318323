//! What repair of a small timetable comes to. Each function's contract is an example: it is proved,
//! and nothing calls it.
#![allow(dead_code)]
#![tactic(auto, unfolding(crate::specs::Chains::chains, crate::specs::Chains::extensions, crate::specs::Chains::longer, crate::specs::Chains::rotated, crate::specs::Chains::tried, crate::specs::Repaired::repaired, crate::specs::Repaired::run, crate::specs::Repaired::tries_from, crate::specs::Trails::is_fresh, crate::specs::Trails::was_moved, crate::specs::Values::are_lower, crate::specs::Values::costs_at, crate::specs::Values::defects_from, crate::specs::Values::totals_at, khe_engine::specs::States::edited, khe_engine::specs::Values::deviations_in, khe_solution::specs::Editing::edited, khe_solution::specs::Refusing::refusal, monitor_graph::specs::Dearer::dearer_from, monitor_graph::specs::Dearer::only, repair_moves::specs::Items::is_free_at, repair_moves::specs::Items::is_item, repair_moves::specs::Items::is_meet_at, repair_moves::specs::Items::is_open_at, repair_moves::specs::Items::is_task_at, repair_moves::specs::Items::item_slots, repair_moves::specs::Items::task_at, repair_moves::specs::Moved::moved_by, repair_moves::specs::Moves::choices, repair_moves::specs::Moves::choices_from, repair_moves::specs::Moves::edit_of, repair_moves::specs::Moves::is_accepted, repair_moves::specs::Moves::items_from, repair_moves::specs::Moves::moves, repair_moves::specs::Moves::moves_of, repair_moves::specs::Moves::moves_under, repair_moves::specs::Moves::part_from, repair_moves::specs::Picked::picked, repair_moves::specs::Table::parts_of))]

ghost use Rattle.std.specs.Prelude.{◌≡◌, None, [], ◌∷◌};
ghost use Rattle.repair_moves.specs.Examples.{at, free, slot, small};
ghost use Rattle.ejection_repair.specs.Examples.{state_of};
ghost use Rattle.ejection_repair.specs.Repaired.{repaired};
ghost use Rattle.ejection_repair.specs.declared.outcome.Outcome.TheVariants.{Done, Spent};

// A meet of duration 2 without a start, which is to be two meets of duration 1, is assigned to the one
// time from which it does not end too late; then it is cut.
fn a_meet_is_assigned_and_then_cut()
    ensures spent { repaired small (state_of (slot 0 0 2 None None ∷ free 1 0 ∷ slot 2 1 1 (at 0) None ∷ [])) 1 1 0
        ≡ record { state = state_of (slot 0 0 2 (at 0) None ∷ free 1 0 ∷ slot 2 1 1 (at 0) None ∷ []); outcome = Spent 1 1 0 } }
    ensures done { repaired small (state_of (slot 0 0 2 None None ∷ free 1 0 ∷ slot 2 1 1 (at 0) None ∷ [])) 1 2 0
        ≡ record { state = state_of (slot 0 0 1 (at 0) None ∷ slot 1 0 1 (at 1) None ∷ slot 2 1 1 (at 0) None ∷ []); outcome = Done 2 2 } }
{}
