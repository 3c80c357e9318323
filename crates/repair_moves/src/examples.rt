//! The lists of moves of small timetables. Each function's contract is an example: it is proved, and
//! nothing calls it.
#![allow(dead_code)]
#![tactic(auto, unfolding(crate::specs::Items::is_free_at, crate::specs::Items::is_item, crate::specs::Items::is_meet_at, crate::specs::Items::is_open_at, crate::specs::Items::is_task_at, crate::specs::Items::item_slots, crate::specs::Items::task_at, crate::specs::Moves::choices, crate::specs::Moves::choices_from, crate::specs::Moves::edit_of, crate::specs::Moves::is_accepted, crate::specs::Moves::items_from, crate::specs::Moves::moves, crate::specs::Moves::moves_of, crate::specs::Moves::moves_under, crate::specs::Moves::part_from, crate::specs::Picked::picked, crate::specs::Table::parts_of, khe_solution::specs::Refusing::refusal))]

ghost use Rattle.std.specs.Prelude.{◌≡◌, Some, None, [], ◌∷◌};
ghost use Rattle.khe_told.specs.declared.edits.Edit.TheVariants.{Assign, MoveTo, Split, Merge, SwapMeets, Give, Regive, SwapTasks};
ghost use Rattle.repair_moves.specs.Examples.{at, first_resource, free, slot, small, task_of};
ghost use Rattle.repair_moves.specs.Moves.{moves};

// A meet of duration 2 without a start ends too late from the second of two times on. A meet of
// duration 1 that starts at the first goes to the second, and exchanges starts with no meet.
fn a_meet_goes_to_each_other_time()
    ensures assigned { moves small (slot 0 0 2 None None ∷ free 1 0 ∷ slot 2 1 1 (at 0) None ∷ []) 0 ≡ Assign (record { 0 = 0 }) (record { 0 = 0 }) ∷ [] }
    ensures moved { moves small (slot 0 0 2 None None ∷ free 1 0 ∷ slot 2 1 1 (at 0) None ∷ []) 2 ≡ MoveTo (record { 0 = 2 }) (record { 0 = 1 }) ∷ [] }
{}

// A meet of duration 2 is cut once; two meets that follow each other are joined in their order alone.
fn a_meet_is_cut_and_joined()
    ensures cut { moves small (slot 0 0 2 (at 0) None ∷ free 1 0 ∷ slot 2 1 1 (at 0) None ∷ []) 1 ≡ Split (record { 0 = 0 }) 1 ∷ [] }
    ensures joined { moves small (slot 0 0 1 (at 0) None ∷ slot 1 0 1 (at 1) None ∷ slot 2 1 1 (at 0) None ∷ []) 1 ≡ Merge (record { 0 = 0 }) (record { 0 = 1 }) ∷ [] }
{}

// A time comes before an exchange of starts.
fn a_meet_exchanges_its_start_last()
    ensures { moves small (slot 0 0 1 (at 0) None ∷ slot 1 0 1 None None ∷ slot 2 1 1 (at 1) None ∷ []) 2 ≡ MoveTo (record { 0 = 2 }) (record { 0 = 0 }) ∷ SwapMeets (record { 0 = 2 }) (record { 0 = 0 }) ∷ [] }
{}

// A task of the resource is given the other one; then a task without one is given this one.
fn a_task_is_given_each_other_resource()
    ensures { moves small (slot 0 0 2 None (Some first_resource) ∷ free 1 0 ∷ slot 2 1 1 None None ∷ []) 3 ≡ Regive (task_of 0) (record { 0 = 1 }) ∷ Give (task_of 2) first_resource ∷ [] }
{}
