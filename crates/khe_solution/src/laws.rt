//! Edits that come to the same as several smaller ones. Each function's contract is a law: it is
//! proved, and running the function does nothing.
#![allow(dead_code)]

ghost use Rattle.std.specs.Prelude.{◌≡◌, true, false, Some, None, List, [], ◌∷◌};
ghost use Rattle.khe_base.specs.declared.numbers.MeetId.{MeetId};
ghost use Rattle.khe_base.specs.declared.numbers.ResourceId.{ResourceId};
ghost use Rattle.khe_base.specs.declared.numbers.TaskId.{TaskId};
ghost use Rattle.khe_base.specs.declared.numbers.TimeId.{TimeId};
ghost use Rattle.khe_instance.specs.declared.parts.Parts.{Parts};
ghost use Rattle.khe_told.specs.Slots.{slot_at, start_of};
ghost use Rattle.khe_told.specs.Valid.{AreValid};
ghost use Rattle.khe_told.specs.declared.slots.Slot.{Slot};
ghost use Rattle.khe_told.specs.declared.edits.Edit.{Edit};
ghost use Rattle.khe_told.specs.declared.edits.Edit.TheVariants.{Assign, Unassign, MoveTo, SwapMeets, Give, Take, Regive, SwapTasks};
ghost use Rattle.khe_solution.specs.Reading.{is_time, is_resource, resource_at};
ghost use Rattle.khe_solution.specs.Refusing.{is_of_meets, refusal};
ghost use Rattle.khe_solution.specs.Editing.{edited};
ghost use Rattle.khe_solution.specs.Steps.{IsDone};

// An accepted edit leads from a valid state to a valid one.
fn an_edit_keeps_a_state_valid()
    ensures { (p : Parts) (s : List Slot) (e : Edit) → AreValid p s → is_of_meets e ≡ true → refusal p s e ≡ None → AreValid p (edited s e) }
{}

// A move of a meet is its lift and its placing, and is accepted where these are, but for a move to
// where the meet is.
fn a_move_is_a_lift_and_a_placing()
    ensures does { (p : Parts) (s : List Slot) (m : MeetId) (t : TimeId) → refusal p s (MoveTo m t) ≡ None → IsDone p s (edited s (MoveTo m t)) (Unassign m ∷ Assign m t ∷ []) }
    ensures accepted { (p : Parts) (s : List Slot) (m : MeetId) (t : TimeId) → refusal p s (Unassign m) ≡ None → refusal p (edited s (Unassign m)) (Assign m t) ≡ None
        → is_time t.0 (start_of (slot_at s m.0)) ≡ false → refusal p s (MoveTo m t) ≡ None }
{}

// A task that is given another resource is one that is taken its own and given the other.
fn a_regive_is_a_take_and_a_give()
    ensures does { (p : Parts) (s : List Slot) (t : TaskId) (r : ResourceId) → refusal p s (Regive t r) ≡ None → IsDone p s (edited s (Regive t r)) (Take t ∷ Give t r ∷ []) }
    ensures accepted { (p : Parts) (s : List Slot) (t : TaskId) (r : ResourceId) → refusal p s (Take t) ≡ None → refusal p (edited s (Take t)) (Give t r) ≡ None
        → is_resource r.0 (resource_at s t) ≡ false → refusal p s (Regive t r) ≡ None }
{}

// Two meets that exchange their starts are both lifted and both placed.
fn a_swap_is_two_lifts_and_two_placings()
    ensures { (p : Parts) (s : List Slot) (a b : MeetId) (t u : TimeId) → AreValid p s → refusal p s (SwapMeets a b) ≡ None
        → start_of (slot_at s a.0) ≡ Some t → start_of (slot_at s b.0) ≡ Some u
        → IsDone p s (edited s (SwapMeets a b)) (Unassign a ∷ Unassign b ∷ Assign a u ∷ Assign b t ∷ []) }
{}

// Two tasks that exchange their resources are both taken theirs and both given the other's.
fn a_trade_is_two_takes_and_two_gives()
    ensures { (p : Parts) (s : List Slot) (a b : TaskId) (q r : ResourceId) → refusal p s (SwapTasks a b) ≡ None
        → resource_at s a ≡ Some q → resource_at s b ≡ Some r
        → IsDone p s (edited s (SwapTasks a b)) (Take a ∷ Take b ∷ Give a r ∷ Give b q ∷ []) }
{}
