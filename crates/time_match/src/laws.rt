//! What follows from the definitions of a matching. The contract of each function is a law: it is proved, and nothing
//! calls it.
#![allow(dead_code)]

ghost use Rattle.std.specs.Prelude.{ℕ, ◌≡◌, ◌+◌, ◌⊎◌, Bool, List, true, false};
ghost use Rattle.khe_base.specs.Totals.{is_lower};
ghost use Rattle.khe_base.specs.declared.numbers.ResourceId.{ResourceId as ResourceOf};
ghost use Rattle.khe_base.specs.declared.numbers.TaskId.{TaskId as TaskOf};
ghost use Rattle.khe_engine.specs.States.{State};
ghost use Rattle.khe_engine.specs.Values.{totals};
ghost use Rattle.khe_instance.specs.declared.parts.Parts.{Parts};
ghost use Rattle.khe_told.specs.declared.slots.Slot.{Slot};
ghost use Rattle.time_match.specs.Alike.{AreAlike, IsBare};
ghost use Rattle.time_match.specs.Matching.{IsMatched, left_by};
ghost use Rattle.time_match.specs.Parted.{IsSingle, rest_with};
ghost use Rattle.time_match.specs.declared.outcomes.Matched.{Matched as Found};

// A matching leaves a timetable that costs as much as before where it is not taken, and less where it is.
fn a_matching_never_costs_more()
    ensures { (p : Parts) (s : State) (time rtype : ℕ) (m : Found) → IsMatched p s time rtype m
        → ((m.taken ≡ true) × (is_lower (totals p (left_by p s time rtype m)) (totals p s) ≡ true))
        ⊎ ((m.taken ≡ false) × (left_by p s time rtype m ≡ s)) }
{}

// Two tasks without resources that run at the same times, are worth the same and are in no group whose resources are
// counted together: with two resources, they cost together what they cost with these exchanged, but for the monitors
// that prefer some of a task's resources to others.
fn alike_tasks_exchange_resources()
    ensures hard { (p : Parts) (off : ℕ → Bool) (s : List Slot) (x y : TaskOf) (r q : ResourceOf) → IsBare s x → IsBare s y
        → AreAlike p s x y → IsSingle p s x → IsSingle p s y
        → (rest_with p off s x r).hard + (rest_with p off s y q).hard ≡ (rest_with p off s x q).hard + (rest_with p off s y r).hard }
    ensures soft { (p : Parts) (off : ℕ → Bool) (s : List Slot) (x y : TaskOf) (r q : ResourceOf) → IsBare s x → IsBare s y
        → AreAlike p s x y → IsSingle p s x → IsSingle p s y
        → (rest_with p off s x r).soft + (rest_with p off s y q).soft ≡ (rest_with p off s x q).soft + (rest_with p off s y r).soft }
{}
