//! What is true of every told state and of every change that fits it, whoever keeps it. Each
//! function's contract is a law: it is proved, and running the function does nothing.
#![allow(dead_code)]

ghost use Rattle.std.specs.Prelude.{◌≡◌, All, List, map};
ghost use Rattle.khe_instance.specs.Running.{duties};
ghost use Rattle.khe_instance.specs.States.{IsTold, IsValid};
ghost use Rattle.khe_instance.specs.WellMade.{AreWellMade};
ghost use Rattle.khe_instance.specs.declared.parts.Parts.{Parts};
ghost use Rattle.khe_instance.specs.declared.states.Plain.{Plain};
ghost use Rattle.khe_told.specs.Changes.{after, after_all, inverse, inverses};
ghost use Rattle.khe_told.specs.Fits.{AreTold, AllFit, Fits};
ghost use Rattle.khe_told.specs.Lists.{duties_in, meets_in, tasks_in};
ghost use Rattle.khe_told.specs.Slots.{emptied, no_meets, IsBareIfFree};
ghost use Rattle.khe_told.specs.Valid.{AreMonitorsKept, AreValid};
ghost use Rattle.khe_told.specs.Watchers.{watcher_count, watcher_counts};
ghost use Rattle.khe_told.specs.declared.changes.Change.{Change};
ghost use Rattle.khe_told.specs.declared.slots.Slot.{Slot};

// A change and then its inverse leave the told state as it was, and both have as many watchers.
fn a_change_and_its_inverse()
    ensures fits { (p : Parts) (s : List Slot) (c : Change) → AreTold p s → Fits p s c → Fits p (after s c) (inverse c) }
    ensures back { (p : Parts) (s : List Slot) (c : Change) → AreTold p s → Fits p s c → after (after s c) (inverse c) ≡ s }
    ensures watchers { (p : Parts) (s : List Slot) (c : Change) → Fits p s c → watcher_count p (after s c) (inverse c) ≡ watcher_count p s c }
{}

// So do a list of changes and then their inverses in reverse order.
fn changes_and_their_inverses()
    ensures fit { (p : Parts) (s : List Slot) (cs : List Change) → AreTold p s → AllFit p s cs → AllFit p (after_all s cs) (inverses cs) }
    ensures back { (p : Parts) (s : List Slot) (cs : List Change) → AreTold p s → AllFit p s cs → after_all (after_all s cs) (inverses cs) ≡ s }
    ensures watchers { (p : Parts) (s : List Slot) (cs : List Change) → AreTold p s → AllFit p s cs → watcher_counts p (after_all s cs) (inverses cs) ≡ watcher_counts p s cs }
{}

// A told state lists the meets and tasks of a state that is told, and their duties are its own. A
// valid one lists a valid state.
fn slots_list_a_state()
    ensures duties { (p : Parts) (s : List Slot) → AreWellMade p → AreTold p s → duties (meets_in s) (tasks_in s) ≡ duties_in s }
    ensures told { (p : Parts) (s : List Slot) → AreWellMade p → AreTold p s → IsTold p (meets_in s) (tasks_in s) }
    ensures valid { (p : Parts) (s : List Slot) (plain : Plain) → AreWellMade p → AreValid p s → plain.meets ≡ meets_in s → plain.tasks ≡ tasks_in s → AreMonitorsKept p plain → IsValid p plain }
{}

// Slots of the instance that list a told state, with nothing given in free ones, are told, and
// slots that list a valid state are valid.
fn a_state_is_listed_by_slots()
    ensures told { (p : Parts) (s : List Slot) → AreWellMade p → map emptied s ≡ no_meets p → All IsBareIfFree s → IsTold p (meets_in s) (tasks_in s) → AreTold p s }
    ensures valid { (p : Parts) (s : List Slot) (plain : Plain) → AreWellMade p → map emptied s ≡ no_meets p → All IsBareIfFree s → plain.meets ≡ meets_in s → plain.tasks ≡ tasks_in s → IsValid p plain → AreValid p s }
{}
