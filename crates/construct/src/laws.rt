//! What is true of a timetable that is constructed. Each function's contract is a law: it is proved, and running
//! the function does nothing.
#![allow(dead_code)]

ghost use Rattle.std.specs.Prelude.{ℕ, ◌≡◌, ◌↔◌, ◌≤◌, ◌++◌, ◌∷◌, Some, None, List, All, IfSome, count_by, if◌then◌else◌, map, nat_eq, slice_get, sum};
ghost use Rattle.construct.specs.Begun.{begun};
ghost use Rattle.construct.specs.Choices.{assigns, gives, lowered, lowering};
ghost use Rattle.construct.specs.Constructed.{constructed, staffed, timed};
ghost use Rattle.construct.specs.Cuts.{Keeps, amount_of, parts, set_by};
ghost use Rattle.construct.specs.Laws.{IsTaken, NoneLowers};
ghost use Rattle.construct.specs.Orders.{order};
ghost use Rattle.construct.specs.declared.bounds.Bounds.{Bounds};
ghost use Rattle.khe_base.specs.declared.numbers.TaskId.{TaskId};
ghost use Rattle.khe_engine.specs.Openings.{IsStateOf};
ghost use Rattle.khe_engine.specs.States.{State, edited};
ghost use Rattle.khe_instance.specs.Running.{meets_of};
ghost use Rattle.khe_instance.specs.WellMade.{AreWellMade};
ghost use Rattle.khe_instance.specs.declared.parts.EventInfo.{EventInfo};
ghost use Rattle.khe_instance.specs.declared.parts.Parts.{Parts};
ghost use Rattle.khe_instance.specs.declared.points.Monitor.{Monitor};
ghost use Rattle.khe_told.specs.Agreement.{deviation_in};
ghost use Rattle.khe_told.specs.Fits.{AreTold};
ghost use Rattle.khe_told.specs.Lists.{meets_in};
ghost use Rattle.khe_told.specs.Slots.{is_live, slot_at};
ghost use Rattle.khe_told.specs.declared.edits.Edit.{Edit};
ghost use Rattle.khe_told.specs.declared.slots.Slot.{Slot};

// In the order of turns each live meet of a told state stands just once, and nothing else stands there: so it is in the
// state that a construction begins with.
fn each_meet_has_its_turn_once()
    ensures once { (p : Parts) (s : List Slot) (m : ℕ) → AreTold p s → count_by (λ k. nat_eq k m) (order s) ≡ (if is_live (slot_at s m) then 1 else 0) }
    ensures begun { (p : Parts) (s : State) (m : ℕ) → IsStateOf p (begun p) s → count_by (λ k. nat_eq k m) (order s.slots) ≡ (if is_live (slot_at s.slots m) then 1 else 0) }
{}

// Of some edits the one that is taken is accepted, lowers the totals, and is the first of the edits that leave the
// least; where none is taken, none that is accepted lowers the totals, and the state stays.
fn the_first_of_the_least_is_taken()
    ensures taken { (p : Parts) (s : State) (es : List Edit) (e : Edit) → lowering p s es ≡ Some e → IsTaken p s es e }
    ensures none { (p : Parts) (s : State) (es : List Edit) → lowering p s es ≡ None → NoneLowers p s es }
    ensures left { (p : Parts) (s : State) (es : List Edit) → lowering p s es ≡ None → lowered p s es ≡ s }
    ensures made { (p : Parts) (s : State) (es : List Edit) (e : Edit) → lowering p s es ≡ Some e → lowered p s es ≡ edited s e }
{}

// Each meet has its turn in the state that those before it leave, and so has each task.
fn each_has_its_turn()
    ensures meet { (p : Parts) (s : State) (earlier later : List ℕ) (m : ℕ) → timed p s (earlier ++ m ∷ later) ≡ timed p (lowered p (timed p s earlier) (assigns p m)) later }
    ensures task { (p : Parts) (s : State) (earlier later : List TaskId) (k : TaskId) → staffed p s (earlier ++ k ∷ later) ≡ staffed p (lowered p (staffed p s earlier) (gives p k)) later }
{}

// The meets of an event without a preassigned time are its parts to the end; and where any durations of at least 1
// that add up to it keep the bounds of all its Split Events constraints, none of these deviates.
fn an_event_is_cut_as_well_as_it_can_be()
    ensures parts { (p : Parts) (s : State) (e : ℕ) (event : EventInfo) → AreWellMade p → IsStateOf p (begun p) s → slice_get p.events e ≡ Some event → map (λ m. m.duration) (meets_of e (meets_in (constructed p s).slots)) ≡ parts event.duration (amount_of p e event) }
    ensures none { (p : Parts) (s : State) (e i : ℕ) (event : EventInfo) (ds : List ℕ) (m : Monitor) (b : Bounds) → AreWellMade p → IsStateOf p (begun p) s → slice_get p.events e ≡ Some event → event.fixed ≡ None → sum ds ≡ event.duration → All (λ d. 1 ≤ d) ds → All (λ x. IfSome (set_by p e x) (λ y. Keeps y ds)) p.monitors → slice_get p.monitors i ≡ Some m → set_by p e m ≡ Some b → deviation_in p (constructed p s).slots m ≡ 0 }
{}

// A Split Events monitor of an event does not deviate, in any state, exactly where the meets of the event keep its
// bounds.
fn no_deviation_is_kept_bounds()
    ensures { (p : Parts) (s : List Slot) (e : ℕ) (m : Monitor) (b : Bounds) → set_by p e m ≡ Some b → ((deviation_in p s m ≡ 0) ↔ Keeps b (map (λ x. x.duration) (meets_of e (meets_in s)))) }
{}
