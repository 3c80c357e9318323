//! The engine: a timetable that is edited, with its costs, marks and undo.

ghost use Rattle.std.specs.Prelude.{ℕ, ◌≡◌, ◌↔◌, ◌<◌, ◌≤◌, ◌+◌, ◌-◌, ◌⊎◌, ◌∷◌, [], false, true, None, Some, Err, List, length, IfErr, IfOk, IsOk, OnErr, OnOk};
ghost use Rattle.khe_base.specs.Totals.{is_lower};
ghost use Rattle.khe_base.specs.declared.limits.TheConstants.{MARKS};
ghost use Rattle.khe_solution.specs.Refusing.{is_of_meets, refusal as meets_refusal};
ghost use Rattle.khe_told.specs.Watchers.{watcher_counts};
ghost use Rattle.khe_told.specs.declared.refusals.Refusal.TheVariants.{NoMark, MarksFull};
ghost use Rattle.monitor_graph.specs.Edits.{adds_child};
ghost use Rattle.khe_engine.specs.Resting.{FitsIn, world_of};
ghost use Rattle.khe_engine.specs.States.{refusal, edited, made, changes};
ghost use Rattle.khe_engine.specs.Values.{totals};
ghost use Rattle.khe_engine.specs.Worlds.{Saved, IsFaultOf, around, closed, fresh, from_mark, grown, kept, last_cost, last_saved, trails_cost};

use crate::asking::ask;
use crate::behind::Behind;
use crate::editing::edit_any;
use crate::faults::EditFault;
use crate::late::Late;
use crate::listeners::Listeners;
use crate::resting::Resting;
use crate::trials::{is_lower_after, totals_after};
use crate::undoing::{close, marks_of, unwind, unwind_to};
use khe_base::{NoMemory, Totals};
use khe_instance::Instance;
use khe_solution::Solution;
use khe_told::{Back, Change, Edit, Family, Refusal, Steps};
use std::marker::Model;
use std::sync::ledger::Ledger;
use undo_paths::Journal;

/// A timetable that is edited, with the values of all its monitors, groups of monitors, marks, and
/// the way back to each mark. Contracts see its world: the state, and the whole states that were
/// saved at the open marks.
///
/// An edit touches what watches its changes and nothing else.
pub struct Engine<'i, F: Family> {
    pub(crate) inst: &'i Instance,
    pub(crate) solution: Solution<'i>,
    pub(crate) listeners: Listeners<F>,
    /// A record for each edit since the outermost mark.
    pub(crate) journal: Journal<Back>,
    /// The changes of an edit that is only tried.
    pub(crate) list: Vec<Change>,
    /// Whether changes are kept for later where the engine is put off.
    pub(crate) defers: bool,
}

// By hand: an exit of a caller then has one call to prove, and not a drop for each field.
impl<'i, F: Family + Drop> Drop for Engine<'i, F> {
    fn drop(self) {
        let Engine {
            inst: _inst,
            solution: _solution,
            listeners: _listeners,
            journal: _journal,
            list: _list,
            defers: _defers,
        } = self;
    }
}

impl<'i, F: Family> Model for Engine<'i, F> {
    ghost use Rattle.std.specs.Prelude.{◌≡◌, vec_capacity};
    ghost use Rattle.khe_solution.specs.Timetables.{HasRoom};
    ghost use Rattle.khe_engine.specs.Settled.{IsIdle};
    ghost use Rattle.khe_engine.specs.States.{state_of};
    ghost use Rattle.khe_engine.specs.Values.{HasValues, ServesAll};
    ghost use Rattle.khe_engine.specs.Worlds.{World};
    ghost use Rattle.khe_engine.specs.Records.{MarksLead, saved_of};

    ghost Value = { World };

    ghost view = { λ e. record {
      parts = e.inst.now;
      state = state_of e.solution.slots e.listeners.graph;
      saved = saved_of (state_of e.solution.slots e.listeners.graph) e.journal.since;
      spare = e.journal.spare;
      marked = e.listeners.graph.marked;
    } };

    ghost invariant = { λ e. (e.solution.parts ≡ e.inst.now) × F.IsOf e.listeners.families e.inst.now × ServesAll F.serves_kind
        × (F.told e.listeners.families ≡ e.solution.slots) × HasValues e.inst.now e.solution.slots e.listeners.graph
        × MarksLead e.inst.now e.listeners.graph.seats (state_of e.solution.slots e.listeners.graph) e.journal.since
        × IsIdle e.inst.now e.listeners.waiting × HasRoom e.inst.now (vec_capacity e.list) };
}

impl<'i, F: Family> Engine<'i, F> {
    /// The instance that it was opened on.
    pub fn instance(&self) -> &'i Instance
        ensures { result.now ≡ self.now.parts }
    {
        self.inst
    }

    /// The timetable.
    pub fn solution(&self) -> &Solution<'i>
        ensures parts { result.now.parts ≡ self.now.parts }
        ensures slots { result.now.slots ≡ self.now.state.slots }
    {
        &self.solution
    }

    /// Makes room for this many records from now on, so that as many edits, AddChild excepted, need
    /// no memory. Where memory is refused all stays as it was. It takes time in proportion to the
    /// records where they move.
    pub fn reserve(&mut self, n: u32) -> Result<(), NoMemory>
        ensures parts { self.new.parts ≡ self.old.parts }
        ensures state { self.new.state ≡ self.old.state }
        ensures saved { self.new.saved ≡ self.old.saved }
        ensures marked { self.new.marked ≡ self.old.marked }
        ensures kept { self.old.spare ≤ self.new.spare }
        ensures ok { OnOk result (n ≤ self.new.spare) }
    {
        self.journal.reserve(n)
    }

    /// How many marks are open.
    pub fn marks(&self) -> u32
        ensures { result ≡ length self.now.saved }
    {
        marks_of(&self.journal)
    }

    /// Makes an edit. It answers the number of the meet or the group that it makes, if any.
    ///
    /// It is refused by its first refusal, and otherwise fails only where there is no memory for its
    /// record, of which there is one where a mark is open, or for the child that it adds. After a
    /// fault the state and the marks are as they were.
    #[tactic(auto, using(crate::proofs::RecordLaws::kept_records, crate::proofs::RecordLaws::no_saved))]
    pub fn edit<L: Ledger>(
        &mut self,
        edit: Edit,
        steps: &mut Steps<L>,
    ) -> Result<Option<u32>, EditFault>
        ensures parts { self.new.parts ≡ self.old.parts }
        ensures accepted { OnOk result (refusal self.old.parts self.old.state edit ≡ None) }
        ensures fault { IfErr result (IsFaultOf (refusal self.old.parts self.old.state edit)) }
        ensures made { IfOk result (λ n. n ≡ made self.old.state edit) }
        ensures state { OnOk result (self.new.state ≡ edited self.old.state edit) }
        ensures saved { OnOk result (self.new.saved ≡ grown (changes self.old.state edit) self.old.saved) }
        ensures err { OnErr result ((self.new.state ≡ self.old.state) × (self.new.saved ≡ self.old.saved) × (steps.new ≡ steps.old)) }
        ensures steps { OnOk result (steps.new ≤ steps.old + watcher_counts self.old.parts self.old.state.slots (changes self.old.state edit)) }
        ensures marked { self.new.marked ≡ self.old.marked }
        ensures spare { self.old.spare + kept self.old.saved ≤ self.new.spare + kept self.new.saved }
        ensures room { refusal self.old.parts self.old.state edit ≡ None → adds_child edit ≡ false → 1 ≤ self.old.spare → IsOk result }
        ensures unmarked { refusal self.old.parts self.old.state edit ≡ None → adds_child edit ≡ false → self.old.saved ≡ [] → IsOk result }
    {
        edit_any(
            self.inst,
            &mut self.solution,
            &mut self.listeners,
            &mut self.journal,
            edit,
            steps,
        )
    }

    /// The totals that an accepted edit of meets and tasks would leave. The engine stays as it is. It takes no
    /// memory, and at most the time of the edit and its undo.
    pub fn totals_after(&mut self, edit: &Edit) -> Totals
        requires ours { is_of_meets edit.now ≡ true }
        requires accepted { meets_refusal self.old.parts self.old.state.slots edit.now ≡ None }
        ensures totals { result ≡ totals self.old.parts (edited self.old.state edit.now) }
        ensures same { self.new ≡ self.old }
    {
        totals_after(
            self.inst,
            &self.solution,
            &mut self.listeners,
            &mut self.list,
            edit,
        )
    }

    /// Whether an accepted edit of meets and tasks would leave lower totals than these: by the hard total, and by the
    /// soft one where the hard totals are equal. The engine stays as it is. It takes no memory, and at most as long
    /// as `totals_after`: what deviates now is measured first, and nothing more once the totals can't be lower.
    pub fn is_lower_after(&mut self, edit: &Edit, lowest: Totals) -> bool
        requires ours { is_of_meets edit.now ≡ true }
        requires accepted { meets_refusal self.old.parts self.old.state.slots edit.now ≡ None }
        ensures lower { result ≡ is_lower (totals self.old.parts (edited self.old.state edit.now)) lowest }
        ensures same { self.new ≡ self.old }
    {
        is_lower_after(
            self.inst,
            &self.solution,
            &mut self.listeners,
            &mut self.list,
            edit,
            lowest,
        )
    }

    /// The totals that an edit would leave, or the first refusal of it. The engine stays as it is. It takes no memory and
    /// no step, and at most as long as the edit and its undoing take but for what costs are kept of.
    pub fn ask(&mut self, edit: &Edit) -> Result<Totals, Refusal>
        ensures accepted { OnOk result (refusal self.old.parts self.old.state edit.now ≡ None) }
        ensures refused { IfErr result (λ r. refusal self.old.parts self.old.state edit.now ≡ Some r) }
        ensures totals { IfOk result (λ t. t ≡ totals self.old.parts (edited self.old.state edit.now)) }
        ensures same { self.new ≡ self.old }
    {
        ask(
            self.inst,
            &self.solution,
            &mut self.listeners,
            &mut self.list,
            edit,
        )
    }

    /// Opens a mark inside all open ones. It is refused where as many are open as may be.
    #[tactic(auto, using(crate::proofs::RecordLaws::length_saved))]
    pub fn begin(&mut self) -> Result<(), Refusal>
        ensures parts { self.new.parts ≡ self.old.parts }
        ensures state { self.new.state ≡ self.old.state }
        ensures refused { (result ≡ Err MarksFull) ↔ (length self.old.saved ≡ MARKS) }
        ensures only { IfErr result (λ r. r ≡ MarksFull) }
        ensures ok { OnOk result (self.new.saved ≡ fresh self.old.state ∷ self.old.saved) }
        ensures err { OnErr result (self.new.saved ≡ self.old.saved) }
        ensures marked { self.new.marked ≡ self.old.marked }
        ensures spare { self.new.spare ≡ self.old.spare }
    {
        self.journal.mark()
    }

    /// Closes the innermost mark, and keeps the edits since then. It is refused where no mark is
    /// open, and nothing changes.
    #[tactic(auto, using(crate::proofs::RecordLaws::kept_records))]
    pub fn end(&mut self) -> Result<(), Refusal>
        ensures parts { self.new.parts ≡ self.old.parts }
        ensures state { self.new.state ≡ self.old.state }
        ensures refused { (result ≡ Err NoMark) ↔ (self.old.saved ≡ []) }
        ensures only { IfErr result (λ r. r ≡ NoMark) }
        ensures saved { self.new.saved ≡ closed self.old.saved }
        ensures marked { self.new.marked ≡ self.old.marked }
        ensures spare { self.old.spare + kept self.old.saved ≤ self.new.spare + kept self.new.saved }
    {
        close(&mut self.journal)
    }

    /// Undoes all edits since the innermost mark, which stays open. It is refused where no mark is
    /// open, and nothing changes.
    #[tactic(auto, using(crate::proofs::RecordLaws::last_cost_is, crate::proofs::RecordLaws::kept_records))]
    pub fn undo<L: Ledger>(&mut self, steps: &mut Steps<L>) -> Result<(), Refusal>
        ensures parts { self.new.parts ≡ self.old.parts }
        ensures refused { (result ≡ Err NoMark) ↔ (self.old.saved ≡ []) }
        ensures only { IfErr result (λ r. r ≡ NoMark) }
        ensures ok { OnOk result ((x : Saved) (xs : List Saved) → self.old.saved ≡ x ∷ xs → (self.new.state ≡ x.state) × (self.new.saved ≡ fresh x.state ∷ xs)) }
        ensures err { OnErr result (self.new ≡ self.old) }
        ensures marked { self.new.marked ≡ self.old.marked }
        ensures spare { self.old.spare + kept self.old.saved ≤ self.new.spare + kept self.new.saved }
        ensures steps { steps.new ≤ steps.old + last_cost self.old.parts self.old.saved }
        ensures no_steps { OnErr result (steps.new ≡ steps.old) }
    {
        if self.journal.marks() == 0 {
            return Err(Refusal::NoMark);
        }
        unwind(
            self.inst,
            &mut self.solution,
            &mut self.listeners,
            &mut self.journal,
            steps,
        );
        Ok(())
    }

    /// Undoes all edits since a mark, counted from 1 at the outermost, which stays open, and closes
    /// the marks inside it. It is refused where no mark has this number, and nothing changes.
    #[tactic(auto, using(crate::proofs::RecordLaws::length_saved, crate::proofs::RecordLaws::kept_records))]
    pub fn undo_to<L: Ledger>(&mut self, k: u32, steps: &mut Steps<L>) -> Result<(), Refusal>
        ensures parts { self.new.parts ≡ self.old.parts }
        ensures accepted { OnOk result ((1 ≤ k) × (k ≤ length self.old.saved)) }
        ensures refused { IfErr result (λ r. (r ≡ NoMark) × (k < 1 ⊎ length self.old.saved < k)) }
        ensures state { OnOk result (self.new.state ≡ last_saved self.old.state (from_mark k self.old.saved)) }
        ensures saved { OnOk result (self.new.saved ≡ fresh self.new.state ∷ around (from_mark k self.old.saved)) }
        ensures err { OnErr result (self.new ≡ self.old) }
        ensures marked { self.new.marked ≡ self.old.marked }
        ensures spare { self.old.spare + kept self.old.saved ≤ self.new.spare + kept self.new.saved }
        ensures steps { OnOk result (steps.new ≤ steps.old + trails_cost self.old.parts (length self.old.saved + 1 - k) self.old.saved) }
        ensures no_steps { OnErr result (steps.new ≡ steps.old) }
    {
        if k == 0 {
            return Err(Refusal::NoMark);
        }
        if marks_of(&self.journal) < k {
            return Err(Refusal::NoMark);
        }
        unwind_to(
            self.inst,
            &mut self.solution,
            &mut self.listeners,
            &mut self.journal,
            k,
            steps,
        );
        Ok(())
    }
}

impl<'i, F: Family> Engine<'i, F> {
    /// Lets go of the instance. It takes constant time and no memory.
    pub fn rest(self) -> Resting<F>
        ensures fits { FitsIn F.IsOf F.told self.entry.parts result }
        ensures same { world_of self.entry.parts result ≡ self.entry }
    {
        let Engine {
            inst: _,
            solution,
            listeners,
            journal,
            list,
            defers,
        } = self;
        Resting {
            solution: solution.rest(),
            listeners,
            journal,
            list,
            defers,
        }
    }
}

impl<'i, F: Family> Engine<'i, F> {
    /// The same engine, put off: it measures nothing until it catches up. It owes no step yet. The call takes
    /// constant time and no memory.
    pub fn put_off(self) -> Behind<'i, F>
        ensures same { result.world ≡ self.entry }
        ensures owed { result.owed ≡ 0 }
    {
        let Engine {
            inst,
            solution,
            listeners,
            journal,
            mut list,
            defers,
        } = self;
        list.clear();
        let late = Late {
            listeners,
            changes: list,
            defers,
        };
        Behind {
            inst,
            solution,
            late,
            journal,
        }
    }
}
