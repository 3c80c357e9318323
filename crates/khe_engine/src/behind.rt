//! An engine that is behind: its timetable, marks and undo records are up to date, and its costs are known
//! again once it has caught up.

ghost use Rattle.std.specs.Prelude.{◌≡◌, ◌≤◌, ◌+◌};

use crate::edited::Edited;
use crate::editing::edit_any;
use crate::engine::Engine;
use crate::faults::EditFault;
use crate::late::Late;
use crate::undoing::{close, marks_of, unwind, unwind_to};
use khe_instance::Instance;
use khe_solution::Solution;
use khe_told::{Back, Edit, Family, Refusal, Steps};
use std::marker::Model;
use std::sync::ledger::Ledger;
use undo_paths::Journal;

/// An engine that is not asked for costs for a while. It is edited and has marks as an engine does (`Edited`),
/// with the same answers; but its families follow the edits, and its monitors are measured, only when it
/// catches up: each slot and each monitor once, whatever the number of edits since, and nothing at all for
/// edits that were undone meanwhile. Contracts see the world of an engine, and how many steps it owes at most:
/// the watchers of the changes that it was told and has not measured, which a change that is taken back lowers.
///
/// An edit takes the time of its check and of its changes. A thousand changes are kept; the edit that finds no room
/// for its own takes the time of all of them. Where an event has more than 64 places each edit is followed at once:
/// many changes are compared at all places of their meets, one edit's changes at the places that it names. Steps are
/// counted for the call that takes them.
pub struct Behind<'i, F: Family> {
    pub(crate) inst: &'i Instance,
    pub(crate) solution: Solution<'i>,
    pub(crate) late: Late<F>,
    pub(crate) journal: Journal<Back>,
}

// By hand: an exit of a caller then has one call to prove, and not a drop for each field.
impl<'i, F: Family + Drop> Drop for Behind<'i, F> {
    fn drop(self) {
        let Behind {
            inst: _inst,
            solution: _solution,
            late: _late,
            journal: _journal,
        } = self;
    }
}

impl<'i, F: Family> Model for Behind<'i, F> {
    ghost use Rattle.std.specs.Prelude.{◌≡◌, vec_capacity};
    ghost use Rattle.khe_solution.specs.Timetables.{HasRoom};
    ghost use Rattle.khe_told.specs.Changes.{after_all};
    ghost use Rattle.khe_engine.specs.Late.{IsBehind};
    ghost use Rattle.khe_engine.specs.Settled.{IsIdle};
    ghost use Rattle.khe_engine.specs.States.{state_of};
    ghost use Rattle.khe_engine.specs.Values.{HasValues, ServesAll};
    ghost use Rattle.khe_told.specs.Watchers.{watcher_counts};
    ghost use Rattle.khe_engine.specs.Worlds.{Owing};
    ghost use Rattle.khe_engine.specs.Records.{MarksLead, saved_of};

    ghost Value = { Owing };

    ghost view = { λ e. record {
      world = record {
        parts = e.inst.now;
        state = state_of e.solution.slots e.late.listeners.graph;
        saved = saved_of (state_of e.solution.slots e.late.listeners.graph) e.journal.since;
        spare = e.journal.spare;
        marked = e.late.listeners.graph.marked;
      };
      owed = watcher_counts e.inst.now (F.told e.late.listeners.families) e.late.changes.items;
    } };

    ghost invariant = { λ e. (e.solution.parts ≡ e.inst.now)
        × ((F.IsOf e.late.listeners.families e.inst.now × ServesAll F.serves_kind
        × HasValues e.inst.now (F.told e.late.listeners.families) e.late.listeners.graph
        × IsIdle e.inst.now e.late.listeners.waiting)
        × IsBehind e.inst.now (F.told e.late.listeners.families) e.late.changes.items
        × HasRoom e.inst.now (vec_capacity e.late.changes))
        × (after_all (F.told e.late.listeners.families) e.late.changes.items ≡ e.solution.slots)
        × MarksLead e.inst.now e.late.listeners.graph.seats
        (state_of e.solution.slots e.late.listeners.graph) e.journal.since };
}

impl<'i, F: Family> Behind<'i, F> {
    /// The engine, with the costs of the timetable as it stands. It takes the time of what the edits changed since it
    /// was put off, at most as many steps as it owes, and no memory.
    pub fn caught_up<L: Ledger>(self, steps: &mut Steps<L>) -> Engine<'i, F>
        ensures same { result ≡ self.entry.world }
        ensures steps { steps.new ≤ steps.old + self.entry.owed }
    {
        let Behind {
            inst,
            solution,
            mut late,
            journal,
        } = self;
        late.catch_up(inst, steps);
        let Late {
            listeners,
            changes,
            defers,
        } = late;
        Engine {
            inst,
            solution,
            listeners,
            journal,
            list: changes,
            defers,
        }
    }
}

impl<'i, F: Family> Edited for Behind<'i, F> {
    ghost world = { λ e. e.world };

    ghost owed = { λ e. e.owed };

    #[tactic(auto, using(crate::proofs::RecordLaws::kept_records, crate::proofs::RecordLaws::no_saved))]
    fn edit<L: Ledger>(
        &mut self,
        edit: Edit,
        steps: &mut Steps<L>,
    ) -> Result<Option<u32>, EditFault> {
        edit_any(
            self.inst,
            &mut self.solution,
            &mut self.late,
            &mut self.journal,
            edit,
            steps,
        )
    }

    #[tactic(auto, using(crate::proofs::RecordLaws::length_saved))]
    fn begin(&mut self) -> Result<(), Refusal> {
        self.journal.mark()
    }

    #[tactic(auto, using(crate::proofs::RecordLaws::kept_records))]
    fn end(&mut self) -> Result<(), Refusal> {
        close(&mut self.journal)
    }

    #[tactic(auto, using(crate::proofs::RecordLaws::last_cost_is, crate::proofs::RecordLaws::kept_records))]
    fn undo<L: Ledger>(&mut self, steps: &mut Steps<L>) -> Result<(), Refusal> {
        if self.journal.marks() == 0 {
            return Err(Refusal::NoMark);
        }
        unwind(
            self.inst,
            &mut self.solution,
            &mut self.late,
            &mut self.journal,
            steps,
        );
        Ok(())
    }

    #[tactic(auto, using(crate::proofs::RecordLaws::length_saved, crate::proofs::RecordLaws::kept_records))]
    fn undo_to<L: Ledger>(&mut self, k: u32, steps: &mut Steps<L>) -> Result<(), Refusal> {
        if k == 0 {
            return Err(Refusal::NoMark);
        }
        if marks_of(&self.journal) < k {
            return Err(Refusal::NoMark);
        }
        unwind_to(
            self.inst,
            &mut self.solution,
            &mut self.late,
            &mut self.journal,
            k,
            steps,
        );
        Ok(())
    }
}
