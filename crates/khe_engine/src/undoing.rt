//! Undoing over the parts of an engine. The instance is that of the timetable.

ghost use Rattle.std.specs.Prelude.{ℕ, List, ◌≡◌, ◌↔◌, ◌≤◌, ◌+◌, ◌-◌, ◌∷◌, [], Err, IfErr, length};
ghost use Rattle.khe_told.specs.Watchers.{watcher_counts};
ghost use Rattle.undo_paths.specs.Stack.{inner, outer};
ghost use Rattle.monitor_graph.specs.Edits as groups;
ghost use Rattle.khe_engine.specs.States.{State, state_of, is_back_of_groups, undone, undone_changes};
ghost use Rattle.khe_instance.specs.declared.parts.Parts.{Parts};
ghost use Rattle.khe_told.specs.declared.refusals.Refusal.TheVariants.{NoMark};
ghost use Rattle.khe_engine.specs.Worlds.{around, closed, from_mark, fresh, last_cost, last_saved, trails_cost};
ghost use Rattle.khe_engine.specs.Records.{Leads, MarksLead, records, saved_of, undo_cost, undone_all};

use crate::regrouping::GraphWatcher;
use khe_instance::Instance;
use khe_solution::Solution;
use khe_told::{Back, Edit, Refusal, Steps};
use std::sync::ledger::Ledger;
use undo_paths::Journal;

/// Whether an edit is one of monitors and groups.
pub(crate) fn is_of_groups(edit: &Edit) -> bool
    ensures { result ≡ groups.is_of_groups edit.now }
{
    matches!(
        edit,
        Edit::Attach { .. }
            | Edit::Detach { .. }
            | Edit::MakeGroup
            | Edit::DropGroup { .. }
            | Edit::AddChild { .. }
            | Edit::RemoveChild { .. }
    )
}

/// Whether a record leads back from such an edit.
fn is_back_of_groups(back: &Back) -> bool
    ensures { result ≡ is_back_of_groups back.now }
{
    match *back {
        Back::By(edit) => is_of_groups(&edit),
        Back::Cut { .. } => false,
        Back::Make(_) => true,
        Back::Insert { .. } => true,
    }
}

/// Undoes one record.
fn revert<N: GraphWatcher, L: Ledger>(
    inst: &Instance,
    solution: &mut Solution<'_>,
    listeners: &mut N,
    back: Back,
    steps: &mut Steps<L>,
)
    requires leads { Leads inst.now (N.board listeners.old).seats (state_of solution.old.slots (N.board listeners.old)) back }
    requires parts { solution.old.parts ≡ inst.now }
    requires of { N.IsOf listeners.old inst.now }
    requires told { N.told listeners.old ≡ solution.old.slots }
    ensures parts { solution.new.parts ≡ inst.now }
    ensures of { N.IsOf listeners.new inst.now }
    ensures told { N.told listeners.new ≡ solution.new.slots }
    ensures marked { (N.board listeners.new).marked ≡ (N.board listeners.old).marked }
    ensures seats { (N.board listeners.new).seats ≡ (N.board listeners.old).seats }
    ensures state { (state_of solution.new.slots (N.board listeners.new)) ≡ undone (state_of solution.old.slots (N.board listeners.old)) back }
    ensures steps { steps.new + N.owed listeners.new inst.now ≤ steps.old + N.owed listeners.old inst.now + watcher_counts inst.now solution.new.slots (undone_changes (state_of solution.old.slots (N.board listeners.old)) back) }
{
    if is_back_of_groups(&back) {
        listeners.undo_grouping(inst, back);
    } else {
        solution.undo(back, listeners, steps);
    }
}

/// Undoes the records since the innermost mark, the newest first.
pub(crate) fn unwind<N: GraphWatcher, L: Ledger>(
    inst: &Instance,
    solution: &mut Solution<'_>,
    listeners: &mut N,
    journal: &mut Journal<Back>,
    steps: &mut Steps<L>,
)
    requires leads { MarksLead inst.now (N.board listeners.old).seats (state_of solution.old.slots (N.board listeners.old)) journal.old.since }
    requires parts { solution.old.parts ≡ inst.now }
    requires of { N.IsOf listeners.old inst.now }
    requires told { N.told listeners.old ≡ solution.old.slots }
    ensures parts { solution.new.parts ≡ inst.now }
    ensures of { N.IsOf listeners.new inst.now }
    ensures told { N.told listeners.new ≡ solution.new.slots }
    ensures marked { (N.board listeners.new).marked ≡ (N.board listeners.old).marked }
    ensures seats { (N.board listeners.new).seats ≡ (N.board listeners.old).seats }
    ensures leads { MarksLead inst.now (N.board listeners.new).seats (state_of solution.new.slots (N.board listeners.new)) journal.new.since }
    ensures state { (state_of solution.new.slots (N.board listeners.new)) ≡ undone_all (state_of solution.old.slots (N.board listeners.old)) (inner journal.old.since) }
    ensures inner { inner journal.new.since ≡ [] }
    ensures outer { outer journal.new.since ≡ outer journal.old.since }
    ensures marks { length journal.new.since ≡ length journal.old.since }
    ensures spare { journal.new.spare + records journal.new.since ≡ journal.old.spare + records journal.old.since }
    ensures steps { steps.new + N.owed listeners.new inst.now ≤ steps.old + N.owed listeners.old inst.now + undo_cost inst.now (state_of solution.old.slots (N.board listeners.old)) (inner journal.old.since) }
{
    while let Some(back) = journal.pop() {
        revert(inst, solution, listeners, back, steps);
    }
}

/// Closes the innermost mark.
#[tactic(auto, using(crate::proofs::RecordLaws::lead_close, crate::proofs::RecordLaws::saved_close, crate::proofs::RecordLaws::spare_close, crate::proofs::RecordLaws::no_saved, crate::proofs::RecordLaws::no_mark))]
pub(crate) fn close(journal: &mut Journal<Back>) -> Result<(), Refusal>
    ensures refused { (s : State) → (result ≡ Err NoMark) ↔ (saved_of s journal.old.since ≡ []) }
    ensures only { IfErr result (λ r. r ≡ NoMark) }
    ensures leads { (p : Parts) (n : List ℕ) (s : State) → MarksLead p n s journal.old.since → MarksLead p n s journal.new.since }
    ensures saved { (s : State) → saved_of s journal.new.since ≡ closed (saved_of s journal.old.since) }
    ensures spare { journal.old.spare + records journal.old.since ≤ journal.new.spare + records journal.new.since }
{
    journal.unmark()
}

/// How many marks are open.
#[tactic(auto, using(crate::proofs::RecordLaws::length_saved))]
pub(crate) fn marks_of(journal: &Journal<Back>) -> u32
    ensures marks { result ≡ length journal.now.since }
    ensures saved { (s : State) → result ≡ length (saved_of s journal.now.since) }
{
    journal.marks()
}

/// Undoes to the innermost mark, and closes it.
#[tactic(auto, using(crate::proofs::MarkLaws::fall_saved, crate::proofs::MarkLaws::fall_marks, crate::proofs::RecordLaws::lead_close, crate::proofs::RecordLaws::spare_close, crate::proofs::RecordLaws::last_cost_is))]
fn fall<N: GraphWatcher, L: Ledger>(
    inst: &Instance,
    solution: &mut Solution<'_>,
    listeners: &mut N,
    journal: &mut Journal<Back>,
    steps: &mut Steps<L>,
)
    requires two { 2 ≤ length journal.old.since }
    requires leads { MarksLead inst.now (N.board listeners.old).seats (state_of solution.old.slots (N.board listeners.old)) journal.old.since }
    requires parts { solution.old.parts ≡ inst.now }
    requires of { N.IsOf listeners.old inst.now }
    requires told { N.told listeners.old ≡ solution.old.slots }
    ensures parts { solution.new.parts ≡ inst.now }
    ensures of { N.IsOf listeners.new inst.now }
    ensures told { N.told listeners.new ≡ solution.new.slots }
    ensures marked { (N.board listeners.new).marked ≡ (N.board listeners.old).marked }
    ensures seats { (N.board listeners.new).seats ≡ (N.board listeners.old).seats }
    ensures leads { MarksLead inst.now (N.board listeners.new).seats (state_of solution.new.slots (N.board listeners.new)) journal.new.since }
    ensures saved { saved_of (state_of solution.new.slots (N.board listeners.new)) journal.new.since ≡ around (saved_of (state_of solution.old.slots (N.board listeners.old)) journal.old.since) }
    ensures marks { length journal.new.since + 1 ≡ length journal.old.since }
    ensures spare { journal.old.spare + records journal.old.since ≤ journal.new.spare + records journal.new.since }
    ensures steps { steps.new + N.owed listeners.new inst.now ≤ steps.old + N.owed listeners.old inst.now + last_cost inst.now (saved_of (state_of solution.old.slots (N.board listeners.old)) journal.old.since) }
{
    unwind(inst, solution, listeners, journal, steps);
    let _ = journal.unmark();
}

/// Undoes to a mark, counted from 1 at the outermost, and closes the marks inside it.
#[tactic(auto, using(crate::proofs::MarkLaws::from_more, crate::proofs::MarkLaws::trails_more, crate::proofs::MarkLaws::to_state, crate::proofs::MarkLaws::to_saved, crate::proofs::RecordLaws::last_cost_is, crate::proofs::RecordLaws::length_saved))]
pub(crate) fn unwind_to<N: GraphWatcher, L: Ledger>(
    inst: &Instance,
    solution: &mut Solution<'_>,
    listeners: &mut N,
    journal: &mut Journal<Back>,
    k: u32,
    steps: &mut Steps<L>,
)
    requires mark { (1 ≤ k) × (k ≤ length journal.old.since) }
    requires leads { MarksLead inst.now (N.board listeners.old).seats (state_of solution.old.slots (N.board listeners.old)) journal.old.since }
    requires parts { solution.old.parts ≡ inst.now }
    requires of { N.IsOf listeners.old inst.now }
    requires told { N.told listeners.old ≡ solution.old.slots }
    ensures parts { solution.new.parts ≡ inst.now }
    ensures of { N.IsOf listeners.new inst.now }
    ensures told { N.told listeners.new ≡ solution.new.slots }
    ensures marked { (N.board listeners.new).marked ≡ (N.board listeners.old).marked }
    ensures seats { (N.board listeners.new).seats ≡ (N.board listeners.old).seats }
    ensures leads { MarksLead inst.now (N.board listeners.new).seats (state_of solution.new.slots (N.board listeners.new)) journal.new.since }
    ensures state { (state_of solution.new.slots (N.board listeners.new)) ≡ last_saved (state_of solution.old.slots (N.board listeners.old)) (from_mark k (saved_of (state_of solution.old.slots (N.board listeners.old)) journal.old.since)) }
    ensures saved { saved_of (state_of solution.new.slots (N.board listeners.new)) journal.new.since ≡ fresh (state_of solution.new.slots (N.board listeners.new)) ∷ around (from_mark k (saved_of (state_of solution.old.slots (N.board listeners.old)) journal.old.since)) }
    ensures spare { journal.old.spare + records journal.old.since ≤ journal.new.spare + records journal.new.since }
    ensures steps { steps.new + N.owed listeners.new inst.now ≤ steps.old + N.owed listeners.old inst.now + trails_cost inst.now (length journal.old.since + 1 - k) (saved_of (state_of solution.old.slots (N.board listeners.old)) journal.old.since) }
{
    while journal.marks() > k {
        fall(inst, solution, listeners, journal, steps);
    }
    unwind(inst, solution, listeners, journal, steps);
}
