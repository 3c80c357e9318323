//! Edits over the parts of an engine: refusals first, then memory, then the changes. The instance is
//! that of the timetable.

ghost use Rattle.std.specs.Prelude.{ℕ, ◌≡◌, ◌≢◌, ◌≤◌, ◌+◌, [], true, false, None, Some, length, IfErr, IfOk, IsOk, OnErr, OnOk};
ghost use Rattle.khe_told.specs.Watchers.{watcher_counts};
ghost use Rattle.undo_paths.specs.Stack.{with_record};
ghost use Rattle.monitor_graph.specs.Edits as groups;
ghost use Rattle.monitor_graph.specs.Groups.{HasSeat, HaveAsMany};
ghost use Rattle.khe_engine.specs.States.{state_of, refusal, edited, made, changes};
ghost use Rattle.khe_engine.specs.Worlds.{IsCheck, IsFaultOf, grown};
ghost use Rattle.khe_engine.specs.Records.{IsRecorded, MarksLead, records, saved_of};

use crate::faults::EditFault;
use crate::regrouping::GraphWatcher;
use crate::undoing::is_of_groups;
use khe_base::NoMemory;
use khe_instance::Instance;
use khe_solution::Solution;
use khe_told::{Back, Edit, Refusal, Steps};
use monitor_graph::Graph;
use std::sync::ledger::Ledger;
use undo_paths::Journal;

/// Whether an edit is accepted, and else why it is refused.
#[tactic(auto, using(crate::proofs::StateLaws::other_sort, crate::proofs::StateLaws::refusal_groups, crate::proofs::StateLaws::refusal_meets, crate::proofs::StateLaws::checked_groups, crate::proofs::StateLaws::checked_meets))]
pub(crate) fn check(solution: &Solution<'_>, graph: &Graph, edit: &Edit) -> Result<(), Refusal>
    ensures { IsCheck (refusal solution.now.parts (state_of solution.now.slots graph.now) edit.now) result }
{
    if is_of_groups(edit) {
        graph.check(edit)
    } else {
        solution.check(edit)
    }
}

/// Room for one record, where a mark is open.
fn room_for_record(journal: &mut Journal<Back>) -> Result<(), NoMemory>
    ensures since { journal.new.since ≡ journal.old.since }
    ensures kept { journal.old.spare ≤ journal.new.spare }
    ensures ok { OnOk result (journal.new.since ≢ [] → journal.new.spare ≢ 0) }
    ensures there { 1 ≤ journal.old.spare → IsOk result }
    ensures unmarked { journal.old.since ≡ [] → IsOk result }
{
    if journal.marks() > 0 {
        journal.reserve(1)?;
    }
    Ok(())
}

/// A seat for the child that an edit adds, where it adds one, in its group.
fn room_for_child<N: GraphWatcher>(
    inst: &Instance,
    listeners: &mut N,
    edit: &Edit,
) -> Result<(), NoMemory>
    requires of { N.IsOf listeners.old inst.now }
    ensures of { N.IsOf listeners.new inst.now }
    ensures told { N.told listeners.new ≡ N.told listeners.old }
    ensures owed { N.owed listeners.new inst.now ≡ N.owed listeners.old inst.now }
    ensures lines { (N.board listeners.new).lines ≡ (N.board listeners.old).lines }
    ensures groups { (N.board listeners.new).groups ≡ (N.board listeners.old).groups }
    ensures marked { (N.board listeners.new).marked ≡ (N.board listeners.old).marked }
    ensures seats { HaveAsMany (N.board listeners.old).seats (N.board listeners.new).seats }
    ensures ok { OnOk result (groups.adds_child edit.now ≡ true → HasSeat (N.board listeners.new).groups (N.board listeners.new).seats (groups.adds_to edit.now)) }
    ensures there { groups.adds_child edit.now ≡ false → IsOk result }
{
    if let Edit::AddChild { group, .. } = *edit {
        listeners.room(inst, group, 1)?;
    }
    Ok(())
}

/// Keeps a record, where a mark is open.
fn keep(journal: &mut Journal<Back>, back: Back)
    requires room { journal.old.since ≢ [] → journal.old.spare ≢ 0 }
    ensures since { journal.new.since ≡ with_record back journal.old.since }
    ensures spare { journal.new.spare + records journal.new.since ≡ journal.old.spare + records journal.old.since }
{
    if journal.marks() > 0 {
        journal.push(back);
    }
}

/// Makes an accepted edit of meets and tasks, for which there is room.
fn edit_meets<N: GraphWatcher, L: Ledger>(
    inst: &Instance,
    solution: &mut Solution<'_>,
    listeners: &mut N,
    journal: &mut Journal<Back>,
    edit: Edit,
    steps: &mut Steps<L>,
) -> Option<u32>
    requires sort { groups.is_of_groups edit ≡ false }
    requires accepted { refusal inst.now (state_of solution.old.slots (N.board listeners.old)) edit ≡ None }
    requires room { journal.old.since ≢ [] → journal.old.spare ≢ 0 }
    requires seat { groups.adds_child edit ≡ true → HasSeat (N.board listeners.old).groups (N.board listeners.old).seats (groups.adds_to edit) }
    requires parts { solution.old.parts ≡ inst.now }
    requires of { N.IsOf listeners.old inst.now }
    requires told { N.told listeners.old ≡ solution.old.slots }
    ensures parts { solution.new.parts ≡ inst.now }
    ensures of { N.IsOf listeners.new inst.now }
    ensures told { N.told listeners.new ≡ solution.new.slots }
    ensures marked { (N.board listeners.new).marked ≡ (N.board listeners.old).marked }
    ensures seats { (N.board listeners.new).seats ≡ (N.board listeners.old).seats }
    ensures made { result ≡ made (state_of solution.old.slots (N.board listeners.old)) edit }
    ensures state { (state_of solution.new.slots (N.board listeners.new)) ≡ edited (state_of solution.old.slots (N.board listeners.old)) edit }
    ensures record_ { IsRecorded inst.now (N.board listeners.new).seats (changes (state_of solution.old.slots (N.board listeners.old)) edit) (state_of solution.old.slots (N.board listeners.old)) (state_of solution.new.slots (N.board listeners.new)) journal.old.since journal.new.since }
    ensures spare { journal.new.spare + records journal.new.since ≡ journal.old.spare + records journal.old.since }
    ensures steps { steps.new + N.owed listeners.new inst.now ≤ steps.old + N.owed listeners.old inst.now + watcher_counts inst.now solution.old.slots (changes (state_of solution.old.slots (N.board listeners.old)) edit) }
{
    let _ = inst;
    let back = solution.back(&edit);
    keep(journal, back);
    let Ok(made) = solution.edit(edit, listeners, steps) else {
        unreachable!()
    };
    made
}

/// Makes an accepted edit of monitors and groups, for which there is room.
fn edit_groups<N: GraphWatcher, L: Ledger>(
    inst: &Instance,
    solution: &mut Solution<'_>,
    listeners: &mut N,
    journal: &mut Journal<Back>,
    edit: Edit,
    steps: &mut Steps<L>,
) -> Option<u32>
    requires sort { groups.is_of_groups edit ≡ true }
    requires accepted { refusal inst.now (state_of solution.old.slots (N.board listeners.old)) edit ≡ None }
    requires room { journal.old.since ≢ [] → journal.old.spare ≢ 0 }
    requires seat { groups.adds_child edit ≡ true → HasSeat (N.board listeners.old).groups (N.board listeners.old).seats (groups.adds_to edit) }
    requires parts { solution.old.parts ≡ inst.now }
    requires of { N.IsOf listeners.old inst.now }
    requires told { N.told listeners.old ≡ solution.old.slots }
    ensures parts { solution.new.parts ≡ inst.now }
    ensures of { N.IsOf listeners.new inst.now }
    ensures told { N.told listeners.new ≡ solution.new.slots }
    ensures marked { (N.board listeners.new).marked ≡ (N.board listeners.old).marked }
    ensures seats { (N.board listeners.new).seats ≡ (N.board listeners.old).seats }
    ensures made { result ≡ made (state_of solution.old.slots (N.board listeners.old)) edit }
    ensures state { (state_of solution.new.slots (N.board listeners.new)) ≡ edited (state_of solution.old.slots (N.board listeners.old)) edit }
    ensures record_ { IsRecorded inst.now (N.board listeners.new).seats (changes (state_of solution.old.slots (N.board listeners.old)) edit) (state_of solution.old.slots (N.board listeners.old)) (state_of solution.new.slots (N.board listeners.new)) journal.old.since journal.new.since }
    ensures spare { journal.new.spare + records journal.new.since ≡ journal.old.spare + records journal.old.since }
    ensures steps { steps.new + N.owed listeners.new inst.now ≤ steps.old + N.owed listeners.old inst.now + watcher_counts inst.now solution.old.slots (changes (state_of solution.old.slots (N.board listeners.old)) edit) }
{
    let _ = solution;
    let _ = steps;
    let graph = listeners.graph();
    graph.facts();
    let back = graph.back(&edit);
    keep(journal, back);
    listeners.regroup(inst, edit)
}

/// Makes an accepted edit, for which there is room.
pub(crate) fn make<N: GraphWatcher, L: Ledger>(
    inst: &Instance,
    solution: &mut Solution<'_>,
    listeners: &mut N,
    journal: &mut Journal<Back>,
    edit: Edit,
    steps: &mut Steps<L>,
) -> Option<u32>
    requires accepted { refusal inst.now (state_of solution.old.slots (N.board listeners.old)) edit ≡ None }
    requires room { journal.old.since ≢ [] → journal.old.spare ≢ 0 }
    requires seat { groups.adds_child edit ≡ true → HasSeat (N.board listeners.old).groups (N.board listeners.old).seats (groups.adds_to edit) }
    requires parts { solution.old.parts ≡ inst.now }
    requires of { N.IsOf listeners.old inst.now }
    requires told { N.told listeners.old ≡ solution.old.slots }
    ensures parts { solution.new.parts ≡ inst.now }
    ensures of { N.IsOf listeners.new inst.now }
    ensures told { N.told listeners.new ≡ solution.new.slots }
    ensures marked { (N.board listeners.new).marked ≡ (N.board listeners.old).marked }
    ensures seats { (N.board listeners.new).seats ≡ (N.board listeners.old).seats }
    ensures made { result ≡ made (state_of solution.old.slots (N.board listeners.old)) edit }
    ensures state { (state_of solution.new.slots (N.board listeners.new)) ≡ edited (state_of solution.old.slots (N.board listeners.old)) edit }
    ensures record_ { IsRecorded inst.now (N.board listeners.new).seats (changes (state_of solution.old.slots (N.board listeners.old)) edit) (state_of solution.old.slots (N.board listeners.old)) (state_of solution.new.slots (N.board listeners.new)) journal.old.since journal.new.since }
    ensures spare { journal.new.spare + records journal.new.since ≡ journal.old.spare + records journal.old.since }
    ensures steps { steps.new + N.owed listeners.new inst.now ≤ steps.old + N.owed listeners.old inst.now + watcher_counts inst.now solution.old.slots (changes (state_of solution.old.slots (N.board listeners.old)) edit) }
{
    if is_of_groups(&edit) {
        edit_groups(inst, solution, listeners, journal, edit, steps)
    } else {
        edit_meets(inst, solution, listeners, journal, edit, steps)
    }
}

/// Whether an edit can be made: it is accepted, and there is room for its record and its child.
pub(crate) fn prepare<N: GraphWatcher>(
    inst: &Instance,
    solution: &Solution<'_>,
    listeners: &mut N,
    journal: &mut Journal<Back>,
    edit: &Edit,
) -> Result<(), EditFault>
    requires of { N.IsOf listeners.old inst.now }
    ensures of { N.IsOf listeners.new inst.now }
    ensures told { N.told listeners.new ≡ N.told listeners.old }
    ensures owed { N.owed listeners.new inst.now ≡ N.owed listeners.old inst.now }
    ensures lines { (N.board listeners.new).lines ≡ (N.board listeners.old).lines }
    ensures groups { (N.board listeners.new).groups ≡ (N.board listeners.old).groups }
    ensures marked { (N.board listeners.new).marked ≡ (N.board listeners.old).marked }
    ensures seats { HaveAsMany (N.board listeners.old).seats (N.board listeners.new).seats }
    ensures since { journal.new.since ≡ journal.old.since }
    ensures kept { journal.old.spare ≤ journal.new.spare }
    ensures accepted { OnOk result (refusal solution.now.parts (state_of solution.now.slots (N.board listeners.old)) edit.now ≡ None) }
    ensures room { OnOk result (journal.new.since ≢ [] → journal.new.spare ≢ 0) }
    ensures seat { OnOk result (groups.adds_child edit.now ≡ true → HasSeat (N.board listeners.new).groups (N.board listeners.new).seats (groups.adds_to edit.now)) }
    ensures fault { IfErr result (IsFaultOf (refusal solution.now.parts (state_of solution.now.slots (N.board listeners.old)) edit.now)) }
    ensures spare { refusal solution.now.parts (state_of solution.now.slots (N.board listeners.old)) edit.now ≡ None → groups.adds_child edit.now ≡ false → 1 ≤ journal.old.spare → IsOk result }
    ensures unmarked { refusal solution.now.parts (state_of solution.now.slots (N.board listeners.old)) edit.now ≡ None → groups.adds_child edit.now ≡ false → journal.old.since ≡ [] → IsOk result }
{
    check(solution, listeners.graph(), edit)?;
    room_for_record(journal)?;
    room_for_child(inst, listeners, edit)?;
    Ok(())
}

/// Makes an edit, or says why not; then the timetable, the listeners' state and the records stay.
#[tactic(auto, using(crate::proofs::RecordLaws::recorded_lead, crate::proofs::RecordLaws::recorded_saved, crate::proofs::RecordLaws::kept_records, crate::proofs::ValueLaws::values_same, crate::proofs::StateLaws::same_state))]
pub(crate) fn edit_any<N: GraphWatcher, L: Ledger>(
    inst: &Instance,
    solution: &mut Solution<'_>,
    listeners: &mut N,
    journal: &mut Journal<Back>,
    edit: Edit,
    steps: &mut Steps<L>,
) -> Result<Option<u32>, EditFault>
    requires leads { MarksLead inst.now (N.board listeners.old).seats (state_of solution.old.slots (N.board listeners.old)) journal.old.since }
    requires parts { solution.old.parts ≡ inst.now }
    requires of { N.IsOf listeners.old inst.now }
    requires told { N.told listeners.old ≡ solution.old.slots }
    ensures parts { solution.new.parts ≡ inst.now }
    ensures of { N.IsOf listeners.new inst.now }
    ensures told { N.told listeners.new ≡ solution.new.slots }
    ensures marked { (N.board listeners.new).marked ≡ (N.board listeners.old).marked }
    ensures seats { HaveAsMany (N.board listeners.old).seats (N.board listeners.new).seats }
    ensures leads { MarksLead inst.now (N.board listeners.new).seats (state_of solution.new.slots (N.board listeners.new)) journal.new.since }
    ensures accepted { OnOk result (refusal inst.now (state_of solution.old.slots (N.board listeners.old)) edit ≡ None) }
    ensures fault { IfErr result (IsFaultOf (refusal inst.now (state_of solution.old.slots (N.board listeners.old)) edit)) }
    ensures made { IfOk result (λ n. n ≡ made (state_of solution.old.slots (N.board listeners.old)) edit) }
    ensures state { OnOk result ((state_of solution.new.slots (N.board listeners.new)) ≡ edited (state_of solution.old.slots (N.board listeners.old)) edit) }
    ensures saved { OnOk result (saved_of (state_of solution.new.slots (N.board listeners.new)) journal.new.since ≡ grown (changes (state_of solution.old.slots (N.board listeners.old)) edit) (saved_of (state_of solution.old.slots (N.board listeners.old)) journal.old.since)) }
    ensures steps { OnOk result (steps.new + N.owed listeners.new inst.now ≤ steps.old + N.owed listeners.old inst.now + watcher_counts inst.now solution.old.slots (changes (state_of solution.old.slots (N.board listeners.old)) edit)) }
    ensures err { OnErr result (((state_of solution.new.slots (N.board listeners.new)) ≡ (state_of solution.old.slots (N.board listeners.old))) × (journal.new.since ≡ journal.old.since) × (steps.new ≡ steps.old) × (N.owed listeners.new inst.now ≡ N.owed listeners.old inst.now)) }
    ensures spare { journal.old.spare + records journal.old.since ≤ journal.new.spare + records journal.new.since }
    ensures room { refusal inst.now (state_of solution.old.slots (N.board listeners.old)) edit ≡ None → groups.adds_child edit ≡ false → 1 ≤ journal.old.spare → IsOk result }
    ensures unmarked { refusal inst.now (state_of solution.old.slots (N.board listeners.old)) edit ≡ None → groups.adds_child edit ≡ false → journal.old.since ≡ [] → IsOk result }
{
    prepare(inst, solution, listeners, journal, &edit)?;
    Ok(make(inst, solution, listeners, journal, edit, steps))
}
