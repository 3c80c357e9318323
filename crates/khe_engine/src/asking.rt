//! What any edit would cost, without making it.

ghost use Rattle.std.specs.Prelude.{◌≡◌, List, None, Some, true, vec_capacity, IfErr, IfOk, OnOk};
ghost use Rattle.khe_instance.specs.declared.parts.Parts.{Parts};
ghost use Rattle.khe_told.specs.declared.slots.Slot.{Slot};
ghost use Rattle.khe_solution.specs.Timetables.{HasRoom};
ghost use Rattle.monitor_graph.specs.Boards.{grouping_of};
ghost use Rattle.monitor_graph.specs.Edits as groups;
ghost use Rattle.khe_engine.specs.Settled.{IsIdle};
ghost use Rattle.khe_engine.specs.States.{HaveSameGroups, attaches, edited, refusal, state_of};
ghost use Rattle.khe_engine.specs.Values.{HasValues, ServesAll, totals};

use crate::editing::check;
use crate::listeners::Listeners;
use crate::trials::totals_after;
use crate::undoing::is_of_groups;
use khe_base::Totals;
use khe_instance::Instance;
use khe_solution::Solution;
use khe_told::{Change, Edit, Family, Refusal};
use monitor_graph::Graph;

/// Whether an edit attaches or detaches a monitor.
fn attaches(edit: &Edit) -> bool
    ensures { result ≡ attaches edit.now }
{
    matches!(edit, Edit::Attach { .. } | Edit::Detach { .. })
}

/// The totals after a monitor is attached or detached, which is made and undone. It takes constant time.
fn totals_attached(graph: &mut Graph, edit: &Edit) -> Totals
    requires ours { attaches edit.now ≡ true }
    requires accepted { groups.refusal (grouping_of graph.old) edit.now ≡ None }
    ensures totals { (p : Parts) (s : List Slot) → HasValues p s graph.old → result ≡ totals p (edited (state_of s graph.old) edit.now) }
    ensures values { (p : Parts) (s : List Slot) → HasValues p s graph.old → HasValues p s graph.new }
    ensures rest { HaveSameGroups graph.old graph.new }
{
    let back = graph.back(edit);
    let Ok(_) = graph.edit(*edit) else {
        unreachable!()
    };
    let totals = graph.totals();
    graph.undo(back);
    totals
}

/// The totals after an accepted edit of monitors and groups. Groups have no part in them.
fn totals_grouped(graph: &mut Graph, edit: &Edit) -> Totals
    requires ours { groups.is_of_groups edit.now ≡ true }
    requires accepted { groups.refusal (grouping_of graph.old) edit.now ≡ None }
    ensures totals { (p : Parts) (s : List Slot) → HasValues p s graph.old → result ≡ totals p (edited (state_of s graph.old) edit.now) }
    ensures values { (p : Parts) (s : List Slot) → HasValues p s graph.old → HasValues p s graph.new }
    ensures rest { HaveSameGroups graph.old graph.new }
{
    if attaches(edit) {
        totals_attached(graph, edit)
    } else {
        graph.totals()
    }
}

/// The totals after an accepted edit of either sort.
fn totals_of<F: Family>(
    inst: &Instance,
    solution: &Solution<'_>,
    listeners: &mut Listeners<F>,
    list: &mut Vec<Change>,
    edit: &Edit,
) -> Totals
    requires accepted { refusal inst.now (state_of solution.now.slots listeners.old.graph) edit.now ≡ None }
    requires parts { solution.now.parts ≡ inst.now }
    requires of { F.IsOf listeners.old.families inst.now }
    requires serves { ServesAll F.serves_kind }
    requires told { F.told listeners.old.families ≡ solution.now.slots }
    requires values { HasValues inst.now solution.now.slots listeners.old.graph }
    requires idle { IsIdle inst.now listeners.old.waiting }
    requires room { HasRoom inst.now (vec_capacity list.old) }
    ensures totals { result ≡ totals inst.now (edited (state_of solution.now.slots listeners.old.graph) edit.now) }
    ensures of { F.IsOf listeners.new.families inst.now }
    ensures told { F.told listeners.new.families ≡ solution.now.slots }
    ensures values { HasValues inst.now solution.now.slots listeners.new.graph }
    ensures rest { HaveSameGroups listeners.old.graph listeners.new.graph }
    ensures idle { IsIdle inst.now listeners.new.waiting }
    ensures room { HasRoom inst.now (vec_capacity list.new) }
{
    if is_of_groups(edit) {
        totals_grouped(&mut listeners.graph, edit)
    } else {
        totals_after(inst, solution, listeners, list, edit)
    }
}

/// The totals after an edit, or its first refusal. All stays as it is.
pub(crate) fn ask<F: Family>(
    inst: &Instance,
    solution: &Solution<'_>,
    listeners: &mut Listeners<F>,
    list: &mut Vec<Change>,
    edit: &Edit,
) -> Result<Totals, Refusal>
    requires parts { solution.now.parts ≡ inst.now }
    requires of { F.IsOf listeners.old.families inst.now }
    requires serves { ServesAll F.serves_kind }
    requires told { F.told listeners.old.families ≡ solution.now.slots }
    requires values { HasValues inst.now solution.now.slots listeners.old.graph }
    requires idle { IsIdle inst.now listeners.old.waiting }
    requires room { HasRoom inst.now (vec_capacity list.old) }
    ensures accepted { OnOk result (refusal inst.now (state_of solution.now.slots listeners.old.graph) edit.now ≡ None) }
    ensures refused { IfErr result (λ r. refusal inst.now (state_of solution.now.slots listeners.old.graph) edit.now ≡ Some r) }
    ensures totals { IfOk result (λ t. t ≡ totals inst.now (edited (state_of solution.now.slots listeners.old.graph) edit.now)) }
    ensures of { F.IsOf listeners.new.families inst.now }
    ensures told { F.told listeners.new.families ≡ solution.now.slots }
    ensures values { HasValues inst.now solution.now.slots listeners.new.graph }
    ensures rest { HaveSameGroups listeners.old.graph listeners.new.graph }
    ensures idle { IsIdle inst.now listeners.new.waiting }
    ensures room { HasRoom inst.now (vec_capacity list.new) }
{
    check(solution, &listeners.graph, edit)?;
    Ok(totals_of(inst, solution, listeners, list, edit))
}
