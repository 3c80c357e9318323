//! A graph by hand: calls that look first whether they may be made.

ghost use Rattle.std.specs.Prelude.{◌≡◌, ◌<◌, true, IfOk, OnOk};
ghost use Rattle.engine_tests.specs.HandGraphs.{AreFresh};
ghost use Rattle.monitor_graph.specs.Edits.{is_of_groups, adds_child, adds_to};
ghost use Rattle.monitor_graph.specs.Groups.{HasSeat};

use khe_base::limits::{GREATEST_DEVIATION, MONITORS, WEIGHT};
use khe_base::{CostFn, GroupId, MonitorId, NoMemory, Totals};
use khe_told::{Blank, Edit, Refusal, Steps};
use monitor_graph::{Graph, Line};
use std::alloc::Global;
use std::marker::Brand;
use std::sync::ledger::Ledger;

/// The weights of monitors, and which of them are hard.
pub(crate) type Row = (u32, bool);

/// The lines of these rows, repeated the given number of times, attached, as far as they are within the limits.
#[tactic(auto, using(crate::proofs::FreshLaws::fresh_push))]
pub(crate) fn lines_of(alloc: Global, rows: &[Row], times: u32) -> Result<Vec<Line>, NoMemory>
    ensures { IfOk result (λ lines. AreFresh lines.items) }
{
    let mut lines = Vec::new(alloc);
    'times: for _ in 0..times {
        for (weight, required) in rows {
            if lines.len() < MONITORS as usize && *weight <= WEIGHT {
                lines.push(Line {
                    function: CostFn::Linear,
                    weight: *weight,
                    required: *required,
                    attached: true,
                    deviation: 0,
                })?;
            }
        }
    }
    Ok(lines)
}

/// A graph of such lines.
pub(crate) fn graph_of(alloc: Global, rows: &[Row], times: u32) -> Result<Graph, NoMemory> {
    Graph::of_lines(alloc, lines_of(alloc, rows, times)?)
}

/// Sets one deviation, where there is such a monitor.
fn set(graph: &mut Graph, monitor: u32, deviation: u64) {
    set_counting::<Brand>(graph, monitor, deviation, Blank::new(1));
}

/// The same, with its step in a ledger.
fn set_counting<L: Ledger>(graph: &mut Graph, monitor: u32, deviation: u64, blank: Blank)
    requires name { blank.name ≡ L.name }
    requires parts { blank.parts ≡ L.parts }
    requires some { 0 < blank.parts }
{
    let mut steps = Steps::<L>::new(blank);
    if monitor < graph.monitors() && deviation <= GREATEST_DEVIATION {
        graph.set(MonitorId(monitor), deviation, &mut steps);
    }
}

/// Sets the deviations of these monitors.
pub(crate) fn set_each(graph: &mut Graph, monitors: &[u32], deviation: u64) {
    for monitor in monitors {
        set(graph, *monitor, deviation);
    }
}

/// Whether an edit is one of monitors and groups.
fn is_of_groups(edit: &Edit) -> bool
    ensures { result ≡ is_of_groups edit.now }
{
    match *edit {
        Edit::Attach { .. } => true,
        Edit::Detach { .. } => true,
        Edit::MakeGroup => true,
        Edit::DropGroup { .. } => true,
        Edit::AddChild { .. } => true,
        Edit::RemoveChild { .. } => true,
        _ => false,
    }
}

/// A seat for the child that an edit adds, where it adds one, in its group.
fn seat(graph: &mut Graph, edit: &Edit) -> Result<(), NoMemory>
    ensures { OnOk result (adds_child edit.now ≡ true → HasSeat graph.new.groups graph.new.seats (adds_to edit.now)) }
{
    if let Edit::AddChild { group, .. } = *edit {
        graph.room(group, 1)?;
    }
    Ok(())
}

/// Makes an edit of monitors and groups, with a seat for a child.
pub(crate) fn edit(
    graph: &mut Graph,
    edit: Edit,
) -> Result<Result<Option<u32>, Refusal>, NoMemory> {
    seat(graph, &edit)?;
    if is_of_groups(&edit) {
        Ok(graph.edit(edit))
    } else {
        Ok(Err(Refusal::Same))
    }
}

/// The child of a group at a place, if it has one.
pub(crate) fn child(graph: &Graph, group: u32, place: u32) -> Option<MonitorId> {
    if graph.has_group(GroupId(group)) {
        graph.child(GroupId(group), place)
    } else {
        None
    }
}

/// Makes an edit that removes a child, and undoes it. It answers whether the edit was accepted.
pub(crate) fn remove_and_undo(
    graph: &mut Graph,
    group: GroupId,
    child: MonitorId,
) -> Result<bool, NoMemory> {
    let remove = Edit::RemoveChild { group, child };
    if graph.check(&remove).is_err() {
        return Ok(false);
    }
    let back = graph.back(&remove);
    if graph.edit(remove).is_err() {
        return Ok(false);
    }
    graph.room(group, 1)?;
    graph.undo(back);
    Ok(true)
}

/// What a group costs.
pub(crate) fn group_cost(graph: &Graph, group: u32) -> Option<Totals> {
    if graph.has_group(GroupId(group)) {
        Some(graph.group_cost(GroupId(group)))
    } else {
        None
    }
}
