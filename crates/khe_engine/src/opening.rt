//! An engine of a timetable.

ghost use Rattle.std.specs.Prelude.{ℕ, ◌≡◌, ◌+◌, ◌<◌, [], Some, length, slice_get, IfOk, vec_capacity};
ghost use Rattle.khe_solution.specs.Timetables.{HasRoom};
ghost use Rattle.khe_instance.specs.States.{IsValid};
ghost use Rattle.khe_told.specs.Agreement.{deviation_in};
ghost use Rattle.khe_told.specs.Slots.{no_meets};
ghost use Rattle.monitor_graph.specs.Boards.{HaveSameRest, deviations_of, grouping_of};
ghost use Rattle.monitor_graph.specs.Values.{IsOf};
ghost use Rattle.khe_engine.specs.Openings.{IsStateOf, grouping_in};
ghost use Rattle.khe_engine.specs.Settled.{IsIdle};
ghost use Rattle.khe_engine.specs.Values.{HasValues, ServesAll};

use crate::engine::Engine;
use crate::late::Late;
use crate::listeners::Listeners;
use crate::telling::tell_all;
use khe_base::{EventId, MonitorId, NoMemory, both};
use khe_instance::{Instance, Plain};
use khe_solution::{Solution, room_for};
use khe_told::{Blank, Change, Family, Steps, Waiting};
use monitor_graph::Graph;
use std::alloc::Global;
use std::marker::Brand;
use std::sync::ledger::Ledger;
use undo_paths::Journal;

/// How many changes an engine that is put off has room for at least.
const PUT_OFF: usize = 1 << 10;

/// How many places an event has at most where changes are kept for later.
const FEW_PLACES: usize = 64;

impl<'i, F: Family + Drop> Engine<'i, F> {
    /// An engine of a valid timetable, without marks. It takes time and memory in proportion to the
    /// meet slots, the task slots, the monitors and what the families keep; they are told of the
    /// timetable's meets one after the other.
    pub fn open(alloc: Global, inst: &'i Instance, plain: &Plain) -> Result<Engine<'i, F>, NoMemory>
        requires joined { F.IsWellJoined }
        requires serves { ServesAll F.serves_kind }
        requires valid { IsValid inst.now plain.now }
        ensures parts { IfOk result (λ e. e.parts ≡ inst.now) }
        ensures state { IfOk result (λ e. IsStateOf inst.now plain.now e.state) }
        ensures saved { IfOk result (λ e. e.saved ≡ []) }
    {
        let solution = Solution::open(alloc, inst, plain);
        let journal = Journal::open(alloc);
        let families = F::open(alloc, inst);
        let graph = Graph::open(alloc, inst, plain);
        let waiting = waiting_of(alloc, inst);
        let list = list_of(alloc, inst);
        let (((solution, list), journal), ((families, graph), waiting)) = both(
            both(both(solution, list), journal),
            both(both(families, graph), waiting),
        )?;
        let listeners = Listeners {
            families,
            graph,
            waiting,
        };
        let late = Late {
            listeners,
            changes: list,
            defers: has_few_places(inst),
        };
        let late = listen::<F, Brand>(inst, &solution, late, Blank::new(1));
        let Late {
            listeners,
            changes,
            defers,
        } = late;
        Ok(Engine {
            inst,
            solution,
            listeners,
            journal,
            list: changes,
            defers,
        })
    }
}

/// Whether no event has many places. It takes time in proportion to the events.
fn has_few_places(inst: &Instance) -> bool {
    inst.facts();
    for number in 0..inst.events() {
        if inst.event(EventId(number)).places.len() > FEW_PLACES {
            return false;
        }
    }
    true
}

/// An empty list with room for the changes of one edit, and for those of many where an engine is put off.
fn list_of(alloc: Global, inst: &Instance) -> Result<Vec<Change>, NoMemory>
    ensures { IfOk result (λ list. HasRoom inst.now (vec_capacity list)) }
{
    let mut list = room_for(alloc, inst)?;
    list.reserve(PUT_OFF)?;
    Ok(list)
}

/// None of the instance's monitors. It takes time and memory in proportion to them.
fn waiting_of(alloc: Global, inst: &Instance) -> Result<Waiting, NoMemory>
    ensures { IfOk result (IsIdle inst.now) }
{
    Waiting::open(alloc, inst.monitors())
}

/// The families, which were told of no meets, are told of a timetable, many changes at a time, and the graph has the
/// deviations that they tell.
fn listen<F: Family, L: Ledger>(
    inst: &Instance,
    solution: &Solution<'_>,
    mut late: Late<F>,
    blank: Blank,
) -> Late<F>
    requires name { blank.name ≡ L.name }
    requires shares { blank.parts ≡ L.parts }
    requires some { 0 < blank.parts }
    requires parts { solution.now.parts ≡ inst.now }
    requires of { F.IsOf late.listeners.families inst.now }
    requires serves { ServesAll F.serves_kind }
    requires none { F.told late.listeners.families ≡ no_meets inst.now }
    requires rates { IsOf late.listeners.graph inst.now }
    requires many { length (deviations_of late.listeners.graph) ≡ length inst.now.monitors }
    requires idle { IsIdle inst.now late.listeners.waiting }
    requires room { HasRoom inst.now (vec_capacity late.changes) }
    ensures of { F.IsOf result.listeners.families inst.now }
    ensures told { F.told result.listeners.families ≡ solution.now.slots }
    ensures values { HasValues inst.now solution.now.slots result.listeners.graph }
    ensures idle { IsIdle inst.now result.listeners.waiting }
    ensures grouping { grouping_of result.listeners.graph ≡ grouping_of late.listeners.graph }
    ensures room { HasRoom inst.now (vec_capacity result.changes) }
{
    let mut steps = Steps::<L>::new(blank);
    let listeners = &mut late.listeners;
    set_all(inst, &listeners.families, &mut listeners.graph, &mut steps);
    late.changes.clear();
    solution.facts();
    tell_all(inst, solution, &mut late, &mut steps);
    late.catch_up(inst, &mut steps);
    late
}

/// Sets every deviation to that of the state that the families were told, with a step for each monitor.
pub(crate) fn set_all<F: Family, L: Ledger>(
    inst: &Instance,
    families: &F,
    graph: &mut Graph,
    steps: &mut Steps<L>,
)
    requires of { F.IsOf families.now inst.now }
    requires serves { ServesAll F.serves_kind }
    requires rates { IsOf graph.old inst.now }
    requires many { length (deviations_of graph.old) ≡ length inst.now.monitors }
    ensures values { HasValues inst.now (F.told families.now) graph.new }
    ensures rest { HaveSameRest graph.old graph.new }
    ensures steps { steps.new ≡ steps.old + length inst.now.monitors }
{
    inst.facts();
    for number in 0..inst.monitors() {
        let monitor = MonitorId(number);
        let deviation = families.deviation(inst, monitor);
        graph.set(monitor, deviation, steps);
    }
}
