//! Measures queued monitors, in the state that families were told or in one that they foresee.

ghost use Rattle.std.specs.Prelude.{ℕ, ◌≡◌, ◌<◌, ◌≤◌, false, length, slice_get, List, Some};
ghost use Rattle.std.specs.Option.{option_map};
ghost use Rattle.khe_base.specs.Totals.{is_lower};
ghost use Rattle.khe_base.specs.declared.limits.TheConstants.{GREATEST_DEVIATION};
ghost use Rattle.khe_instance.specs.declared.parts.Parts.{Parts};
ghost use Rattle.khe_told.specs.Agreement.{deviation_in};
ghost use Rattle.khe_told.specs.Waits.{waits_in};
ghost use Rattle.khe_told.specs.declared.slots.Slot.{Slot};
ghost use Rattle.monitor_graph.specs.Boards.{deviations_of};
ghost use Rattle.monitor_graph.specs.Trials.{AreTotalsWith};
ghost use Rattle.monitor_graph.specs.Values.{IsOf};
ghost use Rattle.khe_engine.specs.Lower.{AreOpen};
ghost use Rattle.khe_engine.specs.States.{state_of};
ghost use Rattle.khe_engine.specs.Settled.{AreMeasured, IsIdle};
ghost use Rattle.khe_engine.specs.Values.{totals};

use khe_base::{MonitorId, Totals};
use khe_instance::Instance;
use khe_told::{Effects, Family, Waiting};
use monitor_graph::Graph;

/// Tells the deviations of all monitors in one state of the slots.
pub(crate) trait Deviations {
    /// The slots.
    ghost slots: { Self → List Slot };

    /// That it tells the deviations of the monitors of the instance with these parts.
    ghost TellsOf: { Self → Parts → Type 0 };

    /// The deviation of a monitor, at most `GREATEST_DEVIATION`.
    fn deviation(&self, inst: &Instance, monitor: MonitorId) -> u64
        requires of { TellsOf self.now inst.now }
        requires known { monitor.0 < length inst.now.monitors }
        ensures value { option_map (deviation_in inst.now (slots self.now)) (slice_get inst.now.monitors monitor.0) ≡ Some result }
        ensures small { result ≤ GREATEST_DEVIATION };
}

/// Families that were told the slots.
#[derive(Drop)]
pub(crate) struct AsTold<'f, F: Family> {
    pub(crate) families: &'f F,
}

impl<'f, F: Family> Deviations for AsTold<'f, F> {
    ghost use Rattle.khe_engine.specs.Values.{ServesAll};

    ghost slots = { λ x. F.told x.families.now };

    ghost TellsOf = { λ x p. F.IsOf x.families.now p × ServesAll F.serves_kind };

    #[inline(always)]
    fn deviation(&self, inst: &Instance, monitor: MonitorId) -> u64 {
        self.families.deviation(inst, monitor)
    }
}

/// Families that foresee what effects would make of the slots that they were told.
#[derive(Drop)]
pub(crate) struct AsForeseen<'f, 'e, 's, F: Family> {
    pub(crate) families: &'f F,
    pub(crate) effects: &'e Effects<'s>,
}

impl<'f, 'e, 's, F: Family> Deviations for AsForeseen<'f, 'e, 's, F> {
    ghost use Rattle.khe_told.specs.Effects.{AreTurns, turned_all};
    ghost use Rattle.khe_engine.specs.Values.{ServesAll};

    ghost slots = { λ x. turned_all (F.told x.families.now) x.effects.now };

    ghost TellsOf = { λ x p. F.IsOf x.families.now p × ServesAll F.serves_kind
        × AreTurns p (F.told x.families.now) x.effects.now × F.Foresees x.families.now p x.effects.now };

    #[inline(always)]
    fn deviation(&self, inst: &Instance, monitor: MonitorId) -> u64 {
        self.families.deviation_after(inst, self.effects, monitor)
    }
}

/// The totals with the queued monitors' deviations as they are told. It takes constant time
/// for each.
pub(crate) fn measured<D: Deviations>(
    inst: &Instance,
    deviations: &D,
    graph: &Graph,
    waiting: &mut Waiting,
) -> Totals
    requires of { D.TellsOf deviations.now inst.now }
    requires monitors { length waiting.old.flags ≡ length inst.now.monitors }
    requires rates { IsOf graph.now inst.now }
    requires others { AreMeasured inst.now (waits_in waiting.old) (D.slots deviations.now) (deviations_of graph.now) }
    ensures totals { result ≡ totals inst.now (state_of (D.slots deviations.now) graph.now) }
    ensures idle { IsIdle inst.now waiting.new }
{
    let mut totals = graph.totals();
    while let Some(monitor) = waiting.pop() {
        let deviation = deviations.deviation(inst, monitor);
        graph.shift(monitor, deviation, &mut totals);
    }
    totals
}

/// Re-evaluates the queued monitors that are now defects, adjusting `totals`. It takes constant time for each.
fn measure_defects<D: Deviations>(
    inst: &Instance,
    deviations: &D,
    graph: &Graph,
    waiting: &Waiting,
    totals: &mut Totals,
)
    requires of { D.TellsOf deviations.now inst.now }
    requires monitors { length waiting.now.flags ≡ length inst.now.monitors }
    requires rates { IsOf graph.now inst.now }
    requires others { AreMeasured inst.now (waits_in waiting.now) (D.slots deviations.now) (deviations_of graph.now) }
    requires whole { AreTotalsWith graph.now.lines (deviations_of graph.now) totals.old }
    ensures { AreOpen inst.now (waits_in waiting.now) (D.slots deviations.now) graph.now totals.new }
{
    for monitor in waiting.as_slice() {
        if graph.deviation(*monitor) > 0 {
            let deviation = deviations.deviation(inst, *monitor);
            graph.shift(*monitor, deviation, totals);
        }
    }
}

/// Empties the queue.
fn clear(waiting: &mut Waiting)
    ensures long { length waiting.new.flags ≡ length waiting.old.flags }
    ensures amount { waiting.new.amount ≡ 0 }
    ensures none { (k : ℕ) → waits_in waiting.new k ≡ false }
{
    while let Some(_) = waiting.pop() {}
}

/// Whether the totals with the queued monitors' deviations are lower than others. Monitors that deviate now are
/// measured first. The others cost nothing now, so they only add: once the totals are not
/// lower, the rest is not measured. It takes constant time for each.
pub(crate) fn is_lower_measured<D: Deviations>(
    inst: &Instance,
    deviations: &D,
    graph: &Graph,
    waiting: &mut Waiting,
    lowest: Totals,
) -> bool
    requires of { D.TellsOf deviations.now inst.now }
    requires monitors { length waiting.old.flags ≡ length inst.now.monitors }
    requires rates { IsOf graph.now inst.now }
    requires others { AreMeasured inst.now (waits_in waiting.old) (D.slots deviations.now) (deviations_of graph.now) }
    ensures lower { result ≡ is_lower (totals inst.now (state_of (D.slots deviations.now) graph.now)) lowest }
    ensures idle { IsIdle inst.now waiting.new }
{
    let mut totals = graph.totals();
    measure_defects(inst, deviations, graph, waiting, &mut totals);
    while totals.is_lower(lowest) {
        let Some(monitor) = waiting.pop() else {
            return true;
        };
        if graph.deviation(monitor) == 0 {
            let deviation = deviations.deviation(inst, monitor);
            graph.shift(monitor, deviation, &mut totals);
        }
    }
    clear(waiting);
    false
}
