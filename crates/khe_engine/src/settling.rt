//! The deviations that are set anew once the families followed changes.

ghost use Rattle.std.specs.Prelude.{◌≡◌, ◌≤◌, ◌+◌, length};
ghost use Rattle.khe_told.specs.Waits.{waits_in};
ghost use Rattle.monitor_graph.specs.Boards.{HaveSameRest, deviations_of};
ghost use Rattle.monitor_graph.specs.Values.{IsOf};
ghost use Rattle.khe_engine.specs.Values.{HasValues, ServesAll};
ghost use Rattle.khe_engine.specs.Settled.{AreMeasured, IsIdle};

use khe_instance::Instance;
use khe_told::{Family, Steps, Waiting};
use monitor_graph::Graph;
use std::sync::ledger::Ledger;

/// Sets the deviation of each monitor that waits to that of the state that the families were told.
/// A step is taken for each.
pub(crate) fn settle<F: Family, L: Ledger>(
    inst: &Instance,
    families: &F,
    graph: &mut Graph,
    waiting: &mut Waiting,
    steps: &mut Steps<L>,
)
    requires of { F.IsOf families.now inst.now }
    requires serves { ServesAll F.serves_kind }
    requires monitors { length waiting.old.flags ≡ length inst.now.monitors }
    requires rates { IsOf graph.old inst.now }
    requires others { AreMeasured inst.now (waits_in waiting.old) (F.told families.now) (deviations_of graph.old) }
    ensures values { HasValues inst.now (F.told families.now) graph.new }
    ensures idle { IsIdle inst.now waiting.new }
    ensures rest { HaveSameRest graph.old graph.new }
    ensures steps { steps.new ≤ steps.old + waiting.old.amount }
{
    while let Some(monitor) = waiting.pop() {
        let deviation = families.deviation(inst, monitor);
        graph.set(monitor, deviation, steps);
    }
}
