//! The values of the present state.

ghost use Rattle.std.specs.Prelude.{◌≡◌, ◌<◌, Some, true, length, slice_get, slice_index};
ghost use Rattle.std.specs.Option.{option_map};
ghost use Rattle.khe_told.specs.Agreement.{deviation_in};
ghost use Rattle.monitor_graph.specs.Edits.{is_attached};
ghost use Rattle.monitor_graph.specs.Groups.{has_group};
ghost use Rattle.monitor_graph.specs.Values.{IsNextDefect};
ghost use Rattle.khe_engine.specs.Values.{costs, group_totals, only_dearer, totals};

use crate::engine::Engine;
use khe_base::{GroupId, MonitorId, Totals};
use khe_told::Family;

impl<'i, F: Family> Engine<'i, F> {
    /// The deviation of a monitor, in constant time.
    pub fn deviation(&self, monitor: MonitorId) -> u64
        requires { monitor.0 < length self.now.parts.monitors }
        ensures { option_map (deviation_in self.now.parts self.now.state.slots) (slice_get self.now.parts.monitors monitor.0) ≡ Some result }
    {
        self.listeners.graph.deviation(monitor)
    }

    /// What a monitor costs, in constant time: nothing where it is detached.
    pub fn cost(&self, monitor: MonitorId) -> u128
        requires { monitor.0 < length self.now.parts.monitors }
        ensures { result ≡ slice_index (costs self.now.parts self.now.state) monitor.0 }
    {
        self.listeners.graph.cost(monitor)
    }

    /// Whether a monitor is attached, in constant time.
    pub fn attached(&self, monitor: MonitorId) -> bool
        requires { monitor.0 < length self.now.parts.monitors }
        ensures { result ≡ is_attached self.now.state.grouping monitor.0 }
    {
        self.listeners.graph.attached(monitor)
    }

    /// Whether a group has this number, in constant time.
    pub fn has_group(&self, group: GroupId) -> bool
        ensures { result ≡ has_group self.now.state.grouping.groups group.0 }
    {
        self.listeners.graph.has_group(group)
    }

    /// What a group costs, in constant time.
    pub fn group_cost(&self, group: GroupId) -> Totals
        requires { has_group self.now.state.grouping.groups group.0 ≡ true }
        ensures { result ≡ group_totals self.now.parts self.now.state group.0 }
    {
        self.listeners.graph.group_cost(group)
    }

    /// The hard and soft totals, in constant time.
    pub fn totals(&self) -> Totals
        ensures { result ≡ totals self.now.parts self.now.state }
    {
        self.listeners.graph.totals()
    }

    /// The first defect with a number of at least this one; `None` where there is none.
    pub fn next_defect(&self, from: u32) -> Option<MonitorId>
        ensures { IsNextDefect (costs self.now.parts self.now.state) from result }
    {
        self.listeners.graph.next_defect(from)
    }

    /// Marks the present costs, with which later ones are compared. It takes time in proportion to the monitors
    /// whose costs changed since they were marked, and to a 4096th of all.
    #[tactic(auto, using(crate::proofs::ValueLaws::costs_same))]
    pub fn compare_from_here(&mut self)
        ensures parts { self.new.parts ≡ self.old.parts }
        ensures state { self.new.state ≡ self.old.state }
        ensures saved { self.new.saved ≡ self.old.saved }
        ensures spare { self.new.spare ≡ self.old.spare }
        ensures marked { self.new.marked ≡ costs self.old.parts self.old.state }
    {
        self.listeners.graph.compare_from_here();
    }

    /// The only monitor that costs more than when costs were marked, in constant time; `None` where none does,
    /// or several do.
    pub fn only_dearer(&self) -> Option<MonitorId>
        ensures { result ≡ only_dearer self.now.parts self.now.state self.now.marked }
    {
        self.listeners.graph.only_dearer()
    }
}
