//! A graph of a timetable, before any deviation is known.

ghost use Rattle.std.specs.Prelude.{ℕ, ◌≡◌, ◌<◌, ◌==◌, [], false, None, Some, All, length, map, replicate, slice_get, slice_set, if◌then◌else◌, IfOk, OnOk};
ghost use Rattle.std.specs.List.{list_any};
ghost use Rattle.std.specs.List.Sorted.{IsStrictlyIncreasing};
ghost use Rattle.khe_instance.specs.States.{IsValid};
ghost use Rattle.monitor_graph.specs.Boards.{KeepsValues, grouping_of, deviations_of};
ghost use Rattle.monitor_graph.specs.Edits.{is_attached};
ghost use Rattle.monitor_graph.specs.Opened.{IsGroupOf, attached_in, groups_in, lines_in};
ghost use Rattle.monitor_graph.specs.Values.{IsOf};

use crate::graph::Graph;
use crate::lines::Line;
use khe_base::{MonitorId, NoMemory};
use khe_instance::{Group, Instance, Plain};
use std::alloc::Global;

impl Graph {
    /// The graph of a timetable in which every deviation is 0, with the timetable's detached monitors
    /// and its groups; the costs that are marked are 0. It takes time and memory in proportion to the
    /// monitors and to the children of the groups.
    pub fn open(alloc: Global, inst: &Instance, plain: &Plain) -> Result<Graph, NoMemory>
        requires { IsValid inst.now plain.now }
        ensures of { IfOk result (λ g. IsOf g inst.now) }
        ensures deviations { IfOk result (λ g. deviations_of g ≡ replicate (length inst.now.monitors) 0) }
        ensures attached { IfOk result (λ g. (grouping_of g).attached ≡ attached_in inst.now plain.now) }
        ensures groups { IfOk result (λ g. g.groups ≡ groups_in plain.now.groups) }
        ensures marked { IfOk result (λ g. g.marked ≡ replicate (length inst.now.monitors) 0) }
    {
        inst.facts();
        let mut graph = Graph::of_lines(alloc, lines_of(alloc, inst)?)?;
        graph.detach_all(plain.detached.as_slice());
        match graph.group_all(plain.groups.as_slice()) {
            Ok(()) => Ok(graph),
            Err(fault) => Err(fault),
        }
    }

    /// Detaches some monitors.
    fn detach_all(&mut self, detached: &[MonitorId])
        requires known { All (λ m. m.0 < length self.old.lines) detached.now }
        ensures long { length self.new.lines ≡ length self.old.lines }
        ensures attached { (n : ℕ) → is_attached (grouping_of self.new) n ≡ (if list_any (λ m. m.0 == n) detached.now then false else is_attached (grouping_of self.old) n) }
        ensures groups { self.new.groups ≡ self.old.groups }
        ensures rest { KeepsValues self.old self.new }
    {
        for monitor in detached {
            self.turn_attached(*monitor, false);
        }
    }

    /// Makes groups, each with its number and its children, where there is none.
    fn group_all(&mut self, groups: &[Group]) -> Result<(), NoMemory>
        requires none { self.old.groups ≡ groups_in [] }
        requires each { All (IsGroupOf (length self.old.lines)) groups.now }
        requires apart { IsStrictlyIncreasing (map (λ g. g.group.0) groups.now) }
        ensures groups { OnOk result (self.new.groups ≡ groups_in groups.now) }
        ensures lines { OnOk result (self.new.lines ≡ self.old.lines) }
        ensures marked { OnOk result (self.new.marked ≡ self.old.marked) }
    {
        for group in groups {
            self.open_group(group)?;
        }
        Ok(())
    }

    /// Makes a group of a number that no group has, with its children.
    fn open_group(&mut self, group: &Group) -> Result<(), NoMemory>
        requires free { slice_get self.old.groups group.now.group.0 ≡ Some None }
        requires valid { IsGroupOf (length self.old.lines) group.now }
        ensures groups { OnOk result (self.new.groups ≡ slice_set self.old.groups group.now.group.0 (Some group.now.children)) }
        ensures lines { self.new.lines ≡ self.old.lines }
        ensures marked { self.new.marked ≡ self.old.marked }
    {
        self.groups.reserve(group.group, group.children.len())?;
        self.groups.make(group.group);
        self.groups.put_all(group.group, group.children.as_slice());
        self.costs
            .renew(&self.groups, group.group, self.lines.as_slice());
        Ok(())
    }
}

/// The lines of an instance's monitors, all attached, with deviation 0.
fn lines_of(alloc: Global, inst: &Instance) -> Result<Vec<Line>, NoMemory>
    ensures { IfOk result (λ lines. lines.items ≡ lines_in inst.now) }
{
    inst.facts();
    let mut lines = Vec::new(alloc);
    for number in 0..inst.monitors() {
        let constraint = inst.constraint(inst.monitor(MonitorId(number)).constraint);
        lines.push(Line {
            function: constraint.cost,
            weight: constraint.weight,
            required: constraint.required,
            attached: true,
            deviation: 0,
        })?;
    }
    Ok(lines)
}
