//! The detached monitors and the groups as plain lists.

ghost use Rattle.std.specs.Prelude.{◌≡◌, ◌≤◌, ◌++◌, ◌∷◌, [], IfOk, OnOk, length, map};
ghost use Rattle.khe_base.specs.declared.limits.TheConstants.{MONITORS};
ghost use Rattle.monitor_graph.specs.Boards.{grouping_of};
ghost use Rattle.monitor_graph.specs.Groups.{group_at};
ghost use Rattle.monitor_graph.specs.Listed.{detached_from, groups_from};

use crate::graph::Graph;
use crate::groups::Groups;
use crate::lines::Line;
use khe_base::limits::GROUPS;
use khe_base::{GroupId, MonitorId, NoMemory, Seq};
use khe_instance::Group;
use std::alloc::Global;

impl Graph {
    /// The monitors that are detached, in the order of their numbers. It takes time in proportion to
    /// the monitors, and memory in proportion to the detached ones.
    pub fn detached(&self, alloc: Global) -> Result<Seq<MonitorId>, NoMemory>
        ensures { IfOk result (λ d. d ≡ detached_from 0 (grouping_of self.now).attached) }
    {
        self.facts();
        detached_of(alloc, self.lines.as_slice())
    }

    /// The groups with their children, in the order of their numbers. It takes time and memory in
    /// proportion to the children, beside what the numbers of groups take.
    pub fn groups(&self, alloc: Global) -> Result<Seq<Group>, NoMemory>
        ensures { IfOk result (λ g. g ≡ groups_from 0 self.now.groups) }
    {
        groups_of(alloc, &self.groups)
    }
}

/// The monitors whose lines are detached.
fn detached_of(alloc: Global, lines: &[Line]) -> Result<Seq<MonitorId>, NoMemory>
    requires { length lines.now ≤ MONITORS }
    ensures { IfOk result (λ d. d ≡ detached_from 0 (map (λ (x : Line). x.attached) lines.now)) }
{
    let mut detached = Seq::new(alloc);
    for place in 0..lines.len() {
        add_detached(&mut detached, MonitorId(place as u32), &lines[place])?;
    }
    Ok(detached)
}

/// Adds a monitor to the list if its line is detached.
fn add_detached(
    detached: &mut Seq<MonitorId>,
    monitor: MonitorId,
    line: &Line,
) -> Result<(), NoMemory>
    ensures { OnOk result (detached.new ≡ detached.old ++ detached_from monitor.0 (line.now.attached ∷ [])) }
{
    if !line.attached {
        detached.push(monitor)?;
    }
    Ok(())
}

/// The groups that are there.
fn groups_of(alloc: Global, groups: &Groups) -> Result<Seq<Group>, NoMemory>
    ensures { IfOk result (λ g. g ≡ groups_from 0 groups.now.groups) }
{
    groups.facts();
    let mut listed = Seq::new(alloc);
    for number in 0..GROUPS {
        add_group(alloc, groups, GroupId(number), &mut listed)?;
    }
    Ok(listed)
}

/// Adds the group of a number to the list, if there is one.
fn add_group(
    alloc: Global,
    groups: &Groups,
    group: GroupId,
    listed: &mut Seq<Group>,
) -> Result<(), NoMemory>
    ensures { OnOk result (listed.new ≡ listed.old ++ groups_from group.0 (group_at groups.now.groups group.0 ∷ [])) }
{
    if groups.has(group) {
        let children = copy(alloc, groups.children(group))?;
        listed.push(Group { group, children })?;
    }
    Ok(())
}

/// A list of the same monitors.
fn copy(alloc: Global, monitors: &[MonitorId]) -> Result<Seq<MonitorId>, NoMemory>
    ensures { IfOk result (λ c. c ≡ monitors.now) }
{
    Ok(Seq {
        items: monitors.to_vec(alloc)?,
    })
}
