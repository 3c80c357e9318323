//! What each group costs, kept by differences.

ghost use Rattle.std.specs.Prelude.{◌≡◌, ◌<◌, ◌≤◌, ◌+◌, ◌-◌, ℕ, Option, Some, None, List, length, slice_get, slice_index_or, slice_set, true, false, All, IfOk};
ghost use Rattle.std.specs.List.{insert};
ghost use Rattle.khe_base.specs.declared.limits.TheConstants.{GROUPS, MONITORS};
ghost use Rattle.khe_base.specs.declared.numbers.MonitorId.{MonitorId};
ghost use Rattle.monitor_graph.specs.Groups.{AreGroups, children_at, has_child, has_group, without};
ghost use Rattle.monitor_graph.specs.GroupCosts.{AreChangedTo, AreGroupCosts, CanExchange};
ghost use Rattle.monitor_graph.specs.Lines.{IsLine, hard_cost, soft_cost};

use crate::groups::Groups;
use crate::lines::{Line, exchange, totals_among};
use khe_base::limits::GROUPS;
use khe_base::{GroupId, MonitorId, NoMemory, Totals};
use std::alloc::Global;

/// A hard and a soft cost for each group number, 0 where there is no such group.
#[derive(Drop)]
pub(crate) struct GroupCosts {
    hard: Vec<u128>,
    soft: Vec<u128>,
}

impl GroupCosts {
    /// The costs of groups without children.
    pub(crate) fn open(alloc: Global) -> Result<GroupCosts, NoMemory>
        ensures hard_long { IfOk result (λ c. length c.hard.items ≡ GROUPS) }
        ensures soft_long { IfOk result (λ c. length c.soft.items ≡ GROUPS) }
        ensures hard { IfOk result (λ c. (g : ℕ) → slice_index_or c.hard.items g 0 ≡ 0) }
        ensures soft { IfOk result (λ c. (g : ℕ) → slice_index_or c.soft.items g 0 ≡ 0) }
    {
        let hard = no_costs(alloc, GROUPS as usize)?;
        let soft = no_costs(alloc, GROUPS as usize)?;
        Ok(GroupCosts { hard, soft })
    }

    /// What the group of a number costs, in constant time.
    pub(crate) fn of(&self, group: GroupId) -> Totals
        requires there { (group.0 < length self.now.hard.items) × (group.0 < length self.now.soft.items) }
        ensures hard { result.hard ≡ slice_index_or self.now.hard.items group.0 0 }
        ensures soft { result.soft ≡ slice_index_or self.now.soft.items group.0 0 }
    {
        let place = group.0 as usize;
        Totals {
            hard: self.hard[place],
            soft: self.soft[place],
        }
    }

    /// Follows another line that is about to be put in the place of a monitor's, in constant time, in
    /// which each group number is looked at where the monitor is in a group.
    #[inline(always)]
    pub(crate) fn follow(&mut self, groups: &Groups, lines: &[Line], monitor: MonitorId, line: Line)
        requires costs { AreGroupCosts lines.now groups.now.groups self.old.hard.items self.old.soft.items }
        requires monitors { groups.now.monitors ≡ length lines.now }
        requires few { length lines.now ≤ MONITORS }
        requires each { All IsLine lines.now }
        requires line { IsLine line }
        requires known { monitor.0 < length lines.now }
        ensures { AreGroupCosts (slice_set lines.now monitor.0 line) groups.now.groups self.new.hard.items self.new.soft.items }
    {
        if groups.is_alone(monitor) {
            return;
        }
        self.follow_each(groups, lines, monitor, line);
    }

    /// Follows the line in each group.
    #[inline(never)]
    fn follow_each(&mut self, groups: &Groups, lines: &[Line], monitor: MonitorId, line: Line)
        requires costs { AreGroupCosts lines.now groups.now.groups self.old.hard.items self.old.soft.items }
        requires monitors { groups.now.monitors ≡ length lines.now }
        requires few { length lines.now ≤ MONITORS }
        requires each { All IsLine lines.now }
        requires line { IsLine line }
        requires known { monitor.0 < length lines.now }
        ensures { AreGroupCosts (slice_set lines.now monitor.0 line) groups.now.groups self.new.hard.items self.new.soft.items }
    {
        groups.facts();
        for number in 0..GROUPS {
            self.follow_in(groups, GroupId(number), lines, monitor, line);
        }
    }

    /// Follows the line in one group.
    fn follow_in(
        &mut self,
        groups: &Groups,
        group: GroupId,
        lines: &[Line],
        monitor: MonitorId,
        line: Line,
    )
        requires costs { AreChangedTo group.0 lines.now (slice_set lines.now monitor.0 line) groups.now.groups self.old.hard.items self.old.soft.items }
        requires valid { AreGroups (length lines.now) groups.now.groups }
        requires few { length lines.now ≤ MONITORS }
        requires each { All IsLine lines.now }
        requires line { IsLine line }
        requires known { monitor.0 < length lines.now }
        ensures { AreChangedTo (group.0 + 1) lines.now (slice_set lines.now monitor.0 line) groups.now.groups self.new.hard.items self.new.soft.items }
    {
        if !groups.holds(group, monitor) {
            return;
        }
        let old = lines[monitor.0 as usize];
        self.swap_at(group.0 as usize, &old, &line);
    }

    /// Follows a child that is about to come into a group, in constant time.
    pub(crate) fn add(&mut self, groups: &Groups, group: GroupId, lines: &[Line], child: MonitorId)
        requires costs { AreGroupCosts lines.now groups.now.groups self.old.hard.items self.old.soft.items }
        requires monitors { groups.now.monitors ≡ length lines.now }
        requires few { length lines.now ≤ MONITORS }
        requires each { All IsLine lines.now }
        requires there { has_group groups.now.groups group.0 ≡ true }
        requires known { child.0 < length lines.now }
        ensures { (k : ℕ) → AreGroupCosts lines.now (slice_set groups.now.groups group.0 (Some (insert (children_at groups.now.groups group.0) k child))) self.new.hard.items self.new.soft.items }
    {
        groups.facts();
        let line = lines[child.0 as usize];
        self.swap_at(group.0 as usize, &freed(&line), &line);
    }

    /// Follows a child that is about to leave a group, in constant time.
    pub(crate) fn remove(
        &mut self,
        groups: &Groups,
        group: GroupId,
        lines: &[Line],
        child: MonitorId,
    )
        requires costs { AreGroupCosts lines.now groups.now.groups self.old.hard.items self.old.soft.items }
        requires monitors { groups.now.monitors ≡ length lines.now }
        requires few { length lines.now ≤ MONITORS }
        requires each { All IsLine lines.now }
        requires there { has_child groups.now.groups group.0 child.0 ≡ true }
        ensures { AreGroupCosts lines.now (slice_set groups.now.groups group.0 (Some (without child.0 (children_at groups.now.groups group.0)))) self.new.hard.items self.new.soft.items }
    {
        groups.facts();
        let line = lines[child.0 as usize];
        self.swap_at(group.0 as usize, &line, &freed(&line));
    }

    /// Adds up what one group costs, where its children alone changed, in time in
    /// proportion to them.
    pub(crate) fn renew(&mut self, groups: &Groups, group: GroupId, lines: &[Line])
        requires costs { (gs : List (Option (List MonitorId))) × (o : Option (List MonitorId)) × AreGroupCosts lines.now gs self.old.hard.items self.old.soft.items × (groups.now.groups ≡ slice_set gs group.0 o) }
        requires monitors { groups.now.monitors ≡ length lines.now }
        requires few { length lines.now ≤ MONITORS }
        requires each { All IsLine lines.now }
        requires there { has_group groups.now.groups group.0 ≡ true }
        ensures { AreGroupCosts lines.now groups.now.groups self.new.hard.items self.new.soft.items }
    {
        groups.facts();
        let totals = totals_among(lines, groups.children(group));
        self.put(group.0 as usize, totals);
    }

    /// Changes what a group costs by what a line costs that takes the place of another.
    fn swap_at(&mut self, place: usize, old: &Line, line: &Line)
        requires there { (place < length self.old.hard.items) × (place < length self.old.soft.items) }
        requires old { IsLine old.now }
        requires line { IsLine line.now }
        requires hard { CanExchange (hard_cost old.now) (slice_index_or self.old.hard.items place 0) }
        requires soft { CanExchange (soft_cost old.now) (slice_index_or self.old.soft.items place 0) }
        ensures hard { self.new.hard.items ≡ slice_set self.old.hard.items place (slice_index_or self.old.hard.items place 0 - hard_cost old.now + hard_cost line.now) }
        ensures soft { self.new.soft.items ≡ slice_set self.old.soft.items place (slice_index_or self.old.soft.items place 0 - soft_cost old.now + soft_cost line.now) }
    {
        let mut totals = Totals {
            hard: self.hard[place],
            soft: self.soft[place],
        };
        exchange(&mut totals, old, line);
        self.put(place, totals);
    }

    /// Keeps these totals as what the group of a number costs.
    fn put(&mut self, place: usize, totals: Totals)
        requires { (place < length self.old.hard.items) × (place < length self.old.soft.items) }
        ensures hard { self.new.hard.items ≡ slice_set self.old.hard.items place totals.hard }
        ensures soft { self.new.soft.items ≡ slice_set self.old.soft.items place totals.soft }
    {
        self.hard[place] = totals.hard;
        self.soft[place] = totals.soft;
    }
}

/// The given number of costs, all 0.
fn no_costs(alloc: Global, n: usize) -> Result<Vec<u128>, NoMemory>
    ensures long { IfOk result (λ v. length v.items ≡ n) }
    ensures none { IfOk result (λ v. (g : ℕ) → slice_index_or v.items g 0 ≡ 0) }
{
    Ok(vec![in alloc; 0; n]?)
}

/// The line of a monitor as it would be detached: it costs nothing.
fn freed(line: &Line) -> Line
    requires { IsLine line.now }
    ensures line { IsLine result }
    ensures hard { hard_cost result ≡ 0 }
    ensures soft { soft_cost result ≡ 0 }
{
    Line {
        attached: false,
        ..*line
    }
}
