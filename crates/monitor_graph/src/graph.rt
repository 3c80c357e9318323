//! The graph of monitors: deviations, costs, totals and groups.

ghost use Rattle.std.specs.Prelude.{◌≡◌, ◌<◌, ◌≤◌, ◌+◌, ℕ, List, [], true, length, slice_index, slice_set, replicate, All, IfOk, IsOk, OnOk, OnErr};
ghost use Rattle.khe_base.specs.declared.limits.TheConstants.{GREATEST_DEVIATION, GROUPS, MONITORS};
ghost use Rattle.khe_instance.specs.Costs.{totals_of};
ghost use Rattle.khe_instance.specs.declared.parts.Parts.{Parts};
ghost use Rattle.monitor_graph.specs.Boards.{grouping_of, deviations_of, HaveSameRest};
ghost use Rattle.monitor_graph.specs.Edits.{is_attached};
ghost use Rattle.monitor_graph.specs.Groups.{AreGroups, has_group, children_at, child_at, seats_at, HaveRoom, HaveAsMany};
ghost use Rattle.monitor_graph.specs.Lines.{IsLine};
ghost use Rattle.monitor_graph.specs.Opened.{IsFresh, groups_in};
ghost use Rattle.monitor_graph.specs.Trials.{AreTotalsWith, IsStill};
ghost use Rattle.monitor_graph.specs.Values.{IsOf, IsNextDefect, costs_in, group_totals, only_dearer};

use crate::dearer::{mark_changed, recount};
use crate::group_costs::GroupCosts;
use crate::groups::Groups;
use crate::lines::{Line, cost_of, replace, shift};
use crate::rows::{first_set, put};
use khe_base::bits::no_bits;
use khe_base::{GroupId, MonitorId, NoMemory, Totals};
use khe_told::Steps;
use std::alloc::Global;
use std::marker::Model;
use std::sync::ledger::Ledger;

/// The deviations of all monitors, which of them are attached, and groups of monitors; and what
/// follows from these: costs, totals, defects, and which monitors cost more than when the costs were
/// marked. Contracts see the first three, the costs that were marked, and for how many children there
/// is room at each group number. A graph has the definitions' values where it is of an instance (`IsOf`), as `open` gives
/// it.
///
/// A change of a deviation takes constant time, and so do all values but the next defect. Only `open`, `of_lines` and `room` take memory.
pub struct Graph {
    pub(crate) lines: Vec<Line>,
    hard: u128,
    soft: u128,
    /// A bit for each monitor that is a defect, and a bit for each word of these that is not 0.
    words: Vec<u64>,
    summary: Vec<u64>,
    /// What each monitor cost when the costs were marked.
    marked: Vec<u128>,
    /// A bit for each monitor whose cost was another since, and a bit for each word of these that is
    /// not 0.
    changed: Vec<u64>,
    changed_words: Vec<u64>,
    /// How many monitors cost more than marked, and the sum of their numbers.
    dearer: u64,
    numbers: u64,
    pub(crate) groups: Groups,
    pub(crate) costs: GroupCosts,
}

// By hand: an exit of a caller then has one call to prove, and not a drop for each field.
impl Drop for Graph {
    fn drop(self) {
        let Graph {
            lines: _lines,
            hard: _hard,
            soft: _soft,
            words: _words,
            summary: _summary,
            marked: _marked,
            changed: _changed,
            changed_words: _changed_words,
            dearer: _dearer,
            numbers: _numbers,
            groups: _groups,
            costs: _costs,
        } = self;
    }
}

impl Model for Graph {
    ghost use Rattle.std.specs.Prelude.{◌≡◌, length};
    ghost use Rattle.monitor_graph.specs.Boards.{Board};
    ghost use Rattle.monitor_graph.specs.Dearer.{AreCompared};
    ghost use Rattle.monitor_graph.specs.Defects.{AreDefects};
    ghost use Rattle.monitor_graph.specs.GroupCosts.{AreGroupCosts};
    ghost use Rattle.monitor_graph.specs.Left.{AreLeft};
    ghost use Rattle.monitor_graph.specs.Lines.{AreTotalled, line_costs};

    ghost Value = { Board };

    ghost view = { λ g. record { lines = g.lines.items; groups = g.groups.groups; marked = g.marked.items; seats = g.groups.seats } };

    ghost invariant = { λ g. AreTotalled g.lines.items g.hard g.soft × AreDefects g.lines.items g.words.items g.summary.items
        × AreCompared (line_costs g.lines.items) g.marked.items g.dearer g.numbers × (g.groups.monitors ≡ length g.lines.items)
        × AreGroupCosts g.lines.items g.groups.groups g.costs.hard.items g.costs.soft.items
        × AreLeft (line_costs g.lines.items) g.marked.items g.changed.items g.changed_words.items };
}

impl Graph {
    /// The graph of these lines, without groups; the costs that are marked are 0. It takes time and
    /// memory in proportion to the lines.
    pub fn of_lines(alloc: Global, lines: Vec<Line>) -> Result<Graph, NoMemory>
        requires few { length lines.items ≤ MONITORS }
        requires fresh { All IsFresh lines.items }
        ensures lines { IfOk result (λ g. g.lines ≡ lines.items) }
        ensures groups { IfOk result (λ g. g.groups ≡ groups_in []) }
        ensures marked { IfOk result (λ g. g.marked ≡ replicate (length lines.items) 0) }
    {
        let monitors = lines.len();
        let words = monitors / 64 + 1;
        Ok(Graph {
            hard: 0,
            soft: 0,
            dearer: 0,
            numbers: 0,
            summary: no_bits(alloc, words / 64 + 1)?,
            words: no_bits(alloc, words)?,
            marked: vec![in alloc; 0; monitors]?,
            changed_words: no_bits(alloc, words / 64 + 1)?,
            changed: no_bits(alloc, words)?,
            groups: Groups::open(alloc, monitors)?,
            costs: GroupCosts::open(alloc)?,
            lines,
        })
    }

    /// What is true of every graph: its groups are groups of its monitors, and there is a seat for
    /// each child.
    pub fn facts(&self)
        ensures monitors { length self.now.lines ≤ MONITORS }
        ensures groups { AreGroups (length self.now.lines) self.now.groups }
        ensures seats { HaveRoom self.now.groups self.now.seats }
    {
        let _ = &self.lines;
        self.groups.facts();
    }

    /// How many monitors there are.
    pub fn monitors(&self) -> u32
        ensures { result ≡ length self.now.lines }
    {
        self.lines.len() as u32
    }

    /// The deviation of a monitor.
    pub fn deviation(&self, monitor: MonitorId) -> u64
        requires { monitor.0 < length self.now.lines }
        ensures { result ≡ slice_index (deviations_of self.now) monitor.0 }
    {
        self.lines[monitor.0 as usize].deviation
    }

    /// Whether a monitor is attached.
    pub fn attached(&self, monitor: MonitorId) -> bool
        requires { monitor.0 < length self.now.lines }
        ensures { result ≡ is_attached (grouping_of self.now) monitor.0 }
    {
        self.lines[monitor.0 as usize].attached
    }

    /// What a monitor costs.
    pub fn cost(&self, monitor: MonitorId) -> u128
        requires { monitor.0 < length self.now.lines }
        ensures { (p : Parts) → IsOf self.now p → result ≡ slice_index (costs_in p self.now) monitor.0 }
    {
        cost_of(&self.lines[monitor.0 as usize])
    }

    /// The hard and soft totals of all monitors.
    pub fn totals(&self) -> Totals
        ensures value { (p : Parts) → IsOf self.now p → result ≡ totals_of p (costs_in p self.now) }
        ensures whole { AreTotalsWith self.now.lines (deviations_of self.now) result }
    {
        Totals {
            hard: self.hard,
            soft: self.soft,
        }
    }

    /// Adjusts totals of this graph with other deviations to a new deviation of one monitor, which is
    /// still the graph's own in these totals. It takes constant time. Where the graph is of an instance
    /// such totals are the definitions' (`totals_with`).
    pub fn shift(&self, monitor: MonitorId, deviation: u64, totals: &mut Totals)
        requires known { monitor.0 < length self.now.lines }
        requires small { deviation ≤ GREATEST_DEVIATION }
        requires before { (ds : List ℕ) × AreTotalsWith self.now.lines ds totals.old × IsStill self.now.lines ds monitor.0 }
        ensures { (ds : List ℕ) → AreTotalsWith self.now.lines ds totals.old → IsStill self.now.lines ds monitor.0 → AreTotalsWith self.now.lines (slice_set ds monitor.0 deviation) totals.new }
    {
        shift(self.lines.as_slice(), monitor.0 as usize, deviation, totals);
    }

    /// The first defect with a number of at least this one; `None` where there is none.
    pub fn next_defect(&self, from: u32) -> Option<MonitorId>
        ensures { (p : Parts) → IsOf self.now p → IsNextDefect (costs_in p self.now) from result }
    {
        match first_set(
            self.words.as_slice(),
            self.summary.as_slice(),
            from as usize,
        ) {
            Some(number) => Some(MonitorId(number as u32)),
            None => None,
        }
    }

    /// Marks the present costs, with which later ones are compared. It takes time in proportion to the monitors
    /// whose costs changed since they were marked, and to a 4096th of all.
    pub fn compare_from_here(&mut self)
        ensures lines { self.new.lines ≡ self.old.lines }
        ensures groups { self.new.groups ≡ self.old.groups }
        ensures seats { self.new.seats ≡ self.old.seats }
        ensures marked { (p : Parts) → IsOf self.old p → self.new.marked ≡ costs_in p self.old }
    {
        mark_changed(
            &mut self.marked,
            &mut self.changed,
            &mut self.changed_words,
            self.lines.as_slice(),
        );
        self.dearer = 0;
        self.numbers = 0;
    }

    /// The only monitor that costs more than when costs were marked; `None` where none does, or several do.
    pub fn only_dearer(&self) -> Option<MonitorId>
        ensures { (p : Parts) → IsOf self.now p → result ≡ only_dearer p self.now }
    {
        if self.dearer == 1 {
            Some(MonitorId(self.numbers as u32))
        } else {
            None
        }
    }

    /// Whether a group has this number.
    pub fn has_group(&self, group: GroupId) -> bool
        ensures { result ≡ has_group self.now.groups group.0 }
    {
        self.groups.has(group)
    }

    /// The child of a group at a place, from 0; `None` where it has fewer children.
    pub fn child(&self, group: GroupId, k: u32) -> Option<MonitorId>
        requires { has_group self.now.groups group.0 ≡ true }
        ensures { result ≡ child_at self.now.groups group.0 k }
    {
        self.groups.children(group).get(k as usize).copied()
    }

    /// What a group costs, in constant time.
    pub fn group_cost(&self, group: GroupId) -> Totals
        requires { has_group self.now.groups group.0 ≡ true }
        ensures { (p : Parts) → IsOf self.now p → result ≡ group_totals p self.now group.0 }
    {
        self.groups.facts();
        self.costs.of(group)
    }

    /// Makes room for this many more children in the group with this number, whether or not there is such a
    /// group. Where memory is refused, all stays as it was. Room for one at a time is made in constant time on
    /// average.
    pub fn room(&mut self, group: GroupId, n: u32) -> Result<(), NoMemory>
        ensures lines { self.new.lines ≡ self.old.lines }
        ensures groups { self.new.groups ≡ self.old.groups }
        ensures marked { self.new.marked ≡ self.old.marked }
        ensures kept { HaveAsMany self.old.seats self.new.seats }
        ensures ok { OnOk result (group.0 < GROUPS → length (children_at self.new.groups group.0) + n ≤ seats_at self.new.seats group.0) }
        ensures err { OnErr result (self.new ≡ self.old) }
        ensures there { length (children_at self.old.groups group.0) + n ≤ seats_at self.old.seats group.0 → IsOk result }
    {
        self.groups.reserve(group, n as usize)
    }

    /// Changes the deviation of a monitor, and what it costs, in constant time, and takes one step. A
    /// deviation that stays the same, as most do, is only looked at.
    pub fn set<L: Ledger>(&mut self, monitor: MonitorId, deviation: u64, steps: &mut Steps<L>)
        requires known { monitor.0 < length (deviations_of self.old) }
        requires small { deviation ≤ GREATEST_DEVIATION }
        ensures set { deviations_of self.new ≡ slice_set (deviations_of self.old) monitor.0 deviation }
        ensures rest { HaveSameRest self.old self.new }
        ensures steps { steps.new ≡ steps.old + 1 }
    {
        steps.tick();
        if self.lines[monitor.0 as usize].deviation == deviation {
            return;
        }
        self.deviate(monitor, deviation);
    }

    /// Changes the deviation of a monitor, and what it costs, in constant time. It stands by itself, so
    /// that the families, which ask it seldom, hold no copy of it.
    #[inline(never)]
    pub(crate) fn deviate(&mut self, monitor: MonitorId, deviation: u64)
        requires known { monitor.0 < length self.old.lines }
        requires small { deviation ≤ GREATEST_DEVIATION }
        ensures set { deviations_of self.new ≡ slice_set (deviations_of self.old) monitor.0 deviation }
        ensures rest { HaveSameRest self.old self.new }
    {
        let line = Line {
            deviation,
            ..self.lines[monitor.0 as usize]
        };
        self.turn(monitor, line);
    }

    /// Puts a line in the place of a monitor's, in constant time. Its callers change one field of the
    /// line that stands there, and so need no line of their own where it is part of them.
    #[inline(always)]
    pub(crate) fn turn(&mut self, monitor: MonitorId, line: Line)
        requires known { monitor.0 < length self.old.lines }
        requires line { IsLine line }
        ensures lines { self.new.lines ≡ slice_set self.old.lines monitor.0 line }
        ensures groups { self.new.groups ≡ self.old.groups }
        ensures marked { self.new.marked ≡ self.old.marked }
        ensures seats { self.new.seats ≡ self.old.seats }
    {
        let place = monitor.0 as usize;
        let before = cost_of(&self.lines[place]);
        let after = cost_of(&line);
        self.costs
            .follow(&self.groups, self.lines.as_slice(), monitor, line);
        replace(
            &mut self.lines,
            &mut self.hard,
            &mut self.soft,
            place,
            line,
            before,
            after,
        );
        let marked = self.marked[place];
        put(&mut self.words, &mut self.summary, place, after > 0);
        put(&mut self.changed, &mut self.changed_words, place, true);
        recount(
            &mut self.dearer,
            &mut self.numbers,
            marked,
            before,
            after,
            monitor.0,
        );
    }
}
