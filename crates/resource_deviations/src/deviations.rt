//! The deviations of all monitors at resources.

ghost use Rattle.resource_deviations.specs.Filled.{IsFilled};

use crate::filling::{add_counts, add_workload, no_workloads};
use crate::measures::{
    busy_outside, busy_sets_outside, busy_total, clashes, idle_outside, workload_outside,
};
use crate::rooms::ResourceRoom;
use crate::rows::{Rows, rows_of};
use khe_base::{NoMemory, ResourceId};
use khe_instance::{Duty, Instance, Monitor, Point, Rule};
use std::alloc::Global;
use timetables::{Mask, Timetable};

/// The tasks of a state of an instance, added up for each resource: how many run at each time, and
/// what they are worth together. From these come the deviations of the monitors at resources. Only
/// resources with a task have a row of counts and a workload of their own, so that a state with few tasks
/// takes little.
#[derive(Drop)]
pub struct ResourceDeviations<'a> {
    /// The instance.
    pub inst: &'a Instance,
    /// The tasks of the state, each with its meet.
    pub duties: &'a [Duty],
    /// The row of each resource in what follows.
    rows: Rows,
    table: Timetable,
    /// The workload of each row, in parts of one over the unit.
    workloads: Vec<u128>,
    ghost filled: { IsFilled inst.now duties.now rows.of.items rows.count table workloads.items },
}

impl<'a> ResourceDeviations<'a> {
    ghost use Rattle.std.specs.Prelude.{◌≡◌, ◌*◌, ◌<◌, ◌≤◌, IfOk, IsTrue, List, length, slice_index};
    ghost use Rattle.khe_base.specs.declared.limits.TheConstants.{GREATEST_DEVIATION};
    ghost use Rattle.khe_instance.specs.Deviation.{deviation, measured};
    ghost use Rattle.khe_instance.specs.States.{AreOfState};
    ghost use Rattle.khe_instance.specs.WellMade.{IsMonitor, IsRule};
    ghost use Rattle.khe_instance.specs.declared.states.Meet.{Meet};
    ghost use Rattle.resource_deviations.specs.Sets.{is_at_resource, room_for, sets_of};
    ghost use Rattle.resource_deviations.specs.Filled.{counted, summed};
    ghost use Rattle.timetables.specs.Counts.{row_of};

    /// Adds up the tasks of a state. It takes time in proportion to the resources, to the tasks and the
    /// times that they cover, and to the times for each resource that has a task; and memory in proportion
    /// to the resources, and to the times for each that has a task. No other call takes memory.
    pub fn open(
        alloc: Global,
        inst: &'a Instance,
        duties: &'a [Duty],
    ) -> Result<ResourceDeviations<'a>, NoMemory>
        requires { (meets : List Meet) × AreOfState inst.now meets duties.now }
        ensures { IfOk result (λ d. (d.inst.now ≡ inst.now) × (d.duties.now ≡ duties.now)) }
    {
        inst.facts();
        let rows = rows_of(alloc, inst.resources(), duties)?;
        let mut table = Timetable::open(alloc, rows.count, inst.times())?;
        let mut workloads = no_workloads(alloc, rows.count)?;
        for duty in duties {
            add_counts(inst, duty, &rows, &mut table);
            add_workload(inst, duty, &rows, &mut workloads);
        }
        Ok(ResourceDeviations {
            inst,
            duties,
            rows,
            table,
            workloads,
        })
    }

    /// The deviation of a monitor at a resource, with the room for the instance. It takes time in
    /// proportion to the times for AvoidClashes, to the words, of 64 times each, from the first
    /// time to the last of each of the constraint's sets for the four kinds that name sets, and
    /// constant time for LimitWorkload.
    pub fn deviation(&self, monitor: Monitor, room: &ResourceRoom) -> u64
        requires monitor { IsMonitor self.now.inst.now monitor }
        requires point { IsTrue (is_at_resource monitor.point) }
        requires room { room.now ≡ room_for self.now.inst.now }
        ensures value { (meets : List Meet) → result ≡ deviation self.now.inst.now meets self.now.duties.now monitor }
        ensures bound { result ≤ GREATEST_DEVIATION }
    {
        self.inst.facts();
        let rule = &self.inst.constraint(monitor.constraint).rule;
        let Point::Resource(r) = monitor.point else {
            unreachable!();
        };
        self.of_rule(rule, room.masks_of(monitor.constraint), r)
    }

    /// The deviation of a rule at a resource, by the masks of its sets.
    fn of_rule(&self, rule: &Rule, masks: &[Mask], r: ResourceId) -> u64
        requires rule { IsRule self.now.inst.now rule.now }
        requires masks { masks.now ≡ sets_of rule.now }
        requires resource { r.0 < length self.now.inst.now.resources }
        ensures { result ≡ measured self.now.inst.now rule.now (counted self.now.rows.of.items self.now.table r.0) (summed self.now.rows.of.items self.now.workloads.items r.0) }
    {
        self.inst.facts();
        self.of_row(rule, masks, self.rows.row(r))
    }

    /// The deviation of a rule by what a row has added up, and by the masks of its sets.
    fn of_row(&self, rule: &Rule, masks: &[Mask], row: ResourceId) -> u64
        requires rule { IsRule self.now.inst.now rule.now }
        requires masks { masks.now ≡ sets_of rule.now }
        requires row { row.0 < length self.now.workloads.items }
        requires workload { slice_index self.now.workloads.items row.0 ≤ GREATEST_DEVIATION * self.now.inst.now.unit }
        ensures { result ≡ measured self.now.inst.now rule.now (slice_index (row_of self.now.table row.0)) (slice_index self.now.workloads.items row.0) }
    {
        self.inst.facts();
        let table = &self.table;
        match rule {
            Rule::AvoidClashes => clashes(table, row, self.inst.times()),
            Rule::AvoidUnavailableTimes { .. } => busy_total(table, row, masks),
            Rule::LimitIdleTimes { min, max, .. } => idle_outside(table, row, masks, *min, *max),
            Rule::ClusterBusyTimes { min, max, .. } => {
                busy_sets_outside(table, row, masks, *min, *max)
            }
            Rule::LimitBusyTimes { min, max, .. } => busy_outside(table, row, masks, *min, *max),
            Rule::LimitWorkload { min, max } => {
                workload_outside(self.workloads[row.0 as usize], self.inst.unit(), *min, *max)
            }
            _ => 0,
        }
    }
}
