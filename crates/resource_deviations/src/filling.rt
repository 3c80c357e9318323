//! Adding the tasks of a timetable up for each resource.

ghost use Rattle.std.specs.Prelude.{◌≡◌, ◌+◌, ◌*◌, ◌^◌, ◌/◌, ◌<◌, ◌≤◌, ◌&&◌, ℕ, ◌==◌, nat_le, nat_lt, if◌then◌else◌, IfOk, length, replicate, slice_index};
ghost use Rattle.khe_base.specs.declared.limits.TheConstants.{GREATEST_COUNT, NUMBER};
ghost use Rattle.khe_instance.specs.ResourceDeviation.{workload_of};
ghost use Rattle.khe_instance.specs.States.{IsDuty};
ghost use Rattle.resource_deviations.specs.Filled.{HasRows, AddsCounts, AddsWorkload, counted, summed};
ghost use Rattle.resource_deviations.specs.Rows.{AreRows, HasRow};
ghost use Rattle.timetables.specs.Counts.{row_of, count_at};

use crate::rows::Rows;
use khe_base::{NoMemory, ResourceId, TimeId};
use khe_instance::{Duty, Instance};
use std::alloc::Global;
use timetables::Timetable;

/// A workload of 0 for each of the given number of rows.
pub(crate) fn no_workloads(alloc: Global, rows: u32) -> Result<Vec<u128>, NoMemory>
    ensures { IfOk result (λ w. w.items ≡ replicate rows 0) }
{
    Ok(vec![in alloc; 0; rows as usize]?)
}

/// Adds a task to the counts, at each time at which its meet runs.
pub(crate) fn add_counts(inst: &Instance, duty: &Duty, rows: &Rows, table: &mut Timetable)
    requires duty { IsDuty inst.now duty.now }
    requires numbered { AreRows rows.now.of.items rows.now.count }
    requires resources { length rows.now.of.items ≡ length inst.now.resources }
    requires own { HasRow rows.now.of.items duty.now }
    requires room { HasRows inst.now rows.now.count table.old }
    requires counts { (r t : ℕ) → counted rows.now.of.items table.old r t < GREATEST_COUNT }
    ensures room { HasRows inst.now rows.now.count table.new }
    ensures counts { AddsCounts duty.now rows.now.of.items table.old table.new }
{
    inst.facts();
    let Some(resource) = duty.resource else {
        return;
    };
    let Some(start) = duty.meet.start else {
        return;
    };
    occupy(table, rows.row(resource), start, duty.meet.duration);
}

/// Adds a task to the workloads, whether its meet has a start or not.
pub(crate) fn add_workload(inst: &Instance, duty: &Duty, rows: &Rows, workloads: &mut Vec<u128>)
    requires duty { IsDuty inst.now duty.now }
    requires numbered { AreRows rows.now.of.items rows.now.count }
    requires resources { length rows.now.of.items ≡ length inst.now.resources }
    requires own { HasRow rows.now.of.items duty.now }
    requires room { length workloads.old.items ≡ rows.now.count }
    requires small { (r : ℕ) → summed rows.now.of.items workloads.old.items r + NUMBER * inst.now.unit < 2 ^ 128 }
    ensures room { length workloads.new.items ≡ rows.now.count }
    ensures sums { AddsWorkload inst.now duty.now rows.now.of.items workloads.old.items workloads.new.items }
    ensures small { (r : ℕ) → summed rows.now.of.items workloads.new.items r ≤ summed rows.now.of.items workloads.old.items r + NUMBER * inst.now.unit }
{
    let Some(resource) = duty.resource else {
        return;
    };
    let worth = worth_of(inst, duty);
    let row = rows.row(resource).0 as usize;
    workloads[row] += worth;
}

/// What a task is worth to its resource, in parts of one over the unit.
fn worth_of(inst: &Instance, duty: &Duty) -> u128
    requires { IsDuty inst.now duty.now }
    ensures value { result ≡ workload_of inst.now.events inst.now.unit duty.now }
    ensures small { result ≤ NUMBER * inst.now.unit }
{
    inst.facts();
    let event = inst.event(duty.meet.event);
    let rate = rate_of(inst.unit(), event.duration);
    match event.places.as_slice().get(duty.place as usize) {
        None => 0,
        Some(place) => product(place.workload, duty.meet.duration, rate),
    }
}

/// How many parts of one over the unit are one over the duration.
fn rate_of(unit: u64, duration: u32) -> u64
    requires { 1 ≤ duration }
    ensures { result ≡ unit / duration }
{
    unit / u64::from(duration)
}

fn product(workload: u32, duration: u32, rate: u64) -> u128
    ensures { result ≡ workload * duration * rate }
{
    u128::from(workload) * u128::from(duration) * u128::from(rate)
}

/// One more task of the resource at each of `duration` times from a start on.
fn occupy(table: &mut Timetable, resource: ResourceId, start: TimeId, duration: u32)
    requires resource { resource.0 < length table.old }
    requires times { start.0 + duration ≤ length (row_of table.old resource.0) }
    requires small { length (row_of table.old resource.0) < 2 ^ 32 }
    requires counts { (t : ℕ) → count_at table.old resource.0 t < GREATEST_COUNT }
    ensures resources { length table.new ≡ length table.old }
    ensures times { (r : ℕ) → length (row_of table.new r) ≡ length (row_of table.old r) }
    ensures counts { (r t : ℕ) → count_at table.new r t ≡ count_at table.old r t + (if (resource.0 == r) && (nat_le start.0 t && nat_lt t (start.0 + duration)) then 1 else 0) }
{
    for t in start.0..start.0 + duration {
        table.rise(resource, TimeId(t));
    }
}
