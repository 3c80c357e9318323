//! What is counted in the timetable of a resource: clashes, busy and idle times.

ghost use Rattle.std.specs.Prelude.{◌≡◌, ◌+◌, ◌-◌, ◌*◌, ◌^◌, ◌<◌, ◌≤◌, nat_lt, length, All, slice_index};
ghost use Rattle.std.specs.List.{count_by, sum_by, range_with_len};
ghost use Rattle.khe_base.specs.Bounds.{count_outside};
ghost use Rattle.khe_base.specs.declared.limits.TheConstants.{GREATEST_DEVIATION, LISTED, TIMES, UNIT};
ghost use Rattle.khe_instance.specs.ResourceDeviation.{used_outside, rounded_up};
ghost use Rattle.timetables.specs.Counts.{row_of, busy_times, idle_times};

use khe_base::{ResourceId, TimeId, count_out};
use timetables::{Mask, Timetable};

/// For each time, how many tasks of the resource run then beyond one. It takes time in proportion
/// to the times.
pub(crate) fn clashes(table: &Timetable, r: ResourceId, times: u32) -> u64
    requires resource { r.0 < length table.now }
    requires times { length (row_of table.now r.0) ≡ times }
    ensures { result ≡ sum_by (λ t. slice_index (row_of table.now r.0) t - 1) (range_with_len 0 times) }
{
    let mut total = 0;
    for t in 0..times {
        total += u64::from(table.count(r, TimeId(t)).saturating_sub(1));
    }
    total
}

/// The busy times of all sets together.
pub(crate) fn busy_total(table: &Timetable, r: ResourceId, masks: &[Mask]) -> u64
    requires resource { r.0 < length table.now }
    requires sizes { All (λ m. length m ≡ length (row_of table.now r.0)) masks.now }
    requires few { length masks.now ≤ LISTED }
    ensures { result ≡ sum_by (busy_times (row_of table.now r.0)) masks.now }
{
    let mut total = 0;
    for mask in masks {
        total += u64::from(table.busy_in(r, mask));
    }
    total
}

/// How far the idle times of all sets together lie outside the bounds.
pub(crate) fn idle_outside(
    table: &Timetable,
    r: ResourceId,
    masks: &[Mask],
    least: u32,
    greatest: u32,
) -> u64
    requires resource { r.0 < length table.now }
    requires sizes { All (λ m. length m ≡ length (row_of table.now r.0)) masks.now }
    requires times { length (row_of table.now r.0) ≤ TIMES }
    requires few { length masks.now ≤ LISTED }
    ensures { result ≡ count_outside (sum_by (idle_times (row_of table.now r.0)) masks.now) least greatest }
{
    let mut total = 0;
    for mask in masks {
        total += u64::from(table.idle_in(r, mask));
    }
    count_out(total, least, greatest)
}

/// How far the number of sets with a busy time lies outside the bounds.
pub(crate) fn busy_sets_outside(
    table: &Timetable,
    r: ResourceId,
    masks: &[Mask],
    least: u32,
    greatest: u32,
) -> u64
    requires resource { r.0 < length table.now }
    requires sizes { All (λ m. length m ≡ length (row_of table.now r.0)) masks.now }
    requires few { length masks.now ≤ LISTED }
    ensures { result ≡ count_outside (count_by (λ m. nat_lt 0 (busy_times (row_of table.now r.0) m)) masks.now) least greatest }
{
    let mut busy_sets = 0;
    for mask in masks {
        if table.busy_in(r, mask) > 0 {
            busy_sets += 1;
        }
    }
    count_out(busy_sets, least, greatest)
}

/// For each set with a busy time, how far the number of its busy times lies outside the bounds.
pub(crate) fn busy_outside(
    table: &Timetable,
    r: ResourceId,
    masks: &[Mask],
    least: u32,
    greatest: u32,
) -> u64
    requires resource { r.0 < length table.now }
    requires sizes { All (λ m. length m ≡ length (row_of table.now r.0)) masks.now }
    requires few { length masks.now ≤ LISTED }
    ensures { result ≡ sum_by (λ m. used_outside (busy_times (row_of table.now r.0) m) least greatest) masks.now }
{
    let mut total = 0;
    for mask in masks {
        total += set_outside(table.busy_in(r, mask), least, greatest);
    }
    total
}

/// How far the number of a set's busy times lies outside the bounds, and 0 where it has none.
fn set_outside(busy: u32, least: u32, greatest: u32) -> u64
    ensures value { result ≡ used_outside busy least greatest }
    ensures small { result < 2 ^ 33 }
{
    if busy == 0 {
        return 0;
    }
    count_out(u64::from(busy), least, greatest)
}

/// How far a workload, in parts of one over the unit, lies outside the bounds, rounded up to a
/// whole number.
pub(crate) fn workload_outside(workload: u128, unit: u64, least: u32, greatest: u32) -> u64
    requires unit { 0 < unit }
    requires greatest_unit { unit ≤ UNIT }
    requires workload { workload ≤ GREATEST_DEVIATION * unit }
    requires least { least ≤ GREATEST_DEVIATION }
    ensures { result ≡ rounded_up (count_outside workload (least * unit) (greatest * unit)) unit }
{
    let unit = u128::from(unit);
    let least = u128::from(least) * unit;
    let greatest = u128::from(greatest) * unit;
    let parts = if workload < least {
        least - workload
    } else {
        workload.saturating_sub(greatest)
    };
    ((parts + unit - 1) / unit) as u64
}
