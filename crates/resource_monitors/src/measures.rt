//! What is counted in the timetable of a resource: busy and idle times, by sets of times.

ghost use Rattle.std.specs.Prelude.{◌≡◌, ◌+◌, ◌^◌, ◌<◌, ◌≤◌, nat_lt, length, All};
ghost use Rattle.std.specs.List.{count_by, sum_by};
ghost use Rattle.khe_base.specs.Bounds.{count_outside};
ghost use Rattle.khe_base.specs.declared.limits.TheConstants.{LISTED, TIMES};
ghost use Rattle.khe_instance.specs.ResourceDeviation.{used_outside};
ghost use Rattle.timetables.specs.Counts.{row_of, busy_times, idle_times};

use crate::tables::CellTable;
use khe_base::{ResourceId, count_out};
use timetables::Mask;

/// The busy times of all sets together.
#[inline(never)]
pub(crate) fn busy_total(table: &CellTable, r: ResourceId, masks: &[Mask]) -> u64
    requires resource { r.0 < length table.now }
    requires sizes { All (λ m. length m ≡ length (row_of table.now r.0)) masks.now }
    requires few { length masks.now ≤ LISTED }
    ensures { result ≡ sum_by (busy_times (row_of table.now r.0)) masks.now }
{
    let mut total = 0;
    for mask in masks {
        total += u64::from(table.busy_in(r, mask));
    }
    total
}

/// How far the idle times of all sets together lie outside the bounds.
#[inline(never)]
pub(crate) fn idle_outside(
    table: &CellTable,
    r: ResourceId,
    masks: &[Mask],
    least: u32,
    greatest: u32,
) -> u64
    requires resource { r.0 < length table.now }
    requires sizes { All (λ m. length m ≡ length (row_of table.now r.0)) masks.now }
    requires times { length (row_of table.now r.0) ≤ TIMES }
    requires few { length masks.now ≤ LISTED }
    ensures { result ≡ count_outside (sum_by (idle_times (row_of table.now r.0)) masks.now) least greatest }
{
    let mut total = 0;
    for mask in masks {
        total += u64::from(table.idle_in(r, mask));
    }
    count_out(total, least, greatest)
}

/// How far the number of sets with a busy time lies outside the bounds.
#[inline(never)]
pub(crate) fn busy_sets_outside(
    table: &CellTable,
    r: ResourceId,
    masks: &[Mask],
    least: u32,
    greatest: u32,
) -> u64
    requires resource { r.0 < length table.now }
    requires sizes { All (λ m. length m ≡ length (row_of table.now r.0)) masks.now }
    requires few { length masks.now ≤ LISTED }
    ensures { result ≡ count_outside (count_by (λ m. nat_lt 0 (busy_times (row_of table.now r.0) m)) masks.now) least greatest }
{
    let mut busy_sets = 0;
    for mask in masks {
        if table.meets(r, mask) {
            busy_sets += 1;
        }
    }
    count_out(busy_sets, least, greatest)
}

/// For each set with a busy time, how far the number of its busy times lies outside the bounds.
#[inline(never)]
pub(crate) fn busy_outside(
    table: &CellTable,
    r: ResourceId,
    masks: &[Mask],
    least: u32,
    greatest: u32,
) -> u64
    requires resource { r.0 < length table.now }
    requires sizes { All (λ m. length m ≡ length (row_of table.now r.0)) masks.now }
    requires few { length masks.now ≤ LISTED }
    ensures { result ≡ sum_by (λ m. used_outside (busy_times (row_of table.now r.0) m) least greatest) masks.now }
{
    let mut total = 0;
    for mask in masks {
        total += set_outside(table.busy_in(r, mask), least, greatest);
    }
    total
}

/// How far the number of a set's busy times lies outside the bounds, and 0 where it has none.
pub(crate) fn set_outside(busy: u32, least: u32, greatest: u32) -> u64
    ensures value { result ≡ used_outside busy least greatest }
    ensures small { result < 2 ^ 33 }
{
    if busy == 0 {
        return 0;
    }
    count_out(u64::from(busy), least, greatest)
}
