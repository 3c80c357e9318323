//! The busy times of a resource after effects, as bits.

ghost use Rattle.std.specs.Prelude.{◌≡◌, ◌<◌, ◌≤◌, ◌+◌, ℕ, if◌then◌else◌, nat_eq, nat_lt, true, false, length};
ghost use Rattle.khe_base.specs.Bits.{has_bit};
ghost use Rattle.timetables.specs.Counts.{count_at, row_of};
ghost use Rattle.resource_monitors.specs.Cells.{in_run};
ghost use Rattle.resource_monitors.specs.Shifts.{CanShift, after_both};

use crate::runs::Run;
use crate::shifts::{Shifts, is_busy_after};
use crate::tables::CellTable;
use khe_base::ResourceId;

/// A word in which the bit of a place is set.
#[inline(always)]
fn with_one(word: u64, place: u32) -> u64
    requires { place < 64 }
    ensures { (i : ℕ) → i < 64 → has_bit result i ≡ (if nat_eq i place then true else has_bit word i) }
{
    word | (1 << place)
}

/// A word in which the bit of a place is not set.
#[inline(always)]
fn with_zero(word: u64, place: u32) -> u64
    requires { place < 64 }
    ensures { (i : ℕ) → i < 64 → has_bit result i ≡ (if nat_eq i place then false else has_bit word i) }
{
    word & !(1 << place)
}

/// A word in which the bit of a place is set or not.
#[inline(always)]
fn with_bit(word: u64, place: u32, is_set: bool) -> u64
    requires { place < 64 }
    ensures { (i : ℕ) → i < 64 → has_bit result i ≡ (if nat_eq i place then is_set else has_bit word i) }
{
    if is_set {
        with_one(word, place)
    } else {
        with_zero(word, place)
    }
}

/// A word in which the bits of the times of a run are set where the resource would be busy.
#[inline(always)]
fn with_run(table: &CellTable, r: ResourceId, shifts: Shifts, run: Run, bits: u64) -> u64
    requires resource { r.0 < length table.now }
    requires can { CanShift shifts (length (row_of table.now r.0)) (count_at table.now r.0) }
    requires order { run.start ≤ run.end }
    requires times { run.end ≤ length (row_of table.now r.0) }
    requires few { length (row_of table.now r.0) ≤ 64 }
    ensures { (i : ℕ) → i < 64 → has_bit result i ≡ (if in_run run.start run.end i
        then nat_lt 0 (after_both shifts (count_at table.now r.0) i) else has_bit bits i) }
{
    let mut word = bits;
    for t in run.start..run.end {
        word = with_bit(word, t, is_busy_after(table, r, shifts, t));
    }
    word
}

/// The busy times of a resource after effects, of at most 64. It takes time in proportion to how many times are lost and
/// gained.
pub(crate) fn word_after(table: &CellTable, r: ResourceId, shifts: Shifts) -> u64
    requires resource { r.0 < length table.now }
    requires can { CanShift shifts (length (row_of table.now r.0)) (count_at table.now r.0) }
    requires times { 0 < length (row_of table.now r.0) }
    requires few { length (row_of table.now r.0) ≤ 64 }
    ensures { (i : ℕ) → i < 64 → has_bit result i ≡ nat_lt 0 (after_both shifts (count_at table.now r.0) i) }
{
    let busy = table.word(r);
    let one = with_run(table, r, shifts, shifts.first.emptied, busy);
    let two = with_run(table, r, shifts, shifts.first.filled, one);
    let three = with_run(table, r, shifts, shifts.second.emptied, two);
    with_run(table, r, shifts, shifts.second.filled, three)
}
