//! How many tasks less and more a resource would have after effects.

ghost use Rattle.std.specs.Prelude.{◌≡◌, ◌<◌, ◌≤◌, ◌^◌, ◌+◌, ◌-◌, ◌*◌, ℕ, if◌then◌else◌, nat_lt, Some, List, length};
ghost use Rattle.std.specs.List.{range_with_len, sum_by};
ghost use Rattle.khe_base.specs.Bits.{has_bit};
ghost use Rattle.khe_base.specs.declared.numbers.TimeId.{TimeId};
ghost use Rattle.khe_told.specs.Effects.{AreTurns, given_with};
ghost use Rattle.khe_told.specs.Turns.{IsTurn};
ghost use Rattle.khe_told.specs.declared.slots.Slot.{Slot};
ghost use Rattle.khe_told.specs.declared.slots.Span.{Span};
ghost use Rattle.timetables.specs.Counts.{count_at, row_of};
ghost use Rattle.resource_monitors.specs.Cells.{given_to, in_run};
ghost use Rattle.resource_monitors.specs.Runs.{run_of};
ghost use Rattle.resource_monitors.specs.Shifts.{AreShifts, CanShift, IsBelow, IsNoShift, IsShift, after_both};
ghost use Rattle.resource_monitors.specs.Shifts.{after_one, gained_at, no_run, times_for};

use crate::given::{given_at, is_of};
use crate::runs::{Run, run_of};
use crate::tables::CellTable;
use khe_base::{ResourceId, TimeId};
use khe_instance::Instance;
use khe_told::{Effect, Effects, Regiven, Span, Told};

/// How many tasks a resource would lose at each time of one run, and gain at each time of another. A run is empty where
/// nothing would be lost or gained.
#[derive(Clone, Copy)]
pub(crate) struct Shift {
    pub(crate) lost: u64,
    pub(crate) emptied: Run,
    pub(crate) gained: u64,
    pub(crate) filled: Run,
}

/// What two effects would take and give, one after the other.
#[derive(Clone, Copy)]
pub(crate) struct Shifts {
    pub(crate) first: Shift,
    pub(crate) second: Shift,
}

/// 1 where it is so, and else 0.
#[inline(always)]
fn one_if(is_so: bool) -> u64
    ensures { result ≡ (if is_so then 1 else 0) }
{
    if is_so { 1 } else { 0 }
}

/// How many places would be given a resource. It takes time in proportion to the places.
#[inline(always)]
fn count_given(given: &[Option<ResourceId>], regiven: Option<Regiven>, r: ResourceId) -> u64
    ensures { result ≡ given_to r.0 (given_with given.now regiven) }
{
    let mut count = 0;
    for place in 0..given.len() {
        count += one_if(is_of(given_at(given, regiven, place), r));
    }
    count
}

/// The times of a meet, or none where it has no start or nothing is at it.
#[inline(always)]
fn times_at(span: Option<Span>, amount: u64) -> Run
    requires { (y : Span) (t : TimeId) → span ≡ Some y → y.start ≡ Some t → t.0 + y.duration < 2 ^ 32 }
    ensures none { amount ≡ 0 → result ≡ no_run }
    ensures some { 0 < amount → result ≡ times_for (run_of span) }
{
    let none = Run { start: 0, end: 0 };
    if amount == 0 {
        return none;
    }
    let Some(run) = run_of(span) else {
        return none;
    };
    run
}

/// What an effect on one slot would take from a resource and give to it. It takes time in proportion to the places.
pub(crate) fn shift_of(inst: &Instance, effect: &Effect<'_>, r: ResourceId) -> Shift
    requires { (s : List Slot) × IsTurn inst.now s effect.now }
    ensures shift { IsShift effect.now r.0 result }
    ensures below { IsBelow result (length inst.now.times) }
{
    inst.facts();
    let before = effect.given_before();
    let (later, regiven) = effect.given_after();
    let lost = count_given(before, None, r);
    let gained = count_given(later, regiven, r);
    let emptied = times_at(effect.before(), lost);
    let filled = times_at(effect.after(), gained);
    Shift {
        lost,
        emptied,
        gained,
        filled,
    }
}

/// No shift.
#[inline(always)]
fn no_shift() -> Shift
    ensures none { IsNoShift result }
    ensures below { (n : ℕ) → IsBelow result n }
{
    let none = Run { start: 0, end: 0 };
    Shift {
        lost: 0,
        emptied: none,
        gained: 0,
        filled: none,
    }
}

/// What effects would take from a resource and give to it. It takes time in proportion to the places of their slots.
pub(crate) fn shifts_of(
    inst: &Instance,
    told: &Told,
    effects: &Effects<'_>,
    r: ResourceId,
) -> Shifts
    requires { AreTurns inst.now told.now effects.now }
    ensures shifts { AreShifts effects.now r.0 result }
    ensures first { IsBelow result.first (length inst.now.times) }
    ensures second { IsBelow result.second (length inst.now.times) }
{
    let _ = told;
    let (first, second) = effects.slots();
    let first = shift_of(inst, first, r);
    let Some(second) = second else {
        return Shifts {
            first,
            second: no_shift(),
        };
    };
    let second = shift_of(inst, second, r);
    Shifts { first, second }
}

/// Whether a time is one of a run.
#[inline(always)]
fn is_in(run: Run, t: u32) -> bool
    ensures { result ≡ in_run run.start run.end t }
{
    run.start <= t && t < run.end
}

/// How many tasks are gained at a time, of this many in a run.
#[inline(always)]
fn amount_at(run: Run, amount: u64, t: u32) -> u64
    ensures { result ≡ (if in_run run.start run.end t then amount else 0) }
{
    if is_in(run, t) { amount } else { 0 }
}

/// A count at a time after an effect.
#[inline(always)]
fn shifted(count: u64, shift: Shift, t: u32) -> u64
    requires { count + gained_at shift t < 2 ^ 32 }
    ensures { result ≡ after_one shift count t }
{
    let gained = amount_at(shift.filled, shift.gained, t);
    let lost = amount_at(shift.emptied, shift.lost, t);
    (count + gained).saturating_sub(lost)
}

/// Whether a resource would be busy at a time.
pub(crate) fn is_busy_after(table: &CellTable, r: ResourceId, shifts: Shifts, t: u32) -> bool
    requires resource { r.0 < length table.now }
    requires time { t < length (row_of table.now r.0) }
    requires can { CanShift shifts (length (row_of table.now r.0)) (count_at table.now r.0) }
    ensures { result ≡ nat_lt 0 (after_both shifts (count_at table.now r.0) t) }
{
    let count = u64::from(table.count(r, TimeId(t)));
    let count = shifted(count, shifts.first, t);
    let count = shifted(count, shifts.second, t);
    count > 0
}

/// How many tasks a run of this many at each time has.
#[inline(always)]
fn total_of(run: Run, amount: u64) -> u64
    requires order { run.start ≤ run.end }
    requires small { amount * (run.end - run.start) < 2 ^ 40 }
    ensures { result ≡ amount * (run.end - run.start) }
{
    amount * u64::from(run.end - run.start)
}

/// For each time, how many tasks of a resource would run then beyond one, by its busy times before and after the
/// effects. It takes constant time.
pub(crate) fn clashes_after(
    table: &CellTable,
    r: ResourceId,
    shifts: Shifts,
    before: u64,
    after: u64,
) -> u64
    requires resource { r.0 < length table.now }
    requires can { CanShift shifts (length (row_of table.now r.0)) (count_at table.now r.0) }
    requires few { length (row_of table.now r.0) ≤ 64 }
    requires before { (i : ℕ) → i < 64 → has_bit before i ≡ nat_lt 0 (count_at table.now r.0 i) }
    requires after { (i : ℕ) → i < 64 → has_bit after i ≡ nat_lt 0 (after_both shifts (count_at table.now r.0) i) }
    ensures { result ≡ sum_by (λ t. after_both shifts (count_at table.now r.0) t - 1)
        (range_with_len 0 (length (row_of table.now r.0))) }
{
    let lost = total_of(shifts.first.emptied, shifts.first.lost);
    let lost_then = total_of(shifts.second.emptied, shifts.second.lost);
    let gained = total_of(shifts.first.filled, shifts.first.gained);
    let gained_then = total_of(shifts.second.filled, shifts.second.gained);
    let busy = before.count_ones();
    let busy_then = after.count_ones();
    let there = table.clashes(r) + u64::from(busy) + gained + gained_then;
    there - u64::from(busy_then) - lost - lost_then
}
