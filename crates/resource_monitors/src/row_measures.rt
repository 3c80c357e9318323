//! What is counted in a row of at most 64 busy times: busy and idle times, by sets of times.

ghost use Rattle.std.specs.Prelude.{◌≡◌, ◌<◌, ◌≤◌, ◌^◌, ◌∷◌, [], nat_lt, length, All};
ghost use Rattle.std.specs.List.{count_by, sum_by};
ghost use Rattle.khe_base.specs.Bits.{is_set};
ghost use Rattle.khe_base.specs.Bounds.{count_outside};
ghost use Rattle.khe_base.specs.Busy.{busy_times, idle_times};
ghost use Rattle.khe_base.specs.declared.limits.TheConstants.{LISTED};
ghost use Rattle.khe_instance.specs.ResourceDeviation.{used_outside};

use crate::measures::set_outside;
use khe_base::count_out;
use timetables::Mask;

/// The busy times of a set.
#[inline(always)]
fn busy_in(mask: &Mask, word: u64) -> u32
    requires some { 0 < length mask.now }
    requires few { length mask.now ≤ 64 }
    ensures { result ≡ busy_times (is_set (word ∷ [])) mask.now }
{
    mask.common(&[word])
}

/// The idle times of a set.
#[inline(always)]
fn idle_in(mask: &Mask, word: u64) -> u32
    requires some { 0 < length mask.now }
    requires few { length mask.now ≤ 64 }
    ensures value { result ≡ idle_times (is_set (word ∷ [])) mask.now }
    ensures small { result ≤ length mask.now }
{
    mask.idle(&[word])
}

/// Whether a set has a busy time.
#[inline(always)]
fn meets(mask: &Mask, word: u64) -> bool
    requires some { 0 < length mask.now }
    requires few { length mask.now ≤ 64 }
    ensures { result ≡ nat_lt 0 (busy_times (is_set (word ∷ [])) mask.now) }
{
    mask.meets(&[word])
}

/// The busy times of all sets together.
#[inline(never)]
pub(crate) fn busy_total_of(masks: &[Mask], word: u64, times: u32) -> u64
    requires some { 0 < times }
    requires short { times ≤ 64 }
    requires sizes { All (λ m. length m ≡ times) masks.now }
    requires few { length masks.now ≤ LISTED }
    ensures { result ≡ sum_by (busy_times (is_set (word ∷ []))) masks.now }
{
    let _ = times;
    let mut total = 0;
    for mask in masks {
        total += u64::from(busy_in(mask, word));
    }
    total
}

/// How far the idle times of all sets together lie outside the bounds.
#[inline(never)]
pub(crate) fn idle_outside_of(
    masks: &[Mask],
    word: u64,
    times: u32,
    least: u32,
    greatest: u32,
) -> u64
    requires some { 0 < times }
    requires short { times ≤ 64 }
    requires sizes { All (λ m. length m ≡ times) masks.now }
    requires few { length masks.now ≤ LISTED }
    ensures { result ≡ count_outside (sum_by (idle_times (is_set (word ∷ []))) masks.now) least greatest }
{
    let _ = times;
    let mut total = 0;
    for mask in masks {
        total += u64::from(idle_in(mask, word));
    }
    count_out(total, least, greatest)
}

/// How far the number of sets with a busy time lies outside the bounds.
#[inline(never)]
pub(crate) fn busy_sets_outside_of(
    masks: &[Mask],
    word: u64,
    times: u32,
    least: u32,
    greatest: u32,
) -> u64
    requires some { 0 < times }
    requires short { times ≤ 64 }
    requires sizes { All (λ m. length m ≡ times) masks.now }
    requires few { length masks.now ≤ LISTED }
    ensures { result ≡ count_outside (count_by (λ m. nat_lt 0 (busy_times (is_set (word ∷ [])) m)) masks.now) least greatest }
{
    let _ = times;
    let mut busy_sets = 0;
    for mask in masks {
        if meets(mask, word) {
            busy_sets += 1;
        }
    }
    count_out(busy_sets, least, greatest)
}

/// For each set with a busy time, how far the number of its busy times lies outside the bounds.
#[inline(never)]
pub(crate) fn busy_outside_of(
    masks: &[Mask],
    word: u64,
    times: u32,
    least: u32,
    greatest: u32,
) -> u64
    requires some { 0 < times }
    requires short { times ≤ 64 }
    requires sizes { All (λ m. length m ≡ times) masks.now }
    requires few { length masks.now ≤ LISTED }
    ensures { result ≡ sum_by (λ m. used_outside (busy_times (is_set (word ∷ [])) m) least greatest) masks.now }
{
    let _ = times;
    let mut total = 0;
    for mask in masks {
        total += set_outside(busy_in(mask, word), least, greatest);
    }
    total
}
