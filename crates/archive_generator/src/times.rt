//! The times of a job.

ghost use Rattle.std.specs.Prelude.{◌≡◌, IfOk};
ghost use Rattle.archive_generator.specs.Times as spec;

use crate::lists::{roomy, to_each, to_one};
use crate::names::{name, numbered_name, to_numbered};
use khe_base::{NoMemory, Seq, Text, both};
use std::alloc::Global;
use xhstt_shape::{Ref, Time, TimeGroup, TimeSort};

/// How many days there are, and how many times, of which eight are in each day.
pub(crate) const DAYS: u32 = 5;

const TIMES: u32 = 40;

const TIMES_OF_A_DAY: u32 = 8;

/// A day.
fn day(alloc: Global, number: u32) -> Result<TimeGroup, NoMemory>
    ensures { IfOk result (λ g. g ≡ spec.day number) }
{
    Ok(TimeGroup {
        sort: TimeSort::Day,
        id: numbered_name(alloc, "d", number)?,
        name: Text::new(alloc),
    })
}

/// The group of the first times of the days.
fn early(alloc: Global) -> Result<TimeGroup, NoMemory>
    ensures { IfOk result (λ g. g ≡ spec.early) }
{
    Ok(TimeGroup {
        sort: TimeSort::Group,
        id: name(alloc, "early")?,
        name: Text::new(alloc),
    })
}

/// The groups that a time is in, besides its day.
fn groups_of(alloc: Global, number: u32) -> Result<Seq<Ref>, NoMemory>
    ensures { IfOk result (λ groups. groups ≡ spec.groups_of number) }
{
    if number % TIMES_OF_A_DAY != 0 {
        return Ok(Seq::new(alloc));
    }
    to_one(alloc, "early")
}

/// A time.
fn time(alloc: Global, number: u32) -> Result<Time, NoMemory>
    ensures { IfOk result (λ t. t ≡ spec.time number) }
{
    let day = to_numbered(alloc, "d", number / TIMES_OF_A_DAY);
    let ((id, day), time_groups) = both(
        both(numbered_name(alloc, "t", number), day),
        groups_of(alloc, number),
    )?;
    Ok(Time {
        id,
        name: Text::new(alloc),
        week: None,
        day: Some(day),
        time_groups,
    })
}

/// The days, and the group of their first times.
#[tactic(auto, using(crate::proofs::ListLemmas::below_none, crate::proofs::ListLemmas::below_more), unfolding(crate::specs::Times::time_groups))]
pub(crate) fn time_groups(alloc: Global) -> Result<Seq<TimeGroup>, NoMemory>
    ensures { IfOk result (λ groups. groups ≡ spec.time_groups) }
{
    let mut groups = roomy(alloc, DAYS as usize + 1)?;
    for number in 0..DAYS {
        groups.push(day(alloc, number)?)?;
    }
    groups.push(early(alloc)?)?;
    Ok(groups)
}

/// The times, in chronological order.
#[tactic(auto, using(crate::proofs::ListLemmas::below_none, crate::proofs::ListLemmas::below_more), unfolding(crate::specs::Times::times))]
pub(crate) fn times(alloc: Global) -> Result<Seq<Time>, NoMemory>
    ensures { IfOk result (λ times. times ≡ spec.times) }
{
    let mut times = roomy(alloc, TIMES as usize)?;
    for number in 0..TIMES {
        times.push(time(alloc, number)?)?;
    }
    Ok(times)
}

/// References to the days.
#[tactic(auto, unfolding(crate::specs::Times::days))]
pub(crate) fn days(alloc: Global) -> Result<Seq<Ref>, NoMemory>
    ensures { IfOk result (λ days. days ≡ spec.days) }
{
    to_each(alloc, "d", DAYS)
}
