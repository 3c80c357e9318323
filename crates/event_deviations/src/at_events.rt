//! Deviations at events and at pairs of events.

ghost use Rattle.std.specs.Prelude.{◌≡◌, ◌+◌, ◌≤◌, ◌<◌, ◌==◌, ◌&&◌, max, min, length, count_by, IfSome, All, Some};
ghost use Rattle.std.specs.List.{filter_map, sum_by};
ghost use Rattle.std.specs.Option.{option_map, option_map_or};
ghost use Rattle.khe_base.specs.declared.limits.TheConstants.{NUMBER, GREATEST_DEVIATION, TIMES};
ghost use Rattle.khe_instance.specs.Deviation.{event_deviation, pair_deviation};
ghost use Rattle.khe_instance.specs.EventDeviation.{unplaced_duration as unplaced, is_unfit, misplaced_duration as misplaced, starts_outside, allows, order_of};
ghost use Rattle.khe_instance.specs.WellMade.{IsRule, IsPointOf};
ghost use Rattle.khe_instance.specs.declared.points.Point.TheVariants.{EventPair as Pair};
ghost use Rattle.event_deviations.specs.Ends.{greatest_of, least_of};

use crate::index::Index;
use khe_base::{EventId, IdSet, count_out, out};
use khe_instance::{EventPair, Meet, Rule};

/// The deviation of a rule at an event; it takes the time of the event's meets.
pub(crate) fn at_event(index: &Index<'_>, rule: &Rule, event: EventId) -> u64
    requires event { event.0 < length index.now.parts.events }
    requires rule { IsRule index.now.parts rule.now }
    ensures exact { result ≡ event_deviation index.now.meets rule.now event.0 }
    ensures bound { result ≤ GREATEST_DEVIATION }
{
    let meets = index.meets(event);
    match rule {
        Rule::AssignTime => unplaced_duration(meets),
        Rule::SplitEvents {
            min_duration,
            max_duration,
            min_amount,
            max_amount,
        } => {
            count_unfit(meets, *min_duration, *max_duration)
                + count_out(amount(meets), *min_amount, *max_amount)
        }
        Rule::DistributeSplitEvents { duration, min, max } => {
            count_out(count_of(meets, *duration), *min, *max)
        }
        Rule::PreferTimes { times, duration } => misplaced_duration(meets, times, *duration),
        _ => 0,
    }
}

/// The deviation of a rule at a pair of its list; it takes the time of the meets of both events.
pub(crate) fn at_pair(index: &Index<'_>, rule: &Rule, pair: u32) -> u64
    requires rule { IsRule index.now.parts rule.now }
    requires pair { IsPointOf index.now.parts rule.now (Pair pair) }
    ensures exact { result ≡ pair_deviation index.now.meets rule.now pair }
    ensures bound { result ≤ GREATEST_DEVIATION }
{
    match rule {
        Rule::OrderEvents { pairs } => {
            let pair = pairs.as_slice()[pair as usize];
            order(index.meets(pair.first), index.meets(pair.second), pair)
        }
        _ => 0,
    }
}

/// The duration of the meets without a start.
fn unplaced_duration(meets: &[Meet]) -> u64
    requires { sum_by (λ m. m.duration) meets.now ≤ NUMBER }
    ensures exact { result ≡ sum_by (λ m. unplaced m.start m.duration) meets.now }
    ensures bound { result ≤ NUMBER }
{
    let mut total = 0;
    for meet in meets {
        if meet.start.is_none() {
            total += u64::from(meet.duration);
        }
    }
    total
}

/// How many meets are shorter or longer than they may be.
fn count_unfit(meets: &[Meet], least: u32, greatest: u32) -> u64
    ensures exact { result ≡ count_by (λ m. is_unfit least greatest m.duration) meets.now }
    ensures bound { result ≤ length meets.now }
{
    let unfit = meets
        .iter()
        .filter(|m| m.duration < least || m.duration > greatest);
    unfit.count() as u64
}

/// How many meets there are.
#[tactic(auto, using(crate::proofs::EventLemmas::sum_of_ones))]
fn amount(meets: &[Meet]) -> u64
    ensures exact { result ≡ sum_by (λ m. 1) meets.now }
    ensures bound { result ≤ length meets.now }
{
    meets.len() as u64
}

/// How many meets have the duration.
fn count_of(meets: &[Meet], duration: u32) -> u64
    ensures exact { result ≡ count_by (λ m. m.duration == duration) meets.now }
    ensures bound { result ≤ length meets.now }
{
    meets.iter().filter(|m| m.duration == duration).count() as u64
}

/// The duration of the meets with a start outside the times, or of those alone of one duration.
fn misplaced_duration(meets: &[Meet], times: &IdSet, only: Option<u32>) -> u64
    requires { sum_by (λ m. m.duration) meets.now ≤ NUMBER }
    ensures exact { result ≡ sum_by (λ m. misplaced times.now only m.start m.duration) meets.now }
    ensures bound { result ≤ NUMBER }
{
    let mut total = 0;
    for meet in meets {
        if is_outside(meet, times, only) {
            total += u64::from(meet.duration);
        }
    }
    total
}

/// Whether a meet starts outside the times, and has the duration where one is given.
fn is_outside(meet: &Meet, times: &IdSet, only: Option<u32>) -> bool
    ensures { result ≡ (starts_outside times.now meet.now.start && allows only meet.now.duration) }
{
    let Some(start) = meet.start else {
        return false;
    };
    let counts = match only {
        None => true,
        Some(duration) => meet.duration == duration,
    };
    !times.has(start.0) && counts
}

/// How far the times between the meets of the first event and those of the second lie outside the
/// bounds, where both have a start; the second may start before the first ends.
#[tactic(auto, using(crate::proofs::EventLemmas::outside_small))]
fn order(first: &[Meet], second: &[Meet], pair: EventPair) -> u64
    requires first { All (λ m. IfSome m.start (λ s. s.0 + m.duration ≤ TIMES)) first.now }
    requires second { All (λ m. IfSome m.start (λ s. s.0 + m.duration ≤ TIMES)) second.now }
    requires least { pair.min ≤ NUMBER }
    ensures exact { result ≡ order_of (filter_map (λ m. option_map (λ s. s.0 + m.duration) m.start) first.now) (filter_map (λ m. option_map (λ s. s.0) m.start) second.now) pair.min pair.max }
    ensures bound { result ≤ GREATEST_DEVIATION }
{
    let Some(end) = last_end(first) else {
        return 0;
    };
    let Some(start) = first_start(second) else {
        return 0;
    };
    let times_between = i64::from(start) - i64::from(end);
    out(times_between, i64::from(pair.min), i64::from(pair.max))
}

/// The greater of a number and one that may be missing.
fn greater(first: Option<u32>, second: u32) -> Option<u32>
    ensures { result ≡ Some (option_map_or (λ n. max n second) first second) }
{
    match first {
        None => Some(second),
        Some(n) => Some(n.max(second)),
    }
}

/// The less of a number and one that may be missing.
fn less(first: Option<u32>, second: u32) -> Option<u32>
    ensures { result ≡ Some (option_map_or (λ n. min n second) first second) }
{
    match first {
        None => Some(second),
        Some(n) => Some(n.min(second)),
    }
}

/// The number after the last time of the meets.
fn last_end(meets: &[Meet]) -> Option<u32>
    requires { All (λ m. IfSome m.start (λ s. s.0 + m.duration ≤ TIMES)) meets.now }
    ensures exact { result ≡ greatest_of (filter_map (λ m. option_map (λ s. s.0 + m.duration) m.start) meets.now) }
    ensures bound { IfSome result (λ end. end ≤ TIMES) }
{
    let mut last = None;
    for meet in meets {
        if let Some(start) = meet.start {
            last = greater(last, start.0 + meet.duration);
        }
    }
    last
}

/// The least start of the meets.
fn first_start(meets: &[Meet]) -> Option<u32>
    requires { All (λ m. IfSome m.start (λ s. s.0 + m.duration ≤ TIMES)) meets.now }
    ensures exact { result ≡ least_of (filter_map (λ m. option_map (λ s. s.0) m.start) meets.now) }
    ensures bound { IfSome result (λ start. start ≤ TIMES) }
{
    let mut first = None;
    for meet in meets {
        if let Some(start) = meet.start {
            first = less(first, start.0);
        }
    }
    first
}
