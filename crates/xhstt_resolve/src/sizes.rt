//! How many tasks an instance has, and how long its events are.

ghost use Rattle.std.specs.Prelude.{◌≡◌, ◌≤◌, ◌^◌, ◌*◌, length, map, find, nat_lt};
ghost use Rattle.khe_base.specs.declared.limits.TheConstants.{EVENTS, LISTED};
ghost use Rattle.xhstt_resolve.specs.Limits.{total_duration, task_count, listed_groups};
ghost use Rattle.xhstt_resolve.specs.Parts.{places_of};
ghost use Rattle.xhstt_resolve.specs.Tables.{IsLookup};

use crate::tables::Lookup;
use khe_base::limits;
use xhstt_shape::{RawEvent, RawInstance, RawRule};

/// The durations of all events together, in time in proportion to the events.
pub(crate) fn total_duration(instance: &RawInstance) -> u64
    requires { length instance.now.events ≤ EVENTS }
    ensures { result ≡ total_duration instance.now }
{
    let mut total = 0u64;
    for event in instance.events.as_slice() {
        total += u64::from(event.duration);
    }
    total
}

/// How many tasks there are: for each event its duration times its places. It takes time in
/// proportion to the events and their references to groups, on average.
pub(crate) fn task_count(lookup: &Lookup<'_>) -> u128
    requires { IsLookup lookup.now }
    ensures { result ≡ task_count lookup.now.instance.now }
{
    let mut total = 0u128;
    for event in lookup.instance.events.as_slice() {
        total += tasks_of(lookup, event);
    }
    total
}

/// How many tasks an event has.
fn tasks_of(lookup: &Lookup<'_>, event: &RawEvent) -> u128
    requires { IsLookup lookup.now }
    ensures count { result ≡ event.now.duration * length (places_of lookup.now.instance.now event.now) }
    ensures bounded { result ≤ 2 ^ 112 }
{
    u128::from(event.duration) * place_count(lookup, event)
}

/// How many places an event has.
fn place_count(lookup: &Lookup<'_>, event: &RawEvent) -> u128
    requires { IsLookup lookup.now }
    ensures count { result ≡ length (places_of lookup.now.instance.now event.now) }
    ensures bounded { result ≤ 2 ^ 80 }
{
    let mut count = event.resources.len() as u128;
    for group in event.resource_groups.as_slice() {
        count += lookup.tables.resources.members(&group.id).len() as u128;
    }
    count
}

/// The first number of listed time groups above the greatest, in the order of the constraints.
pub(crate) fn listed_above(instance: &RawInstance) -> Option<usize>
    ensures { result ≡ find (nat_lt LISTED) (map (λ c. listed_groups c.rule) instance.now.constraints) }
{
    for constraint in instance.constraints.as_slice() {
        let listed = listed_groups(&constraint.rule);
        if listed > limits::LISTED as usize {
            return Some(listed);
        }
    }
    None
}

/// How many time groups a rule lists.
fn listed_groups(rule: &RawRule) -> usize
    ensures { result ≡ listed_groups rule.now }
{
    match rule {
        RawRule::PreferTimes { time_groups, .. } => time_groups.len(),
        RawRule::SpreadEvents { time_groups } => time_groups.len(),
        RawRule::AvoidUnavailableTimes { time_groups, .. } => time_groups.len(),
        RawRule::LimitIdleTimes { time_groups, .. } => time_groups.len(),
        RawRule::ClusterBusyTimes { time_groups, .. } => time_groups.len(),
        RawRule::LimitBusyTimes { time_groups, .. } => time_groups.len(),
        RawRule::AssignTime
        | RawRule::AssignResource { .. }
        | RawRule::SplitEvents { .. }
        | RawRule::DistributeSplitEvents { .. }
        | RawRule::PreferResources { .. }
        | RawRule::AvoidSplitAssignments { .. }
        | RawRule::LinkEvents
        | RawRule::OrderEvents
        | RawRule::AvoidClashes
        | RawRule::LimitWorkload { .. } => 0,
    }
}
