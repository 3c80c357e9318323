//! How much a constraint watches at a point.

ghost use Rattle.std.specs.Prelude.{◌≡◌, ◌≤◌, ◌^◌, ◌∷◌, [], length};
ghost use Rattle.std.specs.List.{sum_by};
ghost use Rattle.khe_base.specs.declared.limits.TheConstants.{TIMES};
ghost use Rattle.xhstt_references.specs.Ids.{time_ids};
ghost use Rattle.xhstt_resolve.specs.Limits.{group_size, named_in, watched_times};
ghost use Rattle.xhstt_resolve.specs.Members.{numbers_of, events_in, times_in, listed_times};
ghost use Rattle.xhstt_resolve.specs.Rules.{event_named, pair_of};
ghost use Rattle.xhstt_resolve.specs.Tables.{IsLookup};

use crate::tables::Lookup;
use xhstt_shape::{EventGroup, RawPair, RawRule, Ref};

/// How many events the group with a number has, and none where no group has it.
pub(crate) fn group_size(lookup: &Lookup<'_>, number: u32) -> u128
    requires { IsLookup lookup.now }
    ensures { result ≡ group_size lookup.now.instance.now number }
{
    match lookup.instance.event_groups.as_slice().get(number as usize) {
        Some(group) => events_in(lookup, group),
        None => 0,
    }
}

/// How many events a group has.
fn events_in(lookup: &Lookup<'_>, group: &EventGroup) -> u128
    requires { IsLookup lookup.now }
    ensures { result ≡ length (events_in lookup.now.instance.now group.now.id.text) }
{
    lookup.tables.events.members(&group.id.text).len() as u128
}

/// How many events a pair names.
pub(crate) fn pair_size(lookup: &Lookup<'_>, pair: &RawPair) -> u128
    requires { IsLookup lookup.now }
    ensures { result ≡ named_in (pair_of lookup.now.instance.now pair.now) }
{
    if event_number(lookup, &pair.first) == event_number(lookup, &pair.second) {
        1
    } else {
        2
    }
}

/// The number of the event that is named, and the first one where none is.
fn event_number(lookup: &Lookup<'_>, reference: &Ref) -> u32
    requires { IsLookup lookup.now }
    ensures { result ≡ (event_named lookup.now.instance.now reference.now).0 }
{
    lookup.tables.events.number(reference).unwrap_or(0)
}

/// How many times a rule on resources watches at each of them.
pub(crate) fn watched_times(lookup: &Lookup<'_>, rule: &RawRule) -> u128
    requires { IsLookup lookup.now }
    ensures count { result ≡ watched_times lookup.now.instance.now rule.now }
    ensures small { result ≤ 2 ^ 80 }
{
    match rule {
        RawRule::AvoidClashes => lookup.instance.times.len() as u128,
        RawRule::AvoidUnavailableTimes { time_groups, times } => {
            listed_times(lookup, time_groups.as_slice(), times.as_slice())
        }
        RawRule::LimitIdleTimes { time_groups, .. } => group_times(lookup, time_groups.as_slice()),
        RawRule::ClusterBusyTimes { time_groups, .. } => {
            group_times(lookup, time_groups.as_slice())
        }
        RawRule::LimitBusyTimes { time_groups, .. } => group_times(lookup, time_groups.as_slice()),
        RawRule::AssignTime
        | RawRule::AssignResource { .. }
        | RawRule::SplitEvents { .. }
        | RawRule::DistributeSplitEvents { .. }
        | RawRule::PreferTimes { .. }
        | RawRule::PreferResources { .. }
        | RawRule::AvoidSplitAssignments { .. }
        | RawRule::SpreadEvents { .. }
        | RawRule::LinkEvents
        | RawRule::OrderEvents
        | RawRule::LimitWorkload { .. } => 1,
    }
}

/// How many times are listed, with repeats.
fn listed_times(lookup: &Lookup<'_>, groups: &[Ref], times: &[Ref]) -> u128
    requires { IsLookup lookup.now }
    ensures count { result ≡ length (listed_times lookup.now.instance.now groups.now times.now) }
    ensures small { result ≤ 2 ^ 80 }
{
    group_times(lookup, groups) + named_times(lookup, times)
}

/// How many times some groups have, together.
fn group_times(lookup: &Lookup<'_>, groups: &[Ref]) -> u128
    requires { IsLookup lookup.now }
    ensures count { result ≡ sum_by (λ g. length (times_in lookup.now.instance.now g.id)) groups.now }
    ensures small { result ≤ 2 ^ 76 }
{
    let mut total = 0u128;
    for group in groups {
        total += times_in(lookup, group);
    }
    total
}

/// How many times a group has.
fn times_in(lookup: &Lookup<'_>, group: &Ref) -> u128
    requires { IsLookup lookup.now }
    ensures count { result ≡ length (times_in lookup.now.instance.now group.now.id) }
    ensures small { result ≤ TIMES }
{
    lookup.tables.times.members(&group.id).len() as u128
}

/// How many of some references name a time.
fn named_times(lookup: &Lookup<'_>, references: &[Ref]) -> u128
    requires { IsLookup lookup.now }
    ensures count { result ≡ length (numbers_of (time_ids lookup.now.instance.now) references.now) }
    ensures small { result ≤ 2 ^ 64 }
{
    let mut total = 0u128;
    for reference in references {
        total += named_time(lookup, reference);
    }
    total
}

/// How many times a reference names: one or none.
fn named_time(lookup: &Lookup<'_>, reference: &Ref) -> u128
    requires { IsLookup lookup.now }
    ensures count { result ≡ length (numbers_of (time_ids lookup.now.instance.now) (reference.now ∷ [])) }
    ensures small { result ≤ 1 }
{
    match lookup.tables.times.number(reference) {
        Some(_) => 1,
        None => 0,
    }
}
