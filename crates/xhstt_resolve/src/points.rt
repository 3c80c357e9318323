//! The points of a constraint, each at its first mention.

ghost use Rattle.std.specs.Prelude.{◌≡◌, ◌≤◌, ◌^◌, map, length, IfOk, OnOk};
ghost use Rattle.std.specs.List.{fold, flat_map};
ghost use Rattle.std.specs.List.Sorted.{IsNonDecreasingBy};
ghost use Rattle.std.specs.Option.{option_copied};
ghost use Rattle.khe_base.specs.declared.limits.TheConstants.{RESOURCES};
ghost use Rattle.xhstt_references.specs.Ids.{event_group_ids};
ghost use Rattle.xhstt_resolve.specs.Followed.{followed, event_visit, role_visits, event_visits, visit_of, visits_at, group_visit, pair_visits, resource_visit};
ghost use Rattle.xhstt_resolve.specs.Limits.{watches_of};
ghost use Rattle.xhstt_resolve.specs.Members.{first_mentions, numbers_of, listed_events, listed_resources};
ghost use Rattle.xhstt_resolve.specs.Points.{role_of, points_of};
ghost use Rattle.xhstt_resolve.specs.Roles.{AreRolesOf, places_with};
ghost use Rattle.xhstt_resolve.specs.Tables.{IsLookup, HasFewPlaces};

use crate::roles::{RolePlace, Roles, places_at};
use crate::tables::{Lookup, first_named};
use crate::watching::{group_size, pair_size, watched_times};
use khe_base::{EventId, NoMemory, ResourceId, Seq, Text};
use khe_instance::Point;
use std::alloc::Global;
use xhstt_shape::{RawApplies, RawConstraint, RawPair, RawRule, Ref};

/// A point of a constraint, with how much is watched there.
#[derive(Clone, Copy)]
pub(crate) struct Visit {
    pub point: Point,
    pub watches: u128,
}

/// What meets the points of constraints, one after another.
pub(crate) trait Follow {
    ghost use Rattle.xhstt_resolve.specs.declared.points.Visit.{Visit};

    ghost met: { Self → Visit → Self };

    /// Meets one more point, in constant time on average.
    fn meet(&mut self, visit: Visit) -> Result<(), NoMemory>
        ensures { OnOk result (self.new ≡ met self.old visit) };
}

/// Follows a constraint out: its points are met in their order, each at its first mention, with how
/// much each watches.
///
/// It takes time in proportion to what the constraint applies to and the times that it lists, with their groups
/// expanded, and to all items of the sort that it applies to, on average. Of each event the place with a role
/// is found in time in proportion to the logarithm of how many event resources have it, and where none has it,
/// no event is looked at. It takes memory in proportion to those items, besides what meeting takes. Where
/// memory is refused some points may have been met. More than 2 ^ 32 pairs are refused alike, since no point
/// has such a number.
pub(crate) fn follow_out<F: Follow>(
    alloc: Global,
    lookup: &Lookup<'_>,
    roles: &Roles,
    constraint: &RawConstraint,
    into: &mut F,
) -> Result<(), NoMemory>
    requires lookup { IsLookup lookup.now }
    requires places { HasFewPlaces lookup.now.instance.now }
    requires roles { AreRolesOf lookup.now.instance.now roles.now }
    ensures met { OnOk result (into.new ≡ fold F.met into.old (followed lookup.now.instance.now constraint.now)) }
    ensures few { OnOk result (length (points_of lookup.now.instance.now constraint.now) ≤ 2 ^ 64) }
    ensures small { OnOk result (watches_of lookup.now.instance.now constraint.now ≤ 2 ^ 112) }
{
    match &constraint.applies {
        RawApplies::Events {
            event_groups,
            events,
        } => {
            let role = role_of(&constraint.rule);
            follow_events(
                alloc,
                lookup,
                roles,
                role,
                event_groups.as_slice(),
                events.as_slice(),
                into,
            )
        }
        RawApplies::Groups { event_groups } => {
            let groups = groups_of(alloc, lookup, event_groups.as_slice())?;
            follow_groups(lookup, groups.as_slice(), into)
        }
        RawApplies::Pairs { pairs } => follow_pairs(lookup, pairs.as_slice(), into),
        RawApplies::Resources {
            resource_groups,
            resources,
        } => {
            let resources = resources_of(
                alloc,
                lookup,
                resource_groups.as_slice(),
                resources.as_slice(),
            )?;
            let watches = watched_times(lookup, &constraint.rule);
            follow_resources(resources.as_slice(), watches, into)
        }
    }
}

/// The events that are listed, each at its first mention.
fn events_of(
    alloc: Global,
    lookup: &Lookup<'_>,
    groups: &[Ref],
    events: &[Ref],
) -> Result<Seq<u32>, NoMemory>
    requires { IsLookup lookup.now }
    ensures { IfOk result (λ ns. ns ≡ first_mentions (listed_events lookup.now.instance.now groups.now events.now)) }
{
    lookup.tables.events.first_mentions(alloc, groups, events)
}

/// The resources that are listed, each at its first mention.
fn resources_of(
    alloc: Global,
    lookup: &Lookup<'_>,
    groups: &[Ref],
    resources: &[Ref],
) -> Result<Seq<u32>, NoMemory>
    requires { IsLookup lookup.now }
    ensures numbers { IfOk result (λ ns. ns ≡ first_mentions (listed_resources lookup.now.instance.now groups.now resources.now)) }
    ensures few { IfOk result (λ ns. length ns ≤ RESOURCES) }
{
    lookup
        .tables
        .resources
        .first_mentions(alloc, groups, resources)
}

/// The event groups that are listed, each at its first mention.
fn groups_of(alloc: Global, lookup: &Lookup<'_>, groups: &[Ref]) -> Result<Seq<u32>, NoMemory>
    requires { IsLookup lookup.now }
    ensures { IfOk result (λ ns. ns ≡ first_mentions (numbers_of (event_group_ids lookup.now.instance.now) groups.now)) }
{
    first_named(alloc, &lookup.names.event_groups, groups)
}

/// The role of a constraint whose points are the event resources of one role.
fn role_of(rule: &RawRule) -> Option<&Text>
    ensures { option_copied result ≡ role_of rule.now }
{
    match rule {
        RawRule::AssignResource { role } => Some(&role.text),
        RawRule::PreferResources { role, .. } => Some(&role.text),
        RawRule::AssignTime
        | RawRule::SplitEvents { .. }
        | RawRule::DistributeSplitEvents { .. }
        | RawRule::PreferTimes { .. }
        | RawRule::AvoidSplitAssignments { .. }
        | RawRule::SpreadEvents { .. }
        | RawRule::LinkEvents
        | RawRule::OrderEvents
        | RawRule::AvoidClashes
        | RawRule::AvoidUnavailableTimes { .. }
        | RawRule::LimitIdleTimes { .. }
        | RawRule::ClusterBusyTimes { .. }
        | RawRule::LimitBusyTimes { .. }
        | RawRule::LimitWorkload { .. } => None,
    }
}

/// Meets the events that are listed, each at its first mention: themselves, or their event resources
/// of a role.
fn follow_events<F: Follow>(
    alloc: Global,
    lookup: &Lookup<'_>,
    roles: &Roles,
    role: Option<&Text>,
    groups: &[Ref],
    events: &[Ref],
    into: &mut F,
) -> Result<(), NoMemory>
    requires lookup { IsLookup lookup.now }
    requires roles { AreRolesOf lookup.now.instance.now roles.now }
    ensures { OnOk result (into.new ≡ fold F.met into.old (event_visits lookup.now.instance.now (option_copied role.entry) (first_mentions (listed_events lookup.now.instance.now groups.now events.now)))) }
{
    match role {
        Some(role) => {
            let places = roles.with_role(role);
            follow_role(alloc, lookup, role, places, groups, events, into)
        }
        None => follow_listed(alloc, lookup, groups, events, into),
    }
}

/// Meets the events that are listed by themselves.
fn follow_listed<F: Follow>(
    alloc: Global,
    lookup: &Lookup<'_>,
    groups: &[Ref],
    events: &[Ref],
    into: &mut F,
) -> Result<(), NoMemory>
    requires { IsLookup lookup.now }
    ensures { OnOk result (into.new ≡ fold F.met into.old (map event_visit (first_mentions (listed_events lookup.now.instance.now groups.now events.now)))) }
{
    let events = events_of(alloc, lookup, groups, events)?;
    follow_singly(events.as_slice(), into)
}

/// Meets events by themselves.
fn follow_singly<F: Follow>(events: &[u32], into: &mut F) -> Result<(), NoMemory>
    ensures { OnOk result (into.new ≡ fold F.met into.old (map event_visit events.now)) }
{
    for event in events {
        into.meet(Visit {
            point: Point::Event(EventId(*event)),
            watches: 1,
        })?;
    }
    Ok(())
}

/// Meets the event resources of a role of the events that are listed. Where no event resource has the
/// role, no event is looked at.
fn follow_role<F: Follow>(
    alloc: Global,
    lookup: &Lookup<'_>,
    role: &Text,
    places: &[RolePlace],
    groups: &[Ref],
    events: &[Ref],
    into: &mut F,
) -> Result<(), NoMemory>
    requires lookup { IsLookup lookup.now }
    requires places { places.now ≡ places_with lookup.now.instance.now role.now }
    ensures { OnOk result (into.new ≡ fold F.met into.old (flat_map (role_visits lookup.now.instance.now role.now) (first_mentions (listed_events lookup.now.instance.now groups.now events.now)))) }
{
    if places.is_empty() {
        return Ok(());
    }
    let events = events_of(alloc, lookup, groups, events)?;
    follow_places(places, events.as_slice(), into)
}

/// Meets those of some event resources that are of one of the events, event by event.
fn follow_places<F: Follow>(
    places: &[RolePlace],
    events: &[u32],
    into: &mut F,
) -> Result<(), NoMemory>
    requires { IsNonDecreasingBy (λ (p : RolePlace). p.event) places.now }
    ensures { OnOk result (into.new ≡ fold F.met into.old (flat_map (visits_at places.now) events.now)) }
{
    for event in events {
        meet_all(places_at(places, *event), into)?;
    }
    Ok(())
}

/// Meets event resources.
fn meet_all<F: Follow>(places: &[RolePlace], into: &mut F) -> Result<(), NoMemory>
    ensures { OnOk result (into.new ≡ fold F.met into.old (map visit_of places.now)) }
{
    for place in places {
        into.meet(Visit {
            point: Point::EventResource {
                event: EventId(place.event),
                place: place.place,
            },
            watches: 1,
        })?;
    }
    Ok(())
}

/// Meets event groups.
fn follow_groups<F: Follow>(
    lookup: &Lookup<'_>,
    groups: &[u32],
    into: &mut F,
) -> Result<(), NoMemory>
    requires { IsLookup lookup.now }
    ensures { OnOk result (into.new ≡ fold F.met into.old (map (group_visit lookup.now.instance.now) groups.now)) }
{
    for group in groups {
        into.meet(Visit {
            point: Point::EventGroup(*group),
            watches: group_size(lookup, *group),
        })?;
    }
    Ok(())
}

/// Meets pairs, or refuses more than there are numbers for.
fn follow_pairs<F: Follow>(
    lookup: &Lookup<'_>,
    pairs: &[RawPair],
    into: &mut F,
) -> Result<(), NoMemory>
    requires { IsLookup lookup.now }
    ensures { OnOk result (into.new ≡ fold F.met into.old (pair_visits lookup.now.instance.now pairs.now)) }
{
    for (number, pair) in pairs.iter().enumerate() {
        let number = pair_number(number)?;
        into.meet(Visit {
            point: Point::EventPair(number),
            watches: pair_size(lookup, pair),
        })?;
    }
    Ok(())
}

/// The number of a pair as a point has it.
fn pair_number(number: usize) -> Result<u32, NoMemory>
    ensures { IfOk result (λ n. n ≡ number) }
{
    if number > u32::MAX as usize {
        return Err(NoMemory);
    }
    Ok(number as u32)
}

/// Meets resources at each of which as much is watched.
fn follow_resources<F: Follow>(
    resources: &[u32],
    watches: u128,
    into: &mut F,
) -> Result<(), NoMemory>
    ensures { OnOk result (into.new ≡ fold F.met into.old (map (resource_visit watches) resources.now)) }
{
    for resource in resources {
        into.meet(Visit {
            point: Point::Resource(ResourceId(*resource)),
            watches,
        })?;
    }
    Ok(())
}
