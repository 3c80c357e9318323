//! Constraints with their rules: names have become numbers and sets.

ghost use Rattle.std.specs.Prelude.{◌≡◌, map, IfOk};
ghost use Rattle.xhstt_resolve.specs.Members.{listed_times, listed_resources, time_set, resource_set};
ghost use Rattle.xhstt_resolve.specs.Parts.{constraint_of};
ghost use Rattle.xhstt_resolve.specs.Rules.{group_set, group_sets, spread_of, event_named, pair_of, pairs_of, rule_of};
ghost use Rattle.xhstt_resolve.specs.Tables.{IsLookup};

use crate::tables::Lookup;
use khe_base::{EventId, IdSet, NoMemory, Seq, both};
use khe_instance::{Constraint, EventPair, Rule, Spread};
use std::alloc::Global;
use xhstt_shape::{RawApplies, RawConstraint, RawPair, RawRule, RawSpread, Ref};

/// The constraints with their rules. It takes time in proportion to what they list, on average, and
/// for each set that it makes to a 64th of the times or resources, which is what it takes in memory,
/// and to the members of the groups in the set, each group once. A time group that is to have a set
/// of its own gets one at each mention, so there its members count each time.
pub(crate) fn constraints_of(
    alloc: Global,
    lookup: &Lookup<'_>,
) -> Result<Seq<Constraint>, NoMemory>
    requires { IsLookup lookup.now }
    ensures { IfOk result (λ cs. cs ≡ map (constraint_of lookup.now.instance.now) lookup.now.instance.now.constraints) }
{
    let mut constraints = Seq::new(alloc);
    for constraint in lookup.instance.constraints.as_slice() {
        constraints.push(constraint_of(alloc, lookup, constraint)?)?;
    }
    Ok(constraints)
}

/// A constraint with its rule.
fn constraint_of(
    alloc: Global,
    lookup: &Lookup<'_>,
    constraint: &RawConstraint,
) -> Result<Constraint, NoMemory>
    requires { IsLookup lookup.now }
    ensures { IfOk result (λ c. c ≡ constraint_of lookup.now.instance.now constraint.now) }
{
    let id = constraint.id.text.copy(alloc)?;
    let rule = rule_of(alloc, lookup, &constraint.applies, &constraint.rule)?;
    Ok(Constraint {
        id,
        required: constraint.required,
        weight: constraint.weight,
        cost: constraint.cost,
        rule,
    })
}

/// What a constraint asks for, a row for each kind.
fn rule_of(
    alloc: Global,
    lookup: &Lookup<'_>,
    applies: &RawApplies,
    rule: &RawRule,
) -> Result<Rule, NoMemory>
    requires { IsLookup lookup.now }
    ensures { IfOk result (λ r. r ≡ rule_of lookup.now.instance.now applies.now rule.now) }
{
    Ok(match rule {
        RawRule::AssignTime => Rule::AssignTime,
        RawRule::AssignResource { role } => Rule::AssignResource {
            role: role.text.copy(alloc)?,
        },
        RawRule::SplitEvents {
            min_duration,
            max_duration,
            min_amount,
            max_amount,
        } => Rule::SplitEvents {
            min_duration: *min_duration,
            max_duration: *max_duration,
            min_amount: *min_amount,
            max_amount: *max_amount,
        },
        RawRule::DistributeSplitEvents { duration, min, max } => Rule::DistributeSplitEvents {
            duration: *duration,
            min: *min,
            max: *max,
        },
        RawRule::PreferTimes {
            time_groups,
            times,
            duration,
        } => Rule::PreferTimes {
            times: time_set(alloc, lookup, time_groups.as_slice(), times.as_slice())?,
            duration: *duration,
        },
        RawRule::PreferResources {
            resource_groups,
            resources,
            role,
        } => {
            let resources = resource_set(
                alloc,
                lookup,
                resource_groups.as_slice(),
                resources.as_slice(),
            );
            let (resources, role) = both(resources, role.text.copy(alloc))?;
            Rule::PreferResources { resources, role }
        }
        RawRule::AvoidSplitAssignments { role } => Rule::AvoidSplitAssignments {
            role: role.text.copy(alloc)?,
        },
        RawRule::SpreadEvents { time_groups } => Rule::SpreadEvents {
            groups: spreads_of(alloc, lookup, time_groups.as_slice())?,
        },
        RawRule::LinkEvents => Rule::LinkEvents,
        RawRule::OrderEvents => Rule::OrderEvents {
            pairs: pairs_of(alloc, lookup, applies)?,
        },
        RawRule::AvoidClashes => Rule::AvoidClashes,
        RawRule::AvoidUnavailableTimes { time_groups, times } => Rule::AvoidUnavailableTimes {
            times: time_set(alloc, lookup, time_groups.as_slice(), times.as_slice())?,
        },
        RawRule::LimitIdleTimes {
            time_groups,
            min,
            max,
        } => Rule::LimitIdleTimes {
            groups: group_sets(alloc, lookup, time_groups.as_slice())?,
            min: *min,
            max: *max,
        },
        RawRule::ClusterBusyTimes {
            time_groups,
            min,
            max,
        } => Rule::ClusterBusyTimes {
            groups: group_sets(alloc, lookup, time_groups.as_slice())?,
            min: *min,
            max: *max,
        },
        RawRule::LimitBusyTimes {
            time_groups,
            min,
            max,
        } => Rule::LimitBusyTimes {
            groups: group_sets(alloc, lookup, time_groups.as_slice())?,
            min: *min,
            max: *max,
        },
        RawRule::LimitWorkload { min, max } => Rule::LimitWorkload {
            min: *min,
            max: *max,
        },
    })
}

/// The set of the times that are listed.
fn time_set(
    alloc: Global,
    lookup: &Lookup<'_>,
    groups: &[Ref],
    times: &[Ref],
) -> Result<IdSet, NoMemory>
    requires { IsLookup lookup.now }
    ensures { IfOk result (λ s. s ≡ time_set lookup.now.instance.now (listed_times lookup.now.instance.now groups.now times.now)) }
{
    lookup.tables.times.set(alloc, groups, times)
}

/// The set of the resources that are listed.
fn resource_set(
    alloc: Global,
    lookup: &Lookup<'_>,
    groups: &[Ref],
    resources: &[Ref],
) -> Result<IdSet, NoMemory>
    requires { IsLookup lookup.now }
    ensures { IfOk result (λ s. s ≡ resource_set lookup.now.instance.now (listed_resources lookup.now.instance.now groups.now resources.now)) }
{
    lookup.tables.resources.set(alloc, groups, resources)
}

/// The set of the times of a group.
fn group_set(alloc: Global, lookup: &Lookup<'_>, group: &Ref) -> Result<IdSet, NoMemory>
    requires { IsLookup lookup.now }
    ensures { IfOk result (λ s. s ≡ group_set lookup.now.instance.now group.now) }
{
    lookup.tables.times.group_set(alloc, &group.id)
}

/// The sets of the times of groups.
fn group_sets(alloc: Global, lookup: &Lookup<'_>, groups: &[Ref]) -> Result<Seq<IdSet>, NoMemory>
    requires { IsLookup lookup.now }
    ensures { IfOk result (λ ss. ss ≡ group_sets lookup.now.instance.now groups.now) }
{
    let mut sets = Seq::new(alloc);
    for group in groups {
        sets.push(group_set(alloc, lookup, group)?)?;
    }
    Ok(sets)
}

/// Time groups with their bounds.
fn spreads_of(
    alloc: Global,
    lookup: &Lookup<'_>,
    spreads: &[RawSpread],
) -> Result<Seq<Spread>, NoMemory>
    requires { IsLookup lookup.now }
    ensures { IfOk result (λ ss. ss ≡ map (spread_of lookup.now.instance.now) spreads.now) }
{
    let mut made = Seq::new(alloc);
    for spread in spreads {
        made.push(Spread {
            group: group_set(alloc, lookup, &spread.reference)?,
            min: spread.min,
            max: spread.max,
        })?;
    }
    Ok(made)
}

/// The pairs of events that a constraint applies to.
fn pairs_of(
    alloc: Global,
    lookup: &Lookup<'_>,
    applies: &RawApplies,
) -> Result<Seq<EventPair>, NoMemory>
    requires { IsLookup lookup.now }
    ensures { IfOk result (λ ps. ps ≡ pairs_of lookup.now.instance.now applies.now) }
{
    match applies {
        RawApplies::Pairs { pairs } => listed_pairs(alloc, lookup, pairs.as_slice()),
        RawApplies::Events { .. } | RawApplies::Groups { .. } | RawApplies::Resources { .. } => {
            Ok(Seq::new(alloc))
        }
    }
}

/// Pairs of events.
fn listed_pairs(
    alloc: Global,
    lookup: &Lookup<'_>,
    pairs: &[RawPair],
) -> Result<Seq<EventPair>, NoMemory>
    requires { IsLookup lookup.now }
    ensures { IfOk result (λ ps. ps ≡ map (pair_of lookup.now.instance.now) pairs.now) }
{
    let mut made = Seq::new(alloc);
    for pair in pairs {
        made.push(pair_of(lookup, pair))?;
    }
    Ok(made)
}

/// A pair of events.
fn pair_of(lookup: &Lookup<'_>, pair: &RawPair) -> EventPair
    requires { IsLookup lookup.now }
    ensures { result ≡ pair_of lookup.now.instance.now pair.now }
{
    EventPair {
        first: event_named(lookup, &pair.first),
        second: event_named(lookup, &pair.second),
        min: pair.min,
        max: pair.max,
    }
}

/// The event that is named, and the first one where none is.
fn event_named(lookup: &Lookup<'_>, reference: &Ref) -> EventId
    requires { IsLookup lookup.now }
    ensures { result ≡ event_named lookup.now.instance.now reference.now }
{
    match lookup.tables.events.number(reference) {
        Some(number) => EventId(number),
        None => EventId(0),
    }
}
