//! Building constraints from elements.

ghost use Rattle.std.specs.Prelude.{◌≡◌, IfOk};
ghost use Rattle.std.specs.List.{filter_map};
ghost use Rattle.xhstt_shape.specs.Values as spec;
ghost use Rattle.xhstt_shape.specs.declared.words.Tag.TheVariants as tag;

use crate::building::{Build, count, every, every_inside, with_room};
use crate::constraints::{RawApplies, RawConstraint, RawPair, RawRule, RawSpread};
use crate::finding::child;
use crate::leaves::{
    cost_function, duration, id, lower, name, optional_duration, required, the_reference, the_role,
    upper,
};
use crate::records::Ref;
use crate::words::{Tag, kind_word};
use khe_base::{NoMemory, Seq, both};
use khe_instance::Kind;
use std::alloc::Global;
use xhstt_text::Element;

impl Build for RawPair {
    ghost value = { spec.pair };

    #[tactic(auto, unfolding(crate::specs::Values::pair))]
    fn build(alloc: Global, element: &Element<'_, '_>) -> Result<RawPair, NoMemory> {
        Ok(RawPair {
            first: the_reference(alloc, Tag::FirstEvent, element)?,
            second: the_reference(alloc, Tag::SecondEvent, element)?,
            min: lower(alloc, Tag::MinSeparation, element)?,
            max: upper(alloc, Tag::MaxSeparation, element)?,
        })
    }
}

impl Build for RawSpread {
    ghost value = { spec.spread };

    #[tactic(auto, unfolding(crate::specs::Values::spread))]
    fn build(alloc: Global, element: &Element<'_, '_>) -> Result<RawSpread, NoMemory> {
        Ok(RawSpread {
            reference: Build::build(alloc, element)?,
            min: lower(alloc, Tag::Minimum, element)?,
            max: upper(alloc, Tag::Maximum, element)?,
        })
    }
}

/// The constraints of an instance, in the order of the text. A child whose name no kind has is none:
/// in an archive without a fault there is no such child. It takes time and memory linear in the
/// element.
#[tactic(auto, unfolding(crate::specs::Values::every))]
pub(crate) fn constraints(
    alloc: Global,
    instance: &Element<'_, '_>,
) -> Result<Seq<RawConstraint>, NoMemory>
    ensures { IfOk result (λ list. list ≡ filter_map spec.constraint (spec.every tag.Constraints instance.now)) }
{
    match child(Tag::Constraints, instance) {
        Some(found) => constraints_among(alloc, &found),
        None => Ok(Seq::new(alloc)),
    }
}

/// The constraints among the children of an element, in a list with room for a constraint for each
/// child.
fn constraints_among(
    alloc: Global,
    element: &Element<'_, '_>,
) -> Result<Seq<RawConstraint>, NoMemory>
    ensures { IfOk result (λ list. list ≡ filter_map spec.constraint (spec.elements element.now.kids)) }
{
    let mut list = with_room(alloc, count(element))?;
    let mut rest = element.children();
    while let Some(next) = rest.next() {
        if let Some(made) = constraint(alloc, &next)? {
            list.push(made)?;
        }
    }
    Ok(list)
}

/// The constraint of an element, where a kind has its name.
#[tactic(auto, unfolding(crate::specs::Values::constraint))]
fn constraint(alloc: Global, element: &Element<'_, '_>) -> Result<Option<RawConstraint>, NoMemory>
    ensures { IfOk result (λ c. c ≡ spec.constraint element.now) }
{
    match kind_of(element.name()) {
        Some(kind) => Ok(Some(constraint_of(alloc, kind, element)?)),
        None => Ok(None),
    }
}

/// The kinds in the order of the table.
const KINDS: [Kind; 16] = [
    Kind::AssignTime,
    Kind::AssignResource,
    Kind::SplitEvents,
    Kind::DistributeSplitEvents,
    Kind::PreferTimes,
    Kind::PreferResources,
    Kind::AvoidSplitAssignments,
    Kind::SpreadEvents,
    Kind::LinkEvents,
    Kind::OrderEvents,
    Kind::AvoidClashes,
    Kind::AvoidUnavailableTimes,
    Kind::LimitIdleTimes,
    Kind::ClusterBusyTimes,
    Kind::LimitBusyTimes,
    Kind::LimitWorkload,
];

/// The kind of a constraint, by its element's name; another name has none.
fn kind_of(name: &[u8]) -> Option<Kind>
    ensures { result ≡ spec.kind_of name.now }
{
    kind_among(&KINDS, name)
}

/// The kind among these whose constraint has this name.
fn kind_among(kinds: &[Kind], name: &[u8]) -> Option<Kind>
    ensures { result ≡ spec.kind_among kinds.now name.now }
{
    for kind in kinds {
        if kind_word(*kind) == name {
            return Some(*kind);
        }
    }
    None
}

/// A constraint of a kind.
#[tactic(auto, unfolding(crate::specs::Values::constraint_of))]
fn constraint_of(
    alloc: Global,
    kind: Kind,
    element: &Element<'_, '_>,
) -> Result<RawConstraint, NoMemory>
    ensures { IfOk result (λ c. c ≡ spec.constraint_of kind element.now) }
{
    let required = required(alloc, element)?;
    let weight = lower(alloc, Tag::Weight, element)?;
    let cost = cost_function(alloc, element)?;
    let ((id, name), (applies, rule)) = both(
        both(id(alloc, element), name(alloc, element)),
        both(applies(alloc, kind, element), rule(alloc, kind, element)),
    )?;
    Ok(RawConstraint {
        id,
        name,
        required,
        weight,
        cost,
        applies,
        rule,
    })
}

/// The references of a list of what a constraint applies to.
fn applied(alloc: Global, tag: Tag, element: &Element<'_, '_>) -> Result<Seq<Ref>, NoMemory>
    ensures { IfOk result (λ list. list ≡ spec.applied_references tag element.now) }
{
    every_inside(alloc, Tag::AppliesTo, tag, element)
}

/// The references of a list of a constraint.
fn references(alloc: Global, tag: Tag, element: &Element<'_, '_>) -> Result<Seq<Ref>, NoMemory>
    ensures { IfOk result (λ list. list ≡ spec.references tag element.now) }
{
    every(alloc, tag, element)
}

/// Events that a constraint applies to.
fn events_applied(alloc: Global, element: &Element<'_, '_>) -> Result<RawApplies, NoMemory>
    ensures { IfOk result (λ a. a ≡ spec.events_applied element.now) }
{
    Ok(RawApplies::Events {
        event_groups: applied(alloc, Tag::EventGroups, element)?,
        events: applied(alloc, Tag::Events, element)?,
    })
}

/// Event groups that a constraint applies to.
fn groups_applied(alloc: Global, element: &Element<'_, '_>) -> Result<RawApplies, NoMemory>
    ensures { IfOk result (λ a. a ≡ spec.groups_applied element.now) }
{
    Ok(RawApplies::Groups {
        event_groups: applied(alloc, Tag::EventGroups, element)?,
    })
}

/// Pairs of events that a constraint applies to.
fn pairs_applied(alloc: Global, element: &Element<'_, '_>) -> Result<RawApplies, NoMemory>
    ensures { IfOk result (λ a. a ≡ spec.pairs_applied element.now) }
{
    Ok(RawApplies::Pairs {
        pairs: every_inside(alloc, Tag::AppliesTo, Tag::EventPairs, element)?,
    })
}

/// Resources that a constraint applies to.
fn resources_applied(alloc: Global, element: &Element<'_, '_>) -> Result<RawApplies, NoMemory>
    ensures { IfOk result (λ a. a ≡ spec.resources_applied element.now) }
{
    Ok(RawApplies::Resources {
        resource_groups: applied(alloc, Tag::ResourceGroups, element)?,
        resources: applied(alloc, Tag::Resources, element)?,
    })
}

/// What a constraint of a kind applies to.
#[tactic(auto, unfolding(crate::specs::Values::applies))]
fn applies(alloc: Global, kind: Kind, element: &Element<'_, '_>) -> Result<RawApplies, NoMemory>
    ensures { IfOk result (λ a. a ≡ spec.applies kind element.now) }
{
    match kind {
        Kind::AssignTime
        | Kind::AssignResource
        | Kind::SplitEvents
        | Kind::DistributeSplitEvents
        | Kind::PreferTimes
        | Kind::PreferResources => events_applied(alloc, element),
        Kind::AvoidSplitAssignments | Kind::SpreadEvents | Kind::LinkEvents => {
            groups_applied(alloc, element)
        }
        Kind::OrderEvents => pairs_applied(alloc, element),
        Kind::AvoidClashes
        | Kind::AvoidUnavailableTimes
        | Kind::LimitIdleTimes
        | Kind::ClusterBusyTimes
        | Kind::LimitBusyTimes
        | Kind::LimitWorkload => resources_applied(alloc, element),
    }
}

/// The least and the greatest number that a constraint asks for.
fn bounds(alloc: Global, element: &Element<'_, '_>) -> Result<(u32, u32), NoMemory>
    ensures { IfOk result (λ b. (b.0 ≡ spec.lower tag.Minimum element.now) × (b.1 ≡ spec.upper tag.Maximum element.now)) }
{
    let min = lower(alloc, Tag::Minimum, element)?;
    Ok((min, upper(alloc, Tag::Maximum, element)?))
}

/// The references of two lists of a constraint.
fn both_lists(
    alloc: Global,
    first: Tag,
    second: Tag,
    element: &Element<'_, '_>,
) -> Result<(Seq<Ref>, Seq<Ref>), NoMemory>
    ensures { IfOk result (λ b. (b.0 ≡ spec.references first element.now) × (b.1 ≡ spec.references second element.now)) }
{
    let list = references(alloc, first, element)?;
    Ok((list, references(alloc, second, element)?))
}

/// What a constraint of a kind asks for.
#[tactic(auto, unfolding(crate::specs::Values::rule))]
fn rule(alloc: Global, kind: Kind, element: &Element<'_, '_>) -> Result<RawRule, NoMemory>
    ensures { IfOk result (λ r. r ≡ spec.rule kind element.now) }
{
    match kind {
        Kind::AssignTime => Ok(RawRule::AssignTime),
        Kind::AssignResource => Ok(RawRule::AssignResource {
            role: the_role(alloc, element)?,
        }),
        Kind::SplitEvents => Ok(RawRule::SplitEvents {
            min_duration: lower(alloc, Tag::MinimumDuration, element)?,
            max_duration: upper(alloc, Tag::MaximumDuration, element)?,
            min_amount: lower(alloc, Tag::MinimumAmount, element)?,
            max_amount: upper(alloc, Tag::MaximumAmount, element)?,
        }),
        Kind::DistributeSplitEvents => {
            let (min, max) = bounds(alloc, element)?;
            let duration = duration(alloc, element)?;
            Ok(RawRule::DistributeSplitEvents { duration, min, max })
        }
        Kind::PreferTimes => {
            let duration = optional_duration(alloc, element)?;
            let (time_groups, times) = both_lists(alloc, Tag::TimeGroups, Tag::Times, element)?;
            Ok(RawRule::PreferTimes {
                time_groups,
                times,
                duration,
            })
        }
        Kind::PreferResources => {
            let role = the_role(alloc, element)?;
            let (resource_groups, resources) = both_lists(
                alloc,
                Tag::ResourceGroups,
                Tag::Resources,
                element,
            )?;
            Ok(RawRule::PreferResources {
                resource_groups,
                resources,
                role,
            })
        }
        Kind::AvoidSplitAssignments => Ok(RawRule::AvoidSplitAssignments {
            role: the_role(alloc, element)?,
        }),
        Kind::SpreadEvents => Ok(RawRule::SpreadEvents {
            time_groups: every(alloc, Tag::TimeGroups, element)?,
        }),
        Kind::LinkEvents => Ok(RawRule::LinkEvents),
        Kind::OrderEvents => Ok(RawRule::OrderEvents),
        Kind::AvoidClashes => Ok(RawRule::AvoidClashes),
        Kind::AvoidUnavailableTimes => {
            let (time_groups, times) = both_lists(alloc, Tag::TimeGroups, Tag::Times, element)?;
            Ok(RawRule::AvoidUnavailableTimes { time_groups, times })
        }
        Kind::LimitIdleTimes => {
            let (min, max) = bounds(alloc, element)?;
            let time_groups = references(alloc, Tag::TimeGroups, element)?;
            Ok(RawRule::LimitIdleTimes {
                time_groups,
                min,
                max,
            })
        }
        Kind::ClusterBusyTimes => {
            let (min, max) = bounds(alloc, element)?;
            let time_groups = references(alloc, Tag::TimeGroups, element)?;
            Ok(RawRule::ClusterBusyTimes {
                time_groups,
                min,
                max,
            })
        }
        Kind::LimitBusyTimes => {
            let (min, max) = bounds(alloc, element)?;
            let time_groups = references(alloc, Tag::TimeGroups, element)?;
            Ok(RawRule::LimitBusyTimes {
                time_groups,
                min,
                max,
            })
        }
        Kind::LimitWorkload => {
            let (min, max) = bounds(alloc, element)?;
            Ok(RawRule::LimitWorkload { min, max })
        }
    }
}
