//! The names of times, resources and events, each numbered in the order of the text.

ghost use Rattle.std.specs.Prelude.{◌≡◌, ◌++◌, [], map, IfOk, OnOk};
ghost use Rattle.xhstt_references.specs.First.{first_of};
ghost use Rattle.xhstt_references.specs.Ids as ids;
ghost use Rattle.xhstt_references.specs.References as spec;

use crate::first::First;
use crate::names::Names;
use crate::repeats::{courses_of, days_of, names_of, weeks_of};
use khe_base::{NoMemory, both};
use std::alloc::Global;
use xhstt_shape::RawInstance;

/// The names of an instance's times and their groups.
#[derive(Drop)]
pub(crate) struct TimeNames {
    pub(crate) groups: Names,
    pub(crate) weeks: Names,
    pub(crate) days: Names,
    pub(crate) times: Names,
}

/// The names of an instance's resources, their types and their groups.
#[derive(Drop)]
pub(crate) struct ResourceNames {
    pub(crate) types: Names,
    pub(crate) groups: Names,
    pub(crate) resources: Names,
}

/// The names of an instance's events and their groups.
#[derive(Drop)]
pub(crate) struct EventNames {
    pub(crate) groups: Names,
    pub(crate) courses: Names,
    pub(crate) events: Names,
}

/// The names of times and their groups; the places of Ids that are repeated are noted.
pub(crate) fn time_names(
    alloc: Global,
    instance: &RawInstance,
    first: &mut First,
) -> Result<TimeNames, NoMemory>
    ensures groups { IfOk result (λ n. spec.repeated (map (λ g. g.id) instance.now.time_groups) ≡ [] → n.groups ≡ ids.time_group_ids instance.now) }
    ensures weeks { IfOk result (λ n. spec.repeated (map (λ g. g.id) instance.now.time_groups) ≡ [] → n.weeks ≡ ids.week_ids instance.now) }
    ensures days { IfOk result (λ n. spec.repeated (map (λ g. g.id) instance.now.time_groups) ≡ [] → n.days ≡ ids.day_ids instance.now) }
    ensures times { IfOk result (λ n. spec.repeated (map (λ t. t.id) instance.now.times) ≡ [] → n.times ≡ ids.time_ids instance.now) }
    ensures first { OnOk result (first.new.at ≡ first_of (first_of first.old.at (spec.repeated (map (λ g. g.id) instance.now.time_groups))) (spec.repeated (map (λ t. t.id) instance.now.times))) }
{
    let groups = instance.time_groups.as_slice();
    let names = both(names_of(alloc, groups, first), weeks_of(alloc, groups));
    let others = both(
        days_of(alloc, groups),
        names_of(alloc, instance.times.as_slice(), first),
    );
    let ((groups, weeks), (days, times)) = both(names, others)?;
    Ok(TimeNames {
        groups,
        weeks,
        days,
        times,
    })
}

/// The names of resources, their types and their groups; the places of Ids that are repeated are
/// noted.
pub(crate) fn resource_names(
    alloc: Global,
    instance: &RawInstance,
    first: &mut First,
) -> Result<ResourceNames, NoMemory>
    ensures types { IfOk result (λ n. spec.repeated (map (λ t. t.id) instance.now.resource_types) ≡ [] → n.types ≡ ids.resource_type_ids instance.now) }
    ensures groups { IfOk result (λ n. spec.repeated (map (λ g. g.id) instance.now.resource_groups) ≡ [] → n.groups ≡ ids.resource_group_ids instance.now) }
    ensures resources { IfOk result (λ n. spec.repeated (map (λ r. r.id) instance.now.resources) ≡ [] → n.resources ≡ ids.resource_ids instance.now) }
    ensures first { OnOk result (first.new.at ≡ first_of (first_of (first_of first.old.at (spec.repeated (map (λ t. t.id) instance.now.resource_types))) (spec.repeated (map (λ g. g.id) instance.now.resource_groups))) (spec.repeated (map (λ r. r.id) instance.now.resources))) }
{
    let types = names_of(alloc, instance.resource_types.as_slice(), first);
    let groups = names_of(alloc, instance.resource_groups.as_slice(), first);
    let resources = names_of(alloc, instance.resources.as_slice(), first);
    let (types, (groups, resources)) = both(types, both(groups, resources))?;
    Ok(ResourceNames {
        types,
        groups,
        resources,
    })
}

/// The names of events and their groups; the places of Ids that are repeated are noted.
pub(crate) fn event_names(
    alloc: Global,
    instance: &RawInstance,
    first: &mut First,
) -> Result<EventNames, NoMemory>
    ensures groups { IfOk result (λ n. spec.repeated (map (λ g. g.id) instance.now.event_groups) ≡ [] → n.groups ≡ ids.event_group_ids instance.now) }
    ensures courses { IfOk result (λ n. spec.repeated (map (λ g. g.id) instance.now.event_groups) ≡ [] → n.courses ≡ ids.course_ids instance.now) }
    ensures events { IfOk result (λ n. spec.repeated (map (λ e. e.id) instance.now.events) ≡ [] → n.events ≡ ids.event_ids instance.now) }
    ensures first { OnOk result (first.new.at ≡ first_of (first_of first.old.at (spec.repeated (map (λ g. g.id) instance.now.event_groups))) (spec.repeated (map (λ e. e.id) instance.now.events))) }
{
    let groups = instance.event_groups.as_slice();
    let names = both(names_of(alloc, groups, first), courses_of(alloc, groups));
    let events = names_of(alloc, instance.events.as_slice(), first);
    let ((groups, courses), events) = both(names, events)?;
    Ok(EventNames {
        groups,
        courses,
        events,
    })
}
