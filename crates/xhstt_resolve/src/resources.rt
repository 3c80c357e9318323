//! Resources with their types.

ghost use Rattle.std.specs.Prelude.{◌≡◌, ◌<◌, ◌^◌, length, map, unwrap_or, IfOk};
ghost use Rattle.khe_base.specs.Names.{number_of};
ghost use Rattle.xhstt_resolve.specs.Parts.{type_named, type_at, type_of_resource, resource_of, group_of};
ghost use Rattle.xhstt_resolve.specs.Members.{set_of};
ghost use Rattle.xhstt_resolve.specs.Tables.{IsLookup, IsTable, members_at};

use crate::tables::{Lookup, Table};
use khe_base::{ListedSet, NoMemory, Seq, Text};
use khe_instance::{GroupInfo, ResourceInfo};
use std::alloc::Global;
use xhstt_references::Names;
use xhstt_shape::{RawResource, Ref};

/// The numbers of the types of resources, 0 where no type is named. It takes time in proportion to
/// the references to types, on average, and memory in proportion to the resources.
pub(crate) fn types_of(
    alloc: Global,
    resources: &[RawResource],
    types: &Names,
) -> Result<Seq<u32>, NoMemory>
    requires { length types.now < 2 ^ 32 }
    ensures { IfOk result (λ ts. ts ≡ map (λ r. unwrap_or (number_of r.resource_type.id types.now) 0) resources.now) }
{
    let mut numbers = Seq::new(alloc);
    for resource in resources {
        numbers.push(type_number(types, &resource.resource_type))?;
    }
    Ok(numbers)
}

/// The number of the type that is named, and 0 where none is, in the time of a hash of the Id.
fn type_number(types: &Names, reference: &Ref) -> u32
    requires { length types.now < 2 ^ 32 }
    ensures { result ≡ unwrap_or (number_of reference.now.id types.now) 0 }
{
    match types.number(&reference.id) {
        Some(number) => number as u32,
        None => 0,
    }
}

/// The number of the resource type that is named, and 0 where none is, in the time of a hash of the
/// Id.
pub(crate) fn type_named(lookup: &Lookup<'_>, reference: &Ref) -> u32
    requires { IsLookup lookup.now }
    ensures { result ≡ type_named lookup.now.instance.now reference.now }
{
    type_number(&lookup.names.resource_types, reference)
}

/// The type of the resource with a number, in constant time.
pub(crate) fn type_at(lookup: &Lookup<'_>, number: u32) -> u32
    requires { IsLookup lookup.now }
    ensures { result ≡ type_at lookup.now.instance.now number }
{
    match lookup.types.as_slice().get(number as usize) {
        Some(rtype) => *rtype,
        None => 0,
    }
}

/// The type of the resource that is named, in the time of a hash of the Id.
pub(crate) fn type_of_resource(lookup: &Lookup<'_>, reference: &Ref) -> u32
    requires { IsLookup lookup.now }
    ensures { result ≡ type_of_resource lookup.now.instance.now reference.now }
{
    match lookup.tables.resources.number(reference) {
        Some(number) => type_at(lookup, number),
        None => 0,
    }
}

/// The resources with their types. It takes time and memory in proportion to their Ids, on average.
pub(crate) fn resources_of(
    alloc: Global,
    lookup: &Lookup<'_>,
) -> Result<Seq<ResourceInfo>, NoMemory>
    requires { IsLookup lookup.now }
    ensures { IfOk result (λ rs. rs ≡ map (resource_of lookup.now.instance.now) lookup.now.instance.now.resources) }
{
    let mut resources = Seq::new(alloc);
    for resource in lookup.instance.resources.as_slice() {
        let id = resource.id.text.copy(alloc)?;
        let rtype = type_named(lookup, &resource.resource_type);
        resources.push(ResourceInfo { id, rtype })?;
    }
    Ok(resources)
}

/// The event groups with their events. It takes time and memory in proportion to their Ids and members,
/// and time in proportion to a 64th of the events for each group.
pub(crate) fn groups_of(alloc: Global, lookup: &Lookup<'_>) -> Result<Seq<GroupInfo>, NoMemory>
    requires { IsLookup lookup.now }
    ensures { IfOk result (λ gs. gs ≡ map (group_of lookup.now.instance.now) lookup.now.instance.now.event_groups) }
{
    let mut groups = Seq::new(alloc);
    for group in lookup.instance.event_groups.as_slice() {
        let id = group.id.text.copy(alloc)?;
        let events = group_events(alloc, &lookup.tables.events, &group.id.text)?;
        groups.push(GroupInfo { id, events })?;
    }
    Ok(groups)
}

/// The set of the events of the group with an Id, as an instance keeps it.
fn group_events(alloc: Global, events: &Table<'_>, group: &Text) -> Result<ListedSet, NoMemory>
    requires { IsTable events.now }
    ensures { IfOk result (λ s. s ≡ set_of (length events.now.names.now) (members_at events.now group.now)) }
{
    let set = events.group_set(alloc, group)?;
    ListedSet::new(alloc, set)
}
