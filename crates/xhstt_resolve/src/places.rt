//! The places of an event, its own and those of its groups.

ghost use Rattle.std.specs.Prelude.{◌≡◌, ◌++◌, map, IfOk, OnOk};
ghost use Rattle.std.specs.List.{flat_map};
ghost use Rattle.xhstt_resolve.specs.Parts.{place_type, fixed_resource, role_text, workload_of, place_of, member_place, group_places, places_of};
ghost use Rattle.xhstt_resolve.specs.Tables.{IsLookup};

use crate::resources::{type_at, type_named, type_of_resource};
use crate::tables::Lookup;
use khe_base::{NoMemory, ResourceId, Seq, Text};
use khe_instance::Place;
use std::alloc::Global;
use xhstt_shape::{Name, RawEvent, RawEventResource, Ref};

/// The places of an event: the listed event resources, and then one for each member of each of its
/// groups. It takes time and memory in proportion to them and their roles, on average.
pub(crate) fn places_of(
    alloc: Global,
    lookup: &Lookup<'_>,
    event: &RawEvent,
) -> Result<Seq<Place>, NoMemory>
    requires { IsLookup lookup.now }
    ensures { IfOk result (λ ps. ps ≡ places_of lookup.now.instance.now event.now) }
{
    let mut places = Seq::new(alloc);
    push_listed(alloc, lookup, event, &mut places)?;
    push_groups(lookup, event, &mut places)?;
    Ok(places)
}

/// Adds the places of the listed event resources.
fn push_listed(
    alloc: Global,
    lookup: &Lookup<'_>,
    event: &RawEvent,
    places: &mut Seq<Place>,
) -> Result<(), NoMemory>
    requires { IsLookup lookup.now }
    ensures { OnOk result (places.new ≡ places.old ++ map (place_of lookup.now.instance.now event.now) event.now.resources) }
{
    for resource in event.resources.as_slice() {
        places.push(place_of(alloc, lookup, event, resource)?)?;
    }
    Ok(())
}

/// Adds the places of the members of groups, group by group.
fn push_groups(
    lookup: &Lookup<'_>,
    event: &RawEvent,
    places: &mut Seq<Place>,
) -> Result<(), NoMemory>
    requires { IsLookup lookup.now }
    ensures { OnOk result (places.new ≡ places.old ++ flat_map (group_places lookup.now.instance.now event.now) event.now.resource_groups) }
{
    for group in event.resource_groups.as_slice() {
        let members = lookup.tables.resources.members(&group.id);
        push_members(lookup, event, members, places)?;
    }
    Ok(())
}

/// Adds the places of members.
fn push_members(
    lookup: &Lookup<'_>,
    event: &RawEvent,
    members: &[u32],
    places: &mut Seq<Place>,
) -> Result<(), NoMemory>
    requires { IsLookup lookup.now }
    ensures { OnOk result (places.new ≡ places.old ++ map (member_place lookup.now.instance.now event.now) members.now) }
{
    for member in members {
        places.push(member_place(lookup, event, *member))?;
    }
    Ok(())
}

/// The place of a listed event resource.
fn place_of(
    alloc: Global,
    lookup: &Lookup<'_>,
    event: &RawEvent,
    resource: &RawEventResource,
) -> Result<Place, NoMemory>
    requires { IsLookup lookup.now }
    ensures { IfOk result (λ p. p ≡ place_of lookup.now.instance.now event.now resource.now) }
{
    let role = role_text(alloc, &resource.role)?;
    let rtype = place_type(lookup, &resource.reference, &resource.resource_type);
    let fixed = fixed_resource(lookup, &resource.reference);
    let workload = resource.workload.unwrap_or(workload_of(event));
    Ok(Place {
        role,
        rtype,
        fixed,
        workload,
    })
}

/// The place of a resource that takes part as a member of a group.
fn member_place(lookup: &Lookup<'_>, event: &RawEvent, member: u32) -> Place
    requires { IsLookup lookup.now }
    ensures { result ≡ member_place lookup.now.instance.now event.now member }
{
    Place {
        role: None,
        rtype: type_at(lookup, member),
        fixed: Some(ResourceId(member)),
        workload: workload_of(event),
    }
}

/// What an event is worth to a resource where its place says nothing else.
fn workload_of(event: &RawEvent) -> u32
    ensures { result ≡ workload_of event.now }
{
    event.workload.unwrap_or(event.duration)
}

/// A copy of a role.
fn role_text(alloc: Global, role: &Option<Name>) -> Result<Option<Text>, NoMemory>
    ensures { IfOk result (λ t. t ≡ role_text role.now) }
{
    match role {
        Some(name) => Ok(Some(name.text.copy(alloc)?)),
        None => Ok(None),
    }
}

/// The type of a place: that of the preassigned resource, or else the one that is asked for.
fn place_type(lookup: &Lookup<'_>, resource: &Option<Ref>, wanted: &Option<Ref>) -> u32
    requires { IsLookup lookup.now }
    ensures { result ≡ place_type lookup.now.instance.now resource.now wanted.now }
{
    match resource {
        Some(reference) => type_of_resource(lookup, reference),
        None => match wanted {
            Some(reference) => type_named(lookup, reference),
            None => 0,
        },
    }
}

/// The preassigned resource of a place.
fn fixed_resource(lookup: &Lookup<'_>, resource: &Option<Ref>) -> Option<ResourceId>
    requires { IsLookup lookup.now }
    ensures { result ≡ fixed_resource lookup.now.instance.now resource.now }
{
    match resource {
        Some(reference) => match lookup.tables.resources.number(reference) {
            Some(number) => Some(ResourceId(number)),
            None => None,
        },
        None => None,
    }
}
