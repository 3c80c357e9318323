//! The causes for which an entry is invalid.

ghost use Rattle.std.specs.Prelude.{◌≡◌, ◌<◌, [], length, map, Some, find, IfOk};
ghost use Rattle.std.specs.List.{list_any};
ghost use Rattle.std.specs.Option.{option_copied};
ghost use Rattle.khe_base.specs.Text.{characters};
ghost use Rattle.khe_instance.specs.Lookups.{is_role};
ghost use Rattle.khe_instance.specs.Running.{is_resource};
ghost use Rattle.khe_instance.specs.WellMade.{IsEvent};
ghost use Rattle.xhstt_completion.specs.Causes.{is_too_long, splits_fixed, moves_fixed, ends_late, is_place_for, place_for, came_before, place_cause, given_cause, first_given_cause, cause_in, differ_in_time, differ_in_resource};
ghost use Rattle.xhstt_completion.specs.Entries.{resource_of, role_of, time_of};

use crate::entries::{duration_of, is_given_for, start_of};
use crate::many::first_of_many;
use crate::tables::are_few;
use fault_tables::{
    BAD_ROLE, FIXED_RESOURCE, FIXED_TIME, OFF_END, SPLIT_FIXED, TOO_LONG, WRONG_TYPE,
};
use khe_base::{NoMemory, ResourceId, TimeId};
use khe_instance::{EventInfo, Instance, Place};
use std::alloc::Global;
use xhstt_shape::{EntryView, GivenView};

/// The first cause at an entry of an event, of which earlier entries used a part, by the time and the
/// resources that it names. It takes time in proportion to the resources of the entry and the places
/// of the event, on average, and memory in proportion to the resources, and to both where both are many.
pub(crate) fn cause_in(
    alloc: Global,
    inst: &Instance,
    event: &EventInfo,
    used: u32,
    entry: &EntryView<'_>,
    time: Option<TimeId>,
    resources: &[ResourceId],
) -> Result<Option<u32>, NoMemory>
    requires event { IsEvent inst.now event.now }
    requires time { time_of inst.now entry.now ≡ time }
    requires resources { map (resource_of inst.now) entry.now.resources ≡ map Some resources.now }
    ensures { IfOk result (λ cause. cause ≡ cause_in inst.now event.now used entry.now) }
{
    if is_too_long(event, used, entry) {
        return Ok(Some(TOO_LONG));
    }
    if splits_fixed(event, entry) {
        return Ok(Some(SPLIT_FIXED));
    }
    if differ_in_time(time, event.fixed) {
        return Ok(Some(FIXED_TIME));
    }
    if ends_late(inst, event, entry, time) {
        return Ok(Some(OFF_END));
    }
    let given = entry.resources().listed(alloc)?;
    cause_in_given(alloc, inst, event, given.as_slice(), resources)
}

/// The first cause at the resources that an entry gives, which have these numbers.
fn cause_in_given(
    alloc: Global,
    inst: &Instance,
    event: &EventInfo,
    given: &[GivenView<'_>],
    resources: &[ResourceId],
) -> Result<Option<u32>, NoMemory>
    requires event { IsEvent inst.now event.now }
    requires resources { map (resource_of inst.now) given.now ≡ map Some resources.now }
    ensures { IfOk result (λ cause. cause ≡ first_given_cause inst.now event.now [] given.now) }
{
    if are_few(given.len(), event.places.len()) {
        Ok(first_given_cause(inst, event, given, resources))
    } else {
        first_of_many(alloc, inst, event, given, resources)
    }
}

/// Whether an entry, with those of its event before it, lasts longer than the event.
fn is_too_long(event: &EventInfo, used: u32, entry: &EntryView<'_>) -> bool
    ensures { result ≡ is_too_long event.now used entry.now }
{
    let together = u64::from(used) + u64::from(duration_of(event, entry));
    u64::from(event.duration) < together
}

/// Whether an entry splits an event with a preassigned time.
fn splits_fixed(event: &EventInfo, entry: &EntryView<'_>) -> bool
    ensures { result ≡ splits_fixed event.now entry.now }
{
    event.fixed.is_some() && duration_of(event, entry) < event.duration
}

/// Whether there are two times, and they are not the same.
fn differ_in_time(x: Option<TimeId>, y: Option<TimeId>) -> bool
    ensures { result ≡ differ_in_time x y }
{
    match (x, y) {
        (Some(x), Some(y)) => x.0 != y.0,
        _ => false,
    }
}

/// Whether an entry ends after the last time.
fn ends_late(
    inst: &Instance,
    event: &EventInfo,
    entry: &EntryView<'_>,
    time: Option<TimeId>,
) -> bool
    requires { time_of inst.now entry.now ≡ time }
    ensures { result ≡ ends_late inst.now event.now entry.now }
{
    match start_of(event, time) {
        Some(start) => {
            let end = u64::from(start.0) + u64::from(duration_of(event, entry));
            u64::from(inst.times()) < end
        }
        None => false,
    }
}

/// The first cause at the resources that an entry gives, which have these numbers: each is looked for
/// among all places of the event, and its role among the earlier ones.
fn first_given_cause(
    inst: &Instance,
    event: &EventInfo,
    given: &[GivenView<'_>],
    resources: &[ResourceId],
) -> Option<u32>
    requires { map (resource_of inst.now) given.now ≡ map Some resources.now }
    ensures { result ≡ first_given_cause inst.now event.now [] given.now }
{
    for (number, one) in given.iter().enumerate() {
        let before = &given[..number];
        let resource = resources[number];
        let cause = given_cause(inst, event, before, one, resource);
        if cause.is_some() {
            return cause;
        }
    }
    None
}

/// The cause at a resource that an entry gives after others.
fn given_cause(
    inst: &Instance,
    event: &EventInfo,
    before: &[GivenView<'_>],
    given: &GivenView<'_>,
    resource: ResourceId,
) -> Option<u32>
    requires { resource_of inst.now given.now ≡ Some resource }
    ensures { result ≡ given_cause inst.now event.now before.now given.now }
{
    let Some(place) = place_for(event, resource, given) else {
        return Some(BAD_ROLE);
    };
    if came_before(before, given) {
        return Some(BAD_ROLE);
    }
    place_cause(inst, resource, place)
}

/// The cause at a resource and its place.
pub(crate) fn place_cause(inst: &Instance, resource: ResourceId, place: &Place) -> Option<u32>
    requires { resource.0 < length inst.now.resources }
    ensures { result ≡ place_cause inst.now (Some resource) place.now }
{
    if differ_in_resource(place.fixed, Some(resource)) {
        return Some(FIXED_RESOURCE);
    }
    if inst.type_of(resource) != place.rtype {
        return Some(WRONG_TYPE);
    }
    None
}

/// Whether there are two resources, and they are not the same.
fn differ_in_resource(x: Option<ResourceId>, y: Option<ResourceId>) -> bool
    ensures { result ≡ differ_in_resource x y }
{
    match (x, y) {
        (Some(x), Some(y)) => x.0 != y.0,
        _ => false,
    }
}

/// The place that a resource is given for, if the event has it.
fn place_for<'a>(
    event: &'a EventInfo,
    resource: ResourceId,
    given: &GivenView<'_>,
) -> Option<&'a Place>
    ensures { option_copied result ≡ find (is_place_for (Some resource) (role_of given.now)) event.now.places }
{
    let places = event.places.as_slice();
    for place in places {
        if is_place_for(resource, given, place) {
            return Some(place);
        }
    }
    None
}

/// Whether a resource is given for this place.
fn is_place_for(resource: ResourceId, given: &GivenView<'_>, place: &Place) -> bool
    ensures { result ≡ is_place_for (Some resource) (role_of given.now) place.now }
{
    match given.role() {
        Some(name) => has_role(place, name.text),
        None => place.role.is_none() && has_resource(place, resource),
    }
}

/// Whether a place has this role.
fn has_role(place: &Place, role: &str) -> bool
    ensures { result ≡ is_role (characters role.now) place.now.role }
{
    match &place.role {
        Some(own) => own.is_spelled(role),
        None => false,
    }
}

/// Whether a place has this preassigned resource.
fn has_resource(place: &Place, resource: ResourceId) -> bool
    ensures { result ≡ is_resource resource.0 place.now.fixed }
{
    match place.fixed {
        Some(fixed) => fixed.0 == resource.0,
        None => false,
    }
}

/// Whether the role of a resource came before in its entry.
fn came_before(before: &[GivenView<'_>], given: &GivenView<'_>) -> bool
    ensures { result ≡ came_before before.now given.now }
{
    match given.role() {
        Some(name) => is_any_given_for(before, name.text),
        None => false,
    }
}

/// Whether one of some resources is given for this role.
fn is_any_given_for(given: &[GivenView<'_>], role: &str) -> bool
    ensures { result ≡ list_any (λ other. is_role (characters role.now) (role_of other)) given.now }
{
    for other in given {
        if is_given_for(other, role) {
            return true;
        }
    }
    false
}
