//! The entry of a meet.

ghost use Rattle.std.specs.Prelude.{◌≡◌, ◌++◌, ◌<◌, length, map, All, IfOk, IfSome, OnOk, Some, slice_get};
ghost use Rattle.std.specs.List.{flat_map};
ghost use Rattle.std.specs.Option.{option_map, option_copied};
ghost use Rattle.khe_instance.specs.States.{IsGiven, place_of};
ghost use Rattle.khe_instance.specs.WellMade.{HasType};
ghost use Rattle.xhstt_entries.specs.Spelled.{entry_with, event_id, given_at, given_of, resource_id, role_named, time_id, to};

use khe_base::{EventId, NoMemory, ResourceId, Seq, Text, TimeId};
use khe_instance::{Duty, Instance, Meet, Place};
use std::alloc::Global;
use xhstt_shape::{Name, RawEntry, RawGiven, Ref};

/// A reference to what has this Id.
pub(crate) fn to(alloc: Global, id: &Text) -> Result<Ref, NoMemory>
    ensures { IfOk result (λ r. r ≡ to id.now) }
{
    Ok(Ref {
        id: id.copy(alloc)?,
        at: 0,
    })
}

/// A reference to an event.
fn to_event(alloc: Global, inst: &Instance, event: EventId) -> Result<Ref, NoMemory>
    requires { event.0 < length inst.now.events }
    ensures { IfOk result (λ r. r ≡ to (event_id inst.now event)) }
{
    to(alloc, &inst.event(event).id)
}

/// A reference to a time, where there is one.
fn to_time(alloc: Global, inst: &Instance, time: Option<TimeId>) -> Result<Option<Ref>, NoMemory>
    requires { IfSome time (λ t. t.0 < length inst.now.times) }
    ensures { IfOk result (λ r. r ≡ option_map (λ t. to (time_id inst.now t)) time) }
{
    match time {
        Some(time) => Ok(Some(to(alloc, inst.time_id(time))?)),
        None => Ok(None),
    }
}

/// A reference to a resource.
fn to_resource(alloc: Global, inst: &Instance, resource: ResourceId) -> Result<Ref, NoMemory>
    requires { resource.0 < length inst.now.resources }
    ensures { IfOk result (λ r. r ≡ to (resource_id inst.now resource)) }
{
    to(alloc, inst.resource_id(resource))
}

/// A role, where a place has one.
fn role_of(alloc: Global, place: &Place) -> Result<Option<Name>, NoMemory>
    ensures { IfOk result (λ r. r ≡ option_map role_named place.now.role) }
{
    match &place.role {
        Some(role) => Ok(Some(Name {
            text: role.copy(alloc)?,
            at: 0,
        })),
        None => Ok(None),
    }
}

/// A resource with the role that it is given for.
fn given(
    alloc: Global,
    inst: &Instance,
    place: &Place,
    resource: ResourceId,
) -> Result<RawGiven, NoMemory>
    requires { resource.0 < length inst.now.resources }
    ensures { IfOk result (λ g. g ≡ record { reference = to (resource_id inst.now resource); role = option_map role_named place.now.role }) }
{
    Ok(RawGiven {
        reference: to_resource(alloc, inst, resource)?,
        role: role_of(alloc, place)?,
    })
}

/// Adds a resource that is given at its place, unless one is preassigned there.
fn push_at(
    alloc: Global,
    list: &mut Seq<RawGiven>,
    inst: &Instance,
    place: &Place,
    resource: ResourceId,
) -> Result<(), NoMemory>
    requires { resource.0 < length inst.now.resources }
    ensures { OnOk result (list.new ≡ list.old ++ given_at inst.now place.now resource) }
{
    if place.fixed.is_some() {
        return Ok(());
    }
    list.push(given(alloc, inst, place, resource)?)
}

/// The place that a task with its meet fills, if there is one.
fn place_of<'a>(inst: &'a Instance, duty: Duty) -> Option<&'a Place>
    requires { duty.meet.event.0 < length inst.now.events }
    ensures { option_copied result ≡ place_of inst.now duty }
{
    inst.event(duty.meet.event)
        .places
        .as_slice()
        .get(duty.place as usize)
}

/// Adds what a task with its meet gives.
fn push_given(
    alloc: Global,
    list: &mut Seq<RawGiven>,
    inst: &Instance,
    duty: Duty,
) -> Result<(), NoMemory>
    requires event { duty.meet.event.0 < length inst.now.events }
    requires given { IsGiven inst.now duty }
    ensures { OnOk result (list.new ≡ list.old ++ given_of inst.now duty) }
{
    match (place_of(inst, duty), duty.resource) {
        (Some(place), Some(resource)) => push_at(alloc, list, inst, place, resource),
        _ => Ok(()),
    }
}

/// What the tasks of a meet give, in order.
fn givens(alloc: Global, inst: &Instance, duties: &[Duty]) -> Result<Seq<RawGiven>, NoMemory>
    requires events { All (λ d. d.meet.event.0 < length inst.now.events) duties.now }
    requires given { All (IsGiven inst.now) duties.now }
    ensures { IfOk result (λ list. list ≡ flat_map (given_of inst.now) duties.now) }
{
    let mut list = Seq::new(alloc);
    for duty in duties {
        push_given(alloc, &mut list, inst, *duty)?;
    }
    Ok(list)
}

/// The entry of a meet with these duties. It takes time and memory in proportion to them and to their
/// Ids.
pub(crate) fn entry(
    alloc: Global,
    inst: &Instance,
    meet: Meet,
    duties: &[Duty],
) -> Result<RawEntry, NoMemory>
    requires event { meet.event.0 < length inst.now.events }
    requires start { IfSome meet.start (λ t. t.0 < length inst.now.times) }
    requires events { All (λ d. d.meet.event.0 < length inst.now.events) duties.now }
    requires given { All (IsGiven inst.now) duties.now }
    ensures { IfOk result (λ e. e ≡ entry_with inst.now meet duties.now) }
{
    Ok(RawEntry {
        reference: to_event(alloc, inst, meet.event)?,
        duration: Some(meet.duration),
        time: to_time(alloc, inst, meet.start)?,
        resources: givens(alloc, inst, duties)?,
    })
}
