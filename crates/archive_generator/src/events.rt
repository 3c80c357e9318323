//! The events of a job.

ghost use Rattle.std.specs.Prelude.{◌≡◌, IfOk, IsTrue, map};
ghost use Rattle.khe_base.specs.Text.{is_ascii};
ghost use Rattle.archive_generator.specs.Events as spec;

use crate::drawing::DrawnEvent;
use crate::lists::roomy;
use crate::names::{name, numbered_name, to, to_numbered, to_time};
use crate::sizes::{classes, halves};
use khe_base::{NoMemory, Seq, Text, both};
use std::alloc::Global;
use xhstt_shape::{EventGroup, GroupSort, RawEvent, RawEventResource, Ref};

/// The group of all events.
fn all(alloc: Global) -> Result<EventGroup, NoMemory>
    ensures { IfOk result (λ g. g ≡ spec.all) }
{
    Ok(EventGroup {
        sort: GroupSort::Group,
        id: name(alloc, "all")?,
        name: Text::new(alloc),
    })
}

/// A group of two events, or of the last one.
fn half(alloc: Global, number: u32) -> Result<EventGroup, NoMemory>
    ensures { IfOk result (λ g. g ≡ spec.half number) }
{
    Ok(EventGroup {
        sort: GroupSort::Group,
        id: numbered_name(alloc, "h", number)?,
        name: Text::new(alloc),
    })
}

/// The groups of events.
#[tactic(auto, using(crate::proofs::ListLemmas::below_none, crate::proofs::ListLemmas::below_more), unfolding(crate::specs::Events::event_groups))]
pub(crate) fn event_groups(alloc: Global, size: u32) -> Result<Seq<EventGroup>, NoMemory>
    ensures { IfOk result (λ groups. groups ≡ spec.event_groups size) }
{
    let mut groups = roomy(alloc, halves(size) as usize + 1)?;
    groups.push(all(alloc)?)?;
    for number in 0..halves(size) {
        groups.push(half(alloc, number)?)?;
    }
    Ok(groups)
}

/// The place of an event for its class, which is preassigned.
fn class_place(alloc: Global, size: u32, number: u32) -> Result<RawEventResource, NoMemory>
    ensures { IfOk result (λ place. place ≡ spec.class_place size number) }
{
    Ok(RawEventResource {
        reference: Some(to_numbered(alloc, "c", number % classes(size))?),
        role: None,
        resource_type: None,
        workload: None,
    })
}

/// A place of an event for a resource of a type, with a role.
fn open_place(alloc: Global, role: &str, type_id: &str) -> Result<RawEventResource, NoMemory>
    requires role { IsTrue (is_ascii role.now) }
    requires type_id { IsTrue (is_ascii type_id.now) }
    ensures { IfOk result (λ place. place ≡ spec.open_place role.now type_id.now) }
{
    let (role, resource_type) = both(name(alloc, role), to(alloc, type_id))?;
    Ok(RawEventResource {
        reference: None,
        role: Some(role),
        resource_type: Some(resource_type),
        workload: None,
    })
}

/// The places of an event: for a class, a teacher and a room.
#[tactic(auto, unfolding(crate::specs::Events::places))]
fn places(alloc: Global, size: u32, number: u32) -> Result<Seq<RawEventResource>, NoMemory>
    ensures { IfOk result (λ places. places ≡ spec.places size number) }
{
    let mut places = roomy(alloc, 3)?;
    places.push(class_place(alloc, size, number)?)?;
    places.push(open_place(alloc, "T", "Teacher")?)?;
    places.push(open_place(alloc, "R", "Room")?)?;
    Ok(places)
}

/// The groups of an event.
fn groups_of(alloc: Global, number: u32) -> Result<Seq<Ref>, NoMemory>
    ensures { IfOk result (λ groups. groups ≡ spec.groups_of number) }
{
    let mut groups = roomy(alloc, 2)?;
    groups.push(to(alloc, "all")?)?;
    groups.push(to_numbered(alloc, "h", number / 2)?)?;
    Ok(groups)
}

/// An event.
#[tactic(auto, unfolding(crate::specs::Events::event))]
fn event(alloc: Global, size: u32, drawn: DrawnEvent) -> Result<RawEvent, NoMemory>
    ensures { IfOk result (λ e. e ≡ spec.event size drawn) }
{
    let places = places(alloc, size, drawn.number);
    let head = both(
        numbered_name(alloc, "e", drawn.number),
        to_time(alloc, drawn.time),
    );
    let lists = both(places, groups_of(alloc, drawn.number));
    let ((id, time), (resources, event_groups)) = both(head, lists)?;
    Ok(RawEvent {
        id,
        color: None,
        name: Text::new(alloc),
        duration: drawn.duration,
        workload: None,
        course: None,
        time,
        resources,
        resource_groups: Seq::new(alloc),
        event_groups,
    })
}

/// All events.
#[tactic(auto, using(crate::proofs::ListLemmas::one_of))]
pub(crate) fn events(
    alloc: Global,
    size: u32,
    drawn: &[DrawnEvent],
) -> Result<Seq<RawEvent>, NoMemory>
    ensures { IfOk result (λ events. events ≡ map (spec.event size) drawn.now) }
{
    let mut events = roomy(alloc, drawn.len())?;
    for one in drawn {
        events.push(event(alloc, size, *one)?)?;
    }
    Ok(events)
}
