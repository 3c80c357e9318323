//! What an edit reads of the told state and of the instance.

ghost use Rattle.std.specs.Prelude.{◌≡◌, ◌<◌, true, false, nat_lt, length, MatchOption, Option};
ghost use Rattle.khe_told.specs.Slots.{slot_at, length_of, is_live, start_of};
ghost use Rattle.khe_instance.specs.Lookups.{place_at};
ghost use Rattle.khe_solution.specs.Reading.{Shows, ShowsPlace, has_place, resource_at, is_fixed_event, is_fixed_place, has_type, may_have, runs_over, would_run_over, is_time, same_time, is_resource, same_resource, same_given, follows};

use khe_base::{EventId, MeetId, ResourceId, TaskId, TimeId};
use khe_instance::{Instance, Meet};
use khe_told::Told;

/// The live meet of this number.
#[tactic(auto, using(crate::proofs::ReadingLaws::meet_shown))]
pub(crate) fn live(told: &Told, meet: MeetId) -> Option<Meet>
    ensures { MatchOption result (is_live (slot_at told.now meet.0) ≡ false) (Shows (slot_at told.now meet.0)) }
{
    told.meet(meet)
}

/// The live meet of a task, where the task is there.
pub(crate) fn meet_with(told: &Told, task: TaskId) -> Option<Meet>
    ensures { MatchOption result (has_place (slot_at told.now task.meet.0) task.place ≡ false) (ShowsPlace (slot_at told.now task.meet.0) task.place) }
{
    let meet = live(told, task.meet)?;
    if (task.place as usize) < told.given(task.meet).len() {
        Some(meet)
    } else {
        None
    }
}

/// What a task is given, if anything.
pub(crate) fn resource_at(told: &Told, task: TaskId) -> Option<ResourceId>
    ensures { result ≡ resource_at told.now task }
{
    let given = told.given(task.meet);
    if (task.place as usize) < given.len() {
        given[task.place as usize]
    } else {
        None
    }
}

/// Whether the time of an event is preassigned.
pub(crate) fn is_fixed_event(inst: &Instance, event: EventId) -> bool
    ensures { result ≡ is_fixed_event inst.now event.0 }
{
    event.0 < inst.events() && inst.event(event).fixed.is_some()
}

/// Whether the resource of a place of an event is preassigned.
pub(crate) fn is_fixed_place(inst: &Instance, event: EventId, place: u32) -> bool
    ensures { result ≡ is_fixed_place inst.now event.0 place }
{
    if event.0 >= inst.events() {
        return false;
    }
    let places = inst.event(event).places.as_slice();
    (place as usize) < places.len() && places[place as usize].fixed.is_some()
}

/// Whether a resource has the type of a place of an event.
pub(crate) fn has_type(inst: &Instance, event: EventId, place: u32, resource: ResourceId) -> bool
    ensures { result ≡ has_type inst.now resource.0 (place_at inst.now.events event.0 place) }
{
    if event.0 >= inst.events() || resource.0 >= inst.resources() {
        return false;
    }
    let places = inst.event(event).places.as_slice();
    (place as usize) < places.len() && places[place as usize].rtype == inst.type_of(resource)
}

/// Whether a resource has the type of a place of an event, where there is a resource.
pub(crate) fn may_have(
    inst: &Instance,
    event: EventId,
    place: u32,
    resource: Option<ResourceId>,
) -> bool
    ensures { result ≡ may_have inst.now resource (place_at inst.now.events event.0 place) }
{
    match resource {
        Some(resource) => has_type(inst, event, place, resource),
        None => true,
    }
}

/// Whether a meet of this duration would end after the last time.
pub(crate) fn runs_over(inst: &Instance, time: TimeId, duration: u32) -> bool
    ensures { result ≡ runs_over inst.now time.0 duration }
{
    u64::from(inst.times()) < u64::from(time.0) + u64::from(duration)
}

/// The same of a start, where there is one.
pub(crate) fn would_run_over(inst: &Instance, start: Option<TimeId>, duration: u32) -> bool
    ensures { result ≡ would_run_over inst.now start duration }
{
    match start {
        Some(time) => runs_over(inst, time, duration),
        None => false,
    }
}

/// Whether this is the start.
pub(crate) fn is_time(time: TimeId, start: Option<TimeId>) -> bool
    ensures { result ≡ is_time time.0 start }
{
    match start {
        Some(own) => own.0 == time.0,
        None => false,
    }
}

/// Whether two starts are the same.
pub(crate) fn same_time(a: Option<TimeId>, b: Option<TimeId>) -> bool
    ensures { result ≡ same_time a b }
{
    match a {
        Some(time) => is_time(time, b),
        None => b.is_none(),
    }
}

/// Whether this is the resource.
pub(crate) fn is_resource(resource: ResourceId, given: Option<ResourceId>) -> bool
    ensures { result ≡ is_resource resource.0 given }
{
    match given {
        Some(own) => own.0 == resource.0,
        None => false,
    }
}

/// Whether two tasks are given the same.
pub(crate) fn same_resource(a: Option<ResourceId>, b: Option<ResourceId>) -> bool
    ensures { result ≡ same_resource a b }
{
    match a {
        Some(resource) => is_resource(resource, b),
        None => b.is_none(),
    }
}

/// Whether the places of two meets are given the same.
pub(crate) fn same_given(a: &[Option<ResourceId>], b: &[Option<ResourceId>]) -> bool
    ensures { result ≡ same_given a.now b.now }
{
    for (k, own) in a.iter().enumerate() {
        if k >= b.len() {
            return false;
        }
        if !same_resource(*own, b[k]) {
            return false;
        }
    }
    true
}

/// Whether a meet ends where another starts, or neither has a start.
pub(crate) fn follows(first: Option<TimeId>, duration: u32, second: Option<TimeId>) -> bool
    ensures { result ≡ follows first duration second }
{
    match (first, second) {
        (None, None) => true,
        (Some(own), Some(next)) => u64::from(own.0) + u64::from(duration) == u64::from(next.0),
        _ => false,
    }
}

/// The start of a meet, if it is live and has one.
pub(crate) fn start_of(told: &Told, meet: MeetId) -> Option<TimeId>
    ensures { result ≡ start_of (slot_at told.now meet.0) }
{
    match told.span(meet) {
        Some(span) => span.start,
        None => None,
    }
}

/// The duration of a meet, and 0 where it is not live.
pub(crate) fn duration_of(told: &Told, meet: MeetId) -> u32
    ensures { result ≡ length_of (slot_at told.now meet.0) }
{
    match told.span(meet) {
        Some(span) => span.duration,
        None => 0,
    }
}
