//! Whether a change fits, asked when a test runs.

ghost use Rattle.std.specs.Prelude.{◌≡◌, ◌<◌, ◌≤◌, ◌+◌, true, None, Some, length, replicate, slice_get, slice_index, nat_le};
ghost use Rattle.std.specs.Option.{option_and_then, option_map};
ghost use Rattle.khe_base.specs.declared.numbers.MeetId.{MeetId};
ghost use Rattle.khe_told.specs.Changes.{after, meet_of};
ghost use Rattle.khe_told.specs.Fits.{AreTold, Fits};
ghost use Rattle.khe_told.specs.Slots.{given_at, slot_at};
ghost use Rattle.khe_told.specs.declared.changes.Change.TheVariants.{Add, Drop, Place as PlaceAt, Lift, Give, Take};
ghost use Rattle.family_tests.specs.Benches.{AreHeld, MayHave, is_open, unplaced};

use khe_base::{EventId, MeetId, ResourceId, TaskId, TimeId};
use khe_instance::{Instance, Place};
use khe_told::{Change, Span, Told};

/// Whether a change fits what was told. It takes time in proportion to the places of its event at
/// most.
pub(crate) fn fits(inst: &Instance, told: &Told, held: &[u32], change: Change) -> bool
    requires told { AreTold inst.now told.now }
    requires held { AreHeld inst.now told.now held.now }
    ensures { result ≡ true → Fits inst.now told.now change }
{
    if change.meet().0 as usize >= told.len() {
        return false;
    }
    match change {
        Change::Add { meet, duration } => adds(inst, told, held, meet, duration),
        Change::Drop { meet, duration } => drops(inst, told, meet, duration),
        Change::Place { meet, start } => places(inst, told, meet, start),
        Change::Lift { meet, start } => lifts(inst, told, meet, start),
        Change::Give { task, resource } => gives(inst, told, task, resource),
        Change::Take { task, resource } => takes(inst, told, task, resource),
    }
}

fn adds(inst: &Instance, told: &Told, held: &[u32], meet: MeetId, duration: u32) -> bool
    requires told { AreTold inst.now told.now }
    requires held { AreHeld inst.now told.now held.now }
    requires there { meet.0 < length told.now }
    ensures { result ≡ true → Fits inst.now told.now (Add meet duration) }
{
    inst.facts();
    let None = told.span(meet) else {
        return false;
    };
    let event = told.event(meet);
    let now = held_at(held, event);
    let whole = inst.event(event).duration;
    duration >= 1 && has_room(now, duration, whole)
}

fn held_at(held: &[u32], event: EventId) -> u32
    requires { event.0 < length held.now }
    ensures { result ≡ slice_index held.now event.0 }
{
    held[event.0 as usize]
}

fn has_room(now: u32, more: u32, whole: u32) -> bool
    ensures { result ≡ nat_le (now + more) whole }
{
    u64::from(now) + u64::from(more) <= u64::from(whole)
}

/// The duration of a meet without a start.
fn unplaced(span: Option<Span>) -> Option<u32>
    ensures { result ≡ unplaced span }
{
    let span = span?;
    match span.start {
        None => Some(span.duration),
        Some(_) => None,
    }
}

fn drops(inst: &Instance, told: &Told, meet: MeetId, duration: u32) -> bool
    requires told { AreTold inst.now told.now }
    requires there { meet.0 < length told.now }
    ensures { result ≡ true → Fits inst.now told.now (Drop meet duration) }
{
    let _ = inst;
    let Some(lasts) = unplaced(told.span(meet)) else {
        return false;
    };
    lasts == duration && is_bare(told.given(meet))
}

/// Whether nothing is given.
fn is_bare(given: &[Option<ResourceId>]) -> bool
    ensures { result ≡ true → given.now ≡ replicate (length given.now) None }
{
    for place in given {
        if place.is_some() {
            return false;
        }
    }
    true
}

fn places(inst: &Instance, told: &Told, meet: MeetId, start: TimeId) -> bool
    requires told { AreTold inst.now told.now }
    requires there { meet.0 < length told.now }
    ensures { result ≡ true → Fits inst.now told.now (PlaceAt meet start) }
{
    let Some(duration) = unplaced(told.span(meet)) else {
        return false;
    };
    has_room(start.0, duration, inst.times())
}

/// The start of a meet.
fn start_of(span: Option<Span>) -> Option<TimeId>
    ensures { result ≡ option_and_then (λ y. y.start) span }
{
    span?.start
}

fn lifts(inst: &Instance, told: &Told, meet: MeetId, start: TimeId) -> bool
    requires told { AreTold inst.now told.now }
    requires there { meet.0 < length told.now }
    ensures { result ≡ true → Fits inst.now told.now (Lift meet start) }
{
    let _ = inst;
    let Some(starts) = start_of(told.span(meet)) else {
        return false;
    };
    starts.0 == start.0
}

/// What a place of a told meet is given, or `None` where no told meet has the place.
fn given_there(told: &Told, task: TaskId) -> Option<Option<ResourceId>>
    ensures { result ≡ slice_get (slot_at told.now task.meet.0).given task.place }
{
    told.given(task.meet).get(task.place as usize).copied()
}

/// Whether a place is there and nothing is given.
fn is_open(place: Option<Option<ResourceId>>) -> bool
    ensures { result ≡ is_open place }
{
    match place {
        Some(None) => true,
        _ => false,
    }
}

fn gives(inst: &Instance, told: &Told, task: TaskId, resource: ResourceId) -> bool
    requires told { AreTold inst.now told.now }
    requires there { task.meet.0 < length told.now }
    ensures { result ≡ true → Fits inst.now told.now (Give task resource) }
{
    let Some(_) = told.span(task.meet) else {
        return false;
    };
    is_open(given_there(told, task)) && is_typed(inst, told, task, resource)
}

/// Whether a resource has the type of a task's place.
fn is_typed(inst: &Instance, told: &Told, task: TaskId, resource: ResourceId) -> bool
    requires told { AreTold inst.now told.now }
    requires there { task.meet.0 < length told.now }
    ensures { result ≡ true → MayHave inst.now (slot_at told.now task.meet.0) task.place resource }
{
    inst.facts();
    let event = inst.event(told.event(task.meet));
    let Some(rtype) = type_at(event.places.as_slice(), task.place) else {
        return false;
    };
    resource.0 < inst.resources() && inst.type_of(resource) == rtype
}

fn type_at(places: &[Place], place: u32) -> Option<u32>
    ensures { result ≡ option_map (λ q. q.rtype) (slice_get places.now place) }
{
    match places.get(place as usize) {
        None => None,
        Some(place) => Some(place.rtype),
    }
}

/// The resource that a task is given.
fn resource_there(told: &Told, task: TaskId) -> Option<ResourceId>
    ensures { result ≡ option_and_then (λ o. o) (slice_get (slot_at told.now task.meet.0).given task.place) }
{
    given_there(told, task)?
}

fn takes(inst: &Instance, told: &Told, task: TaskId, resource: ResourceId) -> bool
    requires told { AreTold inst.now told.now }
    requires there { task.meet.0 < length told.now }
    ensures { result ≡ true → Fits inst.now told.now (Take task resource) }
{
    let _ = inst;
    let Some(_) = told.span(task.meet) else {
        return false;
    };
    let Some(given) = resource_there(told, task) else {
        return false;
    };
    given.0 == resource.0
}
