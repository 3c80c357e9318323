//! The points of monitors as they stand in a line.

ghost use Rattle.std.specs.Prelude.{◌≡◌, ◌++◌, ◌<◌, length, OnOk};
ghost use Rattle.std.specs.List.{slice_get};
ghost use Rattle.std.specs.Option.{option_and_then};
ghost use Rattle.khe_instance.specs.WellMade.{IsRule};
ghost use Rattle.evaluation_report.specs.Points.{event_text, role_text, place_text, pair_text, listed_pair_text, point_text, IsNamed};

use crate::words::push_id;
use khe_base::{EventId, NoMemory, Text};
use khe_instance::{EventInfo, EventPair, Instance, Point, Rule};
use std::alloc::Global;

/// Adds a point of a constraint with this rule. It takes time linear in the point's Ids.
pub(crate) fn push_point(
    alloc: Global,
    line: &mut Text,
    inst: &Instance,
    rule: &Rule,
    point: Point,
) -> Result<(), NoMemory>
    requires rule { IsRule inst.now rule.now }
    requires point { IsNamed inst.now point }
    ensures { OnOk result (line.new ≡ line.old ++ point_text inst.now rule.now point) }
{
    match point {
        Point::Event(event) => push_event(alloc, line, inst, event),
        Point::EventResource { event, place } => push_place(alloc, line, inst, event, place),
        Point::EventGroup(group) => { push_id(alloc, line, "group \"", inst.group_id(group), "\"") }
        Point::EventPair(number) => push_listed_pair(alloc, line, inst, rule, number),
        Point::Resource(resource) => {
            push_id(alloc, line, "resource \"", inst.resource_id(resource), "\"")
        }
    }
}

/// Adds an event as a point. It takes time linear in the event's Id.
pub(crate) fn push_event(
    alloc: Global,
    line: &mut Text,
    inst: &Instance,
    event: EventId,
) -> Result<(), NoMemory>
    requires { event.0 < length inst.now.events }
    ensures { OnOk result (line.new ≡ line.old ++ event_text inst.now event.0) }
{
    push_id(alloc, line, "event \"", &inst.event(event).id, "\"")
}

/// Adds an event and the role of one of its places.
fn push_place(
    alloc: Global,
    line: &mut Text,
    inst: &Instance,
    event: EventId,
    place: u32,
) -> Result<(), NoMemory>
    requires { event.0 < length inst.now.events }
    ensures { OnOk result (line.new ≡ line.old ++ place_text inst.now event.0 place) }
{
    push_event(alloc, line, inst, event)?;
    push_role(alloc, line, inst.event(event), place)
}

/// Adds the role of a place, where the event has this place and it has a role.
fn push_role(alloc: Global, line: &mut Text, event: &EventInfo, place: u32) -> Result<(), NoMemory>
    ensures { OnOk result (line.new ≡ line.old ++ role_text (option_and_then (λ p. p.role) (slice_get event.now.places place))) }
{
    let places = event.places.as_slice();
    let Some(place) = places.get(place as usize) else {
        return Ok(());
    };
    let Some(role) = &place.role else {
        return Ok(());
    };
    push_id(alloc, line, " role \"", role, "\"")
}

/// Adds the pair with this number among a rule's pairs.
fn push_listed_pair(
    alloc: Global,
    line: &mut Text,
    inst: &Instance,
    rule: &Rule,
    number: u32,
) -> Result<(), NoMemory>
    requires { IsRule inst.now rule.now }
    ensures { OnOk result (line.new ≡ line.old ++ listed_pair_text inst.now rule.now number) }
{
    let Rule::OrderEvents { pairs } = rule else {
        return Ok(());
    };
    match pairs.as_slice().get(number as usize) {
        Some(pair) => push_pair(alloc, line, inst, *pair),
        None => Ok(()),
    }
}

/// Adds two events as a point.
fn push_pair(
    alloc: Global,
    line: &mut Text,
    inst: &Instance,
    pair: EventPair,
) -> Result<(), NoMemory>
    requires first { pair.first.0 < length inst.now.events }
    requires second { pair.second.0 < length inst.now.events }
    ensures { OnOk result (line.new ≡ line.old ++ pair_text inst.now pair) }
{
    push_id(
        alloc,
        line,
        "events \"",
        &inst.event(pair.first).id,
        "\" \"",
    )?;
    push_id(alloc, line, "", &inst.event(pair.second).id, "\"")
}
