//! Monitors that have no move, whatever the timetable.

ghost use Rattle.std.specs.Prelude.{◌≡◌, ◌<◌, ℕ, true, length};
ghost use Rattle.repair_moves.specs.Stuck.{HasFixedEvent, HasFixedPlace, IsFixedPlace, IsStuck};

use crate::reads::{is_fixed_event, place_at};
use khe_base::{EventId, MonitorId};
use khe_instance::{Instance, Kind, Point};

/// Whether a point is an event whose time is preassigned.
fn has_fixed_event(inst: &Instance, point: Point) -> bool
    ensures { result ≡ true → HasFixedEvent inst.now point }
{
    match point {
        Point::Event(event) => is_fixed_event(inst, event),
        _ => false,
    }
}

/// Whether the resource of a place is preassigned, or no resource has the place's type.
fn is_fixed(inst: &Instance, event: EventId, place: u32) -> bool
    ensures { result ≡ true → IsFixedPlace inst.now event.0 place }
{
    inst.facts();
    match place_at(inst, event, place) {
        Some(own) => own.fixed.is_some() || inst.resources_of_type(own.rtype).is_empty(),
        None => false,
    }
}

/// Whether the one place of a point can be given nothing else.
fn has_fixed_place(inst: &Instance, point: Point) -> bool
    ensures { result ≡ true → HasFixedPlace inst.now point }
{
    match point {
        Point::EventResource { event, place } => is_fixed(inst, event, place),
        _ => false,
    }
}

/// Whether a monitor has no move in any timetable, as its constraint's kind and its point tell: it wants
/// another time of an event whose time is preassigned, or another resource at a place whose resource is
/// preassigned or whose type has no resources. It takes constant time.
pub fn is_stuck(inst: &Instance, monitor: MonitorId) -> bool
    requires known { monitor.0 < length inst.now.monitors }
    ensures stuck { result ≡ true → IsStuck inst.now monitor.0 }
{
    let own = inst.monitor(monitor);
    match own.kind {
        Kind::AssignTime => has_fixed_event(inst, own.point),
        Kind::PreferTimes => has_fixed_event(inst, own.point),
        Kind::AssignResource => has_fixed_place(inst, own.point),
        Kind::PreferResources => has_fixed_place(inst, own.point),
        _ => false,
    }
}
