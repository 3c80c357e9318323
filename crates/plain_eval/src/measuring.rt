//! The deviations of all monitors of a timetable.

ghost use Rattle.std.specs.Prelude.{◌≡◌, ◌≤◌, All, IfOk};
ghost use Rattle.event_deviations.specs.Rooms.{room_for as room_of_events};
ghost use Rattle.khe_base.specs.declared.limits.TheConstants.{GREATEST_DEVIATION};
ghost use Rattle.khe_instance.specs.Deviation.{deviation};
ghost use Rattle.khe_instance.specs.Evaluated as evaluated;
ghost use Rattle.khe_instance.specs.States.{AreOfState, IsTold};
ghost use Rattle.khe_instance.specs.WellMade.{IsMonitor};
ghost use Rattle.plain_eval.specs.Measured.{deviations_by};
ghost use Rattle.resource_deviations.specs.Sets.{room_for as room_of_resources};

use event_deviations::{EventDeviations, EventRoom, duties};
use khe_base::{MonitorId, NoMemory, Seq};
use khe_instance::{Duty, Instance, Meet, Monitor, Plain, Point};
use resource_deviations::{ResourceDeviations, ResourceRoom};
use std::alloc::Global;

/// The deviations of all monitors of a timetable, with what depends on its instance alone. What looks
/// at event groups mark is small beside the timetable itself, and made anew.
///
/// This and the next three open one thing each and lend it: so no exit has more than one to drop.
pub(crate) fn deviations_of(
    alloc: Global,
    inst: &Instance,
    plain: &Plain,
    resource_room: &ResourceRoom,
) -> Result<Seq<u64>, NoMemory>
    requires told { IsTold inst.now plain.now.meets plain.now.tasks }
    requires resource_room { resource_room.now ≡ room_of_resources inst.now }
    ensures exact { IfOk result (λ ds. ds ≡ evaluated.deviations inst.now plain.now) }
    ensures small { IfOk result (λ ds. All (λ d. d ≤ GREATEST_DEVIATION) ds) }
{
    let meets = plain.meets.as_slice();
    let duties = duties(alloc, inst, meets, plain.tasks.as_slice())?;
    let deviations = by_duties(alloc, inst, meets, duties.as_slice(), resource_room);
    drop(duties);
    deviations
}

/// The deviations of all monitors by the meets and the tasks with their meets.
fn by_duties(
    alloc: Global,
    inst: &Instance,
    meets: &[Meet],
    duties: &[Duty],
    resource_room: &ResourceRoom,
) -> Result<Seq<u64>, NoMemory>
    requires state { AreOfState inst.now meets.now duties.now }
    requires resource_room { resource_room.now ≡ room_of_resources inst.now }
    ensures exact { IfOk result (λ ds. ds ≡ deviations_by inst.now meets.now duties.now) }
    ensures small { IfOk result (λ ds. All (λ d. d ≤ GREATEST_DEVIATION) ds) }
{
    let events = EventDeviations::open(alloc, inst, meets, duties)?;
    let deviations = by_events(alloc, inst, &events, duties, resource_room);
    drop(events);
    deviations
}

/// The deviations of all monitors, those at events by what was opened for them.
fn by_events(
    alloc: Global,
    inst: &Instance,
    events: &EventDeviations<'_>,
    duties: &[Duty],
    resource_room: &ResourceRoom,
) -> Result<Seq<u64>, NoMemory>
    requires state { AreOfState inst.now events.now.meets duties.now }
    requires events { events.now.parts ≡ inst.now }
    requires duties { duties.now ≡ events.now.duties }
    requires resource_room { resource_room.now ≡ room_of_resources inst.now }
    ensures exact { IfOk result (λ ds. ds ≡ deviations_by inst.now events.now.meets events.now.duties) }
    ensures small { IfOk result (λ ds. All (λ d. d ≤ GREATEST_DEVIATION) ds) }
{
    let resources = ResourceDeviations::open(alloc, inst, duties)?;
    let deviations = by_both(alloc, inst, events, &resources, resource_room);
    drop(resources);
    deviations
}

/// The deviations of all monitors by what was opened for those at events and for those at resources.
fn by_both(
    alloc: Global,
    inst: &Instance,
    events: &EventDeviations<'_>,
    resources: &ResourceDeviations<'_>,
    resource_room: &ResourceRoom,
) -> Result<Seq<u64>, NoMemory>
    requires events { events.now.parts ≡ inst.now }
    requires resources { resources.now.inst.now ≡ inst.now }
    requires duties { resources.now.duties.now ≡ events.now.duties }
    requires resource_room { resource_room.now ≡ room_of_resources inst.now }
    ensures exact { IfOk result (λ ds. ds ≡ deviations_by inst.now events.now.meets events.now.duties) }
    ensures small { IfOk result (λ ds. All (λ d. d ≤ GREATEST_DEVIATION) ds) }
{
    let mut event_room = EventRoom::open(alloc, inst)?;
    let deviations = listed(
        alloc,
        inst,
        events,
        resources,
        &mut event_room,
        resource_room,
    );
    drop(event_room);
    deviations
}

/// The deviations of all monitors, in the order of their numbers.
fn listed(
    alloc: Global,
    inst: &Instance,
    events: &EventDeviations<'_>,
    resources: &ResourceDeviations<'_>,
    event_room: &mut EventRoom,
    resource_room: &ResourceRoom,
) -> Result<Seq<u64>, NoMemory>
    requires events { events.now.parts ≡ inst.now }
    requires resources { resources.now.inst.now ≡ inst.now }
    requires duties { resources.now.duties.now ≡ events.now.duties }
    requires event_room { event_room.old ≡ room_of_events inst.now }
    requires resource_room { resource_room.now ≡ room_of_resources inst.now }
    ensures event_room { event_room.new ≡ event_room.old }
    ensures exact { IfOk result (λ ds. ds ≡ deviations_by inst.now events.now.meets events.now.duties) }
    ensures small { IfOk result (λ ds. All (λ d. d ≤ GREATEST_DEVIATION) ds) }
{
    inst.facts();
    let mut deviations = Seq {
        items: Vec::with_capacity(alloc, inst.monitors() as usize)?,
    };
    for number in 0..inst.monitors() {
        let monitor = inst.monitor(MonitorId(number));
        deviations.push(deviation_of(inst, events, resources, event_room, resource_room, monitor))?;
    }
    Ok(deviations)
}

/// The deviation of one monitor.
fn deviation_of(
    inst: &Instance,
    events: &EventDeviations<'_>,
    resources: &ResourceDeviations<'_>,
    event_room: &mut EventRoom,
    resource_room: &ResourceRoom,
    monitor: Monitor,
) -> u64
    requires monitor { IsMonitor inst.now monitor }
    requires events { events.now.parts ≡ inst.now }
    requires resources { resources.now.inst.now ≡ inst.now }
    requires duties { resources.now.duties.now ≡ events.now.duties }
    requires event_room { event_room.old ≡ room_of_events inst.now }
    requires resource_room { resource_room.now ≡ room_of_resources inst.now }
    ensures event_room { event_room.new ≡ event_room.old }
    ensures exact { result ≡ deviation inst.now events.now.meets events.now.duties monitor }
    ensures bound { result ≤ GREATEST_DEVIATION }
{
    match monitor.point {
        Point::Resource(_) => resources.deviation(monitor, resource_room),
        _ => events.deviation(monitor, event_room),
    }
}
