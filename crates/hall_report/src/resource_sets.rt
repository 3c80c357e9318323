//! The resources that a task to which none is given may have.

ghost use Rattle.std.specs.Prelude.{◌≡◌, ◌==◌, ◌++◌, ◌<◌, ◌+◌, ℕ, length, map, IfOk, OnOk};
ghost use Rattle.khe_base.specs.IdSet.{has_member};
ghost use Rattle.khe_instance.specs.Slots.{first_task};
ghost use Rattle.hall_report.specs.Opening.{AreResourcesTo, AreTypeEntries, AreTypeSets, is_of_type, place_of};
ghost use Rattle.hall_report.specs.Picks.{AreResourceSets, first_meet_at};
ghost use Rattle.hall_report.specs.Units.{units_of};

use crate::sets::narrow;
use crate::start_sets::is_strict;
use khe_base::{EventId, IdSet, MeetId, MonitorId, NoMemory, ResourceId, Seq};
use khe_instance::{Instance, Place, Point, Rule};
use std::alloc::Global;

/// The sets, and for each event resource the number of its set, at the first task slot of its
/// event's first meet slot and its place from there on.
#[derive(Drop)]
pub(crate) struct ResourceSets {
    pub(crate) sets: Seq<IdSet>,
    pub(crate) entries: Vec<u32>,
}

/// The sets of an instance. It takes time and memory in proportion to the task slots, the resources
/// once for each type, and the resources once for each event resource that a strict constraint
/// speaks of, time once for each such constraint.
pub(crate) fn resource_sets(alloc: Global, inst: &Instance) -> Result<ResourceSets, NoMemory>
    ensures { IfOk result (λ found. AreResourceSets inst.now found.sets found.entries.items) }
{
    inst.facts();
    let sets = whole_sets(alloc, inst)?;
    let entries = whole_entries(alloc, inst)?;
    let mut found = ResourceSets { sets, entries };
    narrow_all(alloc, inst, &mut found)?;
    Ok(found)
}

// The resources of each type.
fn whole_sets(alloc: Global, inst: &Instance) -> Result<Seq<IdSet>, NoMemory>
    ensures { IfOk result (λ sets. AreTypeSets inst.now inst.now.types sets) }
{
    let mut sets = Seq::new(alloc);
    for rtype in 0..inst.types() {
        sets.push(of_type(alloc, inst, rtype)?)?;
    }
    Ok(sets)
}

fn of_type(alloc: Global, inst: &Instance, rtype: u32) -> Result<IdSet, NoMemory>
    ensures size { IfOk result (λ set. length set ≡ length inst.now.resources) }
    ensures members { IfOk result (λ set. (r : ℕ) → has_member set r ≡ is_of_type inst.now rtype r) }
{
    let mut set = IdSet::new(alloc, inst.resources())?;
    for resource in 0..inst.resources() {
        if rtype == inst.type_of(ResourceId(resource)) {
            set.insert(resource);
        }
    }
    Ok(set)
}

/// Where the entries of an event begin.
pub(crate) fn first_entry(inst: &Instance, event: EventId) -> u32
    requires { event.0 < length inst.now.events }
    ensures { result ≡ first_task inst.now.events (first_meet_at inst.now.events event.0) }
{
    inst.facts();
    inst.first_task(MeetId(inst.event(event).first_meet))
}

// For each task slot the set of the type of its place.
fn whole_entries(alloc: Global, inst: &Instance) -> Result<Vec<u32>, NoMemory>
    ensures { IfOk result (λ entries. AreTypeEntries inst.now (units_of inst.now.events) entries.items) }
{
    inst.facts();
    let mut entries = Vec::new(alloc);
    for slot in 0..inst.meet_slots() {
        let event = inst.event(inst.event_of(MeetId(slot)));
        push_types(&mut entries, event.places.as_slice())?;
    }
    Ok(entries)
}

fn push_types(entries: &mut Vec<u32>, places: &[Place]) -> Result<(), NoMemory>
    ensures { OnOk result (entries.new.items ≡ entries.old.items ++ map (λ place. place.rtype) places.now) }
{
    for place in places {
        entries.push(place.rtype)?;
    }
    Ok(())
}

fn narrow_all(alloc: Global, inst: &Instance, found: &mut ResourceSets) -> Result<(), NoMemory>
    requires { AreResourcesTo inst.now 0 found.old.sets found.old.entries.items }
    ensures { OnOk result (AreResourcesTo inst.now (length inst.now.monitors) found.new.sets found.new.entries.items) }
{
    for number in 0..inst.monitors() {
        narrow_by(alloc, inst, found, MonitorId(number))?;
    }
    Ok(())
}

// Narrows the set of a monitor's event resource to the resources that its constraint allows.
fn narrow_by(
    alloc: Global,
    inst: &Instance,
    found: &mut ResourceSets,
    number: MonitorId,
) -> Result<(), NoMemory>
    requires there { number.0 < length inst.now.monitors }
    requires sets { AreResourcesTo inst.now number.0 found.old.sets found.old.entries.items }
    ensures { OnOk result (AreResourcesTo inst.now (number.0 + 1) found.new.sets found.new.entries.items) }
{
    inst.facts();
    let monitor = inst.monitor(number);
    let constraint = inst.constraint(monitor.constraint);
    if !is_strict(constraint) {
        return Ok(());
    }
    let Rule::PreferResources { resources, .. } = &constraint.rule else {
        return Ok(());
    };
    let Some((event, place)) = place_of(monitor.point) else {
        return Ok(());
    };
    let entry = (first_entry(inst, event) + place) as usize;
    narrow(
        alloc,
        &mut found.sets,
        &mut found.entries,
        inst.types(),
        entry,
        resources,
    )?;
    Ok(())
}

// The event and the place of a point, where it is an event resource.
fn place_of(point: Point) -> Option<(EventId, u32)>
    ensures { result ≡ place_of point }
{
    match point {
        Point::EventResource { event, place } => Some((event, place)),
        _ => None,
    }
}
