//! The resources that may have a task in a role among the events of a monitor.

ghost use Rattle.std.specs.Prelude.{◌≡◌, ◌<◌, ◌++◌, ◌∷◌, [], ℕ, All, if◌then◌else◌, true, length, IfOk, OnOk};
ghost use Rattle.khe_base.specs.IdSet.{has_member};
ghost use Rattle.khe_instance.specs.KindLaws.{is_kind};
ghost use Rattle.khe_instance.specs.WellMade.{IsMonitor};
ghost use Rattle.khe_instance.specs.declared.rules.Kind.TheVariants as kind;
ghost use Rattle.event_monitors.specs.Posts.{names};
ghost use Rattle.event_monitors.specs.Turns.{has};
ghost use Rattle.set_monitors.specs.AvoidSplitAssignments.{AreAscending, AreCandidates, in_role, wants};
ghost use Rattle.set_monitors.specs.Candidates.{AreTyped, HasTypes, HasTypesOf};

use khe_base::{EventId, IdSet, NoMemory, ResourceId, Seq, Text};
use khe_instance::{Instance, Monitor, Point, Rule};
use std::alloc::Global;

/// The resources that may have a task in the role among a monitor's events, ascending: those with
/// the type of a place in the role. It takes the time of these events' places and of all resources.
pub(crate) fn candidates(
    alloc: Global,
    inst: &Instance,
    monitor: Monitor,
) -> Result<Seq<u32>, NoMemory>
    requires monitor { IsMonitor inst.now monitor }
    requires served { is_kind monitor.kind kind.AvoidSplitAssignments ≡ true }
    ensures { IfOk result (λ numbers. AreCandidates inst.now monitor numbers) }
{
    let types = types_in_role(alloc, inst, monitor)?;
    resources_with(alloc, inst, &types)
}

// The resources of some types, ascending.
fn resources_with(alloc: Global, inst: &Instance, types: &IdSet) -> Result<Seq<u32>, NoMemory>
    ensures { IfOk result (λ numbers. AreTyped inst.now types.now (length inst.now.resources) numbers) }
{
    let mut numbers = Seq::new(alloc);
    for r in 0..inst.resources() {
        let holds = types.has(inst.type_of(ResourceId(r)));
        add_where(&mut numbers, r, holds)?;
    }
    Ok(numbers)
}

// Adds a number where a test holds.
fn add_where(numbers: &mut Seq<u32>, number: u32, holds: bool) -> Result<(), NoMemory>
    ensures { OnOk result (numbers.new ≡ (if holds then numbers.old ++ number ∷ [] else numbers.old)) }
{
    if !holds {
        return Ok(());
    }
    numbers.push(number)?;
    Ok(())
}

// The types of the places in the role, of a monitor's events.
fn types_in_role(alloc: Global, inst: &Instance, monitor: Monitor) -> Result<IdSet, NoMemory>
    requires monitor { IsMonitor inst.now monitor }
    requires served { is_kind monitor.kind kind.AvoidSplitAssignments ≡ true }
    ensures { IfOk result (λ types. HasTypes inst.now monitor types) }
{
    inst.facts();
    let mut types = IdSet::new(alloc, inst.types())?;
    let events = members(inst, monitor);
    for event in events {
        add_types(inst, monitor, EventId(*event), &mut types);
    }
    Ok(types)
}

// Adds the types of the places in the role of one event.
fn add_types(inst: &Instance, monitor: Monitor, event: EventId, types: &mut IdSet)
    requires monitor { IsMonitor inst.now monitor }
    requires event { event.0 < length inst.now.events }
    requires size { length types.old ≡ inst.now.types }
    ensures size { length types.new ≡ inst.now.types }
    ensures kept { (t : ℕ) → has_member types.old t ≡ true → has_member types.new t ≡ true }
    ensures added { HasTypesOf inst.now monitor event.0 types.new }
{
    inst.facts();
    let places = inst.event(event).places.as_slice();
    let rule = &inst.constraint(monitor.constraint).rule;
    for place in places {
        if is_wanted(rule, &place.role) {
            types.insert(place.rtype);
        }
    }
}

/// The events of a monitor's group, ascending.
pub(crate) fn members(inst: &Instance, monitor: Monitor) -> &[u32]
    requires monitor { IsMonitor inst.now monitor }
    requires served { is_kind monitor.kind kind.AvoidSplitAssignments ≡ true }
    ensures named { (e : ℕ) → e < length inst.now.events → has result.now e ≡ names inst.now e monitor }
    ensures each { All (λ e. e < length inst.now.events) result.now }
    ensures ascending { AreAscending result.now }
{
    inst.facts();
    match monitor.point {
        Point::EventGroup(group) => inst.members(group),
        _ => &[],
    }
}

/// Whether a place of an event has the role of a monitor's constraint. It takes the time of
/// comparing two roles.
pub(crate) fn has_role(inst: &Instance, monitor: Monitor, event: EventId, place: usize) -> bool
    requires monitor { IsMonitor inst.now monitor }
    requires event { event.0 < length inst.now.events }
    ensures { result ≡ in_role inst.now monitor event.0 place }
{
    let rule = &inst.constraint(monitor.constraint).rule;
    let places = inst.event(event).places.as_slice();
    match places.get(place) {
        Some(place) => is_wanted(rule, &place.role),
        None => false,
    }
}

// Whether a rule is on the places of a role.
fn is_wanted(rule: &Rule, own: &Option<Text>) -> bool
    ensures { result ≡ wants rule.now own.now }
{
    match (rule, own) {
        (Rule::AvoidSplitAssignments { role }, Some(own)) => role.is_same(own),
        _ => false,
    }
}
