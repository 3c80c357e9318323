//! Which place of each of a monitor's events has the role of its constraint: an event has one at most.

ghost use Rattle.std.specs.Prelude.{◌≡◌, ◌<◌, ℕ, Some, false, true, length, slice_get, IfOk, MatchOption, OnOk};
ghost use Rattle.khe_instance.specs.KindLaws.{is_kind};
ghost use Rattle.khe_instance.specs.WellMade.{IsMonitor};
ghost use Rattle.khe_instance.specs.declared.rules.Kind.TheVariants as kind;
ghost use Rattle.set_monitors.specs.AvoidSplitAssignments.{in_role};
ghost use Rattle.set_monitors.specs.RolePlaces.{AreByEvents, AreRolePlaces, HasComeAt, IsAt, IsOnly, IsPlaceAt};

use crate::candidates::{has_role, members};
use khe_base::{EventId, NoMemory, Seq};
use khe_instance::{Instance, Monitor};
use std::alloc::Global;

/// The place of an event that has the role of a monitor's constraint.
#[derive(Clone, Copy)]
pub struct RolePlace {
    pub event: EventId,
    pub place: usize,
}

/// The places in the role of a monitor's events, by events. It takes the time of these events' places, and memory
/// for those in the role alone.
pub(crate) fn role_places(
    alloc: Global,
    inst: &Instance,
    monitor: Monitor,
) -> Result<Seq<RolePlace>, NoMemory>
    requires monitor { IsMonitor inst.now monitor }
    requires served { is_kind monitor.kind kind.AvoidSplitAssignments ≡ true }
    ensures { IfOk result (λ list. AreRolePlaces inst.now monitor list) }
{
    let mut list = Seq::new(alloc);
    let events = members(inst, monitor);
    for event in events {
        add_place(inst, monitor, EventId(*event), &mut list)?;
    }
    Ok(list)
}

// Adds the place in the role of an event, where it has one.
fn add_place(
    inst: &Instance,
    monitor: Monitor,
    event: EventId,
    list: &mut Seq<RolePlace>,
) -> Result<(), NoMemory>
    requires monitor { IsMonitor inst.now monitor }
    requires served { is_kind monitor.kind kind.AvoidSplitAssignments ≡ true }
    requires event { event.0 < length inst.now.events }
    ensures { OnOk result (HasComeAt inst.now monitor event.0 list.old list.new) }
{
    let Some(place) = place_with_role(inst, monitor, event) else {
        return Ok(());
    };
    list.push(RolePlace { event, place })?;
    Ok(())
}

// The place of an event that has the role, if there is one.
fn place_with_role(inst: &Instance, monitor: Monitor, event: EventId) -> Option<usize>
    requires monitor { IsMonitor inst.now monitor }
    requires served { is_kind monitor.kind kind.AvoidSplitAssignments ≡ true }
    requires event { event.0 < length inst.now.events }
    ensures { MatchOption result ((k : ℕ) → in_role inst.now monitor event.0 k ≡ false) (IsOnly inst.now monitor event.0) }
{
    inst.facts();
    let places = inst.event(event).places.len();
    for k in 0..places {
        if has_role(inst, monitor, event, k) {
            return Some(k);
        }
    }
    None
}

/// The place in the role of an event, by binary search, or `None` where the event has none.
pub(crate) fn place_of(list: &[RolePlace], event: EventId) -> Option<usize>
    requires { AreByEvents list.now }
    ensures { MatchOption result ((i : ℕ) → IsAt list.now event.0 i → ⊥) (IsPlaceAt list.now event.0) }
{
    let k = sought(list, event);
    let Some(found) = element_at(list, k) else {
        return None;
    };
    if found.event.0 != event.0 {
        return None;
    }
    Some(found.place)
}

// Where an event would stand in a list.
fn sought(list: &[RolePlace], event: EventId) -> usize
    requires { AreByEvents list.now }
    ensures { (i : ℕ) → IsAt list.now event.0 i → i ≡ result }
{
    let mut low = 0;
    let mut end = list.len();
    while low < end {
        let middle = low + (end - low) / 2;
        let here = event_at(list, middle);
        if here < event.0 {
            low = middle + 1;
        } else {
            end = middle;
        }
    }
    low
}

// The element at a place, or `None` where there is none.
fn element_at(list: &[RolePlace], k: usize) -> Option<RolePlace>
    ensures { result ≡ slice_get list.now k }
{
    list.get(k).copied()
}

// The number of the event that an element is on.
fn event_at(list: &[RolePlace], k: usize) -> u32
    requires { k < length list.now }
    ensures { (a : RolePlace) → slice_get list.now k ≡ Some a → a.event.0 ≡ result }
{
    list[k].event.0
}
