//! The workload of each resource.

ghost use Rattle.std.specs.Prelude.{◌≡◌, ◌+◌, ◌-◌, ◌*◌, ◌/◌, ◌^◌, ◌<◌, ◌≤◌, length, slice_get, slice_index, slice_set, replicate, IfOk, Some};
ghost use Rattle.std.specs.Option.{option_map_or};
ghost use Rattle.resource_monitors.specs.Loads.{CanTurn, Turned, worth_at};

use khe_base::{EventId, NoMemory, ResourceId};
use khe_instance::{Instance, Place};
use khe_told::Span;
use std::alloc::Global;

/// A workload of 0 for each resource.
pub(crate) fn no_loads(alloc: Global, resources: u32) -> Result<Vec<u128>, NoMemory>
    ensures { IfOk result (λ loads. loads.items ≡ replicate resources 0) }
{
    Ok(vec![in alloc; 0; resources as usize]?)
}

/// Raises a workload, or lowers it.
pub(crate) fn turn_load(loads: &mut Vec<u128>, r: ResourceId, worth: u128, rises: bool)
    requires resource { r.0 < length loads.old.items }
    requires can { CanTurn rises (Some r) worth loads.old.items }
    ensures resources { length loads.new.items ≡ length loads.old.items }
    ensures loads { Turned rises (Some r) worth loads.old.items loads.new.items }
{
    if rises {
        raise(loads, r, worth);
    } else {
        lower(loads, r, worth);
    }
}

fn raise(loads: &mut Vec<u128>, r: ResourceId, worth: u128)
    requires resource { r.0 < length loads.old.items }
    requires small { slice_index loads.old.items r.0 + worth < 2 ^ 128 }
    ensures { loads.new.items ≡ slice_set loads.old.items r.0 (slice_index loads.old.items r.0 + worth) }
{
    loads[r.0 as usize] += worth;
}

fn lower(loads: &mut Vec<u128>, r: ResourceId, worth: u128)
    requires resource { r.0 < length loads.old.items }
    requires enough { worth ≤ slice_index loads.old.items r.0 }
    ensures { loads.new.items ≡ slice_set loads.old.items r.0 (slice_index loads.old.items r.0 - worth) }
{
    loads[r.0 as usize] -= worth;
}

/// What a task of an event's meet with a duration is worth to the resource that it is given, in parts of one over the
/// unit. It takes constant time.
pub(crate) fn worth_of(inst: &Instance, event: EventId, duration: u32, place: usize) -> u128
    requires { event.0 < length inst.now.events }
    ensures { result ≡ worth_at inst.now event duration place }
{
    inst.facts();
    let info = inst.event(event);
    let workload = workload_at(info.places.as_slice(), place);
    let rate = rate_of(inst.unit(), info.duration);
    product(workload, duration, rate)
}

/// The workload of a place, and 0 where there is none.
fn workload_at(places: &[Place], place: usize) -> u32
    ensures { result ≡ option_map_or (λ q. q.workload) (slice_get places.now place) 0 }
{
    match places.get(place) {
        None => 0,
        Some(place) => place.workload,
    }
}

/// The duration of a meet, and 0 where there is none.
pub(crate) fn length_of(span: Option<Span>) -> u32
    ensures { result ≡ option_map_or (λ y. y.duration) span 0 }
{
    match span {
        None => 0,
        Some(span) => span.duration,
    }
}

/// How many parts of one over the unit are one over the duration.
fn rate_of(unit: u64, duration: u32) -> u64
    requires { 1 ≤ duration }
    ensures { result ≡ unit / duration }
{
    unit / u64::from(duration)
}

fn product(workload: u32, duration: u32, rate: u64) -> u128
    ensures { result ≡ workload * duration * rate }
{
    u128::from(workload) * u128::from(duration) * u128::from(rate)
}
