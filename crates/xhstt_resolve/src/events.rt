//! Events with their places and meet slots.

ghost use Rattle.std.specs.Prelude.{◌≡◌, ◌≤◌, IfOk};
ghost use Rattle.khe_base.specs.declared.limits.TheConstants.{DURATION};
ghost use Rattle.xhstt_resolve.specs.Limits.{total_duration};
ghost use Rattle.xhstt_resolve.specs.Parts.{fixed_time, event_of, events_from};
ghost use Rattle.xhstt_resolve.specs.Tables.{IsLookup};

use crate::places::places_of;
use crate::tables::Lookup;
use khe_base::{NoMemory, Seq, TimeId};
use khe_instance::EventInfo;
use std::alloc::Global;
use xhstt_shape::{RawEvent, Ref};

/// The events with their places, their meet slots one after another. It takes time and memory in
/// proportion to their Ids and places, on average.
pub(crate) fn events_of(alloc: Global, lookup: &Lookup<'_>) -> Result<Seq<EventInfo>, NoMemory>
    requires lookup { IsLookup lookup.now }
    requires duration { total_duration lookup.now.instance.now ≤ DURATION }
    ensures { IfOk result (λ es. es ≡ events_from lookup.now.instance.now 0 lookup.now.instance.now.events) }
{
    let mut events = Seq::new(alloc);
    let mut next = 0u32;
    for event in lookup.instance.events.as_slice() {
        events.push(event_of(alloc, lookup, next, event)?)?;
        next += event.duration;
    }
    Ok(events)
}

/// An event whose first meet slot has this number.
fn event_of(
    alloc: Global,
    lookup: &Lookup<'_>,
    next: u32,
    event: &RawEvent,
) -> Result<EventInfo, NoMemory>
    requires { IsLookup lookup.now }
    ensures { IfOk result (λ e. e ≡ event_of lookup.now.instance.now next event.now) }
{
    let id = event.id.text.copy(alloc)?;
    let fixed = fixed_time(lookup, &event.time);
    let places = places_of(alloc, lookup, event)?;
    Ok(EventInfo {
        id,
        duration: event.duration,
        fixed,
        first_meet: next,
        places,
    })
}

/// The preassigned time of an event.
fn fixed_time(lookup: &Lookup<'_>, time: &Option<Ref>) -> Option<TimeId>
    requires { IsLookup lookup.now }
    ensures { result ≡ fixed_time lookup.now.instance.now time.now }
{
    match time {
        Some(reference) => match lookup.tables.times.number(reference) {
            Some(number) => Some(TimeId(number)),
            None => None,
        },
        None => None,
    }
}
