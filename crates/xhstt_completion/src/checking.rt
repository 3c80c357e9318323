//! The first cause for which a solution is invalid.

ghost use Rattle.std.specs.Prelude.{◌≡◌, [], length, map, All, IfOk};
ghost use Rattle.xhstt_completion.specs.Causes.{first_cause};
ghost use Rattle.xhstt_completion.specs.Entries.{IsEntry};
ghost use Rattle.xhstt_completion.specs.Found.{AreFound};

use crate::causes::cause_in;
use crate::entries::duration_of;
use crate::faults::Cause;
use crate::lookups::{named_at, resources_at};
use khe_base::{EventId, NoMemory};
use khe_instance::Instance;
use std::alloc::Global;
use xhstt_references::Followed;
use xhstt_shape::EntryView;

/// The first cause of the first entry that has one, by what the entries name, or `None` where each
/// entry can stand.
///
/// It takes time in proportion to the events, and for each entry to what it gives and the places of
/// its event, on average; and memory in proportion to the events and to what one entry gives.
pub(crate) fn first_cause(
    alloc: Global,
    inst: &Instance,
    entries: &[EntryView<'_>],
    found: &Followed,
) -> Result<Option<Cause>, NoMemory>
    requires entries { All (IsEntry inst.now) entries.now }
    requires many { length found.now.named ≡ length entries.now }
    requires each { AreFound inst.now entries.now found.now.named found.now.given }
    ensures { IfOk result (λ cause. cause ≡ first_cause inst.now [] entries.now) }
{
    inst.facts();
    // How much of each event's duration is left.
    let mut left = durations_of(alloc, inst)?;
    for (number, entry) in entries.iter().enumerate() {
        let named = named_at(inst, entries, found, number);
        let event = inst.event(named.event);
        let resources = resources_at(found.given.as_slice(), named, entry);
        let rest = left[named.event.0 as usize];
        let used = event.duration - rest;
        let cause = cause_in(alloc, inst, event, used, entry, named.time, resources)?;
        if let Some(cause) = cause {
            let entry = number as u32;
            return Ok(Some(Cause { cause, entry }));
        }
        left[named.event.0 as usize] = rest - duration_of(event, entry);
    }
    Ok(None)
}

/// The durations of the events, in order.
fn durations_of(alloc: Global, inst: &Instance) -> Result<Vec<u32>, NoMemory>
    ensures { IfOk result (λ durations. durations.items ≡ map (λ e. e.duration) inst.now.events) }
{
    let mut durations = Vec::with_capacity(alloc, inst.events() as usize)?;
    for number in 0..inst.events() {
        durations.push(inst.event(EventId(number)).duration)?;
    }
    Ok(durations)
}
