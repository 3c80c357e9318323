//! How many meets each event is cut into.

ghost use Rattle.std.specs.Prelude.{ℕ, ◌≡◌, ◌<◌, Some, None, false, IfOk, MatchOption, length, slice_get, slice_index_or, slice_set};
ghost use Rattle.construct.specs.Amounts.{AreAmounts, AreBoundsFrom, AreNarrowed, AreWidest};
ghost use Rattle.construct.specs.Cuts.{amount_of, bounds_of, is_event, narrowed};
ghost use Rattle.khe_instance.specs.WellMade.{IsMonitor};
ghost use Rattle.khe_instance.specs.declared.parts.EventInfo.{EventInfo as Info};
ghost use Rattle.khe_instance.specs.declared.points.Point.TheVariants as points;

use crate::bounds::{Bounds, bounds_in, least_amount, narrowed, widest};
use khe_base::{EventId, MonitorId, NoMemory};
use khe_instance::{Instance, Monitor, Point};
use std::alloc::Global;

/// How many meets each event has at first. It takes time in proportion to the monitors and the meet slots,
/// and memory in proportion to the events.
pub(crate) fn amounts_of(alloc: Global, inst: &Instance) -> Result<Vec<u32>, NoMemory>
    ensures { IfOk result (λ v. AreAmounts inst.now (length inst.now.events) v.items) }
{
    let table = bounds_table(alloc, inst)?;
    let mut amounts = Vec::with_capacity(alloc, inst.events() as usize)?;
    for number in 0..inst.events() {
        let bounds = table[number as usize];
        amounts.push(amount_of(inst, EventId(number), bounds))?;
    }
    Ok(amounts)
}

/// How many meets an event has at first, whose meets have these bounds.
#[tactic(auto, unfolding(crate::specs::Cuts::amount_of))]
fn amount_of(inst: &Instance, event: EventId, bounds: Bounds) -> u32
    requires there { event.0 < length inst.now.events }
    requires own { (info : Info) → slice_get inst.now.events event.0 ≡ Some info → bounds ≡ bounds_of inst.now event.0 info.duration }
    ensures { (info : Info) → slice_get inst.now.events event.0 ≡ Some info → result ≡ amount_of inst.now event.0 info }
{
    let info = inst.event(event);
    if info.fixed.is_some() {
        1
    } else {
        least_amount(bounds, info.duration)
    }
}

/// The bounds to the meets of each event.
fn bounds_table(alloc: Global, inst: &Instance) -> Result<Vec<Bounds>, NoMemory>
    ensures { IfOk result (λ v. AreBoundsFrom inst.now (length inst.now.monitors) v.items) }
{
    inst.facts();
    let mut table = widest_table(alloc, inst)?;
    for number in 0..inst.monitors() {
        narrow(inst, inst.monitor(MonitorId(number)), &mut table);
    }
    Ok(table)
}

/// The bounds that the meets of each event keep by themselves.
fn widest_table(alloc: Global, inst: &Instance) -> Result<Vec<Bounds>, NoMemory>
    ensures { IfOk result (λ v. AreWidest inst.now (length inst.now.events) v.items) }
{
    let mut table = Vec::with_capacity(alloc, inst.events() as usize)?;
    for number in 0..inst.events() {
        let info = inst.event(EventId(number));
        table.push(widest(info.duration))?;
    }
    Ok(table)
}

/// The event that a point is, if it is one.
fn event_of(point: Point) -> Option<EventId>
    ensures { MatchOption result ((e : ℕ) → is_event e point ≡ false) (λ own. point ≡ points.Event own) }
{
    match point {
        Point::Event(event) => Some(event),
        Point::EventResource { .. } => None,
        Point::EventGroup(_) => None,
        Point::EventPair(_) => None,
        Point::Resource(_) => None,
    }
}

/// Narrows the bounds of the event that a Split Events monitor is at.
fn narrow(inst: &Instance, monitor: Monitor, table: &mut Vec<Bounds>)
    requires of { IsMonitor inst.now monitor }
    requires many { length table.old.items ≡ length inst.now.events }
    ensures { AreNarrowed inst.now monitor table.old.items table.new.items }
{
    let Some(event) = event_of(monitor.point) else {
        return;
    };
    if let Some(more) = bounds_in(&inst.constraint(monitor.constraint).rule) {
        narrow_at(table, event, more);
    }
}

/// Narrows the bounds of an event.
fn narrow_at(table: &mut Vec<Bounds>, event: EventId, more: Bounds)
    requires { event.0 < length table.old.items }
    ensures { table.new.items ≡ slice_set table.old.items event.0 (narrowed (slice_index_or table.old.items event.0 more) more) }
{
    let own = table[event.0 as usize];
    table[event.0 as usize] = narrowed(own, more);
}
