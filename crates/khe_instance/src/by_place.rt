//! The monitors of an instance by the places of events.

ghost use Rattle.std.specs.Prelude.{length, IfOk, OnOk};
ghost use Rattle.khe_instance.specs.ByPlace.{AreByPlace, HasPlaces, HasPoint, is_place};
ghost use Rattle.khe_instance.specs.Listing.{IsAddedAt};

use crate::instances::Instance;
use crate::listing::no_lists;
use crate::monitor_tables::MonitorTable;
use crate::points::Point;
use khe_base::{EventId, MonitorId, NoMemory, Seq};
use std::alloc::Global;

/// The monitors of an instance at each place of each event: the ones that giving or taking a resource there may
/// change, except monitors of event groups. A row of the table is an event, a column a place of it.
///
/// It takes time and memory in proportion to the events, their places and the monitors.
pub fn monitors_by_place(alloc: Global, inst: &Instance) -> Result<MonitorTable, NoMemory>
    ensures { IfOk result (λ table. AreByPlace inst.now table) }
{
    inst.facts();
    let mut table = no_monitors(alloc, inst)?;
    for number in 0..inst.monitors() {
        let point = inst.monitor(MonitorId(number)).point;
        add_at_place(&mut table, point, number)?;
    }
    Ok(table)
}

/// A table without monitors, with a list for each place of each event.
fn no_monitors(alloc: Global, inst: &Instance) -> Result<MonitorTable, NoMemory>
    ensures { IfOk result (λ table. HasPlaces inst.now (length inst.now.events) table) }
{
    inst.facts();
    let mut rows = Seq::new(alloc);
    for event in 0..inst.events() {
        let places = inst.event(EventId(event)).places.len();
        rows.push(no_lists(alloc, places)?)?;
    }
    Ok(MonitorTable { rows })
}

/// Adds a monitor to the list of its place, if it is at one.
fn add_at_place(table: &mut MonitorTable, point: Point, monitor: u32) -> Result<(), NoMemory>
    requires { HasPoint point table.old }
    ensures { OnOk result (IsAddedAt (is_place point) monitor table.old table.new) }
{
    match point {
        Point::EventResource { event, place } => table.push(event.0, place, monitor),
        _ => Ok(()),
    }
}
