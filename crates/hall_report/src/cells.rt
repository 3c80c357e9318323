//! The times at which resources are to be free.

ghost use Rattle.std.specs.Prelude.{◌≡◌, ◌<◌, ◌≤◌, ◌+◌, ◌*◌, length, IfOk};
ghost use Rattle.khe_base.specs.declared.limits.TheConstants.{CELLS};
ghost use Rattle.hall_report.specs.Opening.{AreCells, AreCellsTo, AreMarkedTo, resource_of};

use crate::start_sets::is_strict;
use khe_base::{IdSet, MonitorId, NoMemory, ResourceId, Seq};
use khe_instance::{Instance, Point, Rule};
use std::alloc::Global;

/// The cells, pairs of a resource and a time, that strict constraints want free, each once and
/// ascending: the number of a cell is that of the resource times the number of all times, and that
/// of the time. It takes time and memory in proportion to all cells, time also to the times once for
/// each strict constraint at a resource.
#[tactic(auto, using(crate::proofs::CellsOpened::cells_none, crate::proofs::CellsOpened::cells_done))]
pub(crate) fn free_cells(alloc: Global, inst: &Instance) -> Result<Seq<u32>, NoMemory>
    ensures { IfOk result (λ cells. AreCells inst.now cells) }
{
    inst.facts();
    let mut cells = IdSet::new(alloc, inst.resources() * inst.times())?;
    for number in 0..inst.monitors() {
        mark_by(inst, &mut cells, MonitorId(number));
    }
    cells.members(alloc)
}

// Marks the cells that a monitor wants free.
fn mark_by(inst: &Instance, cells: &mut IdSet, number: MonitorId)
    requires there { number.0 < length inst.now.monitors }
    requires cells { AreCellsTo inst.now number.0 cells.old }
    ensures { AreCellsTo inst.now (number.0 + 1) cells.new }
{
    inst.facts();
    let monitor = inst.monitor(number);
    let constraint = inst.constraint(monitor.constraint);
    if !is_strict(constraint) {
        return;
    }
    let Rule::AvoidUnavailableTimes { times } = &constraint.rule else {
        return;
    };
    let Some(resource) = resource_of(monitor.point) else {
        return;
    };
    mark_cells(cells, inst.times(), resource.0 * inst.times(), times);
}

// The resource of a point, where it is one.
fn resource_of(point: Point) -> Option<ResourceId>
    ensures { result ≡ resource_of point }
{
    match point {
        Point::Resource(resource) => Some(resource),
        _ => None,
    }
}

// Marks the cells of a resource, which begin at a number, at these times.
#[tactic(auto, using(crate::proofs::CellsOpened::marked_none, crate::proofs::CellsOpened::marked_on))]
fn mark_cells(cells: &mut IdSet, last: u32, first: u32, times: &IdSet)
    requires within { first + last ≤ length cells.old }
    requires small { length cells.old ≤ CELLS }
    ensures { AreMarkedTo first last times.now cells.old cells.new }
{
    for time in 0..last {
        if times.has(time) {
            cells.insert(first + time);
        }
    }
}
