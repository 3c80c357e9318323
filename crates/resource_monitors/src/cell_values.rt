//! What a rule measures at a resource.

ghost use Rattle.std.specs.Prelude.{◌≡◌, ◌<◌, true, length, slice_index};
ghost use Rattle.khe_instance.specs.Deviation.{measured};
ghost use Rattle.khe_instance.specs.Kinds.{kind_of};
ghost use Rattle.khe_instance.specs.WellMade.{IsMonitor, IsRule};
ghost use Rattle.timetables.specs.Counts.{row_of};
ghost use Rattle.resource_monitors.specs.Cells.{is_at_cells, HasRows, value_in};
ghost use Rattle.resource_monitors.specs.Sets.{room_for, sets_of};

use crate::measures::{busy_outside, busy_sets_outside, busy_total, idle_outside};
use crate::rooms::TimeSets;
use crate::tables::CellTable;
use khe_base::ResourceId;
use khe_instance::{Instance, Monitor, Point, Rule};
use timetables::Mask;

/// What a rule measures at a resource, by the masks of its sets and the counts. It takes constant
/// time for AvoidClashes, and else time in proportion to the words, of 64 times each, from the first
/// time to the last of each set. It stands in its callers, so that clashes, which most changes ask for,
/// are read there.
#[inline(always)]
pub(crate) fn measure(
    inst: &Instance,
    rule: &Rule,
    masks: &[Mask],
    table: &CellTable,
    r: ResourceId,
) -> u64
    requires rule { IsRule inst.now rule.now }
    requires kind { is_at_cells (kind_of rule.now) ≡ true }
    requires masks { masks.now ≡ sets_of rule.now }
    requires resource { r.0 < length inst.now.resources }
    requires rows { HasRows inst.now table.now }
    ensures { result ≡ measured inst.now rule.now (slice_index (row_of table.now r.0)) 0 }
{
    inst.facts();
    match rule {
        Rule::AvoidClashes => table.clashes(r),
        Rule::AvoidUnavailableTimes { .. } => busy_total(table, r, masks),
        Rule::LimitIdleTimes { min, max, .. } => idle_outside(table, r, masks, *min, *max),
        Rule::ClusterBusyTimes { min, max, .. } => busy_sets_outside(table, r, masks, *min, *max),
        Rule::LimitBusyTimes { min, max, .. } => busy_outside(table, r, masks, *min, *max),
        Rule::LimitWorkload { .. } => unreachable!(),
        _ => 0,
    }
}

/// What a monitor measures at its resource.
#[inline(always)]
pub(crate) fn value(inst: &Instance, sets: &TimeSets, table: &CellTable, monitor: Monitor) -> u64
    requires monitor { IsMonitor inst.now monitor }
    requires kind { is_at_cells monitor.kind ≡ true }
    requires sets { sets.now ≡ room_for inst.now }
    requires rows { HasRows inst.now table.now }
    ensures { result ≡ value_in inst.now table.now monitor }
{
    inst.facts();
    let Point::Resource(r) = monitor.point else {
        return 0;
    };
    let rule = &inst.constraint(monitor.constraint).rule;
    measure(inst, rule, sets.masks_of(monitor.constraint), table, r)
}
