//! What a rule measures of a workload.

ghost use Rattle.std.specs.Prelude.{◌≡◌, ◌*◌, ◌<◌, ◌≤◌, ℕ, length, slice_index};
ghost use Rattle.khe_base.specs.Bounds.{count_outside};
ghost use Rattle.khe_base.specs.declared.limits.TheConstants.{GREATEST_DEVIATION, UNIT};
ghost use Rattle.khe_instance.specs.ResourceDeviation.{rounded_up};
ghost use Rattle.khe_instance.specs.WellMade.{IsMonitor, IsRule};
ghost use Rattle.resource_monitors.specs.Loads.{outside, value_in};

use khe_instance::{Instance, Monitor, Point, Rule};

/// How far the workload of a monitor's resource lies outside its bounds, rounded up to a whole
/// number. It takes constant time.
pub(crate) fn value(inst: &Instance, loads: &[u128], monitor: Monitor) -> u64
    requires monitor { IsMonitor inst.now monitor }
    requires loads { length loads.now ≡ length inst.now.resources }
    requires small { (r : ℕ) → slice_index loads.now r ≤ GREATEST_DEVIATION * inst.now.unit }
    ensures { result ≡ value_in inst.now loads.now monitor }
{
    inst.facts();
    let Point::Resource(r) = monitor.point else {
        return 0;
    };
    let rule = &inst.constraint(monitor.constraint).rule;
    measure(inst, rule, loads[r.0 as usize])
}

/// How far a workload, in parts of one over the unit, lies outside the bounds of a rule.
pub(crate) fn measure(inst: &Instance, rule: &Rule, load: u128) -> u64
    requires rule { IsRule inst.now rule.now }
    requires load { load ≤ GREATEST_DEVIATION * inst.now.unit }
    ensures { result ≡ outside inst.now rule.now load }
{
    inst.facts();
    match rule {
        Rule::LimitWorkload { min, max } => rounded_outside(load, inst.unit(), *min, *max),
        _ => 0,
    }
}

/// How far a workload lies outside these bounds, rounded up to a whole number.
fn rounded_outside(load: u128, unit: u64, least: u32, greatest: u32) -> u64
    requires unit { 0 < unit }
    requires greatest_unit { unit ≤ UNIT }
    requires load { load ≤ GREATEST_DEVIATION * unit }
    requires least { least ≤ GREATEST_DEVIATION }
    ensures { result ≡ rounded_up (count_outside load (least * unit) (greatest * unit)) unit }
{
    let unit = u128::from(unit);
    let least = u128::from(least) * unit;
    let greatest = u128::from(greatest) * unit;
    let parts = if load < least {
        least - load
    } else {
        load.saturating_sub(greatest)
    };
    ((parts + unit - 1) / unit) as u64
}
