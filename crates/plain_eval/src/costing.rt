//! Costs and totals by deviations.

ghost use Rattle.std.specs.Prelude.{◌≡◌, ◌≤◌, ◌+◌, ◌^◌, ◌<◌, if◌then◌else◌, All, IfOk, ℕ, length};
ghost use Rattle.khe_base.specs.IdSet.{has_member};
ghost use Rattle.khe_base.specs.declared.limits.TheConstants.{GREATEST_COST, GREATEST_DEVIATION, GREATEST_TOTAL};
ghost use Rattle.khe_instance.specs.Costs.{monitor_cost, is_hard, is_hard_at, totals_of};
ghost use Rattle.khe_instance.specs.Evaluated as evaluated;
ghost use Rattle.khe_instance.specs.States.{IsValid};
ghost use Rattle.khe_instance.specs.WellMade.{IsMonitor};

use khe_base::{IdSet, MonitorId, NoMemory, Seq, Totals, cost};
use khe_instance::{Instance, Monitor, Plain};
use std::alloc::Global;

/// What the monitors cost by their deviations. It takes time and memory in proportion to the
/// monitors.
pub(crate) fn costs_of(
    alloc: Global,
    inst: &Instance,
    plain: &Plain,
    deviations: &[u64],
) -> Result<Seq<u128>, NoMemory>
    requires state { IsValid inst.now plain.now }
    requires deviations { deviations.now ≡ evaluated.deviations inst.now plain.now }
    requires small { All (λ d. d ≤ GREATEST_DEVIATION) deviations.now }
    ensures costs { IfOk result (λ costs. costs ≡ evaluated.costs inst.now plain.now) }
    ensures small { IfOk result (λ costs. All (λ c. c ≤ GREATEST_COST) costs) }
{
    inst.facts();
    let detached = detached(alloc, inst, plain)?;
    let mut costs = Seq {
        items: Vec::with_capacity(alloc, deviations.len())?,
    };
    for (number, deviation) in deviations.iter().enumerate() {
        let number = number as u32;
        let monitor = inst.monitor(MonitorId(number));
        let cost = cost_at(inst, monitor, detached.has(number), *deviation);
        costs.push(cost)?;
    }
    Ok(costs)
}

/// The totals of the costs of all monitors. It takes time in proportion to the monitors, and no
/// memory.
pub(crate) fn totals_of(inst: &Instance, costs: &[u128]) -> Totals
    requires all { length costs.now ≡ length inst.now.monitors }
    requires small { All (λ c. c ≤ GREATEST_COST) costs.now }
    ensures exact { result ≡ totals_of inst.now costs.now }
    ensures hard { result.hard ≤ GREATEST_TOTAL }
    ensures soft { result.soft ≤ GREATEST_TOTAL }
{
    inst.facts();
    let mut totals = Totals { hard: 0, soft: 0 };
    for (number, cost) in costs.iter().enumerate() {
        totals = with_cost_of(inst, totals, MonitorId(number as u32), *cost);
    }
    totals
}

/// The totals with the cost of one more monitor; what costs nothing is not looked up.
fn with_cost_of(inst: &Instance, totals: Totals, monitor: MonitorId, cost: u128) -> Totals
    requires monitor { monitor.0 < length inst.now.monitors }
    requires hard { totals.hard + cost < 2 ^ 128 }
    requires soft { totals.soft + cost < 2 ^ 128 }
    ensures hard { result.hard ≡ totals.hard + (if is_hard_at inst.now monitor.0 then cost else 0) }
    ensures soft { result.soft ≡ totals.soft + (if is_hard_at inst.now monitor.0 then 0 else cost) }
{
    if cost == 0 {
        return totals;
    }
    inst.facts();
    let monitor = inst.monitor(monitor);
    with_cost(totals, cost, is_hard(inst, monitor))
}

/// The set of the detached monitors.
fn detached(alloc: Global, inst: &Instance, plain: &Plain) -> Result<IdSet, NoMemory>
    requires { IsValid inst.now plain.now }
    ensures { IfOk result (λ s. (m : ℕ) → has_member s m ≡ evaluated.is_detached plain.now m) }
{
    let mut detached = IdSet::new(alloc, inst.monitors())?;
    for monitor in plain.detached.as_slice() {
        detached.insert(monitor.0);
    }
    Ok(detached)
}

/// The cost of a monitor by its deviation: nothing where it is detached, or does not deviate.
fn cost_at(inst: &Instance, monitor: Monitor, detached: bool, deviation: u64) -> u128
    requires monitor { IsMonitor inst.now monitor }
    requires deviation { deviation ≤ GREATEST_DEVIATION }
    ensures exact { result ≡ monitor_cost inst.now detached monitor deviation }
    ensures small { result ≤ GREATEST_COST }
{
    if detached || deviation == 0 {
        return 0;
    }
    inst.facts();
    let constraint = inst.constraint(monitor.constraint);
    cost(constraint.cost, constraint.weight, deviation)
}

/// Whether the cost of a monitor is hard.
fn is_hard(inst: &Instance, monitor: Monitor) -> bool
    requires { IsMonitor inst.now monitor }
    ensures { result ≡ is_hard inst.now monitor }
{
    inst.constraint(monitor.constraint).required
}

/// The totals with one more cost.
fn with_cost(totals: Totals, cost: u128, hard: bool) -> Totals
    requires hard { totals.hard + cost < 2 ^ 128 }
    requires soft { totals.soft + cost < 2 ^ 128 }
    ensures hard { result.hard ≡ totals.hard + (if hard then cost else 0) }
    ensures soft { result.soft ≡ totals.soft + (if hard then 0 else cost) }
{
    if hard {
        Totals {
            hard: totals.hard + cost,
            soft: totals.soft,
        }
    } else {
        Totals {
            hard: totals.hard,
            soft: totals.soft + cost,
        }
    }
}
