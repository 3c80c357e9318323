//! The pair of events that a monitor watches, and its deviation.

ghost use Rattle.std.specs.Prelude.{◌≡◌, ◌≤◌, ◌<◌, length};
ghost use Rattle.khe_base.specs.declared.limits.TheConstants.{GREATEST_DEVIATION};
ghost use Rattle.khe_instance.specs.WellMade.{IsMonitor};
ghost use Rattle.set_monitors.specs.OrderPairs.{gap as gap_of, pair_at, value_of};

use crate::meet_edges::Edges;
use khe_base::out;
use khe_instance::{EventPair, Instance, Monitor, Point, Rule};

/// The pair of events that a monitor watches, or `None` where it is of another kind.
pub(crate) fn pair_of(inst: &Instance, monitor: Monitor) -> Option<EventPair>
    requires { monitor.constraint < length inst.now.constraints }
    ensures { result ≡ pair_at inst.now monitor }
{
    let Rule::OrderEvents { pairs } = &inst.constraint(monitor.constraint).rule else {
        return None;
    };
    let Point::EventPair(pair) = monitor.point else {
        return None;
    };
    pairs.as_slice().get(pair as usize).copied()
}

/// The deviation of a monitor, by when the meets of all events start and end. It takes constant
/// time and no memory.
pub(crate) fn value(inst: &Instance, edges: &[Edges], monitor: Monitor) -> u64
    requires monitor { IsMonitor inst.now monitor }
    requires rows { length edges.now ≡ length inst.now.events }
    ensures value { result ≡ value_of inst.now edges.now monitor }
    ensures small { result ≤ GREATEST_DEVIATION }
{
    inst.facts();
    let Some(pair) = pair_of(inst, monitor) else {
        return 0;
    };
    let first = &edges[pair.first.0 as usize];
    let second = &edges[pair.second.0 as usize];
    gap(first, second, pair)
}

/// How far the times between the meets of the first event and those of the second lie outside the
/// bounds, where both have a start; the second may start before the first ends.
fn gap(first: &Edges, second: &Edges, pair: EventPair) -> u64
    ensures value { result ≡ gap_of first.now second.now pair }
    ensures small { result ≤ GREATEST_DEVIATION }
{
    let Some(end) = first.last_end() else {
        return 0;
    };
    let Some(start) = second.first_start() else {
        return 0;
    };
    let times_between = i64::from(start) - i64::from(end);
    out(times_between, i64::from(pair.min), i64::from(pair.max))
}
