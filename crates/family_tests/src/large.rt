//! An event of 100,000 times in meets of one time each, to see that no change walks over all of them.

use crate::all_kinds::ALL_KINDS;
use crate::archives::resolved_of;
use crate::bench::Bench;
use crate::moves::{Move, stands_at};
use event_monitors::{
    AssignResource, AssignTime, DistributeSplitEvents, PreferResources, PreferTimes, SplitEvents,
};
use khe_base::NoMemory;
use khe_told::{Change, Family};
use resource_monitors::{
    AvoidClashes, AvoidUnavailableTimes, ClusterBusyTimes, LimitBusyTimes, LimitIdleTimes,
    LimitWorkload,
};
use set_monitors::{AvoidSplitAssignments, LinkEvents, OrderEvents, SpreadEvents};
use sixteen_families::Families;
use std::alloc::Global;
use std::test::Fail;
use xhstt_resolve::Resolved;

/// The meets.
const MEETS: u32 = 100_000;

/// How often all is done with one family.
const OFTEN: u32 = 20;

/// The deviation of the monitor of each kind where each meet has a start and its task a resource.
const WHOLE: &[u64] = &[
    0, 0, 100_000, 100_000, 90_000, 100_000, 0, 100_000, 0, 10, 99_990, 10, 0, 1, 10, 100_000,
];

/// The same where no meet has a start and no task a resource.
const BARE: &[u64] = &[
    100_000, 100_000, 100_000, 100_000, 0, 0, 0, 0, 0, 0, 0, 0, 0, 0, 0, 0,
];

/// The same where there are no meets.
const EMPTY: &[u64] = &[0, 0, 0, 0, 0, 0, 0, 0, 0, 0, 0, 0, 0, 0, 0, 0];

/// The first of a family's monitors, and the number after the last.
type Monitors = (u32, u32);

const EVENT: &str =
    r#"<Event Id="E"><Duration>100000</Duration><EventGroups><EventGroup Reference="g"/></EventGroups>
<Resources><Resource><Role>R</Role><ResourceType Reference="X"/></Resource></Resources></Event>"#;

/// What is done to each meet.
#[derive(Clone, Copy)]
enum Phase {
    Add,
    Place,
    Give,
}

impl Phase {
    fn change(self, meet: u32) -> Change {
        match self {
            Phase::Add => Move::Add(meet, 1).change(),
            Phase::Place => Move::Place(meet, meet % 10).change(),
            Phase::Give => Move::Give(meet, 0, 0).change(),
        }
    }
}

/// Whether a change of each meet fits, from the first meet to the last.
fn forth<F: Family + Drop>(bench: &mut Bench<'_, F>, phase: Phase) -> bool {
    for meet in 0..MEETS {
        if !bench.note(phase.change(meet)) {
            return false;
        }
    }
    true
}

/// Whether the inverse of each change fits, from the last meet to the first.
fn back<F: Family + Drop>(bench: &mut Bench<'_, F>, phase: Phase) -> bool {
    for done in 0..MEETS {
        let meet = MEETS - 1 - done;
        if !bench.note(phase.change(meet).inverse()) {
            return false;
        }
    }
    true
}

/// Whether monitors deviate as the table has it.
fn stand<F: Family + Drop>(bench: &Bench<'_, F>, monitors: Monitors, amounts: &[u64]) -> bool {
    for monitor in monitors.0..monitors.1 {
        let Some(amount) = amounts.get(monitor as usize) else {
            return false;
        };
        if !stands_at(bench, monitor, *amount) {
            return false;
        }
    }
    true
}

/// Whether monitors deviate as the tables have it, when each meet has a start and its task a
/// resource, when none has, and when there are none.
fn turns<F: Family + Drop>(bench: &mut Bench<'_, F>, monitors: Monitors) -> bool {
    forth(bench, Phase::Add)
        && forth(bench, Phase::Place)
        && forth(bench, Phase::Give)
        && stand(bench, monitors, WHOLE)
        && back(bench, Phase::Give)
        && back(bench, Phase::Place)
        && stand(bench, monitors, BARE)
        && back(bench, Phase::Add)
        && stand(bench, monitors, EMPTY)
}

/// Whether they do so the given number of times over.
fn turns_often<F: Family + Drop>(
    bench: &mut Bench<'_, F>,
    monitors: Monitors,
    rounds: u32,
) -> bool {
    for _ in 0..rounds {
        if !turns(bench, monitors) {
            return false;
        }
    }
    true
}

fn turns_from<F: Family + Drop>(
    alloc: Global,
    resolved: &Resolved,
    monitors: Monitors,
    rounds: u32,
) -> Result<bool, NoMemory>
    requires { F.IsWellJoined }
{
    let Some(inst) = resolved.instances.as_slice().first() else {
        return Ok(false);
    };
    let mut bench = Bench::<F>::open(alloc, inst)?;
    Ok(turns_often(&mut bench, monitors, rounds))
}

/// Whether a family's monitors deviate so, the given number of times over.
fn holds<F: Family + Drop>(alloc: Global, monitors: Monitors, rounds: u32) -> Result<bool, NoMemory>
    requires { F.IsWellJoined }
{
    match resolved_of(alloc, (EVENT, ALL_KINDS)) {
        Some(resolved) => turns_from::<F>(alloc, &resolved, monitors, rounds),
        None => Ok(false),
    }
}

#[test]
fn assign_time(rt: HostRuntime) -> Result<(), Fail> {
    assert!(rt; holds::<AssignTime>(rt.alloc(), (0, 1), OFTEN)?);
    Ok(())
}

#[test]
fn assign_resource(rt: HostRuntime) -> Result<(), Fail> {
    assert!(rt; holds::<AssignResource>(rt.alloc(), (1, 2), OFTEN)?);
    Ok(())
}

#[test]
fn split_events(rt: HostRuntime) -> Result<(), Fail> {
    assert!(rt; holds::<SplitEvents>(rt.alloc(), (2, 3), OFTEN)?);
    Ok(())
}

#[test]
fn distribute_split_events(rt: HostRuntime) -> Result<(), Fail> {
    assert!(rt; holds::<DistributeSplitEvents>(rt.alloc(), (3, 4), OFTEN)?);
    Ok(())
}

#[test]
fn prefer_times(rt: HostRuntime) -> Result<(), Fail> {
    assert!(rt; holds::<PreferTimes>(rt.alloc(), (4, 5), OFTEN)?);
    Ok(())
}

#[test]
fn prefer_resources(rt: HostRuntime) -> Result<(), Fail> {
    assert!(rt; holds::<PreferResources>(rt.alloc(), (5, 6), OFTEN)?);
    Ok(())
}

#[test]
fn avoid_split_assignments(rt: HostRuntime) -> Result<(), Fail> {
    assert!(rt; holds::<AvoidSplitAssignments>(rt.alloc(), (6, 7), OFTEN)?);
    Ok(())
}

#[test]
fn spread_events(rt: HostRuntime) -> Result<(), Fail> {
    assert!(rt; holds::<SpreadEvents>(rt.alloc(), (7, 8), OFTEN)?);
    Ok(())
}

#[test]
fn link_events(rt: HostRuntime) -> Result<(), Fail> {
    assert!(rt; holds::<LinkEvents>(rt.alloc(), (8, 9), OFTEN)?);
    Ok(())
}

#[test]
fn order_events(rt: HostRuntime) -> Result<(), Fail> {
    assert!(rt; holds::<OrderEvents>(rt.alloc(), (9, 10), OFTEN)?);
    Ok(())
}

#[test]
fn avoid_clashes(rt: HostRuntime) -> Result<(), Fail> {
    assert!(rt; holds::<AvoidClashes>(rt.alloc(), (10, 11), OFTEN)?);
    Ok(())
}

#[test]
fn avoid_unavailable_times(rt: HostRuntime) -> Result<(), Fail> {
    assert!(rt; holds::<AvoidUnavailableTimes>(rt.alloc(), (11, 12), OFTEN)?);
    Ok(())
}

#[test]
fn limit_idle_times(rt: HostRuntime) -> Result<(), Fail> {
    assert!(rt; holds::<LimitIdleTimes>(rt.alloc(), (12, 13), OFTEN)?);
    Ok(())
}

#[test]
fn cluster_busy_times(rt: HostRuntime) -> Result<(), Fail> {
    assert!(rt; holds::<ClusterBusyTimes>(rt.alloc(), (13, 14), OFTEN)?);
    Ok(())
}

#[test]
fn limit_busy_times(rt: HostRuntime) -> Result<(), Fail> {
    assert!(rt; holds::<LimitBusyTimes>(rt.alloc(), (14, 15), OFTEN)?);
    Ok(())
}

#[test]
fn limit_workload(rt: HostRuntime) -> Result<(), Fail> {
    assert!(rt; holds::<LimitWorkload>(rt.alloc(), (15, 16), OFTEN)?);
    Ok(())
}

#[test]
fn all_kinds(rt: HostRuntime) -> Result<(), Fail> {
    assert!(rt; holds::<Families>(rt.alloc(), (0, 16), 1)?);
    Ok(())
}
