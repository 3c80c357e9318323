//! Rows of the kinds at resources.

use crate::archives::resolved_of;
use crate::bench::Bench;
use crate::moves::{Move, Row, holds, stands_at};
use khe_base::NoMemory;
use khe_instance::Instance;
use khe_told::Family;
use resource_monitors::{AvoidClashes, LimitBusyTimes, LimitIdleTimes, LimitWorkload};
use std::alloc::Global;
use std::test::Fail;
use xhstt_resolve::Resolved;

const THREE_TIMES: &str = r#"<Event Id="E"><Duration>3</Duration><Workload>4</Workload>
<Resources><Resource><Role>R</Role><ResourceType Reference="X"/></Resource></Resources></Event>"#;

/// An event with two places, and one with a third.
const THREE_PLACES: &str = r#"<Event Id="E"><Duration>1</Duration>
<Resources><Resource><Role>R</Role><ResourceType Reference="X"/></Resource><Resource><Role>S</Role><ResourceType Reference="X"/></Resource></Resources></Event>
<Event Id="F"><Duration>1</Duration>
<Resources><Resource><Role>R</Role><ResourceType Reference="X"/></Resource></Resources></Event>"#;

/// An event of two times with two places.
const TWO_PLACES: &str = r#"<Event Id="E"><Duration>2</Duration>
<Resources><Resource><Role>R</Role><ResourceType Reference="X"/></Resource><Resource><Role>S</Role><ResourceType Reference="X"/></Resource></Resources></Event>"#;

const IDLE: &str =
    r#"<LimitIdleTimesConstraint Id="c"><Required>true</Required><Weight>1</Weight><CostFunction>Linear</CostFunction>
<AppliesTo><Resources><Resource Reference="r0"/></Resources></AppliesTo>
<TimeGroups><TimeGroup Reference="day"/></TimeGroups><Minimum>0</Minimum><Maximum>0</Maximum></LimitIdleTimesConstraint>"#;

const BUSY: &str =
    r#"<LimitBusyTimesConstraint Id="c"><Required>true</Required><Weight>1</Weight><CostFunction>Linear</CostFunction>
<AppliesTo><Resources><Resource Reference="r0"/></Resources></AppliesTo>
<TimeGroups><TimeGroup Reference="day"/></TimeGroups><Minimum>2</Minimum><Maximum>3</Maximum></LimitBusyTimesConstraint>"#;

const AT_MOST_ONE: &str =
    r#"<LimitWorkloadConstraint Id="c"><Required>true</Required><Weight>1</Weight><CostFunction>Linear</CostFunction>
<AppliesTo><Resources><Resource Reference="r0"/></Resources></AppliesTo>
<Minimum>0</Minimum><Maximum>1</Maximum></LimitWorkloadConstraint>"#;

const AT_MOST_FOUR: &str =
    r#"<LimitWorkloadConstraint Id="c"><Required>true</Required><Weight>1</Weight><CostFunction>Linear</CostFunction>
<AppliesTo><Resources><Resource Reference="r0"/></Resources></AppliesTo>
<Minimum>0</Minimum><Maximum>4</Maximum></LimitWorkloadConstraint>"#;

const TWO_OR_THREE: &str =
    r#"<LimitWorkloadConstraint Id="c"><Required>true</Required><Weight>1</Weight><CostFunction>Linear</CostFunction>
<AppliesTo><Resources><Resource Reference="r0"/></Resources></AppliesTo>
<Minimum>2</Minimum><Maximum>3</Maximum></LimitWorkloadConstraint>"#;

const CLASHES: &str =
    r#"<AvoidClashesConstraint Id="c"><Required>true</Required><Weight>1</Weight><CostFunction>Linear</CostFunction>
<AppliesTo><Resources><Resource Reference="r0"/></Resources></AppliesTo></AvoidClashesConstraint>"#;

/// Busy at one time, and then at the first, the third and the fifth of a day.
const IDLE_TIMES: Row = (
    (THREE_TIMES, IDLE),
    &[
        (Move::Add(0, 1), 0),
        (Move::Add(1, 1), 0),
        (Move::Add(2, 1), 0),
        (Move::Place(0, 0), 0),
        (Move::Place(1, 2), 0),
        (Move::Place(2, 4), 0),
        (Move::Give(1, 0, 0), 0),
        (Move::Give(0, 0, 0), 1),
        (Move::Give(2, 0, 0), 2),
        (Move::Take(1, 0, 0), 3),
    ],
);

/// A day without a busy time is left alone.
const BUSY_TIMES: Row = (
    (THREE_TIMES, BUSY),
    &[
        (Move::Add(0, 1), 0),
        (Move::Give(0, 0, 0), 0),
        (Move::Place(0, 2), 1),
        (Move::Lift(0, 2), 0),
    ],
);

/// A third is too much.
const ONE_PART: Row = (
    (THREE_TIMES, AT_MOST_ONE),
    &[(Move::Add(0, 1), 0), (Move::Give(0, 0, 0), 1)],
);

/// Three parts that are whole together are not too much: no part is rounded by itself.
const ALL_PARTS: Row = (
    (THREE_TIMES, AT_MOST_FOUR),
    &[
        (Move::Add(0, 1), 0),
        (Move::Add(1, 1), 0),
        (Move::Add(2, 1), 0),
        (Move::Give(0, 0, 0), 0),
        (Move::Give(1, 0, 0), 0),
        (Move::Give(2, 0, 0), 0),
    ],
);

/// Two thirds are missing.
const TOO_LITTLE: Row = (
    (THREE_TIMES, TWO_OR_THREE),
    &[(Move::Add(0, 1), 2), (Move::Give(0, 0, 0), 1)],
);

/// Three tasks at one time, two of them of one meet.
const THREE_TASKS: Row = (
    (THREE_PLACES, CLASHES),
    &[
        (Move::Add(0, 1), 0),
        (Move::Add(1, 1), 0),
        (Move::Place(0, 1), 0),
        (Move::Place(1, 1), 0),
        (Move::Give(0, 0, 0), 0),
        (Move::Give(1, 0, 0), 1),
        (Move::Give(0, 1, 0), 2),
    ],
);

/// Two tasks of a meet of two times.
const TWO_TASKS: &[Move] = &[
    Move::Add(0, 2),
    Move::Place(0, 0),
    Move::Give(0, 0, 0),
    Move::Give(0, 1, 0),
];

#[test]
fn kinds_at_resources(rt: HostRuntime) -> Result<(), Fail> {
    assert!(rt; holds::<LimitIdleTimes>(rt.alloc(), &IDLE_TIMES)?);
    assert!(rt; holds::<LimitBusyTimes>(rt.alloc(), &BUSY_TIMES)?);
    assert!(rt; holds::<LimitWorkload>(rt.alloc(), &ONE_PART)?);
    assert!(rt; holds::<LimitWorkload>(rt.alloc(), &ALL_PARTS)?);
    assert!(rt; holds::<LimitWorkload>(rt.alloc(), &TOO_LITTLE)?);
    assert!(rt; holds::<AvoidClashes>(rt.alloc(), &THREE_TASKS)?);
    Ok(())
}

/// Whether a resource clashes at two times, and a deviation is set at most twice when one task loses
/// it.
fn takes_one_of_two<F: Family + Drop>(bench: &mut Bench<'_, F>) -> bool {
    for each in TWO_TASKS {
        if !bench.note(each.change()) {
            return false;
        }
    }
    let clashed = stands_at(bench, 0, 2);
    let before = bench.calls();
    let taken = bench.note(Move::Take(0, 1, 0).change());
    let calls = bench.calls().saturating_sub(before);
    clashed && taken && stands_at(bench, 0, 0) && calls <= 2
}

fn takes_on<F: Family + Drop>(alloc: Global, inst: &Instance) -> Result<bool, NoMemory>
    requires { F.IsWellJoined }
{
    let mut bench = Bench::<F>::open(alloc, inst)?;
    Ok(takes_one_of_two(&mut bench))
}

fn takes_from(alloc: Global, resolved: &Resolved) -> Result<bool, NoMemory> {
    match resolved.instances.as_slice().first() {
        Some(inst) => takes_on::<AvoidClashes>(alloc, inst),
        None => Ok(false),
    }
}

fn takes(alloc: Global) -> Result<bool, NoMemory> {
    match resolved_of(alloc, (TWO_PLACES, CLASHES)) {
        Some(resolved) => takes_from(alloc, &resolved),
        None => Ok(false),
    }
}

#[test]
fn one_of_two_clashing_tasks_is_taken(rt: HostRuntime) -> Result<(), Fail> {
    assert!(rt; takes(rt.alloc())?);
    Ok(())
}
