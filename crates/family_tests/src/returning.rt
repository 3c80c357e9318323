//! Changes and then their inverses, in the opposite order.

use crate::all_kinds::ALL_KINDS;
use crate::archives::resolved_of;
use crate::bench::Bench;
use crate::moves::Move;
use khe_base::NoMemory;
use khe_instance::Instance;
use khe_told::Family;
use sixteen_families::Families;
use std::alloc::Global;
use std::test::Fail;
use xhstt_resolve::Resolved;

/// The meet slots of the instance.
const SLOTS: u32 = 9;

/// The monitors of the instance.
const MONITORS: u32 = 16;

/// Two events of a group, of six and three times.
const EVENTS: &str =
    r#"<Event Id="E"><Duration>6</Duration><EventGroups><EventGroup Reference="g"/></EventGroups>
<Resources><Resource><Role>R</Role><ResourceType Reference="X"/></Resource></Resources></Event>
<Event Id="F"><Duration>3</Duration><EventGroups><EventGroup Reference="g"/></EventGroups>
<Resources><Resource><Role>R</Role><ResourceType Reference="X"/></Resource></Resources></Event>"#;

const FORTY: &[Move] = &[
    Move::Add(0, 2),
    Move::Add(6, 1),
    Move::Place(0, 0),
    Move::Give(0, 0, 0),
    Move::Add(2, 3),
    Move::Place(2, 7),
    Move::Give(2, 0, 1),
    Move::Add(7, 2),
    Move::Give(7, 0, 0),
    Move::Place(7, 2),
    Move::Place(6, 8),
    Move::Give(6, 0, 0),
    Move::Take(0, 0, 0),
    Move::Lift(0, 0),
    Move::Drop(0, 2),
    Move::Add(0, 1),
    Move::Add(1, 1),
    Move::Place(0, 3),
    Move::Place(1, 3),
    Move::Give(0, 0, 1),
    Move::Give(1, 0, 0),
    Move::Lift(7, 2),
    Move::Place(7, 3),
    Move::Take(2, 0, 1),
    Move::Give(2, 0, 0),
    Move::Lift(2, 7),
    Move::Place(2, 5),
    Move::Add(5, 1),
    Move::Give(5, 0, 0),
    Move::Place(5, 9),
    Move::Lift(1, 3),
    Move::Take(1, 0, 0),
    Move::Drop(1, 1),
    Move::Take(6, 0, 0),
    Move::Lift(6, 8),
    Move::Give(6, 0, 1),
    Move::Place(6, 9),
    Move::Take(0, 0, 1),
    Move::Give(0, 0, 0),
    Move::Lift(5, 9),
];

/// Whether two benches were told the same of each monitor.
fn agree<F: Family + Drop>(first: &Bench<'_, F>, second: &Bench<'_, F>) -> bool {
    for monitor in 0..MONITORS {
        if first.asked(monitor).is_none() || first.deviation(monitor) != second.deviation(monitor) {
            return false;
        }
    }
    true
}

/// Whether two benches have the same meets and tasks.
fn are_alike<F: Family + Drop>(first: &Bench<'_, F>, second: &Bench<'_, F>) -> bool {
    for meet in 0..SLOTS {
        if first.span(meet) != second.span(meet) || first.given(meet) != second.given(meet) {
            return false;
        }
    }
    true
}

/// Whether the first `count` changes fit.
fn noted<F: Family + Drop>(bench: &mut Bench<'_, F>, count: usize) -> bool {
    for each in FORTY.iter().take(count) {
        if !bench.note(each.change()) {
            return false;
        }
    }
    true
}

/// Whether the inverse of a change fits, and leads to where the changes before it do.
fn leads_back<F: Family + Drop>(
    alloc: Global,
    inst: &Instance,
    bench: &mut Bench<'_, F>,
    change: (usize, Move),
) -> Result<bool, NoMemory>
    requires { F.IsWellJoined }
{
    let (number, each) = change;
    let mut before = Bench::<F>::open(alloc, inst)?;
    Ok(
        bench.note(each.change().inverse())
            && noted(&mut before, number)
            && are_alike(bench, &before)
            && agree(bench, &before),
    )
}

/// Whether each change's inverse leads back by one, from the last change to the first.
fn all_lead_back<F: Family + Drop>(
    alloc: Global,
    inst: &Instance,
    bench: &mut Bench<'_, F>,
) -> Result<bool, NoMemory>
    requires { F.IsWellJoined }
{
    for (number, each) in FORTY.iter().enumerate().rev() {
        if !leads_back(alloc, inst, bench, (number, *each))? {
            return Ok(false);
        }
    }
    Ok(true)
}

/// Whether all changes fit, and each one's inverse leads back by one.
fn returns_on<F: Family + Drop>(alloc: Global, inst: &Instance) -> Result<bool, NoMemory>
    requires { F.IsWellJoined }
{
    let mut bench = Bench::<F>::open(alloc, inst)?;
    if noted(&mut bench, FORTY.len()) {
        all_lead_back(alloc, inst, &mut bench)
    } else {
        Ok(false)
    }
}

fn returns_from(alloc: Global, resolved: &Resolved) -> Result<bool, NoMemory> {
    match resolved.instances.as_slice().first() {
        Some(inst) => returns_on::<Families>(alloc, inst),
        None => Ok(false),
    }
}

fn returns(alloc: Global) -> Result<bool, NoMemory> {
    match resolved_of(alloc, (EVENTS, ALL_KINDS)) {
        Some(resolved) => returns_from(alloc, &resolved),
        None => Ok(false),
    }
}

#[test]
fn inverses_lead_back(rt: HostRuntime) -> Result<(), Fail> {
    assert_eq!(rt; FORTY.len(), 40);
    assert!(rt; returns(rt.alloc())?);
    Ok(())
}
