//! Solutions evaluated by several workers.

ghost use Rattle.std.specs.Prelude.{◌≡◌, ◌≤◌, IfOk, IfSome, Ok};
ghost use Rattle.xhstt_resolve.specs.Resolved as resolving;
ghost use Rattle.xhstt_shape.specs.WellFormed.{IsInForm};

use crate::bulky::Bulky;
use crate::many_solutions::text_of;
use crate::worked::{Worked, read};
use khe_base::NoMemory;
use khe_io::{Gate, OpenGate};
use parallel_solve::{
    Solutions, Verdict, WindowMaker, Work, all_solutions, evaluate_all, rooms_of,
};
use std::alloc::Global;
use std::test::Fail;
use std::thread::Threads;
use test_gates::{Meeting, Record};

/// What a test reads of a verdict.
#[derive(Clone, Copy, Debug, PartialEq, Eq)]
enum Told {
    /// The hard and the soft cost of a valid solution.
    Costs(u128, u128),
    /// The cause and the entry of an invalid one.
    Invalid(u32, u32),
}

fn told_of(verdict: &Verdict) -> Told {
    match verdict {
        Verdict::Valid(values) => Told::Costs(values.totals.hard, values.totals.soft),
        Verdict::Invalid { cause, entry } => Told::Invalid(*cause, *entry),
    }
}

/// What comes of the solutions of an archive, by the given number of workers.
fn at_once<R: Threads + Sync, G: Gate>(
    rt: &R,
    alloc: Global,
    worked: &Worked,
    workers: u32,
    gate: &G,
) -> Result<Vec<Told>, NoMemory>
    requires formed { IsInForm worked.now.archive }
    requires resolved { resolving.resolved worked.now.archive ≡ Ok worked.now.resolved }
    requires workers { (1 ≤ workers) × (workers ≤ 64) }
{
    let verdicts = evaluate_all(rt, alloc, &worked.archive, &worked.resolved, workers, gate)?;
    let mut all = Vec::new(alloc);
    for verdict in verdicts.as_slice() {
        all.push(told_of(verdict))?;
    }
    Ok(all)
}

/// What comes of the solutions of an archive, told one after another from the runs of windows that so
/// many workers make of a bulky job, and how many windows there were.
fn in_turn<R: Threads + Sync, G: Gate>(
    rt: &R,
    alloc: Global,
    worked: &Worked,
    workers: u32,
    gate: &G,
) -> Result<(Vec<Told>, usize), NoMemory>
    requires formed { IsInForm worked.now.archive }
    requires resolved { resolving.resolved worked.now.archive ≡ Ok worked.now.resolved }
    requires workers { (1 ≤ workers) × (workers ≤ 64) }
{
    let resolved = &worked.resolved;
    let raws = all_solutions(alloc, &worked.archive)?;
    let raws = raws.as_slice();
    let rooms = rooms_of(alloc, resolved)?;
    let rooms = rooms.as_slice();
    let solutions = Solutions {
        resolved,
        rooms,
        raws,
    };
    let work = Work {
        job: &Bulky,
        solutions,
        gate,
    };
    let windows = WindowMaker::new(resolved, workers);
    let mut all = Vec::new(alloc);
    let mut count = 0_usize;
    let mut first = 0;
    while first < raws.len() {
        let window = windows.make(rt, alloc, &work, first)?;
        for run in window.made.as_slice() {
            for verdict in run.as_slice() {
                all.push(told_of(verdict))?;
            }
        }
        first = window.next;
        count = count.saturating_add(1);
    }
    Ok((all, count))
}

/// The archive with `empty` solutions that place nothing, one that costs nothing and one that is
/// invalid.
fn read_with(alloc: Global, empty: usize) -> Result<Option<Worked>, NoMemory>
    ensures formed { IfOk result (λ found. IfSome found (λ w. IsInForm w.archive)) }
    ensures resolved { IfOk result (λ found. IfSome found (λ w. resolving.resolved w.archive ≡ Ok w.resolved)) }
{
    let text = text_of(alloc, empty)?;
    Ok(read(alloc, text.as_str()))
}

/// Each number of workers tells the same, in the order of the solutions, and each solution passes the gate by its
/// number.
#[test]
fn workers_tell_the_same(rt: HostRuntime) -> Result<(), Fail> {
    let expected = [
        Told::Costs(6, 0),
        Told::Costs(6, 0),
        Told::Costs(6, 0),
        Told::Costs(0, 0),
        Told::Invalid(4, 0),
    ];
    let worked = read_with(rt.alloc(), 3)?.ok_or("a fault")?;
    for workers in 1..=5 {
        let gate = Record::new();
        let all = at_once(&rt, rt.alloc(), &worked, workers, &gate)?;
        assert_eq!(rt; all.as_slice(), expected.as_slice());
        assert!(rt; gate.is_of_first(5));
    }
    Ok(())
}

/// Two workers are at work at the same time.
#[test]
fn two_workers_evaluate_side_by_side(rt: HostRuntime) -> Result<(), Fail> {
    let worked = read_with(rt.alloc(), 3)?.ok_or("a fault")?;
    let gate = Meeting::of(1);
    let all = at_once(&rt, rt.alloc(), &worked, 2, &gate)?;
    assert!(rt; gate.came() && all.len() == 5);
    Ok(())
}

/// The solutions of many windows are told in order. A window of a bulky job has at most one batch of each of two
/// workers, of at most 64 solutions.
#[test]
fn windows_follow_one_another(rt: HostRuntime) -> Result<(), Fail> {
    let worked = read_with(rt.alloc(), 3_000)?.ok_or("a fault")?;
    let (all, windows) = in_turn(&rt, rt.alloc(), &worked, 2, &OpenGate)?;
    let empty = all
        .iter()
        .take_while(|told| **told == Told::Costs(6, 0))
        .count();
    assert!(rt; all.len() == 3_002 && empty == 3_000 && windows >= 24);
    assert_eq!(rt; all.get(3_000).copied(), Some(Told::Costs(0, 0)));
    assert_eq!(rt; all.get(3_001).copied(), Some(Told::Invalid(4, 0)));
    Ok(())
}
