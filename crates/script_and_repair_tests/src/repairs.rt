//! Whether repairs come to what the cases say.

ghost use Rattle.std.specs.Prelude.{◌≡◌, ◌<◌, ◌≤◌, [], Ok};
ghost use Rattle.khe_engine.specs.Values.{ServesAll};
ghost use Rattle.khe_instance.specs.States.{IsValid};
ghost use Rattle.xhstt_resolve.specs.Resolved as resolving;
ghost use Rattle.xhstt_shape.specs.WellFormed.{IsInForm};

use crate::archives::{CROSSED, SPLIT};
use crate::cases::{Case, OF_CROSSED, OF_SMALL, OF_SPLIT};
use crate::worked::{Worked, instance_of, read, state_of};
use ejection_repair::{Outcome, repair};
use khe_base::{NoMemory, Totals};
use khe_engine::Engine;
use khe_instance::{Instance, Plain};
use khe_told::{Blank, Family, Steps};
use program_runs::TWO_EVENTS;
use sixteen_families::Families;
use std::alloc::Global;
use std::marker::Brand;
use std::sync::ledger::Ledger;

/// How a repair ended, and the totals of its state.
#[derive(Clone, Copy)]
struct Ended {
    outcome: Outcome,
    totals: Totals,
}

/// Whether a repair ended as a case says.
fn is_as(ended: Ended, case: &Case) -> bool {
    ended.outcome == case.outcome
        && ended.totals.hard == case.hard
        && ended.totals.soft == case.soft
}

/// Repairs a timetable.
fn run_case<F: Family, L: Ledger>(
    engine: &mut Engine<'_, F>,
    case: &Case,
    blank: Blank,
) -> Result<Ended, NoMemory>
    requires marks { engine.old.saved ≡ [] }
    requires name { blank.name ≡ L.name }
    requires parts { blank.parts ≡ L.parts }
    requires some { 0 < blank.parts }
{
    let mut steps = Steps::<L>::new(blank);
    let outcome = repair(
        engine,
        case.depth.clamp(1, 4),
        case.budget.max(1),
        case.diversifier,
        &mut steps,
    )?;
    Ok(Ended {
        outcome,
        totals: engine.totals(),
    })
}

/// The repair of a case. It is generic in the family, so its exits cost little to prove.
fn repaired<F: Family + Drop>(
    alloc: Global,
    inst: &Instance,
    plain: &Plain,
    case: &Case,
) -> Result<Ended, NoMemory>
    requires joined { F.IsWellJoined }
    requires serves { ServesAll F.serves_kind }
    requires valid { IsValid inst.now plain.now }
{
    let mut engine = Engine::<F>::open(alloc, inst, plain)?;
    run_case::<F, Brand>(&mut engine, case, Blank::new(1))
}

/// Whether the case of an archive comes out as it says.
fn is_right(alloc: Global, worked: &Worked, case: &Case) -> bool
    requires formed { IsInForm worked.now.archive }
    requires resolved { resolving.resolved worked.now.archive ≡ Ok worked.now.resolved }
{
    let Some(inst) = instance_of(&worked.resolved, case.solution) else {
        return false;
    };
    let Some(plain) = state_of(alloc, worked, inst, case.solution) else {
        return false;
    };
    match repaired::<Families>(alloc, inst, &plain, case) {
        Ok(ended) => is_as(ended, case),
        Err(NoMemory) => false,
    }
}

/// How many of these cases come out as they say.
fn right(alloc: Global, archive: &str, cases: &[Case]) -> usize {
    let Some(worked) = read(alloc, archive) else {
        return 0;
    };
    let mut count = 0usize;
    for case in cases {
        if is_right(alloc, &worked, case) {
            count = count.saturating_add(1);
        }
    }
    count
}

#[test]
fn meets_and_tasks_are_placed(rt: HostRuntime) {
    assert_eq!(rt; right(rt.alloc(), TWO_EVENTS, &OF_SMALL), OF_SMALL.len());
}

#[test]
fn a_chain_of_two_moves_or_an_exchange_crosses(rt: HostRuntime) {
    assert_eq!(rt; right(rt.alloc(), CROSSED, &OF_CROSSED), OF_CROSSED.len());
}

#[test]
fn events_are_split_and_joined(rt: HostRuntime) {
    assert_eq!(rt; right(rt.alloc(), SPLIT, &OF_SPLIT), OF_SPLIT.len());
}
