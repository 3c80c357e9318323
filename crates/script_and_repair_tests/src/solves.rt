//! What many repairs come to, by several workers.

ghost use Rattle.std.specs.Prelude.{◌≡◌, Ok};
ghost use Rattle.khe_engine.specs.Values.{ServesAll};
ghost use Rattle.khe_instance.specs.States.{IsValid};
ghost use Rattle.xhstt_resolve.specs.Resolved as resolving;
ghost use Rattle.xhstt_shape.specs.WellFormed.{IsInForm};

use crate::archives::SPLIT;
use crate::worked::{Worked, instance_of, read, state_of};
use khe_base::{NoMemory, Totals};
use khe_instance::{Instance, Plain};
use khe_io::Gate;
use khe_told::Family;
use parallel_repair::{Effort, Fate, Solved, solve};
use program_runs::TWO_EVENTS;
use sixteen_families::Families;
use std::alloc::Global;
use std::thread::Threads;
use test_gates::{JOBS, Meeting, Record};

/// The jobs of a solve of an archive's first solution, which are repairs by single moves; the job that
/// has the least result, and the fates of all.
#[derive(Clone, Copy)]
struct Case<'a> {
    budget: u64,
    workers: u32,
    job: u64,
    fates: &'a [Fate],
}

/// What the jobs of a case come to. It is generic in the family, so its exits cost little to prove.
fn solved<F: Family + Drop + Send + Sync, R: Threads + Sync, G: Gate>(
    rt: &R,
    alloc: Global,
    inst: &Instance,
    start: &Plain,
    case: &Case<'_>,
    gate: &G,
) -> Result<Solved, NoMemory>
    requires joined { F.IsWellJoined }
    requires serves { ServesAll F.serves_kind }
    requires valid { IsValid inst.now start.now }
{
    let budget = case.budget.max(1);
    let jobs = (case.fates.len() as u64).clamp(1, 10_000);
    let workers = case.workers.clamp(1, 64);
    let effort = Effort {
        depth: 1,
        budget,
        jobs,
        workers,
    };
    solve::<F, R, G>(rt, alloc, inst, start, effort, gate)
}

/// Whether a solve came to what the case says.
fn is_as(solved: &Solved, case: &Case<'_>) -> bool {
    let fates = solved.fates.as_slice();
    let ran = Some(Fate::Ran(solved.totals));
    solved.job == case.job && fates == case.fates && fates.get(case.job as usize).copied() == ran
}

/// Whether the jobs of a case on an archive come to what it says.
fn is_right<R: Threads + Sync, G: Gate>(
    rt: &R,
    alloc: Global,
    worked: &Worked,
    case: &Case<'_>,
    gate: &G,
) -> bool
    requires formed { IsInForm worked.now.archive }
    requires resolved { resolving.resolved worked.now.archive ≡ Ok worked.now.resolved }
{
    let Some(inst) = instance_of(&worked.resolved, 0) else {
        return false;
    };
    let Some(start) = state_of(alloc, worked, inst, 0) else {
        return false;
    };
    match solved::<Families, R, G>(rt, alloc, inst, &start, case, gate) {
        Ok(solved) => is_as(&solved, case),
        Err(NoMemory) => false,
    }
}

/// The same of the archive that a text spells.
fn comes_right<R: Threads + Sync, G: Gate>(
    rt: &R,
    alloc: Global,
    archive: &str,
    case: &Case<'_>,
    gate: &G,
) -> bool {
    match read(alloc, archive) {
        Some(worked) => is_right(rt, alloc, &worked, case, gate),
        None => false,
    }
}

/// Whether each job that ran by these fates passed the gate once by its number, and nothing else did.
fn passed_by(gate: &Record, fates: &[Fate]) -> bool {
    for job in 0..JOBS {
        let has_run = matches!(fates.get(job), Some(Fate::Ran(_)));
        if gate.calls_of(job) != u64::from(has_run) {
            return false;
        }
    }
    fates.len() <= JOBS && gate.others() == 0
}

/// The same as `comes_right`, where each job that runs passes the gate by its number.
fn comes_right_by_number<R: Threads + Sync>(
    rt: &R,
    alloc: Global,
    archive: &str,
    case: &Case<'_>,
) -> bool {
    let gate = Record::new();
    comes_right(rt, alloc, archive, case, &gate) && passed_by(&gate, case.fates)
}

/// A job that ran and came to these costs.
const fn ran(hard: u128, soft: u128) -> Fate {
    Fate::Ran(Totals { hard, soft })
}

#[test]
fn any_number_of_workers_comes_to_the_same(rt: HostRuntime) {
    for workers in 1..=4 {
        let case = Case {
            budget: 1,
            workers,
            job: 0,
            fates: &[ran(6, 0), ran(10, 3), ran(9, 0)],
        };
        assert!(rt; comes_right_by_number(&rt, rt.alloc(), TWO_EVENTS, &case));
    }
}

#[test]
fn the_last_job_may_be_the_least(rt: HostRuntime) {
    let case = Case {
        budget: 2,
        workers: 2,
        job: 4,
        fates: &[ran(4, 0), ran(7, 3), ran(8, 0), ran(5, 0), ran(3, 0)],
    };
    assert!(rt; comes_right_by_number(&rt, rt.alloc(), TWO_EVENTS, &case));
}

#[test]
fn jobs_after_one_without_a_cost_are_left_out(rt: HostRuntime) {
    let left_out = Fate::Skipped { by: 1 };
    let case = Case {
        budget: 20,
        workers: 1,
        job: 1,
        fates: &[ran(0, 2), ran(0, 0), left_out, left_out, left_out],
    };
    assert!(rt; comes_right_by_number(&rt, rt.alloc(), SPLIT, &case));
}

/// The first worker waits in its first job until the other one has done all others.
#[test]
fn a_worker_that_waits_leaves_its_jobs_to_the_other(rt: HostRuntime) {
    let case = Case {
        budget: 1,
        workers: 2,
        job: 0,
        fates: &[
            ran(6, 0),
            ran(10, 3),
            ran(9, 0),
            ran(11, 0),
            ran(6, 0),
            ran(10, 3),
            ran(9, 0),
            ran(11, 0),
        ],
    };
    let gate = Meeting::of(7);
    assert!(rt; comes_right(&rt, rt.alloc(), TWO_EVENTS, &case, &gate) && gate.came());
}
