//! Many repairs of one timetable, by several workers.

ghost use Rattle.std.specs.Prelude.{◌≤◌, IfOk};
ghost use Rattle.khe_base.specs.declared.limits.TheConstants.{CHAIN_MOVES, JOBS, WORKERS};
ghost use Rattle.khe_engine.specs.Values.{ServesAll};
ghost use Rattle.khe_instance.specs.States.{IsValid};
ghost use Rattle.parallel_repair.specs.Jobs.{job_answer};
ghost use Rattle.parallel_repair.specs.Solved.{IsSolved};

use crate::answers::Solved;
use crate::pool::solved_by;
use crate::repairs::Repairs;
use khe_base::NoMemory;
use khe_instance::{Instance, Plain};
use khe_io::Gate;
use khe_told::Family;
use std::alloc::Global;
use std::marker::PhantomData;
use std::thread::Threads;

/// How much many repairs of a timetable may do.
#[derive(Clone, Copy)]
pub struct Effort {
    /// The greatest number of moves of a chain, 1 to `CHAIN_MOVES`.
    pub depth: u32,
    /// How many chains each job may try, at least 1.
    pub budget: u64,
    /// How many jobs there are, 1 to `JOBS`.
    pub jobs: u64,
    /// How many workers share them, 1 to `WORKERS`.
    pub workers: u32,
}

/// Many repairs of a valid timetable, by 1 to `WORKERS` workers: job `j`, of 1 to `JOBS` that are numbered
/// from 0, is `repair` from the timetable by this depth and budget with the diversifier `j`. The answer
/// is the result of the job with the least totals, and with the lowest number among equal ones; and
/// what became of each job. A worker passes the gate before each job that it runs, with its number. A
/// job without a cost lets higher ones be left out. The answer is the same for every number of workers
/// and all their turns; which jobs are left out isn't.
///
/// The depth is 1 to `CHAIN_MOVES`, and the budget at least 1. It fails only where memory is refused. It takes
/// the time of the jobs that are run, divided among the workers that run at the same time, and for each worker
/// that of opening one engine, which is led back to the timetable by an undo after each job. It takes memory
/// for an engine and two timetables for each worker, and a row for each job.
pub fn solve<F: Family + Drop + Send + Sync, R: Threads + Sync, G: Gate>(
    rt: &R,
    alloc: Global,
    inst: &Instance,
    start: &Plain,
    effort: Effort,
    gate: &G,
) -> Result<Solved, NoMemory>
    requires joined { F.IsWellJoined }
    requires serves { ServesAll F.serves_kind }
    requires valid { IsValid inst.now start.now }
    requires depth { (1 ≤ effort.depth) × (effort.depth ≤ CHAIN_MOVES) }
    requires budget { 1 ≤ effort.budget }
    requires jobs { (1 ≤ effort.jobs) × (effort.jobs ≤ JOBS) }
    requires workers { (1 ≤ effort.workers) × (effort.workers ≤ WORKERS) }
    ensures solved { IfOk result (λ s. IsSolved (job_answer inst.now start.now effort.depth effort.budget) effort.jobs
        s) }
    ensures valid { IfOk result (λ s. IsValid inst.now s.plain) }
{
    let Effort {
        depth,
        budget,
        jobs,
        workers,
    } = effort;
    let work = Repairs::<F> {
        inst,
        start,
        depth,
        budget,
        families: PhantomData,
    };
    solved_by(rt, alloc, &work, jobs, workers, gate)
}
