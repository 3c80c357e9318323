//! All jobs, by several workers.

ghost use Rattle.std.specs.Prelude.{◌≡◌, ℕ, ◌≤◌, IfOk};
ghost use Rattle.khe_base.specs.declared.limits.TheConstants.{JOBS, WORKERS};
ghost use Rattle.parallel_repair.specs.Solved.{IsSolved};
ghost use Rattle.parallel_repair.specs.declared.answers.Answer.{Answer};
ghost use Rattle.parallel_repair.specs.declared.answers.Solved.{Solved};

use crate::answers::{Best, Solved};
use crate::crews::{Shared, crew};
use crate::fates::fates_of;
use crate::workers::Found;
use crate::works::Work;
use khe_base::NoMemory;
use khe_io::Gate;
use solve_board::{Board, Closed};
use std::alloc::Global;
use std::thread::Threads;

/// What the jobs below a number come to, 1 to `JOBS` of them, by 1 to `WORKERS` workers, each in a thread of
/// its own: the result of the job with the least totals, and of the lowest number among equal ones;
/// and what became of each job. A worker takes the lowest job that none has taken, and passes the gate
/// before it runs it. A job whose timetable costs nothing ends what is left: further jobs with a higher
/// number are left out. The result is the same for every number of workers and all their turns, and
/// that of all jobs done one after another; which jobs are left out isn't.
///
/// It fails only where memory is refused, and never for a thread that can't be had: this one then does its
/// work. It takes the time of the jobs that are run, divided among the workers that run at the same time, and a
/// little for each job. No more workers start than there are jobs. It takes memory for one desk and two results
/// at a time for each worker that starts, and a row for each job.
pub fn solved_by<R: Threads + Sync, W: Work, G: Gate>(
    rt: &R,
    alloc: Global,
    work: &W,
    jobs: u64,
    workers: u32,
    gate: &G,
) -> Result<Solved, NoMemory>
    requires sound { W.IsSound work.now }
    requires jobs { (1 ≤ jobs) × (jobs ≤ JOBS) }
    requires workers { (1 ≤ workers) × (workers ≤ WORKERS) }
    ensures solved { IfOk result (λ s. IsSolved (W.answer work.now) jobs s) }
    ensures fit { IfOk result (λ s. W.IsFit work.now s.plain) }
{
    let (board, seat) = Board::new(alloc, jobs)?;
    let workers = crew_size(workers, jobs);
    let shared = Shared { jobs, workers };
    let found = crew(rt, alloc, &board, work, gate, shared, seat)?;
    let Found { seat, rows, best } = found;
    let Closed { next: _, least } = board.close(seat);
    let fates = fates_of(alloc, jobs, rows.as_slice(), least.unwrap_or(0))?;
    let Some(best) = best else { unreachable!() };
    let Best { job, totals, plain } = best;
    Ok(Solved {
        job,
        totals,
        plain,
        fates,
    })
}

/// How many of the workers there is a job for.
fn crew_size(workers: u32, jobs: u64) -> u32
    requires { (1 ≤ workers) × (1 ≤ jobs) }
    ensures some { 1 ≤ result }
    ensures few { (result ≤ workers) × (result ≤ jobs) }
{
    if u64::from(workers) <= jobs {
        workers
    } else {
        jobs as u32
    }
}

// The job, its totals and its timetable are the same, whoever did which jobs and in which order. It is
// proved of the definitions, and no program calls it.
#[allow(dead_code)]
fn result_is_one()
    ensures { (answer : ℕ → Answer) (jobs : ℕ) (s t : Solved) → IsSolved answer jobs s → IsSolved answer jobs t
        → (s.job ≡ t.job) × (s.totals ≡ t.totals) × (s.plain ≡ t.plain) }
{}
