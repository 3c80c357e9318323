//! What comes of each solution, for the summary: its totals, or why it is invalid.

ghost use Rattle.std.specs.Prelude.{◌≡◌, ◌<◌, ◌≤◌, ◌^◌, IfOk, length, map};
ghost use Rattle.khe_base.specs.declared.limits.TheConstants.{WORKERS};
ghost use Rattle.parallel_solve.specs.Batches.{IsWindow};
ghost use Rattle.parallel_solve.specs.Ready.{AreOnes, IsOne};
ghost use Rattle.parallel_solve.specs.Verdicts.{numbered_verdict};
ghost use Rattle.resource_deviations.specs.Sets.{room_for};
ghost use Rattle.timetable_page.specs.Outcomes as spec;

use khe_base::{NoMemory, Seq, Totals};
use khe_io::{Gate, OpenGate};
use parallel_solve::{SolutionJob, Solutions, Verdict, Window, WindowMaker, Work, numbered};
use resource_deviations::ResourceRoom;
use std::alloc::Global;
use std::thread::Threads;
use xhstt_resolve::Resolved;
use xhstt_shape::RawSolution;

/// What comes of a solution.
#[derive(Clone, Copy)]
pub enum Outcome {
    /// What it costs.
    Valid(Totals),
    /// It is invalid, for the first cause of the first entry that has one.
    Invalid { cause: u32, entry: u32 },
}

/// What comes of a solution, by its verdict.
fn outcome_of(verdict: &Verdict) -> Outcome
    ensures { result ≡ spec.outcome_of verdict.now }
{
    match verdict {
        Verdict::Valid(values) => Outcome::Valid(values.totals),
        Verdict::Invalid { cause, entry } => Outcome::Invalid {
            cause: *cause,
            entry: *entry,
        },
    }
}

/// What comes of the solution with a number.
fn outcome_at(
    alloc: Global,
    resolved: &Resolved,
    rooms: &[ResourceRoom],
    number: u32,
    raw: &RawSolution,
) -> Result<Outcome, NoMemory>
    requires one { IsOne resolved.now number raw.now }
    requires rooms { rooms.now ≡ map room_for resolved.now.instances }
    ensures { IfOk result (λ o. o ≡ spec.numbered_outcome resolved.now (number, raw.now)) }
{
    let verdict = numbered(alloc, resolved, rooms, number, raw)?;
    Ok(outcome_of(&verdict))
}

/// The job of finding what comes of each solution of a batch.
struct Finding;

impl SolutionJob for Finding {
    type Made = Seq<Outcome>;

    ghost made = { λ _ r rows. map (spec.numbered_outcome r) rows };

    fn make<G: Gate>(
        &self,
        alloc: Global,
        solutions: &Solutions<'_>,
        first: usize,
        count: usize,
        gate: &G,
    ) -> Result<Seq<Outcome>, NoMemory> {
        let Solutions {
            resolved,
            rooms,
            raws,
        } = *solutions;
        let mut told = Vec::with_capacity(alloc, count)?;
        for number in first..first + count {
            gate.pass(number as u64);
            told.push(outcome_at(alloc, resolved, rooms, number as u32, raws[number])?)?;
        }
        Ok(Seq { items: told })
    }

    fn size(&self, made: &Seq<Outcome>) -> usize {
        made.len().saturating_mul(64)
    }
}

/// Adds what batches came to.
fn append(all: &mut Seq<Outcome>, batches: Vec<Seq<Outcome>>) -> Result<(), NoMemory> {
    for batch in batches {
        for outcome in batch.items {
            all.push(outcome)?;
        }
    }
    Ok(())
}

/// The window of solutions that begins with this one.
fn window_at<R: Threads + Sync>(
    rt: &R,
    alloc: Global,
    windows: &WindowMaker,
    solutions: &Solutions<'_>,
    first: usize,
) -> Result<Window<Seq<Outcome>>, NoMemory>
    requires ones { AreOnes solutions.now.resolved.now 0 (map (λ x. x.now) solutions.now.raws.now) }
    requires few { length solutions.now.raws.now < 2 ^ 32 }
    requires rooms { solutions.now.rooms.now ≡ map room_for solutions.now.resolved.now.instances }
    requires within { first ≤ length solutions.now.raws.now }
    ensures { IfOk result (λ w. IsWindow (map (spec.numbered_outcome solutions.now.resolved.now)) (map (λ x. x.now) solutions.now.raws.now) first w.next w.made.items) }
{
    let work = Work {
        job: &Finding,
        solutions: *solutions,
        gate: &OpenGate,
    };
    windows.make(rt, alloc, &work, first)
}

/// What comes of all solutions, in order, as so many workers find it. It takes the time of evaluating all solutions,
/// divided among the workers that run at the same time, and memory for what comes of all and, for each worker, that of
/// evaluating one.
pub(crate) fn outcomes<R: Threads + Sync>(
    rt: &R,
    alloc: Global,
    solutions: Solutions<'_>,
    workers: u32,
) -> Result<Seq<Outcome>, NoMemory>
    requires ones { AreOnes solutions.resolved.now 0 (map (λ x. x.now) solutions.raws.now) }
    requires few { length solutions.raws.now < 2 ^ 32 }
    requires rooms { solutions.rooms.now ≡ map room_for solutions.resolved.now.instances }
    requires workers { (1 ≤ workers) × (workers ≤ WORKERS) }
{
    let windows = WindowMaker::new(solutions.resolved, workers);
    let count = solutions.raws.len();
    let mut all = Seq::new(alloc);
    let mut first = 0usize;
    for _ in 0..count {
        if first >= count {
            return Ok(all);
        }
        let window = window_at(rt, alloc, &windows, &solutions, first)?;
        first = window.next;
        append(&mut all, window.made)?;
    }
    Ok(all)
}
