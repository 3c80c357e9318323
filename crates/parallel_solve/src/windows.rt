//! A window over the solutions: as many batches as keep its memory small.

ghost use Rattle.std.specs.Prelude.{◌≡◌, ◌+◌, ◌<◌, ◌≤◌, ◌^◌, IfOk, map, length};
ghost use Rattle.khe_base.specs.declared.limits.TheConstants.{WORKERS};
ghost use Rattle.resource_deviations.specs.Sets.{room_for};
ghost use Rattle.parallel_solve.specs.Ready.{AreOnes};
ghost use Rattle.parallel_solve.specs.Batches.{IsWindow};

use crate::draws::made_beside;
use crate::jobs::{SolutionJob, Window, Work};
use crate::spans::Span;
use khe_base::NoMemory;
use khe_io::Gate;
use std::alloc::Global;
use std::thread::Threads;
use xhstt_resolve::Resolved;

/// Once the results of a window take this many bytes for each of its workers, no further batch is drawn.
/// Batches that were drawn by then are still done.
const MOST_BYTES: usize = 1 << 21;

/// How many monitors the solutions of a batch may have, where it has more than one.
const MOST_MONITORS: usize = 1 << 13;

/// How many solutions a batch has at most.
const MOST_SOLUTIONS: usize = 64;

/// Into how many batches the solutions that are left are cut for each worker, where there are enough: so a worker
/// that is late, or has solutions that cost more, leaves batches to the others.
const BATCHES: usize = 16;

/// What part of all solutions the last ones are that several workers make a window of: while they are made, what was
/// made of those before them is written, so that little is left to write when nothing is left to make.
const LAST: usize = 8;

/// Makes windows over the solutions of an archive: what a job makes of solutions that follow one another, by
/// workers who draw batches of them until the results come to 2 MiB for each worker. A single worker's window
/// is one batch. So a caller that reads window after window needs memory for the windows that it holds, and not
/// for all results.
#[derive(Clone, Copy)]
pub struct WindowMaker {
    /// How many solutions a batch has at most.
    batch: usize,
    workers: u32,
    ghost some: { 1 ≤ batch },
    ghost crew: { 1 ≤ workers },
}

/// How many solutions a batch has at most, so that they have not many more than `MOST_MONITORS` monitors.
fn most_in_batch(resolved: &Resolved) -> usize
    ensures { 1 ≤ result }
{
    let mut most = 1;
    for instance in resolved.instances.as_slice() {
        most = most.max(instance.monitors() as usize);
    }
    (MOST_MONITORS / most).clamp(1, MOST_SOLUTIONS)
}

/// How many solutions a worker draws at a time, by how many are left and how many workers there are.
pub(crate) fn batch_for(left: usize, workers: u32) -> usize
    requires { 1 ≤ workers }
    ensures { 1 ≤ result }
{
    (left / workers as usize / BATCHES).max(1)
}

impl WindowMaker {
    /// Windows that are made by 1 to `WORKERS` workers. It takes time in proportion to the instances, and no memory.
    pub fn new(resolved: &Resolved, workers: u32) -> WindowMaker
        requires { (1 ≤ workers) × (workers ≤ WORKERS) }
    {
        let batch = most_in_batch(resolved);
        WindowMaker { batch, workers }
    }

    /// How many workers make a window, the calling thread among them. It takes constant time.
    pub fn workers(&self) -> u32
        ensures { result ≡ self.now.workers }
    {
        self.workers
    }

    /// The solutions of the window that begins with this one. Where there is a single
    /// worker that is one batch. Else it is all that are left, but that the last ones of all are a window of their own.
    fn span(&self, first: usize, all: usize) -> Span
        requires { first ≤ all }
        ensures { (result.first ≡ first) × (result.end ≤ all) × (first < all → first < result.sure) }
    {
        let left = all - first;
        if self.workers == 1 {
            let sure = first + self.batch.min(left);
            return Span {
                first,
                sure,
                end: sure,
                batch: self.batch,
                most: usize::MAX,
            };
        }
        let last = all - all / LAST;
        let end = if first < last { last } else { all };
        Span {
            first,
            sure: first + self.batch.min(end - first),
            end,
            batch: batch_for(left, self.workers).min(self.batch),
            most: MOST_BYTES.saturating_mul(self.workers as usize),
        }
    }

    /// Makes the window that begins with this solution. It reaches no further only where no solution is left from
    /// there on. The workers do the job, and pass the gate before each solution, with its number.
    ///
    /// It fails only where memory is refused. It takes the time and memory of the job for the window's
    /// solutions, divided among the workers that run at the same time.
    pub fn make<J: SolutionJob, R: Threads + Sync, G: Gate>(
        &self,
        rt: &R,
        alloc: Global,
        work: &Work<'_, '_, J, G>,
        first: usize,
    ) -> Result<Window<J::Made>, NoMemory>
        requires ones { AreOnes work.now.solutions.resolved.now 0 (map (λ x. x.now) work.now.solutions.raws.now) }
        requires few { length work.now.solutions.raws.now < 2 ^ 32 }
        requires rooms { work.now.solutions.rooms.now ≡ map room_for work.now.solutions.resolved.now.instances }
        requires within { first ≤ length work.now.solutions.raws.now }
        ensures { IfOk result (λ w. IsWindow (J.made work.now.job.now work.now.solutions.resolved.now)
            (map (λ x. x.now) work.now.solutions.raws.now) first w.next w.made.items) }
    {
        let (window, ()) = self.make_beside(rt, alloc, work, first, &mut || ());
        window
    }

    /// Makes the same window beside other work: the calling thread does the other work first, while the other
    /// workers make the window, and then joins them. It returns the results of both.
    pub fn make_beside<J: SolutionJob, R: Threads + Sync, G: Gate, T, B: FnMut() -> T>(
        &self,
        rt: &R,
        alloc: Global,
        work: &Work<'_, '_, J, G>,
        first: usize,
        beside: &mut B,
    ) -> (Result<Window<J::Made>, NoMemory>, T)
        requires ones { AreOnes work.now.solutions.resolved.now 0 (map (λ x. x.now) work.now.solutions.raws.now) }
        requires few { length work.now.solutions.raws.now < 2 ^ 32 }
        requires rooms { work.now.solutions.rooms.now ≡ map room_for work.now.solutions.resolved.now.instances }
        requires within { first ≤ length work.now.solutions.raws.now }
        requires beside { B.pre beside.old }
        ensures window { IfOk result.0 (λ w. IsWindow (J.made work.now.job.now work.now.solutions.resolved.now)
            (map (λ x. x.now) work.now.solutions.raws.now) first w.next w.made.items) }
        ensures beside { B.step beside.old result.1 beside.new }
    {
        let span = self.span(first, work.solutions.raws.len());
        let workers = self.workers;
        made_beside(rt, alloc, work, span, workers, beside)
    }
}
