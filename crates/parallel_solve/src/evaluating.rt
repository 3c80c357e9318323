//! All solutions of an archive, judged by several workers.

ghost use Rattle.std.specs.Prelude.{◌≡◌, ◌≤◌, IfOk, Ok, map};
ghost use Rattle.std.specs.List.{enumerate_from, flat_map};
ghost use Rattle.khe_base.specs.declared.limits.TheConstants.{WORKERS};
ghost use Rattle.xhstt_references.specs.References.{solutions_of};
ghost use Rattle.xhstt_resolve.specs.Resolved as resolving;
ghost use Rattle.xhstt_shape.specs.WellFormed.{IsInForm};
ghost use Rattle.parallel_solve.specs.Verdicts.{numbered_verdict};

use crate::draws::made_beside;
use crate::jobs::{Solutions, Work};
use crate::spans::Span;
use crate::verdicts::{Judging, Verdict, rooms_of};
use crate::windows::batch_for;
use khe_base::{NoMemory, Seq};
use khe_io::Gate;
use std::alloc::Global;
use std::thread::Threads;
use xhstt_resolve::Resolved;
use xhstt_shape::{Archive, RawSolution};

/// All solutions of an archive, group by group in order. It fails only where memory is refused. It takes time
/// and memory in proportion to them and to the groups.
pub fn all_solutions(alloc: Global, archive: &Archive) -> Result<Vec<&RawSolution>, NoMemory>
    ensures { IfOk result (λ v. map (λ x. x.now) v.items ≡ solutions_of archive.now) }
{
    let mut all = Vec::new(alloc);
    for group in archive.solution_groups.as_slice() {
        for solution in group.solutions.as_slice() {
            all.push(solution)?;
        }
    }
    Ok(all)
}

/// What comes of each solution of a resolved archive, in order, by 1 to `WORKERS` workers, who draw batches
/// of solutions in threads of their own. A worker passes the gate before each solution, with
/// its number. What comes does not depend on the number of workers, nor on their turns: a valid
/// solution's values are the definitions', and an invalid one has its first cause.
///
/// It fails only where memory is refused. It takes the time of evaluating all solutions, divided among the
/// workers that run at the same time, and that of `rooms_of`; and memory in proportion to the monitors of all
/// solutions, that of `rooms_of`, and for each worker that of evaluating one.
pub fn evaluate_all<'a, R: Threads + Sync, G: Gate>(
    rt: &R,
    alloc: Global,
    archive: &'a Archive,
    resolved: &'a Resolved,
    workers: u32,
    gate: &G,
) -> Result<Seq<Verdict>, NoMemory>
    requires formed { IsInForm archive.now }
    requires resolved { resolving.resolved archive.now ≡ Ok resolved.now }
    requires workers { (1 ≤ workers) × (workers ≤ WORKERS) }
    ensures { IfOk result (λ v. v ≡ map (numbered_verdict resolved.now) (enumerate_from 0 (solutions_of archive.now))) }
{
    let raws = all_solutions(alloc, archive)?;
    let rooms = rooms_of(alloc, resolved)?;
    let rooms = rooms.as_slice();
    let raws = raws.as_slice();
    let span = Span {
        first: 0,
        sure: raws.len(),
        end: raws.len(),
        batch: batch_for(raws.len(), workers),
        most: usize::MAX,
    };
    let solutions = Solutions {
        resolved,
        rooms,
        raws,
    };
    let work = Work {
        job: &Judging,
        solutions,
        gate,
    };
    let (window, ()) = made_beside(rt, alloc, &work, span, workers, &mut || ());
    let verdicts = joined(alloc, window?.made)?;
    Ok(verdicts)
}

/// The verdicts of batches that follow one another, in order.
fn joined(alloc: Global, batches: Vec<Seq<Verdict>>) -> Result<Seq<Verdict>, NoMemory>
    ensures { IfOk result (λ v. v ≡ flat_map (λ batch. batch) batches.items) }
{
    let mut all = Vec::new(alloc);
    for batch in batches {
        let mut verdicts = batch.items;
        all.append(&mut verdicts)?;
    }
    Ok(Seq { items: all })
}
