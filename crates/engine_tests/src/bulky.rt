//! A job whose windows hold a batch a worker.

ghost use Rattle.std.specs.Prelude.{map};
ghost use Rattle.parallel_solve.specs.Verdicts.{numbered_verdict};

use khe_base::{NoMemory, Seq};
use khe_io::Gate;
use parallel_solve::{Judging, SolutionJob, Solutions, Verdict};
use std::alloc::Global;

/// The job of evaluating, which says of each batch that it is as large as a window may be: so a worker makes one
/// batch of a window at most.
pub(crate) struct Bulky;

impl SolutionJob for Bulky {
    type Made = Seq<Verdict>;

    ghost made = { λ _ r rows. map (numbered_verdict r) rows };

    fn make<G: Gate>(
        &self,
        alloc: Global,
        solutions: &Solutions<'_>,
        first: usize,
        count: usize,
        gate: &G,
    ) -> Result<Seq<Verdict>, NoMemory> {
        Judging.make(alloc, solutions, first, count, gate)
    }

    fn size(&self, _made: &Seq<Verdict>) -> usize {
        1 << 40
    }
}
