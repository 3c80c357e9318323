//! The trait of what is done for the solutions of an archive.

ghost use Rattle.std.specs.Prelude.{◌≡◌, ◌+◌, ◌<◌, ◌≤◌, ◌^◌, ℕ, List, IfOk, map, length};
ghost use Rattle.resource_deviations.specs.Sets.{room_for};
ghost use Rattle.parallel_solve.specs.Ready.{AreOnes};
ghost use Rattle.parallel_solve.specs.Batches.{batch_of};
ghost use Rattle.xhstt_resolve.specs.declared.resolving.Resolved.{Resolved};
ghost use Rattle.xhstt_shape.specs.declared.records.RawSolution.{RawSolution};

use khe_base::NoMemory;
use khe_io::Gate;
use resource_deviations::ResourceRoom;
use std::alloc::Global;
use xhstt_resolve::Resolved;
use xhstt_shape::RawSolution;

/// The solutions of an archive that is resolved, with what evaluations need of each instance alone.
#[derive(Clone, Copy)]
pub struct Solutions<'a> {
    pub resolved: &'a Resolved,
    /// What evaluations need of each instance, in the order of the instances: `rooms_of` makes it.
    pub rooms: &'a [ResourceRoom],
    /// The solutions, over all groups in order: `all_solutions` lists them.
    pub raws: &'a [&'a RawSolution],
}

/// A job, the solutions that it is done for, and the gate that is passed before each of them.
#[derive(Clone, Copy)]
pub struct Work<'a, 'b, J: SolutionJob, G: Gate> {
    pub job: &'a J,
    pub solutions: Solutions<'b>,
    pub gate: &'a G,
}

/// What is done for solutions of an archive that follow one another: for a batch of them. What it makes
/// depends on the solutions alone, and not on who does it or when.
pub trait SolutionJob: Sync {
    /// What it makes of a batch.
    type Made: Drop + Send;

    /// What it makes of the solutions of a batch with their numbers.
    ghost made: { Self → Resolved → List (ℕ × RawSolution) → Self.Made };

    /// Does the job for `count` of all solutions from a first one on. It passes the gate before each of them,
    /// with its number. It fails only where memory is refused.
    fn make<G: Gate>(
        &self,
        alloc: Global,
        solutions: &Solutions<'_>,
        first: usize,
        count: usize,
        gate: &G,
    ) -> Result<Self::Made, NoMemory>
        requires ones { AreOnes solutions.now.resolved.now 0 (map (λ x. x.now) solutions.now.raws.now) }
        requires few { length solutions.now.raws.now < 2 ^ 32 }
        requires rooms { solutions.now.rooms.now ≡ map room_for solutions.now.resolved.now.instances }
        requires within { first + count ≤ length solutions.now.raws.now }
        ensures { IfOk result (λ m. m ≡ made self.now solutions.now.resolved.now
            (batch_of first count (map (λ x. x.now) solutions.now.raws.now))) };

    /// About how many bytes of memory a result takes: a window ends once the results of its batches come to
    /// enough. It has no bearing on what is made of a batch.
    fn size(&self, made: &Self::Made) -> usize;
}

/// What a job made of a window over the solutions: of the batches of its solutions, in order.
#[derive(Drop)]
pub struct Window<M> {
    /// The number of the first solution after it.
    pub next: usize,
    /// What was made of each batch.
    pub made: Vec<M>,
}
