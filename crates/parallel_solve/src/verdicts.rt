//! What comes of a solution: its costs, or the cause for which it is invalid.

ghost use Rattle.std.specs.Prelude.{◌≡◌, IfOk, IsSome, Some, map, slice_get};
ghost use Rattle.resource_deviations.specs.Sets.{room_for};
ghost use Rattle.xhstt_completion.specs.Completed as completion;
ghost use Rattle.parallel_solve.specs.Verdicts.{verdict_of, numbered_verdict, parts_at};
ghost use Rattle.parallel_solve.specs.Ready.{IsOne};

use crate::jobs::{SolutionJob, Solutions};
use khe_base::{NoMemory, Seq, lends_to_threads};
use khe_instance::Instance;
use khe_io::Gate;
use plain_eval::{Values, evaluate_in};
use resource_deviations::ResourceRoom;
use std::alloc::Global;
use xhstt_completion::{SolutionFault, numbered_solution};
use xhstt_resolve::Resolved;
use xhstt_shape::RawSolution;

/// What comes of a solution.
#[derive(Drop)]
pub enum Verdict {
    /// It is completed, with what it costs.
    Valid(Values),
    /// It is invalid, for the first cause, 1 to 7, of the first entry that has one.
    Invalid { cause: u32, entry: u32 },
}

impl Verdict {
    /// About how many bytes of memory it takes: a deviation and a cost of each monitor, and itself.
    fn size(&self) -> usize {
        let monitors = match self {
            Verdict::Valid(values) => values.deviations.len(),
            Verdict::Invalid { .. } => 0,
        };
        monitors.saturating_mul(24).saturating_add(64)
    }
}

/// What comes of the solution with this number, of this instance, with what depends on the instance
/// alone. It takes the time and memory of completing it and evaluating its state.
fn judge(
    alloc: Global,
    inst: &Instance,
    room: &ResourceRoom,
    resolved: &Resolved,
    number: u32,
    raw: &RawSolution,
) -> Result<Verdict, NoMemory>
    requires one { IsOne resolved.now number raw.now }
    requires instance { parts_at resolved.now number ≡ Some inst.now }
    requires room { room.now ≡ room_for inst.now }
    ensures { IfOk result (λ v. v ≡ verdict_of inst.now (completion.completed inst.now raw.now)) }
{
    match numbered_solution(alloc, inst, resolved, number, raw) {
        Ok(plain) => Ok(Verdict::Valid(evaluate_in(alloc, inst, room, &plain)?)),
        Err(SolutionFault::Invalid { cause, entry }) => Ok(Verdict::Invalid { cause, entry }),
        Err(SolutionFault::NoMemory) => Err(NoMemory),
    }
}

/// What evaluations need of each instance of an archive alone, in the order of the instances: it is
/// made once, and all workers read it. It takes time and memory for a bit of each time of each time
/// group that a constraint on resources lists.
pub fn rooms_of(alloc: Global, resolved: &Resolved) -> Result<Vec<ResourceRoom>, NoMemory>
    ensures { IfOk result (λ rooms. rooms.items ≡ map room_for resolved.now.instances) }
{
    let mut rooms = Vec::new(alloc);
    for inst in resolved.instances.as_slice() {
        rooms.push(ResourceRoom::open(alloc, inst)?)?;
    }
    Ok(rooms)
}

/// The number of the instance of the solution with this number.
fn instance_of(resolved: &Resolved, number: u32) -> usize
    requires { IsSome (parts_at resolved.now number) }
    ensures { parts_at resolved.now number ≡ slice_get resolved.now.instances result }
{
    resolved.of.as_slice()[number as usize] as usize
}

/// The room of the instance of the solution with this number, and the instance.
fn place_of<'a>(
    resolved: &'a Resolved,
    rooms: &'a [ResourceRoom],
    number: u32,
) -> (&'a Instance, &'a ResourceRoom)
    requires one { IsSome (parts_at resolved.now number) }
    requires rooms { rooms.now ≡ map room_for resolved.now.instances }
    ensures instance { parts_at resolved.now number ≡ Some result.0.now }
    ensures room { result.1.now ≡ room_for result.0.now }
{
    let instance = instance_of(resolved, number);
    (&resolved.instances.as_slice()[instance], &rooms[instance])
}

/// What comes of the solution with this number, with what evaluations need of each instance alone. It fails
/// only where memory is refused. It takes the time and memory of completing the solution and evaluating its
/// state.
pub fn numbered(
    alloc: Global,
    resolved: &Resolved,
    rooms: &[ResourceRoom],
    number: u32,
    raw: &RawSolution,
) -> Result<Verdict, NoMemory>
    requires one { IsOne resolved.now number raw.now }
    requires rooms { rooms.now ≡ map room_for resolved.now.instances }
    ensures { IfOk result (λ v. v ≡ numbered_verdict resolved.now (number, raw.now)) }
{
    let (inst, room) = place_of(resolved, rooms, number);
    let told = judge(alloc, inst, room, resolved, number, raw)?;
    Ok(told)
}

/// The job of evaluating each solution of a batch.
pub struct Judging;

impl SolutionJob for Judging {
    type Made = Seq<Verdict>;

    ghost made = { λ _ r rows. map (numbered_verdict r) rows };

    fn make<G: Gate>(
        &self,
        alloc: Global,
        solutions: &Solutions<'_>,
        first: usize,
        count: usize,
        gate: &G,
    ) -> Result<Seq<Verdict>, NoMemory> {
        let Solutions {
            resolved,
            rooms,
            raws,
        } = *solutions;
        let mut told = Vec::with_capacity(alloc, count)?;
        for number in first..first + count {
            gate.pass(number as u64);
            told.push(numbered(alloc, resolved, rooms, number as u32, raws[number])?)?;
        }
        Ok(Seq { items: told })
    }

    fn size(&self, made: &Seq<Verdict>) -> usize {
        let mut size = 0_usize;
        for verdict in made.as_slice() {
            size = size.saturating_add(verdict.size());
        }
        size
    }
}

// Workers share what comes of solutions: the types show it, and no program calls this.
#[allow(dead_code)]
fn verdicts_are_shared(verdict: &Verdict) {
    lends_to_threads(verdict);
}
