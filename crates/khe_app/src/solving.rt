//! Archives with one of their solutions replaced by the least result of many repairs of it.

ghost use Rattle.std.specs.Prelude.{◌≡◌, ◌≤◌, ◌⊎◌, ℕ, List, Some, IfOk, IsTrue, encode_utf8_all};
ghost use Rattle.khe_base.specs.declared.limits.TheConstants.{CHAIN_MOVES, JOBS, WORKERS};
ghost use Rattle.khe_instance.specs.States.{IsTold, IsValid};
ghost use Rattle.parallel_repair.specs.Jobs.{job_answer};
ghost use Rattle.parallel_repair.specs.Solved.{IsSolved};
ghost use Rattle.repair_run.specs.Solves.{IsSolveText, solve_bytes};
ghost use Rattle.xhstt_entries.specs.Texts.{HasSpellable};
ghost use Rattle.xhstt_shape.specs.WellFormed.{IsWellFormed};
ghost use Rattle.khe_io.specs.Shelf.{IsMissing};
ghost use Rattle.reading_commands.specs.Answers.{reading_of, IsReadyAnswer};
ghost use Rattle.archive_reading.specs.Starting.{start_of};
ghost use Rattle.khe_app.specs.Ends.{IsEnd};
ghost use Rattle.reading_commands.specs.Ends.{Written};
ghost use Rattle.khe_app.specs.Outcome.{IsSolveIn, IsSolveOf};
ghost use Rattle.archive_reading.specs.Ready.{IsReady};
ghost use Rattle.command_words.specs.Words.{solving};

use crate::program::put_unread;
use archive_reading::{ReadArchive, begin, instance_numbered};
use khe_base::NoMemory;
use khe_instance::{Instance, Plain};
use khe_io::{Gate, Shelf, Sink};
use parallel_repair::{Effort, Solved};
use reading_commands::{Answer, Crew, Status, Stop, answer_to, put_refusal};
use repair_run::send_solved;
use sixteen_families::Families;
use std::alloc::Global;
use std::thread::Threads;
use xhstt_shape::Archive;
use xhstt_writer::SendFault;

/// Which solution is solved, and how.
#[derive(Clone, Copy)]
pub(crate) struct Solving {
    /// The number of the solution, over all groups.
    pub solution: u32,
    /// The greatest number of moves of a chain, 1 to `CHAIN_MOVES`.
    pub depth: u32,
    /// How many chains each job may try, 1 to `BUDGET`.
    pub budget: u32,
    /// How many jobs there are, 1 to `JOBS`.
    pub jobs: u32,
}

/// Writes the archive under a name with the least result of several jobs in place of the solution of a
/// number, and the line on its job; or the line that refuses the archive or the solution.
#[tactic(auto, using(crate::proofs::EndsLemmas::end_starved, crate::proofs::EndsLemmas::end_stopped, crate::proofs::SolveEnds::solve_lacks))]
pub(crate) fn solve<R: Threads + Sync, S: Shelf, K: Sink, G: Gate>(
    alloc: Global,
    shelf: &mut S,
    out: &mut K,
    crew: &Crew<'_, R, G>,
    name: &str,
    asked: Solving,
) -> Status
    requires depth { (1 ≤ asked.depth) × (asked.depth ≤ CHAIN_MOVES) }
    requires budget { 1 ≤ asked.budget }
    requires jobs { (1 ≤ asked.jobs) × (asked.jobs ≤ JOBS) }
    requires workers { (1 ≤ crew.now.workers) × (crew.now.workers ≤ WORKERS) }
    ensures end { IsEnd (Some (solving name.now asked.solution asked.depth asked.budget asked.jobs))
        (S.holdings shelf.old) (S.is_sound shelf.old) (S.faults shelf.old) (S.faults shelf.new) (K.taken out.old)
        (K.taken out.new) (K.faults out.old) (K.faults out.new) result.0 }
    ensures status { result.0 ≡ 2 → ⊥ }
    ensures absent { IsTrue (S.is_sound shelf.old) → IsMissing (S.holdings shelf.old) name.now → result.0 ≡ 4 }
    ensures holdings { S.holdings shelf.new ≡ S.holdings shelf.old }
    ensures read_fault_ends { (result.0 ≡ 4) ⊎ (S.faults shelf.new ≡ S.faults shelf.old) }
    ensures shelf_faults { S.faults shelf.old ≤ S.faults shelf.new }
    ensures sound { IsTrue (S.is_sound shelf.old) → IsTrue (S.is_sound shelf.new) }
    ensures write_fault_ends { (result.0 ≡ 5) ⊎ (K.faults out.new ≡ K.faults out.old) }
    ensures sink_faults { K.faults out.old ≤ K.faults out.new }
{
    match answer_to(alloc, shelf, name) {
        Ok(answer) => write_solve(alloc, out, crew, answer, asked),
        Err(Stop::ReadFault) => Status(4),
        Err(Stop::NoMemory) => Status(6),
    }
}

/// Writes an archive with a solution replaced, or the line that refuses it.
fn write_solve<R: Threads + Sync, K: Sink, G: Gate>(
    alloc: Global,
    out: &mut K,
    crew: &Crew<'_, R, G>,
    answer: Answer,
    asked: Solving,
) -> Status
    requires ready { IsReadyAnswer answer }
    requires depth { (1 ≤ asked.depth) × (asked.depth ≤ CHAIN_MOVES) }
    requires budget { 1 ≤ asked.budget }
    requires jobs { (1 ≤ asked.jobs) × (asked.jobs ≤ JOBS) }
    requires workers { (1 ≤ crew.now.workers) × (crew.now.workers ≤ WORKERS) }
    ensures written { ((result.0 ≡ 6) × (K.taken out.new ≡ K.taken out.old))
        ⊎ ((status : ℕ) × (text : List ℕ) × IsSolveIn asked.solution asked.depth asked.budget asked.jobs
        (reading_of answer) status text
        × Written (K.taken out.old) (K.taken out.new) (K.faults out.old) (K.faults out.new) (encode_utf8_all text)
        status result.0) }
    ensures write_fault_ends { (result.0 ≡ 5) ⊎ (K.faults out.new ≡ K.faults out.old) }
    ensures sink_faults { K.faults out.old ≤ K.faults out.new }
{
    match answer {
        Answer::Read(mut read) => {
            let status = solve_in(alloc, out, crew, &mut read, asked);
            drop(read);
            status
        }
        Answer::Refused(refusal) => put_refusal(alloc, out, refusal),
    }
}

/// Writes an archive that is read with a solution replaced, or the line that refuses the solution.
fn solve_in<R: Threads + Sync, K: Sink, G: Gate>(
    alloc: Global,
    out: &mut K,
    crew: &Crew<'_, R, G>,
    read: &mut ReadArchive,
    asked: Solving,
) -> Status
    requires ready { IsReady read.old.archive read.old.resolved }
    requires depth { (1 ≤ asked.depth) × (asked.depth ≤ CHAIN_MOVES) }
    requires budget { 1 ≤ asked.budget }
    requires jobs { (1 ≤ asked.jobs) × (asked.jobs ≤ JOBS) }
    requires workers { (1 ≤ crew.now.workers) × (crew.now.workers ≤ WORKERS) }
    ensures written { ((result.0 ≡ 6) × (K.taken out.new ≡ K.taken out.old))
        ⊎ ((status : ℕ) × (text : List ℕ) × IsSolveOf read.old.archive asked.solution asked.depth asked.budget
        asked.jobs (start_of read.old.archive read.old.resolved asked.solution) status text
        × Written (K.taken out.old) (K.taken out.new) (K.faults out.old) (K.faults out.new) (encode_utf8_all text)
        status result.0) }
    ensures write_fault_ends { (result.0 ≡ 5) ⊎ (K.faults out.new ≡ K.faults out.old) }
    ensures sink_faults { K.faults out.old ≤ K.faults out.new }
{
    match begin(alloc, &read.archive, &read.resolved, asked.solution) {
        Ok((instance, plain)) => {
            let inst = instance_numbered(&read.resolved, instance);
            let status = put_solve(alloc, out, crew, &mut read.archive, inst, &plain, asked);
            drop(plain);
            status
        }
        Err(unread) => put_unread(alloc, out, unread),
    }
}

/// Repairs a timetable by several jobs, and writes the archive with the least result in place of the
/// solution.
fn put_solve<R: Threads + Sync, K: Sink, G: Gate>(
    alloc: Global,
    out: &mut K,
    crew: &Crew<'_, R, G>,
    archive: &mut Archive,
    inst: &Instance,
    plain: &Plain,
    asked: Solving,
) -> Status
    requires formed { IsWellFormed archive.old }
    requires texts { HasSpellable inst.now }
    requires valid { IsValid inst.now plain.now }
    requires depth { (1 ≤ asked.depth) × (asked.depth ≤ CHAIN_MOVES) }
    requires budget { 1 ≤ asked.budget }
    requires jobs { (1 ≤ asked.jobs) × (asked.jobs ≤ JOBS) }
    requires workers { (1 ≤ crew.now.workers) × (crew.now.workers ≤ WORKERS) }
    ensures written { ((result.0 ≡ 6) × (K.taken out.new ≡ K.taken out.old))
        ⊎ ((text : List ℕ) × IsSolveText archive.old asked.solution inst.now plain.now asked.depth asked.budget
        asked.jobs text
        × Written (K.taken out.old) (K.taken out.new) (K.faults out.old) (K.faults out.new) (encode_utf8_all text) 0
        result.0) }
    ensures write_fault_ends { (result.0 ≡ 5) ⊎ (K.faults out.new ≡ K.faults out.old) }
    ensures sink_faults { K.faults out.old ≤ K.faults out.new }
{
    inst.facts();
    match solve_jobs(alloc, crew, inst, plain, asked) {
        Ok(solved) => {
            let status = put_solved(alloc, out, archive, inst, &solved, asked.solution);
            drop(solved);
            status
        }
        Err(NoMemory) => Status(6),
    }
}

/// What several repairs of a timetable come to, over all families.
fn solve_jobs<R: Threads + Sync, G: Gate>(
    alloc: Global,
    crew: &Crew<'_, R, G>,
    inst: &Instance,
    plain: &Plain,
    asked: Solving,
) -> Result<Solved, NoMemory>
    requires valid { IsValid inst.now plain.now }
    requires depth { (1 ≤ asked.depth) × (asked.depth ≤ CHAIN_MOVES) }
    requires budget { 1 ≤ asked.budget }
    requires jobs { (1 ≤ asked.jobs) × (asked.jobs ≤ JOBS) }
    requires workers { (1 ≤ crew.now.workers) × (crew.now.workers ≤ WORKERS) }
    ensures solved { IfOk result (λ s. IsSolved (job_answer inst.now plain.now asked.depth asked.budget) asked.jobs s) }
    ensures valid { IfOk result (λ s. IsValid inst.now s.plain) }
{
    let effort = Effort {
        depth: asked.depth,
        budget: u64::from(asked.budget),
        jobs: u64::from(asked.jobs),
        workers: crew.workers,
    };
    parallel_repair::solve::<Families, R, G>(crew.rt, alloc, inst, plain, effort, crew.gate)
}

/// Writes an archive with the least result of many repairs in place of a solution, and the line on its
/// job.
fn put_solved<K: Sink>(
    alloc: Global,
    out: &mut K,
    archive: &mut Archive,
    inst: &Instance,
    solved: &Solved,
    number: u32,
) -> Status
    requires { IsTold inst.now solved.now.plain.meets solved.now.plain.tasks }
    ensures written { Written (K.taken out.old) (K.taken out.new) (K.faults out.old) (K.faults out.new)
        (solve_bytes archive.old number inst.now solved.now) 0 result.0 }
    ensures write_fault_ends { (result.0 ≡ 5) ⊎ (K.faults out.new ≡ K.faults out.old) }
    ensures sink_faults { K.faults out.old ≤ K.faults out.new }
{
    match send_solved(alloc, archive, number, inst, solved, out) {
        Ok(()) => Status(0),
        Err(SendFault::WriteFault) => Status(5),
        Err(SendFault::NoMemory) => Status(6),
    }
}
