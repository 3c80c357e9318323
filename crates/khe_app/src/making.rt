//! Archives that are made, and the runs of their jobs.

ghost use Rattle.std.specs.Prelude.{◌≡◌, ◌≤◌, ◌⊎◌, ℕ, Bool, List, Some, encode_utf8_all};
ghost use Rattle.khe_base.specs.declared.limits.TheConstants.{MADE_EVENTS};
ghost use Rattle.archive_generator.specs.Made.{made, state_after};
ghost use Rattle.khe_instance.specs.States.{IsValid};
ghost use Rattle.made_run.specs.Runs.{IsJob, IsRunLine};
ghost use Rattle.xhstt_shape.specs.WellFormed.{IsWellFormed};
ghost use Rattle.khe_app.specs.Ends.{IsEnd};
ghost use Rattle.reading_commands.specs.Ends.{Holdings, Written};
ghost use Rattle.khe_app.specs.Outcome.{IsRunTo};
ghost use Rattle.archive_reading.specs.Ready.{IsReady};
ghost use Rattle.command_words.specs.Words.{making, running};
ghost use Rattle.archive_reading.specs.declared.reading.Unread.TheVariants as unread_by;
ghost use Rattle.xhstt_resolve.specs.declared.faults.ResolveFault.TheVariants as resolve_fault;

use archive_generator::{Draws, generate, slot_count};
use archive_reading::{Unread, begin, instance_numbered};
use khe_base::NoMemory;
use khe_instance::{Instance, Plain};
use khe_io::Sink;
use made_run::{Job, run_line};
use reading_commands::{Status, put, put_spelling};
use sixteen_families::Families;
use std::alloc::Global;
use std::mem::ManuallyDrop;
use xhstt_resolve::{ResolveFault, Resolved, resolve};
use xhstt_shape::Archive;

/// Writes the archive that is made from a seed, with the given number of events. It stays in memory, as what is read
/// for a report does: a run is the end of a process.
pub(crate) fn make<K: Sink>(alloc: Global, out: &mut K, seed: u64, size: u32) -> Status
    ensures end { (h : Holdings) (sound : Bool) (faults : ℕ) → IsEnd (Some (making seed size)) h sound faults faults (K.taken out.old) (K.taken out.new) (K.faults out.old) (K.faults out.new) result.0 }
    ensures status { result.0 ≡ 2 → ⊥ }
    ensures write_fault_ends { (result.0 ≡ 5) ⊎ (K.faults out.new ≡ K.faults out.old) }
    ensures sink_faults { K.faults out.old ≤ K.faults out.new }
{
    match generate(alloc, &mut Draws::new(seed), size) {
        Ok(archive) => {
            let status = put_spelling(alloc, out, &archive);
            let _left = ManuallyDrop::new(archive);
            status
        }
        Err(NoMemory) => Status(6),
    }
}

/// Writes the line on the run of the job that is made from a seed, with the given number of events.
pub(crate) fn make_run<K: Sink>(alloc: Global, out: &mut K, seed: u64, size: u32) -> Status
    requires { (1 ≤ size) × (size ≤ MADE_EVENTS) }
    ensures end { (h : Holdings) (sound : Bool) (faults : ℕ) → IsEnd (Some (running seed size)) h sound faults faults (K.taken out.old) (K.taken out.new) (K.faults out.old) (K.faults out.new) result.0 }
    ensures status { result.0 ≡ 2 → ⊥ }
    ensures write_fault_ends { (result.0 ≡ 5) ⊎ (K.faults out.new ≡ K.faults out.old) }
    ensures sink_faults { K.faults out.old ≤ K.faults out.new }
{
    let mut draws = Draws::new(seed);
    match generate(alloc, &mut draws, size) {
        Ok(archive) => {
            let status = run_made(alloc, out, &archive, &mut draws, seed, size);
            let _left = ManuallyDrop::new(archive);
            status
        }
        Err(NoMemory) => Status(6),
    }
}

/// Writes the line on the run of a job whose archive was made, which is never refused.
fn run_made<K: Sink>(
    alloc: Global,
    out: &mut K,
    archive: &Archive,
    draws: &mut Draws,
    seed: u64,
    size: u32,
) -> Status
    requires size { (1 ≤ size) × (size ≤ MADE_EVENTS) }
    requires made { archive.now ≡ made seed size }
    requires formed { IsWellFormed archive.now }
    requires drawn { draws.old.state ≡ state_after seed size }
    ensures written { ((result.0 ≡ 6) × (K.taken out.new ≡ K.taken out.old)) ⊎ ((text : List ℕ) × IsRunTo seed size 0 text
        × Written (K.taken out.old) (K.taken out.new) (K.faults out.old) (K.faults out.new) (encode_utf8_all text) 0 result.0) }
    ensures write_fault_ends { (result.0 ≡ 5) ⊎ (K.faults out.new ≡ K.faults out.old) }
    ensures sink_faults { K.faults out.old ≤ K.faults out.new }
{
    let job = Job {
        seed,
        size,
        slots: slot_count(archive, seed, size),
    };
    match resolve(alloc, archive) {
        Ok(resolved) => {
            let status = run_resolved(alloc, out, archive, &resolved, draws, job);
            drop(resolved);
            status
        }
        Err(fault) => not_resolved(fault),
    }
}

/// The status where an archive isn't resolved that is never refused: memory ran out.
fn not_resolved(fault: ResolveFault) -> Status
    requires { fault ≡ resolve_fault.NoMemory }
    ensures { result.0 ≡ 6 }
{
    match fault {
        ResolveFault::NoMemory => Status(6),
        _ => unreachable!(),
    }
}

/// Writes the line on the run of a job on the first solution of its archive, which is never invalid.
fn run_resolved<K: Sink>(
    alloc: Global,
    out: &mut K,
    archive: &Archive,
    resolved: &Resolved,
    draws: &mut Draws,
    job: Job,
) -> Status
    requires size { (1 ≤ job.size) × (job.size ≤ MADE_EVENTS) }
    requires made { archive.now ≡ made job.seed job.size }
    requires ready { IsReady archive.now resolved.now }
    requires job { IsJob job }
    requires drawn { draws.old.state ≡ state_after job.seed job.size }
    ensures written { ((result.0 ≡ 6) × (K.taken out.new ≡ K.taken out.old)) ⊎ ((text : List ℕ) × IsRunTo job.seed job.size 0 text
        × Written (K.taken out.old) (K.taken out.new) (K.faults out.old) (K.faults out.new) (encode_utf8_all text) 0 result.0) }
    ensures write_fault_ends { (result.0 ≡ 5) ⊎ (K.faults out.new ≡ K.faults out.old) }
    ensures sink_faults { K.faults out.old ≤ K.faults out.new }
{
    match begin(alloc, archive, resolved, 0) {
        Ok((instance, plain)) => {
            let inst = instance_numbered(resolved, instance);
            let status = put_run(alloc, out, inst, &plain, draws, job);
            drop(plain);
            status
        }
        Err(unread) => not_begun(unread),
    }
}

/// The status where a solution isn't completed that is never invalid: memory ran out.
fn not_begun(unread: Unread) -> Status
    requires { unread ≡ unread_by.NoMemory }
    ensures { result.0 ≡ 6 }
{
    match unread {
        Unread::NoMemory => Status(6),
        Unread::Refused(_) => unreachable!(),
    }
}

/// Writes the line on the run of a job on a timetable.
fn put_run<K: Sink>(
    alloc: Global,
    out: &mut K,
    inst: &Instance,
    plain: &Plain,
    draws: &mut Draws,
    job: Job,
) -> Status
    requires valid { IsValid inst.now plain.now }
    requires job { IsJob job }
    requires drawn { draws.old.state ≡ state_after job.seed job.size }
    ensures written { ((result.0 ≡ 6) × (K.taken out.new ≡ K.taken out.old)) ⊎ ((text : List ℕ) × IsRunLine job.seed job.size inst.now plain.now text
        × Written (K.taken out.old) (K.taken out.new) (K.faults out.old) (K.faults out.new) (encode_utf8_all text) 0 result.0) }
    ensures write_fault_ends { (result.0 ≡ 5) ⊎ (K.faults out.new ≡ K.faults out.old) }
    ensures sink_faults { K.faults out.old ≤ K.faults out.new }
{
    match run_line::<Families>(alloc, inst, plain, draws, job) {
        Ok(line) => put(out, 0, line.as_bytes()),
        Err(NoMemory) => Status(6),
    }
}
