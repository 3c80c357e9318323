//! Archives with one of their solutions repaired.

ghost use Rattle.std.specs.Prelude.{◌≡◌, ◌≤◌, ◌⊎◌, ℕ, List, Some, IsTrue, encode_utf8_all};
ghost use Rattle.khe_base.specs.declared.limits.TheConstants.{CHAIN_MOVES};
ghost use Rattle.khe_instance.specs.States.{IsTold, IsValid};
ghost use Rattle.repair_run.specs.Repairs.{IsRepairText, repair_bytes};
ghost use Rattle.xhstt_entries.specs.Texts.{HasSpellable};
ghost use Rattle.xhstt_shape.specs.WellFormed.{IsWellFormed};
ghost use Rattle.khe_io.specs.Shelf.{IsMissing};
ghost use Rattle.reading_commands.specs.Answers.{reading_of, IsReadyAnswer};
ghost use Rattle.khe_app.specs.Ends.{IsEnd};
ghost use Rattle.reading_commands.specs.Ends.{Written};
ghost use Rattle.khe_app.specs.Outcome.{IsRepairIn, IsRepairOf};
ghost use Rattle.archive_reading.specs.Starting.{start_of};
ghost use Rattle.archive_reading.specs.Ready.{IsReady};
ghost use Rattle.command_words.specs.Words.{repairing};

use crate::program::put_unread;
use archive_reading::{ReadArchive, begin, instance_numbered};
use khe_base::NoMemory;
use khe_instance::{Instance, Plain};
use khe_io::{Shelf, Sink};
use reading_commands::{Answer, Status, Stop, answer_to, put_refusal};
use repair_run::{Mended, mend, send_repaired};
use sixteen_families::Families;
use std::alloc::Global;
use xhstt_shape::Archive;
use xhstt_writer::SendFault;

/// Which solution is repaired, and how.
#[derive(Clone, Copy)]
pub(crate) struct Repairing {
    /// The number of the solution, over all groups.
    pub solution: u32,
    /// The greatest number of moves of a chain, 1 to `CHAIN_MOVES`.
    pub depth: u32,
    /// How many chains may be tried, 1 to `BUDGET`.
    pub budget: u32,
}

/// Writes the archive under a name with the solution of a number repaired, and the line on the repair; or
/// the line that refuses the archive or the solution.
#[tactic(auto, using(crate::proofs::EndsLemmas::end_starved, crate::proofs::EndsLemmas::end_stopped, crate::proofs::RepairEnds::repair_lacks))]
pub(crate) fn repair<S: Shelf, K: Sink>(
    alloc: Global,
    shelf: &mut S,
    out: &mut K,
    name: &str,
    asked: Repairing,
) -> Status
    requires depth { (1 ≤ asked.depth) × (asked.depth ≤ CHAIN_MOVES) }
    requires budget { 1 ≤ asked.budget }
    ensures end { IsEnd (Some (repairing name.now asked.solution asked.depth asked.budget)) (S.holdings shelf.old) (S.is_sound shelf.old) (S.faults shelf.old) (S.faults shelf.new) (K.taken out.old) (K.taken out.new) (K.faults out.old) (K.faults out.new) result.0 }
    ensures status { result.0 ≡ 2 → ⊥ }
    ensures absent { IsTrue (S.is_sound shelf.old) → IsMissing (S.holdings shelf.old) name.now → result.0 ≡ 4 }
    ensures holdings { S.holdings shelf.new ≡ S.holdings shelf.old }
    ensures read_fault_ends { (result.0 ≡ 4) ⊎ (S.faults shelf.new ≡ S.faults shelf.old) }
    ensures shelf_faults { S.faults shelf.old ≤ S.faults shelf.new }
    ensures sound { IsTrue (S.is_sound shelf.old) → IsTrue (S.is_sound shelf.new) }
    ensures write_fault_ends { (result.0 ≡ 5) ⊎ (K.faults out.new ≡ K.faults out.old) }
    ensures sink_faults { K.faults out.old ≤ K.faults out.new }
{
    match answer_to(alloc, shelf, name) {
        Ok(answer) => write_repair(alloc, out, answer, asked),
        Err(Stop::ReadFault) => Status(4),
        Err(Stop::NoMemory) => Status(6),
    }
}

/// Writes an archive with a solution repaired, or the line that refuses it.
fn write_repair<K: Sink>(alloc: Global, out: &mut K, answer: Answer, asked: Repairing) -> Status
    requires ready { IsReadyAnswer answer }
    requires depth { (1 ≤ asked.depth) × (asked.depth ≤ CHAIN_MOVES) }
    requires budget { 1 ≤ asked.budget }
    ensures written { ((result.0 ≡ 6) × (K.taken out.new ≡ K.taken out.old)) ⊎ ((status : ℕ) × (text : List ℕ) × IsRepairIn asked.solution asked.depth asked.budget (reading_of answer) status text
        × Written (K.taken out.old) (K.taken out.new) (K.faults out.old) (K.faults out.new) (encode_utf8_all text) status result.0) }
    ensures write_fault_ends { (result.0 ≡ 5) ⊎ (K.faults out.new ≡ K.faults out.old) }
    ensures sink_faults { K.faults out.old ≤ K.faults out.new }
{
    match answer {
        Answer::Read(mut read) => {
            let status = repair_in(alloc, out, &mut read, asked);
            drop(read);
            status
        }
        Answer::Refused(refusal) => put_refusal(alloc, out, refusal),
    }
}

/// Writes an archive that is read with a solution repaired, or the line that refuses the solution.
fn repair_in<K: Sink>(
    alloc: Global,
    out: &mut K,
    read: &mut ReadArchive,
    asked: Repairing,
) -> Status
    requires ready { IsReady read.old.archive read.old.resolved }
    requires depth { (1 ≤ asked.depth) × (asked.depth ≤ CHAIN_MOVES) }
    requires budget { 1 ≤ asked.budget }
    ensures written { ((result.0 ≡ 6) × (K.taken out.new ≡ K.taken out.old)) ⊎ ((status : ℕ) × (text : List ℕ) × IsRepairOf read.old.archive asked.solution asked.depth asked.budget (start_of read.old.archive read.old.resolved asked.solution) status text
        × Written (K.taken out.old) (K.taken out.new) (K.faults out.old) (K.faults out.new) (encode_utf8_all text) status result.0) }
    ensures write_fault_ends { (result.0 ≡ 5) ⊎ (K.faults out.new ≡ K.faults out.old) }
    ensures sink_faults { K.faults out.old ≤ K.faults out.new }
{
    match begin(alloc, &read.archive, &read.resolved, asked.solution) {
        Ok((instance, plain)) => {
            let inst = instance_numbered(&read.resolved, instance);
            let status = put_repair(alloc, out, &mut read.archive, inst, &plain, asked);
            drop(plain);
            status
        }
        Err(unread) => put_unread(alloc, out, unread),
    }
}

/// Repairs a timetable, and writes the archive with it in place of the solution.
fn put_repair<K: Sink>(
    alloc: Global,
    out: &mut K,
    archive: &mut Archive,
    inst: &Instance,
    plain: &Plain,
    asked: Repairing,
) -> Status
    requires formed { IsWellFormed archive.old }
    requires texts { HasSpellable inst.now }
    requires valid { IsValid inst.now plain.now }
    requires depth { (1 ≤ asked.depth) × (asked.depth ≤ CHAIN_MOVES) }
    requires budget { 1 ≤ asked.budget }
    ensures written { ((result.0 ≡ 6) × (K.taken out.new ≡ K.taken out.old)) ⊎ ((text : List ℕ) × IsRepairText archive.old asked.solution inst.now plain.now asked.depth asked.budget text
        × Written (K.taken out.old) (K.taken out.new) (K.faults out.old) (K.faults out.new) (encode_utf8_all text) 0 result.0) }
    ensures write_fault_ends { (result.0 ≡ 5) ⊎ (K.faults out.new ≡ K.faults out.old) }
    ensures sink_faults { K.faults out.old ≤ K.faults out.new }
{
    inst.facts();
    match mend::<Families>(alloc, inst, plain, asked.depth, u64::from(asked.budget)) {
        Ok(mended) => put_mended(alloc, out, archive, inst, &mended, asked.solution),
        Err(NoMemory) => Status(6),
    }
}

/// Writes an archive with what a repair leaves in place of a solution, and the line on the repair.
fn put_mended<K: Sink>(
    alloc: Global,
    out: &mut K,
    archive: &mut Archive,
    inst: &Instance,
    mended: &Mended,
    number: u32,
) -> Status
    requires { IsTold inst.now mended.now.plain.meets mended.now.plain.tasks }
    ensures written { Written (K.taken out.old) (K.taken out.new) (K.faults out.old) (K.faults out.new) (repair_bytes archive.old number inst.now mended.now) 0 result.0 }
    ensures write_fault_ends { (result.0 ≡ 5) ⊎ (K.faults out.new ≡ K.faults out.old) }
    ensures sink_faults { K.faults out.old ≤ K.faults out.new }
{
    match send_repaired(alloc, archive, number, inst, mended, out) {
        Ok(()) => Status(0),
        Err(SendFault::WriteFault) => Status(5),
        Err(SendFault::NoMemory) => Status(6),
    }
}
