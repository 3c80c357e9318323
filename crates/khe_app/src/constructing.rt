//! Archives with a timetable that is constructed of one of their instances.

ghost use Rattle.std.specs.Prelude.{◌≡◌, ◌≤◌, ◌⊎◌, ℕ, Option, List, Some, IsTrue, encode_utf8_all};
ghost use Rattle.khe_base.specs.declared.limits.TheConstants.{CHAIN_MOVES};
ghost use Rattle.construct.specs.Constructed.{IsBuilt};
ghost use Rattle.construct_run.specs.Constructs.{IsBuiltText, IsConstructText, IsMendedText, built_bytes, mended_bytes};
ghost use Rattle.khe_instance.specs.States.{IsTold, IsValid};
ghost use Rattle.xhstt_entries.specs.Texts.{HasSpellable};
ghost use Rattle.xhstt_shape.specs.Characters.{IsSpellable};
ghost use Rattle.xhstt_shape.specs.WellFormed.{IsWellFormed};
ghost use Rattle.khe_io.specs.Shelf.{IsMissing};
ghost use Rattle.reading_commands.specs.Answers.{reading_of, IsReadyAnswer};
ghost use Rattle.khe_app.specs.Ends.{IsEnd};
ghost use Rattle.reading_commands.specs.Ends.{Written};
ghost use Rattle.khe_app.specs.Outcome.{IsConstructIn, IsConstructOf};
ghost use Rattle.archive_reading.specs.Ready.{IsReady};
ghost use Rattle.command_words.specs.Requests.{AreChains};
ghost use Rattle.command_words.specs.Words.{constructing};
ghost use Rattle.std.specs.Prelude.{slice_get};

use archive_reading::{ReadArchive, Refusal, instance_numbered};
use construct::Built;
use construct_run::{build, send_built, send_mended};
use khe_base::NoMemory;
use khe_instance::Instance;
use khe_io::{Shelf, Sink};
use reading_commands::{Answer, Status, Stop, answer_to, put_refusal};
use repair_run::{Mended, mend};
use sixteen_families::Families;
use std::alloc::Global;
use xhstt_shape::Archive;
use xhstt_writer::SendFault;

/// Writes the archive under a name whose only solution is a timetable that is constructed of the instance with a
/// number, repaired where chains are given, and the lines on it; or the line that refuses the archive or the number.
#[tactic(auto, using(crate::proofs::EndsLemmas::end_starved, crate::proofs::EndsLemmas::end_stopped, crate::proofs::ConstructEnds::construct_lacks))]
pub(crate) fn construct<S: Shelf, K: Sink>(
    alloc: Global,
    shelf: &mut S,
    out: &mut K,
    name: &str,
    number: u32,
    chains: Option<(u32, u32)>,
) -> Status
    requires chains { AreChains chains }
    ensures end { IsEnd (Some (constructing name.now number chains)) (S.holdings shelf.old) (S.is_sound shelf.old) (S.faults shelf.old) (S.faults shelf.new) (K.taken out.old) (K.taken out.new) (K.faults out.old) (K.faults out.new) result.0 }
    ensures status { result.0 ≡ 2 → ⊥ }
    ensures absent { IsTrue (S.is_sound shelf.old) → IsMissing (S.holdings shelf.old) name.now → result.0 ≡ 4 }
    ensures holdings { S.holdings shelf.new ≡ S.holdings shelf.old }
    ensures read_fault_ends { (result.0 ≡ 4) ⊎ (S.faults shelf.new ≡ S.faults shelf.old) }
    ensures shelf_faults { S.faults shelf.old ≤ S.faults shelf.new }
    ensures sound { IsTrue (S.is_sound shelf.old) → IsTrue (S.is_sound shelf.new) }
    ensures write_fault_ends { (result.0 ≡ 5) ⊎ (K.faults out.new ≡ K.faults out.old) }
    ensures sink_faults { K.faults out.old ≤ K.faults out.new }
{
    match answer_to(alloc, shelf, name) {
        Ok(answer) => write_construct(alloc, out, answer, number, chains),
        Err(Stop::ReadFault) => Status(4),
        Err(Stop::NoMemory) => Status(6),
    }
}

/// Writes an archive with what is constructed, or the line that refuses it.
fn write_construct<K: Sink>(
    alloc: Global,
    out: &mut K,
    answer: Answer,
    number: u32,
    chains: Option<(u32, u32)>,
) -> Status
    requires ready { IsReadyAnswer answer }
    requires chains { AreChains chains }
    ensures written { ((result.0 ≡ 6) × (K.taken out.new ≡ K.taken out.old)) ⊎ ((status : ℕ) × (text : List ℕ) × IsConstructIn number chains (reading_of answer) status text
        × Written (K.taken out.old) (K.taken out.new) (K.faults out.old) (K.faults out.new) (encode_utf8_all text) status result.0) }
    ensures write_fault_ends { (result.0 ≡ 5) ⊎ (K.faults out.new ≡ K.faults out.old) }
    ensures sink_faults { K.faults out.old ≤ K.faults out.new }
{
    match answer {
        Answer::Read(mut read) => {
            let status = construct_in(alloc, out, &mut read, number, chains);
            drop(read);
            status
        }
        Answer::Refused(refusal) => put_refusal(alloc, out, refusal),
    }
}

/// Writes an archive that is read with what is constructed, or the line that refuses the number.
fn construct_in<K: Sink>(
    alloc: Global,
    out: &mut K,
    read: &mut ReadArchive,
    number: u32,
    chains: Option<(u32, u32)>,
) -> Status
    requires ready { IsReady read.old.archive read.old.resolved }
    requires chains { AreChains chains }
    ensures written { ((result.0 ≡ 6) × (K.taken out.new ≡ K.taken out.old)) ⊎ ((status : ℕ) × (text : List ℕ) × IsConstructOf read.old.archive chains (slice_get read.old.resolved.instances number) status text
        × Written (K.taken out.old) (K.taken out.new) (K.faults out.old) (K.faults out.new) (encode_utf8_all text) status result.0) }
    ensures write_fault_ends { (result.0 ≡ 5) ⊎ (K.faults out.new ≡ K.faults out.old) }
    ensures sink_faults { K.faults out.old ≤ K.faults out.new }
{
    if read.resolved.instances.len() <= number as usize {
        return put_refusal(alloc, out, Refusal::NoSuchInstance);
    }
    let inst = instance_numbered(&read.resolved, number as usize);
    put_construct(alloc, out, &mut read.archive, inst, chains)
}

/// Constructs a timetable, and writes the archive whose only solution it is.
fn put_construct<K: Sink>(
    alloc: Global,
    out: &mut K,
    archive: &mut Archive,
    inst: &Instance,
    chains: Option<(u32, u32)>,
) -> Status
    requires formed { IsWellFormed archive.old }
    requires texts { HasSpellable inst.now }
    requires id { IsSpellable inst.now.id }
    requires chains { AreChains chains }
    ensures written { ((result.0 ≡ 6) × (K.taken out.new ≡ K.taken out.old)) ⊎ ((text : List ℕ) × IsConstructText archive.old inst.now chains text
        × Written (K.taken out.old) (K.taken out.new) (K.faults out.old) (K.faults out.new) (encode_utf8_all text) 0 result.0) }
    ensures write_fault_ends { (result.0 ≡ 5) ⊎ (K.faults out.new ≡ K.faults out.old) }
    ensures sink_faults { K.faults out.old ≤ K.faults out.new }
{
    match build::<Families>(alloc, inst) {
        Ok(built) => {
            let status = put_with(alloc, out, archive, inst, &built, chains);
            drop(built);
            status
        }
        Err(NoMemory) => Status(6),
    }
}

/// Writes an archive whose only solution is what was built, repaired where chains are given.
fn put_with<K: Sink>(
    alloc: Global,
    out: &mut K,
    archive: &mut Archive,
    inst: &Instance,
    built: &Built,
    chains: Option<(u32, u32)>,
) -> Status
    requires formed { IsWellFormed archive.old }
    requires texts { HasSpellable inst.now }
    requires id { IsSpellable inst.now.id }
    requires chains { AreChains chains }
    requires built { IsBuilt inst.now built.now }
    requires valid { IsValid inst.now built.now.plain }
    ensures written { ((result.0 ≡ 6) × (K.taken out.new ≡ K.taken out.old)) ⊎ ((text : List ℕ) × IsConstructText archive.old inst.now chains text
        × Written (K.taken out.old) (K.taken out.new) (K.faults out.old) (K.faults out.new) (encode_utf8_all text) 0 result.0) }
    ensures write_fault_ends { (result.0 ≡ 5) ⊎ (K.faults out.new ≡ K.faults out.old) }
    ensures sink_faults { K.faults out.old ≤ K.faults out.new }
{
    match chains {
        None => put_alone(alloc, out, archive, inst, built),
        Some((depth, budget)) => put_repaired(alloc, out, archive, inst, built, depth, budget),
    }
}

/// Writes an archive whose only solution is what was built, and the line on it.
fn put_alone<K: Sink>(
    alloc: Global,
    out: &mut K,
    archive: &mut Archive,
    inst: &Instance,
    built: &Built,
) -> Status
    requires formed { IsWellFormed archive.old }
    requires texts { HasSpellable inst.now }
    requires id { IsSpellable inst.now.id }
    requires built { IsBuilt inst.now built.now }
    requires valid { IsValid inst.now built.now.plain }
    ensures written { (text : List ℕ) × IsBuiltText archive.old inst.now text
        × Written (K.taken out.old) (K.taken out.new) (K.faults out.old) (K.faults out.new) (encode_utf8_all text) 0 result.0 }
    ensures write_fault_ends { (result.0 ≡ 5) ⊎ (K.faults out.new ≡ K.faults out.old) }
    ensures sink_faults { K.faults out.old ≤ K.faults out.new }
{
    inst.facts();
    put_built(alloc, out, archive, inst, built)
}

/// Repairs what was built, and writes an archive whose only solution the repair's is, and both lines.
fn put_repaired<K: Sink>(
    alloc: Global,
    out: &mut K,
    archive: &mut Archive,
    inst: &Instance,
    built: &Built,
    depth: u32,
    budget: u32,
) -> Status
    requires formed { IsWellFormed archive.old }
    requires texts { HasSpellable inst.now }
    requires id { IsSpellable inst.now.id }
    requires built { IsBuilt inst.now built.now }
    requires valid { IsValid inst.now built.now.plain }
    requires depth { (1 ≤ depth) × (depth ≤ CHAIN_MOVES) }
    requires budget { 1 ≤ budget }
    ensures written { ((result.0 ≡ 6) × (K.taken out.new ≡ K.taken out.old)) ⊎ ((text : List ℕ) × IsMendedText archive.old inst.now depth budget text
        × Written (K.taken out.old) (K.taken out.new) (K.faults out.old) (K.faults out.new) (encode_utf8_all text) 0 result.0) }
    ensures write_fault_ends { (result.0 ≡ 5) ⊎ (K.faults out.new ≡ K.faults out.old) }
    ensures sink_faults { K.faults out.old ≤ K.faults out.new }
{
    inst.facts();
    match mend::<Families>(alloc, inst, &built.plain, depth, u64::from(budget)) {
        Ok(mended) => {
            let status = put_both(alloc, out, archive, inst, built, &mended);
            drop(mended);
            status
        }
        Err(NoMemory) => Status(6),
    }
}

/// Writes an archive whose only solution is what was built, and the line on it.
fn put_built<K: Sink>(
    alloc: Global,
    out: &mut K,
    archive: &mut Archive,
    inst: &Instance,
    built: &Built,
) -> Status
    requires { IsTold inst.now built.now.plain.meets built.now.plain.tasks }
    ensures written { Written (K.taken out.old) (K.taken out.new) (K.faults out.old) (K.faults out.new) (built_bytes archive.old inst.now built.now) 0 result.0 }
    ensures write_fault_ends { (result.0 ≡ 5) ⊎ (K.faults out.new ≡ K.faults out.old) }
    ensures sink_faults { K.faults out.old ≤ K.faults out.new }
{
    match send_built(alloc, archive, inst, built, out) {
        Ok(()) => Status(0),
        Err(SendFault::WriteFault) => Status(5),
        Err(SendFault::NoMemory) => Status(6),
    }
}

/// Writes an archive whose only solution is what a repair leaves of what was built, and both lines.
fn put_both<K: Sink>(
    alloc: Global,
    out: &mut K,
    archive: &mut Archive,
    inst: &Instance,
    built: &Built,
    mended: &Mended,
) -> Status
    requires { IsTold inst.now mended.now.plain.meets mended.now.plain.tasks }
    ensures written { Written (K.taken out.old) (K.taken out.new) (K.faults out.old) (K.faults out.new) (mended_bytes archive.old inst.now built.now mended.now) 0 result.0 }
    ensures write_fault_ends { (result.0 ≡ 5) ⊎ (K.faults out.new ≡ K.faults out.old) }
    ensures sink_faults { K.faults out.old ≤ K.faults out.new }
{
    match send_mended(alloc, archive, inst, built, mended, out) {
        Ok(()) => Status(0),
        Err(SendFault::WriteFault) => Status(5),
        Err(SendFault::NoMemory) => Status(6),
    }
}
