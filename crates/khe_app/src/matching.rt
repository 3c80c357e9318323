//! Archives with the tasks of one time of one of their solutions matched.

ghost use Rattle.std.specs.Prelude.{◌≡◌, ◌<◌, ◌≤◌, ◌⊎◌, ℕ, List, Some, IsTrue, encode_utf8_all, length};
ghost use Rattle.khe_instance.specs.States.{IsTold, IsValid};
ghost use Rattle.khe_io.specs.Shelf.{IsMissing};
ghost use Rattle.match_run.specs.Fitting.{FitsLists};
ghost use Rattle.match_run.specs.Texts.{match_bytes};
ghost use Rattle.xhstt_entries.specs.Texts.{HasSpellable};
ghost use Rattle.resource_match.specs.Choices.{IsCertified};
ghost use Rattle.resource_match.specs.declared.choices.Costs.{Costs};
ghost use Rattle.xhstt_shape.specs.WellFormed.{IsWellFormed};
ghost use Rattle.reading_commands.specs.Answers.{reading_of, IsReadyAnswer};
ghost use Rattle.khe_app.specs.Ends.{IsEnd};
ghost use Rattle.reading_commands.specs.Ends.{Written};
ghost use Rattle.khe_app.specs.Outcome.{IsMatchIn, IsMatchOf, IsMatched, IsMatchedAt};
ghost use Rattle.archive_reading.specs.Starting.{start_of};
ghost use Rattle.archive_reading.specs.Ready.{IsReady};
ghost use Rattle.command_words.specs.Words.{matching};

use archive_reading::{ReadArchive, Refusal, Unread, begin, instance_numbered};
use khe_base::TimeId;
use khe_instance::{Instance, Plain};
use khe_io::{Shelf, Sink};
use match_run::{Found, find, send_matched};
use reading_commands::{Answer, Status, Stop, answer_to, put_refusal};
use sixteen_families::Families;
use std::alloc::Global;
use time_match::MatchFault;
use xhstt_shape::Archive;
use xhstt_writer::SendFault;

/// Whose tasks are matched, when, and with which resources.
#[derive(Clone, Copy)]
pub(crate) struct Wanted {
    /// The number of the solution, over all groups.
    pub solution: u32,
    /// The number of the time.
    pub time: u32,
    /// The number of the resource type.
    pub rtype: u32,
}

/// Writes the archive under a name with the tasks of a solution at a time matched, and the lines on the matching; or
/// the line that refuses the archive, the solution, the time, the type or the tasks.
#[tactic(auto, using(crate::proofs::EndsLemmas::end_starved, crate::proofs::EndsLemmas::end_stopped, crate::proofs::MatchEnds::match_lacks))]
pub(crate) fn match_tasks<S: Shelf, K: Sink>(
    alloc: Global,
    shelf: &mut S,
    out: &mut K,
    name: &str,
    wanted: Wanted,
) -> Status
    ensures end { IsEnd (Some (matching name.now wanted.solution wanted.time wanted.rtype)) (S.holdings shelf.old) (S.is_sound shelf.old) (S.faults shelf.old) (S.faults shelf.new) (K.taken out.old) (K.taken out.new) (K.faults out.old) (K.faults out.new) result.0 }
    ensures status { result.0 ≡ 2 → ⊥ }
    ensures absent { IsTrue (S.is_sound shelf.old) → IsMissing (S.holdings shelf.old) name.now → result.0 ≡ 4 }
    ensures holdings { S.holdings shelf.new ≡ S.holdings shelf.old }
    ensures read_fault_ends { (result.0 ≡ 4) ⊎ (S.faults shelf.new ≡ S.faults shelf.old) }
    ensures shelf_faults { S.faults shelf.old ≤ S.faults shelf.new }
    ensures sound { IsTrue (S.is_sound shelf.old) → IsTrue (S.is_sound shelf.new) }
    ensures write_fault_ends { (result.0 ≡ 5) ⊎ (K.faults out.new ≡ K.faults out.old) }
    ensures sink_faults { K.faults out.old ≤ K.faults out.new }
{
    match answer_to(alloc, shelf, name) {
        Ok(answer) => write_match(alloc, out, answer, wanted),
        Err(Stop::ReadFault) => Status(4),
        Err(Stop::NoMemory) => Status(6),
    }
}

/// Writes an archive with tasks matched, or the line that refuses it.
fn write_match<K: Sink>(alloc: Global, out: &mut K, answer: Answer, wanted: Wanted) -> Status
    requires ready { IsReadyAnswer answer }
    ensures written { ((result.0 ≡ 6) × (K.taken out.new ≡ K.taken out.old)) ⊎ ((status : ℕ) × (text : List ℕ) × IsMatchIn wanted.solution wanted.time wanted.rtype (reading_of answer) status text
        × Written (K.taken out.old) (K.taken out.new) (K.faults out.old) (K.faults out.new) (encode_utf8_all text) status result.0) }
    ensures write_fault_ends { (result.0 ≡ 5) ⊎ (K.faults out.new ≡ K.faults out.old) }
    ensures sink_faults { K.faults out.old ≤ K.faults out.new }
{
    match answer {
        Answer::Read(mut read) => {
            let status = match_in(alloc, out, &mut read, wanted);
            drop(read);
            status
        }
        Answer::Refused(refusal) => put_refusal(alloc, out, refusal),
    }
}

/// Writes an archive that is read with tasks matched, or the line that refuses what is asked for.
fn match_in<K: Sink>(alloc: Global, out: &mut K, read: &mut ReadArchive, wanted: Wanted) -> Status
    requires ready { IsReady read.old.archive read.old.resolved }
    ensures written { ((result.0 ≡ 6) × (K.taken out.new ≡ K.taken out.old)) ⊎ ((status : ℕ) × (text : List ℕ) × IsMatchOf read.old.archive wanted.solution wanted.time wanted.rtype (start_of read.old.archive read.old.resolved wanted.solution) status text
        × Written (K.taken out.old) (K.taken out.new) (K.faults out.old) (K.faults out.new) (encode_utf8_all text) status result.0) }
    ensures write_fault_ends { (result.0 ≡ 5) ⊎ (K.faults out.new ≡ K.faults out.old) }
    ensures sink_faults { K.faults out.old ≤ K.faults out.new }
{
    match begin(alloc, &read.archive, &read.resolved, wanted.solution) {
        Ok((instance, plain)) => {
            let inst = instance_numbered(&read.resolved, instance);
            let status = put_match(alloc, out, &mut read.archive, inst, &plain, wanted);
            drop(plain);
            status
        }
        Err(Unread::Refused(refusal)) => put_refusal(alloc, out, refusal),
        Err(Unread::NoMemory) => Status(6),
    }
}

/// Writes an archive with tasks of a timetable matched, or the line that refuses the time, the type or the tasks.
fn put_match<K: Sink>(
    alloc: Global,
    out: &mut K,
    archive: &mut Archive,
    inst: &Instance,
    plain: &Plain,
    wanted: Wanted,
) -> Status
    requires formed { IsWellFormed archive.old }
    requires texts { HasSpellable inst.now }
    requires valid { IsValid inst.now plain.now }
    ensures written { ((result.0 ≡ 6) × (K.taken out.new ≡ K.taken out.old)) ⊎ ((status : ℕ) × (text : List ℕ) × IsMatchedAt archive.old wanted.solution wanted.time wanted.rtype inst.now plain.now status text
        × Written (K.taken out.old) (K.taken out.new) (K.faults out.old) (K.faults out.new) (encode_utf8_all text) status result.0) }
    ensures write_fault_ends { (result.0 ≡ 5) ⊎ (K.faults out.new ≡ K.faults out.old) }
    ensures sink_faults { K.faults out.old ≤ K.faults out.new }
{
    if inst.times() <= wanted.time {
        return put_refusal(alloc, out, Refusal::NoSuchTime);
    }
    if inst.types() <= wanted.rtype {
        return put_refusal(alloc, out, Refusal::NoSuchType);
    }
    put_choice(alloc, out, archive, inst, plain, wanted)
}

/// Matches tasks of a timetable, and writes the archive with what it leaves in place of the solution.
fn put_choice<K: Sink>(
    alloc: Global,
    out: &mut K,
    archive: &mut Archive,
    inst: &Instance,
    plain: &Plain,
    wanted: Wanted,
) -> Status
    requires formed { IsWellFormed archive.old }
    requires texts { HasSpellable inst.now }
    requires valid { IsValid inst.now plain.now }
    ensures written { ((result.0 ≡ 6) × (K.taken out.new ≡ K.taken out.old)) ⊎ ((status : ℕ) × (text : List ℕ) × IsMatched archive.old wanted.solution wanted.time wanted.rtype inst.now plain.now status text
        × Written (K.taken out.old) (K.taken out.new) (K.faults out.old) (K.faults out.new) (encode_utf8_all text) status result.0) }
    ensures write_fault_ends { (result.0 ≡ 5) ⊎ (K.faults out.new ≡ K.faults out.old) }
    ensures sink_faults { K.faults out.old ≤ K.faults out.new }
{
    inst.facts();
    match find::<Families>(alloc, inst, plain, TimeId(wanted.time), wanted.rtype) {
        Ok(found) => {
            let status = put_found(alloc, out, archive, inst, &found, wanted.solution);
            drop(found);
            status
        }
        Err(MatchFault::TooManyTasks(tasks)) => {
            put_refusal(alloc, out, Refusal::TooManyTasks { tasks })
        }
        Err(MatchFault::NoMemory) => Status(6),
    }
}

/// Writes an archive with what a matching leaves in place of a solution, and the lines on it.
fn put_found<K: Sink>(
    alloc: Global,
    out: &mut K,
    archive: &mut Archive,
    inst: &Instance,
    found: &Found,
    number: u32,
) -> Status
    requires told { IsTold inst.now found.now.plain.meets found.now.plain.tasks }
    requires certified { (costs : Costs) × FitsLists found.now.matched costs × IsCertified costs found.now.matched.cheapest }
    ensures written { Written (K.taken out.old) (K.taken out.new) (K.faults out.old) (K.faults out.new) (match_bytes archive.old number inst.now found.now) 0 result.0 }
    ensures write_fault_ends { (result.0 ≡ 5) ⊎ (K.faults out.new ≡ K.faults out.old) }
    ensures sink_faults { K.faults out.old ≤ K.faults out.new }
{
    match send_matched(alloc, archive, number, inst, found, out) {
        Ok(()) => Status(0),
        Err(SendFault::WriteFault) => Status(5),
        Err(SendFault::NoMemory) => Status(6),
    }
}
