//! The whole program as one call.

ghost use Rattle.std.specs.Prelude.{◌≡◌, ◌≤◌, ◌<◌, ◌+◌, ◌^◌, ◌⊎◌, ℕ, List, [], Option, None, Some, IfOk, IfSome, IsErrOf, IsSome, IsTrue, OnOk, ◌↔◌, encode_utf8_all, length, map, slice_get, string_bytes};
ghost use Rattle.archive_reading.specs.Ready.{IsReady};
ghost use Rattle.khe_base.specs.declared.limits.TheConstants.{ARCHIVE_BYTES};
ghost use Rattle.khe_io.specs.Amid.{IsAmid};
ghost use Rattle.khe_io.specs.Faults.{Rose, Took};
ghost use Rattle.khe_io.specs.Shelf.{IsMissing};
ghost use Rattle.parallel_solve.specs.Ready.{AreOnes, IsOne};
ghost use Rattle.parallel_solve.specs.Verdicts.{numbered_verdict, parts_at, verdict_of};
ghost use Rattle.resource_deviations.specs.Sets.{room_for};
ghost use Rattle.timetable_page.specs.Endings.{AreAllSent, AreSent, IsPut, IsRefused, IsShown, IsStatus, Stands};
ghost use Rattle.timetable_page.specs.Pages.{IsSection};
ghost use Rattle.timetable_page.specs.Parts.{AreParts};
ghost use Rattle.timetable_page.specs.Refusals as refusals;
ghost use Rattle.timetable_page.specs.Words.{asked, shows};
ghost use Rattle.xhstt_completion.specs.Completed as completion;

use crate::draft::Draft;
use crate::opening::{closing, opening};
use crate::outcomes::outcomes;
use crate::parts::{Parts, Spelled};
use crate::refusing::refusal_page;
use crate::sections::{invalid_section, valid_section};
use crate::sending::send;
use crate::summary::{Results, group_numbers, group_title, push_summary};
use crate::words::{Choice, Request, request_of};
use archive_reading::{ReadArchive, Refusal, Unread, read};
use khe_base::{NoMemory, Seq, Text, limits};
use khe_instance::Instance;
use khe_io::{Cut, Shelf, Sink, TakeFault, put_all, take_all};
use parallel_solve::{Solutions, all_solutions, rooms_of};
use plain_eval::evaluate_in;
use resource_deviations::ResourceRoom;
use std::alloc::Global;
use std::thread::Threads;
use xhstt_completion::{SolutionFault, numbered_solution};
use xhstt_resolve::Resolved;
use xhstt_shape::{Archive, RawSolution};

/// Once sections come to this many bytes no further solution is shown: 50 MB.
pub const PAGE_BYTES: u64 = 50_000_000;

/// The status that a run ends with.
///
/// | Status | Meaning |
/// |---|---|
/// | 0 | the page was written |
/// | 2 | the words were not understood |
/// | 3 | the archive was refused; a page that says why was written |
/// | 4 | the archive could not be read |
/// | 5 | the page could not be written |
/// | 6 | memory ran out |
#[derive(Clone, Copy, PartialEq, Eq)]
pub struct Status(pub u8);

/// Reads the archive that the words name from the shelf, and writes its page to the sink; or a page with the line that
/// refuses it. The words are the archive's name, and options with their values in any order: `--solutions N` for the
/// timetables of the first N solutions in place of the first eight, or `--solution K`, as often as is wanted, for those
/// of the one with the number K; and `--workers N` for the number of workers that judge the solutions.
///
/// The page has a summary of all solutions, and of each one that is shown a section: its totals, its costs by
/// constraint with the monitors that deviate, a timetable of each resource, and its events. The totals are those that
/// `khe evaluate` reports. Solutions are shown until sections have more than 50 MB, and then the page says so. The
/// page is the same for every number of workers.
///
/// With other words nothing is read or written. Before a status of 4 nothing was written, and before a status of 5 or
/// 6 a first part of the page. The head of the page is written before solutions are judged, and each section once it is
/// made. It takes about the time of evaluating all solutions, divided among the workers, and those that are shown once
/// more, and of writing the page; and memory for the archive with its instances, the totals of all solutions, and the
/// section of one.
pub fn page<R: Threads + Sync, S: Shelf, K: Sink>(
    rt: &R,
    alloc: Global,
    words: &[String],
    shelf: &mut S,
    out: &mut K,
) -> Status
    ensures status { (result.0 ≡ 2) ⊎ IsStatus result.0 }
    ensures no_reading { asked (map string_bytes words.now) ≡ None → result.0 ≡ 2 }
    ensures not_understood { result.0 ≡ 2 → asked (map string_bytes words.now) ≡ None }
    ensures untouched { result.0 ≡ 2 → (shelf.new ≡ shelf.old) × (out.new ≡ out.old) }

    // With status 0 the sink took a whole page of the archive, with 3 the page that refuses it.
    ensures shown { IfSome (asked (map string_bytes words.now)) (λ w. result.0 ≡ 0 → Stands (S.holdings shelf.old) w.0 (IsShown w.1 (K.taken out.old) (K.taken out.new))) }
    ensures refused { IfSome (asked (map string_bytes words.now)) (λ w. result.0 ≡ 3 → Stands (S.holdings shelf.old) w.0 (IsRefused (K.taken out.old) (K.taken out.new))) }

    // Status 4 comes by a fault of the shelf and always where it counted one, on a sound shelf exactly where nothing
    // stands under the name.
    ensures read_fault { result.0 ≡ 4 → Rose (S.faults shelf.old) (S.faults shelf.new) }
    ensures read_fault_ends { (result.0 ≡ 4) ⊎ (S.faults shelf.new ≡ S.faults shelf.old) }
    ensures nothing_written { result.0 ≡ 4 → K.taken out.new ≡ K.taken out.old }
    ensures missing { IfSome (asked (map string_bytes words.now)) (λ w. IsTrue (S.is_sound shelf.old) → (result.0 ≡ 4) ↔ IsMissing (S.holdings shelf.old) w.0) }

    // Status 5 comes by a fault of the sink and always where it counted one.
    ensures write_fault { result.0 ≡ 5 → Rose (K.faults out.old) (K.faults out.new) }
    ensures write_fault_ends { (result.0 ≡ 5) ⊎ (K.faults out.new ≡ K.faults out.old) }
    ensures holdings { S.holdings shelf.new ≡ S.holdings shelf.old }
{
    match request_of(words) {
        Some(request) => respond(rt, alloc, shelf, out, &request),
        None => Status(2),
    }
}

/// Writes the page of the archive under a name.
fn respond<R: Threads + Sync, S: Shelf, K: Sink>(
    rt: &R,
    alloc: Global,
    shelf: &mut S,
    out: &mut K,
    request: &Request<'_>,
) -> Status
    ensures status { IsStatus result.0 }
    ensures shown { result.0 ≡ 0 → Stands (S.holdings shelf.old) request.now.archive.now (IsShown (shows request.now.choice) (K.taken out.old) (K.taken out.new)) }
    ensures refused { result.0 ≡ 3 → Stands (S.holdings shelf.old) request.now.archive.now (IsRefused (K.taken out.old) (K.taken out.new)) }
    ensures read_fault { result.0 ≡ 4 → Rose (S.faults shelf.old) (S.faults shelf.new) }
    ensures read_fault_ends { (result.0 ≡ 4) ⊎ (S.faults shelf.new ≡ S.faults shelf.old) }
    ensures nothing_written { result.0 ≡ 4 → K.taken out.new ≡ K.taken out.old }
    ensures missing { IsTrue (S.is_sound shelf.old) → (result.0 ≡ 4) ↔ IsMissing (S.holdings shelf.old) request.now.archive.now }
    ensures write_fault { result.0 ≡ 5 → Rose (K.faults out.old) (K.faults out.new) }
    ensures write_fault_ends { (result.0 ≡ 5) ⊎ (K.faults out.new ≡ K.faults out.old) }
    ensures holdings { S.holdings shelf.new ≡ S.holdings shelf.old }
{
    match take_all(alloc, shelf, request.archive, limits::ARCHIVE_BYTES) {
        Ok(bytes) => show(rt, alloc, out, bytes, &request.choice),
        Err(TakeFault::TooLarge) => refuse(alloc, out, Refusal::TooLarge),
        Err(TakeFault::ReadFault) => Status(4),
        Err(TakeFault::NoMemory) => Status(6),
    }
}

/// Writes the page of the archive that these bytes spell.
fn show<R: Threads + Sync, K: Sink>(
    rt: &R,
    alloc: Global,
    out: &mut K,
    bytes: Seq<u8>,
    choice: &Choice<'_>,
) -> Status
    requires { length bytes ≤ ARCHIVE_BYTES }
    ensures status { (result.0 ≡ 0) ⊎ (result.0 ≡ 3) ⊎ (result.0 ≡ 5) ⊎ (result.0 ≡ 6) }
    ensures shown { result.0 ≡ 0 → IsShown (shows choice.now) (K.taken out.old) (K.taken out.new) bytes }
    ensures refused { result.0 ≡ 3 → IsRefused (K.taken out.old) (K.taken out.new) bytes }
    ensures write_fault { result.0 ≡ 5 → Rose (K.faults out.old) (K.faults out.new) }
    ensures write_fault_ends { (result.0 ≡ 5) ⊎ (K.faults out.new ≡ K.faults out.old) }
{
    match read(alloc, bytes) {
        Ok(read) => put(rt, alloc, out, &read, choice),
        Err(Unread::Refused(refusal)) => refuse(alloc, out, refusal),
        Err(Unread::NoMemory) => Status(6),
    }
}

/// Writes the page that refuses an archive.
fn refuse<K: Sink>(alloc: Global, out: &mut K, refusal: Refusal) -> Status
    ensures status { (result.0 ≡ 3) ⊎ (result.0 ≡ 5) ⊎ (result.0 ≡ 6) }
    ensures took { result.0 ≡ 3 → Took (K.taken out.old) (K.taken out.new) (encode_utf8_all (refusals.refusal_page refusal)) }
    ensures write_fault { result.0 ≡ 5 → Rose (K.faults out.old) (K.faults out.new) }
    ensures write_fault_ends { (result.0 ≡ 5) ⊎ (K.faults out.new ≡ K.faults out.old) }
{
    match refusal_page(alloc, refusal) {
        Ok(text) => put_refusal(out, &text),
        Err(NoMemory) => Status(6),
    }
}

/// Writes the page that refuses an archive.
fn put_refusal<K: Sink>(out: &mut K, text: &Text) -> Status
    ensures status { (result.0 ≡ 3) ⊎ (result.0 ≡ 5) }
    ensures took { result.0 ≡ 3 → Took (K.taken out.old) (K.taken out.new) (encode_utf8_all text.now) }
    ensures write_fault { result.0 ≡ 5 → Rose (K.faults out.old) (K.faults out.new) }
    ensures write_fault_ends { (result.0 ≡ 5) ⊎ (K.faults out.new ≡ K.faults out.old) }
{
    match put_all(out, text.as_bytes()) {
        Ok(()) => Status(3),
        Err(_) => Status(5),
    }
}

/// Writes the page of an archive, and answers the status.
fn put<R: Threads + Sync, K: Sink>(
    rt: &R,
    alloc: Global,
    out: &mut K,
    read: &ReadArchive,
    choice: &Choice<'_>,
) -> Status
    requires { IsReady read.now.archive read.now.resolved }
    ensures status { (result.0 ≡ 0) ⊎ (result.0 ≡ 5) ⊎ (result.0 ≡ 6) }
    ensures put { result.0 ≡ 0 → IsPut read.now.archive read.now.resolved (shows choice.now) (K.taken out.old) (K.taken out.new) }
    ensures write_fault { result.0 ≡ 5 → Rose (K.faults out.old) (K.faults out.new) }
    ensures write_fault_ends { (result.0 ≡ 5) ⊎ (K.faults out.new ≡ K.faults out.old) }
{
    match write(rt, alloc, out, &read.archive, &read.resolved, choice) {
        Ok(()) => Status(0),
        Err(Cut::WriteFault) => Status(5),
        Err(Cut::NoMemory) => Status(6),
    }
}

/// The number of the instance of the solution with this number.
fn instance_of(resolved: &Resolved, number: u32) -> usize
    requires { IsSome (parts_at resolved.now number) }
    ensures at { parts_at resolved.now number ≡ slice_get resolved.now.instances result }
    ensures within { result < length resolved.now.instances }
{
    resolved.of.as_slice()[number as usize] as usize
}

/// The section of a solution of this instance, as it is spelled and as it is resolved.
fn section_of(
    alloc: Global,
    inst: &Instance,
    room: &ResourceRoom,
    resolved: &Resolved,
    spelled: &Spelled<'_>,
) -> Result<Text, NoMemory>
    requires one { IsOne resolved.now spelled.now.number spelled.now.solution.now }
    requires instance { parts_at resolved.now spelled.now.number ≡ Some inst.now }
    requires room { room.now ≡ room_for inst.now }
    ensures { IfOk result (IsSection (verdict_of inst.now (completion.completed inst.now spelled.now.solution.now))) }
{
    match numbered_solution(alloc, inst, resolved, spelled.number, spelled.solution) {
        Ok(plain) => {
            let values = evaluate_in(alloc, inst, room, &plain)?;
            valid_section(alloc, spelled, inst, &plain, &values)
        }
        Err(SolutionFault::Invalid { cause, entry }) => {
            invalid_section(alloc, spelled, cause, entry)
        }
        Err(SolutionFault::NoMemory) => Err(NoMemory),
    }
}

/// The section of the solution with a number.
fn section(
    alloc: Global,
    parts: &Parts<'_>,
    number: u32,
    solution: &RawSolution,
) -> Result<Text, NoMemory>
    requires one { IsOne parts.now.resolved.now number solution.now }
    requires rooms { parts.now.rooms.now ≡ map room_for parts.now.resolved.now.instances }
    requires same { length parts.now.archive.now.instances ≡ length parts.now.resolved.now.instances }
    ensures { IfOk result (IsSection (numbered_verdict parts.now.resolved.now (number, solution.now))) }
{
    let resolved = parts.resolved;
    let place = instance_of(resolved, number);
    let instance = &parts.archive.instances.as_slice()[place];
    let spelled = Spelled {
        number,
        instance,
        group: group_of(parts.archive, parts.groups, number, &instance.id.text),
        solution,
    };
    let inst = &resolved.instances.as_slice()[place];
    section_of(alloc, inst, &parts.rooms[place], resolved, &spelled)
}

/// What the group of the solution with a number is called.
fn group_of<'a>(archive: &'a Archive, groups: &[u32], number: u32, other: &'a Text) -> &'a Text {
    match groups.get(number as usize) {
        Some(group) => match group_title(archive, *group) {
            Some(title) => title,
            None => other,
        },
        None => other,
    }
}

/// Writes the section of the solution with a number, after a number of bytes of sections, and answers how many were
/// sent then.
fn write_section<K: Sink>(
    alloc: Global,
    out: &mut K,
    parts: &Parts<'_>,
    number: u32,
    solution: &RawSolution,
    sent: u64,
) -> Result<u64, Cut>
    requires one { IsOne parts.now.resolved.now number solution.now }
    requires rooms { parts.now.rooms.now ≡ map room_for parts.now.resolved.now.instances }
    requires same { length parts.now.archive.now.instances ≡ length parts.now.resolved.now.instances }
    ensures sent { (before : Option (List ℕ)) (opening : List ℕ) (raws : List RawSolution) → slice_get raws number ≡ Some solution.now → IsTrue (shows parts.now.choice number) → AreSent parts.now.resolved.now raws (shows parts.now.choice) number sent before (K.taken out.old) opening → IfOk result (λ more. AreSent parts.now.resolved.now raws (shows parts.now.choice) (number + 1) more before (K.taken out.new) opening) }
    ensures fault { IsErrOf result Cut.WriteFault → Rose (K.faults out.old) (K.faults out.new) }
    ensures faultless { OnOk result (K.faults out.new ≡ K.faults out.old) }
    ensures faultless_starved { IsErrOf result Cut.NoMemory → K.faults out.new ≡ K.faults out.old }
{
    let text = section(alloc, parts, number, solution)?;
    send(out, &text)?;
    Ok(sent.saturating_add(text.as_bytes().len() as u64))
}

/// Writes the section of the solution with a number, where it is to be shown, after a number of bytes of sections, and
/// answers how many were sent then.
fn write_shown<K: Sink>(
    alloc: Global,
    out: &mut K,
    parts: &Parts<'_>,
    number: u32,
    solution: &RawSolution,
    sent: u64,
) -> Result<u64, Cut>
    requires one { IsOne parts.now.resolved.now number solution.now }
    requires rooms { parts.now.rooms.now ≡ map room_for parts.now.resolved.now.instances }
    requires same { length parts.now.archive.now.instances ≡ length parts.now.resolved.now.instances }
    ensures sent { (before : Option (List ℕ)) (opening : List ℕ) (raws : List RawSolution) → slice_get raws number ≡ Some solution.now → AreSent parts.now.resolved.now raws (shows parts.now.choice) number sent before (K.taken out.old) opening → IfOk result (λ more. AreSent parts.now.resolved.now raws (shows parts.now.choice) (number + 1) more before (K.taken out.new) opening) }
    ensures fault { IsErrOf result Cut.WriteFault → Rose (K.faults out.old) (K.faults out.new) }
    ensures faultless { OnOk result (K.faults out.new ≡ K.faults out.old) }
    ensures faultless_starved { IsErrOf result Cut.NoMemory → K.faults out.new ≡ K.faults out.old }
{
    if parts.choice.shows(number) {
        return write_section(alloc, out, parts, number, solution, sent);
    }
    Ok(sent)
}

/// Writes the sections of the solutions that are to be shown, and answers of how many solutions they are.
fn write_sections<K: Sink>(alloc: Global, out: &mut K, parts: &Parts<'_>) -> Result<u32, Cut>
    requires ones { AreOnes parts.now.resolved.now 0 (map (λ x. x.now) parts.now.raws.now) }
    requires few { length parts.now.raws.now < 2 ^ 32 }
    requires rooms { parts.now.rooms.now ≡ map room_for parts.now.resolved.now.instances }
    requires same { length parts.now.archive.now.instances ≡ length parts.now.resolved.now.instances }
    ensures sent { (before : Option (List ℕ)) (opening : List ℕ) → IsAmid before (K.taken out.old) [] [] opening → IfOk result (λ n. AreAllSent parts.now.resolved.now (map (λ x. x.now) parts.now.raws.now) (shows parts.now.choice) n before (K.taken out.new) opening) }
    ensures fault { IsErrOf result Cut.WriteFault → Rose (K.faults out.old) (K.faults out.new) }
    ensures faultless { OnOk result (K.faults out.new ≡ K.faults out.old) }
    ensures faultless_starved { IsErrOf result Cut.NoMemory → K.faults out.new ≡ K.faults out.old }
{
    let mut sent = 0u64;
    let raws = parts.raws;
    let count = raws.len() as u32;
    for number in 0..count {
        if sent > PAGE_BYTES {
            return Ok(number);
        }
        let place = number as usize;
        let raw = raws[place];
        sent = write_shown(alloc, out, parts, number, raw, sent)?;
    }
    Ok(count)
}

/// The summary of all solutions.
fn summary<R: Threads + Sync>(rt: &R, alloc: Global, parts: &Parts<'_>) -> Result<Text, NoMemory>
    requires ones { AreOnes parts.now.resolved.now 0 (map (λ x. x.now) parts.now.raws.now) }
    requires few { length parts.now.raws.now < 2 ^ 32 }
    requires rooms { parts.now.rooms.now ≡ map room_for parts.now.resolved.now.instances }
{
    let solutions = Solutions {
        resolved: parts.resolved,
        rooms: parts.rooms,
        raws: parts.raws,
    };
    let outcomes = outcomes(rt, alloc, solutions, parts.choice.workers())?;
    let results = Results {
        archive: parts.archive,
        outcomes: outcomes.as_slice(),
        instances: parts.resolved.of.as_slice(),
        groups: parts.groups,
        choice: parts.choice,
    };
    let mut page = Draft::new(alloc);
    push_summary(alloc, &mut page, &results);
    page.into_text()
}

/// Writes the sections and the end of a page whose beginning is written.
fn write_rest<K: Sink>(alloc: Global, out: &mut K, parts: &Parts<'_>) -> Result<(), Cut>
    requires { AreParts parts.now }
    ensures put { (before : Option (List ℕ)) (opening : List ℕ) → IsAmid before (K.taken out.old) [] [] opening → OnOk result (IsPut parts.now.archive.now parts.now.resolved.now (shows parts.now.choice) before (K.taken out.new)) }
    ensures fault { IsErrOf result Cut.WriteFault → Rose (K.faults out.old) (K.faults out.new) }
    ensures faultless { OnOk result (K.faults out.new ≡ K.faults out.old) }
    ensures faultless_starved { IsErrOf result Cut.NoMemory → K.faults out.new ≡ K.faults out.old }
{
    let shown = write_sections(alloc, out, parts)?;
    let end = closing(alloc, &parts.choice, shown, parts.raws.len())?;
    send(out, &end)
}

/// Writes the summary, the sections and the end of a page whose head is written.
fn write_judged<R: Threads + Sync, K: Sink>(
    rt: &R,
    alloc: Global,
    out: &mut K,
    parts: &Parts<'_>,
) -> Result<(), Cut>
    requires { AreParts parts.now }
    ensures put { (before : Option (List ℕ)) (head : List ℕ) → IsAmid before (K.taken out.old) [] [] head → OnOk result (IsPut parts.now.archive.now parts.now.resolved.now (shows parts.now.choice) before (K.taken out.new)) }
    ensures fault { IsErrOf result Cut.WriteFault → Rose (K.faults out.old) (K.faults out.new) }
    ensures faultless { OnOk result (K.faults out.new ≡ K.faults out.old) }
    ensures faultless_starved { IsErrOf result Cut.NoMemory → K.faults out.new ≡ K.faults out.old }
{
    let text = summary(rt, alloc, parts)?;
    send(out, &text)?;
    write_rest(alloc, out, parts)
}

/// Writes the page of an archive with what its sections look up.
fn write_parts<R: Threads + Sync, K: Sink>(
    rt: &R,
    alloc: Global,
    out: &mut K,
    parts: &Parts<'_>,
) -> Result<(), Cut>
    requires { AreParts parts.now }
    ensures put { OnOk result (IsPut parts.now.archive.now parts.now.resolved.now (shows parts.now.choice) (K.taken out.old) (K.taken out.new)) }
    ensures fault { IsErrOf result Cut.WriteFault → Rose (K.faults out.old) (K.faults out.new) }
    ensures faultless { OnOk result (K.faults out.new ≡ K.faults out.old) }
    ensures faultless_starved { IsErrOf result Cut.NoMemory → K.faults out.new ≡ K.faults out.old }
{
    let text = opening(alloc, &parts.choice, parts.archive, parts.raws.len())?;
    send(out, &text)?;
    write_judged(rt, alloc, out, parts)
}

/// Writes the page of an archive.
fn write<R: Threads + Sync, K: Sink>(
    rt: &R,
    alloc: Global,
    out: &mut K,
    archive: &Archive,
    resolved: &Resolved,
    choice: &Choice<'_>,
) -> Result<(), Cut>
    requires { IsReady archive.now resolved.now }
    ensures put { OnOk result (IsPut archive.now resolved.now (shows choice.now) (K.taken out.old) (K.taken out.new)) }
    ensures fault { IsErrOf result Cut.WriteFault → Rose (K.faults out.old) (K.faults out.new) }
    ensures faultless { OnOk result (K.faults out.new ≡ K.faults out.old) }
    ensures faultless_starved { IsErrOf result Cut.NoMemory → K.faults out.new ≡ K.faults out.old }
{
    let raws = all_solutions(alloc, archive)?;
    let groups = group_numbers(alloc, archive)?;
    let rooms = rooms_of(alloc, resolved)?;
    let parts = Parts {
        archive,
        resolved,
        rooms: rooms.as_slice(),
        groups: groups.as_slice(),
        raws: raws.as_slice(),
        choice: *choice,
    };
    write_parts(rt, alloc, out, &parts)
}
