//! The report of `evaluate`.

ghost use Rattle.std.specs.Prelude.{◌≡◌, ◌≤◌, ◌<◌, ◌⊎◌, ◌+◌, ◌++◌, ◌^◌, ℕ, List, [], Option, IfOk, length, map, OnOk, OnErr};
ghost use Rattle.std.specs.Prelude.{IsErrOf, encode_utf8_all};
ghost use Rattle.khe_io.specs.Faults.{Rose, Took, TookFront};
ghost use Rattle.khe_io.specs.Amid.{IsAmid};
ghost use Rattle.reading_commands.specs.Report as spec;
ghost use Rattle.reading_commands.specs.ReportParts.{AreOf};
ghost use Rattle.reading_commands.specs.Answers.{reading_of, IsReadyAnswer};
ghost use Rattle.reading_commands.specs.Ends.{Written};
ghost use Rattle.reading_commands.specs.Outcome.{status_of, text_of};
ghost use Rattle.archive_reading.specs.Ready.{IsReady};
ghost use Rattle.evaluation_report.specs.Lines as lines;
ghost use Rattle.resource_deviations.specs.Sets.{room_for};
ghost use Rattle.parallel_solve.specs.Ready.{AreOnes};
ghost use Rattle.parallel_solve.specs.Ready as solutions;
ghost use Rattle.parallel_solve.specs.Batches.{IsWindow};
ghost use Rattle.std.specs.List.{concat, flat_map};
ghost use Rattle.khe_base.specs.declared.limits.TheConstants.{WORKERS};
ghost use Rattle.xhstt_references.specs.References.{solutions_of};

use crate::answers::Answer;
use crate::crews::Crew;
use crate::outcomes::Outcomes;
use crate::report_parts::ReportParts;
use crate::statuses::{Status, put_refusal};
use evaluation_report::header_line;
use khe_base::limits::PIECE_BYTES;
use khe_base::{NoMemory, Text};
use khe_io::{Cut, Gate, Sink, flush, flush_long, put_all};
use parallel_solve::{Solutions, Window, WindowMaker, Work, all_solutions, rooms_of};
use resource_deviations::ResourceRoom;
use std::alloc::Global;
use std::thread::Threads;
use xhstt_resolve::Resolved;
use xhstt_shape::{Archive, RawSolution};

/// Adds a text to what waits, and gives that to the sink where it is long; a text that is long by itself goes
/// there after what waits, without being copied.
fn pass_on<K: Sink>(alloc: Global, out: &mut K, pending: &mut Text, text: &Text) -> Result<(), Cut>
    ensures amid { (before : Option (List ℕ)) (rest whole : List ℕ)
        → IsAmid before (K.taken out.old) pending.old (text.now ++ rest) whole
        → OnOk result (IsAmid before (K.taken out.new) pending.new rest whole) }
    ensures front { (before : Option (List ℕ)) (rest whole : List ℕ)
        → IsAmid before (K.taken out.old) pending.old (text.now ++ rest) whole
        → OnErr result (TookFront before (K.taken out.new) (encode_utf8_all whole)) }
    ensures fault { IsErrOf result Cut.WriteFault → Rose (K.faults out.old) (K.faults out.new) }
    ensures faultless { OnOk result (K.faults out.new ≡ K.faults out.old) }
    ensures faultless_starved { IsErrOf result Cut.NoMemory → K.faults out.new ≡ K.faults out.old }
    ensures counted { K.faults out.old ≤ K.faults out.new }
{
    let bytes = text.as_bytes();
    if bytes.len() < PIECE_BYTES {
        pending.push_text(text)?;
        return flush_long(alloc, out, pending);
    }
    flush(alloc, out, pending)?;
    put_all(out, bytes)?;
    Ok(())
}

/// The Id of the group of each solution, in the order of all solutions.
fn groups_of(alloc: Global, archive: &Archive) -> Result<Vec<&Text>, NoMemory>
    ensures { IfOk result (λ v. map (λ x. x.now) v.items ≡ spec.group_ids archive.now.solution_groups) }
{
    let mut all = Vec::new(alloc);
    for group in archive.solution_groups.as_slice() {
        for _ in group.solutions.as_slice() {
            all.push(&group.id.text)?;
        }
    }
    Ok(all)
}

/// Adds texts to what waits, one after another, and gives that to the sink where it is long.
fn write_texts<K: Sink>(
    alloc: Global,
    out: &mut K,
    text: &mut Text,
    made: &[Text],
) -> Result<(), Cut>
    ensures amid { (before : Option (List ℕ)) (rest whole : List ℕ)
        → IsAmid before (K.taken out.old) text.old (concat made.now ++ rest) whole
        → OnOk result (IsAmid before (K.taken out.new) text.new rest whole) }
    ensures front { (before : Option (List ℕ)) (whole : List ℕ)
        → ((rest : List ℕ) × IsAmid before (K.taken out.old) text.old (concat made.now ++ rest) whole)
        → OnErr result (TookFront before (K.taken out.new) (encode_utf8_all whole)) }
    ensures fault { IsErrOf result Cut.WriteFault → Rose (K.faults out.old) (K.faults out.new) }
    ensures faultless { OnOk result (K.faults out.new ≡ K.faults out.old) }
    ensures faultless_starved { IsErrOf result Cut.NoMemory → K.faults out.new ≡ K.faults out.old }
    ensures counted { K.faults out.old ≤ K.faults out.new }
{
    for one in made {
        pass_on(alloc, out, text, one)?;
    }
    Ok(())
}

/// Writes the texts of a window while the other workers make the next one, and then helps them.
fn write_beside<R: Threads + Sync, K: Sink, G: Gate>(
    alloc: Global,
    out: &mut K,
    text: &mut Text,
    crew: &Crew<'_, R, G>,
    parts: &ReportParts<'_, '_>,
    next: usize,
    made: &[Text],
) -> (Result<Window<Text>, NoMemory>, Result<(), Cut>)
    requires ones { AreOnes parts.now.resolved.now 0 (map (λ x. x.now) parts.now.raws.now) }
    requires few { length parts.now.raws.now < 2 ^ 32 }
    requires rooms { parts.now.rooms.now ≡ map room_for parts.now.resolved.now.instances }
    requires within { next ≤ length parts.now.raws.now }
    ensures next { IfOk result.0 (λ w. IsWindow (flat_map
        (spec.row_text parts.now.all parts.now.resolved.now (map (λ x. x.now) parts.now.groups.now)))
        (map (λ x. x.now) parts.now.raws.now) next w.next w.made.items) }
    ensures amid { (before : Option (List ℕ)) (rest whole : List ℕ)
        → IsAmid before (K.taken out.old) text.old (concat made.now ++ rest) whole
        → OnOk result.1 (IsAmid before (K.taken out.new) text.new rest whole) }
    ensures front { (before : Option (List ℕ)) (whole : List ℕ)
        → ((rest : List ℕ) × IsAmid before (K.taken out.old) text.old (concat made.now ++ rest) whole)
        → OnErr result.1 (TookFront before (K.taken out.new) (encode_utf8_all whole)) }
    ensures fault { IsErrOf result.1 Cut.WriteFault → Rose (K.faults out.old) (K.faults out.new) }
    ensures faultless { OnOk result.1 (K.faults out.new ≡ K.faults out.old) }
    ensures faultless_starved { IsErrOf result.1 Cut.NoMemory → K.faults out.new ≡ K.faults out.old }
    ensures counted { K.faults out.old ≤ K.faults out.new }
{
    let job = Outcomes {
        all: parts.all,
        groups: parts.groups,
    };
    let solutions = Solutions {
        resolved: parts.resolved,
        rooms: parts.rooms,
        raws: parts.raws,
    };
    let work = Work {
        job: &job,
        solutions,
        gate: crew.gate,
    };
    parts.windows.make_beside(
        crew.rt,
        alloc,
        &work,
        next,
        &mut || write_texts(alloc, out, text, made),
    )
}

/// Makes the window that begins with this solution.
fn make_window<R: Threads + Sync, G: Gate>(
    alloc: Global,
    crew: &Crew<'_, R, G>,
    parts: &ReportParts<'_, '_>,
    first: usize,
) -> Result<Window<Text>, NoMemory>
    requires ones { AreOnes parts.now.resolved.now 0 (map (λ x. x.now) parts.now.raws.now) }
    requires few { length parts.now.raws.now < 2 ^ 32 }
    requires rooms { parts.now.rooms.now ≡ map room_for parts.now.resolved.now.instances }
    requires within { first ≤ length parts.now.raws.now }
    ensures { IfOk result (λ w. IsWindow (flat_map
        (spec.row_text parts.now.all parts.now.resolved.now (map (λ x. x.now) parts.now.groups.now)))
        (map (λ x. x.now) parts.now.raws.now) first w.next w.made.items) }
{
    let job = Outcomes {
        all: parts.all,
        groups: parts.groups,
    };
    let solutions = Solutions {
        resolved: parts.resolved,
        rooms: parts.rooms,
        raws: parts.raws,
    };
    let work = Work {
        job: &job,
        solutions,
        gate: crew.gate,
    };
    parts.windows.make(crew.rt, alloc, &work, first)
}

/// Writes a window and answers the next one, which ends where it begins where no solution is left. Where this thread
/// is the only worker, it makes the next window once this one is written and dropped, so that it holds one at a time.
fn write_and_make<R: Threads + Sync, K: Sink, G: Gate>(
    alloc: Global,
    out: &mut K,
    text: &mut Text,
    crew: &Crew<'_, R, G>,
    parts: &ReportParts<'_, '_>,
    window: Window<Text>,
) -> Result<Window<Text>, Cut>
    requires ones { AreOnes parts.now.resolved.now 0 (map (λ x. x.now) parts.now.raws.now) }
    requires few { length parts.now.raws.now < 2 ^ 32 }
    requires rooms { parts.now.rooms.now ≡ map room_for parts.now.resolved.now.instances }
    requires within { window.next ≤ length parts.now.raws.now }
    ensures next { IfOk result (λ w. IsWindow (flat_map
        (spec.row_text parts.now.all parts.now.resolved.now (map (λ x. x.now) parts.now.groups.now)))
        (map (λ x. x.now) parts.now.raws.now) window.next w.next w.made.items) }
    ensures amid { (before : Option (List ℕ)) (rest whole : List ℕ)
        → IsAmid before (K.taken out.old) text.old (concat window.made.items ++ rest) whole
        → OnOk result (IsAmid before (K.taken out.new) text.new rest whole) }
    ensures front { (before : Option (List ℕ)) (rest whole : List ℕ)
        → IsAmid before (K.taken out.old) text.old (concat window.made.items ++ rest) whole
        → OnErr result (TookFront before (K.taken out.new) (encode_utf8_all whole)) }
    ensures fault { IsErrOf result Cut.WriteFault → Rose (K.faults out.old) (K.faults out.new) }
    ensures faultless { OnOk result (K.faults out.new ≡ K.faults out.old) }
    ensures faultless_starved { IsErrOf result Cut.NoMemory → K.faults out.new ≡ K.faults out.old }
    ensures counted { K.faults out.old ≤ K.faults out.new }
{
    let Window { next, made } = window;
    if parts.windows.workers() == 1 {
        write_texts(alloc, out, text, made.as_slice())?;
        drop(made);
        let later = make_window(alloc, crew, parts, next)?;
        return Ok(later);
    }
    let made = made.as_slice();
    let (later, written) = write_beside(alloc, out, text, crew, parts, next, made);
    written?;
    let later = later?;
    Ok(later)
}

/// Writes all solutions, window by window.
fn write_windows<R: Threads + Sync, K: Sink, G: Gate>(
    alloc: Global,
    out: &mut K,
    text: &mut Text,
    crew: &Crew<'_, R, G>,
    parts: &ReportParts<'_, '_>,
) -> Result<(), Cut>
    requires ones { AreOnes parts.now.resolved.now 0 (map (λ x. x.now) parts.now.raws.now) }
    requires few { length parts.now.raws.now < 2 ^ 32 }
    requires rooms { parts.now.rooms.now ≡ map room_for parts.now.resolved.now.instances }
    ensures amid { (before : Option (List ℕ)) (whole : List ℕ)
        → IsAmid before (K.taken out.old) text.old (spec.left_text parts.now.all parts.now.resolved.now
        (map (λ x. x.now) parts.now.groups.now) 0 (map (λ x. x.now) parts.now.raws.now)) whole
        → OnOk result (IsAmid before (K.taken out.new) text.new [] whole) }
    ensures front { (before : Option (List ℕ)) (whole : List ℕ)
        → IsAmid before (K.taken out.old) text.old (spec.left_text parts.now.all parts.now.resolved.now
        (map (λ x. x.now) parts.now.groups.now) 0 (map (λ x. x.now) parts.now.raws.now)) whole
        → OnErr result (TookFront before (K.taken out.new) (encode_utf8_all whole)) }
    ensures fault { IsErrOf result Cut.WriteFault → Rose (K.faults out.old) (K.faults out.new) }
    ensures faultless { OnOk result (K.faults out.new ≡ K.faults out.old) }
    ensures faultless_starved { IsErrOf result Cut.NoMemory → K.faults out.new ≡ K.faults out.old }
    ensures counted { K.faults out.old ≤ K.faults out.new }
{
    let mut first = 0;
    let mut window = make_window(alloc, crew, parts, first)?;
    while first < window.next {
        first = window.next;
        window = write_and_make(alloc, out, text, crew, parts, window)?;
    }
    Ok(())
}

/// The header of a report.
fn header(alloc: Global, _archive: &Archive, resolved: &Resolved) -> Result<Text, NoMemory>
    requires ready { solutions.IsReady _archive.now resolved.now }
    requires instances { length resolved.now.instances < 2 ^ 32 }
    ensures { IfOk result (λ text. text ≡ lines.header_line (length resolved.now.instances)
        (length (solutions_of _archive.now))) }
{
    let solutions = resolved.of.len() as u32;
    header_line(alloc, resolved.instances.len() as u32, solutions)
}

/// Writes the report of an archive of what its windows are made from.
fn write_parts<R: Threads + Sync, K: Sink, G: Gate>(
    alloc: Global,
    out: &mut K,
    crew: &Crew<'_, R, G>,
    archive: &Archive,
    parts: &ReportParts<'_, '_>,
) -> Result<(), Cut>
    requires ready { IsReady archive.now parts.now.resolved.now }
    requires parts { AreOf archive.now parts.now }
    ensures whole { OnOk result (Took (K.taken out.old) (K.taken out.new)
        (encode_utf8_all (spec.report parts.now.all archive.now parts.now.resolved.now))) }
    ensures front { OnErr result (TookFront (K.taken out.old) (K.taken out.new)
        (encode_utf8_all (spec.report parts.now.all archive.now parts.now.resolved.now))) }
    ensures fault { IsErrOf result Cut.WriteFault → Rose (K.faults out.old) (K.faults out.new) }
    ensures faultless { OnOk result (K.faults out.new ≡ K.faults out.old) }
    ensures faultless_starved { IsErrOf result Cut.NoMemory → K.faults out.new ≡ K.faults out.old }
    ensures counted { K.faults out.old ≤ K.faults out.new }
{
    let mut text = header(alloc, archive, parts.resolved)?;
    write_windows(alloc, out, &mut text, crew, parts)?;
    flush(alloc, out, &mut text)
}

/// Writes the report of an archive: its header, and for each solution its line and what comes of it. The
/// workers evaluate the solutions and make the text of what comes of them, window by window, and pass the gate
/// before each of them with its number; this thread hands the texts on, which together are the same for every
/// number of workers. While it writes those of one window, the other workers make those of the next, and then it
/// helps them; a single worker is this thread, which does the one after the other.
///
/// It takes time about linear in the instances, the solutions and the report; that of evaluating and of
/// making the texts is divided among the workers that run at the same time. It keeps in memory the masks
/// of the instances, two references for each solution, the texts of two windows, or of one batch where there is
/// one worker, for each worker what evaluating one solution takes, and of the rest no more than a piece.
fn report<R: Threads + Sync, K: Sink, G: Gate>(
    alloc: Global,
    out: &mut K,
    crew: &Crew<'_, R, G>,
    archive: &Archive,
    resolved: &Resolved,
    all: bool,
) -> Result<(), Cut>
    requires ready { IsReady archive.now resolved.now }
    requires workers { (1 ≤ crew.now.workers) × (crew.now.workers ≤ WORKERS) }
    ensures whole { OnOk result (Took (K.taken out.old) (K.taken out.new)
        (encode_utf8_all (spec.report all archive.now resolved.now))) }
    ensures front { OnErr result (TookFront (K.taken out.old) (K.taken out.new)
        (encode_utf8_all (spec.report all archive.now resolved.now))) }
    ensures fault { IsErrOf result Cut.WriteFault → Rose (K.faults out.old) (K.faults out.new) }
    ensures faultless { OnOk result (K.faults out.new ≡ K.faults out.old) }
    ensures faultless_starved { IsErrOf result Cut.NoMemory → K.faults out.new ≡ K.faults out.old }
    ensures counted { K.faults out.old ≤ K.faults out.new }
{
    let raws = all_solutions(alloc, archive)?;
    let groups = groups_of(alloc, archive)?;
    let rooms = rooms_of(alloc, resolved)?;
    let parts = ReportParts {
        resolved,
        rooms: rooms.as_slice(),
        raws: raws.as_slice(),
        groups: groups.as_slice(),
        all,
        windows: WindowMaker::new(resolved, crew.workers),
    };
    write_parts(alloc, out, crew, archive, &parts)
}

/// Writes the report of an archive, by the crew's workers, or the line that refuses it, and answers the status: that of
/// the answer, or 5 where the sink refused a call after some first bytes of the text, or 6 where memory ran out. It
/// takes what evaluating the solutions takes, divided among the workers that run at the same time.
pub fn write_report<R: Threads + Sync, K: Sink, G: Gate>(
    alloc: Global,
    out: &mut K,
    crew: &Crew<'_, R, G>,
    answer: &Answer,
    all: bool,
) -> Status
    requires ready { IsReadyAnswer answer.now }
    requires workers { (1 ≤ crew.now.workers) × (crew.now.workers ≤ WORKERS) }
    ensures written { Written (K.taken out.old) (K.taken out.new) (K.faults out.old) (K.faults out.new) (encode_utf8_all (text_of all (reading_of answer.now))) (status_of (reading_of answer.now)) result.0 }
    ensures write_fault_ends { (result.0 ≡ 5) ⊎ (K.faults out.new ≡ K.faults out.old) }
    ensures sink_faults { K.faults out.old ≤ K.faults out.new }
{
    match answer {
        Answer::Read(read) => {
            match report(alloc, out, crew, &read.archive, &read.resolved, all) {
                Ok(()) => Status(0),
                Err(Cut::WriteFault) => Status(5),
                Err(Cut::NoMemory) => Status(6),
            }
        }
        Answer::Refused(refusal) => put_refusal(alloc, out, *refusal),
    }
}
