//! The program: what its words ask for, and the status that it ends with.

ghost use Rattle.std.specs.Prelude.{◌≡◌, ◌<◌, ◌≤◌, ◌⊎◌, ◌↔◌, ℕ, Bool, false, List, None, Some, map, IsTrue, IfOk, IfSome, IsErrOf, OnOk, length, slice_get, string_bytes, encode_utf8_all};
ghost use Rattle.khe_base.specs.declared.limits.TheConstants.{WORKERS};
ghost use Rattle.khe_io.specs.Faults.{Rose, Took, TookFront};
ghost use Rattle.khe_io.specs.Shelf.{IsMissing};
ghost use Rattle.khe_app.specs.Answers.{IsPlayAnswer, IsReadyPlay, IsScriptOf, IsTextOf, IsWith};
ghost use Rattle.khe_app.specs.ByTables.{EndedByTables};
ghost use Rattle.khe_app.specs.Promises.{IsNoDearer, IsReadBack, Outnumber};
ghost use Rattle.khe_app.specs.Ends.{EndedBy, CutOff, LacksArchive, LacksName, LacksOf, IsEnd};
ghost use Rattle.reading_commands.specs.Ends.{Holdings, IsDecided, IsStatus, Written};
ghost use Rattle.archive_reading.specs.Refusals as refusals;
ghost use Rattle.archive_reading.specs.Starting.{IsBarredBy, Start, barred};
ghost use Rattle.archive_reading.specs.declared.refusals.Refusal.{Refusal as Why};
ghost use Rattle.reading_commands.specs.Lines.{not_understood_line};
ghost use Rattle.khe_app.specs.Lines.{script_too_large_line};
ghost use Rattle.command_words.specs.Words.{asked, evaluating, is_read, scripting};

use crate::checking::check;
use crate::constructing::construct;
use crate::making::{make, make_run};
use crate::matching::{Wanted, match_tasks};
use crate::repairing::{Repairing, repair};
use crate::scripts::play_script;
use crate::solving::{Solving, solve};
use crate::starting::{Begun, start};
use archive_reading::{Refusal, Unread};
use command_words::{Request, request_of};
use khe_base::{Seq, limits};
use khe_instance::Instance;
use khe_io::{Gate, Shelf, Sink, TakeFault, take_all};
use reading_commands::{
    Answer, Crew, Status, Stop, answer_to, not_understood, put, put_refusal, write_report,
};
use std::alloc::Global;
use std::mem::ManuallyDrop;
use std::thread::Threads;

/// What a script on a solution of an archive leads to.
#[derive(Drop)]
pub enum Play {
    /// The archive or the solution is refused.
    Refused(Refusal),
    /// The script is too large.
    TooLarge,
    /// It is to be run.
    Run(Begun, Seq<u8>),
}

/// Runs the program on these words: reads the archive that they name from the shelf, if they name one, and
/// writes the answer of their command to the sink, or the line that refuses them or the archive.
///
/// | Words | Answer |
/// |---|---|
/// | `evaluate ARCHIVE [--all] [--workers N]` | what each solution costs |
/// | `script ARCHIVE SOLUTION SCRIPT` | the answers to the lines of a script |
/// | `tied ARCHIVE SOLUTION SCRIPT` | the same, for a script whose lines may speak of ties |
/// | `check ARCHIVE` | the archive in its canonical spelling |
/// | `repair ARCHIVE SOLUTION --depth D --budget B` | the archive with that solution repaired, and a line |
/// | `solve ARCHIVE SOLUTION --depth D --budget B --jobs J --workers N` | the same, of J repairs the best |
/// | `construct ARCHIVE INSTANCE [--depth D --budget B]` | the archive with a constructed solution, and lines on it |
/// | `match ARCHIVE SOLUTION TIME TYPE` | the archive with a time's tasks matched, and lines on it |
/// | `make SEED EVENTS [--run]` | an archive made by a seed, or a line on a run of many edits on it |
///
/// Options stand in any order after the rest, each once. N is 1 to `WORKERS` workers, J 1 to `JOBS` repairs, D 1 to
/// `CHAIN_MOVES` moves of a chain at most, B 1 to `BUDGET` chains that may be tried, EVENTS 1 to `MADE_EVENTS`, and SEED
/// has up to `DIGITS` digits. The answer is a status, as in `Status`. What was written before a status of 4 is
/// nothing, and before a status of 5 or 6 a first part of the text. The text does not depend on the number of workers,
/// who pass the gate before each solution that they evaluate and before each job that they run, with its number.
///
/// A repaired timetable takes the place of the entries of its solution, and the line after the archive
/// tells how the repair ended. It never costs more than the solution did; where the repair is done no
/// chain of at most D moves leaves lower totals, and where the budget is spent none of as many moves as the
/// line names. Of many repairs, which begin their lists of defects and moves at the number of their job, the
/// one with the least totals takes that place, of equal ones the lowest; the line names its job.
///
/// A timetable that is constructed is the only solution of its archive, and the line after it tells how many meets
/// and which totals it has, as it is before it is repaired; the line of the repair follows. A matching gives the tasks
/// that run at the time resources of the type, each at most one, so that the sum of what each pair costs by itself is
/// the least, which its lines prove by prices. It stays only where the totals are then lower than before; another
/// choice may leave lower ones.
///
/// A report takes time about linear in the archive's bytes, in what its instances follow out, and, for
/// each solution, in the meets, tasks, covered times, watches and monitors; the workers that run at the
/// same time divide the solutions. It keeps in memory the archive's bytes with their tree or, after that,
/// the archive with its instances, and what the solutions of one window cost; and of the report what one
/// solution adds. An archive that was evaluated is left in memory, since a process ends with its run: who
/// evaluates many in one process keeps them all. A script takes besides what opening an engine takes, and for each
/// edit what watches its changes. A canonical spelling takes time linear in its bytes, and beside the archive and its
/// instances no more memory than a piece of it. A construction takes besides an engine, and what watches a meet for
/// each time that it tries for it, and a task for each resource. A matching takes besides an engine, and for each task
/// and each resource what watches the task; and a table of a cost for each of these pairs. A repair takes besides an
/// engine, and for each chain that it tries what watches the changes of its last move. Many repairs take the time of
/// all, divided among the workers that run at the same time, and an engine and two timetables for each worker.
/// An archive is made in time and memory linear in the number of its events, and its run takes what a script
/// of ten edits an event takes.
pub fn khe<R: Threads + Sync, S: Shelf, K: Sink, G: Gate>(
    rt: &R,
    alloc: Global,
    words: &[String],
    shelf: &mut S,
    out: &mut K,
    gate: &G,
) -> Status
    ensures status { IsStatus result.0 }

    // Statuses 0, 2, 3 and 7 are those of the definitions, after their whole text.
    ensures decided { IsDecided result.0 → EndedBy (map string_bytes words.now) (S.holdings shelf.old) (K.taken out.old) (K.taken out.new) result.0 }

    // The same, said without any machine: what the words ask for by the table of commands, and what an archive's
    // bytes lead to by the rows of faults and the grammar of texts.
    ensures by_tables { IsDecided result.0 → EndedByTables (map string_bytes words.now) (S.holdings shelf.old) (K.taken out.old) (K.taken out.new) result.0 }

    // After a repair, a solve or a matching the taken bytes are read as the archive with that solution's entries
    // changed, which costs what the last line says and no more than before.
    ensures no_dearer { result.0 ≡ 0 → IsNoDearer (asked (map string_bytes words.now)) (S.holdings shelf.old) (K.taken out.old) (K.taken out.new) }

    // Each answer to `deficit` among the taken bytes names demands that outnumber the supplies that they may have
    // by just its number.
    ensures outnumber { (result.0 ≡ 0) ⊎ (result.0 ≡ 7) → Outnumber (asked (map string_bytes words.now)) (S.holdings shelf.old) (K.taken out.old) (K.taken out.new) }

    // After a check the taken bytes are read as the same archive, and after `make` as the archive that is made.
    ensures read_back { result.0 ≡ 0 → IsReadBack (asked (map string_bytes words.now)) (S.holdings shelf.old) (K.taken out.old) (K.taken out.new) }

    // Words without a reading end with status 2, or with 5 where the line could not be written,
    // and nothing is read.
    ensures no_reading { asked (map string_bytes words.now) ≡ None → ((result.0 ≡ 2) ⊎ (result.0 ≡ 5)) × (shelf.new ≡ shelf.old) }
    ensures not_understood { result.0 ≡ 2 → asked (map string_bytes words.now) ≡ None }

    // Their line is the text also over a shelf that keeps its content to itself.
    ensures line { result.0 ≡ 2 → Took (K.taken out.old) (K.taken out.new) (encode_utf8_all not_understood_line) }
    ensures line_cut_off { asked (map string_bytes words.now) ≡ None → result.0 ≡ 5 → TookFront (K.taken out.old) (K.taken out.new) (encode_utf8_all not_understood_line) }

    // Status 4 comes by a fault of the shelf, and a run in which the shelf counted one ends with it. On a
    // sound shelf it comes exactly where nothing stands under a name whose reading is reached, unless memory
    // runs out; nothing was written.
    ensures read_fault { result.0 ≡ 4 → Rose (S.faults shelf.old) (S.faults shelf.new) }
    ensures read_fault_ends { (result.0 ≡ 4) ⊎ (S.faults shelf.new ≡ S.faults shelf.old) }
    ensures nothing_written { result.0 ≡ 4 → K.taken out.new ≡ K.taken out.old }
    ensures missing { IsTrue (S.is_sound shelf.old) → result.0 ≡ 4 → LacksName (map string_bytes words.now) (S.holdings shelf.old) }
    ensures found { IsTrue (S.is_sound shelf.old) → LacksName (map string_bytes words.now) (S.holdings shelf.old) → (result.0 ≡ 4) ⊎ (result.0 ≡ 6) }

    // Where it is the archive's name under which nothing stands, no other status comes.
    ensures absent { IsTrue (S.is_sound shelf.old) → LacksArchive (map string_bytes words.now) (S.holdings shelf.old) → result.0 ≡ 4 }

    // Status 5 comes by a fault of the sink and always where it counted one. The sink took some
    // first bytes of the text.
    ensures write_fault { result.0 ≡ 5 → Rose (K.faults out.old) (K.faults out.new) }
    ensures write_fault_ends { (result.0 ≡ 5) ⊎ (K.faults out.new ≡ K.faults out.old) }
    ensures cut_off { result.0 ≡ 5 → CutOff (map string_bytes words.now) (S.holdings shelf.old) (K.taken out.old) (K.taken out.new) }

    // Before status 6 the sink took nothing, or some first bytes of the text.
    ensures no_memory { result.0 ≡ 6 → (K.taken out.new ≡ K.taken out.old) ⊎ CutOff (map string_bytes words.now) (S.holdings shelf.old) (K.taken out.old) (K.taken out.new) }

    // Where no device is to blame, the run ends as the definitions say, or because memory ran out.
    ensures complete { (IsTrue (S.is_sound shelf.old) ⊎ (Rose (S.faults shelf.old) (S.faults shelf.new) → ⊥)) → (Rose (K.faults out.old) (K.faults out.new) → ⊥)
        → (result.0 ≡ 6) ⊎ EndedBy (map string_bytes words.now) (S.holdings shelf.old) (K.taken out.old) (K.taken out.new) result.0 }

    // Where nothing is read, as for `make`, the run ends so whatever stands under the names, also over a shelf that
    // keeps its content to itself.
    ensures needs_no_shelf { is_read (asked (map string_bytes words.now)) ≡ false → (h : Holdings) → IsEnd (asked (map string_bytes words.now)) h (S.is_sound shelf.old) (S.faults shelf.old) (S.faults shelf.new) (K.taken out.old) (K.taken out.new) (K.faults out.old) (K.faults out.new) result.0 }

    // The devices stay as they were but for what was read and written.
    ensures unread { is_read (asked (map string_bytes words.now)) ≡ false → shelf.new ≡ shelf.old }
    ensures holdings { S.holdings shelf.new ≡ S.holdings shelf.old }
    ensures shelf_faults { S.faults shelf.old ≤ S.faults shelf.new }
    ensures sound { IsTrue (S.is_sound shelf.old) → IsTrue (S.is_sound shelf.new) }
    ensures sink_faults { K.faults out.old ≤ K.faults out.new }
{
    respond(rt, alloc, words, shelf, out, gate)
}

/// Does what the words ask for, or refuses them.
#[tactic(auto, using(crate::proofs::EndsLemmas::by_words))]
fn respond<R: Threads + Sync, S: Shelf, K: Sink, G: Gate>(
    rt: &R,
    alloc: Global,
    words: &[String],
    shelf: &mut S,
    out: &mut K,
    gate: &G,
) -> Status
    ensures end { IsEnd (asked (map string_bytes words.now)) (S.holdings shelf.old) (S.is_sound shelf.old) (S.faults shelf.old) (S.faults shelf.new) (K.taken out.old) (K.taken out.new) (K.faults out.old) (K.faults out.new) result.0 }
    ensures no_reading { asked (map string_bytes words.now) ≡ None → ((result.0 ≡ 2) ⊎ (result.0 ≡ 5)) × (shelf.new ≡ shelf.old) }
    ensures not_understood { result.0 ≡ 2 → asked (map string_bytes words.now) ≡ None }
    ensures line { result.0 ≡ 2 → Took (K.taken out.old) (K.taken out.new) (encode_utf8_all not_understood_line) }
    ensures line_cut_off { asked (map string_bytes words.now) ≡ None → result.0 ≡ 5 → TookFront (K.taken out.old) (K.taken out.new) (encode_utf8_all not_understood_line) }
    ensures absent { IsTrue (S.is_sound shelf.old) → LacksArchive (map string_bytes words.now) (S.holdings shelf.old) → result.0 ≡ 4 }
    ensures needs_no_shelf { is_read (asked (map string_bytes words.now)) ≡ false → (h : Holdings) → IsEnd (asked (map string_bytes words.now)) h (S.is_sound shelf.old) (S.faults shelf.old) (S.faults shelf.new) (K.taken out.old) (K.taken out.new) (K.faults out.old) (K.faults out.new) result.0 }
    ensures unread { is_read (asked (map string_bytes words.now)) ≡ false → shelf.new ≡ shelf.old }
    ensures holdings { S.holdings shelf.new ≡ S.holdings shelf.old }
    ensures read_fault_ends { (result.0 ≡ 4) ⊎ (S.faults shelf.new ≡ S.faults shelf.old) }
    ensures shelf_faults { S.faults shelf.old ≤ S.faults shelf.new }
    ensures sound { IsTrue (S.is_sound shelf.old) → IsTrue (S.is_sound shelf.new) }
    ensures write_fault_ends { (result.0 ≡ 5) ⊎ (K.faults out.new ≡ K.faults out.old) }
    ensures sink_faults { K.faults out.old ≤ K.faults out.new }
{
    match request_of(words) {
        Some(
            Request::Evaluate {
                archive,
                all,
                workers,
            },
        ) => {
            let crew = Crew { rt, gate, workers };
            evaluate(alloc, shelf, out, &crew, archive, all)
        }
        Some(
            Request::Script {
                archive,
                solution,
                script,
                tied,
            },
        ) => run_script(alloc, shelf, out, archive, solution, script, tied),
        Some(Request::Check { archive }) => check(alloc, shelf, out, archive),
        Some(
            Request::Repair {
                archive,
                solution,
                depth,
                budget,
            },
        ) => {
            let asked = Repairing {
                solution,
                depth,
                budget,
            };
            repair(alloc, shelf, out, archive, asked)
        }
        Some(
            Request::Solve {
                archive,
                solution,
                depth,
                budget,
                jobs,
                workers,
            },
        ) => {
            let crew = Crew { rt, gate, workers };
            let asked = Solving {
                solution,
                depth,
                budget,
                jobs,
            };
            solve(alloc, shelf, out, &crew, archive, asked)
        }
        Some(
            Request::Match {
                archive,
                solution,
                time,
                rtype,
            },
        ) => match_tasks(
            alloc,
            shelf,
            out,
            archive,
            Wanted {
                solution,
                time,
                rtype,
            },
        ),
        Some(
            Request::Construct {
                archive,
                instance,
                chains,
            },
        ) => construct(alloc, shelf, out, archive, instance, chains),
        Some(Request::Make { seed, size }) => make(alloc, out, seed, size),
        Some(Request::Run { seed, size }) => make_run(alloc, out, seed, size),
        None => refuse_words(out),
    }
}

/// Writes the line that refuses a solution; or nothing, where memory ran out before.
pub(crate) fn put_unread<K: Sink>(alloc: Global, out: &mut K, unread: Unread) -> Status
    requires { (s : Start) × IsBarredBy s unread }
    ensures written { (s : Start) → IsBarredBy s unread → ((result.0 ≡ 6) × (K.taken out.new ≡ K.taken out.old)) ⊎ ((why : Why) × (s ≡ barred why)
        × Written (K.taken out.old) (K.taken out.new) (K.faults out.old) (K.faults out.new) (encode_utf8_all (refusals.refusal_line why)) 3 result.0) }
    ensures write_fault_ends { (result.0 ≡ 5) ⊎ (K.faults out.new ≡ K.faults out.old) }
    ensures sink_faults { K.faults out.old ≤ K.faults out.new }
{
    match unread {
        Unread::Refused(refusal) => put_refusal(alloc, out, refusal),
        Unread::NoMemory => Status(6),
    }
}

/// Refuses words without a reading.
fn refuse_words<K: Sink>(out: &mut K) -> Status
    ensures end { (h : Holdings) (sound : Bool) (faults : ℕ) → IsEnd None h sound faults faults (K.taken out.old) (K.taken out.new) (K.faults out.old) (K.faults out.new) result.0 }
    ensures status { (result.0 ≡ 2) ⊎ (result.0 ≡ 5) }
    ensures line { result.0 ≡ 2 → Took (K.taken out.old) (K.taken out.new) (encode_utf8_all not_understood_line) }
    ensures line_cut_off { result.0 ≡ 5 → TookFront (K.taken out.old) (K.taken out.new) (encode_utf8_all not_understood_line) }
    ensures write_fault_ends { (result.0 ≡ 5) ⊎ (K.faults out.new ≡ K.faults out.old) }
    ensures sink_faults { K.faults out.old ≤ K.faults out.new }
{
    put(out, 2, not_understood())
}

/// The line in place of the answers to a script that is too large.
fn script_too_large() -> &'static [u8]
    ensures { result.now ≡ encode_utf8_all script_too_large_line }
{
    b"script fault 4 TooLarge\n"
}

/// Writes the report of the archive under a name, by the crew's workers. The archive stays in memory: a run is the
/// end of a process.
#[tactic(auto, using(crate::proofs::EndsLemmas::end_starved, crate::proofs::EndsLemmas::end_stopped, crate::proofs::EndsLemmas::report_lacks))]
fn evaluate<R: Threads + Sync, S: Shelf, K: Sink, G: Gate>(
    alloc: Global,
    shelf: &mut S,
    out: &mut K,
    crew: &Crew<'_, R, G>,
    name: &str,
    all: bool,
) -> Status
    requires { (1 ≤ crew.now.workers) × (crew.now.workers ≤ WORKERS) }
    ensures end { IsEnd (Some (evaluating name.now all)) (S.holdings shelf.old) (S.is_sound shelf.old) (S.faults shelf.old) (S.faults shelf.new) (K.taken out.old) (K.taken out.new) (K.faults out.old) (K.faults out.new) result.0 }
    ensures status { result.0 ≡ 2 → ⊥ }
    ensures absent { IsTrue (S.is_sound shelf.old) → IsMissing (S.holdings shelf.old) name.now → result.0 ≡ 4 }
    ensures holdings { S.holdings shelf.new ≡ S.holdings shelf.old }
    ensures read_fault_ends { (result.0 ≡ 4) ⊎ (S.faults shelf.new ≡ S.faults shelf.old) }
    ensures shelf_faults { S.faults shelf.old ≤ S.faults shelf.new }
    ensures sound { IsTrue (S.is_sound shelf.old) → IsTrue (S.is_sound shelf.new) }
    ensures write_fault_ends { (result.0 ≡ 5) ⊎ (K.faults out.new ≡ K.faults out.old) }
    ensures sink_faults { K.faults out.old ≤ K.faults out.new }
{
    match answer_to(alloc, shelf, name) {
        Ok(answer) => {
            let status = write_report(alloc, out, crew, &answer, all);

            // The archive was needed up to here, where the run ends: to take it apart, text by text, would cost
            // some hundredths of the time of a run.
            let _left = ManuallyDrop::new(answer);
            status
        }
        Err(Stop::ReadFault) => Status(4),
        Err(Stop::NoMemory) => Status(6),
    }
}

/// Writes the answers to a script, whose lines may speak of ties or not, on a solution of the archive under a name.
#[tactic(auto, using(crate::proofs::EndsLemmas::end_starved, crate::proofs::EndsLemmas::end_stopped))]
fn run_script<S: Shelf, K: Sink>(
    alloc: Global,
    shelf: &mut S,
    out: &mut K,
    name: &str,
    number: u32,
    script: &str,
    tied: bool,
) -> Status
    ensures end { IsEnd (Some (scripting name.now number script.now tied)) (S.holdings shelf.old) (S.is_sound shelf.old) (S.faults shelf.old) (S.faults shelf.new) (K.taken out.old) (K.taken out.new) (K.faults out.old) (K.faults out.new) result.0 }
    ensures status { result.0 ≡ 2 → ⊥ }
    ensures absent { IsTrue (S.is_sound shelf.old) → IsMissing (S.holdings shelf.old) name.now → result.0 ≡ 4 }
    ensures holdings { S.holdings shelf.new ≡ S.holdings shelf.old }
    ensures read_fault_ends { (result.0 ≡ 4) ⊎ (S.faults shelf.new ≡ S.faults shelf.old) }
    ensures shelf_faults { S.faults shelf.old ≤ S.faults shelf.new }
    ensures sound { IsTrue (S.is_sound shelf.old) → IsTrue (S.is_sound shelf.new) }
    ensures write_fault_ends { (result.0 ≡ 5) ⊎ (K.faults out.new ≡ K.faults out.old) }
    ensures sink_faults { K.faults out.old ≤ K.faults out.new }
{
    match play_of(alloc, shelf, name, number, script, tied) {
        Ok(play) => {
            let status = write_play(alloc, out, &play, tied);
            drop(play);
            status
        }
        Err(Stop::ReadFault) => Status(4),
        Err(Stop::NoMemory) => Status(6),
    }
}

/// Writes the answers to a script, or the line in their place.
fn write_play<K: Sink>(alloc: Global, out: &mut K, play: &Play, tied: bool) -> Status
    requires { IsReadyPlay play.now }
    ensures written { ((result.0 ≡ 6) × (K.taken out.new ≡ K.taken out.old)) ⊎ ((status : ℕ) × (text : List ℕ) × IsTextOf tied play.now status text
        × Written (K.taken out.old) (K.taken out.new) (K.faults out.old) (K.faults out.new) (encode_utf8_all text) status result.0) }
    ensures write_fault_ends { (result.0 ≡ 5) ⊎ (K.faults out.new ≡ K.faults out.old) }
    ensures sink_faults { K.faults out.old ≤ K.faults out.new }
{
    match play {
        Play::Refused(refusal) => put_refusal(alloc, out, *refusal),
        Play::TooLarge => put(out, 7, script_too_large()),
        Play::Run(begun, script) => {
            let inst = instance_of(begun);
            play_script(alloc, out, inst, &begun.plain, script.as_slice(), tied)
        }
    }
}

/// The instance of a timetable.
fn instance_of(begun: &Begun) -> &Instance
    requires { begun.now.instance < length begun.now.resolved.instances }
    ensures { slice_get begun.now.resolved.instances begun.now.instance ≡ Some result.now }
{
    &begun.resolved.instances.as_slice()[begun.instance]
}

/// What a script on a solution of the archive under a name leads to: the archive is read first, then its
/// solution, then the script.
#[tactic(auto, using(crate::proofs::PlayEnds::play_refused, crate::proofs::PlayEnds::play_barred, crate::proofs::PlayEnds::play_script, crate::proofs::PlayEnds::lacks_archive, crate::proofs::PlayEnds::lacks_script))]
fn play_of<S: Shelf>(
    alloc: Global,
    shelf: &mut S,
    name: &str,
    number: u32,
    script: &str,
    tied: bool,
) -> Result<Play, Stop>
    ensures play { IfOk result (λ a. IfSome (S.holdings shelf.old) (λ under. IsPlayAnswer tied number (under name.now) (under script.now) a)) }
    ensures ready { IfOk result IsReadyPlay }
    ensures fault { IsErrOf result Stop.ReadFault → Rose (S.faults shelf.old) (S.faults shelf.new) }
    ensures faultless { OnOk result (S.faults shelf.new ≡ S.faults shelf.old) }
    ensures faultless_starved { IsErrOf result Stop.NoMemory → S.faults shelf.new ≡ S.faults shelf.old }
    ensures missing { IsTrue (S.is_sound shelf.old) → IsErrOf result Stop.ReadFault → LacksOf (Some (scripting name.now number script.now tied)) (S.holdings shelf.old) }
    ensures absent { IsTrue (S.is_sound shelf.old) → IsMissing (S.holdings shelf.old) name.now → IsErrOf result Stop.ReadFault }
    ensures unchanged { S.holdings shelf.new ≡ S.holdings shelf.old }
    ensures counted { S.faults shelf.old ≤ S.faults shelf.new }
    ensures stays_sound { IsTrue (S.is_sound shelf.old) → IsTrue (S.is_sound shelf.new) }
{
    let _ = tied;
    match answer_to(alloc, shelf, name)? {
        Answer::Refused(refusal) => Ok(Play::Refused(refusal)),
        Answer::Read(read) => match start(alloc, read, number) {
            Ok(begun) => script_under(alloc, shelf, begun, script),
            Err(Unread::Refused(refusal)) => Ok(Play::Refused(refusal)),
            Err(Unread::NoMemory) => Err(Stop::NoMemory),
        },
    }
}

/// What the script under a name leads to, on this timetable.
fn script_under<S: Shelf>(
    alloc: Global,
    shelf: &mut S,
    begun: Begun,
    script: &str,
) -> Result<Play, Stop>
    ensures play { IfOk result (λ a. IfSome (S.holdings shelf.old) (λ under. IsScriptOf begun (under script.now) a)) }
    ensures held { IfOk result (IsWith begun) }
    ensures fault { IsErrOf result Stop.ReadFault → Rose (S.faults shelf.old) (S.faults shelf.new) }
    ensures faultless { OnOk result (S.faults shelf.new ≡ S.faults shelf.old) }
    ensures faultless_starved { IsErrOf result Stop.NoMemory → S.faults shelf.new ≡ S.faults shelf.old }
    ensures missing { IsTrue (S.is_sound shelf.old) → (IsErrOf result Stop.ReadFault ↔ IsMissing (S.holdings shelf.old) script.now) }
    ensures unchanged { S.holdings shelf.new ≡ S.holdings shelf.old }
    ensures counted { S.faults shelf.old ≤ S.faults shelf.new }
    ensures stays_sound { IsTrue (S.is_sound shelf.old) → IsTrue (S.is_sound shelf.new) }
{
    match take_all(alloc, shelf, script, limits::SCRIPT_BYTES) {
        Ok(bytes) => Ok(Play::Run(begun, bytes)),
        Err(TakeFault::TooLarge) => {
            drop(begun);
            Ok(Play::TooLarge)
        }
        Err(TakeFault::ReadFault) => {
            drop(begun);
            Err(Stop::ReadFault)
        }
        Err(TakeFault::NoMemory) => {
            drop(begun);
            Err(Stop::NoMemory)
        }
    }
}
