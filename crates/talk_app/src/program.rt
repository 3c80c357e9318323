//! A talk by the words of the command line.

ghost use Rattle.std.specs.Prelude.{◌≡◌, ◌≤◌, ◌⊎◌, None, Some, IfSome, IsTrue, map, string_bytes};
ghost use Rattle.reading_commands.specs.Answers.{IsReadyAnswer, reading_of};
ghost use Rattle.khe_io.specs.Faults.{Rose, Took, TookFront};
ghost use Rattle.khe_io.specs.Shelf.{IsMissing};
ghost use Rattle.talk_app.specs.Ends.{EndedBy, IsEnd, LacksArchive};
ghost use Rattle.talk_app.specs.Outcome.{IsOutcome, IsTalkIn, IsTalkTo, not_understood_line};
ghost use Rattle.talk_app.specs.Words.{asked};

use crate::opening::talk_on;
use crate::words::request_of;
use khe_app::{Answer, Status, Stop, answer_to, put_refusal};
use khe_io::{Shelf, Sink, put_all};
use std::alloc::Global;
use std::io::BufRead;
use talk_run::Lines;

/// Talks as the words ask for: reads the archive that they name from the shelf, opens an engine on one of its
/// solutions, and answers the lines of a reader, each before the next is read; or writes the line that refuses the
/// words, the archive or the solution.
///
/// The words are the archive's name, the number of a solution, and `--demands` or nothing more: then the engine keeps
/// demands, and what is short is answered at once. Answers do not depend on it.
///
/// The statuses are 0 after the last line, 2 where the words were not understood, 3 where the archive or the solution
/// was refused, 4 where the archive or a line could not be read, 5 where an answer could not be written, and 6 where
/// memory ran out. Before the last three some first bytes of the answers may have been written. Status 4 comes with a
/// fault that the shelf or the lines counted. It takes what reading the archive and opening an engine take, and then
/// what each line takes.
pub fn talk_by_words<S: Shelf, R: BufRead, K: Sink>(
    alloc: Global,
    words: &[String],
    shelf: &mut S,
    lines: &mut Lines<R>,
    out: &mut K,
) -> Status
    ensures end { IfSome (S.holdings shelf.old) (λ under. IsEnd (IsOutcome (asked (map string_bytes words.now)) under) (R.remaining lines.old.reader) (K.taken out.old) (K.taken out.new) (K.faults out.old) (K.faults out.new) result.0) }
    ensures no_reading { asked (map string_bytes words.now) ≡ None → ((result.0 ≡ 2) ⊎ (result.0 ≡ 5)) × (shelf.new ≡ shelf.old) × (lines.new ≡ lines.old) }

    // Status 4 comes by a fault of the shelf, before anything is written, or by that of a line, and a run in which one
    // of them counted a fault ends with it. Where no line failed it comes, on a sound shelf, exactly where nothing
    // stands under the archive's name, also where memory is refused.
    ensures read_fault { result.0 ≡ 4 → Rose (S.faults shelf.old) (S.faults shelf.new) ⊎ Rose lines.old.faults lines.new.faults }
    ensures read_fault_ends { (result.0 ≡ 4) ⊎ (S.faults shelf.new ≡ S.faults shelf.old) }
    ensures line_fault_ends { (result.0 ≡ 4) ⊎ (lines.new.faults ≡ lines.old.faults) }
    ensures nothing_written { result.0 ≡ 4 → (K.taken out.new ≡ K.taken out.old) ⊎ Rose lines.old.faults lines.new.faults }
    ensures missing { IsTrue (S.is_sound shelf.old) → result.0 ≡ 4 → LacksArchive (map string_bytes words.now) (S.holdings shelf.old) ⊎ Rose lines.old.faults lines.new.faults }
    ensures found { IsTrue (S.is_sound shelf.old) → LacksArchive (map string_bytes words.now) (S.holdings shelf.old) → (result.0 ≡ 4) ⊎ (result.0 ≡ 6) }
    ensures absent { IsTrue (S.is_sound shelf.old) → LacksArchive (map string_bytes words.now) (S.holdings shelf.old) → result.0 ≡ 4 }

    // Where neither a device nor a line is to blame, the run ends as the definitions say, or because memory ran
    // out.
    ensures complete { (IsTrue (S.is_sound shelf.old) ⊎ (Rose (S.faults shelf.old) (S.faults shelf.new) → ⊥)) → (Rose (K.faults out.old) (K.faults out.new) → ⊥) → (Rose lines.old.faults lines.new.faults → ⊥)
        → (result.0 ≡ 6) ⊎ EndedBy (map string_bytes words.now) (S.holdings shelf.old) (R.remaining lines.old.reader) (K.taken out.old) (K.taken out.new) result.0 }

    ensures write_fault_ends { (result.0 ≡ 5) ⊎ (K.faults out.new ≡ K.faults out.old) }
    ensures sink_faults { K.faults out.old ≤ K.faults out.new }
    ensures holdings { S.holdings shelf.new ≡ S.holdings shelf.old }
    ensures shelf_faults { S.faults shelf.old ≤ S.faults shelf.new }
    ensures sound { IsTrue (S.is_sound shelf.old) → IsTrue (S.is_sound shelf.new) }
{
    match request_of(words) {
        Some(request) => talk_of(
            alloc,
            shelf,
            lines,
            out,
            request.archive,
            request.solution,
            request.demands,
        ),
        None => refuse_words(out),
    }
}

/// Refuses words without a reading.
fn refuse_words<K: Sink>(out: &mut K) -> Status
    ensures written { ((result.0 ≡ 2) × Took (K.taken out.old) (K.taken out.new) not_understood_line) ⊎ ((result.0 ≡ 5) × Rose (K.faults out.old) (K.faults out.new) × TookFront (K.taken out.old) (K.taken out.new) not_understood_line) }
    ensures write_fault_ends { (result.0 ≡ 5) ⊎ (K.faults out.new ≡ K.faults out.old) }
    ensures sink_faults { K.faults out.old ≤ K.faults out.new }
{
    match put_all(out, not_understood()) {
        Ok(()) => Status(2),
        Err(_) => Status(5),
    }
}

/// The line for words without a reading.
fn not_understood() -> &'static [u8]
    ensures { result.now ≡ not_understood_line }
{
    b"khe-talk: words not understood\n"
}

/// Talks on a solution of the archive under a name.
fn talk_of<S: Shelf, R: BufRead, K: Sink>(
    alloc: Global,
    shelf: &mut S,
    lines: &mut Lines<R>,
    out: &mut K,
    name: &str,
    solution: u32,
    demands: bool,
) -> Status
    ensures end { IfSome (S.holdings shelf.old) (λ under. IsEnd (IsTalkTo solution (under name.now)) (R.remaining lines.old.reader) (K.taken out.old) (K.taken out.new) (K.faults out.old) (K.faults out.new) result.0) }
    ensures write_fault_ends { (result.0 ≡ 5) ⊎ (K.faults out.new ≡ K.faults out.old) }
    ensures sink_faults { K.faults out.old ≤ K.faults out.new }
    ensures read_fault { result.0 ≡ 4 → Rose (S.faults shelf.old) (S.faults shelf.new) ⊎ Rose lines.old.faults lines.new.faults }
    ensures read_fault_ends { (result.0 ≡ 4) ⊎ (S.faults shelf.new ≡ S.faults shelf.old) }
    ensures line_fault_ends { (result.0 ≡ 4) ⊎ (lines.new.faults ≡ lines.old.faults) }
    ensures nothing_written { result.0 ≡ 4 → (K.taken out.new ≡ K.taken out.old) ⊎ Rose lines.old.faults lines.new.faults }
    ensures missing { IsTrue (S.is_sound shelf.old) → result.0 ≡ 4 → IsMissing (S.holdings shelf.old) name.now ⊎ Rose lines.old.faults lines.new.faults }
    ensures absent { IsTrue (S.is_sound shelf.old) → IsMissing (S.holdings shelf.old) name.now → result.0 ≡ 4 }
    ensures holdings { S.holdings shelf.new ≡ S.holdings shelf.old }
    ensures shelf_faults { S.faults shelf.old ≤ S.faults shelf.new }
    ensures sound { IsTrue (S.is_sound shelf.old) → IsTrue (S.is_sound shelf.new) }
{
    match answer_to(alloc, shelf, name) {
        Ok(answer) => talk_after(alloc, lines, out, answer, solution, demands),
        Err(Stop::ReadFault) => Status(4),
        Err(Stop::NoMemory) => Status(6),
    }
}

/// Talks on a solution of an archive, or writes the line that refuses the archive.
fn talk_after<R: BufRead, K: Sink>(
    alloc: Global,
    lines: &mut Lines<R>,
    out: &mut K,
    answer: Answer,
    solution: u32,
    demands: bool,
) -> Status
    requires { IsReadyAnswer answer }
    ensures end { IsEnd (IsTalkIn solution (reading_of answer)) (R.remaining lines.old.reader) (K.taken out.old) (K.taken out.new) (K.faults out.old) (K.faults out.new) result.0 }
    ensures write_fault_ends { (result.0 ≡ 5) ⊎ (K.faults out.new ≡ K.faults out.old) }
    ensures sink_faults { K.faults out.old ≤ K.faults out.new }
    ensures read_fault { result.0 ≡ 4 → Rose lines.old.faults lines.new.faults }
    ensures line_fault_ends { (result.0 ≡ 4) ⊎ (lines.new.faults ≡ lines.old.faults) }
{
    match answer {
        Answer::Read(read) => talk_on(alloc, lines, out, read, solution, demands),
        Answer::Refused(refusal) => put_refusal(alloc, out, refusal),
    }
}
