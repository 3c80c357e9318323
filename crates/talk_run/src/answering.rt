//! What is answered to a line of a talk.

ghost use Rattle.std.specs.Prelude.{ℕ, List, Option, ◌≡◌, ◌≤◌, ◌++◌, IfOk, OnOk, OnErr, IsErrOf, encode_utf8_all};
ghost use Rattle.khe_engine.specs.States.{State};
ghost use Rattle.khe_instance.specs.declared.parts.Parts.{Parts};
ghost use Rattle.khe_io.specs.Faults.{Rose, TookFront};
ghost use Rattle.script_run.specs.Faults.{fault_line};
ghost use Rattle.script_run.specs.Plays.{play_of};
ghost use Rattle.repair_run.specs.Placed.{respelled};
ghost use Rattle.talk_run.specs.Answers as spec;
ghost use Rattle.talk_run.specs.Between.{IsBetween};
ghost use Rattle.talk_run.specs.Lines.{IsFit};
ghost use Rattle.talk_run.specs.Sent.{IsSame};

use crate::commands::TalkCommand;
use crate::repairs::answer_repair;
use crate::speakers::Speaker;
use edit_script::LineFault;
use khe_base::{NoMemory, Text};
use khe_engine::Engine;
use khe_io::{Cut, Sink, flush};
use repair_run::respell;
use script_run::{Shortages, answer_command, fault_line};
use std::alloc::Global;
use xhstt_shape::Archive;
use xhstt_writer::{SendFault, send};

/// Carries out what a line asks for, and gives its answer, or why it has no reading, to what waits or to a sink behind
/// what waits.
pub(crate) fn answer_reading<F: Shortages, K: Sink>(
    alloc: Global,
    speaker: &mut Speaker<'_, F>,
    reading: Result<TalkCommand, LineFault>,
    number: u64,
    text: &mut Text,
    out: &mut K,
) -> Result<(), Cut>
    requires fit { IfOk reading IsFit }
    ensures parts { speaker.new.engine.parts ≡ speaker.old.engine.parts }
    ensures solution { speaker.new.solution ≡ speaker.old.solution }
    ensures archive { OnOk result (IsSame speaker.new.archive speaker.old.archive speaker.old.solution) }
    ensures played { OnOk result (play_of speaker.new.engine ≡ spec.turned speaker.old.engine.parts (play_of speaker.old.engine) reading) }
    ensures answered { (before : Option (List ℕ)) (rest whole : List ℕ) → IsBetween before (K.taken out.old) text.old (spec.answered (spec.archive_bytes speaker.old.archive speaker.old.solution speaker.old.engine.parts) speaker.old.engine.parts (play_of speaker.old.engine) number reading ++ rest) whole → OnOk result (IsBetween before (K.taken out.new) text.new rest whole) }
    ensures front { (before : Option (List ℕ)) (rest whole : List ℕ) → IsBetween before (K.taken out.old) text.old (spec.answered (spec.archive_bytes speaker.old.archive speaker.old.solution speaker.old.engine.parts) speaker.old.engine.parts (play_of speaker.old.engine) number reading ++ rest) whole → OnErr result (TookFront before (K.taken out.new) whole) }
    ensures fault { IsErrOf result Cut.WriteFault → Rose (K.faults out.old) (K.faults out.new) }
    ensures faultless { OnOk result (K.faults out.new ≡ K.faults out.old) }
    ensures faultless_starved { IsErrOf result Cut.NoMemory → K.faults out.new ≡ K.faults out.old }
    ensures counted { K.faults out.old ≤ K.faults out.new }
{
    match reading {
        Ok(TalkCommand::Archive) => put_archive(
            alloc,
            &speaker.engine,
            &mut speaker.archive,
            speaker.solution,
            text,
            out,
        ),
        Ok(TalkCommand::Base(command)) => {
            Ok(answer_command(alloc, &mut speaker.engine, command, text)?)
        }
        Ok(TalkCommand::Repair(chains)) => {
            Ok(answer_repair(alloc, &mut speaker.engine, chains, text)?)
        }
        Err(fault) => Ok(push_fault(alloc, number, fault, text)?),
    }
}

/// Adds the line that says why a line has no reading.
fn push_fault(alloc: Global, number: u64, fault: LineFault, text: &mut Text) -> Result<(), NoMemory>
    ensures { OnOk result (text.new ≡ text.old ++ fault_line number fault) }
{
    text.push_text(&fault_line(alloc, number, fault)?)
}

/// Gives what waits to the sink, and then the archive with the timetable of an engine in place of a solution.
fn put_archive<F: Shortages, K: Sink>(
    alloc: Global,
    engine: &Engine<'_, F>,
    archive: &mut Archive,
    solution: u32,
    text: &mut Text,
    out: &mut K,
) -> Result<(), Cut>
    ensures archive { OnOk result (IsSame archive.new archive.old solution) }
    ensures answered { (before : Option (List ℕ)) (rest whole : List ℕ) → IsBetween before (K.taken out.old) text.old (spec.archive_bytes archive.old solution engine.now.parts engine.now.state ++ rest) whole → OnOk result (IsBetween before (K.taken out.new) text.new rest whole) }
    ensures front { (before : Option (List ℕ)) (rest whole : List ℕ) → IsBetween before (K.taken out.old) text.old (spec.archive_bytes archive.old solution engine.now.parts engine.now.state ++ rest) whole → OnErr result (TookFront before (K.taken out.new) whole) }
    ensures fault { IsErrOf result Cut.WriteFault → Rose (K.faults out.old) (K.faults out.new) }
    ensures faultless { OnOk result (K.faults out.new ≡ K.faults out.old) }
    ensures faultless_starved { IsErrOf result Cut.NoMemory → K.faults out.new ≡ K.faults out.old }
    ensures counted { K.faults out.old ≤ K.faults out.new }
{
    flush(alloc, out, text)?;
    respell_as(alloc, engine, archive, solution)?;
    match send(alloc, archive, out) {
        Ok(()) => Ok(()),
        Err(SendFault::WriteFault) => Err(Cut::WriteFault),
        Err(SendFault::NoMemory) => Err(Cut::NoMemory),
    }
}

/// Puts the timetable of an engine in place of a solution of an archive.
fn respell_as<F: Shortages>(
    alloc: Global,
    engine: &Engine<'_, F>,
    archive: &mut Archive,
    solution: u32,
) -> Result<(), NoMemory>
    ensures { OnOk result (archive.new ≡ respelled archive.old solution engine.now.parts (spec.listed engine.now.state)) }
{
    let plain = engine.plain(alloc)?;
    respell(alloc, archive, solution, engine.instance(), &plain)
}
