//! An engine and its archive, answering the lines of a talk.

ghost use Rattle.std.specs.Prelude.{◌≡◌, ◌≤◌, ◌++◌, IsErrOf, OnErr, OnOk, codes, refl};
ghost use Rattle.khe_io.specs.Faults.{Rose, Took, TookFront};
ghost use Rattle.script_run.specs.Plays.{play_of};
ghost use Rattle.talk_run.specs.Answers.{answered, archive_bytes, turned};
ghost use Rattle.talk_run.specs.Lines.{talk_reading};
ghost use Rattle.talk_run.specs.Sent.{IsSame};
ghost use Rattle.talk_run.specs.Talks.{talk_bytes};

use crate::answering::answer_reading;
use crate::commands::read_talk_line;
use crate::talking::Talker;
use khe_base::{NoMemory, Text};
use khe_engine::Engine;
use khe_io::{Cut, Sink, flush};
use script_run::Shortages;
use std::alloc::Global;
use xhstt_shape::Archive;

/// An engine on the timetable of a solution of an archive.
#[derive(Drop)]
pub struct Speaker<'i, F: Shortages> {
    /// The engine.
    pub engine: Engine<'i, F>,
    /// The archive.
    pub archive: Archive,
    /// The number of the solution, over all groups.
    pub solution: u32,
}

impl<'i, F: Shortages> Talker for Speaker<'i, F> {
    ghost said = { λ s. talk_bytes (archive_bytes s.archive s.solution s.engine.parts) s.engine.parts (play_of s.engine) };

    ghost ends = { λ s number. refl };

    fn answer_line<K: Sink>(
        &mut self,
        alloc: Global,
        line: &[u8],
        number: u64,
        text: &mut Text,
        out: &mut K,
    ) -> Result<(), Cut> {
        answer_reading(alloc, self, read_talk_line(line), number, text, out)?;
        Ok(end_answer(text)?)
    }
}

/// Adds the line that ends an answer.
fn end_answer(text: &mut Text) -> Result<(), NoMemory>
    ensures { OnOk result (text.new ≡ text.old ++ codes ".\n") }
{
    text.push_literal(".\n")
}

/// Carries out the line with a number, and gives its answer to a sink, without the full stop that ends it in a talk.
/// A line without a reading is answered too.
///
/// After `Ok` the sink took the answer. `WriteFault` comes only with a fault that the sink counted, and with any other
/// answer it counted none. After an error the sink took some first bytes of the answer, and of the timetable and the
/// archive nothing is promised. It takes the time of the answer, and memory for it where it is no archive.
pub fn answer_bare<F: Shortages, K: Sink>(
    alloc: Global,
    speaker: &mut Speaker<'_, F>,
    line: &[u8],
    number: u64,
    out: &mut K,
) -> Result<(), Cut>
    ensures parts { speaker.new.engine.parts ≡ speaker.old.engine.parts }
    ensures solution { speaker.new.solution ≡ speaker.old.solution }
    ensures archive { OnOk result (IsSame speaker.new.archive speaker.old.archive speaker.old.solution) }
    ensures played { OnOk result (play_of speaker.new.engine ≡ turned speaker.old.engine.parts (play_of speaker.old.engine) (talk_reading line.now)) }
    ensures answered { OnOk result (Took (K.taken out.old) (K.taken out.new) (answered (archive_bytes speaker.old.archive speaker.old.solution speaker.old.engine.parts) speaker.old.engine.parts (play_of speaker.old.engine) number (talk_reading line.now))) }
    ensures front { OnErr result (TookFront (K.taken out.old) (K.taken out.new) (answered (archive_bytes speaker.old.archive speaker.old.solution speaker.old.engine.parts) speaker.old.engine.parts (play_of speaker.old.engine) number (talk_reading line.now))) }
    ensures fault { IsErrOf result Cut.WriteFault → Rose (K.faults out.old) (K.faults out.new) }
    ensures faultless { OnOk result (K.faults out.new ≡ K.faults out.old) }
    ensures faultless_starved { IsErrOf result Cut.NoMemory → K.faults out.new ≡ K.faults out.old }
    ensures counted { K.faults out.old ≤ K.faults out.new }
{
    let mut text = Text::new(alloc);
    answer_reading(alloc, speaker, read_talk_line(line), number, &mut text, out)?;
    flush(alloc, out, &mut text)
}
