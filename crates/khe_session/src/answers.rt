//! The bytes of an answer.

ghost use Rattle.std.specs.Prelude.{◌≡◌, [], OnErr, OnOk};
ghost use Rattle.script_run.specs.Plays.{play_of};
ghost use Rattle.talk_run.specs.Answers.{answered, archive_bytes, turned};
ghost use Rattle.talk_run.specs.Lines.{talk_reading};
ghost use Rattle.talk_run.specs.Sent.{IsSame};

use crate::gathering::Gathered;
use khe_base::NoMemory;
use script_run::Shortages;
use std::alloc::Global;
use std::mem::replace;
use talk_run::{Speaker, answer_bare};

/// Carries out the line with a number, and puts its answer in place of what a list had; after an error the list is
/// empty.
pub(crate) fn answer_into<F: Shortages>(
    alloc: Global,
    speaker: &mut Speaker<'_, F>,
    line: &[u8],
    number: u64,
    answer: &mut Vec<u8>,
) -> Result<(), NoMemory>
    ensures parts { speaker.new.engine.parts ≡ speaker.old.engine.parts }
    ensures solution { speaker.new.solution ≡ speaker.old.solution }
    ensures archive { OnOk result (IsSame speaker.new.archive speaker.old.archive speaker.old.solution) }
    ensures played { OnOk result (play_of speaker.new.engine ≡ turned speaker.old.engine.parts (play_of speaker.old.engine) (talk_reading line.now)) }
    ensures answered { OnOk result (answer.new.items ≡ answered (archive_bytes speaker.old.archive speaker.old.solution speaker.old.engine.parts) speaker.old.engine.parts (play_of speaker.old.engine) number (talk_reading line.now)) }
    ensures empty { OnErr result (answer.new.items ≡ []) }
{
    let mut sink = emptied(alloc, answer);
    match answer_bare(alloc, speaker, line, number, &mut sink) {
        Ok(()) => {
            *answer = sink.bytes;
            Ok(())
        }
        Err(_) => Err(NoMemory),
    }
}

/// A sink with the room of a list, which is empty then.
fn emptied(alloc: Global, list: &mut Vec<u8>) -> Gathered
    ensures sink { result.bytes.items ≡ [] }
    ensures list { list.new.items ≡ [] }
{
    let mut bytes = replace(list, Vec::new(alloc));
    bytes.clear();
    Gathered { bytes, faults: 0 }
}
