//! The lines of a talk, one after the other.

ghost use Rattle.std.specs.Prelude.{ℕ, List, Option, [], ◌≡◌, ◌≤◌, ◌<◌, ◌^◌, ◌-◌, ◌+◌, ◌∷◌, OnOk, OnErr, IsErrOf};
ghost use Rattle.khe_io.specs.Faults.{Rose, TookFront};
ghost use Rattle.talk_run.specs.Between.{IsBetween, IsCutOff, IsTalked};

use crate::faults::TalkFault;
use crate::reading::{Found, Lines, count_fault, next_line};
use khe_base::Text;
use khe_io::{Cut, Sink, flush};
use std::alloc::Global;
use std::io::BufRead;

/// What answers the lines of a talk.
pub trait Talker {
    /// The bytes of its answers to lines that are numbered on from a number, each with the line that ends it.
    ghost said: { Self → ℕ → List (List ℕ) → List ℕ };

    /// Carries out the line with a number, and gives its answer, with the line that ends it, to what waits or to a
    /// sink behind what waits. A line without a reading is answered too.
    ///
    /// `WriteFault` comes only with a fault that the sink counted, and with any other answer it counted none. After
    /// an error the sink took some first bytes of what waited and of the answer.
    fn answer_line<K: Sink>(
        &mut self,
        alloc: Global,
        line: &[u8],
        number: u64,
        text: &mut Text,
        out: &mut K,
    ) -> Result<(), Cut>
        ensures answered { (before : Option (List ℕ)) (more : List (List ℕ)) (whole : List ℕ) → IsBetween before (K.taken out.old) text.old (said self.old number (line.now ∷ more)) whole → OnOk result (IsBetween before (K.taken out.new) text.new (said self.new (number + 1) more) whole) }
        ensures front { (before : Option (List ℕ)) (more : List (List ℕ)) (whole : List ℕ) → IsBetween before (K.taken out.old) text.old (said self.old number (line.now ∷ more)) whole → OnErr result (TookFront before (K.taken out.new) whole) }
        ensures fault { IsErrOf result Cut.WriteFault → Rose (K.faults out.old) (K.faults out.new) }
        ensures faultless { OnOk result (K.faults out.new ≡ K.faults out.old) }
        ensures faultless_starved { IsErrOf result Cut.NoMemory → K.faults out.new ≡ K.faults out.old }
        ensures counted { K.faults out.old ≤ K.faults out.new };

    /// Where no line is left nothing is answered.
    ghost ends: { (x : Self) (number : ℕ) → said x number [] ≡ [] };
}

/// Reads lines and answers each, until none is left. A line is what stands before a line feed, and what stands after
/// the last one where that is not empty; lines are numbered from 1.
///
/// After `Ok` the sink took what all lines are answered that the reader had. Each answer is given to the sink before
/// the next line is read. The errors are that a line could not be read, or that 2^64 - 1 lines were (`ReadFault`), and
/// then a fault of the lines is counted; that the sink refused a call (`WriteFault`), and then it counted a fault; and
/// want of memory (`NoMemory`). After an error the sink took some first bytes of what the lines are answered. With any
/// other answer than `WriteFault` it counted no fault, and with any other than `ReadFault` none of the lines is
/// counted. It takes the time of the answers, and the memory of the longest line and of the longest answer.
pub fn talk<T: Talker, R: BufRead, K: Sink>(
    alloc: Global,
    talker: &mut T,
    lines: &mut Lines<R>,
    out: &mut K,
) -> Result<(), TalkFault>
    ensures whole { OnOk result (IsTalked (R.remaining lines.old.reader) (K.taken out.old) (K.taken out.new) (T.said talker.old 1)) }
    ensures front { OnErr result (IsCutOff (R.remaining lines.old.reader) (K.taken out.old) (K.taken out.new) (T.said talker.old 1)) }
    ensures fault { IsErrOf result TalkFault.WriteFault → Rose (K.faults out.old) (K.faults out.new) }
    ensures faultless { OnOk result (K.faults out.new ≡ K.faults out.old) }
    ensures faultless_unread { IsErrOf result TalkFault.ReadFault → K.faults out.new ≡ K.faults out.old }
    ensures faultless_starved { IsErrOf result TalkFault.NoMemory → K.faults out.new ≡ K.faults out.old }
    ensures counted { K.faults out.old ≤ K.faults out.new }
    ensures unread { IsErrOf result TalkFault.ReadFault → Rose lines.old.faults lines.new.faults }
    ensures read { OnOk result (lines.new.faults ≡ lines.old.faults) }
    ensures read_unwritten { IsErrOf result TalkFault.WriteFault → lines.new.faults ≡ lines.old.faults }
    ensures read_starved { IsErrOf result TalkFault.NoMemory → lines.new.faults ≡ lines.old.faults }
{
    let mut line = Vec::new(alloc);
    let mut number: u64 = 0;
    while number < u64::MAX {
        number += 1;
        match next_line(lines, &mut line)? {
            Found::Line => answer(alloc, talker, line.as_slice(), number, out)?,
            Found::Last => return Ok(answer(alloc, talker, line.as_slice(), number, out)?),
            Found::End => return Ok(()),
        }
    }
    Err(count_fault(&mut lines.faults))
}

/// Answers a line, and gives the answer to the sink.
fn answer<T: Talker, K: Sink>(
    alloc: Global,
    talker: &mut T,
    line: &[u8],
    number: u64,
    out: &mut K,
) -> Result<(), Cut>
    ensures answered { (before : Option (List ℕ)) (more : List (List ℕ)) (whole : List ℕ) → IsBetween before (K.taken out.old) [] (T.said talker.old number (line.now ∷ more)) whole → OnOk result (IsBetween before (K.taken out.new) [] (T.said talker.new (number + 1) more) whole) }
    ensures front { (before : Option (List ℕ)) (more : List (List ℕ)) (whole : List ℕ) → IsBetween before (K.taken out.old) [] (T.said talker.old number (line.now ∷ more)) whole → OnErr result (TookFront before (K.taken out.new) whole) }
    ensures fault { IsErrOf result Cut.WriteFault → Rose (K.faults out.old) (K.faults out.new) }
    ensures faultless { OnOk result (K.faults out.new ≡ K.faults out.old) }
    ensures faultless_starved { IsErrOf result Cut.NoMemory → K.faults out.new ≡ K.faults out.old }
    ensures counted { K.faults out.old ≤ K.faults out.new }
{
    let mut text = Text::new(alloc);
    talker.answer_line(alloc, line, number, &mut text, out)?;
    flush(alloc, out, &mut text)
}
