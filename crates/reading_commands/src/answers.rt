//! What an archive under a name leads to.

ghost use Rattle.std.specs.Prelude.{◌≡◌, ◌≤◌, ◌↔◌, Some, IsTrue, IfOk, IfSome, IsErrOf, OnOk, length};
ghost use Rattle.khe_base.specs.declared.limits.TheConstants.{ARCHIVE_BYTES};
ghost use Rattle.khe_io.specs.Faults.{Rose};
ghost use Rattle.khe_io.specs.Shelf.{IsMissing};
ghost use Rattle.archive_reading.specs.Reading.{IsReadingOf};
ghost use Rattle.reading_commands.specs.Answers.{reading_of, IsAnswerOf, IsOnlyAnswerOf, IsReadyAnswer};

use archive_reading::{ReadArchive, Refusal, Unread, read};
use khe_base::{NoMemory, Seq, limits};
use khe_io::{Shelf, TakeFault, take_all};
use std::alloc::Global;
use thiserror::Error;

/// What an archive leads to.
#[derive(Drop)]
pub enum Answer {
    /// It is read.
    Read(ReadArchive),
    /// It is refused.
    Refused(Refusal),
}

/// Why there is no answer: what was to be read could not be, or memory ran out.
#[derive(Clone, Copy, Debug, PartialEq, Eq, Error)]
pub enum Stop {
    /// The shelf refused a call.
    #[error("a file could not be read")]
    ReadFault,
    /// Memory was refused.
    #[error("out of memory")]
    NoMemory,
}

impl From<NoMemory> for Stop {
    ghost use Rattle.std.specs.Prelude.{◌≡◌};
    ghost use Rattle.reading_commands.specs.declared.answers.Stop.TheVariants.{NoMemory as OutOfMemory};

    ghost from_gives = { λ _ stop. stop ≡ OutOfMemory };

    fn from(_error: NoMemory) -> Stop {
        Stop::NoMemory
    }
}

/// What the archive under a name leads to: it is read with its instances, or it is refused, also where it is too large.
///
/// `ReadFault` comes only with a fault that the shelf counted, and on a sound shelf exactly where the name is missing.
/// After any answer the shelf holds what it held. It takes what reading an archive takes.
pub fn answer_to<S: Shelf>(alloc: Global, shelf: &mut S, name: &str) -> Result<Answer, Stop>
    ensures answer { IfOk result (λ a. IfSome (S.holdings shelf.old) (λ under. IsAnswerOf (under name.now) a)) }
    ensures only { IfOk result (λ a. IfSome (S.holdings shelf.old) (λ under. IsOnlyAnswerOf (under name.now) a)) }
    ensures ready { IfOk result IsReadyAnswer }
    ensures fault { IsErrOf result Stop.ReadFault → Rose (S.faults shelf.old) (S.faults shelf.new) }
    ensures faultless { OnOk result (S.faults shelf.new ≡ S.faults shelf.old) }
    ensures faultless_starved { IsErrOf result Stop.NoMemory → S.faults shelf.new ≡ S.faults shelf.old }
    ensures missing { IsTrue (S.is_sound shelf.old) → (IsErrOf result Stop.ReadFault ↔ IsMissing (S.holdings shelf.old) name.now) }
    ensures unchanged { S.holdings shelf.new ≡ S.holdings shelf.old }
    ensures counted { S.faults shelf.old ≤ S.faults shelf.new }
    ensures stays_sound { IsTrue (S.is_sound shelf.old) → IsTrue (S.is_sound shelf.new) }
{
    match take_all(alloc, shelf, name, limits::ARCHIVE_BYTES) {
        Ok(bytes) => Ok(answer_of(alloc, bytes)?),
        Err(TakeFault::TooLarge) => Ok(Answer::Refused(Refusal::TooLarge)),
        Err(TakeFault::ReadFault) => Err(Stop::ReadFault),
        Err(TakeFault::NoMemory) => Err(Stop::NoMemory),
    }
}

/// What the bytes of an archive lead to.
fn answer_of(alloc: Global, bytes: Seq<u8>) -> Result<Answer, NoMemory>
    requires { length bytes ≤ ARCHIVE_BYTES }
    ensures answer { IfOk result (λ a. IsReadingOf bytes (reading_of a)) }
    ensures only { IfOk result (IsOnlyAnswerOf (Some bytes)) }
    ensures ready { IfOk result IsReadyAnswer }
{
    match read(alloc, bytes) {
        Ok(read) => Ok(Answer::Read(read)),
        Err(Unread::Refused(refusal)) => Ok(Answer::Refused(refusal)),
        Err(Unread::NoMemory) => Err(NoMemory),
    }
}
