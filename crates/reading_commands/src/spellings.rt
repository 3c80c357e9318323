//! Archives in their canonical spelling.

ghost use Rattle.std.specs.Prelude.{◌≡◌, ◌≤◌, ◌⊎◌};
ghost use Rattle.xhstt_writer.specs.Archives.{canonical};
ghost use Rattle.reading_commands.specs.Answers.{reading_of, IsReadyAnswer};
ghost use Rattle.reading_commands.specs.Ends.{Written};
ghost use Rattle.reading_commands.specs.Outcome.{spelling_of, status_of};

use crate::answers::Answer;
use crate::statuses::{Status, put_refusal};
use khe_io::Sink;
use std::alloc::Global;
use xhstt_shape::Archive;
use xhstt_writer::{SendFault, send};

/// Writes an archive in its canonical spelling, or the line that refuses it, and answers the status. It takes time
/// linear in what it writes, and beside the archive no more memory than a piece of that.
pub fn write_spelling<K: Sink>(alloc: Global, out: &mut K, answer: &Answer) -> Status
    requires { IsReadyAnswer answer.now }
    ensures written { Written (K.taken out.old) (K.taken out.new) (K.faults out.old) (K.faults out.new) (spelling_of (reading_of answer.now)) (status_of (reading_of answer.now)) result.0 }
    ensures write_fault_ends { (result.0 ≡ 5) ⊎ (K.faults out.new ≡ K.faults out.old) }
    ensures sink_faults { K.faults out.old ≤ K.faults out.new }
{
    match answer {
        Answer::Read(read) => put_spelling(alloc, out, &read.archive),
        Answer::Refused(refusal) => put_refusal(alloc, out, *refusal),
    }
}

/// Writes an archive in its canonical spelling, in pieces, and answers status 0, or 5 where the sink refused a call after
/// some first bytes of it, or 6 where memory ran out. It takes what `write_spelling` takes.
pub fn put_spelling<K: Sink>(alloc: Global, out: &mut K, archive: &Archive) -> Status
    ensures written { Written (K.taken out.old) (K.taken out.new) (K.faults out.old) (K.faults out.new) (canonical archive.now) 0 result.0 }
    ensures write_fault_ends { (result.0 ≡ 5) ⊎ (K.faults out.new ≡ K.faults out.old) }
    ensures sink_faults { K.faults out.old ≤ K.faults out.new }
{
    match send(alloc, archive, out) {
        Ok(()) => Status(0),
        Err(SendFault::WriteFault) => Status(5),
        Err(SendFault::NoMemory) => Status(6),
    }
}
