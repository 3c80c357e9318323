//! The status of a run, and what is written whole before it.

ghost use Rattle.std.specs.Prelude.{◌≡◌, ◌≤◌, ◌⊎◌, encode_utf8_all};
ghost use Rattle.archive_reading.specs.Refusals as refusals;
ghost use Rattle.reading_commands.specs.Ends.{Written};
ghost use Rattle.reading_commands.specs.Lines as lines;

use archive_reading::{Refusal, refusal_line};
use khe_base::NoMemory;
use khe_io::{Sink, put_all};
use std::alloc::Global;

/// The status that a run ends with.
///
/// | Status | Meaning |
/// |---|---|
/// | 0 | the archive was evaluated, written, repaired, solved, constructed, matched or made, the script was read to its end, or the job was run |
/// | 2 | the words were not understood |
/// | 3 | the archive was refused, or the solution that a command begins with, the instance that is constructed, or the time, the type or the tasks of a matching |
/// | 4 | the archive or the script could not be read |
/// | 5 | the text could not be written |
/// | 6 | memory ran out |
/// | 7 | a line of the script was not understood, or the script is too large |
#[derive(Clone, Copy, PartialEq, Eq)]
pub struct Status(pub u8);

/// The line for words without a reading. It takes constant time.
pub fn not_understood() -> &'static [u8]
    ensures { result.now ≡ encode_utf8_all lines.not_understood_line }
{
    b"khe: words not understood\n"
}

/// Writes a text, and answers the status that stands before it, or 5 where it was not written
/// whole because the sink refused a call. It takes what the sink takes.
pub fn put<K: Sink>(out: &mut K, status: u8, bytes: &[u8]) -> Status
    ensures written { Written (K.taken out.old) (K.taken out.new) (K.faults out.old) (K.faults out.new) bytes.now status result.0 }
    ensures ample { (result.0 ≡ status) ⊎ (result.0 ≡ 5) }
    ensures write_fault_ends { (result.0 ≡ 5) ⊎ (K.faults out.new ≡ K.faults out.old) }
    ensures sink_faults { K.faults out.old ≤ K.faults out.new }
{
    match put_all(out, bytes) {
        Ok(()) => Status(status),
        Err(_) => Status(5),
    }
}

/// Writes the line that refuses an archive or a solution, and answers status 3, or 5 where the sink refused a call after
/// some first bytes of it, or 6 where memory ran out. It takes constant time and memory.
pub fn put_refusal<K: Sink>(alloc: Global, out: &mut K, refusal: Refusal) -> Status
    ensures written { Written (K.taken out.old) (K.taken out.new) (K.faults out.old) (K.faults out.new) (encode_utf8_all (refusals.refusal_line refusal)) 3 result.0 }
    ensures write_fault_ends { (result.0 ≡ 5) ⊎ (K.faults out.new ≡ K.faults out.old) }
    ensures sink_faults { K.faults out.old ≤ K.faults out.new }
{
    match refusal_line(alloc, refusal) {
        Ok(line) => put(out, 3, line.as_bytes()),
        Err(NoMemory) => Status(6),
    }
}
