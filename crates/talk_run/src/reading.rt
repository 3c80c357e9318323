//! Lines one after the other, of a reader.

ghost use Rattle.std.specs.Prelude.{◌≡◌, ◌<◌, ◌-◌, ◌==◌, length, slice_index, IfOk, IsErrOf, OnOk};
ghost use Rattle.std.specs.Io.{StopsAt};
ghost use Rattle.khe_io.specs.Faults.{Rose};
ghost use Rattle.talk_run.specs.Between.{IsFound};
ghost use Rattle.talk_run.specs.Found.{IsCut};

use crate::faults::TalkFault;
use std::io;
use std::io::{BufRead, ErrorKind};

/// The lines of a reader, one after the other, and a count of the times that the next one could not be read.
#[derive(Drop)]
pub struct Lines<R> {
    /// What they are read from.
    pub reader: R,
    /// How many times a line could not be read. The count stops at its greatest value.
    pub faults: u64,
}

impl<R> Lines<R> {
    /// The lines that this reader has left. No fault is counted. It takes constant time and no memory.
    pub fn new(reader: R) -> Lines<R>
        ensures reader { result.reader ≡ reader }
        ensures faults { result.faults ≡ 0 }
    {
        Lines { reader, faults: 0 }
    }
}

/// What was read.
#[derive(Clone, Copy, PartialEq, Eq)]
pub enum Found {
    /// A line that a line feed ends.
    Line,
    /// The last line, which none ends.
    Last,
    /// Nothing: the lines are at their end.
    End,
}

/// Reads the next line, without its line feed, in place of what a buffer had. `ReadFault` comes with a fault that is
/// counted, and with any other answer none is. It takes time and memory in proportion to the line.
pub(crate) fn next_line<R: BufRead>(
    lines: &mut Lines<R>,
    line: &mut Vec<u8>,
) -> Result<Found, TalkFault>
    ensures found { IfOk result (IsFound (R.remaining lines.old.reader) (R.remaining lines.new.reader) line.new.items) }
    ensures written { IsErrOf result TalkFault.WriteFault → ⊥ }
    ensures unread { IsErrOf result TalkFault.ReadFault → Rose lines.old.faults lines.new.faults }
    ensures read { OnOk result (lines.new.faults ≡ lines.old.faults) }
    ensures read_starved { IsErrOf result TalkFault.NoMemory → lines.new.faults ≡ lines.old.faults }
{
    line.clear();
    match lines.reader.read_until(b'\n', line) {
        Ok(_) => Ok(cut_end(line)),
        Err(error) => Err(fault_of(&error, &mut lines.faults)),
    }
}

/// What these bytes are, up to a line feed or to the end; the line feed is taken off.
fn cut_end(line: &mut Vec<u8>) -> Found
    requires { StopsAt line.old.items 10 }
    ensures { IsCut line.old.items line.new.items result }
{
    if line.is_empty() {
        return Found::End;
    }
    if has_end(line.as_slice()) {
        line.pop();
        return Found::Line;
    }
    Found::Last
}

/// Whether the last byte is a line feed.
fn has_end(line: &[u8]) -> bool
    requires { 0 < length line.now }
    ensures { result ≡ (slice_index line.now (length line.now - 1) == 10) }
{
    line[line.len() - 1] == b'\n'
}

/// Why a line was not read. Unless memory was refused, a fault is counted.
fn fault_of(error: &io::Error, faults: &mut u64) -> TalkFault
    ensures written { result ≡ TalkFault.WriteFault → ⊥ }
    ensures unread { result ≡ TalkFault.ReadFault → Rose faults.old faults.new }
    ensures read_starved { result ≡ TalkFault.NoMemory → faults.new ≡ faults.old }
{
    if error.kind() == ErrorKind::OutOfMemory {
        TalkFault::NoMemory
    } else {
        count_fault(faults)
    }
}

/// Counts that a line could not be read.
pub(crate) fn count_fault(faults: &mut u64) -> TalkFault
    ensures fault { result ≡ TalkFault.ReadFault }
    ensures rose { Rose faults.old faults.new }
{
    *faults = faults.saturating_add(1);
    TalkFault::ReadFault
}
