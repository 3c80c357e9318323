//! The standard output as a sink.

ghost use Rattle.std.specs.Prelude.{◌≤◌, length, IfOk};

use crate::faults::count_fault;
use crate::{Failed, Sink};
use std::io;
use std::io::Write;

/// The standard output as a sink. It does not tell what it took, flushes each write, and counts each error and
/// each write of no bytes as a fault.
#[derive(Drop)]
pub struct StdSink<'a, R: Print> {
    system: &'a R,
    faults: u64,
}

impl<'a, R: Print> StdSink<'a, R> {
    ghost use Rattle.std.specs.Prelude.{◌≡◌};

    /// A sink over the output of a system. No fault is counted. It takes no memory.
    pub fn new(system: &'a R) -> StdSink<'a, R>
        ensures { ⟦<StdSink<'a, R> as Sink>⟧.faults result ≡ 0 }
    {
        StdSink { system, faults: 0 }
    }
}

/// Writes bytes from the front of a piece, all of it in one call where the system takes all,
/// and flushes them.
fn write_flushed<R: Print>(system: &R, piece: &[u8]) -> io::Result<usize>
    ensures { IfOk result (λ count. count ≤ length piece.now) }
{
    let mut stream = io::writer(system);
    let count = stream.write(piece)?;
    stream.flush()?;
    Ok(count)
}

impl<'a, R: Print> Sink for StdSink<'a, R> {
    ghost use Rattle.std.specs.Prelude.{None};

    ghost taken = { λ _. None };

    ghost faults = { λ s. s.faults };

    fn write(&mut self, piece: &[u8]) -> Result<usize, Failed> {
        match write_flushed(self.system, piece) {
            Ok(count) if count > 0 => Ok(count),
            _ => Err(count_fault(&mut self.faults)),
        }
    }
}
