//! A sink that keeps all that it takes.

ghost use Rattle.std.specs.Prelude.{◌≡◌, ◌≤◌, Some};
ghost use Rattle.khe_io.specs.Faults.{Rose};

use khe_io::{Failed, Sink};

/// A sink that keeps all that it takes, in a list that grows. Its only fault is want of memory.
#[derive(Drop)]
pub(crate) struct Gathered {
    pub(crate) bytes: Vec<u8>,
    pub(crate) faults: u64,
}

impl Sink for Gathered {
    ghost taken = { λ s. Some s.bytes.items };

    ghost faults = { λ s. s.faults };

    fn write(&mut self, piece: &[u8]) -> Result<usize, Failed> {
        match self.bytes.extend_from_slice(piece) {
            Ok(()) => Ok(piece.len()),
            Err(_) => Err(count_fault(&mut self.faults)),
        }
    }
}

/// Counts a fault. The count stops at the greatest value.
fn count_fault(faults: &mut u64) -> Failed
    ensures rose { Rose faults.old faults.new }
    ensures counted { faults.old ≤ faults.new }
{
    *faults = faults.saturating_add(1);
    Failed
}
