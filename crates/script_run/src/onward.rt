//! Where an answer goes while it grows.

ghost use Rattle.std.specs.Prelude.{◌≡◌, ◌≤◌, ℕ, List, [], Option, Some, OnOk, OnErr, IsErrOf, encode_utf8_all};
ghost use Rattle.khe_io.specs.Faults.{Rose, TookFront};
ghost use Rattle.khe_io.specs.Amid.{IsAmid};

use khe_base::Text;
use khe_io::{Cut, Sink, flush_long};
use std::alloc::Global;

/// Where an answer goes while it grows: every sink takes it piece by piece.
pub trait Onward {
    /// All bytes that were taken, where that is told.
    ghost taken: { Self → Option (List ℕ) };

    /// How many faults were counted. The count stops at 2^64 - 1.
    ghost faults: { Self → ℕ };

    /// Takes what waits, or leaves it. After an error some first bytes of it were taken. Where little waits it takes
    /// constant time.
    fn pass(&mut self, alloc: Global, pending: &mut Text) -> Result<(), Cut>
        ensures amid { (before : Option (List ℕ)) (rest whole : List ℕ) → IsAmid before (taken self.old) pending.old rest whole → OnOk result (IsAmid before (taken self.new) pending.new rest whole) }
        ensures front { OnErr result (TookFront (taken self.old) (taken self.new) (encode_utf8_all pending.old)) }
        ensures fault { IsErrOf result Cut.WriteFault → Rose (faults self.old) (faults self.new) }
        ensures faultless { OnOk result (faults self.new ≡ faults self.old) }
        ensures faultless_starved { IsErrOf result Cut.NoMemory → faults self.new ≡ faults self.old }
        ensures counted { faults self.old ≤ faults self.new };
}

impl<K: Sink> Onward for K {
    ghost taken = { λ k. K.taken k };

    ghost faults = { λ k. K.faults k };

    fn pass(&mut self, alloc: Global, pending: &mut Text) -> Result<(), Cut> {
        flush_long(alloc, self, pending)
    }
}

/// Keeps an answer as it grows, whole in memory.
#[derive(Drop)]
pub struct Kept;

impl Onward for Kept {
    ghost taken = { λ _. Some [] };

    ghost faults = { λ _. 0 };

    fn pass(&mut self, alloc: Global, pending: &mut Text) -> Result<(), Cut> {
        let _ = alloc;
        let _ = pending.as_bytes();
        Ok(())
    }
}
