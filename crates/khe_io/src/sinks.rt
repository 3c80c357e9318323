//! Where bytes go to: the trait of all sinks.

ghost use Rattle.std.specs.Prelude.{◌≡◌, ℕ, ◌<◌, ◌≤◌, List, Option, length, take, IfOk, OnOk, OnErr};
ghost use Rattle.khe_io.specs.Faults.{Rose, Took};

use crate::Failed;

/// What takes the bytes of a text, in pieces. A sink may tell what it took or keep it to itself,
/// and its count of faults grows only by a call that fails.
pub trait Sink {
    /// All bytes that the sink took, where it tells them.
    ghost taken: { Self → Option (List ℕ) };

    /// How many faults were counted. The count starts at 0 and stops at 2^64 - 1.
    ghost faults: { Self → ℕ };

    /// Takes bytes from the front of a piece, and answers how many: at least 1.
    ///
    /// `Failed` comes only with a counted fault, and then nothing was taken. With `Ok` no fault was
    /// counted.
    fn write(&mut self, piece: &[u8]) -> Result<usize, Failed>
        requires piece { 0 < length piece.now }

        ensures some { IfOk result (λ n. 1 ≤ n) }
        ensures within { IfOk result (λ n. n ≤ length piece.now) }
        ensures took { IfOk result (λ n. Took (taken self.old) (taken self.new) (take n piece.now)) }
        ensures failed { OnErr result (Rose (faults self.old) (faults self.new)) }
        ensures faultless { OnOk result (faults self.new ≡ faults self.old) }
        ensures nothing { OnErr result (taken self.new ≡ taken self.old) }
        ensures counted { faults self.old ≤ faults self.new };
}
