//! Where bytes come from: the trait of all shelves.

ghost use Rattle.std.specs.Prelude.{◌≡◌, ℕ, ◌<◌, ◌≤◌, ◌↔◌, List, Bool, Option, length, take, IsTrue, IsSome, IsOk, IsErr, IfOk, OnOk, OnErr, is_ok};
ghost use Rattle.khe_io.specs.Faults.{Rose};
ghost use Rattle.khe_io.specs.Shelf.{IsMissing, Opened, Gave, EndsWhereNoneIsLeft};

use crate::Failed;

/// A store of named sources of bytes, of which one is open at a time.
///
/// A shelf may tell what it holds or keep it to itself. A sound shelf tells everything, fails at no
/// read, and at an opening only where the name is missing. No call changes what stands under a
/// name, and the count of faults grows only by a call that fails.
pub trait Shelf {
    /// What stands under each name, where the shelf tells it: the bytes of a name to the bytes
    /// under it.
    ghost holdings: { Self → Option (List ℕ → Option (List ℕ)) };

    /// Whether a source is open.
    ghost is_open: { Self → Bool };

    /// What is left of the open source, where the shelf tells it.
    ghost left: { Self → Option (List ℕ) };

    /// How many faults were counted. The count starts at 0 and stops at 2^64 - 1.
    ghost faults: { Self → ℕ };

    /// Whether the shelf tells everything and fails only at missing names.
    ghost is_sound: { Self → Bool };

    /// Opens the source under a name, from its first byte, in place of the one that was open.
    ///
    /// After `Ok` all that stands under the name is left, and no fault was counted. After `Failed`,
    /// which comes only with a counted fault, no source is open. A missing name is a fault.
    fn open(&mut self, name: &str) -> Result<(), Failed>
        ensures opened { OnOk result (Opened (holdings self.old) name.now (left self.new)) }
        ensures source { is_open self.new ≡ is_ok result }
        ensures failed { OnErr result (Rose (faults self.old) (faults self.new)) }
        ensures faultless { OnOk result (faults self.new ≡ faults self.old) }
        ensures missing { IsTrue (is_sound self.old) → (IsErr result ↔ IsMissing (holdings self.old) name.now) }

        ensures unchanged { holdings self.new ≡ holdings self.old }
        ensures counted { faults self.old ≤ faults self.new }
        ensures stays_sound { IsTrue (is_sound self.old) → IsTrue (is_sound self.new) };

    /// Reads the next bytes of the open source into the front of a buffer, and answers how many:
    /// at most the buffer's length, and 0 only at the end of the source.
    ///
    /// The source stays open. `Failed` comes only with a counted fault, and then what is left is
    /// as before; what the buffer holds is not promised. With `Ok` no fault was counted.
    fn read(&mut self, buf: &mut [u8]) -> Result<usize, Failed>
        requires buffer { 0 < length buf.old }
        requires open { IsTrue (is_open self.old) }

        ensures within { IfOk result (λ n. n ≤ length buf.new) }
        ensures gave { IfOk result (λ n. Gave (left self.old) (left self.new) (take n buf.new)) }
        ensures end { IfOk result (EndsWhereNoneIsLeft (left self.old)) }
        ensures failed { OnErr result (Rose (faults self.old) (faults self.new)) }
        ensures faultless { OnOk result (faults self.new ≡ faults self.old) }
        ensures kept { OnErr result (left self.new ≡ left self.old) }
        ensures never_failed { IsTrue (is_sound self.old) → IsOk result }

        ensures stays_open { IsTrue (is_open self.new) }
        ensures unchanged { holdings self.new ≡ holdings self.old }
        ensures counted { faults self.old ≤ faults self.new }
        ensures stays_sound { IsTrue (is_sound self.old) → IsTrue (is_sound self.new) };

    /// A sound shelf tells what it holds.
    ghost sound_tells_holdings: { (s : Self) → IsTrue (is_sound s) → IsSome (holdings s) };

    /// A sound shelf tells what is left of an open source.
    ghost sound_tells_left: { (s : Self) → IsTrue (is_sound s) → IsTrue (is_open s) → IsSome (left s) };
}
