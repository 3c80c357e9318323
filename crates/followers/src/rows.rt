//! A row of bits: which meets have a tie.

ghost use Rattle.std.specs.Prelude.{◌≡◌, ◌<◌, ◌≤◌, ◌/◌, ◌^◌, ℕ, None, false, length, nat_eq, replicate, if◌then◌else◌, IfOk, MatchOption};
ghost use Rattle.khe_base.specs.Bits.{is_set};
ghost use Rattle.khe_solution.specs.FreeBits.{AreClear, IsFirst};
ghost use Rattle.followers.specs.Rows.{AreMarked};

use khe_base::NoMemory;
use khe_base::bits::{clear_bit, is_set, no_bits, set_bit};
use std::alloc::Global;

/// The bits of this many meets without ties.
#[tactic(auto, using(crate::proofs::RowsLaws::marked_none))]
pub(crate) fn no_marks(alloc: Global, slots: usize) -> Result<Vec<u64>, NoMemory>
    requires { slots < 2 ^ 32 }
    ensures { IfOk result (λ words. AreMarked (replicate slots None) words.items) }
{
    no_bits(alloc, slots / 64 + 1)
}

/// Writes the bit of a meet.
pub(crate) fn mark(words: &mut Vec<u64>, meet: usize, tied: bool)
    requires { meet / 64 < length words.old.items }
    ensures length { length words.new.items ≡ length words.old.items }
    ensures bits { (m : ℕ) → is_set words.new.items m ≡ (if nat_eq m meet then tied else is_set words.old.items m) }
{
    if tied {
        set_bit(words, meet);
    } else {
        clear_bit(words, meet);
    }
}

/// The first set bit of these numbers.
fn first_in(words: &[u64], from: usize, end: usize) -> Option<usize>
    ensures { MatchOption result (AreClear words.now from end) (λ n. IsFirst words.now from n × (n < end)) }
{
    for n in from..end {
        if is_set(words, n) {
            return Some(n);
        }
    }
    None
}

/// The first set bit from a number on. It looks at no more bits than those of two words, and at
/// each word between these once.
pub(crate) fn first_set(words: &[u64], from: usize) -> Option<usize>
    requires few { length words.now < 2 ^ 32 }
    requires from { from < 2 ^ 32 }
    ensures { MatchOption result ((m : ℕ) → from ≤ m → is_set words.now m ≡ false) (λ n. IsFirst words.now from n) }
{
    let first = from / 64;
    if first >= words.len() {
        return None;
    }
    if let Some(found) = first_in(words, from, 64 * first + 64) {
        return Some(found);
    }
    for word in first + 1..words.len() {
        if words[word] != 0 {
            if let Some(found) = first_in(words, 64 * word, 64 * word + 64) {
                return Some(found);
            }
        }
    }
    None
}
