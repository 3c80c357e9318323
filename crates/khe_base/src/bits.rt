//! Rows of bits, 64 in each word: the bit of a number n is the bit of value 2^(n % 64) of the word
//! n / 64.

ghost use Rattle.std.specs.Prelude.{◌≡◌, ◌<◌, ◌/◌, ◌%◌, ◌^◌, ℕ, true, false, length, replicate, nat_eq, count_ones, if◌then◌else◌, IfOk};
ghost use Rattle.khe_base.specs.Bits.{has_bit, is_set};

use crate::NoMemory;
use std::alloc::Global;

/// The given number of words with no bit set, in time and memory in proportion to their number.
pub fn no_bits(alloc: Global, words: usize) -> Result<Vec<u64>, NoMemory>
    ensures { IfOk result (λ w. w.items ≡ replicate words 0) }
{
    Ok(vec![in alloc; 0; words]?)
}

/// Whether the bit of a place below 64 is set in a word. It takes constant time.
pub fn has_bit(word: u64, place: u32) -> bool
    requires { place < 64 }
    ensures { result ≡ has_bit word place }
{
    word >> place & 1 == 1
}

/// Whether the bit of a number is set in a row of words; it isn't where the row has no word for it.
/// It takes constant time.
pub fn is_set(words: &[u64], n: usize) -> bool
    ensures { result ≡ is_set words.now n }
{
    n / 64 < words.len() && has_bit(words[n / 64], (n % 64) as u32)
}

/// Sets the bit of a number in a row of words; every other bit stays as it was. It takes constant
/// time.
pub fn set_bit(words: &mut Vec<u64>, n: usize)
    requires { n / 64 < length words.old.items }
    ensures length { length words.new.items ≡ length words.old.items }
    ensures bits { (m : ℕ) → is_set words.new.items m ≡ (if nat_eq m n then true else is_set words.old.items m) }
{
    words[n / 64] |= 1 << (n % 64);
}

/// Clears the bit of a number in a row of words; every other bit stays as it was. It takes constant
/// time.
pub fn clear_bit(words: &mut Vec<u64>, n: usize)
    requires { n / 64 < length words.old.items }
    ensures length { length words.new.items ≡ length words.old.items }
    ensures bits { (m : ℕ) → is_set words.new.items m ≡ (if nat_eq m n then false else is_set words.old.items m) }
{
    words[n / 64] &= !(1 << (n % 64));
}

/// How many of the `place` lowest bits of a word are set. It takes constant time.
pub fn ones_below(word: u64, place: u32) -> u32
    requires { place < 64 }
    ensures { result ≡ count_ones (word % 2 ^ place) }
{
    (word & ((1 << place) - 1)).count_ones()
}
