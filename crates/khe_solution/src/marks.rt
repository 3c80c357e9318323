//! Rows of bits with marks, a bit for each word, so that the next set bit is found without a walk
//! over all words. The words that are not 0 are marked.

ghost use Rattle.std.specs.Prelude.{◌≡◌, ◌<◌, ◌≤◌, ◌*◌, ◌/◌, ◌^◌, ℕ, length, nat_eq, nat_lt, if◌then◌else◌, MatchOption};
ghost use Rattle.khe_base.specs.Bits.{is_set};
ghost use Rattle.khe_solution.specs.FreeBits.{AreClear, IsFirst};
ghost use Rattle.khe_solution.specs.Marks.{AreMarked};

use crate::bits::first_in;
use khe_base::bits::{clear_bit, set_bit};

/// Sets or clears the bit of a number, in constant time.
#[tactic(auto, using(crate::proofs::MarkLaws::marked_set, crate::proofs::MarkLaws::marked_clear, crate::proofs::MarkLaws::marked_zero))]
pub(crate) fn put_bit(words: &mut Vec<u64>, marks: &mut Vec<u64>, n: usize, is_in: bool)
    requires marked { AreMarked words.old.items marks.old.items }
    requires there { n / 64 < length words.old.items }
    requires room { n / 64 / 64 < length marks.old.items }
    ensures length { length words.new.items ≡ length words.old.items }
    ensures marks { length marks.new.items ≡ length marks.old.items }
    ensures bits { (m : ℕ) → is_set words.new.items m ≡ (if nat_eq m n then is_in else is_set words.old.items m) }
    ensures marked { AreMarked words.new.items marks.new.items }
{
    if is_in {
        set_bit(words, n);
        set_bit(marks, n / 64);
        return;
    }
    clear_bit(words, n);
    if words[n / 64] == 0 {
        clear_bit(marks, n / 64);
    }
}

/// The first set bit of these numbers. It looks at each word between them once, and at the bits of
/// words that are not 0.
fn first_within(words: &[u64], from: usize, end: usize) -> Option<usize>
    requires few { (length words.now < 2 ^ 32) × (end < 2 ^ 32) }
    ensures { MatchOption result (AreClear words.now from end) (λ n. IsFirst words.now from n × (n < end)) }
{
    if from >= end {
        return None;
    }
    if let Some(found) = first_in(words, from, least(end, 64 * (from / 64) + 64)) {
        return Some(found);
    }
    for word in from / 64 + 1..end / 64 + 1 {
        if word < words.len() && words[word] != 0 {
            if let Some(found) = first_in(words, 64 * word, least(end, 64 * word + 64)) {
                return Some(found);
            }
        }
    }
    None
}

/// The smaller of two numbers.
pub(crate) fn least(a: usize, b: usize) -> usize
    ensures { result ≡ (if nat_lt a b then a else b) }
{
    if a < b { a } else { b }
}

/// The first set bit from a number on in the words below one. It looks at the number's word, at the
/// marks up to the next word that has a bit, and at that word.
pub(crate) fn first_marked(words: &[u64], marks: &[u64], from: usize, end: usize) -> Option<usize>
    requires marked { AreMarked words.now marks.now }
    requires few { (length marks.now < 2 ^ 32) × (end < 2 ^ 32) }
    ensures { MatchOption result (AreClear words.now from (64 * end)) (λ n. IsFirst words.now from n × (n < 64 * end)) }
{
    if from / 64 >= end {
        return None;
    }
    if let Some(found) = first_in(words, from, 64 * (from / 64) + 64) {
        return Some(found);
    }
    let mut next = from / 64 + 1;
    while next < end {
        let Some(word) = first_within(marks, next, end) else {
            return None;
        };
        if let Some(found) = first_in(words, 64 * word, 64 * word + 64) {
            return Some(found);
        }
        next = word + 1;
    }
    None
}
