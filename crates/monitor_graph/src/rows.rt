//! Rows of bits with a summary, a bit for each word, so that the next set bit is found without a
//! walk over all words. The summary has the bit of each word that is not 0.

ghost use Rattle.std.specs.Prelude.{◌≡◌, ◌<◌, ◌≤◌, ◌*◌, ◌+◌, ◌/◌, ◌^◌, ℕ, false, length, nat_eq, if◌then◌else◌, MatchOption};
ghost use Rattle.khe_base.specs.Bits.{is_set};
ghost use Rattle.monitor_graph.specs.Rows.{AreSummed, IsFirst, AreClear};

use khe_base::bits::{clear_bit, is_set, set_bit};

/// Sets or clears the bit of a number, in constant time.
#[tactic(auto, using(crate::proofs::RowLaws::summed_set, crate::proofs::RowLaws::summed_clear, crate::proofs::RowLaws::summed_zero))]
pub(crate) fn put(words: &mut Vec<u64>, summary: &mut Vec<u64>, n: usize, is_in: bool)
    requires summed { AreSummed words.old.items summary.old.items }
    requires there { n / 64 < length words.old.items }
    requires room { n / 64 / 64 < length summary.old.items }
    ensures length { length words.new.items ≡ length words.old.items }
    ensures summary { length summary.new.items ≡ length summary.old.items }
    ensures bits { (m : ℕ) → is_set words.new.items m ≡ (if nat_eq m n then is_in else is_set words.old.items m) }
    ensures summed { AreSummed words.new.items summary.new.items }
{
    if is_in {
        set_bit(words, n);
        set_bit(summary, n / 64);
        return;
    }
    clear_bit(words, n);
    if words[n / 64] == 0 {
        clear_bit(summary, n / 64);
    }
}

/// The first set bit from a number on. It looks at the number's word, at the summary up to the
/// next word that has a bit, and at that word.
pub(crate) fn first_set(words: &[u64], summary: &[u64], from: usize) -> Option<usize>
    requires summed { AreSummed words.now summary.now }
    requires few { (length words.now < 2 ^ 32) × (length summary.now < 2 ^ 32) }
    ensures { MatchOption result ((m : ℕ) → from ≤ m → is_set words.now m ≡ false) (λ r. IsFirst words.now from r) }
{
    if from / 64 >= words.len() {
        return None;
    }
    if let Some(found) = first_in(words, from, 64 * (from / 64) + 64) {
        return Some(found);
    }
    let mut next = from / 64 + 1;
    while next < words.len() {
        let Some(word) = first_word(summary, next) else {
            return None;
        };
        if word >= words.len() {
            return None;
        }
        if let Some(found) = first_in(words, 64 * word, 64 * word + 64) {
            return Some(found);
        }
        next = word + 1;
    }
    None
}

/// The first word from a number on that has its bit in the summary.
fn first_word(summary: &[u64], from: usize) -> Option<usize>
    requires { length summary.now < 2 ^ 32 }
    ensures { MatchOption result ((m : ℕ) → from ≤ m → is_set summary.now m ≡ false) (λ r. IsFirst summary.now from r) }
{
    let first = from / 64;
    if first >= summary.len() {
        return None;
    }
    if let Some(found) = first_in(summary, from, 64 * first + 64) {
        return Some(found);
    }
    for word in first + 1..summary.len() {
        if summary[word] != 0 {
            if let Some(found) = first_in(summary, 64 * word, 64 * word + 64) {
                return Some(found);
            }
        }
    }
    None
}

/// The first set bit of these numbers.
fn first_in(words: &[u64], from: usize, to: usize) -> Option<usize>
    ensures { MatchOption result (AreClear words.now from to) (λ r. IsFirst words.now from r × (r < to)) }
{
    for n in from..to {
        if is_set(words, n) {
            return Some(n);
        }
    }
    None
}
