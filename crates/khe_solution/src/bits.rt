//! A row of bits, one for each slot: which slots are free.

ghost use Rattle.std.specs.Prelude.{◌≡◌, ◌<◌, ◌≤◌, ◌*◌, ◌+◌, ◌/◌, ◌^◌, ℕ, false, length, nat_eq, if◌then◌else◌, IfOk, MatchOption};
ghost use Rattle.khe_base.specs.Bits.{is_set};
ghost use Rattle.khe_told.specs.Changes.{meet_of};
ghost use Rattle.khe_solution.specs.FreeBits.{AreFree, AreClear, IsFirst, frees};

use khe_base::bits::{clear_bit, is_set, no_bits, set_bit};
use khe_base::{MeetId, NoMemory};
use khe_told::{Change, Told};
use std::alloc::Global;

/// The bits of a told state.
pub(crate) fn free_bits(alloc: Global, told: &Told) -> Result<Vec<u64>, NoMemory>
    requires { length told.now < 2 ^ 32 }
    ensures { IfOk result (λ words. AreFree told.now words.items) }
{
    let mut words = no_bits(alloc, told.len() / 64 + 1)?;
    set_free(&mut words, told);
    Ok(words)
}

/// Sets the bit of each free slot.
#[tactic(auto, using(crate::proofs::FreeLaws::all_set))]
fn set_free(words: &mut Vec<u64>, told: &Told)
    requires few { length told.now < 2 ^ 32 }
    requires words { length words.old.items < 2 ^ 32 }
    requires room { length told.now ≤ 64 * length words.old.items }
    requires clear { (m : ℕ) → is_set words.old.items m ≡ false }
    ensures { AreFree told.now words.new.items }
{
    for slot in 0..told.len() {
        if told.span(MeetId(slot as u32)).is_none() {
            set_bit(words, slot);
        }
    }
}

/// Keeps the bits after a change.
pub(crate) fn keep_free(words: &mut Vec<u64>, change: Change)
    requires { meet_of change / 64 < length words.old.items }
    ensures length { length words.new.items ≡ length words.old.items }
    ensures bits { (m : ℕ) → is_set words.new.items m ≡ (if nat_eq m (meet_of change) then frees change (is_set words.old.items m) else is_set words.old.items m) }
{
    match change {
        Change::Add { meet, .. } => clear_bit(words, meet.0 as usize),
        Change::Drop { meet, .. } => set_bit(words, meet.0 as usize),
        _ => {}
    }
}

/// The first set bit of these numbers.
pub(crate) fn first_in(words: &[u64], from: usize, end: usize) -> Option<usize>
    ensures { MatchOption result (AreClear words.now from end) (λ n. IsFirst words.now from n × (n < end)) }
{
    for n in from..end {
        if is_set(words, n) {
            return Some(n);
        }
    }
    None
}

/// The first set bit from a number on. It looks at no more bits than those of two words, and at
/// each word between these once.
pub(crate) fn first_set(words: &[u64], from: usize) -> Option<usize>
    requires few { length words.now < 2 ^ 32 }
    requires from { from < 2 ^ 32 }
    ensures { MatchOption result ((m : ℕ) → from ≤ m → is_set words.now m ≡ false) (λ n. IsFirst words.now from n) }
{
    let first = from / 64;
    if first >= words.len() {
        return None;
    }
    if let Some(found) = first_in(words, from, 64 * first + 64) {
        return Some(found);
    }
    for word in first + 1..words.len() {
        if words[word] != 0 {
            if let Some(found) = first_in(words, 64 * word, 64 * word + 64) {
                return Some(found);
            }
        }
    }
    None
}
