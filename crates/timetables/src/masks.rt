//! Sets of times whose busy and idle times are counted.

ghost use Rattle.std.specs.Prelude.{◌≡◌, ◌+◌, ◌-◌, ◌*◌, ◌%◌, ◌^◌, ◌<◌, ◌≤◌, ◌&&◌, ℕ, false, length, nat_lt, slice_index, count_ones, IfOk, IsSomeAnd, MatchOption};
ghost use Rattle.std.specs.Int.{w64, trailing_zeros, leading_zeros};
ghost use Rattle.khe_base.specs.Bits.{is_set, words_for};
ghost use Rattle.khe_base.specs.IdSet.{has_member};
ghost use Rattle.khe_base.specs.Busy.{count_below, is_idle_time};

use khe_base::bits::ones_below;
use khe_base::{IdSet, NoMemory};
use std::alloc::Global;
use std::marker::Model;

/// A set of times, made once, of which a timetable counts the busy and the idle times. Contracts
/// see a list with one entry for each time, true where it is a member.
///
/// It keeps one bit for each time, 64 in a word, and the range of the words that have one set.
#[derive(Drop)]
pub struct Mask {
    words: Vec<u64>,
    first: usize,
    end: usize,
    size: u32,
}

impl Model for Mask {
    ghost use Rattle.std.specs.Prelude.{List, Bool};
    ghost use Rattle.khe_base.specs.StoredSets.{set_of_bits};
    ghost use Rattle.timetables.specs.Stored.{IsWithin};

    ghost Value = { List Bool };

    ghost view = { λ m. set_of_bits m.words.items m.size };

    ghost invariant = { λ m. IsWithin m.words.items m.first m.end m.size };
}

/// The numbers of unbusy times of a set before its first busy time and before its last one.
#[derive(Clone, Copy)]
struct Span {
    before_first: u32,
    before_last: u32,
}

impl Mask {
    /// The times of a set; its size is the number of times. It takes time and memory in proportion
    /// to the words, a 64th of the size.
    pub fn new(alloc: Global, group: &IdSet) -> Result<Mask, NoMemory>
        ensures { IfOk result (λ m. m ≡ group.now) }
    {
        let words = group.words();
        Ok(Mask {
            first: first_word(words),
            end: end_word(words),
            words: Vec::from_slice(alloc, words)?,
            size: group.size(),
        })
    }

    /// The size: the number of times, members or not. It takes constant time.
    pub fn size(&self) -> u32
        ensures { result ≡ length self.now }
    {
        self.size
    }

    /// The number of members whose bit is set in a row of bits. It takes time in proportion to
    /// the words that have a member.
    pub fn common(&self, row: &[u64]) -> u32
        requires { length row.now ≡ words_for (length self.now) }
        ensures { result ≡ count_below (λ t. has_member self.now t && is_set row.now t) (length self.now) }
    {
        let mut count = 0;
        for k in self.first..self.end {
            count += (self.words[k] & row[k]).count_ones();
        }
        count
    }

    /// Whether a member's bit is set in a row of bits. It takes no more time than to count them.
    pub fn meets(&self, row: &[u64]) -> bool
        requires { length row.now ≡ words_for (length self.now) }
        ensures { result ≡ nat_lt 0 (count_below (λ t. has_member self.now t && is_set row.now t) (length self.now)) }
    {
        for k in self.first..self.end {
            let both = self.words[k] & row[k];
            if both > 0 {
                return true;
            }
        }
        false
    }

    /// The number of members whose bit isn't set in a row of bits, while that of an earlier and
    /// of a later member is. It takes time in proportion to the words that have a member.
    pub fn idle(&self, row: &[u64]) -> u32
        requires { length row.now ≡ words_for (length self.now) }
        ensures { result ≡ count_below (is_idle_time (has_member self.now) (is_set row.now) (length self.now)) (length self.now) }
    {
        let amount = self.end.saturating_sub(self.first);
        if amount == 1 {
            let word = self.words[self.first];
            let bits = row[self.first];
            return idle_in_word(word & bits, word & !bits);
        }
        let mut unbusy = 0;
        let mut span = None;
        for k in self.first..self.end {
            let busy = self.words[k] & row[k];
            let free = self.words[k] & !row[k];
            span = widened(span, unbusy, busy, free);
            unbusy += free.count_ones();
        }
        match span {
            None => 0,
            Some(span) => span.before_last - span.before_first,
        }
    }
}

// The number of the first word that has a bit set, or how many words there are where none has. It
// takes time in proportion to the words before it.
fn first_word(words: &[u64]) -> usize
    ensures within { result ≤ length words.now }
    ensures before { (t : ℕ) → t < 64 * result → is_set words.now t ≡ false }
    ensures first { result < length words.now → 0 < slice_index words.now result }
{
    words
        .iter()
        .position(|&word| word != 0)
        .unwrap_or(words.len())
}

// The number after that of the last word that has a bit set, or 0 where none has. It takes time in
// proportion to the words.
fn end_word(words: &[u64]) -> usize
    ensures within { result ≤ length words.now }
    ensures after { (t : ℕ) → 64 * result ≤ t → is_set words.now t ≡ false }
    ensures last { 0 < result → 0 < slice_index words.now (result - 1) }
{
    words
        .iter()
        .rposition(|&word| word != 0)
        .map_or(0, |last| last + 1)
}

// The span with the busy and the unbusy times of one more word. The first busy time of a word is
// its lowest bit, and the last one its highest.
fn widened(span: Option<Span>, unbusy: u32, busy: u64, free: u64) -> Option<Span>
    requires { unbusy + count_ones free < 2 ^ 32 }
    ensures unbusy { busy ≡ 0 → result ≡ span }
    ensures first { 0 < busy → MatchOption span (IsSomeAnd result (λ s. s.before_first ≡ unbusy + count_ones (free % 2 ^ trailing_zeros w64 busy))) (λ old. IsSomeAnd result (λ s. s.before_first ≡ old.before_first)) }
    ensures last { 0 < busy → IsSomeAnd result (λ s. s.before_last ≡ unbusy + count_ones (free % 2 ^ (63 - leading_zeros w64 busy))) }
{
    if busy == 0 {
        return span;
    }
    let before_last = unbusy + ones_below(free, 63 - busy.leading_zeros());
    let before_first = match span {
        Some(span) => span.before_first,
        None => unbusy + ones_below(free, busy.trailing_zeros()),
    };
    Some(Span {
        before_first,
        before_last,
    })
}

// The idle times of a single word: the unbusy ones from the first busy time to the last. Most sets lie in
// one word, where no unbusy times before or after these have to be counted.
fn idle_in_word(busy: u64, free: u64) -> u32
    ensures none { busy ≡ 0 → result ≡ 0 }
    ensures between { 0 < busy → count_ones (free % 2 ^ trailing_zeros w64 busy) + result ≡ count_ones (free % 2 ^ (63 - leading_zeros w64 busy)) }
{
    if busy == 0 {
        return 0;
    }
    let last = 63 - busy.leading_zeros();
    let first = busy.trailing_zeros();
    ((free & ((1 << last) - 1)) >> first).count_ones()
}
