//! Sets of numbers below a size, as bits.

ghost use Rattle.std.specs.Prelude.{◌≡◌, ◌==◌, ◌++◌, ◌+◌, ◌*◌, ◌<◌, ◌≤◌, ◌^◌, ℕ, false, length, map, IfOk, OnOk};
ghost use Rattle.khe_base.specs.Bits.{is_set, words_for};
ghost use Rattle.khe_base.specs.IdSet.{no_members, has_member, with_member, members_of, member_count};
ghost use Rattle.khe_base.specs.StoredSets.{members_in, members_below};

use crate::bits::{has_bit, is_set, no_bits, set_bit};
use crate::{NoMemory, Seq};
use std::alloc::Global;
use std::marker::Model;

/// A set of numbers below a size that is given when it is made. Contracts see a list with one
/// entry for each number below the size, true where it is a member.
///
/// It keeps one bit for each number, 64 in a word.
#[derive(Debug, Drop)]
pub struct IdSet {
    words: Vec<u64>,
    size: u32,
    count: u32,
}

impl Model for IdSet {
    ghost use Rattle.std.specs.Prelude.{List, Bool};
    ghost use Rattle.khe_base.specs.StoredSets.{set_of_bits, IsStored};

    ghost Value = { List Bool };

    ghost view = { λ s. set_of_bits s.words.items s.size };

    ghost invariant = { λ s. IsStored s.words.items s.size s.count };
}

impl IdSet {
    /// The set of no numbers, of the given size. It takes time and memory for one bit for each
    /// number of the size, and no other call on the set itself takes any memory.
    pub fn new(alloc: Global, size: u32) -> Result<IdSet, NoMemory>
        ensures { IfOk result (λ s. s ≡ no_members size) }
    {
        Ok(IdSet {
            words: no_bits(alloc, (size as usize).div_ceil(64))?,
            size,
            count: 0,
        })
    }

    /// A copy of this set. It takes time and memory for one bit for each number of the size.
    pub fn copy(&self, alloc: Global) -> Result<IdSet, NoMemory>
        ensures { IfOk result (λ s. s ≡ self.now) }
    {
        Ok(IdSet {
            words: self.words.as_slice().to_vec(alloc)?,
            size: self.size,
            count: self.count,
        })
    }

    /// Makes a number below the size a member; every other number stays as it was. It takes
    /// constant time.
    pub fn insert(&mut self, n: u32)
        requires { n < length self.old }
        ensures { self.new ≡ with_member self.old n }
    {
        let place = n as usize;
        if !is_set(self.words.as_slice(), place) {
            set_bit(&mut self.words, place);
            self.count += 1;
        }
    }

    /// Whether a number is a member: no number of the size or more is. It takes constant time.
    pub fn has(&self, n: u32) -> bool
        ensures below { result ≡ has_member self.now n }
        ensures beyond { length self.now ≤ n → result ≡ false }
    {
        is_set(self.words.as_slice(), n as usize)
    }

    /// How many numbers are members. It takes constant time.
    pub fn len(&self) -> u32
        ensures { result ≡ member_count self.now }
    {
        self.count
    }

    /// Whether no number is a member. It takes constant time.
    pub fn is_empty(&self) -> bool
        ensures { result ≡ (member_count self.now == 0) }
    {
        self.count == 0
    }

    /// The size: members are below it. It takes constant time.
    pub fn size(&self) -> u32
        ensures { result ≡ length self.now }
    {
        self.size
    }

    /// A row of bits in which exactly the members' bits are set. It takes constant time.
    pub fn words(&self) -> &[u64]
        ensures room { length result.now ≡ words_for (length self.now) }
        ensures bits { (n : ℕ) → is_set result.now n ≡ has_member self.now n }
    {
        self.words.as_slice()
    }

    /// The members, ascending. It takes memory in proportion to the members, and time in proportion
    /// to the members and to a 64th of the size.
    pub fn members(&self, alloc: Global) -> Result<Seq<u32>, NoMemory>
        ensures { IfOk result (λ members. members ≡ members_of self.now) }
    {
        listed(alloc, self.words.as_slice())
    }
}

// The numbers whose bits are set in a row of bits, ascending.
fn listed(alloc: Global, words: &[u64]) -> Result<Seq<u32>, NoMemory>
    requires { 64 * length words.now ≤ 2 ^ 32 }
    ensures { IfOk result (λ members. members ≡ members_below words.now (64 * length words.now)) }
{
    let mut members = Seq::new(alloc);
    for k in 0..words.len() {
        push_members(&mut members, words[k], (64 * k) as u32)?;
    }
    Ok(members)
}

// Adds the numbers whose bits are set in a word, of which the first number is given. It takes
// constant time, and little where no bit is set.
fn push_members(members: &mut Seq<u32>, word: u64, first: u32) -> Result<(), NoMemory>
    requires { first + 63 < 2 ^ 32 }
    ensures { OnOk result (members.new ≡ members.old ++ members_in word first 64) }
{
    if word == 0 {
        return Ok(());
    }
    for place in 0..64 {
        if has_bit(word, place) {
            members.push(first + place)?;
        }
    }
    Ok(())
}
