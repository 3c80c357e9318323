//! The sets of resources and times that domains are made of.

ghost use Rattle.std.specs.Prelude.{◌≡◌, ◌+◌, ◌*◌, ◌^◌, ◌<◌, ◌≤◌, ℕ, length, slice_index, IfOk};
ghost use Rattle.khe_base.specs.Bits.{has_bit};
ghost use Rattle.demand_matching.specs.Domains.{IsGiven, is_picked};
ghost use Rattle.demand_matching.specs.Members.{picked, first_word, end_word};

use crate::Pick;
use khe_base::{IdSet, NoMemory, Seq};
use std::alloc::Global;
use std::marker::Model;

/// The sets that were given, with the members of each in a list. Contracts see the sets.
#[derive(Drop)]
pub(crate) struct Sets {
    given: Seq<IdSet>,
    members: Seq<Seq<u32>>,
}

impl Model for Sets {
    ghost use Rattle.std.specs.Prelude.{◌≡◌, List, Bool, map};
    ghost use Rattle.khe_base.specs.IdSet.{members_of};

    ghost Value = { List (List Bool) };

    ghost view = { λ s. s.given };

    ghost invariant = { λ s. s.members ≡ map members_of s.given };
}

impl Sets {
    /// Lists the members of each set. It takes memory in proportion to the number of sets and that
    /// of their members, and time in proportion to these and to a 64th of the sizes.
    pub(crate) fn new(alloc: Global, given: Seq<IdSet>) -> Result<Sets, NoMemory>
        ensures { IfOk result (λ sets. sets ≡ given) }
    {
        let mut members = Seq::new(alloc);
        for set in given.as_slice() {
            members.push(set.members(alloc)?)?;
        }
        Ok(Sets { given, members })
    }

    /// How many numbers the pick has.
    pub(crate) fn count(&self, pick: Pick) -> usize
        requires { IsGiven self.now pick }
        ensures { result ≡ length (picked self.now pick) }
    {
        match pick {
            Pick::One(_) => 1,
            Pick::Set(k) => self.members.as_slice()[k as usize].len(),
        }
    }

    /// One number of the pick, of which the first has the index 0.
    pub(crate) fn number(&self, pick: Pick, i: usize) -> u32
        requires given { IsGiven self.now pick }
        requires index { i < length (picked self.now pick) }
        ensures { result ≡ slice_index (picked self.now pick) i }
    {
        match pick {
            Pick::One(n) => n,
            Pick::Set(k) => self.members.as_slice()[k as usize].as_slice()[i],
        }
    }

    /// Whether the number is in the pick.
    pub(crate) fn has(&self, pick: Pick, number: u32) -> bool
        requires { IsGiven self.now pick }
        ensures { result ≡ is_picked self.now pick number }
    {
        match pick {
            Pick::One(n) => n == number,
            Pick::Set(k) => self.given.as_slice()[k as usize].has(number),
        }
    }

    /// The words of 64 numbers that have all of the pick: the first one, and the one after the
    /// last.
    pub(crate) fn span(&self, pick: Pick) -> (usize, usize)
        requires { IsGiven self.now pick }
        ensures first { result.0 ≡ first_word pick }
        ensures end { result.1 ≡ end_word self.now pick }
        ensures small { result.1 ≤ 2 ^ 26 }
    {
        match pick {
            Pick::One(n) => (n as usize / 64, n as usize / 64 + 1),
            Pick::Set(k) => {
                let size = self.given.as_slice()[k as usize].size();
                (0, (size as usize + 63) / 64)
            }
        }
    }

    /// The bits of a word of 64 numbers that are in the pick.
    pub(crate) fn word(&self, pick: Pick, k: usize) -> u64
        requires given { IsGiven self.now pick }
        requires first { first_word pick ≤ k }
        requires end { k < end_word self.now pick }
        ensures { (i : ℕ) → i < 64 → has_bit result i ≡ is_picked self.now pick (64 * k + i) }
    {
        match pick {
            Pick::One(n) => 1 << (n % 64),
            Pick::Set(set) => self.given.as_slice()[set as usize].words()[k],
        }
    }
}
