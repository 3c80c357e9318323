//! What numbers are collected in: sets, counts, and lists without repeats.

ghost use Rattle.std.specs.Prelude.{◌≡◌, ℕ, ◌<◌, length, IfOk, OnOk};
ghost use Rattle.khe_base.specs.IdSet.{with_member};
ghost use Rattle.xhstt_resolve.specs.Collected.{with_mention, no_mentions};

use khe_base::{IdSet, NoMemory, Seq};
use std::alloc::Global;

/// What numbers are collected in, one after another.
pub(crate) trait Collect {
    ghost added: { Self → ℕ → Self };

    /// Takes one more number, in constant time on average.
    fn add(&mut self, number: u32) -> Result<(), NoMemory>
        ensures { OnOk result (self.new ≡ added self.old number) };
}

/// A set collects the numbers below its size.
impl Collect for IdSet {
    ghost added = { with_member };

    fn add(&mut self, number: u32) -> Result<(), NoMemory> {
        if number < self.size() {
            self.insert(number);
        }
        Ok(())
    }
}

/// Numbers below a size, each at its first mention.
#[derive(Drop)]
pub(crate) struct Mentions {
    pub seen: IdSet,
    pub numbers: Seq<u32>,
}

impl Mentions {
    /// No mention of numbers below a size. It takes time and memory in proportion to the size.
    pub fn new(alloc: Global, size: u32) -> Result<Mentions, NoMemory>
        ensures { IfOk result (λ m. m ≡ no_mentions size) }
    {
        Ok(Mentions {
            seen: IdSet::new(alloc, size)?,
            numbers: Seq::new(alloc),
        })
    }
}

impl Collect for Mentions {
    ghost added = { with_mention };

    fn add(&mut self, number: u32) -> Result<(), NoMemory> {
        if !self.seen.has(number) {
            self.numbers.push(number)?;
            self.seen.add(number)?;
        }
        Ok(())
    }
}
