//! Names, each once, with the number of each.

ghost use Rattle.std.specs.Prelude.{◌≡◌, [], length, true, not, OnOk, OnErr, IfOk};
ghost use Rattle.khe_base.specs.Names.{is_among_names, number_of, with_name, are_distinct};
ghost use Rattle.khe_base.specs.Text.{characters};

use crate::hashing::SeededHashing;
use indexmap::IndexSet;
use khe_base::{NoMemory, Text};
use std::alloc::Global;
use std::marker::Model;

/// Names, each once, numbered from 0 in the order in which they came. Contracts see the list of
/// the names in that order, each the list of its characters.
///
/// It keeps a copy of each name, and finds one by its hash.
#[derive(Drop)]
pub struct Names {
    names: IndexSet<String, SeededHashing>,
}

impl Model for Names {
    ghost use Rattle.std.specs.Prelude.{◌≡◌, List, ℕ, true, map, string_bytes};
    ghost use Rattle.khe_base.specs.Names.{are_distinct};
    ghost use Rattle.khe_base.specs.Text.{characters};

    ghost Value = { List (List ℕ) };

    ghost view = { λ s. map (λ k. characters (string_bytes k)) s.names.keys };

    ghost invariant = { λ s. are_distinct (map (λ k. characters (string_bytes k)) s.names.keys) ≡ true };
}

impl Names {
    /// No names, whose hashes will begin with this number. It takes no memory.
    ///
    /// Where the number is a `Seed`'s of all names that are to come, it is costly, though not impossible, to
    /// find names beforehand that take more time than others: names that share a hash under one number seldom
    /// do under another, and a name that is added nearly always changes the number.
    pub fn new(alloc: Global, seed: u64) -> Names
        ensures { result ≡ [] }
    {
        Names {
            names: IndexSet::with_hasher(alloc, SeededHashing::new(seed)),
        }
    }

    /// How many names there are. It takes constant time.
    pub fn len(&self) -> usize
        ensures len { result ≡ length self.now }
        ensures distinct { are_distinct self.now ≡ true }
    {
        self.names.len()
    }

    /// Adds a copy of a name, and answers whether it is new: a new name goes last, and else
    /// nothing changes. Where memory is refused, nothing changes.
    ///
    /// It takes the time of a copy and of a hash of the name on average, whatever the number of
    /// names.
    pub fn insert(&mut self, name: &Text) -> Result<bool, NoMemory>
        ensures new { IfOk result (λ new. new ≡ not (is_among_names name.now self.old)) }
        ensures ok { OnOk result (self.new ≡ with_name name.now self.old) }
        ensures err { OnErr result (self.new ≡ self.old) }
    {
        let name = name.items.clone()?;
        Ok(self.names.insert(name)?)
    }

    /// The number of a name, or `None` where it is not among the names.
    ///
    /// It takes the time of a hash of the name on average, whatever the number of names, and no
    /// memory.
    pub fn number(&self, name: &Text) -> Option<usize>
        ensures { result ≡ number_of name.now self.now }
    {
        self.number_spelled(name.spelling())
    }

    /// The number of the name that these bytes spell, or `None` where it is not among the names: for a
    /// name that is kept elsewhere, and no text by itself.
    ///
    /// It takes the time of a hash of the name on average, whatever the number of names, and no
    /// memory.
    pub fn number_spelled(&self, name: &str) -> Option<usize>
        ensures { result ≡ number_of (characters name.now) self.now }
    {
        self.names.get_index_of(name)
    }
}
