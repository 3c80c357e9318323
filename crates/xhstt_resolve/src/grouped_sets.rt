//! The members of a group, with their set where they are many.

ghost use Rattle.std.specs.Prelude.{◌≡◌, IfOk, OnOk};
ghost use Rattle.std.specs.List.{fold};
ghost use Rattle.xhstt_resolve.specs.GroupedSets.{IsSetOf};
ghost use Rattle.xhstt_resolve.specs.Members.{set_of};

use crate::collecting::Collect;
use khe_base::{IdSet, NoMemory, Seq};
use std::alloc::Global;
use std::marker::Model;

/// The numbers of the members of a group, ascending. Contracts see the list of them.
///
/// Where they are many their set is kept too, so that a set of them, however often it is wanted, takes time in
/// proportion to a 64th of its size. All sets that are kept take at most eight bytes for each member of a group.
#[derive(Drop)]
pub(crate) struct Members {
    numbers: Seq<u32>,
    set: Option<IdSet>,
}

impl Model for Members {
    ghost use Rattle.std.specs.Prelude.{List, ℕ};
    ghost use Rattle.xhstt_resolve.specs.GroupedSets.{IsSetOf};

    ghost Value = { List ℕ };

    ghost view = { λ m. m.numbers };

    ghost invariant = { λ m. IsSetOf m.set m.numbers };
}

impl Members {
    /// These members, of a group of `size` items. It takes time in proportion to them.
    pub fn new(alloc: Global, size: u32, numbers: Seq<u32>) -> Result<Members, NoMemory>
        ensures { IfOk result (λ m. m ≡ numbers) }
    {
        let set = kept_set(alloc, size, numbers.as_slice())?;
        Ok(Members { numbers, set })
    }

    /// The numbers.
    pub fn as_slice(&self) -> &[u32]
        ensures { result.now ≡ self.now }
    {
        self.numbers.as_slice()
    }

    /// The set of them, of a given size. It takes time and memory in proportion to a 64th of the size.
    pub fn set(&self, alloc: Global, size: u32) -> Result<IdSet, NoMemory>
        ensures { IfOk result (λ s. s ≡ set_of size self.now) }
    {
        if let Some(set) = &self.set {
            if set.size() == size {
                return set.copy(alloc);
            }
        }
        new_set(alloc, size, self.numbers.as_slice())
    }
}

/// The set of the numbers of a group of `size` items, where a word of 64 items has one of them on average.
fn kept_set(alloc: Global, size: u32, numbers: &[u32]) -> Result<Option<IdSet>, NoMemory>
    ensures { IfOk result (λ o. IsSetOf o numbers.now) }
{
    if numbers.len() < size as usize / 64 {
        return Ok(None);
    }
    Ok(Some(new_set(alloc, size, numbers)?))
}

/// The set of some numbers, of a given size.
fn new_set(alloc: Global, size: u32, numbers: &[u32]) -> Result<IdSet, NoMemory>
    ensures { IfOk result (λ s. s ≡ set_of size numbers.now) }
{
    let mut set = IdSet::new(alloc, size)?;
    add_all(numbers, &mut set)?;
    Ok(set)
}

/// Collects some numbers.
pub(crate) fn add_all<C: Collect>(numbers: &[u32], into: &mut C) -> Result<(), NoMemory>
    ensures { OnOk result (into.new ≡ fold C.added into.old numbers.now) }
{
    for number in numbers {
        into.add(*number)?;
    }
    Ok(())
}
