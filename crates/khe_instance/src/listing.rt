//! Lists of numbers, one for each key, while they are filled.

ghost use Rattle.std.specs.Prelude.{◌≡◌, ◌<◌, ◌==◌, [], length, replicate, IfOk, OnOk};
ghost use Rattle.khe_instance.specs.Listing.{IsAdded};

use khe_base::{NoMemory, Seq};
use std::alloc::Global;

/// The given number of empty lists.
pub(crate) fn no_lists(alloc: Global, count: usize) -> Result<Seq<Seq<u32>>, NoMemory>
    ensures { IfOk result (λ lists. lists ≡ replicate count []) }
{
    let mut lists = Seq::new(alloc);
    for _ in 0..count {
        lists.push(Seq::new(alloc))?;
    }
    Ok(lists)
}

/// Adds a number to one of the lists, in constant time on average.
pub(crate) fn push_at(lists: &mut Seq<Seq<u32>>, key: u32, number: u32) -> Result<(), NoMemory>
    requires { key < length lists.old }
    ensures { OnOk result (IsAdded (λ k. key == k) number lists.old lists.new) }
{
    let list = &mut lists.items[key as usize];
    list.push(number)?;
    Ok(())
}
