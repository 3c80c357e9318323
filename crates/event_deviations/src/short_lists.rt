//! Lists of which most have one item.

ghost use Rattle.std.specs.Prelude.{◌≡◌, ◌++◌, ◌∷◌, [], IfOk, OnOk};
ghost use Rattle.std.specs.Mem.{FitsInMemory};
ghost use Rattle.event_deviations.specs.ShortLists.{items_in};

use khe_base::NoMemory;
use std::alloc::Global;
use std::marker::Model;
use std::slice;

/// A list that holds one item in itself: only a longer one takes memory. Most events have one meet,
/// and most places one duty. Contracts see the list of the items.
#[derive(Drop)]
pub(crate) struct ShortList<T> {
    kept: Kept<T>,
}

/// The items of a short list.
#[derive(Drop)]
enum Kept<T> {
    Nothing,
    One(T),
    More(Vec<T>),
}

impl<T> Model for ShortList<T> {
    ghost use Rattle.std.specs.Prelude.{List};
    ghost use Rattle.event_deviations.specs.ShortLists.{items_in};

    ghost Value = { List T };

    ghost view = { λ s. items_in s.kept };
}

impl<T: Copy> ShortList<T> {
    /// The empty list. It takes no memory.
    pub(crate) fn new() -> ShortList<T>
        ensures { result ≡ [] }
    {
        ShortList {
            kept: Kept::Nothing,
        }
    }

    /// Its items, in order. It takes constant time.
    pub(crate) fn as_slice(&self) -> &[T]
        requires { FitsInMemory T.row }
        ensures { result.now ≡ self.now }
    {
        match &self.kept {
            Kept::Nothing => &[],
            Kept::One(item) => slice::from_ref(item),
            Kept::More(list) => list.as_slice(),
        }
    }

    /// Adds an item at the end, in constant time on average.
    pub(crate) fn push(&mut self, alloc: Global, item: T) -> Result<(), NoMemory>
        ensures { OnOk result (self.new ≡ self.old ++ item ∷ []) }
    {
        match &mut self.kept {
            Kept::Nothing => self.kept = Kept::One(item),
            Kept::One(first) => self.kept = Kept::More(pair(alloc, *first, item)?),
            Kept::More(list) => list.push(item)?,
        }
        Ok(())
    }
}

/// A list of two items.
fn pair<T: Copy>(alloc: Global, first: T, second: T) -> Result<Vec<T>, NoMemory>
    ensures { IfOk result (λ list. list.items ≡ first ∷ second ∷ []) }
{
    let mut list = Vec::with_capacity(alloc, 2)?;
    list.push(first)?;
    list.push(second)?;
    Ok(list)
}
