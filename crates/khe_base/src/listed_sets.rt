//! Sets of numbers below a size that stay as they are, as lists of their members.

ghost use Rattle.std.specs.Prelude.{◌≡◌, ◌≤◌, false, length, IfOk};
ghost use Rattle.khe_base.specs.IdSet.{has_member, members_of};
ghost use Rattle.khe_base.specs.ListedSets.{IsKept};

use crate::{IdSet, NoMemory, Seq};
use std::alloc::Global;
use std::marker::Model;

/// A set of numbers below a size that stays as it is. Contracts see what they see of an `IdSet`: a list
/// with one entry for each number below the size, true where it is a member.
///
/// It keeps the list of its members, and their bits as well where at least one number in 64 is a member. So it
/// takes memory in proportion to its members, and none where it is empty, whatever its size.
#[derive(Drop)]
pub struct ListedSet {
    members: Seq<u32>,
    bits: Option<Box<IdSet>>,
    size: u32,
}

impl Model for ListedSet {
    ghost use Rattle.std.specs.Prelude.{List, Bool};
    ghost use Rattle.khe_base.specs.ListedSets.{set_of_members, IsListed};

    ghost Value = { List Bool };

    ghost view = { λ s. set_of_members s.members s.size };

    ghost invariant = { λ s. IsListed s.members s.bits s.size };
}

impl ListedSet {
    /// The set with the same members. It takes time in proportion to the members and to a 64th of the
    /// size, and memory in proportion to the members.
    pub fn new(alloc: Global, set: IdSet) -> Result<ListedSet, NoMemory>
        ensures { IfOk result (λ s. s ≡ set) }
    {
        let members = set.members(alloc)?;
        let size = set.size();
        let bits = kept(alloc, set)?;
        Ok(ListedSet {
            members,
            bits,
            size,
        })
    }

    /// Whether a number is a member: no number of the size or more is. It takes constant time where at least
    /// one number in 64 is a member, and otherwise time in proportion to the logarithm of the number of
    /// members.
    pub fn has(&self, n: u32) -> bool
        ensures below { result ≡ has_member self.now n }
        ensures beyond { length self.now ≤ n → result ≡ false }
    {
        match &self.bits {
            Some(bits) => bits.has(n),
            None => self.members.as_slice().binary_search(&n).is_ok(),
        }
    }

    /// The size: members are below it. It takes constant time.
    pub fn size(&self) -> u32
        ensures { result ≡ length self.now }
    {
        self.size
    }

    /// The members, ascending. It takes constant time.
    pub fn members(&self) -> &[u32]
        ensures { result.now ≡ members_of self.now }
    {
        self.members.as_slice()
    }
}

// The set itself where a word of 64 numbers has a member on average, and else none.
fn kept(alloc: Global, set: IdSet) -> Result<Option<Box<IdSet>>, NoMemory>
    ensures { IfOk result (λ kept. IsKept kept set) }
{
    let count = set.len();
    if count == 0 || count < set.size() / 64 {
        return Ok(None);
    }
    Ok(Some(Box::new(alloc, set)?))
}
