//! Sets that stand for entries of a table: many entries share a set until one of them is narrowed.

ghost use Rattle.std.specs.Prelude.{◌≡◌, ◌≢◌, ◌<◌, ◌&&◌, ℕ, length, IfOk, OnOk};
ghost use Rattle.khe_base.specs.IdSet.{has_member};
ghost use Rattle.hall_report.specs.Sets.{set_at, AreSets, has_both};

use khe_base::{IdSet, NoMemory, Seq};
use std::alloc::Global;

/// The set of the numbers that are in both, in time and memory in proportion to their size.
fn common(alloc: Global, one: &IdSet, other: &IdSet) -> Result<IdSet, NoMemory>
    requires { length other.now ≡ length one.now }
    ensures size { IfOk result (λ set. length set ≡ length one.now) }
    ensures members { IfOk result (λ set. (n : ℕ) → has_member set n ≡ has_both one.now other.now n) }
{
    let mut set = IdSet::new(alloc, one.size())?;
    for n in 0..one.size() {
        if one.has(n) && other.has(n) {
            set.insert(n);
        }
    }
    Ok(set)
}

/// Narrows the set of one entry to the numbers that are allowed too; those of all other entries
/// stay. The first `shared` sets are shared: an entry gets a set of its own when it is narrowed for
/// the first time. It takes time in proportion to the size of the sets.
pub(crate) fn narrow(
    alloc: Global,
    sets: &mut Seq<IdSet>,
    entries: &mut Vec<u32>,
    shared: u32,
    entry: usize,
    allowed: &IdSet,
) -> Result<(), NoMemory>
    requires entry { entry < length entries.old.items }
    requires sets { AreSets shared (length allowed.now) sets.old entries.old.items }
    ensures sets { OnOk result (AreSets shared (length allowed.now) sets.new entries.new.items) }
    ensures amount { OnOk result (length entries.new.items ≡ length entries.old.items) }
    ensures narrowed { OnOk result ((n : ℕ) → has_member (set_at sets.new entries.new.items entry) n ≡ has_both (set_at sets.old entries.old.items entry) allowed.now n) }
    ensures others { OnOk result ((other : ℕ) → other < length entries.old.items → other ≢ entry → set_at sets.new entries.new.items other ≡ set_at sets.old entries.old.items other) }
{
    let number = entries[entry];
    let set = common(alloc, &sets.as_slice()[number as usize], allowed)?;
    if number < shared {
        let own = sets.len();
        if own >= u32::MAX as usize {
            return Err(NoMemory);
        }
        sets.push(set)?;
        entries[entry] = own as u32;
    } else {
        sets.items[number as usize] = set;
    }
    Ok(())
}
