//! The noting of a list of changes, forwards as they are and backwards as their inverses.

ghost use Rattle.std.specs.Prelude.{◌≡◌, ◌≤◌, ◌+◌, ◌++◌, true, map, vec_capacity};
ghost use Rattle.std.specs.Option.{option_map};
ghost use Rattle.khe_told.specs.Fits.{AllFit};
ghost use Rattle.khe_told.specs.Changes.{after_all, inverse, inverses};
ghost use Rattle.khe_told.specs.Watchers.{watcher_counts};

use crate::slots::Slots;
use khe_instance::Instance;
use khe_told::{Change, Steps, Watcher};
use std::sync::ledger::Ledger;

/// Notes a list of changes, each of which fits after those before it: the slots of each, and then the
/// watcher of all of them.
pub(crate) fn note_all<V: Watcher, L: Ledger>(
    inst: &Instance,
    list: &[Change],
    slots: &mut Slots,
    watcher: &mut V,
    steps: &mut Steps<L>,
)
    requires of { V.IsOf watcher.old inst.now }
    requires same { V.told watcher.old ≡ slots.old }
    requires fits { AllFit inst.now slots.old list.now }
    ensures of { V.IsOf watcher.new inst.now }
    ensures same { V.told watcher.new ≡ slots.new }
    ensures told { slots.new ≡ after_all slots.old list.now }
    ensures noted { V.noted watcher.new ≡ option_map (λ cs. cs ++ list.now) (V.noted watcher.old) }
    ensures rest { V.HasSameRest watcher.old watcher.new }
    ensures steps { steps.new + V.owed watcher.new inst.now ≤ steps.old + V.owed watcher.old inst.now + watcher_counts inst.now slots.old list.now }
    ensures silent { V.is_silent ≡ true → steps.new ≡ steps.old }
{
    for change in list {
        slots.note(inst, *change);
    }
    watcher.note_all(inst, list, steps);
}

/// Puts the inverse of each change in its place.
fn invert_each(list: &mut Vec<Change>)
    ensures items { list.new.items ≡ map inverse list.old.items }
    ensures room { vec_capacity list.old ≤ vec_capacity list.new }
{
    for k in 0..list.len() {
        list[k] = list[k].inverse();
    }
}

/// Puts the inverses of changes in their place, the last one first, so that they lead back. It takes time in
/// proportion to them, and no memory.
#[tactic(auto, using(crate::proofs::NoteLaws::inverses_reversed))]
pub fn invert(list: &mut Vec<Change>)
    ensures items { list.new.items ≡ inverses list.old.items }
    ensures room { vec_capacity list.old ≤ vec_capacity list.new }
{
    list.reverse();
    invert_each(list);
}

/// Notes the inverses of a list of changes, the last one first, and leaves them in the list.
pub(crate) fn note_back<V: Watcher, L: Ledger>(
    inst: &Instance,
    list: &mut Vec<Change>,
    slots: &mut Slots,
    watcher: &mut V,
    steps: &mut Steps<L>,
)
    requires of { V.IsOf watcher.old inst.now }
    requires same { V.told watcher.old ≡ slots.old }
    requires fits { AllFit inst.now slots.old (inverses list.old.items) }
    ensures of { V.IsOf watcher.new inst.now }
    ensures same { V.told watcher.new ≡ slots.new }
    ensures told { slots.new ≡ after_all slots.old (inverses list.old.items) }
    ensures noted { V.noted watcher.new ≡ option_map (λ cs. cs ++ inverses list.old.items) (V.noted watcher.old) }
    ensures rest { V.HasSameRest watcher.old watcher.new }
    ensures steps { steps.new + V.owed watcher.new inst.now ≤ steps.old + V.owed watcher.old inst.now + watcher_counts inst.now slots.old (inverses list.old.items) }
    ensures silent { V.is_silent ≡ true → steps.new ≡ steps.old }
    ensures room { vec_capacity list.old ≤ vec_capacity list.new }
{
    invert(list);
    note_all(inst, list.as_slice(), slots, watcher, steps);
}
