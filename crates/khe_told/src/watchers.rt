//! The trait of what is notified of each change of a timetable.

ghost use Rattle.std.specs.Prelude.{ℕ, ◌≡◌, ◌≤◌, ◌+◌, ◌++◌, ◌∷◌, [], Bool, true, List, Option};
ghost use Rattle.std.specs.Option.{option_map};
ghost use Rattle.khe_instance.specs.declared.parts.Parts.{Parts};
ghost use Rattle.khe_told.specs.declared.slots.Slot.{Slot};
ghost use Rattle.khe_told.specs.declared.changes.Change.{Change};
ghost use Rattle.khe_told.specs.Changes.{after, after_all};
ghost use Rattle.khe_told.specs.Fits.{AllFit, Fits};
ghost use Rattle.khe_told.specs.Watchers.{watcher_count, watcher_counts};

use crate::changes::Change;
use crate::steps::Steps;
use khe_instance::Instance;
use std::sync::ledger::Ledger;

/// What is notified of each change of a timetable.
///
/// A change and then its inverse leave the told state as it was, since `note` gives `after`.
pub trait Watcher {
    /// The meets and tasks of which it was notified.
    ghost told: { Self → List Slot };

    /// It was opened on the instance with these parts.
    ghost IsOf: { Self → Parts → Type 0 };

    /// The changes that it was notified of, in order, where it keeps them.
    ghost noted: { Self → Option (List Change) };

    /// Whether it never takes a step.
    ghost is_silent: { Bool };

    /// How many steps it owes at most: the steps that it has yet to take for changes of which it was notified.
    ghost owed: { Self → Parts → ℕ } = { λ _ _. 0 };

    /// All else is the same in both.
    ghost HasSameRest: { Self → Self → Type 0 };

    /// Follows a change that fits what it was told. It takes no memory, and takes or owes at most one step
    /// more for each watcher of the change.
    fn note<L: Ledger>(&mut self, inst: &Instance, change: Change, steps: &mut Steps<L>)
        requires of { IsOf self.old inst.now }
        requires fits { Fits inst.now (told self.old) change }
        ensures of { IsOf self.new inst.now }
        ensures told { told self.new ≡ after (told self.old) change }
        ensures noted { noted self.new ≡ option_map (λ cs. cs ++ change ∷ []) (noted self.old) }
        ensures rest { HasSameRest self.old self.new }
        ensures steps { steps.new + owed self.new inst.now ≤ steps.old + owed self.old inst.now + watcher_count inst.now (told self.old) change }
        ensures silent { is_silent ≡ true → steps.new ≡ steps.old };

    /// Follows changes that fit one after the other.
    fn note_all<L: Ledger>(&mut self, inst: &Instance, changes: &[Change], steps: &mut Steps<L>)
        requires of { IsOf self.old inst.now }
        requires fit { AllFit inst.now (told self.old) changes.now }
        ensures of { IsOf self.new inst.now }
        ensures told { told self.new ≡ after_all (told self.old) changes.now }
        ensures noted { noted self.new ≡ option_map (λ cs. cs ++ changes.now) (noted self.old) }
        ensures rest { HasSameRest self.old self.new }
        ensures steps { steps.new + owed self.new inst.now ≤ steps.old + owed self.old inst.now + watcher_counts inst.now (told self.old) changes.now }
        ensures silent { is_silent ≡ true → steps.new ≡ steps.old };

    ghost same_rest_refl: { (x : Self) → HasSameRest x x };

    ghost same_rest_trans: { (x y z : Self) → HasSameRest x y → HasSameRest y z → HasSameRest x z };
}
