//! The trait of what is edited and has marks.

ghost use Rattle.std.specs.Prelude.{ℕ, ◌≡◌, ◌↔◌, ◌<◌, ◌≤◌, ◌+◌, ◌-◌, ◌⊎◌, ◌∷◌, [], false, None, Err, List, length, IfErr, IfOk, IsOk, OnErr, OnOk};
ghost use Rattle.khe_base.specs.declared.limits.TheConstants.{MARKS};
ghost use Rattle.khe_told.specs.Watchers.{watcher_counts};
ghost use Rattle.khe_told.specs.declared.refusals.Refusal.TheVariants.{NoMark, MarksFull};
ghost use Rattle.monitor_graph.specs.Edits.{adds_child};
ghost use Rattle.khe_engine.specs.States.{refusal, edited, made, changes};
ghost use Rattle.khe_engine.specs.Worlds.{Saved, World, IsFaultOf, around, closed, fresh, from_mark, grown, kept, last_cost, last_saved, trails_cost};

use crate::engine::Engine;
use crate::faults::EditFault;
use khe_told::{Edit, Family, Refusal, Steps};
use std::sync::ledger::Ledger;

/// What is edited and has marks: an engine, or one that is put off. Each call says of its world what the
/// engine's call of that name says, and fails where that one fails. Steps that an engine takes at once may be
/// owed here: the steps taken and the steps owed together grow by no more than an engine's.
pub trait Edited {
    /// What it stands for.
    ghost world: { Self → World };

    /// How many steps it owes at most for changes that it has not measured yet.
    ghost owed: { Self → ℕ };

    /// Makes an edit, as an engine does.
    fn edit<L: Ledger>(
        &mut self,
        edit: Edit,
        steps: &mut Steps<L>,
    ) -> Result<Option<u32>, EditFault>
        ensures parts { (world self.new).parts ≡ (world self.old).parts }
        ensures accepted { OnOk result (refusal (world self.old).parts (world self.old).state edit ≡ None) }
        ensures fault { IfErr result (IsFaultOf (refusal (world self.old).parts (world self.old).state edit)) }
        ensures made { IfOk result (λ n. n ≡ made (world self.old).state edit) }
        ensures state { OnOk result ((world self.new).state ≡ edited (world self.old).state edit) }
        ensures saved { OnOk result ((world self.new).saved ≡ grown (changes (world self.old).state edit) (world self.old).saved) }
        ensures err { OnErr result (((world self.new).state ≡ (world self.old).state) × ((world self.new).saved ≡ (world self.old).saved)) }
        ensures no_steps { OnErr result ((steps.new ≡ steps.old) × (owed self.new ≡ owed self.old)) }
        ensures steps { OnOk result (steps.new + owed self.new ≤ steps.old + owed self.old + watcher_counts (world self.old).parts (world self.old).state.slots (changes (world self.old).state edit)) }
        ensures marked { (world self.new).marked ≡ (world self.old).marked }
        ensures spare { (world self.old).spare + kept (world self.old).saved ≤ (world self.new).spare + kept (world self.new).saved }
        ensures room { refusal (world self.old).parts (world self.old).state edit ≡ None → adds_child edit ≡ false → 1 ≤ (world self.old).spare → IsOk result }
        ensures unmarked { refusal (world self.old).parts (world self.old).state edit ≡ None → adds_child edit ≡ false → (world self.old).saved ≡ [] → IsOk result };

    /// Opens a mark, as an engine does.
    fn begin(&mut self) -> Result<(), Refusal>
        ensures parts { (world self.new).parts ≡ (world self.old).parts }
        ensures state { (world self.new).state ≡ (world self.old).state }
        ensures refused { (result ≡ Err MarksFull) ↔ (length (world self.old).saved ≡ MARKS) }
        ensures only { IfErr result (λ r. r ≡ MarksFull) }
        ensures ok { OnOk result ((world self.new).saved ≡ fresh (world self.old).state ∷ (world self.old).saved) }
        ensures err { OnErr result ((world self.new).saved ≡ (world self.old).saved) }
        ensures marked { (world self.new).marked ≡ (world self.old).marked }
        ensures spare { (world self.new).spare ≡ (world self.old).spare }
        ensures owed { owed self.new ≡ owed self.old };

    /// Closes the innermost mark, as an engine does.
    fn end(&mut self) -> Result<(), Refusal>
        ensures parts { (world self.new).parts ≡ (world self.old).parts }
        ensures state { (world self.new).state ≡ (world self.old).state }
        ensures refused { (result ≡ Err NoMark) ↔ ((world self.old).saved ≡ []) }
        ensures only { IfErr result (λ r. r ≡ NoMark) }
        ensures saved { (world self.new).saved ≡ closed (world self.old).saved }
        ensures marked { (world self.new).marked ≡ (world self.old).marked }
        ensures spare { (world self.old).spare + kept (world self.old).saved ≤ (world self.new).spare + kept (world self.new).saved }
        ensures owed { owed self.new ≡ owed self.old };

    /// Undoes all edits since the innermost mark, as an engine does.
    fn undo<L: Ledger>(&mut self, steps: &mut Steps<L>) -> Result<(), Refusal>
        ensures parts { (world self.new).parts ≡ (world self.old).parts }
        ensures refused { (result ≡ Err NoMark) ↔ ((world self.old).saved ≡ []) }
        ensures only { IfErr result (λ r. r ≡ NoMark) }
        ensures ok { OnOk result ((x : Saved) (xs : List Saved) → (world self.old).saved ≡ x ∷ xs → ((world self.new).state ≡ x.state) × ((world self.new).saved ≡ fresh x.state ∷ xs)) }
        ensures err { OnErr result (world self.new ≡ world self.old) }
        ensures no_steps { OnErr result ((steps.new ≡ steps.old) × (owed self.new ≡ owed self.old)) }
        ensures marked { (world self.new).marked ≡ (world self.old).marked }
        ensures spare { (world self.old).spare + kept (world self.old).saved ≤ (world self.new).spare + kept (world self.new).saved }
        ensures steps { steps.new + owed self.new ≤ steps.old + owed self.old + last_cost (world self.old).parts (world self.old).saved };

    /// Undoes all edits since a mark, as an engine does.
    fn undo_to<L: Ledger>(&mut self, k: u32, steps: &mut Steps<L>) -> Result<(), Refusal>
        ensures parts { (world self.new).parts ≡ (world self.old).parts }
        ensures accepted { OnOk result ((1 ≤ k) × (k ≤ length (world self.old).saved)) }
        ensures refused { IfErr result (λ r. (r ≡ NoMark) × (k < 1 ⊎ length (world self.old).saved < k)) }
        ensures state { OnOk result ((world self.new).state ≡ last_saved (world self.old).state (from_mark k (world self.old).saved)) }
        ensures saved { OnOk result ((world self.new).saved ≡ fresh (world self.new).state ∷ around (from_mark k (world self.old).saved)) }
        ensures err { OnErr result (world self.new ≡ world self.old) }
        ensures no_steps { OnErr result ((steps.new ≡ steps.old) × (owed self.new ≡ owed self.old)) }
        ensures marked { (world self.new).marked ≡ (world self.old).marked }
        ensures spare { (world self.old).spare + kept (world self.old).saved ≤ (world self.new).spare + kept (world self.new).saved }
        ensures steps { OnOk result (steps.new + owed self.new ≤ steps.old + owed self.old + trails_cost (world self.old).parts (length (world self.old).saved + 1 - k) (world self.old).saved) };
}

impl<'i, F: Family> Edited for Engine<'i, F> {
    ghost world = { λ e. e };

    ghost owed = { λ e. 0 };

    fn edit<L: Ledger>(
        &mut self,
        edit: Edit,
        steps: &mut Steps<L>,
    ) -> Result<Option<u32>, EditFault> {
        Engine::edit(self, edit, steps)
    }

    fn begin(&mut self) -> Result<(), Refusal> {
        Engine::begin(self)
    }

    fn end(&mut self) -> Result<(), Refusal> {
        Engine::end(self)
    }

    fn undo<L: Ledger>(&mut self, steps: &mut Steps<L>) -> Result<(), Refusal> {
        Engine::undo(self, steps)
    }

    fn undo_to<L: Ledger>(&mut self, k: u32, steps: &mut Steps<L>) -> Result<(), Refusal> {
        Engine::undo_to(self, k, steps)
    }
}
