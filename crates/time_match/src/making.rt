//! Edits inside a mark, and the mark itself.

ghost use Rattle.std.specs.Prelude.{ℕ, ◌≡◌, ◌+◌, ◌<◌, ◌≤◌, [], List, None, Some, true, All, length};
ghost use Rattle.khe_base.specs.declared.numbers.ResourceId.{ResourceId as ResourceOf};
ghost use Rattle.khe_engine.specs.States.{edited};
ghost use Rattle.khe_engine.specs.Worlds.{World};
ghost use Rattle.khe_solution.specs.Refusing.{is_of_meets, refusal};
ghost use Rattle.resource_match.specs.Choices.{choice_at};
ghost use Rattle.time_match.specs.Costs.{bare, chosen};
ghost use Rattle.time_match.specs.Marks.{IsBack, IsInside};
ghost use Rattle.time_match.specs.Open.{AreReady, IsOpenFor};

use khe_base::{ResourceId, TaskId};
use khe_engine::Engine;
use khe_told::{Edit, Family, Steps};
use std::sync::ledger::Ledger;

/// Opens the only mark.
pub(crate) fn begin<F: Family>(engine: &mut Engine<'_, F>)
    requires { engine.old.saved ≡ [] }
    ensures inside { IsInside engine.old engine.new }
    ensures state { engine.new.state ≡ engine.old.state }
    ensures spare { engine.new.spare ≡ engine.old.spare }
{
    let Ok(()) = engine.begin() else {
        unreachable!()
    };
}

/// Goes back to the mark and closes it.
pub(crate) fn take_back<F: Family, L: Ledger>(engine: &mut Engine<'_, F>, steps: &mut Steps<L>)
    requires { 0 < length engine.old.saved }
    ensures { (w : World) → IsInside w engine.old → IsBack w engine.new }
{
    let Ok(()) = engine.undo(steps) else {
        unreachable!()
    };
    let Ok(()) = engine.end() else { unreachable!() };
}

/// Closes the mark and keeps what was made.
pub(crate) fn keep<F: Family>(engine: &mut Engine<'_, F>)
    requires { 0 < length engine.old.saved }
    ensures parts { engine.new.parts ≡ engine.old.parts }
    ensures state { engine.new.state ≡ engine.old.state }
    ensures saved { (w : World) → IsInside w engine.old → engine.new.saved ≡ [] }
{
    let Ok(()) = engine.end() else { unreachable!() };
}

/// Makes an edit, for whose record there is room.
fn make<F: Family, L: Ledger>(engine: &mut Engine<'_, F>, edit: Edit, steps: &mut Steps<L>)
    requires ours { is_of_meets edit ≡ true }
    requires accepted { refusal engine.old.parts engine.old.state.slots edit ≡ None }
    requires room { 1 ≤ engine.old.spare }
    ensures parts { engine.new.parts ≡ engine.old.parts }
    ensures state { engine.new.state ≡ edited engine.old.state edit }
    ensures inside { (w : World) → IsInside w engine.old → IsInside w engine.new }
    ensures spare { engine.old.spare ≤ engine.new.spare + 1 }
{
    let Ok(_) = engine.edit(edit, steps) else {
        unreachable!()
    };
}

/// Takes the resources of tasks, where they have one.
pub(crate) fn strip<F: Family, L: Ledger>(
    engine: &mut Engine<'_, F>,
    tasks: &[TaskId],
    steps: &mut Steps<L>,
)
    requires free { (rs : List ResourceOf) × All (IsOpenFor engine.old.parts rs engine.old.state.slots) tasks.now }
    requires room { length tasks.now ≤ engine.old.spare }
    ensures parts { engine.new.parts ≡ engine.old.parts }
    ensures state { engine.new.state ≡ bare engine.old.state tasks.now }
    ensures inside { (w : World) → IsInside w engine.old → IsInside w engine.new }
    ensures spare { engine.old.spare ≤ engine.new.spare + length tasks.now }
{
    for task in tasks {
        if engine.solution().resource(*task).is_some() {
            make(engine, Edit::Take { task: *task }, steps);
        }
    }
}

/// Gives tasks what a choice gives them, of these resources.
pub(crate) fn give<F: Family, L: Ledger>(
    engine: &mut Engine<'_, F>,
    tasks: &[TaskId],
    resources: &[ResourceId],
    choice: &[Option<u32>],
    steps: &mut Steps<L>,
)
    requires ready { AreReady engine.old.parts resources.now engine.old.state.slots tasks.now }
    requires each { length choice.now ≡ length tasks.now }
    requires range { (k r : ℕ) → choice_at choice.now k ≡ Some r → r < length resources.now }
    requires room { length tasks.now ≤ engine.old.spare }
    ensures parts { engine.new.parts ≡ engine.old.parts }
    ensures state { engine.new.state ≡ chosen engine.old.state resources.now tasks.now choice.now }
    ensures inside { (w : World) → IsInside w engine.old → IsInside w engine.new }
{
    for k in 0..tasks.len() {
        if let Some(place) = choice[k] {
            let task = tasks[k];
            let resource = resources[place as usize];
            make(engine, Edit::Give { task, resource }, steps);
        }
    }
}
