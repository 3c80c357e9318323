//! A mark around each move.

ghost use Rattle.std.specs.Prelude.{◌≡◌, ◌<◌, ◌≤◌, None, true, length};
ghost use Rattle.khe_base.specs.declared.limits.TheConstants.{MARKS};
ghost use Rattle.khe_engine.specs.States.{edited};
ghost use Rattle.khe_engine.specs.Worlds.{World, closed};
ghost use Rattle.khe_solution.specs.Refusing.{is_of_meets, refusal};
ghost use Rattle.ejection_repair.specs.Kept.{IsBack, IsInside, room};

use khe_engine::Engine;
use khe_told::{Edit, Family, Steps};
use std::sync::ledger::Ledger;

/// Opens a mark and makes a move.
pub(crate) fn make<F: Family, L: Ledger>(
    engine: &mut Engine<'_, F>,
    edit: Edit,
    steps: &mut Steps<L>,
)
    requires ours { is_of_meets edit ≡ true }
    requires accepted { refusal engine.old.parts engine.old.state.slots edit ≡ None }
    requires marks { length engine.old.saved < MARKS }
    requires room { 1 ≤ engine.old.spare }
    ensures inside { IsInside engine.old engine.new }
    ensures state { engine.new.state ≡ edited engine.old.state edit }
{
    let Ok(()) = engine.begin() else {
        unreachable!()
    };
    let Ok(_) = engine.edit(edit, steps) else {
        unreachable!()
    };
}

/// Goes back to the innermost mark and closes it.
pub(crate) fn take_back<F: Family, L: Ledger>(engine: &mut Engine<'_, F>, steps: &mut Steps<L>)
    requires { 0 < length engine.old.saved }
    ensures { (w : World) → IsInside w engine.old → IsBack w engine.new }
{
    let Ok(()) = engine.undo(steps) else {
        unreachable!()
    };
    let Ok(()) = engine.end() else { unreachable!() };
}

/// Closes the innermost mark and keeps what was done.
pub(crate) fn keep<F: Family>(engine: &mut Engine<'_, F>)
    requires { 0 < length engine.old.saved }
    ensures parts { engine.new.parts ≡ engine.old.parts }
    ensures marked { engine.new.marked ≡ engine.old.marked }
    ensures room { room engine.old ≤ room engine.new }
    ensures state { engine.new.state ≡ engine.old.state }
    ensures saved { engine.new.saved ≡ closed engine.old.saved }
{
    let Ok(()) = engine.end() else { unreachable!() };
}
