//! The search of one defect: its moves, each with its extensions, one inside the other.

ghost use Rattle.std.specs.Prelude.{◌≡◌, ◌<◌, ◌≤◌, ◌+◌, ◌*◌, None, true, length};
ghost use Rattle.khe_base.specs.declared.limits.TheConstants.{MARKS};
ghost use Rattle.khe_solution.specs.Refusing.{is_of_meets, refusal};
ghost use Rattle.ejection_repair.specs.declared.lengths.TheConstants.{TRAIL_ITEMS};
ghost use Rattle.ejection_repair.specs.Chains.{extensions, further_at, onward, longer as longer_chain};
ghost use Rattle.ejection_repair.specs.Kept.{IsKept, room};
ghost use Rattle.ejection_repair.specs.Looks.{look, Looks, chain_at};

use crate::asks::{are_lower, only_dearer, totals_of};
use crate::endings::extend_last;
use crate::looked::{Aim, Looked};
use crate::marking::{keep, make, take_back};
use crate::moving::{is_fresh, longer};
use crate::rotating::{moves_from, next_of};
use crate::trails::Trail;
use khe_base::MonitorId;
use khe_engine::Engine;
use khe_told::{Edit, Family, Steps};
use std::sync::ledger::Ledger;

/// Looks at the extensions of a chain by at most `more` moves, the first of them a move of this
/// monitor.
#[cycle(search)]
pub(crate) fn extend<F: Family, L: Ledger>(
    engine: &mut Engine<'_, F>,
    aim: &Aim,
    trail: &Trail,
    monitor: MonitorId,
    more: u32,
    left: &mut u64,
    steps: &mut Steps<L>,
) -> Looked
    requires known { monitor.0 < length engine.old.parts.monitors }
    requires trail { trail.now.count + 2 * more ≤ TRAIL_ITEMS }
    requires marks { length engine.old.saved + more + aim.now.spare_marks ≤ MARKS }
    requires room { more + aim.now.spare_marks ≤ engine.old.spare }
    ensures looks { Looks result (look engine.old.parts aim.now.lowest left.old
        (extensions engine.old.parts engine.old.marked aim.now.diversifier more (chain_at trail.now engine.old)
        monitor.0)) engine.old engine.new left.new }
    ensures kept { IsKept engine.old engine.new }
    ensures room { room engine.old ≤ room engine.new }
{
    if more == 0 {
        return Looked::Through;
    }
    if more == 1 {
        return extend_last(engine, aim, trail, monitor, left, steps);
    }
    let inst = engine.instance();
    let mut round = moves_from(inst, engine.solution(), monitor, aim.diversifier);
    while let Some(edit) = next_of(inst, engine.solution(), &mut round) {
        if is_fresh(trail, engine.solution(), edit) {
            match attempt(engine, aim, trail, edit, more - 1, left, steps) {
                Looked::Through => {}
                Looked::Found => return Looked::Found,
                Looked::Spent => return Looked::Spent,
            }
        }
    }
    Looked::Through
}

/// Looks at a chain with one move more, and then at its extensions by at most `more` moves.
#[cycle(search)]
fn attempt<F: Family, L: Ledger>(
    engine: &mut Engine<'_, F>,
    aim: &Aim,
    trail: &Trail,
    edit: Edit,
    more: u32,
    left: &mut u64,
    steps: &mut Steps<L>,
) -> Looked
    requires ours { is_of_meets edit ≡ true }
    requires accepted { refusal engine.old.parts engine.old.state.slots edit ≡ None }
    requires trail { trail.now.count + 2 * more + 2 ≤ TRAIL_ITEMS }
    requires marks { length engine.old.saved + more + aim.now.spare_marks < MARKS }
    requires room { more + aim.now.spare_marks < engine.old.spare }
    ensures looks { Looks result (look engine.old.parts aim.now.lowest left.old
        (onward engine.old.parts engine.old.marked aim.now.diversifier more
        (longer_chain (chain_at trail.now engine.old) edit))) engine.old engine.new left.new }
    ensures kept { IsKept engine.old engine.new }
    ensures room { room engine.old ≤ room engine.new }
{
    if *left == 0 {
        return Looked::Spent;
    }
    *left -= 1;
    let further = longer(*trail, engine.solution(), edit);
    make(engine, edit, steps);
    if are_lower(totals_of(engine), aim.lowest) {
        keep(engine);
        return Looked::Found;
    }
    match go_on(engine, aim, &further, more, left, steps) {
        Looked::Through => {
            take_back(engine, steps);
            Looked::Through
        }
        Looked::Found => {
            keep(engine);
            Looked::Found
        }
        Looked::Spent => {
            take_back(engine, steps);
            Looked::Spent
        }
    }
}

/// Looks at the extensions of a chain by at most `more` moves of the only monitor that is dearer.
#[cycle(search)]
fn go_on<F: Family, L: Ledger>(
    engine: &mut Engine<'_, F>,
    aim: &Aim,
    trail: &Trail,
    more: u32,
    left: &mut u64,
    steps: &mut Steps<L>,
) -> Looked
    requires trail { trail.now.count + 2 * more ≤ TRAIL_ITEMS }
    requires marks { length engine.old.saved + more + aim.now.spare_marks ≤ MARKS }
    requires room { more + aim.now.spare_marks ≤ engine.old.spare }
    ensures looks { Looks result (look engine.old.parts aim.now.lowest left.old
        (further_at engine.old.parts engine.old.marked aim.now.diversifier more (chain_at trail.now engine.old)))
        engine.old engine.new left.new }
    ensures kept { IsKept engine.old engine.new }
    ensures room { room engine.old ≤ room engine.new }
{
    match only_dearer(engine) {
        None => Looked::Through,
        Some(monitor) => extend(engine, aim, trail, monitor, more, left, steps),
    }
}
