//! One repair after the other on one engine.

ghost use Rattle.std.specs.Prelude.{◌≡◌, ◌≤◌, ◌<◌, ◌∷◌, [], IfOk, OnOk, length};
ghost use Rattle.khe_base.specs.declared.limits.TheConstants.{CHAIN_MOVES};
ghost use Rattle.ejection_repair.specs.Kept.{states};
ghost use Rattle.khe_engine.specs.States.{State};
ghost use Rattle.khe_engine.specs.Values.{ServesAll};
ghost use Rattle.khe_instance.specs.States.{IsValid};
ghost use Rattle.parallel_repair.specs.Jobs.{IsMarkedAt, answer_at, job_from};
ghost use Rattle.parallel_repair.specs.Listed.{state_in};

use crate::answers::Answer;
use ejection_repair::repair_inside;
use khe_base::NoMemory;
use khe_engine::Engine;
use khe_instance::{Instance, Plain};
use khe_told::{Blank, Family, Steps};
use std::alloc::Global;
use std::sync::ledger::Ledger;

/// An engine of a timetable, with a mark where it begins.
pub(crate) fn open_marked<'i, F: Family + Drop>(
    alloc: Global,
    inst: &'i Instance,
    start: &Plain,
) -> Result<Engine<'i, F>, NoMemory>
    requires joined { F.IsWellJoined }
    requires serves { ServesAll F.serves_kind }
    requires valid { IsValid inst.now start.now }
    ensures parts { IfOk result (λ e. e.parts ≡ inst.now) }
    ensures marked { IfOk result (λ e. IsMarkedAt (state_in inst.now start.now) e) }
{
    inst.facts();
    let mut engine = Engine::<F>::open(alloc, inst, start)?;
    let Ok(()) = engine.begin() else {
        unreachable!()
    };
    Ok(engine)
}

/// The present timetable with its totals.
fn answer_of<F: Family>(alloc: Global, engine: &Engine<'_, F>) -> Result<Answer, NoMemory>
    ensures answer { IfOk result (λ a. a ≡ answer_at engine.now.parts engine.now.state) }
    ensures valid { IfOk result (λ a. IsValid engine.now.parts a.plain) }
{
    let totals = engine.totals();
    let plain = engine.plain(alloc)?;
    Ok(Answer { totals, plain })
}

/// Undoes what was done since the only mark, which stays open.
fn go_back<F: Family, L: Ledger>(engine: &mut Engine<'_, F>, steps: &mut Steps<L>)
    requires { 0 < length engine.old.saved }
    ensures parts { engine.new.parts ≡ engine.old.parts }
    ensures marked { (s : State) → states engine.old.saved ≡ s ∷ [] → IsMarkedAt s engine.new }
{
    let Ok(()) = engine.undo(steps) else {
        unreachable!()
    };
}

/// What a repair comes to on an engine with one mark, where it is; and the engine is back there.
pub(crate) fn run_job<F: Family, L: Ledger>(
    alloc: Global,
    engine: &mut Engine<'_, F>,
    depth: u32,
    budget: u64,
    job: u64,
    blank: Blank,
) -> Result<Answer, NoMemory>
    requires depth { (1 ≤ depth) × (depth ≤ CHAIN_MOVES) }
    requires budget { 1 ≤ budget }
    requires marked { IsMarkedAt engine.old.state engine.old }
    requires name { blank.name ≡ L.name }
    requires shares { blank.parts ≡ L.parts }
    requires some { 0 < blank.parts }
    ensures answer { IfOk result (λ a. a ≡ job_from engine.old.parts engine.old.state depth budget job) }
    ensures valid { IfOk result (λ a. IsValid engine.old.parts a.plain) }
    ensures parts { engine.new.parts ≡ engine.old.parts }
    ensures marked { OnOk result (IsMarkedAt engine.old.state engine.new) }
{
    let mut steps = Steps::<L>::new(blank);
    repair_inside(engine, depth, budget, job, &mut steps)?;
    let answer = answer_of(alloc, engine)?;
    go_back(engine, &mut steps);
    Ok(answer)
}
