//! What a session keeps, woken on its instance for a call and put to rest again.

ghost use Rattle.std.specs.Prelude.{ℕ, ◌≡◌, ◌+◌, [], None, Some, IfOk, IsErrOf, OnErr, OnOk, slice_get};
ghost use Rattle.khe_engine.specs.Resting.{FitsIn, world_of};
ghost use Rattle.khe_engine.specs.Values.{ServesAll, costs};
ghost use Rattle.khe_session.specs.States.{IsAtRest, IsLined, IsSpent, cost_of, state_in, totals_of};

use crate::answers::answer_into;
use crate::faults::SessionFault;
use crate::resting::Kept;
use khe_base::{MonitorId, NoMemory, Totals};
use khe_engine::Engine;
use khe_instance::Instance;
use khe_told::Family;
use script_run::Shortages;
use std::alloc::Global;
use std::mem::ManuallyDrop;
use talk_run::Speaker;

/// Carries out the next line on an instance, and puts its answer in place of what a list had.
pub(crate) fn line_on<F: Shortages + Drop>(
    alloc: Global,
    inst: &Instance,
    solution: u32,
    lines: &mut u64,
    kept: &mut Option<Kept<F>>,
    line: &[u8],
    answer: &mut Vec<u8>,
) -> Result<(), SessionFault>
    requires serves { ServesAll F.serves_kind }
    requires rests { IsAtRest F.IsOf F.told inst.now kept.old }
    ensures rests { IsAtRest F.IsOf F.told inst.now kept.new }
    ensures lined { OnOk result (IsLined line.now (state_in inst.now solution lines.old kept.old) (state_in inst.now solution lines.new kept.new) answer.new.items) }
    ensures starved { IsErrOf result SessionFault.NoMemory → state_in inst.now solution lines.new kept.new ≡ None }
    ensures spent { IsErrOf result SessionFault.Spent → IsSpent (state_in inst.now solution lines.old kept.old) × (state_in inst.now solution lines.new kept.new ≡ state_in inst.now solution lines.old kept.old) }
    ensures empty { OnErr result (answer.new.items ≡ []) }
{
    answer.clear();
    if *lines == u64::MAX {
        return Err(SessionFault::Spent);
    }
    let number = *lines + 1;
    match kept.take() {
        Some(held) => match kept_after(alloc, held, inst, solution, line, number, answer) {
            Ok(left) => {
                put(kept, left);
                *lines = number;
                Ok(())
            }
            Err(NoMemory) => Err(SessionFault::NoMemory),
        },
        None => Err(SessionFault::Spent),
    }
}

/// The totals of the timetable; `None` where nothing is kept.
pub(crate) fn totals_on<F: Family + Drop>(
    inst: &Instance,
    kept: &mut Option<Kept<F>>,
) -> Option<Totals>
    requires serves { ServesAll F.serves_kind }
    requires rests { IsAtRest F.IsOf F.told inst.now kept.old }
    ensures rests { IsAtRest F.IsOf F.told inst.now kept.new }
    ensures told { (number lines : ℕ) → result ≡ totals_of (state_in inst.now number lines kept.old) }
    ensures same { (number lines : ℕ) → state_in inst.now number lines kept.new ≡ state_in inst.now number lines kept.old }
{
    match kept.take() {
        Some(held) => {
            let Kept { archive, rest } = held;
            let engine = rest.wake(inst);
            let totals = engine.totals();
            let rest = engine.rest();
            put(kept, Kept { archive, rest });
            Some(totals)
        }
        None => None,
    }
}

/// What the monitor with a number costs; `None` where there is none, or nothing is kept.
pub(crate) fn cost_on<F: Family + Drop>(
    inst: &Instance,
    kept: &mut Option<Kept<F>>,
    monitor: u32,
) -> Option<u128>
    requires serves { ServesAll F.serves_kind }
    requires rests { IsAtRest F.IsOf F.told inst.now kept.old }
    ensures rests { IsAtRest F.IsOf F.told inst.now kept.new }
    ensures told { (number lines : ℕ) → result ≡ cost_of (state_in inst.now number lines kept.old) monitor }
    ensures same { (number lines : ℕ) → state_in inst.now number lines kept.new ≡ state_in inst.now number lines kept.old }
{
    match kept.take() {
        Some(held) => {
            let Kept { archive, rest } = held;
            let engine = rest.wake(inst);
            let cost = cost_in(&engine, monitor);
            let rest = engine.rest();
            put(kept, Kept { archive, rest });
            cost
        }
        None => None,
    }
}

/// Puts what a session keeps back where nothing is. What stood there is not dropped, since it is nothing.
fn put<F: Family + Drop>(place: &mut Option<Kept<F>>, kept: Kept<F>)
    requires { place.old ≡ None }
    ensures { place.new ≡ Some kept }
{
    let _none = ManuallyDrop::new(place.replace(kept));
}

/// What is kept after the line with a number is carried out on an instance, and its answer put in place of what a list
/// had. After an error the list is empty.
fn kept_after<F: Shortages + Drop>(
    alloc: Global,
    kept: Kept<F>,
    inst: &Instance,
    solution: u32,
    line: &[u8],
    number: u64,
    answer: &mut Vec<u8>,
) -> Result<Kept<F>, NoMemory>
    requires serves { ServesAll F.serves_kind }
    requires fits { FitsIn F.IsOf F.told inst.now kept.rest }
    ensures fits { IfOk result (λ left. FitsIn F.IsOf F.told inst.now left.rest) }
    ensures lined { IfOk result (λ left. (lines : ℕ) → number ≡ lines + 1 → IsLined line.now (state_in inst.now solution lines (Some kept)) (state_in inst.now solution number (Some left)) answer.new.items) }
    ensures empty { OnErr result (answer.new.items ≡ []) }
{
    let Kept { archive, rest } = kept;
    let engine = rest.wake(inst);
    let mut speaker = Speaker {
        engine,
        archive,
        solution,
    };
    match answer_into(alloc, &mut speaker, line, number, answer) {
        Ok(()) => {
            let left = kept_of(speaker);
            Ok(left)
        }
        Err(NoMemory) => Err(NoMemory),
    }
}

/// What a speaker leaves when its engine rests.
fn kept_of<F: Shortages>(speaker: Speaker<'_, F>) -> Kept<F>
    ensures archive { result.archive ≡ speaker.entry.archive }
    ensures fits { FitsIn F.IsOf F.told speaker.entry.engine.parts result.rest }
    ensures same { world_of speaker.entry.engine.parts result.rest ≡ speaker.entry.engine }
{
    let Speaker {
        engine,
        archive,
        solution: _,
    } = speaker;
    let rest = engine.rest();
    Kept { archive, rest }
}

/// What the monitor with a number costs, if there is one.
#[tactic(auto, using(crate::proofs::CostLaws::cost_there, crate::proofs::CostLaws::cost_past))]
fn cost_in<F: Family>(engine: &Engine<'_, F>, monitor: u32) -> Option<u128>
    ensures { result ≡ slice_get (costs engine.now.parts engine.now.state) monitor }
{
    if monitor < engine.instance().monitors() {
        return Some(engine.cost(MonitorId(monitor)));
    }
    None
}
