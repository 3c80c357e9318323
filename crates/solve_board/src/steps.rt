//! The steps of workers on a board as plain data.

ghost use Rattle.std.specs.Prelude.{◌≡◌, ◌<◌, List, IfOk, OnOk, length};
ghost use Rattle.solve_board.specs.States.{stepped, MayStep, IsInOrder, with_number};
ghost use Rattle.solve_board.specs.Runs.{Event, IsRun, ran, nobody};

use crate::states::{BoardState, BoardStep};
use khe_base::{NoMemory, Seq};
use std::alloc::Global;

/// The state that a step leads to, as a copy; the state that was handed in stays as it is. A claim adds the
/// next number to the worker's claims and raises the next number by one, an offer adds the job to the
/// worker's offers, and a look changes nothing. From a state in order, in which each number below the next
/// was claimed once and each worker has claimed what it offers, it leads to a state in order.
///
/// The step's worker has to be there, a claim needs a next number below 2^64 - 1, and an offer a job that the
/// worker has claimed. It fails only where memory is refused. It takes time and memory in proportion to the
/// numbers in the state.
#[tactic(auto, using(crate::proofs::OrderLemmas::order_after))]
pub fn board_step(
    alloc: Global,
    state: &BoardState,
    step: BoardStep,
) -> Result<BoardState, NoMemory>
    requires { MayStep state.now step }
    ensures step { IfOk result (λ after. after ≡ stepped state.now step) }
    ensures order { IfOk result (λ after. IsInOrder state.now → IsInOrder after) }
{
    let after = state_after(alloc, state, step)?;
    Ok(after)
}

/// The state that a step leads to.
fn state_after(alloc: Global, state: &BoardState, step: BoardStep) -> Result<BoardState, NoMemory>
    requires { MayStep state.now step }
    ensures { IfOk result (λ after. after ≡ stepped state.now step) }
{
    let mut next = state.next;
    let mut claims = copied(alloc, &state.claims)?;
    let mut offers = copied(alloc, &state.offers)?;
    match step {
        BoardStep::Claim { worker } => {
            push_at(&mut claims, worker as usize, next)?;
            next += 1;
        }
        BoardStep::Offer { worker, job } => push_at(&mut offers, worker as usize, job)?,
        BoardStep::Look { worker: _ } => {}
    }
    Ok(BoardState {
        next,
        claims,
        offers,
    })
}

/// The same numbers in memory of their own.
fn copied_list(alloc: Global, list: &Seq<u64>) -> Result<Seq<u64>, NoMemory>
    ensures { IfOk result (λ copy. copy ≡ list.now) }
{
    let mut copy = Seq::new(alloc);
    for number in list.as_slice() {
        copy.push(*number)?;
    }
    Ok(copy)
}

/// The same lists in memory of their own.
fn copied(alloc: Global, lists: &Seq<Seq<u64>>) -> Result<Seq<Seq<u64>>, NoMemory>
    ensures { IfOk result (λ copy. copy ≡ lists.now) }
{
    let mut copy = Seq::new(alloc);
    for list in lists.as_slice() {
        copy.push(copied_list(alloc, list)?)?;
    }
    Ok(copy)
}

/// Adds a number to the list of one worker.
fn push_at(lists: &mut Seq<Seq<u64>>, worker: usize, number: u64) -> Result<(), NoMemory>
    requires { worker < length lists.old }
    ensures { OnOk result (lists.new ≡ with_number lists.old worker number) }
{
    lists.items[worker].push(number)
}

// Whatever happens to a board without workers, of steps, new workers and workers that join another,
// the state stays in order. It is proved of the definitions, and no program calls it.
#[allow(dead_code)]
fn every_run_stays_in_order()
    ensures { (events : List Event) → IsRun nobody events → IsInOrder (ran nobody events) }
{}
