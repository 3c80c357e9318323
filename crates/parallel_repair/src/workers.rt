//! One worker: drawing jobs and doing them.

ghost use Rattle.std.specs.Prelude.{◌≡◌, ◌<◌, [], None, IfOk, IfSome, OnOk, true};
ghost use Rattle.solve_board.specs.Counts.{IsAmong};
ghost use Rattle.solve_board.specs.Seats.{view, IsSeatOf};
ghost use Rattle.parallel_repair.specs.Turns.{IsAtWork, HasEnded, HasTaken, HasLooked, HasSeenLower, HasOffered, budget};

use crate::answers::{Answer, Best, Row};
use crate::ranks::{is_free, lesser};
use crate::works::Work;
use khe_base::{NoMemory, Totals};
use khe_io::Gate;
use solve_board::{Board, Seat};
use std::alloc::Global;

/// What a worker has come to: its seat, the jobs that it ran, and the least of their results.
#[derive(Drop)]
pub(crate) struct Found {
    pub(crate) seat: Seat,
    pub(crate) rows: Vec<Row>,
    pub(crate) best: Option<Best>,
}

/// Whether a lower job was offered, so that this one can't come to a lesser result.
#[tactic(auto, using(crate::proofs::TurnLemmas::looked_some, crate::proofs::TurnLemmas::looked_none, crate::proofs::TurnLemmas::saw_lower))]
fn is_needless(board: &Board, seat: &mut Seat, job: u64) -> bool
    requires seat { IsSeatOf board.now seat.old }
    requires weight { 0 < (view seat.old).weight }
    ensures seat { IsSeatOf board.now seat.new }
    ensures view { HasLooked (view seat.old) (view seat.new) }
    ensures lower { result ≡ true → HasSeenLower (view seat.new) job }
{
    match board.look(seat) {
        Some(lower) => lower < job,
        None => false,
    }
}

/// Offers a job where it costs nothing.
#[tactic(auto, using(crate::proofs::TurnLemmas::offered_is, crate::proofs::TurnLemmas::offered_not))]
fn offer_free(board: &Board, seat: &mut Seat, job: u64, totals: Totals)
    requires seat { IsSeatOf board.now seat.old }
    requires weight { 0 < (view seat.old).weight }
    requires job { (job < (view seat.old).jobs) × IsAmong job (view seat.old).claims }
    ensures seat { IsSeatOf board.now seat.new }
    ensures view { HasOffered (view seat.old) job totals (view seat.new) }
{
    if is_free(totals) {
        board.offer(seat, job);
    }
}

/// Takes the next number, and says whether it was a job. The worker runs it, unless it is needless.
fn take_job<W: Work, G: Gate>(
    alloc: Global,
    board: &Board,
    work: &W,
    gate: &G,
    jobs: u64,
    desk: &mut W::Desk,
    found: Found,
) -> Result<(Found, bool), NoMemory>
    requires desk { W.IsReady work.now desk.old }
    requires seat { IsSeatOf board.now found.seat }
    requires work { IsAtWork (W.answer work.now) jobs (budget (view found.seat)) (view found.seat) found.rows.items found.best }
    requires fit { IfSome found.best (λ b. W.IsFit work.now b.plain) }
    ensures desk { OnOk result (W.IsReady work.now desk.new) }
    ensures seat { IfOk result (λ r. IsSeatOf board.now r.0.seat) }
    ensures taken { IfOk result (λ r. HasTaken (W.answer work.now) jobs (view found.seat) (view r.0.seat) r.0.rows.items r.0.best r.1) }
    ensures fit { IfOk result (λ r. IfSome r.0.best (λ b. W.IsFit work.now b.plain)) }
{
    let Found {
        mut seat,
        mut rows,
        best,
    } = found;
    let job = board.claim(&mut seat);
    if job >= jobs {
        return Ok((Found { seat, rows, best }, false));
    }
    if is_needless(board, &mut seat, job) {
        return Ok((Found { seat, rows, best }, true));
    }
    gate.pass(job);
    let answer = work.run(alloc, desk, job)?;
    let Answer { totals, plain } = answer;
    rows.push(Row { job, totals })?;
    offer_free(board, &mut seat, job, totals);
    let best = lesser(best, Some(Best { job, totals, plain }));
    Ok((Found { seat, rows, best }, true))
}

/// Takes numbers at a desk of its own until no job is left.
pub(crate) fn work_on<W: Work, G: Gate>(
    alloc: Global,
    board: &Board,
    work: &W,
    gate: &G,
    jobs: u64,
    seat: Seat,
) -> Result<Found, NoMemory>
    requires sound { W.IsSound work.now }
    requires seat { IsSeatOf board.now seat }
    requires work { IsAtWork (W.answer work.now) jobs (budget (view seat)) (view seat) [] None }
    ensures seat { IfOk result (λ r. IsSeatOf board.now r.seat) }
    ensures ended { IfOk result (λ r. HasEnded (W.answer work.now) jobs (budget (view seat)) (view r.seat) r.rows.items r.best) }
    ensures fit { IfOk result (λ r. IfSome r.best (λ b. W.IsFit work.now b.plain)) }
{
    let mut desk = work.open(alloc)?;
    let mut found = Found {
        seat,
        rows: Vec::new(alloc),
        best: None,
    };
    'jobs: loop {
        let (next, more) = take_job(alloc, board, work, gate, jobs, &mut desk, found)?;
        found = next;
        if !more {
            return Ok(found);
        }
    }
}
