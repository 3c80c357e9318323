//! Workers in threads, and what they have come to together.

ghost use Rattle.std.specs.Prelude.{◌≡◌, ◌≤◌, ◌<◌, ◌++◌, [], None, IfOk, IfSome};
ghost use Rattle.std.specs.Thread.{IsSync};
ghost use Rattle.solve_board.specs.Seats.{view, IsSeatOf};
ghost use Rattle.solve_board.specs.Views.{joined_view};
ghost use Rattle.parallel_repair.specs.Ranks.{lesser};
ghost use Rattle.parallel_repair.specs.Turns.{IsAtWork, HasEnded, budget};

use crate::ranks::lesser;
use crate::workers::{Found, work_on};
use crate::works::Work;
use khe_base::NoMemory;
use khe_io::Gate;
use solve_board::{Board, Seat};
use std::alloc::Global;
use std::thread::{Threads, join};

/// Puts together what two have come to.
fn gather(board: &Board, mine: Found, theirs: Found) -> Result<Found, NoMemory>
    requires seats { IsSeatOf board.now mine.seat × IsSeatOf board.now theirs.seat }
    requires weights { (0 < (view mine.seat).weight) × (0 < (view theirs.seat).weight) }
    ensures seat { IfOk result (λ r. IsSeatOf board.now r.seat) }
    ensures view { IfOk result (λ r. view r.seat ≡ joined_view (view mine.seat) (view theirs.seat)) }
    ensures rows { IfOk result (λ r. r.rows.items ≡ mine.rows.items ++ theirs.rows.items) }
    ensures best { IfOk result (λ r. r.best ≡ lesser mine.best theirs.best) }
{
    let Found {
        mut seat,
        mut rows,
        best,
    } = mine;
    let Found {
        seat: other,
        rows: mut more,
        best: second,
    } = theirs;
    board.join(&mut seat, other);
    rows.append(&mut more)?;
    Ok(Found {
        seat,
        rows,
        best: lesser(best, second),
    })
}

/// How many jobs there are, numbered from 0, and how many workers share them.
#[derive(Clone, Copy)]
pub(crate) struct Shared {
    pub(crate) jobs: u64,
    pub(crate) workers: u32,
}

/// Shares the jobs among the given number of workers, of which one is in a thread of its own and the others go on
/// from this thread. Where no thread can be had, this one does the work of both.
pub(crate) fn crew<R: Threads + Sync, W: Work, G: Gate>(
    rt: &R,
    alloc: Global,
    board: &Board,
    work: &W,
    gate: &G,
    shared: Shared,
    mut seat: Seat,
) -> Result<Found, NoMemory>
    requires sound { W.IsSound work.now }
    requires seat { IsSeatOf board.now seat }
    requires work { IsAtWork (W.answer work.now) shared.jobs (budget (view seat)) (view seat) [] None }
    requires left { shared.workers ≤ (view seat).left }
    ensures seat { IfOk result (λ r. IsSeatOf board.now r.seat) }
    ensures ended { IfOk result (λ r. HasEnded (W.answer work.now) shared.jobs (budget (view seat)) (view r.seat)
        r.rows.items r.best) }
    ensures fit { IfOk result (λ r. IfSome r.best (λ b. W.IsFit work.now b.plain)) }
{
    let Shared { jobs, workers } = shared;
    if workers <= 1 {
        return work_on(alloc, board, work, gate, jobs, seat);
    }
    let other = board.split(&mut seat);
    let fewer = workers - 1;
    let (theirs, mine) = join(
        rt,
        move || -> Result<Found, NoMemory>
            requires { IsSync W.row × IsSync G.row × W.IsSound work.now × IsSeatOf board.now other
                × IsAtWork (W.answer work.now) jobs (budget (view other)) (view other) [] None }
            ensures seat { IfOk result (λ r. IsSeatOf board.entry.now r.seat) }
            ensures ended { IfOk result (λ r. HasEnded (W.answer work.entry.now) jobs (budget (view other))
                (view r.seat) r.rows.items r.best) }
            ensures fit { IfOk result (λ r. IfSome r.best (λ b. W.IsFit work.entry.now b.plain)) }
        { work_on(alloc, board, work, gate, jobs, other) },
        move || -> Result<Found, NoMemory>
            requires { IsSync R.row × IsSync W.row × IsSync G.row × W.IsSound work.now × IsSeatOf board.now seat
                × IsAtWork (W.answer work.now) jobs (budget (view seat)) (view seat) [] None
                × (fewer ≤ (view seat).left) }
            ensures seat { IfOk result (λ r. IsSeatOf board.entry.now r.seat) }
            ensures ended { IfOk result (λ r. HasEnded (W.answer work.entry.now) jobs (budget (view seat)) (view r.seat)
                r.rows.items r.best) }
            ensures fit { IfOk result (λ r. IfSome r.best (λ b. W.IsFit work.entry.now b.plain)) }
        {
            let shared = Shared {
                jobs,
                workers: fewer,
            };
            crew(rt, alloc, board, work, gate, shared, seat)
        },
    );
    let mine = mine?;
    let theirs = theirs?;
    let all = gather(board, mine, theirs)?;
    Ok(all)
}
