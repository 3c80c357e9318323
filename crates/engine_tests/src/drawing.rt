//! Workers that draw jobs from a board.

ghost use Rattle.std.specs.Prelude.{◌≡◌, ◌+◌, ◌<◌, ◌≤◌, IfOk};
ghost use Rattle.std.specs.Thread.{IsSync};
ghost use Rattle.solve_board.specs.Seats.{view, IsSeatOf};
ghost use Rattle.engine_tests.specs.Drawing.{IsDrawing, HasDrawn, budget};

use khe_base::NoMemory;
use solve_board::{Board, Seat};
use std::alloc::Global;
use std::thread::{Threads, join};

/// The jobs that a worker has claimed, or several together, with their seat.
#[derive(Drop)]
pub(crate) struct Drawn {
    pub seat: Seat,
    pub jobs: Vec<u64>,
}

/// Claims numbers until there is no job left.
fn draw(alloc: Global, board: &Board, count: u64, mut seat: Seat) -> Result<Drawn, NoMemory>
    requires seat { IsSeatOf board.now seat }
    requires drawing { IsDrawing count (view seat) }
    ensures seat { IfOk result (λ r. IsSeatOf board.now r.seat) }
    ensures drawn { IfOk result (λ r. HasDrawn (view seat) (view r.seat)) }
{
    let mut jobs = Vec::new(alloc);
    'claims: loop {
        let number = board.claim(&mut seat);
        if number >= count {
            return Ok(Drawn { seat, jobs });
        }
        jobs.push(number)?;
    }
}

/// Puts together what two have drawn.
fn gather(board: &Board, mine: Drawn, theirs: Drawn) -> Result<Drawn, NoMemory>
    requires seats { IsSeatOf board.now mine.seat × IsSeatOf board.now theirs.seat }
    requires weights { (0 < (view mine.seat).weight) × (0 < (view theirs.seat).weight) }
    ensures seat { IfOk result (λ r. IsSeatOf board.now r.seat) }
    ensures weight { IfOk result (λ r. 0 < (view r.seat).weight) }
    ensures budget { IfOk result (λ r. budget (view r.seat) ≡ budget (view mine.seat) + budget (view theirs.seat)) }
{
    let Drawn { mut seat, mut jobs } = mine;
    let Drawn {
        seat: other,
        jobs: mut more,
    } = theirs;
    board.join(&mut seat, other);
    jobs.append(&mut more)?;
    Ok(Drawn { seat, jobs })
}

/// Claims numbers until there is no job left, by several workers, of which this thread is one.
pub(crate) fn draw_together<R: Threads + Sync>(
    rt: &R,
    alloc: Global,
    board: &Board,
    count: u64,
    workers: u32,
    mut seat: Seat,
) -> Result<Drawn, NoMemory>
    requires seat { IsSeatOf board.now seat }
    requires drawing { IsDrawing count (view seat) }
    requires left { workers ≤ (view seat).left }
    ensures seat { IfOk result (λ r. IsSeatOf board.now r.seat) }
    ensures drawn { IfOk result (λ r. HasDrawn (view seat) (view r.seat)) }
{
    if workers <= 1 {
        return draw(alloc, board, count, seat);
    }
    let other = board.split(&mut seat);
    let fewer = workers - 1;
    let (theirs, mine) = join(
        rt,
        move || -> Result<Drawn, NoMemory>
            requires { IsSeatOf board.now other × IsDrawing count (view other) }
            ensures seat { IfOk result (λ r. IsSeatOf board.entry.now r.seat) }
            ensures drawn { IfOk result (λ r. HasDrawn (view other) (view r.seat)) }
        { draw(alloc, board, count, other) },
        move || -> Result<Drawn, NoMemory>
            requires { IsSync R.row × IsSeatOf board.now seat × IsDrawing count (view seat) × (fewer ≤ (view seat).left) }
            ensures seat { IfOk result (λ r. IsSeatOf board.entry.now r.seat) }
            ensures drawn { IfOk result (λ r. HasDrawn (view seat) (view r.seat)) }
        { draw_together(rt, alloc, board, count, fewer, seat) },
    );
    let mine = mine?;
    let theirs = theirs?;
    let all = gather(board, mine, theirs)?;
    Ok(all)
}
