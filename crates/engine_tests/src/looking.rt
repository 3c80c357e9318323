//! A worker that looks for what another offers.

ghost use Rattle.std.specs.Prelude.{◌<◌};
ghost use Rattle.solve_board.specs.Counts.{IsAmong};
ghost use Rattle.solve_board.specs.Seats.{view, IsSeatOf};
ghost use Rattle.engine_tests.specs.Looking.{HasLooked};

use solve_board::{Board, Seat};
use std::thread::{Threads, join};

/// How often a worker looks for a job that another one is to offer.
const MOST_LOOKS: u32 = 100_000_000;

/// Looks until the job is seen, and says whether it was.
pub(crate) fn sees(board: &Board, seat: &mut Seat, job: u64) -> bool
    requires seat { IsSeatOf board.now seat.old }
    requires weight { 0 < (view seat.old).weight }
    ensures seat { IsSeatOf board.now seat.new }
    ensures looked { HasLooked (view seat.old) (view seat.new) }
{
    for _ in 0..MOST_LOOKS {
        if board.look(seat) == Some(job) {
            return true;
        }
    }
    false
}

/// Offers a job, and then looks until another one is seen.
fn offers_first(board: &Board, mut seat: Seat, job: u64, other: u64) -> (Seat, bool)
    requires seat { IsSeatOf board.now seat }
    requires weight { 0 < (view seat).weight }
    requires job { (job < (view seat).jobs) × IsAmong job (view seat).claims }
    ensures seat { IsSeatOf board.now result.0 }
    ensures looked { HasLooked (view seat) (view result.0) }
{
    board.offer(&mut seat, job);
    let seen = sees(board, &mut seat, other);
    (seat, seen)
}

/// Looks until another job is seen, and then offers one.
fn offers_last(board: &Board, mut seat: Seat, job: u64, other: u64) -> (Seat, bool)
    requires seat { IsSeatOf board.now seat }
    requires weight { 0 < (view seat).weight }
    requires job { (job < (view seat).jobs) × IsAmong job (view seat).claims }
    ensures seat { IsSeatOf board.now result.0 }
    ensures looked { HasLooked (view seat) (view result.0) }
{
    let seen = sees(board, &mut seat, other);
    board.offer(&mut seat, job);
    (seat, seen)
}

/// Two workers, each with a job of its own. The one with the greater job offers it and waits until
/// it sees the lesser one, and the other one waits until it sees the greater job and then offers
/// its own. So both see the other's job only where they are at work at the same time. Each says
/// whether it did.
pub(crate) fn meet<R: Threads + Sync>(
    rt: &R,
    board: &Board,
    lower: (Seat, u64),
    greater: (Seat, u64),
) -> ((Seat, bool), (Seat, bool))
    requires lower { IsSeatOf board.now lower.0 × (0 < (view lower.0).weight) × (lower.1 < (view lower.0).jobs) × IsAmong lower.1 (view lower.0).claims }
    requires greater { IsSeatOf board.now greater.0 × (0 < (view greater.0).weight) × (greater.1 < (view greater.0).jobs) × IsAmong greater.1 (view greater.0).claims }
    ensures seats { IsSeatOf board.now result.0.0 × IsSeatOf board.now result.1.0 }
    ensures lower { HasLooked (view lower.0) (view result.0.0) }
    ensures greater { HasLooked (view greater.0) (view result.1.0) }
{
    let (mine, job) = lower;
    let (theirs, other) = greater;
    join(
        rt,
        move || -> (Seat, bool)
            requires { IsSeatOf board.now mine × (0 < (view mine).weight) × (job < (view mine).jobs) × IsAmong job (view mine).claims }
            ensures seat { IsSeatOf board.entry.now result.0 }
            ensures looked { HasLooked (view mine) (view result.0) }
        { offers_last(board, mine, job, other) },
        move || -> (Seat, bool)
            requires { IsSeatOf board.now theirs × (0 < (view theirs).weight) × (other < (view theirs).jobs) × IsAmong other (view theirs).claims }
            ensures seat { IsSeatOf board.entry.now result.0 }
            ensures looked { HasLooked (view theirs) (view result.0) }
        { offers_first(board, theirs, other, job) },
    )
}
