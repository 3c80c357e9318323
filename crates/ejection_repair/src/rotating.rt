//! Walks round the moves of a monitor.

ghost use Rattle.std.specs.Prelude.{◌≡◌, ◌<◌, length, drop, min, false, true, None, IfSome};
ghost use Rattle.khe_solution.specs.Refusing.{is_of_meets, refusal};
ghost use Rattle.repair_moves.specs.Cursors.{ahead, IsCursor, IsNext};
ghost use Rattle.repair_moves.specs.Moves.{moves as moves_at};
ghost use Rattle.ejection_repair.specs.Chains.{rotated};
ghost use Rattle.ejection_repair.specs.Rounds.{moves_ahead, IsRound};

use crate::rounds::MoveRound;
use khe_base::MonitorId;
use khe_instance::Instance;
use khe_solution::Solution;
use khe_told::Edit;
use repair_moves::{Cursor, moves, next_move};

/// A cursor that went on by the given number of moves.
#[derive(Clone, Copy)]
struct Passed {
    cursor: Cursor,
    count: u64,
}

/// Goes past the given number of moves, or past all where there are fewer.
fn pass_by(inst: &Instance, solution: &Solution<'_>, first: Cursor, count: u64) -> Passed
    requires of { solution.now.parts ≡ inst.now }
    requires cursor { IsCursor inst.now first }
    ensures count { result.count ≡ min count (length (ahead inst.now solution.now.slots first)) }
    ensures ahead { ahead inst.now solution.now.slots result.cursor ≡ drop result.count (ahead inst.now solution.now.slots first) }
    ensures cursor { IsCursor inst.now result.cursor }
{
    let mut cursor = first;
    for done in 0..count {
        match next_move(inst, solution, &mut cursor) {
            None => return Passed {
                cursor,
                count: done,
            },
            Some(_) => {}
        }
    }
    Passed { cursor, count }
}

/// The list of a monitor's moves, begun at the place of a number.
///
/// It goes past at most as many moves as the number. Where there are fewer it goes past the
/// remainder of the number by how many there are.
pub(crate) fn moves_from(
    inst: &Instance,
    solution: &Solution<'_>,
    monitor: MonitorId,
    diversifier: u64,
) -> MoveRound
    requires of { solution.now.parts ≡ inst.now }
    requires known { monitor.0 < length inst.now.monitors }
    ensures ahead { moves_ahead inst.now solution.now.slots result ≡ rotated diversifier (moves_at inst.now solution.now.slots monitor.0) }
    ensures round { IsRound inst.now result }
{
    let first = moves(inst, solution, monitor);
    let passed = pass_by(inst, solution, first, diversifier);
    if passed.count < diversifier {
        return begun_round(inst, solution, first, passed.count, diversifier);
    }
    let mut beyond = passed.cursor;
    match next_move(inst, solution, &mut beyond) {
        None => begun_round(inst, solution, first, passed.count, diversifier),
        Some(_) => begun_at(passed.cursor, first, diversifier),
    }
}

/// A list of known length, begun at the place of a number that is no less.
fn begun_round(
    inst: &Instance,
    solution: &Solution<'_>,
    first: Cursor,
    count: u64,
    diversifier: u64,
) -> MoveRound
    requires of { solution.now.parts ≡ inst.now }
    requires cursor { IsCursor inst.now first }
    requires count { length (ahead inst.now solution.now.slots first) ≡ count }
    ensures ahead { moves_ahead inst.now solution.now.slots result ≡ rotated diversifier (ahead inst.now solution.now.slots first) }
    ensures round { IsRound inst.now result }
{
    if count == 0 {
        return begun_at(first, first, 0);
    }
    let place = diversifier % count;
    let passed = pass_by(inst, solution, first, place);
    begun_at(passed.cursor, first, place)
}

/// A walk that begins at one cursor of a list.
fn begun_at(cursor: Cursor, first: Cursor, before: u64) -> MoveRound
    ensures { result ≡ record { cursor = cursor; first = first; before = before; wrapped = false } }
{
    MoveRound {
        cursor,
        first,
        before,
        wrapped: false,
    }
}

/// The next move of a walk round a list.
#[tactic(auto, unfolding(crate::specs::Rounds::moves_ahead))]
pub(crate) fn next_of(
    inst: &Instance,
    solution: &Solution<'_>,
    round: &mut MoveRound,
) -> Option<Edit>
    requires of { solution.now.parts ≡ inst.now }
    requires round { IsRound inst.now round.old }
    ensures next { IsNext result (moves_ahead inst.now solution.now.slots round.old) (moves_ahead inst.now solution.now.slots round.new) }
    ensures accepted { IfSome result (λ e. refusal inst.now solution.now.slots e ≡ None) }
    ensures ours { IfSome result (λ e. is_of_meets e ≡ true) }
    ensures round { IsRound inst.now round.new }
{
    if !round.wrapped {
        if let Some(edit) = next_move(inst, solution, &mut round.cursor) {
            return Some(edit);
        }
        round.wrapped = true;
        round.cursor = round.first;
    }
    if round.before == 0 {
        return None;
    }
    round.before -= 1;
    next_move(inst, solution, &mut round.cursor)
}
