//! What a move lifts before it puts it elsewhere, and moves that lift the same.

ghost use Rattle.std.specs.Prelude.{◌≡◌, ◌≤◌, true, Some, All, length, take};
ghost use Rattle.ejection_repair.specs.Lifts as spec;

use crate::looked::Aim;
use crate::moving::is_same;
use khe_told::Edit;
use repair_moves::Moved;

/// The first of several moves: a run of them that lift the same meet or task, or one by itself.
#[derive(Clone, Copy)]
pub(crate) struct Run {
    /// What all of them lift.
    pub(crate) lifted: Option<Moved>,
    pub(crate) count: usize,
}

/// The meet or task that a move lifts before it puts it elsewhere, if it does so.
#[tactic(auto, unfolding(crate::specs::Lifts::lifted_by))]
fn lifted_by(edit: Edit) -> Option<Moved>
    ensures { result ≡ spec.lifted_by edit }
{
    match edit {
        Edit::MoveTo { meet, time: _ } => Some(Moved::Meet(meet)),
        Edit::Regive { task, resource: _ } => Some(Moved::Task(task)),
        _ => None,
    }
}

/// The edit that lifts a meet or a task.
#[tactic(auto, unfolding(crate::specs::Lifts::lift_of))]
pub(crate) fn lift_of(moved: Moved) -> Edit
    ensures { result ≡ spec.lift_of moved }
{
    match moved {
        Moved::Meet(meet) => Edit::Unassign { meet },
        Moved::Task(task) => Edit::Take { task },
    }
}

/// The edit that puts what a move lifts where the move takes it; another move as it is.
#[tactic(auto, unfolding(crate::specs::Lifts::put_of))]
pub(crate) fn put_of(edit: Edit) -> Edit
    ensures { result ≡ spec.put_of edit }
{
    match edit {
        Edit::MoveTo { meet, time } => Edit::Assign { meet, time },
        Edit::Regive { task, resource } => Edit::Give { task, resource },
        other => other,
    }
}

/// Whether a move lifts this meet or task.
fn lifts(edit: Edit, moved: Moved) -> bool
    ensures { result ≡ true → spec.lifted_by edit ≡ Some moved }
{
    match lifted_by(edit) {
        None => false,
        Some(own) => is_same(own, moved),
    }
}

/// How many of the first moves lift this meet or task.
fn count_lifting(moves: &[Edit], moved: Moved) -> usize
    ensures within { result ≤ length moves.now }
    ensures same { All (λ e. spec.lifted_by e ≡ Some moved) (take result moves.now) }
{
    for count in 0..moves.len() {
        if !lifts(moves[count], moved) {
            return count;
        }
    }
    moves.len()
}

/// The first moves that are tried while what they lift is lifted, where that is worth it, or the
/// first move by itself.
///
/// A move that lifts changes the timetable twice, and twice more as it is taken back: so from two
/// moves on it is worth it to lift once.
pub(crate) fn run_of(aim: &Aim, moves: &[Edit]) -> Run
    requires some { 1 ≤ length moves.now }
    ensures within { result.count ≤ length moves.now }
    ensures some { 1 ≤ result.count }
    ensures run { spec.IsRun result.lifted (take result.count moves.now) aim.now.spare_marks }
{
    let alone = Run {
        lifted: None,
        count: 1,
    };
    if aim.spare_marks == 0 {
        return alone;
    }
    match lifted_by(moves[0]) {
        None => alone,
        Some(moved) => {
            let count = count_lifting(moves, moved);
            if count < 2 {
                return alone;
            }
            Run {
                lifted: Some(moved),
                count,
            }
        }
    }
}
