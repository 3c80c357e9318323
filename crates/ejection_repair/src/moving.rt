//! What moves move, and whether it was moved before.

ghost use Rattle.std.specs.Prelude.{◌≡◌, ◌≤◌, ◌<◌, ◌+◌, ◌++◌, ◌∷◌, [], true, None};
ghost use Rattle.std.specs.List.{cons_option, list_any};
ghost use Rattle.khe_told.specs.Slots.{slot_at};
ghost use Rattle.khe_told.specs.declared.edits.Edit.TheVariants.{Split};
ghost use Rattle.khe_solution.specs.Reading.{free_slot};
ghost use Rattle.khe_solution.specs.Refusing.{is_of_meets, refusal};
ghost use Rattle.repair_moves.specs.Moved.{moved_by};
ghost use Rattle.ejection_repair.specs.declared.lengths.TheConstants.{TRAIL_ITEMS};
ghost use Rattle.ejection_repair.specs.Trails as spec;

use crate::lengths::TRAIL_ITEMS;
use crate::trails::Trail;
use khe_base::MeetId;
use khe_solution::Solution;
use khe_told::{Back, Edit};
use repair_moves::Moved;

/// What a move moves: a meet or a task, or two.
#[derive(Clone, Copy)]
pub(crate) struct Movings {
    first: Moved,
    second: Option<Moved>,
}

/// Nothing moved.
#[tactic(auto, unfolding(crate::specs::Trails::moved_of))]
pub(crate) fn no_trail() -> Trail
    ensures none { spec.moved_of result ≡ [] }
    ensures count { result.count ≡ 0 }
{
    Trail {
        items: [Moved::Meet(MeetId(0)); TRAIL_ITEMS],
        count: 0,
    }
}

/// One meet or task.
fn one(first: Moved) -> Movings
    ensures { result ≡ record { first = first; second = None } }
{
    Movings {
        first,
        second: None,
    }
}

/// Two meets or tasks.
fn two(first: Moved, second: Moved) -> Movings
    ensures first { result.first ≡ first }
    ensures second { cons_option result.second [] ≡ second ∷ [] }
{
    Movings {
        first,
        second: Some(second),
    }
}

/// The number of the meet that a cut makes.
#[tactic(auto, unfolding(khe_solution::specs::Backs::back_of))]
fn new_meet(solution: &Solution<'_>, meet: MeetId, cut: u32) -> MeetId
    requires { refusal solution.now.parts solution.now.slots (Split meet cut) ≡ None }
    ensures { result.0 ≡ free_slot solution.now.slots (slot_at solution.now.slots meet.0).event.0 }
{
    match solution.back(&Edit::Split { meet, cut }) {
        Back::By(Edit::Merge { first: _, second }) => second,
        _ => unreachable!(),
    }
}

/// What a move moves in a timetable.
#[tactic(auto, unfolding(repair_moves::specs::Moved::moved_by))]
pub(crate) fn moved_by(solution: &Solution<'_>, edit: Edit) -> Movings
    requires ours { is_of_meets edit ≡ true }
    requires accepted { refusal solution.now.parts solution.now.slots edit ≡ None }
    ensures { moved_by solution.now.slots edit ≡ result.first ∷ cons_option result.second [] }
{
    match edit {
        Edit::Assign { meet, time: _ } => one(Moved::Meet(meet)),
        Edit::Unassign { meet } => one(Moved::Meet(meet)),
        Edit::MoveTo { meet, time: _ } => one(Moved::Meet(meet)),
        Edit::Split { meet, cut } => {
            two(
                Moved::Meet(meet),
                Moved::Meet(new_meet(solution, meet, cut)),
            )
        }
        Edit::Merge { first, second } => two(Moved::Meet(first), Moved::Meet(second)),
        Edit::SwapMeets { a, b } => two(Moved::Meet(a), Moved::Meet(b)),
        Edit::Give { task, resource: _ } => one(Moved::Task(task)),
        Edit::Take { task } => one(Moved::Task(task)),
        Edit::Regive { task, resource: _ } => one(Moved::Task(task)),
        Edit::SwapTasks { a, b } => two(Moved::Task(a), Moved::Task(b)),
        _ => unreachable!(),
    }
}

/// Whether two are the same meet or the same task.
pub(crate) fn is_same(a: Moved, b: Moved) -> bool
    ensures { result ≡ spec.is_same a b }
{
    match a {
        Moved::Meet(meet) => match b {
            Moved::Meet(other) => meet.0 == other.0,
            Moved::Task(_) => false,
        },
        Moved::Task(task) => match b {
            Moved::Meet(_) => false,
            Moved::Task(other) => task.meet.0 == other.meet.0 && task.place == other.place,
        },
    }
}

/// Whether a meet or task was moved before.
#[tactic(auto, unfolding(crate::specs::Trails::was_moved))]
fn was_moved(moved: &[Moved], x: Moved) -> bool
    ensures { result ≡ spec.was_moved moved.now x }
{
    moved.iter().any(|other| is_same(x, *other))
}

/// Whether one of these meets or tasks was moved before.
fn were_moved(moved: &[Moved], movings: Movings) -> bool
    ensures { result ≡ list_any (spec.was_moved moved.now) (movings.first ∷ cons_option movings.second []) }
{
    if was_moved(moved, movings.first) {
        return true;
    }
    match movings.second {
        None => false,
        Some(second) => was_moved(moved, second),
    }
}

/// Whether a move moves nothing that was moved before, in time in proportion to what was moved.
#[tactic(auto, unfolding(crate::specs::Trails::is_fresh, crate::specs::Trails::moved_of))]
pub(crate) fn is_fresh(trail: &Trail, solution: &Solution<'_>, edit: Edit) -> bool
    requires ours { is_of_meets edit ≡ true }
    requires accepted { refusal solution.now.parts solution.now.slots edit ≡ None }
    ensures { result ≡ spec.is_fresh solution.now.slots (spec.moved_of trail.now) edit }
{
    !were_moved(&trail.items[..trail.count], moved_by(solution, edit))
}

/// A trail with one meet or task more.
#[tactic(auto, unfolding(crate::specs::Trails::moved_of))]
fn push(trail: Trail, moved: Moved) -> Trail
    requires { trail.count < TRAIL_ITEMS }
    ensures moved { spec.moved_of result ≡ spec.moved_of trail ++ moved ∷ [] }
    ensures count { result.count ≡ trail.count + 1 }
{
    let mut items = trail.items;
    items[trail.count] = moved;
    Trail {
        items,
        count: trail.count + 1,
    }
}

/// What was moved once a move is made.
pub(crate) fn longer(trail: Trail, solution: &Solution<'_>, edit: Edit) -> Trail
    requires room { trail.count + 2 ≤ TRAIL_ITEMS }
    requires ours { is_of_meets edit ≡ true }
    requires accepted { refusal solution.now.parts solution.now.slots edit ≡ None }
    ensures moved { spec.moved_of result ≡ spec.moved_of trail ++ moved_by solution.now.slots edit }
    ensures count { result.count ≤ trail.count + 2 }
{
    let movings = moved_by(solution, edit);
    let trail = push(trail, movings.first);
    match movings.second {
        None => trail,
        Some(second) => push(trail, second),
    }
}
