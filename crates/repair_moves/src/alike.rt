//! Meets and tasks that are alike: where one of them has no choice in a part, the other has none.

ghost use Rattle.std.specs.Prelude.{◌≡◌, ◌<◌, ℕ, IfSome, true, [], length};
ghost use Rattle.khe_instance.specs.declared.points.Point.{Point as AnyPoint};
ghost use Rattle.khe_told.specs.Slots.{given_at, slot_at};
ghost use Rattle.repair_moves.specs.Alike.{AreMeetsAlike, AreJoinsAlike, AreTasksAlike, IsFreeTask};
ghost use Rattle.repair_moves.specs.Moves.{choices_from};

use crate::parts::Part;
use crate::reads::{facts, live, place_at, resource_at, task_at};
use khe_base::{MeetId, ResourceId, TaskId};
use khe_instance::{Instance, Meet};
use khe_solution::Solution;

/// The type of the place of a task of a live meet, where its resource isn't preassigned.
fn free_type(inst: &Instance, solution: &Solution<'_>, task: TaskId) -> Option<u32>
    requires { solution.now.parts ≡ inst.now }
    ensures { IfSome result (IsFreeTask inst.now solution.now.slots task) }
{
    facts(inst, solution);
    let Some(own) = live(solution, task.meet.0) else {
        return None;
    };
    match place_at(inst, own.event, task.place) {
        None => None,
        Some(place) => match place.fixed {
            Some(_) => None,
            None => Some(place.rtype),
        },
    }
}

/// Whether two tasks are given the same, if anything.
fn is_given_alike(a: Option<ResourceId>, b: Option<ResourceId>) -> bool
    ensures { result ≡ true → a ≡ b }
{
    match a {
        None => b.is_none(),
        Some(own) => match b {
            None => false,
            Some(other) => own.0 == other.0,
        },
    }
}

/// Whether two tasks have the same resource and places of the same type, neither of them preassigned.
fn are_tasks_alike(inst: &Instance, solution: &Solution<'_>, a: TaskId, b: TaskId) -> bool
    requires { solution.now.parts ≡ inst.now }
    ensures { result ≡ true → AreTasksAlike inst.now solution.now.slots a b }
{
    let given = resource_at(inst, solution, a);
    if given.is_none() || !is_given_alike(given, resource_at(inst, solution, b)) {
        return false;
    }
    let Some(rtype) = free_type(inst, solution, a) else {
        return false;
    };
    match free_type(inst, solution, b) {
        Some(other) => rtype == other,
        None => false,
    }
}

/// Whether the first places of two meets are given the same, this many of each.
fn are_given_alike(
    inst: &Instance,
    solution: &Solution<'_>,
    a: MeetId,
    b: MeetId,
    places: u32,
) -> bool
    requires { solution.now.parts ≡ inst.now }
    ensures { result ≡ true → (k : ℕ) → k < places
        → given_at (slot_at solution.now.slots a.0) k ≡ given_at (slot_at solution.now.slots b.0) k }
{
    for place in 0..places {
        let own = resource_at(inst, solution, TaskId { meet: a, place });
        let other = resource_at(inst, solution, TaskId { meet: b, place });
        if !is_given_alike(own, other) {
            return false;
        }
    }
    true
}

/// Whether two meets are of one event and have the same start, if they have one, and the same duration.
fn are_meets_alike(a: Meet, b: Meet) -> bool
    ensures { result ≡ true → AreMeetsAlike a b }
{
    let Some(start) = a.start else {
        return false;
    };
    let Some(other) = b.start else {
        return false;
    };
    a.event.0 == b.event.0 && start.0 == other.0 && a.duration == b.duration
}

/// Whether two slots have meets of one event with the same times and the same resources.
fn are_joins_alike(inst: &Instance, solution: &Solution<'_>, a: u32, b: u32) -> bool
    requires { solution.now.parts ≡ inst.now }
    ensures { result ≡ true → AreJoinsAlike solution.now.slots a b }
{
    facts(inst, solution);
    let Some(first) = live(solution, a) else {
        return false;
    };
    let Some(second) = live(solution, b) else {
        return false;
    };
    if !are_meets_alike(first, second) {
        return false;
    }
    let places = inst.event(first.event).places.len() as u32;
    are_given_alike(inst, solution, MeetId(a), MeetId(b), places)
}

/// Whether two meets or tasks are alike for a part: where the first has no choice, the second has none. It takes the
/// time of the places of a meet at most. It says so for trades and joins alone: in other parts one without a choice
/// is passed as fast.
#[tactic(auto, using(crate::proofs::AlikeLaws::alike_trades, crate::proofs::AlikeLaws::alike_joins))]
pub(crate) fn are_alike(
    inst: &Instance,
    solution: &Solution<'_>,
    part: Part,
    a: u32,
    b: u32,
) -> bool
    requires { solution.now.parts ≡ inst.now }
    ensures { result ≡ true → (point : AnyPoint) → choices_from inst.now solution.now.slots point part a 0 ≡ []
        → choices_from inst.now solution.now.slots point part b 0 ≡ [] }
{
    match part {
        Part::TradeMoves => are_tasks_alike(inst, solution, task_at(inst, a), task_at(inst, b)),
        Part::Joins => are_joins_alike(inst, solution, a, b),
        _ => false,
    }
}
