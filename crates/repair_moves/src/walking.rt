//! The walk over a list of moves.

ghost use Rattle.std.specs.Prelude.{◌≡◌, ◌<◌, ◌+◌, ◌^◌, None, IfSome, true, [], length};
ghost use Rattle.khe_solution.specs.Refusing.{is_of_meets, refusal};
ghost use Rattle.repair_moves.specs.Cursors.{left_of_part, ahead, IsCursor, IsNext};
ghost use Rattle.repair_moves.specs.Moves.{choices_from, moves as moves_at, part_from};
ghost use Rattle.repair_moves.specs.declared.parts.Part.TheVariants.{TaskMoves, TradeMoves};
ghost use Rattle.repair_moves.specs.Walks.{IsMove, IsNextIn, IsNextOf};

use crate::alike::are_alike;
use crate::choosing::{edit_of, next_choice, next_resource, next_trade, task_move};
use crate::cursors::{Cursor, Spot};
use crate::items::next_item;
use crate::parts::{Part, parts_of};
use crate::reads::task_at;
use khe_base::{MonitorId, ResourceId};
use khe_instance::{Instance, Point, Rule};
use khe_solution::Solution;
use khe_told::Edit;

/// A move, and the place after it.
#[derive(Clone, Copy)]
struct Found {
    edit: Edit,
    spot: Spot,
}

/// The start of a part.
fn at_start() -> Spot
    ensures { result ≡ record { item = 0; choice = None } }
{
    Spot {
        item: 0,
        choice: None,
    }
}

/// The first move of a task to a resource, from a resource on. The task is looked up once.
fn next_of_task(
    inst: &Instance,
    solution: &Solution<'_>,
    point: Point,
    item: u32,
    from: u32,
) -> Option<Found>
    requires { solution.now.parts ≡ inst.now }
    ensures next { IsNextOf inst.now solution.now.slots point TaskMoves item from result }
    ensures moves { IfSome result (λ f. IsMove inst.now solution.now.slots f.edit) }
{
    let task = task_at(inst, item);
    let choice = next_resource(inst, solution, point, item, task, from)?;
    Some(Found {
        edit: task_move(inst, solution, task, ResourceId(choice)),
        spot: Spot {
            item,
            choice: Some(choice + 1),
        },
    })
}

/// The first trade of a task, from a task slot on. Both tasks are looked up once.
fn next_of_trade(
    inst: &Instance,
    solution: &Solution<'_>,
    point: Point,
    item: u32,
    from: u32,
) -> Option<Found>
    requires { solution.now.parts ≡ inst.now }
    ensures next { IsNextOf inst.now solution.now.slots point TradeMoves item from result }
    ensures moves { IfSome result (λ f. IsMove inst.now solution.now.slots f.edit) }
{
    let task = task_at(inst, item);
    let other = next_trade(inst, solution, point, item, task, from)?;
    Some(Found {
        edit: Edit::SwapTasks {
            a: task,
            b: other.task,
        },
        spot: Spot {
            item,
            choice: Some(other.slot + 1),
        },
    })
}

/// The first move of a meet or task from a choice on.
fn next_of_item(
    inst: &Instance,
    solution: &Solution<'_>,
    point: Point,
    part: Part,
    item: u32,
    from: u32,
) -> Option<Found>
    requires { solution.now.parts ≡ inst.now }
    ensures next { IsNextOf inst.now solution.now.slots point part item from result }
    ensures moves { IfSome result (λ f. IsMove inst.now solution.now.slots f.edit) }
{
    if let Part::TaskMoves = part {
        return next_of_task(inst, solution, point, item, from);
    }
    if let Part::TradeMoves = part {
        return next_of_trade(inst, solution, point, item, from);
    }
    let choice = next_choice(inst, solution, point, part, item, from)?;
    Some(Found {
        edit: edit_of(inst, solution, point, part, item, choice),
        spot: Spot {
            item,
            choice: Some(choice + 1),
        },
    })
}

/// The first move of a meet or task, which isn't looked for where it is like one that has none.
fn next_unless_alike(
    inst: &Instance,
    solution: &Solution<'_>,
    point: Point,
    part: Part,
    item: u32,
    bare: Option<u32>,
) -> Option<Found>
    requires of { solution.now.parts ≡ inst.now }
    requires bare { IfSome bare (λ n. choices_from inst.now solution.now.slots point part n 0 ≡ []) }
    ensures next { IsNextOf inst.now solution.now.slots point part item 0 result }
    ensures moves { IfSome result (λ f. IsMove inst.now solution.now.slots f.edit) }
{
    if let Some(bare) = bare {
        if are_alike(inst, solution, part, bare, item) {
            return None;
        }
    }
    next_of_item(inst, solution, point, part, item, 0)
}

/// The first move of a part from a slot on.
fn next_from_item(
    inst: &Instance,
    solution: &Solution<'_>,
    rule: &Rule,
    point: Point,
    part: Part,
    from: u32,
) -> Option<Found>
    requires { solution.now.parts ≡ inst.now }
    ensures next { IsNextIn inst.now solution.now.slots rule.now point part (part_from inst.now solution.now.slots rule.now point part from) result }
    ensures moves { IfSome result (λ f. IsMove inst.now solution.now.slots f.edit) }
    ensures small { IfSome result (λ f. f.spot.item + 1 < 2 ^ 32) }
{
    let mut from = from;
    let mut bare = None;
    while let Some(item) = next_item(inst, solution, rule, point, part, from) {
        match next_unless_alike(inst, solution, point, part, item, bare) {
            Some(found) => return Some(found),
            None => {
                bare = Some(item);
                from = item + 1;
            }
        }
    }
    None
}

/// The first move of a part from a place on.
fn next_in_part(
    inst: &Instance,
    solution: &Solution<'_>,
    rule: &Rule,
    point: Point,
    part: Part,
    spot: Spot,
) -> Option<Found>
    requires of { solution.now.parts ≡ inst.now }
    requires small { spot.item + 1 < 2 ^ 32 }
    ensures next { IsNextIn inst.now solution.now.slots rule.now point part (left_of_part inst.now solution.now.slots rule.now point part spot) result }
    ensures moves { IfSome result (λ f. IsMove inst.now solution.now.slots f.edit) }
    ensures small { IfSome result (λ f. f.spot.item + 1 < 2 ^ 32) }
{
    match spot.choice {
        None => next_from_item(inst, solution, rule, point, part, spot.item),
        Some(choice) => match next_of_item(inst, solution, point, part, spot.item, choice) {
            None => next_from_item(inst, solution, rule, point, part, spot.item + 1),
            Some(found) => Some(found),
        },
    }
}

/// The start of the list of a monitor's moves. It takes constant time and no memory.
pub fn moves(inst: &Instance, solution: &Solution<'_>, monitor: MonitorId) -> Cursor
    requires of { solution.now.parts ≡ inst.now }
    requires known { monitor.0 < length inst.now.monitors }
    ensures first { ahead inst.now solution.now.slots result ≡ moves_at inst.now solution.now.slots monitor.0 }
    ensures monitor { result.monitor ≡ monitor }
    ensures cursor { IsCursor inst.now result }
{
    let _ = inst;
    let _ = solution;
    Cursor {
        monitor,
        part: 0,
        spot: at_start(),
    }
}

/// The move at a cursor's place in the list, and the cursor then stands at the next place; `None`
/// where the list is at its end, and the cursor stays. It takes no memory.
///
/// What stands from the cursor on is read in the timetable as it is now, so a list can be walked on
/// after edits that were undone. A call takes the time of the choices that it goes over. A time at
/// which a meet would end too late, a cut, a meet of another event than the one to be joined, and all
/// choices of a meet or task that is preassigned are gone past at once; the tasks of a resource and
/// those without one are found by words of 64, and so are live meets. Live meets to swap with, resources
/// and tasks of live meets to trade with are looked at one by one, each resource of another type in
/// constant time, and of an event group's meets as many events as lie between. A task that has the
/// resource of the one before it, which has no trade, and a place of the same type is gone past at once;
/// so is a meet with the event, times and resources of the one before it, which cannot be joined.
pub fn next_move(inst: &Instance, solution: &Solution<'_>, cursor: &mut Cursor) -> Option<Edit>
    requires of { solution.now.parts ≡ inst.now }
    requires cursor { IsCursor inst.now cursor.old }
    ensures next { IsNext result (ahead inst.now solution.now.slots cursor.old) (ahead inst.now solution.now.slots cursor.new) }
    ensures accepted { IfSome result (λ e. refusal inst.now solution.now.slots e ≡ None) }
    ensures ours { IfSome result (λ e. is_of_meets e ≡ true) }
    ensures monitor { cursor.new.monitor ≡ cursor.old.monitor }
    ensures cursor { IsCursor inst.now cursor.new }
    ensures stays { result ≡ None → cursor.new ≡ cursor.old }
{
    inst.facts();
    let monitor = inst.monitor(cursor.monitor);
    let rule = &inst.constraint(monitor.constraint).rule;
    let parts = parts_of(monitor.kind);
    let mut part = cursor.part;
    let mut spot = cursor.spot;
    while (part as usize) < parts.len() {
        match next_in_part(
            inst,
            solution,
            rule,
            monitor.point,
            parts[part as usize],
            spot,
        ) {
            Some(found) => {
                cursor.part = part;
                cursor.spot = found.spot;
                return Some(found.edit);
            }
            None => {
                part += 1;
                spot = at_start();
            }
        }
    }
    None
}
