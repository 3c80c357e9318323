//! The choices that a part has for one of its meets or tasks.

ghost use Rattle.std.specs.Prelude.{◌≡◌, ◌<◌, ◌+◌, ◌^◌, IfSome, true, not, length};
ghost use Rattle.std.specs.Option.{option_map};
ghost use Rattle.khe_solution.specs.Reading.{is_time};
ghost use Rattle.khe_solution.specs.Refusing.{is_of_meets};
ghost use Rattle.repair_moves.specs.Items.{meet_slots, task_at};
ghost use Rattle.repair_moves.specs.Moves.{choices, edit_of, is_choice, resource_of, task_move, time_move};
ghost use Rattle.repair_moves.specs.Picked.{IsFirst};
ghost use Rattle.repair_moves.specs.Tasks.{IsFirstSlot};
ghost use Rattle.repair_moves.specs.declared.parts.Part.TheVariants as kinds;

use crate::items::{TaskSlot, next_live_task};
use crate::parts::Part;
use crate::reads::{
    accepts, facts, has_type, is_fixed_event, is_fixed_place, live, resource_at, task_at,
};
use khe_base::{MeetId, ResourceId, TaskId, TimeId};
use khe_instance::{Instance, Point};
use khe_solution::Solution;
use khe_told::Edit;

fn time_move(solution: &Solution<'_>, meet: MeetId, time: TimeId) -> Edit
    ensures edit { result ≡ time_move solution.now.slots meet.0 time.0 }
    ensures ours { is_of_meets result ≡ true }
{
    match live(solution, meet.0) {
        Some(own) if own.start.is_some() => Edit::MoveTo { meet, time },
        _ => Edit::Assign { meet, time },
    }
}

/// A task without a resource is given one, and one with a resource is given another.
pub(crate) fn task_move(
    inst: &Instance,
    solution: &Solution<'_>,
    task: TaskId,
    resource: ResourceId,
) -> Edit
    requires { solution.now.parts ≡ inst.now }
    ensures edit { result ≡ task_move solution.now.slots task resource.0 }
    ensures ours { is_of_meets result ≡ true }
{
    if resource_at(inst, solution, task).is_some() {
        Edit::Regive { task, resource }
    } else {
        Edit::Give { task, resource }
    }
}

fn resource_of(point: Point) -> ResourceId
    ensures { result ≡ resource_of point }
{
    match point {
        Point::Resource(resource) => resource,
        _ => ResourceId(0),
    }
}

/// The edit of a choice.
#[tactic(auto, unfolding(crate::specs::Moves::edit_of))]
pub(crate) fn edit_of(
    inst: &Instance,
    solution: &Solution<'_>,
    point: Point,
    part: Part,
    item: u32,
    choice: u32,
) -> Edit
    requires of { solution.now.parts ≡ inst.now }
    requires small { choice + 1 < 2 ^ 32 }
    ensures edit { result ≡ edit_of inst.now solution.now.slots point part item choice }
    ensures ours { is_of_meets result ≡ true }
{
    match part {
        Part::TimeMoves => time_move(solution, MeetId(item), TimeId(choice)),
        Part::SwapMoves => Edit::SwapMeets {
            a: MeetId(item),
            b: MeetId(choice),
        },
        Part::Cuts => Edit::Split {
            meet: MeetId(item),
            cut: choice + 1,
        },
        Part::Joins => Edit::Merge {
            first: MeetId(item),
            second: MeetId(choice),
        },
        Part::TaskMoves => task_move(inst, solution, task_at(inst, item), ResourceId(choice)),
        Part::TradeMoves => Edit::SwapTasks {
            a: task_at(inst, item),
            b: task_at(inst, choice),
        },
        Part::Gives => Edit::Give {
            task: task_at(inst, item),
            resource: resource_of(point),
        },
    }
}

/// Whether a time differs from the start, or there is no start.
fn is_elsewhere(start: Option<TimeId>, time: u32) -> bool
    ensures { is_time time start ≡ not result }
{
    match start {
        Some(own) => own.0 != time,
        None => true,
    }
}

/// The first time from one on to which a meet can go. It takes constant time.
fn next_time(
    inst: &Instance,
    solution: &Solution<'_>,
    point: Point,
    item: u32,
    from: u32,
) -> Option<u32>
    requires { solution.now.parts ≡ inst.now }
    ensures next { IsFirst (is_choice inst.now solution.now.slots point kinds.TimeMoves item) from (length inst.now.times) result }
    ensures small { IfSome result (λ k. k + 1 < 2 ^ 32) }
{
    facts(inst, solution);
    let own = live(solution, item)?;
    if is_fixed_event(inst, own.event) {
        return None;
    }
    let end = (inst.times() + 1).saturating_sub(own.duration);
    for time in from..end {
        if is_elsewhere(own.start, time) {
            return Some(time);
        }
    }
    None
}

/// The first meet from a slot on with which a meet can exchange its start. It takes the time of the
/// live meets that it goes over.
fn next_swap(
    inst: &Instance,
    solution: &Solution<'_>,
    point: Point,
    item: u32,
    from: u32,
) -> Option<u32>
    requires { solution.now.parts ≡ inst.now }
    ensures next { IsFirst (is_choice inst.now solution.now.slots point kinds.SwapMoves item) from (meet_slots inst.now) result }
    ensures small { IfSome result (λ k. k + 1 < 2 ^ 32) }
{
    facts(inst, solution);
    let own = live(solution, item)?;
    if is_fixed_event(inst, own.event) {
        return None;
    }
    if own.start.is_none() {
        return None;
    }
    let mut next = MeetId(from);
    while let Some(other) = solution.next_meet(next) {
        let edit = Edit::SwapMeets {
            a: MeetId(item),
            b: other,
        };
        if accepts(inst, solution, edit) {
            return Some(other.0);
        }
        next = MeetId(other.0 + 1);
    }
    None
}

/// The first cut of a meet, from one on. It takes constant time.
fn next_cut(
    inst: &Instance,
    solution: &Solution<'_>,
    point: Point,
    item: u32,
    from: u32,
) -> Option<u32>
    requires { solution.now.parts ≡ inst.now }
    ensures next { IsFirst (is_choice inst.now solution.now.slots point kinds.Cuts item) from (choices inst.now solution.now.slots kinds.Cuts item) result }
    ensures small { IfSome result (λ k. k + 1 < 2 ^ 32) }
{
    let own = live(solution, item)?;
    if is_fixed_event(inst, own.event) {
        return None;
    }
    let end = own.duration.saturating_sub(1);
    if from < end { Some(from) } else { None }
}

/// The first meet from a slot on with which a meet can be joined. It takes the time of the live meets of
/// the meet's event.
fn next_join(
    inst: &Instance,
    solution: &Solution<'_>,
    point: Point,
    item: u32,
    from: u32,
) -> Option<u32>
    requires { solution.now.parts ≡ inst.now }
    ensures next { IsFirst (is_choice inst.now solution.now.slots point kinds.Joins item) from (meet_slots inst.now) result }
    ensures small { IfSome result (λ k. k + 1 < 2 ^ 32) }
{
    facts(inst, solution);
    let own = live(solution, item)?;
    let event = inst.event(own.event);
    let end = event.first_meet + event.duration;
    let mut next = MeetId(from.max(event.first_meet));
    while let Some(other) = solution.next_meet(next) {
        if other.0 >= end {
            return None;
        }
        let edit = Edit::Merge {
            first: MeetId(item),
            second: other,
        };
        if accepts(inst, solution, edit) {
            return Some(other.0);
        }
        next = MeetId(other.0 + 1);
    }
    None
}

/// The first resource from one on that a task can be given. It takes the time of the resources that
/// it goes over, and each of another type takes constant time.
pub(crate) fn next_resource(
    inst: &Instance,
    solution: &Solution<'_>,
    point: Point,
    item: u32,
    task: TaskId,
    from: u32,
) -> Option<u32>
    requires of { solution.now.parts ≡ inst.now }
    requires task { task ≡ task_at inst.now item }
    ensures next { IsFirst (is_choice inst.now solution.now.slots point kinds.TaskMoves item) from (length inst.now.resources) result }
    ensures small { IfSome result (λ k. k + 1 < 2 ^ 32) }
{
    let own = live(solution, task.meet.0)?;
    if is_fixed_place(inst, own.event, task.place) {
        return None;
    }
    for number in from..inst.resources() {
        let resource = ResourceId(number);
        // The table is not asked about a resource of another type.
        if has_type(inst, own.event, task.place, resource) {
            let edit = task_move(inst, solution, task, resource);
            if accepts(inst, solution, edit) {
                return Some(number);
            }
        }
    }
    None
}

/// The first task from a task slot on with which a task can exchange its resource, with its slot. It takes the time
/// of the tasks of live meets that it goes over.
pub(crate) fn next_trade(
    inst: &Instance,
    solution: &Solution<'_>,
    point: Point,
    item: u32,
    task: TaskId,
    from: u32,
) -> Option<TaskSlot>
    requires of { solution.now.parts ≡ inst.now }
    requires task { task ≡ task_at inst.now item }
    ensures next { IsFirstSlot inst.now (is_choice inst.now solution.now.slots point kinds.TradeMoves item) from result }
    ensures small { IfSome result (λ x. x.slot + 1 < 2 ^ 32) }
{
    facts(inst, solution);
    let own = live(solution, task.meet.0)?;
    if is_fixed_place(inst, own.event, task.place) {
        return None;
    }
    if resource_at(inst, solution, task).is_none() {
        return None;
    }
    let mut next = from;
    while let Some(other) = next_live_task(inst, solution, next) {
        let edit = Edit::SwapTasks {
            a: task,
            b: other.task,
        };
        if accepts(inst, solution, edit) {
            return Some(other);
        }
        next = other.slot + 1;
    }
    None
}

/// The only choice of a task that may be given the point's resource, where it is still to come.
fn next_give(
    inst: &Instance,
    solution: &Solution<'_>,
    point: Point,
    item: u32,
    from: u32,
) -> Option<u32>
    requires { solution.now.parts ≡ inst.now }
    ensures next { IsFirst (is_choice inst.now solution.now.slots point kinds.Gives item) from 1 result }
    ensures small { IfSome result (λ k. k + 1 < 2 ^ 32) }
{
    let edit = Edit::Give {
        task: task_at(inst, item),
        resource: resource_of(point),
    };
    if from > 0 {
        return None;
    }
    if accepts(inst, solution, edit) {
        Some(0)
    } else {
        None
    }
}

/// The slot of a task that was found.
fn slot_of(found: Option<TaskSlot>) -> Option<u32>
    ensures { result ≡ option_map (λ x. x.slot) found }
{
    match found {
        Some(found) => Some(found.slot),
        None => None,
    }
}

/// The first choice from one on that is a move.
#[tactic(auto, unfolding(crate::specs::Moves::choices))]
pub(crate) fn next_choice(
    inst: &Instance,
    solution: &Solution<'_>,
    point: Point,
    part: Part,
    item: u32,
    from: u32,
) -> Option<u32>
    requires { solution.now.parts ≡ inst.now }
    ensures next { IsFirst (is_choice inst.now solution.now.slots point part item) from (choices inst.now solution.now.slots part item) result }
    ensures small { IfSome result (λ k. k + 1 < 2 ^ 32) }
{
    match part {
        Part::TimeMoves => next_time(inst, solution, point, item, from),
        Part::SwapMoves => next_swap(inst, solution, point, item, from),
        Part::Cuts => next_cut(inst, solution, point, item, from),
        Part::Joins => next_join(inst, solution, point, item, from),
        Part::TaskMoves => { next_resource(inst, solution, point, item, task_at(inst, item), from) }
        Part::TradeMoves => {
            let task = task_at(inst, item);
            slot_of(next_trade(inst, solution, point, item, task, from))
        }
        Part::Gives => next_give(inst, solution, point, item, from),
    }
}
