//! The meets and tasks that a part is taken for, one after another.

ghost use Rattle.std.specs.Prelude.{◌≡◌, ◌<◌, ◌≤◌, ◌+◌, ◌^◌, true, IfSome, length};
ghost use Rattle.khe_instance.specs.Watching.{names_event, pair_names};
ghost use Rattle.khe_solution.specs.Reading.{has_type};
ghost use Rattle.khe_instance.specs.Lookups.{place_at, role_at};
ghost use Rattle.khe_told.specs.Slots.{slot_at, is_live};
ghost use Rattle.repair_moves.specs.Items.{is_free_at, is_item, is_live_at, is_meet_at, is_open_at, is_task_at, is_task_in, is_task_of, item_slots, may_be_given, meet_slots, task_slots, wants_role};
ghost use Rattle.khe_instance.specs.Slots.{first_task};
ghost use Rattle.repair_moves.specs.Named.{AreSlotsOf, AreWithin, NamesItsTasks, is_named, pair_at};
ghost use Rattle.repair_moves.specs.Picked.{IsFirst};
ghost use Rattle.repair_moves.specs.Tasks.{IsAlways, IsFirstPlace, IsFirstSlot, IsFirstTask};
ghost use Rattle.khe_instance.specs.declared.points.Point.TheVariants.{EventPair as AtPair, Resource as AtResource};

use crate::parts::Part;
use crate::reads::{facts, has_type, live, place_at, task_at};
use khe_base::{EventId, MeetId, ResourceId, TaskId, Text};
use khe_instance::{EventPair, Instance, Point, Rule};
use khe_solution::Solution;

/// A task slot with its task.
#[derive(Clone, Copy)]
pub(crate) struct TaskSlot {
    pub(crate) slot: u32,
    pub(crate) task: TaskId,
}

/// The numbers from `start` to the one before `end`.
#[derive(Clone, Copy)]
struct Bounds {
    start: u32,
    end: u32,
}

/// Whether a rule's pair with this number names an event.
fn pair_names(rule: &Rule, pair: u32, event: EventId) -> bool
    ensures { result ≡ pair_names rule.now pair event.0 }
{
    let Rule::OrderEvents { pairs } = rule else {
        return false;
    };
    match pairs.as_slice().get(pair as usize) {
        Some(own) => own.first.0 == event.0 || own.second.0 == event.0,
        None => false,
    }
}

/// Whether a point names an event, in the time in which a group knows its events.
fn names(inst: &Instance, rule: &Rule, point: Point, event: EventId) -> bool
    ensures { result ≡ names_event inst.now rule.now point event.0 }
{
    match point {
        Point::Event(own) => own.0 == event.0,
        Point::EventResource { event: own, .. } => own.0 == event.0,
        Point::EventGroup(group) => {
            group < inst.event_groups() && inst.event_group(group).has(event.0)
        }
        Point::EventPair(pair) => pair_names(rule, pair, event),
        Point::Resource(_) => false,
    }
}

/// The meet slots of an event, and none where no event has the number.
fn slots_of(inst: &Instance, event: EventId) -> Bounds
    ensures within { result.end ≤ meet_slots inst.now }
    ensures are { AreSlotsOf inst.now event.0 result.start result.end }
{
    inst.facts();
    if event.0 >= inst.events() {
        return Bounds { start: 0, end: 0 };
    }
    let info = inst.event(event);
    Bounds {
        start: info.first_meet,
        end: info.first_meet + info.duration,
    }
}

/// Meet slots among which are those of all events that a point names.
fn named_within(inst: &Instance, rule: &Rule, point: Point) -> Bounds
    ensures { AreWithin inst.now rule.now point result.start result.end }
{
    inst.facts();
    match point {
        Point::Event(event) => slots_of(inst, event),
        Point::EventResource { event, .. } => slots_of(inst, event),
        Point::EventGroup(_) => Bounds {
            start: 0,
            end: inst.meet_slots(),
        },
        Point::EventPair(pair) => pair_within(inst, rule, pair),
        Point::Resource(_) => Bounds { start: 0, end: 0 },
    }
}

/// The pair with a number of a rule's list.
fn pair_of(rule: &Rule, pair: u32) -> Option<EventPair>
    ensures { result ≡ pair_at rule.now pair }
{
    let Rule::OrderEvents { pairs } = rule else {
        return None;
    };
    pairs.as_slice().get(pair as usize).copied()
}

/// Meet slots among which are those of both events of a rule's pair.
fn pair_within(inst: &Instance, rule: &Rule, pair: u32) -> Bounds
    ensures { AreWithin inst.now rule.now (AtPair pair) result.start result.end }
{
    match pair_of(rule, pair) {
        Some(own) => {
            let first = slots_of(inst, own.first);
            let second = slots_of(inst, own.second);
            Bounds {
                start: first.start.min(second.start),
                end: first.end.max(second.end),
            }
        }
        None => Bounds { start: 0, end: 0 },
    }
}

/// The first meet from a slot on whose event a point names. It goes past an event that the point does
/// not name in one step.
fn next_named(
    inst: &Instance,
    solution: &Solution<'_>,
    rule: &Rule,
    point: Point,
    from: u32,
) -> Option<u32>
    requires { solution.now.parts ≡ inst.now }
    ensures { IsFirst (is_named inst.now solution.now.slots rule.now point) from (meet_slots inst.now) result }
{
    facts(inst, solution);
    let within = named_within(inst, rule, point);
    let mut slot = from.max(within.start);
    while slot < within.end {
        let event = inst.event_of(MeetId(slot));
        if !names(inst, rule, point, event) {
            slot = slots_of(inst, event).end;
        } else if live(solution, slot).is_some() {
            return Some(slot);
        } else {
            slot += 1;
        }
    }
    None
}

/// The first meet from a slot on that has a task with a resource.
fn next_with(
    inst: &Instance,
    solution: &Solution<'_>,
    rule: &Rule,
    resource: ResourceId,
    from: u32,
) -> Option<u32>
    requires { solution.now.parts ≡ inst.now }
    ensures { IsFirst (is_meet_at inst.now solution.now.slots rule.now (AtResource resource)) from (meet_slots inst.now) result }
{
    facts(inst, solution);
    let first = TaskId {
        meet: MeetId(from),
        place: 0,
    };
    let task = solution.next_task_of(resource, first)?;
    Some(task.meet.0)
}

/// The first meet of a monitor from a slot on.
#[tactic(auto, unfolding(crate::specs::Items::is_meet_at, crate::specs::Named::is_named))]
fn next_meet(
    inst: &Instance,
    solution: &Solution<'_>,
    rule: &Rule,
    point: Point,
    from: u32,
) -> Option<u32>
    requires { solution.now.parts ≡ inst.now }
    ensures { IsFirst (is_meet_at inst.now solution.now.slots rule.now point) from (meet_slots inst.now) result }
{
    match point {
        Point::Event(_) => next_named(inst, solution, rule, point, from),
        Point::EventResource { .. } => next_named(inst, solution, rule, point, from),
        Point::EventGroup(_) => next_named(inst, solution, rule, point, from),
        Point::EventPair(_) => next_named(inst, solution, rule, point, from),
        Point::Resource(resource) => next_with(inst, solution, rule, resource, from),
    }
}

/// Whether a rule is on the places of a role.
fn wants_role(rule: &Rule, own: &Option<Text>) -> bool
    ensures { result ≡ wants_role rule.now own.now }
{
    match (rule, own) {
        (Rule::AvoidSplitAssignments { role }, Some(own)) => role.is_same(own),
        _ => false,
    }
}

/// Whether a place of an event has the rule's role.
fn has_role(inst: &Instance, rule: &Rule, event: EventId, place: u32) -> bool
    ensures { result ≡ wants_role rule.now (role_at inst.now.events event.0 place) }
{
    match place_at(inst, event, place) {
        Some(own) => wants_role(rule, &own.role),
        None => false,
    }
}

/// Whether a place of an event that the point names is one of the monitor's.
fn is_place_of(inst: &Instance, rule: &Rule, point: Point, event: EventId, place: u32) -> bool
    requires { names_event inst.now rule.now point event.0 ≡ true }
    ensures { IsAlways (is_task_of inst.now rule.now point event.0 place) result }
{
    match point {
        Point::EventResource { place: own, .. } => own == place,
        Point::EventGroup(_) => has_role(inst, rule, event, place),
        Point::Event(_) => false,
        Point::EventPair(_) => false,
        Point::Resource(_) => false,
    }
}

/// The first place of a meet from one on whose task is the monitor's.
fn next_place(
    inst: &Instance,
    solution: &Solution<'_>,
    rule: &Rule,
    point: Point,
    slot: u32,
    from: u32,
) -> Option<u32>
    requires of { solution.now.parts ≡ inst.now }
    requires named { is_named inst.now solution.now.slots rule.now point slot ≡ true }
    ensures { IsFirstPlace (is_task_in inst.now solution.now.slots rule.now point) slot from result }
{
    facts(inst, solution);
    let own = live(solution, slot)?;
    let places = inst.event(own.event).places.len() as u32;
    for place in from..places {
        if is_place_of(inst, rule, point, own.event, place) {
            return Some(place);
        }
    }
    None
}

/// The first place of a meet whose task does not come before one.
fn place_from(at: TaskId, meet: u32) -> u32
    ensures here { at.meet.0 ≡ meet → result ≡ at.place }
    ensures later { at.meet.0 < meet → result ≡ 0 }
{
    if at.meet.0 < meet { 0 } else { at.place }
}

/// The first task from one on of an event that the point names.
fn next_task_named(
    inst: &Instance,
    solution: &Solution<'_>,
    rule: &Rule,
    point: Point,
    from: TaskId,
) -> Option<TaskId>
    requires of { solution.now.parts ≡ inst.now }
    requires named { NamesItsTasks inst.now rule.now point }
    ensures { IsFirstTask (is_task_in inst.now solution.now.slots rule.now point) from result }
{
    facts(inst, solution);
    let mut at = from;
    while let Some(meet) = next_named(inst, solution, rule, point, at.meet.0) {
        let start = place_from(at, meet);
        if let Some(place) = next_place(inst, solution, rule, point, meet, start) {
            return Some(TaskId {
                meet: MeetId(meet),
                place,
            });
        }
        at = TaskId {
            meet: MeetId(meet + 1),
            place: 0,
        };
    }
    None
}

/// The first task of a monitor from one on.
fn next_task(
    inst: &Instance,
    solution: &Solution<'_>,
    rule: &Rule,
    point: Point,
    from: TaskId,
) -> Option<TaskId>
    requires { solution.now.parts ≡ inst.now }
    ensures { IsFirstTask (is_task_in inst.now solution.now.slots rule.now point) from result }
{
    match point {
        Point::Event(_) => None,
        Point::EventResource { .. } => next_task_named(inst, solution, rule, point, from),
        Point::EventGroup(_) => next_task_named(inst, solution, rule, point, from),
        Point::EventPair(_) => None,
        Point::Resource(resource) => solution.next_task_of(resource, from),
    }
}

/// The number of a task: its task slot.
fn number_of(inst: &Instance, task: TaskId) -> u32
    requires meet { task.meet.0 < meet_slots inst.now }
    requires small { first_task inst.now.events task.meet.0 + task.place < 2 ^ 32 }
    ensures { result ≡ first_task inst.now.events task.meet.0 + task.place }
{
    inst.first_task(task.meet) + task.place
}

/// The first task slot from one on whose task is the monitor's.
fn next_slot(
    inst: &Instance,
    solution: &Solution<'_>,
    rule: &Rule,
    point: Point,
    from: u32,
) -> Option<u32>
    requires { solution.now.parts ≡ inst.now }
    ensures { IsFirst (is_task_at inst.now solution.now.slots rule.now point) from (task_slots inst.now) result }
{
    facts(inst, solution);
    if from >= inst.task_slots() {
        return None;
    }
    let task = next_task(inst, solution, rule, point, task_at(inst, from))?;
    Some(number_of(inst, task))
}

/// The first task slot from one on whose meet is live, with its task. It goes over the live meets alone.
pub(crate) fn next_live_task(
    inst: &Instance,
    solution: &Solution<'_>,
    from: u32,
) -> Option<TaskSlot>
    requires { solution.now.parts ≡ inst.now }
    ensures { IsFirstSlot inst.now (is_live_at inst.now solution.now.slots) from result }
{
    facts(inst, solution);
    let mut slot = from;
    while slot < inst.task_slots() {
        let task = task_at(inst, slot);
        let Some(next) = solution.next_meet(task.meet) else {
            return None;
        };
        if next.0 == task.meet.0 {
            return Some(TaskSlot { slot, task });
        }
        slot = inst.first_task(next);
    }
    None
}

/// The first task slot from one on whose task has no resource.
fn next_free(inst: &Instance, solution: &Solution<'_>, from: u32) -> Option<u32>
    requires { solution.now.parts ≡ inst.now }
    ensures { IsFirst (is_free_at inst.now solution.now.slots) from (task_slots inst.now) result }
{
    facts(inst, solution);
    if from >= inst.task_slots() {
        return None;
    }
    let task = solution.next_task_without(task_at(inst, from))?;
    Some(number_of(inst, task))
}

/// Whether a task may be given the resource of a point.
fn may_be_given(inst: &Instance, solution: &Solution<'_>, point: Point, task: TaskId) -> bool
    requires of { solution.now.parts ≡ inst.now }
    requires live { is_live (slot_at solution.now.slots task.meet.0) ≡ true }
    ensures { result ≡ may_be_given inst.now point (slot_at solution.now.slots task.meet.0) task.place }
{
    let Point::Resource(resource) = point else {
        return false;
    };
    let Some(own) = live(solution, task.meet.0) else {
        return false;
    };
    has_type(inst, own.event, task.place, resource)
}

/// The first task slot from one on whose task has no resource and may be given the point's. It goes
/// over the tasks without a resource alone.
fn next_open(inst: &Instance, solution: &Solution<'_>, point: Point, from: u32) -> Option<u32>
    requires { solution.now.parts ≡ inst.now }
    ensures { IsFirst (is_open_at inst.now solution.now.slots point) from (task_slots inst.now) result }
{
    facts(inst, solution);
    let mut next = from;
    while let Some(slot) = next_free(inst, solution, next) {
        if may_be_given(inst, solution, point, task_at(inst, slot)) {
            return Some(slot);
        }
        next = slot + 1;
    }
    None
}

/// The first meet or task from a slot on that a part is taken for.
#[tactic(auto, unfolding(crate::specs::Items::is_item, crate::specs::Items::item_slots))]
pub(crate) fn next_item(
    inst: &Instance,
    solution: &Solution<'_>,
    rule: &Rule,
    point: Point,
    part: Part,
    from: u32,
) -> Option<u32>
    requires { solution.now.parts ≡ inst.now }
    ensures next { IsFirst (is_item inst.now solution.now.slots rule.now point part) from (item_slots inst.now part) result }
    ensures small { IfSome result (λ n. n + 1 < 2 ^ 32) }
{
    facts(inst, solution);
    match part {
        Part::TimeMoves => next_meet(inst, solution, rule, point, from),
        Part::SwapMoves => next_meet(inst, solution, rule, point, from),
        Part::Cuts => next_meet(inst, solution, rule, point, from),
        Part::Joins => next_meet(inst, solution, rule, point, from),
        Part::TaskMoves => next_slot(inst, solution, rule, point, from),
        Part::TradeMoves => next_slot(inst, solution, rule, point, from),
        Part::Gives => next_open(inst, solution, point, from),
    }
}
