//! What is read of tasks to find the ones that are alike.

ghost use Rattle.std.specs.Prelude.{◌≡◌, ◌≤◌, ◌<◌, ◌*◌, ◌/◌, true, not, false, All, IfOk, MatchOption, length, slice_index_or};
ghost use Rattle.std.specs.List.{list_any};
ghost use Rattle.time_match.specs.Alike.{unites_at};
ghost use Rattle.time_match.specs.Leaders.{AreLike, IsReadFrom, avoidances, is_avoidance_at, is_preference_at, no_likeness, preferences, tasks_of, unites_event, worth_at};

use crate::reads::live;
use khe_base::{EventId, MonitorId, NoMemory, Seq, TaskId, TimeId};
use khe_instance::{Instance, Point, Rule};
use khe_solution::Solution;
use std::alloc::Global;

/// What is read of a task: where these are the same, its costs are near those of the other.
#[derive(Clone, Copy)]
pub(crate) struct Likeness {
    pub task: TaskId,
    pub event: EventId,
    pub start: Option<TimeId>,
    pub duration: u32,
    /// What it is worth to its resource.
    pub worth: u128,
    /// Whether it has a meet, and no monitor is on the resources of a group that has its event.
    pub single: bool,
}

/// Whether the monitor with a number prefers some resources to others.
fn is_preference(inst: &Instance, number: u32) -> bool
    ensures { result ≡ is_preference_at inst.now number }
{
    if number >= inst.monitors() {
        return false;
    }
    let constraint = inst.monitor(MonitorId(number)).constraint;
    if constraint >= inst.constraints() {
        return false;
    }
    match &inst.constraint(constraint).rule {
        Rule::PreferResources { .. } => true,
        _ => false,
    }
}

/// Whether the monitor with a number is on the resources of a group together.
fn is_avoidance(inst: &Instance, number: u32) -> bool
    ensures { result ≡ is_avoidance_at inst.now number }
{
    if number >= inst.monitors() {
        return false;
    }
    let constraint = inst.monitor(MonitorId(number)).constraint;
    if constraint >= inst.constraints() {
        return false;
    }
    match &inst.constraint(constraint).rule {
        Rule::AvoidSplitAssignments { .. } => true,
        _ => false,
    }
}

/// The monitors that prefer some resources to others. It takes time in proportion to all monitors.
pub(crate) fn list_preferences(alloc: Global, inst: &Instance) -> Result<Seq<u32>, NoMemory>
    ensures { IfOk result (λ numbers. numbers ≡ preferences inst.now) }
{
    let mut numbers = Seq::new(alloc);
    for number in 0..inst.monitors() {
        if is_preference(inst, number) {
            numbers.push(number)?;
        }
    }
    Ok(numbers)
}

/// The monitors that are on the resources of a group together. It takes time in proportion to all monitors.
pub(crate) fn list_avoidances(alloc: Global, inst: &Instance) -> Result<Seq<u32>, NoMemory>
    ensures { IfOk result (λ numbers. numbers ≡ avoidances inst.now) }
{
    let mut numbers = Seq::new(alloc);
    for number in 0..inst.monitors() {
        if is_avoidance(inst, number) {
            numbers.push(number)?;
        }
    }
    Ok(numbers)
}

/// Whether a rule at a point is on the resources of a group that has an event.
fn unites_at(inst: &Instance, rule: &Rule, point: Point, event: EventId) -> bool
    ensures { result ≡ unites_at inst.now rule.now point event.0 }
{
    let Rule::AvoidSplitAssignments { .. } = rule else {
        return false;
    };
    match point {
        Point::EventGroup(group) => {
            group < inst.event_groups() && inst.event_group(group).has(event.0)
        }
        _ => false,
    }
}

/// Whether the monitor with a number is on the resources of a group that has an event.
fn unites(inst: &Instance, number: u32, event: EventId) -> bool
    ensures { result ≡ unites_event inst.now event.0 number }
{
    if number >= inst.monitors() {
        return false;
    }
    let own = inst.monitor(MonitorId(number));
    if own.constraint >= inst.constraints() {
        return false;
    }
    unites_at(
        inst,
        &inst.constraint(own.constraint).rule,
        own.point,
        event,
    )
}

/// Whether none of these monitors is on the resources of a group that has an event.
fn is_single(inst: &Instance, event: EventId, numbers: &[u32]) -> bool
    ensures { result ≡ not (list_any (unites_event inst.now event.0) numbers.now) }
{
    for number in numbers {
        if unites(inst, *number, event) {
            return false;
        }
    }
    true
}

/// How many parts of one over the unit are one over the duration.
fn rate_of(unit: u64, duration: u32) -> u64
    requires { 1 ≤ duration }
    ensures { result ≡ unit / duration }
{
    unit / u64::from(duration)
}

fn product(workload: u32, duration: u32, rate: u64) -> u128
    ensures { result ≡ workload * duration * rate }
{
    u128::from(workload) * u128::from(duration) * u128::from(rate)
}

/// What a meet of a duration is worth at a place of an event.
fn worth_of(inst: &Instance, event: EventId, place: u32, duration: u32) -> u128
    ensures { result ≡ worth_at inst.now event.0 place duration }
{
    inst.facts();
    if event.0 >= inst.events() {
        return 0;
    }
    let own = inst.event(event);
    let rate = rate_of(inst.unit(), own.duration);
    match own.places.as_slice().get(place as usize) {
        None => 0,
        Some(at) => product(at.workload, duration, rate),
    }
}

/// What is read of a task, where these are the monitors on the resources of groups.
fn likeness_of(inst: &Instance, solution: &Solution<'_>, task: TaskId, numbers: &[u32]) -> Likeness
    requires { numbers.now ≡ avoidances inst.now }
    ensures task { result.task ≡ task }
    ensures is { IsReadFrom inst.now solution.now.slots result }
{
    match live(solution, task.meet) {
        Some(own) => Likeness {
            task,
            event: own.event,
            start: own.start,
            duration: own.duration,
            worth: worth_of(inst, own.event, task.place, own.duration),
            single: is_single(inst, own.event, numbers),
        },
        None => Likeness {
            task,
            event: EventId(0),
            start: None,
            duration: 0,
            worth: 0,
            single: false,
        },
    }
}

/// What is read of tasks. It takes time in proportion to them times the monitors on the resources of groups.
pub(crate) fn likenesses_of(
    alloc: Global,
    inst: &Instance,
    solution: &Solution<'_>,
    tasks: &[TaskId],
    numbers: &[u32],
) -> Result<Seq<Likeness>, NoMemory>
    requires { numbers.now ≡ avoidances inst.now }
    ensures tasks { IfOk result (λ xs. tasks_of xs ≡ tasks.now) }
    ensures are { IfOk result (All (IsReadFrom inst.now solution.now.slots)) }
{
    let mut read = Seq::new(alloc);
    for task in tasks {
        read.push(likeness_of(inst, solution, *task, numbers))?;
    }
    Ok(read)
}

/// Whether two starts are the same.
fn same_start(a: Option<TimeId>, b: Option<TimeId>) -> bool
    ensures { result ≡ true → a ≡ b }
{
    match (a, b) {
        (None, None) => true,
        (Some(first), Some(second)) => first.0 == second.0,
        _ => false,
    }
}

/// Whether the same was read of two tasks, neither of which is in a group whose resources are counted together.
fn is_like(a: &Likeness, b: &Likeness) -> bool
    ensures { result ≡ true → AreLike a.now b.now }
{
    a.single
        && b.single
        && a.duration == b.duration
        && a.worth == b.worth
        && same_start(a.start, b.start)
}

/// The first task that is like the one at a place, and this place where none before it is. It takes time in
/// proportion to the tasks before it.
pub(crate) fn first_like(read: &[Likeness], place: usize) -> usize
    requires { place < length read.now }
    ensures within { result ≤ place }
    ensures like { result < place → AreLike (slice_index_or read.now result no_likeness) (slice_index_or read.now place no_likeness) }
{
    for k in 0..place {
        if is_like(&read[k], &read[place]) {
            return k;
        }
    }
    place
}
