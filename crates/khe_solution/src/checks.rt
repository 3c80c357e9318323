//! The refusals of edits: each function tests the causes of one row in their order.

ghost use Rattle.std.specs.Prelude.{◌≡◌, true, Option, None, OnOk};
ghost use Rattle.khe_solution.specs.Refusing.{is_of_meets, checked, first_refusal, refusal, assign_row, unassign_row, move_row, split_row, merge_row, swap_meets_row, give_row, take_row, regive_row, swap_tasks_row};

use crate::reads::{
    follows, has_type, is_fixed_event, is_fixed_place, is_resource, is_time, live, may_have,
    meet_with, resource_at, runs_over, same_given, same_resource, same_time, would_run_over,
};
use khe_base::{MeetId, ResourceId, TaskId, TimeId};
use khe_instance::Instance;
use khe_told::{Edit, Refusal, Told};

fn check_assign(inst: &Instance, told: &Told, meet: MeetId, time: TimeId) -> Result<(), Refusal>
    ensures { result ≡ checked (first_refusal (assign_row inst.now told.now meet time)) }
{
    let Some(own) = live(told, meet) else {
        return Err(Refusal::NoSuchMeet);
    };
    if inst.times() <= time.0 {
        return Err(Refusal::NoSuchTime);
    }
    if is_fixed_event(inst, own.event) {
        return Err(Refusal::Fixed);
    }
    if own.start.is_some() {
        return Err(Refusal::AlreadyAssigned);
    }
    if runs_over(inst, time, own.duration) {
        return Err(Refusal::OffEnd);
    }
    Ok(())
}

fn check_unassign(inst: &Instance, told: &Told, meet: MeetId) -> Result<(), Refusal>
    ensures { result ≡ checked (first_refusal (unassign_row inst.now told.now meet)) }
{
    let Some(own) = live(told, meet) else {
        return Err(Refusal::NoSuchMeet);
    };
    if is_fixed_event(inst, own.event) {
        return Err(Refusal::Fixed);
    }
    if own.start.is_none() {
        return Err(Refusal::NotAssigned);
    }
    Ok(())
}

fn check_move(inst: &Instance, told: &Told, meet: MeetId, time: TimeId) -> Result<(), Refusal>
    ensures { result ≡ checked (first_refusal (move_row inst.now told.now meet time)) }
{
    let Some(own) = live(told, meet) else {
        return Err(Refusal::NoSuchMeet);
    };
    if inst.times() <= time.0 {
        return Err(Refusal::NoSuchTime);
    }
    if is_fixed_event(inst, own.event) {
        return Err(Refusal::Fixed);
    }
    if own.start.is_none() {
        return Err(Refusal::NotAssigned);
    }
    if is_time(time, own.start) {
        return Err(Refusal::Same);
    }
    if runs_over(inst, time, own.duration) {
        return Err(Refusal::OffEnd);
    }
    Ok(())
}

fn check_split(inst: &Instance, told: &Told, meet: MeetId, cut: u32) -> Result<(), Refusal>
    ensures { result ≡ checked (first_refusal (split_row inst.now told.now meet cut)) }
{
    let Some(own) = live(told, meet) else {
        return Err(Refusal::NoSuchMeet);
    };
    if is_fixed_event(inst, own.event) {
        return Err(Refusal::Fixed);
    }
    if cut == 0 {
        return Err(Refusal::BadCut);
    }
    if own.duration <= cut {
        return Err(Refusal::BadCut);
    }
    Ok(())
}

fn check_merge(told: &Told, first: MeetId, second: MeetId) -> Result<(), Refusal>
    ensures { result ≡ checked (first_refusal (merge_row told.now first second)) }
{
    let Some(own) = live(told, first) else {
        return Err(Refusal::NoSuchMeet);
    };
    let Some(other) = live(told, second) else {
        return Err(Refusal::NoSuchMeet);
    };
    if first.0 == second.0 {
        return Err(Refusal::Same);
    }
    if own.event.0 != other.event.0 {
        return Err(Refusal::OtherEvent);
    }
    if !follows(own.start, own.duration, other.start) {
        return Err(Refusal::NotAdjacent);
    }
    if !same_given(told.given(first), told.given(second)) {
        return Err(Refusal::TasksDiffer);
    }
    Ok(())
}

fn check_swap_meets(inst: &Instance, told: &Told, a: MeetId, b: MeetId) -> Result<(), Refusal>
    ensures { result ≡ checked (first_refusal (swap_meets_row inst.now told.now a b)) }
{
    let Some(first) = live(told, a) else {
        return Err(Refusal::NoSuchMeet);
    };
    let Some(second) = live(told, b) else {
        return Err(Refusal::NoSuchMeet);
    };
    if is_fixed_event(inst, first.event) {
        return Err(Refusal::Fixed);
    }
    if is_fixed_event(inst, second.event) {
        return Err(Refusal::Fixed);
    }
    if first.start.is_none() {
        return Err(Refusal::NotAssigned);
    }
    if second.start.is_none() {
        return Err(Refusal::NotAssigned);
    }
    if a.0 == b.0 {
        return Err(Refusal::Same);
    }
    if same_time(first.start, second.start) {
        return Err(Refusal::Same);
    }
    if would_run_over(inst, second.start, first.duration) {
        return Err(Refusal::OffEnd);
    }
    if would_run_over(inst, first.start, second.duration) {
        return Err(Refusal::OffEnd);
    }
    Ok(())
}

fn check_give(
    inst: &Instance,
    told: &Told,
    task: TaskId,
    resource: ResourceId,
) -> Result<(), Refusal>
    ensures { result ≡ checked (first_refusal (give_row inst.now told.now task resource)) }
{
    let Some(own) = meet_with(told, task) else {
        return Err(Refusal::NoSuchTask);
    };
    if inst.resources() <= resource.0 {
        return Err(Refusal::NoSuchResource);
    }
    if is_fixed_place(inst, own.event, task.place) {
        return Err(Refusal::Fixed);
    }
    if resource_at(told, task).is_some() {
        return Err(Refusal::AlreadyAssigned);
    }
    if !has_type(inst, own.event, task.place, resource) {
        return Err(Refusal::WrongType);
    }
    Ok(())
}

fn check_take(inst: &Instance, told: &Told, task: TaskId) -> Result<(), Refusal>
    ensures { result ≡ checked (first_refusal (take_row inst.now told.now task)) }
{
    let Some(own) = meet_with(told, task) else {
        return Err(Refusal::NoSuchTask);
    };
    if is_fixed_place(inst, own.event, task.place) {
        return Err(Refusal::Fixed);
    }
    if resource_at(told, task).is_none() {
        return Err(Refusal::NotAssigned);
    }
    Ok(())
}

fn check_regive(
    inst: &Instance,
    told: &Told,
    task: TaskId,
    resource: ResourceId,
) -> Result<(), Refusal>
    ensures { result ≡ checked (first_refusal (regive_row inst.now told.now task resource)) }
{
    let Some(own) = meet_with(told, task) else {
        return Err(Refusal::NoSuchTask);
    };
    if inst.resources() <= resource.0 {
        return Err(Refusal::NoSuchResource);
    }
    if is_fixed_place(inst, own.event, task.place) {
        return Err(Refusal::Fixed);
    }
    let given = resource_at(told, task);
    if given.is_none() {
        return Err(Refusal::NotAssigned);
    }
    if is_resource(resource, given) {
        return Err(Refusal::Same);
    }
    if !has_type(inst, own.event, task.place, resource) {
        return Err(Refusal::WrongType);
    }
    Ok(())
}

fn check_swap_tasks(inst: &Instance, told: &Told, a: TaskId, b: TaskId) -> Result<(), Refusal>
    ensures { result ≡ checked (first_refusal (swap_tasks_row inst.now told.now a b)) }
{
    let Some(first) = meet_with(told, a) else {
        return Err(Refusal::NoSuchTask);
    };
    let Some(second) = meet_with(told, b) else {
        return Err(Refusal::NoSuchTask);
    };
    if is_fixed_place(inst, first.event, a.place) {
        return Err(Refusal::Fixed);
    }
    if is_fixed_place(inst, second.event, b.place) {
        return Err(Refusal::Fixed);
    }
    let own = resource_at(told, a);
    let other = resource_at(told, b);
    if own.is_none() {
        return Err(Refusal::NotAssigned);
    }
    if other.is_none() {
        return Err(Refusal::NotAssigned);
    }
    if a.meet.0 == b.meet.0 && a.place == b.place {
        return Err(Refusal::Same);
    }
    if same_resource(own, other) {
        return Err(Refusal::Same);
    }
    if !may_have(inst, first.event, a.place, other) {
        return Err(Refusal::WrongType);
    }
    if !may_have(inst, second.event, b.place, own) {
        return Err(Refusal::WrongType);
    }
    Ok(())
}

/// The first refusal of an edit of meets and tasks.
#[tactic(auto, unfolding(crate::specs::Refusing::refusal))]
pub(crate) fn check(inst: &Instance, told: &Told, edit: &Edit) -> Result<(), Refusal>
    requires ours { is_of_meets edit.now ≡ true }
    ensures answer { result ≡ checked (refusal inst.now told.now edit.now) }
{
    match *edit {
        Edit::Assign { meet, time } => check_assign(inst, told, meet, time),
        Edit::Unassign { meet } => check_unassign(inst, told, meet),
        Edit::MoveTo { meet, time } => check_move(inst, told, meet, time),
        Edit::Split { meet, cut } => check_split(inst, told, meet, cut),
        Edit::Merge { first, second } => check_merge(told, first, second),
        Edit::SwapMeets { a, b } => check_swap_meets(inst, told, a, b),
        Edit::Give { task, resource } => check_give(inst, told, task, resource),
        Edit::Take { task } => check_take(inst, told, task),
        Edit::Regive { task, resource } => check_regive(inst, told, task, resource),
        Edit::SwapTasks { a, b } => check_swap_tasks(inst, told, a, b),
        _ => Ok(()),
    }
}
