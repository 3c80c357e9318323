//! The tasks of live meets as rows of bits, so that the next one with a resource, or without one, is
//! found by words.

ghost use Rattle.std.specs.Prelude.{◌≡◌, ◌<◌, ◌≤◌, ◌*◌, ◌+◌, ◌^◌, ℕ, length, IfOk, MatchOption};
ghost use Rattle.khe_told.specs.Changes.{after};
ghost use Rattle.khe_told.specs.Fits.{AreTold, Fits};
ghost use Rattle.khe_solution.specs.NextTask.{IsNextTask, has_task};
ghost use Rattle.khe_solution.specs.TaskRows.{AreAllPut, AreEntered, AreKept, AreOut, ArePut, AreRows, AreTurned, AreUnwanted, IsFirstIn, IsFirstWanted, number_from, row_of, spot_of, tasks_of_all};

use crate::marks::{first_marked, least, put_bit};
use crate::reads::{live, meet_with, resource_at, same_resource};
use khe_base::bits::no_bits;
use khe_base::{MeetId, NoMemory, ResourceId, TaskId};
use khe_instance::Instance;
use khe_told::{Change, Told};
use std::alloc::Global;

/// Rows of bits, one bit for each task slot: first a row of the tasks without a resource, then 256
/// rows for those with one. Resources whose numbers leave the same rest share a row, so that up to
/// 256 resources have a row each.
#[derive(Drop)]
pub(crate) struct TaskRows {
    pub(crate) words: Vec<u64>,
    /// A bit for each word.
    pub(crate) marks: Vec<u64>,
    /// How many words a row has.
    pub(crate) stride: usize,
}

/// The row of a task that has this, or has nothing.
fn row_of(given: Option<ResourceId>) -> usize
    ensures is { result ≡ row_of given }
    ensures small { result < 257 }
{
    match given {
        Some(resource) => resource.0 as usize % 256 + 1,
        None => 0,
    }
}

/// Where the bit of a task slot stands in a row, where a row has `stride` words.
#[tactic(auto, unfolding(crate::specs::TaskRows::spot_of), using(crate::proofs::SpotLaws::spot_small))]
fn spot_of(stride: usize, row: usize, number: usize) -> usize
    requires row { row < 257 }
    requires few { stride < 2 ^ 22 }
    requires number { number < 2 ^ 32 }
    ensures { result ≡ spot_of stride row number }
{
    64 * (row * stride) + number
}

/// Puts the bit of a task slot in the row of what it is given.
#[tactic(auto, using(crate::proofs::SpotLaws::rows_put))]
fn put(rows: &mut TaskRows, given: Option<ResourceId>, number: usize, is_in: bool)
    requires rows { AreRows rows.old }
    requires number { number < 64 * rows.old.stride }
    ensures rows { AreRows rows.new }
    ensures stride { rows.new.stride ≡ rows.old.stride }
    ensures put { ArePut rows.old rows.new (row_of given) number is_in }
{
    let row = row_of(given);
    let spot = spot_of(rows.stride, row, number);
    put_bit(&mut rows.words, &mut rows.marks, spot, is_in);
}

/// Puts the bits of the tasks of a meet, of which the first has this number.
#[tactic(auto, using(crate::proofs::SpotLaws::put_none, crate::proofs::SpotLaws::put_more))]
fn put_meet(rows: &mut TaskRows, first: usize, given: &[Option<ResourceId>], is_in: bool)
    requires rows { AreRows rows.old }
    requires number { first + length given.now ≤ 64 * rows.old.stride }
    ensures rows { AreRows rows.new }
    ensures stride { rows.new.stride ≡ rows.old.stride }
    ensures put { AreAllPut rows.old rows.new first (length given.now) given.now is_in }
{
    for (place, resource) in given.iter().enumerate() {
        put(rows, *resource, first + place, is_in);
    }
}

/// Takes the bit of a task slot out of one row and into another.
#[tactic(auto, using(crate::proofs::KeptLaws::turned_is))]
fn turn(rows: &mut TaskRows, number: usize, old: Option<ResourceId>, new: Option<ResourceId>)
    requires rows { AreRows rows.old }
    requires number { number < 64 * rows.old.stride }
    ensures rows { AreRows rows.new }
    ensures stride { rows.new.stride ≡ rows.old.stride }
    ensures put { AreTurned rows.old rows.new number old new }
{
    put(rows, old, number, false);
    put(rows, new, number, true);
}

/// The first bit that is set in the row of what is wanted, from a task slot on.
fn first_in_row(rows: &TaskRows, wanted: Option<ResourceId>, from: usize) -> Option<usize>
    requires rows { AreRows rows.now }
    requires from { from ≤ 64 * rows.now.stride }
    ensures { MatchOption result (AreOut rows.now (row_of wanted) from (64 * rows.now.stride)) (λ n. IsFirstIn rows.now (row_of wanted) from n) }
{
    let row = row_of(wanted);
    let start = spot_of(rows.stride, row, 0);
    let end = (row + 1) * rows.stride;
    let Some(found) = first_marked(&rows.words, &rows.marks, start + from, end) else {
        return None;
    };
    Some(found - start)
}

/// Whether a task has what is wanted.
fn has_task(told: &Told, wanted: Option<ResourceId>, task: TaskId) -> bool
    ensures { result ≡ has_task told.now wanted task }
{
    meet_with(told, task).is_some() && same_resource(wanted, resource_at(told, task))
}

/// The number of the first task slot from a task on.
#[tactic(auto, using(crate::proofs::NumberLaws::number_past, crate::proofs::NumberLaws::first_told, crate::proofs::NumberLaws::tasks_told, crate::proofs::NumberLaws::slots_told))]
fn number_from(inst: &Instance, told: &Told, from: TaskId) -> usize
    requires told { AreTold inst.now told.now }
    ensures { result ≡ number_from told.now from }
{
    inst.facts();
    if from.meet.0 as usize >= told.len() {
        return inst.task_slots() as usize;
    }
    let places = told.given(from.meet).len();
    inst.first_task(from.meet) as usize + least(from.place as usize, places)
}

/// The first task from a number on that has what is wanted.
#[tactic(auto, using(crate::proofs::NumberLaws::tasks_told, crate::proofs::NumberLaws::task_of, crate::proofs::WantedLaws::out_unwanted, crate::proofs::WantedLaws::fewer_unwanted, crate::proofs::WantedLaws::wanted_more, crate::proofs::WantedLaws::wanted_found))]
fn first_wanted(
    rows: &TaskRows,
    inst: &Instance,
    told: &Told,
    wanted: Option<ResourceId>,
    from: usize,
) -> Option<TaskId>
    requires told { AreTold inst.now told.now }
    requires kept { AreKept told.now rows.now }
    ensures { MatchOption result (AreUnwanted told.now wanted from (tasks_of_all told.now)) (λ t. IsFirstWanted told.now wanted from t) }
{
    inst.facts();
    let end = inst.task_slots() as usize;
    let mut next = from;
    while next < end {
        let Some(number) = first_in_row(rows, wanted, next) else {
            return None;
        };
        if number >= end {
            return None;
        }
        let task = inst.task(number as u32);
        if has_task(told, wanted, task) {
            return Some(task);
        }
        next = number + 1;
    }
    None
}

/// The first task from this one on that has what is wanted. It looks at the marks of one row, and
/// there at no other tasks than those of resources that share it.
#[tactic(auto, using(crate::proofs::NumberLaws::next_is))]
pub(crate) fn next_task(
    rows: &TaskRows,
    inst: &Instance,
    told: &Told,
    wanted: Option<ResourceId>,
    from: TaskId,
) -> Option<TaskId>
    requires told { AreTold inst.now told.now }
    requires kept { AreKept told.now rows.now }
    ensures { IsNextTask told.now wanted from result }
{
    first_wanted(rows, inst, told, wanted, number_from(inst, told, from))
}

/// Follows a change that fits, in constant time, but for a meet that comes or goes, whose places it
/// goes over.
pub(crate) fn keep_tasks(rows: &mut TaskRows, inst: &Instance, told: &Told, change: Change)
    requires fits { Fits inst.now told.now change }
    requires kept { AreKept told.now rows.old }
    ensures { AreKept (after told.now change) rows.new }
{
    inst.facts();
    let meet = change.meet();
    let first = inst.first_task(meet) as usize;
    match change {
        Change::Add { .. } => put_meet(rows, first, told.given(meet), true),
        Change::Drop { .. } => put_meet(rows, first, told.given(meet), false),
        Change::Give { task, resource } => {
            turn(rows, first + task.place as usize, None, Some(resource));
        }
        Change::Take { task, resource } => {
            turn(rows, first + task.place as usize, Some(resource), None);
        }
        Change::Place { .. } => {}
        Change::Lift { .. } => {}
    }
}

/// Rows without a bit, for the given number of task slots.
fn no_rows(alloc: Global, tasks: u32) -> Result<TaskRows, NoMemory>
    requires { tasks < 2 ^ 24 }
    ensures rows { IfOk result (λ t. AreRows t) }
    ensures long { IfOk result (λ t. tasks ≤ 64 * t.stride) }
    ensures none { IfOk result (λ t. (r : ℕ) → r < 257 → AreOut t r 0 (64 * t.stride)) }
{
    let stride = tasks as usize / 64 + 1;
    let marks = no_bits(alloc, 257 * stride / 64 + 1)?;
    Ok(TaskRows {
        words: no_bits(alloc, 257 * stride)?,
        marks,
        stride,
    })
}

/// The rows of a told state, in time in proportion to the meet slots and the task slots.
#[tactic(auto, using(crate::proofs::KeptLaws::entered_none, crate::proofs::NumberLaws::tasks_told))]
pub(crate) fn rows_of(alloc: Global, inst: &Instance, told: &Told) -> Result<TaskRows, NoMemory>
    requires told { AreTold inst.now told.now }
    ensures { IfOk result (λ t. AreKept told.now t) }
{
    inst.facts();
    let mut rows = no_rows(alloc, inst.task_slots())?;
    enter_all(&mut rows, inst, told);
    Ok(rows)
}

/// Puts the bits of all tasks into rows without a bit.
fn enter_all(rows: &mut TaskRows, inst: &Instance, told: &Told)
    requires told { AreTold inst.now told.now }
    requires none { AreEntered told.now 0 rows.old }
    ensures { AreKept told.now rows.new }
{
    inst.facts();
    for slot in 0..told.len() {
        enter(rows, inst, told, MeetId(slot as u32));
    }
}

/// Puts the bits of the tasks of a slot, where it has a meet.
fn enter(rows: &mut TaskRows, inst: &Instance, told: &Told, meet: MeetId)
    requires told { AreTold inst.now told.now }
    requires there { meet.0 < length told.now }
    requires before { AreEntered told.now meet.0 rows.old }
    ensures { AreEntered told.now (meet.0 + 1) rows.new }
{
    inst.facts();
    match live(told, meet) {
        Some(_) => put_meet(rows, inst.first_task(meet) as usize, told.given(meet), true),
        None => {}
    }
}
