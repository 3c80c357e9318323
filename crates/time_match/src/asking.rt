//! What tasks would cost with resources, asked of the bare state without making it.

ghost use Rattle.std.specs.Prelude.{◌≡◌, ◌≤◌, ◌<◌, ◌+◌, ◌*◌, ◌++◌, true, None, All, OnOk, IfOk, IfSome, drop, length, replicate, slice_index_or, take};
ghost use Rattle.std.specs.List.{flat_map};
ghost use Rattle.khe_base.specs.declared.limits.TheConstants.{RESOURCES};
ghost use Rattle.khe_engine.specs.States.{edited};
ghost use Rattle.khe_engine.specs.Values.{totals};
ghost use Rattle.khe_solution.specs.Refusing.{is_of_meets, refusal};
ghost use Rattle.khe_told.specs.declared.edits.Edit.TheVariants.{Give};
ghost use Rattle.resource_match.specs.Choices.{AreCosts};
ghost use Rattle.resource_match.specs.Smallness.{IsSmall};
ghost use Rattle.resource_match.specs.declared.choices.TheConstants.{MATCHED_TASKS};
ghost use Rattle.time_match.specs.Costs.{costs_in, row};
ghost use Rattle.time_match.specs.Leaders.{AreLike, IsKept, IsReadFrom, no_likeness, preferences, tasks_of};
ghost use Rattle.time_match.specs.Open.{AreReady};

use crate::leaders::{Leader, leader_of, push_led};
use crate::likenesses::{Likeness, first_like, likenesses_of, list_avoidances, list_preferences};
use crate::reads::facts;
use khe_base::{NoMemory, ResourceId, Seq, TaskId, Totals, both};
use khe_engine::Engine;
use khe_told::{Edit, Family};
use resource_match::choices::Costs;
use std::alloc::Global;

/// What was read of the tasks and the preferences, and the resources that are asked for.
#[derive(Clone, Copy)]
struct Reads<'a> {
    /// What each task is like.
    read: &'a [Likeness],
    /// The numbers of the monitors of preferred resources.
    numbers: &'a [u32],
    resources: &'a [ResourceId],
}

/// What the timetable costs.
fn totals<F: Family>(engine: &Engine<'_, F>) -> Totals
    ensures is { result ≡ totals engine.now.parts engine.now.state }
    ensures small { IsSmall result }
{
    facts(engine);
    engine.totals()
}

/// What it would cost after an edit.
pub(crate) fn totals_after<F: Family>(engine: &mut Engine<'_, F>, edit: Edit) -> Totals
    requires ours { is_of_meets edit ≡ true }
    requires accepted { refusal engine.old.parts engine.old.state.slots edit ≡ None }
    ensures is { result ≡ totals engine.old.parts (edited engine.old.state edit) }
    ensures small { IsSmall result }
    ensures same { engine.new ≡ engine.old }
{
    facts(engine);
    engine.totals_after(&edit)
}

/// Adds what it would cost with each of these resources given to a task alone.
fn push_row<F: Family>(
    engine: &mut Engine<'_, F>,
    pairs: &mut Seq<Totals>,
    task: TaskId,
    resources: &[ResourceId],
) -> Result<(), NoMemory>
    requires accepted { All (λ r. refusal engine.old.parts engine.old.state.slots (Give task r) ≡ None) resources.now }
    requires small { All IsSmall pairs.old }
    ensures row { OnOk result (pairs.new ≡ pairs.old ++ row engine.old.parts engine.old.state resources.now task) }
    ensures small { All IsSmall pairs.new }
    ensures same { engine.new ≡ engine.old }
{
    for resource in resources {
        let edit = Edit::Give {
            task,
            resource: *resource,
        };
        pairs.push(totals_after(engine, edit))?;
    }
    Ok(())
}

/// The costs that were asked for a task, in a table that is so wide.
fn row_at(pairs: &[Totals], place: usize, wide: usize) -> &[Totals]
    requires { (place + 1) * wide ≤ length pairs.now }
    ensures { result.now ≡ take wide (drop (place * wide) pairs.now) }
{
    let start = place * wide;
    &pairs[start..start + wide]
}

/// Whether two tasks are the same.
fn is_task(a: TaskId, b: TaskId) -> bool
    ensures { result ≡ true → a ≡ b }
{
    a.meet.0 == b.meet.0 && a.place == b.place
}

/// The task at a place as the leader of others, by what was asked: the one that is kept, where it is that task.
fn lead<F: Family>(
    alloc: Global,
    engine: &Engine<'_, F>,
    pairs: &[Totals],
    reads: &Reads<'_>,
    first: usize,
    place: usize,
    kept: Option<Leader>,
) -> Result<Leader, NoMemory>
    requires numbers { reads.now.numbers.now ≡ preferences engine.now.parts }
    requires read { All (IsReadFrom engine.now.parts engine.now.state.slots) reads.now.read.now }
    requires ready { AreReady engine.now.parts reads.now.resources.now engine.now.state.slots (tasks_of reads.now.read.now) }
    requires place { place < length reads.now.read.now }
    requires first { first < place }
    requires single { (slice_index_or reads.now.read.now first no_likeness).single ≡ true }
    requires pairs { pairs.now ≡ flat_map (row engine.now.parts engine.now.state reads.now.resources.now) (take place (tasks_of reads.now.read.now)) }
    requires small { All IsSmall pairs.now }
    requires kept { IfSome kept (IsKept engine.now.parts engine.now.state reads.now.resources.now) }
    ensures kept { IfOk result (IsKept engine.now.parts engine.now.state reads.now.resources.now) }
    ensures task { IfOk result (λ x. x.task ≡ (slice_index_or reads.now.read.now first no_likeness).task) }
{
    let of = &reads.read[first];
    if let Some(leader) = kept {
        if is_task(leader.task, of.task) {
            return Ok(leader);
        }
    }
    let asked = row_at(pairs, first, reads.resources.len());
    leader_of(alloc, engine, asked, of, reads.numbers, reads.resources)
}

/// Adds what a task would cost with each of these resources given to it alone, by an earlier task that is alike, and
/// hands that one on as the leader of others.
fn push_like<F: Family>(
    alloc: Global,
    engine: &mut Engine<'_, F>,
    pairs: &mut Seq<Totals>,
    reads: &Reads<'_>,
    first: usize,
    place: usize,
    kept: Option<Leader>,
) -> Result<Leader, NoMemory>
    requires numbers { reads.now.numbers.now ≡ preferences engine.old.parts }
    requires read { All (IsReadFrom engine.old.parts engine.old.state.slots) reads.now.read.now }
    requires ready { AreReady engine.old.parts reads.now.resources.now engine.old.state.slots (tasks_of reads.now.read.now) }
    requires some { 0 < length reads.now.resources.now }
    requires place { place < length reads.now.read.now }
    requires first { first < place }
    requires like { AreLike (slice_index_or reads.now.read.now first no_likeness) (slice_index_or reads.now.read.now place no_likeness) }
    requires pairs { pairs.old ≡ flat_map (row engine.old.parts engine.old.state reads.now.resources.now) (take place (tasks_of reads.now.read.now)) }
    requires small { All IsSmall pairs.old }
    requires kept { IfSome kept (IsKept engine.old.parts engine.old.state reads.now.resources.now) }
    ensures pairs { OnOk result (pairs.new ≡ flat_map (row engine.old.parts engine.old.state reads.now.resources.now) (take (place + 1) (tasks_of reads.now.read.now))) }
    ensures small { All IsSmall pairs.new }
    ensures kept { IfOk result (IsKept engine.old.parts engine.old.state reads.now.resources.now) }
    ensures same { engine.new ≡ engine.old }
{
    let asked = pairs.as_slice();
    let leader = lead(alloc, engine, asked, reads, first, place, kept)?;
    push_led(
        alloc,
        engine,
        pairs,
        &reads.read[place],
        &leader,
        reads.numbers,
        reads.resources,
    )?;
    Ok(leader)
}

/// Whether an earlier task leads the one at a place, where there are resources.
fn is_led(first: usize, place: usize, resources: &[ResourceId]) -> bool
    ensures first { result ≡ true → first < place }
    ensures some { result ≡ true → 0 < length resources.now }
{
    first < place && !resources.is_empty()
}

/// Adds what the task at a place would cost with each of these resources given to it alone: it is asked, but where
/// an earlier one is alike. The leader that is kept may be another after it.
fn push_task<F: Family>(
    alloc: Global,
    engine: &mut Engine<'_, F>,
    pairs: &mut Seq<Totals>,
    reads: &Reads<'_>,
    place: usize,
    kept: Option<Leader>,
) -> Result<Option<Leader>, NoMemory>
    requires numbers { reads.now.numbers.now ≡ preferences engine.old.parts }
    requires read { All (IsReadFrom engine.old.parts engine.old.state.slots) reads.now.read.now }
    requires ready { AreReady engine.old.parts reads.now.resources.now engine.old.state.slots (tasks_of reads.now.read.now) }
    requires place { place < length reads.now.read.now }
    requires pairs { pairs.old ≡ flat_map (row engine.old.parts engine.old.state reads.now.resources.now) (take place (tasks_of reads.now.read.now)) }
    requires small { All IsSmall pairs.old }
    requires kept { IfSome kept (IsKept engine.old.parts engine.old.state reads.now.resources.now) }
    ensures pairs { OnOk result (pairs.new ≡ flat_map (row engine.old.parts engine.old.state reads.now.resources.now) (take (place + 1) (tasks_of reads.now.read.now))) }
    ensures small { All IsSmall pairs.new }
    ensures kept { IfOk result (λ kept. IfSome kept (IsKept engine.old.parts engine.old.state reads.now.resources.now)) }
    ensures same { engine.new ≡ engine.old }
{
    let first = first_like(reads.read, place);
    if is_led(first, place, reads.resources) {
        let leader = push_like(alloc, engine, pairs, reads, first, place, kept)?;
        Ok(Some(leader))
    } else {
        push_row(engine, pairs, reads.read[place].task, reads.resources)?;
        Ok(kept)
    }
}

/// What each task would cost with each of these resources, row by row, by what was read of the tasks.
fn pairs_with<F: Family>(
    alloc: Global,
    engine: &mut Engine<'_, F>,
    reads: &Reads<'_>,
) -> Result<Seq<Totals>, NoMemory>
    requires numbers { reads.now.numbers.now ≡ preferences engine.old.parts }
    requires read { All (IsReadFrom engine.old.parts engine.old.state.slots) reads.now.read.now }
    requires ready { AreReady engine.old.parts reads.now.resources.now engine.old.state.slots (tasks_of reads.now.read.now) }
    ensures pairs { IfOk result (λ pairs. pairs ≡ flat_map (row engine.old.parts engine.old.state reads.now.resources.now) (tasks_of reads.now.read.now)) }
    ensures small { IfOk result (All IsSmall) }
    ensures same { engine.new ≡ engine.old }
{
    let mut pairs = Seq::new(alloc);
    let mut kept = None;
    for place in 0..reads.read.len() {
        kept = push_task(alloc, engine, &mut pairs, reads, place, kept)?;
    }
    Ok(pairs)
}

/// What each of these tasks would cost with each of these resources, row by row. It asks for each task and resource,
/// but for one resource alone where an earlier task is alike.
fn pairs_of<F: Family>(
    alloc: Global,
    engine: &mut Engine<'_, F>,
    tasks: &[TaskId],
    resources: &[ResourceId],
) -> Result<Seq<Totals>, NoMemory>
    requires ready { AreReady engine.old.parts resources.now engine.old.state.slots tasks.now }
    ensures pairs { IfOk result (λ pairs. pairs ≡ flat_map (row engine.old.parts engine.old.state resources.now) tasks.now) }
    ensures small { IfOk result (All IsSmall) }
    ensures same { engine.new ≡ engine.old }
{
    let inst = engine.instance();
    let groups = list_avoidances(alloc, inst)?;
    let united = groups.as_slice();
    let read = likenesses_of(alloc, inst, engine.solution(), tasks, united);
    let numbers = list_preferences(alloc, inst);
    let (read, numbers) = both(read, numbers)?;
    let known = read.as_slice();
    let wanted = numbers.as_slice();
    let reads = Reads {
        read: known,
        numbers: wanted,
        resources,
    };
    pairs_with(alloc, engine, &reads)
}

/// A cost for each of the given number of tasks.
fn none_of(alloc: Global, count: usize, cost: Totals) -> Result<Seq<Totals>, NoMemory>
    ensures { IfOk result (λ none. none ≡ replicate count cost) }
{
    Ok(Seq {
        items: vec![in alloc; cost; count]?,
    })
}

/// What these tasks would cost with no resource and with each of these, where none of them has one.
pub(crate) fn table<F: Family>(
    alloc: Global,
    engine: &mut Engine<'_, F>,
    tasks: &[TaskId],
    resources: &[ResourceId],
) -> Result<Costs, NoMemory>
    requires ready { AreReady engine.old.parts resources.now engine.old.state.slots tasks.now }
    requires few_tasks { length tasks.now ≤ MATCHED_TASKS }
    requires few_resources { length resources.now ≤ RESOURCES }
    ensures costs { IfOk result (λ c. c ≡ costs_in engine.old.parts engine.old.state tasks.now resources.now) }
    ensures small { IfOk result AreCosts }
    ensures same { engine.new ≡ engine.old }
{
    let none = none_of(alloc, tasks.len(), totals(engine));
    let pairs = pairs_of(alloc, engine, tasks, resources);
    let (none, pairs) = both(none, pairs)?;
    Ok(Costs {
        tasks: tasks.len() as u32,
        resources: resources.len() as u32,
        none,
        pairs,
    })
}
