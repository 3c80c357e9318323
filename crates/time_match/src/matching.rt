//! The matching of the tasks of one time.

ghost use Rattle.std.specs.Prelude.{ℕ, ◌≡◌, ◌+◌, ◌<◌, ◌≤◌, [], Some, All, AllPairs, IfOk, IfErr, OnOk, OnErr, if◌then◌else◌, length};
ghost use Rattle.khe_base.specs.Totals.{is_lower};
ghost use Rattle.khe_base.specs.declared.limits.TheConstants.{RESOURCES};
ghost use Rattle.khe_engine.specs.Values.{totals};
ghost use Rattle.resource_match.specs.Choices.{AreCosts, IsCertified, choice_at, choice_sum};
ghost use Rattle.resource_match.specs.declared.choices.TheConstants.{MATCHED_TASKS};
ghost use Rattle.time_match.specs.Costs.{bare, chosen, costs_in};
ghost use Rattle.time_match.specs.Marks.{IsBack};
ghost use Rattle.time_match.specs.Matching.{IsFaultFor, IsMatched, left_by};
ghost use Rattle.time_match.specs.Open.{AreApart, IsOpenFor};
ghost use Rattle.time_match.specs.Tasks.{matched};

use crate::asking::table;
use crate::making::{begin, give, keep, strip, take_back};
use crate::outcomes::{MatchFault, Matched};
use crate::reads::facts;
use crate::tasks::{count_tasks, list_resources, list_tasks};
use khe_base::{NoMemory, ResourceId, TaskId, TimeId, Totals, both};
use khe_engine::Engine;
use khe_told::{Family, Steps};
use resource_match::choices::{Cheapest, Costs, MATCHED_TASKS};
use resource_match::{cheapest, sum_of};
use std::alloc::Global;
use std::sync::ledger::Ledger;

/// What tasks would cost with no resource and with each of these. The timetable is as it was.
fn costs_of<F: Family, L: Ledger>(
    alloc: Global,
    engine: &mut Engine<'_, F>,
    tasks: &[TaskId],
    resources: &[ResourceId],
    steps: &mut Steps<L>,
) -> Result<Costs, NoMemory>
    requires marks { engine.old.saved ≡ [] }
    requires free { All (IsOpenFor engine.old.parts resources.now engine.old.state.slots) tasks.now }
    requires apart { AllPairs AreApart tasks.now }
    requires few_tasks { length tasks.now ≤ MATCHED_TASKS }
    requires few_resources { length resources.now ≤ RESOURCES }
    requires room { length tasks.now ≤ engine.old.spare }
    ensures costs { IfOk result (λ c. c ≡ costs_in engine.old.parts (bare engine.old.state tasks.now) tasks.now resources.now) }
    ensures small { IfOk result AreCosts }
    ensures back { IsBack engine.old engine.new }
{
    begin(engine);
    strip(engine, tasks, steps);
    let costs = table(alloc, engine, tasks, resources);
    take_back(engine, steps);
    costs
}

/// A cheapest choice, what it costs, and whether it was made.
#[derive(Drop)]
struct Choice {
    cheapest: Cheapest,
    sum: Totals,
    taken: bool,
}

/// A cheapest choice of these resources for these tasks. The timetable is as it was.
fn choose<F: Family, L: Ledger>(
    alloc: Global,
    engine: &mut Engine<'_, F>,
    tasks: &[TaskId],
    resources: &[ResourceId],
    steps: &mut Steps<L>,
) -> Result<Choice, NoMemory>
    requires marks { engine.old.saved ≡ [] }
    requires free { All (IsOpenFor engine.old.parts resources.now engine.old.state.slots) tasks.now }
    requires apart { AllPairs AreApart tasks.now }
    requires few_tasks { length tasks.now ≤ MATCHED_TASKS }
    requires few_resources { length resources.now ≤ RESOURCES }
    requires room { length tasks.now ≤ engine.old.spare }
    ensures certified { IfOk result (λ c. IsCertified (costs_in engine.old.parts (bare engine.old.state tasks.now) tasks.now resources.now) c.cheapest) }
    ensures sum { IfOk result (λ c. c.sum ≡ choice_sum (costs_in engine.old.parts (bare engine.old.state tasks.now) tasks.now resources.now) c.cheapest.chosen) }
    ensures back { IsBack engine.old engine.new }
{
    let costs = costs_of(alloc, engine, tasks, resources, steps)?;
    let cheapest = cheapest(alloc, &costs)?;
    let sum = sum_of(&costs, cheapest.chosen.as_slice());
    Ok(Choice {
        sum,
        taken: false,
        cheapest,
    })
}

/// Makes a whole choice, where the timetable then costs less, and answers whether it does.
fn take<F: Family, L: Ledger>(
    engine: &mut Engine<'_, F>,
    tasks: &[TaskId],
    resources: &[ResourceId],
    choice: &[Option<u32>],
    steps: &mut Steps<L>,
) -> bool
    requires marks { engine.old.saved ≡ [] }
    requires free { All (IsOpenFor engine.old.parts resources.now engine.old.state.slots) tasks.now }
    requires apart { AllPairs AreApart tasks.now }
    requires each { length choice.now ≡ length tasks.now }
    requires range { (k r : ℕ) → choice_at choice.now k ≡ Some r → r < length resources.now }
    requires room { length tasks.now + length tasks.now ≤ engine.old.spare }
    ensures lower { result ≡ is_lower (totals engine.old.parts (chosen (bare engine.old.state tasks.now) resources.now tasks.now choice.now)) (totals engine.old.parts engine.old.state) }
    ensures state { engine.new.state ≡ (if result then chosen (bare engine.old.state tasks.now) resources.now tasks.now choice.now else engine.old.state) }
    ensures parts { engine.new.parts ≡ engine.old.parts }
    ensures saved { engine.new.saved ≡ [] }
{
    let before = engine.totals();
    begin(engine);
    strip(engine, tasks, steps);
    give(engine, tasks, resources, choice, steps);
    if engine.totals().is_lower(before) {
        keep(engine);
        true
    } else {
        take_back(engine, steps);
        false
    }
}

/// Matches these tasks with these resources: the choice is made where the timetable then costs less.
fn match_lists<F: Family, L: Ledger>(
    alloc: Global,
    engine: &mut Engine<'_, F>,
    tasks: &[TaskId],
    resources: &[ResourceId],
    steps: &mut Steps<L>,
) -> Result<Choice, NoMemory>
    requires marks { engine.old.saved ≡ [] }
    requires free { All (IsOpenFor engine.old.parts resources.now engine.old.state.slots) tasks.now }
    requires apart { AllPairs AreApart tasks.now }
    requires few_tasks { length tasks.now ≤ MATCHED_TASKS }
    requires few_resources { length resources.now ≤ RESOURCES }
    ensures certified { IfOk result (λ c. IsCertified (costs_in engine.old.parts (bare engine.old.state tasks.now) tasks.now resources.now) c.cheapest) }
    ensures sum { IfOk result (λ c. c.sum ≡ choice_sum (costs_in engine.old.parts (bare engine.old.state tasks.now) tasks.now resources.now) c.cheapest.chosen) }
    ensures lower { IfOk result (λ c. c.taken ≡ is_lower (totals engine.old.parts (chosen (bare engine.old.state tasks.now) resources.now tasks.now c.cheapest.chosen)) (totals engine.old.parts engine.old.state)) }
    ensures state { IfOk result (λ c. engine.new.state ≡ (if c.taken then chosen (bare engine.old.state tasks.now) resources.now tasks.now c.cheapest.chosen else engine.old.state)) }
    ensures err { OnErr result (engine.new.state ≡ engine.old.state) }
    ensures parts { engine.new.parts ≡ engine.old.parts }
    ensures saved { engine.new.saved ≡ [] }
{
    engine.reserve(2 * MATCHED_TASKS)?;
    let mut choice = choose(alloc, engine, tasks, resources, steps)?;
    choice.taken = take(
        engine,
        tasks,
        resources,
        choice.cheapest.chosen.as_slice(),
        steps,
    );
    Ok(choice)
}

/// Matches the tasks, of which there are few enough.
fn match_few<F: Family, L: Ledger>(
    alloc: Global,
    engine: &mut Engine<'_, F>,
    time: TimeId,
    rtype: u32,
    steps: &mut Steps<L>,
) -> Result<Matched, NoMemory>
    requires marks { engine.old.saved ≡ [] }
    requires few { length (matched engine.old.parts engine.old.state.slots time.0 rtype) ≤ MATCHED_TASKS }
    ensures matched { IfOk result (IsMatched engine.old.parts engine.old.state time.0 rtype) }
    ensures state { IfOk result (λ m. engine.new.state ≡ left_by engine.old.parts engine.old.state time.0 rtype m) }
    ensures err { OnErr result (engine.new.state ≡ engine.old.state) }
    ensures parts { engine.new.parts ≡ engine.old.parts }
    ensures saved { engine.new.saved ≡ [] }
{
    facts(engine);
    let inst = engine.instance();
    let tasks = list_tasks(alloc, inst, engine.solution(), time, rtype);
    let resources = list_resources(alloc, inst, rtype);
    let (tasks, resources) = both(tasks, resources)?;
    let choice = match_lists(alloc, engine, tasks.as_slice(), resources.as_slice(), steps)?;
    Ok(Matched {
        sum: choice.sum,
        taken: choice.taken,
        tasks,
        resources,
        cheapest: choice.cheapest,
    })
}

/// Matches the tasks whose meets run at a time and whose places are for a resource of a type, none of them
/// preassigned, with the resources of that type: each is given one or none, and no resource twice, at the least sum of
/// what each costs by itself. What a task costs with a resource, or with none, are the totals of the timetable in
/// which the tasks have no resources but this one. Where the timetable with the whole choice costs less than before,
/// it becomes that one; else it stays as it was.
///
/// `TooManyTasks` comes exactly where more than 200 tasks run then, with their number; else the only error
/// is `NoMemory`, where memory was refused. After either the timetable is as it was. No mark is open before, and
/// none is after. No clause bounds its memory or its time: it takes memory for the table of costs, 32 bytes for each
/// task and resource, for one row of it more, for what the choice is looked for with, for the numbers of all Prefer
/// Resources and Avoid Split Assignments monitors, and for 400 records. It takes time in proportion to the task slots
/// and the monitors, for each task to those two kinds of monitors, and to the table, for each pair with the Prefer
/// Resources monitors at the task's place; and what asking for the totals after an edit takes, once for each task, and
/// for each resource once for all tasks that are alike. These run at the same times, are worth the same and are in no
/// group with an Avoid Split Assignments monitor; any other task is alike to none.
pub fn match_at<F: Family, L: Ledger>(
    alloc: Global,
    engine: &mut Engine<'_, F>,
    time: TimeId,
    rtype: u32,
    steps: &mut Steps<L>,
) -> Result<Matched, MatchFault>
    requires marks { engine.old.saved ≡ [] }
    ensures matched { IfOk result (IsMatched engine.old.parts engine.old.state time.0 rtype) }
    ensures state { IfOk result (λ m. engine.new.state ≡ left_by engine.old.parts engine.old.state time.0 rtype m) }
    ensures few { OnOk result (length (matched engine.old.parts engine.old.state.slots time.0 rtype) ≤ MATCHED_TASKS) }
    ensures fault { IfErr result (IsFaultFor (length (matched engine.old.parts engine.old.state.slots time.0 rtype))) }
    ensures err { OnErr result (engine.new.state ≡ engine.old.state) }
    ensures parts { engine.new.parts ≡ engine.old.parts }
    ensures saved { engine.new.saved ≡ [] }
{
    let count = count_tasks(engine.instance(), engine.solution(), time, rtype);
    if count > MATCHED_TASKS {
        return Err(MatchFault::TooManyTasks(count));
    }
    match match_few(alloc, engine, time, rtype, steps) {
        Ok(matched) => Ok(matched),
        Err(NoMemory) => Err(MatchFault::NoMemory),
    }
}
