//! The search for the cheapest path from a new task to a way out: each step of it gives a task the
//! resource of another, which is then without.

ghost use Rattle.std.specs.Prelude.{◌≡◌, ◌+◌, ◌*◌, ◌^◌, ◌<◌, ◌≤◌, ℕ, true, false, length, slice_index, MatchOption, Some, None, Option, IfOk, replicate};
ghost use Rattle.khe_base.specs.declared.limits.TheConstants.{GREATEST_TOTAL};
ghost use Rattle.resource_match.specs.Prices.{IsWithin, IsAtMost, price_at};
ghost use Rattle.resource_match.specs.Choices.{AreCosts, choice_at};
ghost use Rattle.resource_match.specs.Settled.{IsMatching, HasPrices, path_limit, task_limit};
ghost use Rattle.resource_match.specs.Exits.{AreWays};
ghost use Rattle.resource_match.specs.Room.{IsRoom};
ghost use Rattle.resource_match.specs.Smallness.{IsSmall};
ghost use Rattle.resource_match.specs.Trees.{IsFirst, IsFollowed, IsBetter, IsNearer, IsNearest, IsBetterEnd, IsWholeTree, label_at, cost_to, key_of, flag, through};

use crate::choices::Costs;
use crate::exits::{Exit, block_count, exit_of, price_with};
use crate::prices::Price;
use khe_base::{NoMemory, Totals, both};
use std::alloc::Global;

/// The cheapest path to a task that was found so far: what it costs, the task before, and how many
/// steps it has.
#[derive(Clone, Copy)]
pub(crate) struct Label {
    pub(crate) cost: Price,
    pub(crate) before: u32,
    pub(crate) steps: u32,
}

/// The labels of the tasks, which of them wait, which are closed, and the cheapest resources of
/// blocks.
pub(crate) struct Search {
    pub(crate) labels: Vec<Label>,
    pub(crate) waiting: Vec<bool>,
    pub(crate) closed: Vec<bool>,
    pub(crate) ways: Vec<Exit>,
}

// By hand: an exit of a caller then has one call to prove, and not a drop for each field.
impl Drop for Search {
    fn drop(self) {
        let Search {
            labels: _labels,
            waiting: _waiting,
            closed: _closed,
            ways: _ways,
        } = self;
    }
}

/// The cheapest way out that was found so far: the task at the end of the path, what it is given,
/// and what all of the path costs.
#[derive(Clone, Copy)]
pub(crate) struct End {
    pub(crate) task: u32,
    pub(crate) choice: Option<u32>,
    pub(crate) cost: Price,
}

/// A task, and what the path to it costs with its price.
#[derive(Clone, Copy)]
pub(crate) struct Near {
    pub(crate) task: u32,
    pub(crate) key: Price,
}

impl Search {
    /// Room for the labels and marks of all tasks.
    pub(crate) fn new(alloc: Global, costs: &Costs) -> Result<Search, NoMemory>
        requires { AreCosts costs.now }
        ensures { IfOk result (IsRoom costs.now) }
    {
        let tasks = costs.tasks as usize;
        let label = Label {
            cost: Price::nothing(),
            before: 0,
            steps: 0,
        };
        let labels = no_labels(alloc, tasks, label);
        let marks = both(no_marks(alloc, tasks), no_marks(alloc, tasks));
        let ways = no_ways(alloc, tasks * block_count(costs) as usize);
        let ((labels, ways), (waiting, closed)) = both(both(labels, ways), marks)?;
        Ok(Search {
            labels,
            waiting,
            closed,
            ways,
        })
    }
}

/// This label, the given number of times.
fn no_labels(alloc: Global, count: usize, label: Label) -> Result<Vec<Label>, NoMemory>
    ensures { IfOk result (λ v. length v.items ≡ count) }
{
    Ok(vec![in alloc; label; count]?)
}

/// Room for the given number of ways out.
fn no_ways(alloc: Global, count: usize) -> Result<Vec<Exit>, NoMemory>
    ensures { IfOk result (λ v. length v.items ≡ count) }
{
    let exit = Exit {
        choice: None,
        cost: Totals { hard: 0, soft: 0 },
    };
    Ok(vec![in alloc; exit; count]?)
}

/// The given number of marks, none set.
fn no_marks(alloc: Global, count: usize) -> Result<Vec<bool>, NoMemory>
    ensures { IfOk result (λ v. length v.items ≡ count) }
{
    Ok(vec![in alloc; false; count]?)
}

/// What a path costs that goes on from a task by the resource of another.
fn step(costs: &Costs, cost: Price, from: u32, resource: u32, to: u32) -> Price
    requires costs { AreCosts costs.now }
    requires cost { IsWithin path_limit cost }
    requires from { from < costs.now.tasks }
    requires resource { resource < costs.now.resources }
    requires to { to < costs.now.tasks }
    ensures { result ≡ through costs.now cost from resource to }
{
    cost.plus(price_with(costs, from, resource))
        .minus(price_with(costs, to, resource))
}

/// The labels and marks of all tasks: paths of one step from the new task to the tasks that have
/// a resource.
fn start(
    costs: &Costs,
    chosen: &[Option<u32>],
    labels: &mut Vec<Label>,
    waiting: &mut Vec<bool>,
    closed: &mut Vec<bool>,
    task: u32,
)
    requires costs { AreCosts costs.now }
    requires task { task < costs.now.tasks }
    requires chosen { length chosen.now ≡ costs.now.tasks }
    requires labels { length labels.old.items ≡ costs.now.tasks }
    requires waiting { length waiting.old.items ≡ costs.now.tasks }
    requires closed { length closed.old.items ≡ costs.now.tasks }
    requires range { (k r : ℕ) → choice_at chosen.now k ≡ Some r → r < costs.now.resources }
    ensures labels { length labels.new.items ≡ costs.now.tasks }
    ensures waiting { length waiting.new.items ≡ costs.now.tasks }
    ensures closed { length closed.new.items ≡ costs.now.tasks }
    ensures first { (k : ℕ) → k < costs.now.tasks → IsFirst costs.now chosen.now task k (label_at labels.new.items k) (flag waiting.new.items k) (flag closed.new.items k) }
{
    for other in 0..costs.tasks {
        let k = other as usize;
        closed[k] = other == task;
        match chosen[k] {
            Some(resource) => {
                labels[k] = Label {
                    cost: step(costs, Price::nothing(), task, resource, other),
                    before: task,
                    steps: 1,
                };
                waiting[k] = true;
            }
            None => {
                labels[k] = Label {
                    cost: Price::nothing(),
                    before: task,
                    steps: 0,
                };
                waiting[k] = false;
            }
        }
    }
}

/// The nearer of a task that was found and another.
fn nearer(best: Option<Near>, task: u32, key: Price) -> Near
    ensures { IsNearer best task key result }
{
    match best {
        Some(near) => {
            if key.is_below(near.key) {
                Near { task, key }
            } else {
                near
            }
        }
        None => Near { task, key },
    }
}

/// The waiting task at which a path with the price of the task is cheapest.
fn nearest(labels: &[Label], waiting: &[bool], prices: &[Price]) -> Option<Near>
    requires few { length waiting.now < 2 ^ 32 }
    requires labels { length labels.now ≡ length waiting.now }
    requires prices { length prices.now ≡ length waiting.now }
    requires small_labels { (k : ℕ) → IsWithin path_limit (cost_to labels.now k) }
    requires small_prices { (k : ℕ) → IsWithin task_limit (price_at prices.now k) }
    ensures { IsNearest labels.now waiting.now prices.now (length waiting.now) result }
{
    let mut best = None;
    for k in 0..waiting.len() {
        if waiting[k] {
            let key = labels[k].cost.plus(prices[k]);
            best = Some(nearer(best, k as u32, key));
        }
    }
    best
}

/// The better of the path to a task and one by way of another task.
fn better(costs: &Costs, from: Label, task: u32, resource: u32, other: u32, old: Label) -> Label
    requires costs { AreCosts costs.now }
    requires cost { IsWithin path_limit from.cost }
    requires steps { from.steps < 2 ^ 31 }
    requires task { task < costs.now.tasks }
    requires resource { resource < costs.now.resources }
    requires other { other < costs.now.tasks }
    ensures { IsBetter costs.now from task other resource old result }
{
    let cost = step(costs, from.cost, task, resource, other);
    if cost.is_below(old.cost) {
        Label {
            cost,
            before: task,
            steps: from.steps + 1,
        }
    } else {
        old
    }
}

/// Better paths to the waiting tasks, by way of a task with this label.
fn follow(
    costs: &Costs,
    chosen: &[Option<u32>],
    waiting: &[bool],
    labels: &mut Vec<Label>,
    from: Label,
    task: u32,
)
    requires costs { AreCosts costs.now }
    requires task { task < costs.now.tasks }
    requires chosen { length chosen.now ≡ costs.now.tasks }
    requires labels { length labels.old.items ≡ costs.now.tasks }
    requires waiting { length waiting.now ≡ costs.now.tasks }
    requires range { (k r : ℕ) → choice_at chosen.now k ≡ Some r → r < costs.now.resources }
    requires small { IsWithin path_limit from.cost }
    requires few { from.steps < 2 ^ 31 }
    ensures labels { length labels.new.items ≡ costs.now.tasks }
    ensures followed { (k : ℕ) → k < costs.now.tasks → IsFollowed costs.now chosen.now waiting.now from task k (label_at labels.old.items k) (label_at labels.new.items k) }
{
    for other in 0..costs.tasks {
        let k = other as usize;
        if waiting[k] {
            if let Some(resource) = chosen[k] {
                let old = labels[k];
                labels[k] = better(costs, from, task, resource, other, old);
            }
        }
    }
}

/// The better of the end that was found and a way out of another task, to which a path costs this.
fn better_end(end: End, task: u32, cost: Price, exit: Exit) -> End
    requires cost { IsWithin path_limit cost }
    requires exit { IsSmall exit.cost }
    ensures { IsBetterEnd end task cost exit.choice exit.cost result }
{
    let total = cost.plus(Price::of(exit.cost));
    if total.is_below(end.cost) {
        End {
            task,
            choice: exit.choice,
            cost: total,
        }
    } else {
        end
    }
}

/// The tasks that are settled, as a search sees them: what each has, which has each resource, and the
/// prices of the tasks.
#[derive(Drop)]
pub(crate) struct Settled<'a> {
    pub(crate) chosen: &'a [Option<u32>],
    pub(crate) owners: &'a [Option<u32>],
    pub(crate) prices: &'a [Price],
}

/// The end of the cheapest path from a new task to a way out, over the tasks that are settled.
pub(crate) fn find_end(costs: &Costs, settled: &Settled<'_>, room: &mut Search, task: u32) -> End
    requires costs { AreCosts costs.now }
    requires task { task < costs.now.tasks }
    requires matching { IsMatching costs.now task settled.now.chosen.now settled.now.owners.now }
    requires prices { HasPrices costs.now task settled.now.chosen.now settled.now.owners.now settled.now.prices.now }
    requires room { IsRoom costs.now room.old }
    requires ways { AreWays costs.now settled.now.owners.now room.old.ways.items }
    ensures ways { AreWays costs.now settled.now.owners.now room.new.ways.items }
    ensures tree { IsWholeTree costs.now task settled.now.chosen.now settled.now.owners.now settled.now.prices.now room.new.waiting.items room.new.closed.items room.new.labels.items result }
{
    start(
        costs,
        settled.chosen,
        &mut room.labels,
        &mut room.waiting,
        &mut room.closed,
        task,
    );
    let exit = exit_of(costs, settled.owners, &mut room.ways, task);
    let mut end = End {
        task,
        choice: exit.choice,
        cost: Price::of(exit.cost),
    };
    while let Some(near) = nearest(
        room.labels.as_slice(),
        room.waiting.as_slice(),
        settled.prices,
    ) {
        if !near.key.is_below(end.cost) {
            break;
        }
        let next = near.task;
        room.waiting[next as usize] = false;
        room.closed[next as usize] = true;
        let label = room.labels[next as usize];
        let way = exit_of(costs, settled.owners, &mut room.ways, next);
        end = better_end(end, next, label.cost, way);
        follow(
            costs,
            settled.chosen,
            room.waiting.as_slice(),
            &mut room.labels,
            label,
            next,
        );
    }
    end
}
