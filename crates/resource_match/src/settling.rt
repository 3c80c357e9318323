//! Tasks are settled one after the other, each by the cheapest path to a way out.

ghost use Rattle.std.specs.Prelude.{◌≡◌, ◌+◌, ◌<◌, ℕ, length, Some, None, IfOk, List, Option, false};
ghost use Rattle.std.specs.Option.{ForSome};
ghost use Rattle.resource_match.specs.Prices.{IsWithin, minus};
ghost use Rattle.resource_match.specs.Choices.{AreCosts, IsCertified, IsChoice, choice_sum, choice_at, pair_price};
ghost use Rattle.resource_match.specs.Settled.{IsSettled, path_limit};
ghost use Rattle.resource_match.specs.Exits.{AreWays};
ghost use Rattle.resource_match.specs.Room.{IsRoom};
ghost use Rattle.khe_base.specs.Totals.{is_lower};
ghost use Rattle.resource_match.specs.Trees.{AreTaskPrices, AreResourcePrices, World, IsShiftIn, IsShifted, with_owner, cost_to};

use crate::choices;
use crate::choices::Costs;
use crate::exits::{fill, price_with};
use crate::matching::Matching;
use crate::prices::Price;
use crate::search::{Label, Search, Settled, find_end};
use khe_base::{NoMemory, Seq, both};
use std::alloc::Global;

/// The prices of the tasks that were closed, after a search that ended at this cost.
fn price_tasks(
    costs: &Costs,
    labels: &[Label],
    closed: &[bool],
    prices: &mut Vec<Price>,
    total: Price,
)
    requires labels { length labels.now ≡ costs.now.tasks }
    requires closed { length closed.now ≡ costs.now.tasks }
    requires prices { length prices.old.items ≡ costs.now.tasks }
    requires small { (k : ℕ) → IsWithin path_limit (cost_to labels.now k) }
    requires total { IsWithin path_limit total }
    ensures { AreTaskPrices costs.now closed.now labels.now total prices.old.items prices.new.items }
{
    for task in 0..costs.tasks {
        let k = task as usize;
        if closed[k] {
            prices[k] = total.minus(labels[k].cost);
        }
    }
}

/// The price of a resource whose task was closed.
fn resource_price(costs: &Costs, task: u32, resource: u32, cost: Price, total: Price) -> Price
    requires costs { AreCosts costs.now }
    requires task { task < costs.now.tasks }
    requires resource { resource < costs.now.resources }
    requires cost { IsWithin path_limit cost }
    requires total { IsWithin path_limit total }
    ensures { result ≡ minus (pair_price costs.now task resource) (minus total cost) }
{
    price_with(costs, task, resource).minus(total.minus(cost))
}

/// The prices of their resources.
fn price_resources(
    costs: &Costs,
    chosen: &[Option<u32>],
    labels: &[Label],
    closed: &[bool],
    prices: &mut Vec<Price>,
    total: Price,
)
    requires costs { AreCosts costs.now }
    requires chosen { length chosen.now ≡ costs.now.tasks }
    requires labels { length labels.now ≡ costs.now.tasks }
    requires closed { length closed.now ≡ costs.now.tasks }
    requires prices { length prices.old.items ≡ costs.now.resources }
    requires range { (k r : ℕ) → choice_at chosen.now k ≡ Some r → r < costs.now.resources }
    requires once { (i k r : ℕ) → choice_at chosen.now i ≡ Some r → choice_at chosen.now k ≡ Some r → i ≡ k }
    requires small { (k : ℕ) → IsWithin path_limit (cost_to labels.now k) }
    requires total { IsWithin path_limit total }
    ensures { AreResourcePrices costs.now chosen.now closed.now labels.now total prices.old.items prices.new.items }
{
    for task in 0..costs.tasks {
        let k = task as usize;
        if closed[k] {
            if let Some(resource) = chosen[k] {
                prices[resource as usize] = resource_price(
                    costs,
                    task,
                    resource,
                    labels[k].cost,
                    total,
                );
            }
        }
    }
}

/// Makes a task the owner of what it is given.
fn own(owners: &mut Vec<Option<u32>>, given: Option<u32>, task: u32)
    requires { ForSome given (λ r. r < length owners.old.items) }
    ensures { owners.new.items ≡ with_owner owners.old.items given task }
{
    if let Some(resource) = given {
        owners[resource as usize] = Some(task);
    }
}

/// Gives the task at the end its way out, and what it had to the task before it, back to the new
/// task.
fn shift(
    chosen: &mut Vec<Option<u32>>,
    owners: &mut Vec<Option<u32>>,
    labels: &[Label],
    end: u32,
    choice: Option<u32>,
)
    requires shift { (w : World) × IsShiftIn w labels.now chosen.old.items owners.old.items end choice }
    requires labels { length labels.now ≡ length chosen.old.items }
    ensures kept { (r : ℕ) → choice_at owners.new.items r ≡ None → choice_at owners.old.items r ≡ None }
    ensures shifted { (w : World) → IsShiftIn w labels.now chosen.old.items owners.old.items end choice → IsShifted w chosen.new.items owners.new.items }
{
    let mut task = end;
    let mut given = choice;
    'path: loop {
        let had = chosen[task as usize];
        chosen[task as usize] = given;
        own(owners, given, task);
        let Some(resource) = had else { return };
        given = Some(resource);
        task = labels[task as usize].before;
    }
}

/// Settles one more task.
fn settle(costs: &Costs, matching: &mut Matching, room: &mut Search, task: u32)
    requires costs { AreCosts costs.now }
    requires task { task < costs.now.tasks }
    requires settled { IsSettled costs.now task matching.old }
    requires room { IsRoom costs.now room.old }
    requires ways { AreWays costs.now matching.old.owners.items room.old.ways.items }
    ensures settled { IsSettled costs.now (task + 1) matching.new }
    ensures room { IsRoom costs.now room.new }
    ensures ways { AreWays costs.now matching.new.owners.items room.new.ways.items }
{
    let settled = Settled {
        chosen: matching.chosen.as_slice(),
        owners: matching.owners.as_slice(),
        prices: matching.tasks.as_slice(),
    };
    let end = find_end(costs, &settled, room, task);
    price_tasks(
        costs,
        room.labels.as_slice(),
        room.closed.as_slice(),
        &mut matching.tasks,
        end.cost,
    );
    price_resources(
        costs,
        matching.chosen.as_slice(),
        room.labels.as_slice(),
        room.closed.as_slice(),
        &mut matching.resources,
        end.cost,
    );
    shift(
        &mut matching.chosen,
        &mut matching.owners,
        room.labels.as_slice(),
        end.task,
        end.choice,
    );
}

/// Settles all tasks.
fn settle_all(costs: &Costs, matching: &mut Matching, room: &mut Search)
    requires costs { AreCosts costs.now }
    requires settled { IsSettled costs.now 0 matching.old }
    requires room { IsRoom costs.now room.old }
    ensures { IsSettled costs.now costs.now.tasks matching.new }
{
    fill(costs, matching.owners.as_slice(), &mut room.ways);
    for task in 0..costs.tasks {
        settle(costs, matching, room, task);
    }
}

/// The choice and the prices of a matching.
fn choice_of(matching: Matching) -> choices::Cheapest
    ensures chosen { result.chosen ≡ matching.chosen.items }
    ensures tasks { result.task_prices ≡ matching.tasks.items }
    ensures resources { result.resource_prices ≡ matching.resources.items }
{
    let Matching {
        chosen,
        owners: _owners,
        tasks,
        resources,
    } = matching;
    choices::Cheapest {
        chosen: Seq { items: chosen },
        task_prices: Seq { items: tasks },
        resource_prices: Seq { items: resources },
    }
}

/// A choice of a resource or none for each task, of which no other has a lower sum, with prices
/// that show it.
///
/// Where memory is refused it answers `NoMemory`. It asks for memory before the first task alone: in proportion to
/// the tasks, to the resources, and for each task to the blocks of a hundred resources. Each task takes time in
/// proportion to the square of the tasks before it, and for each of them that the search reaches to the blocks of
/// resources and to those blocks whose cheapest resource was taken. No clause bounds its memory or its time.
pub fn cheapest(alloc: Global, costs: &Costs) -> Result<choices::Cheapest, NoMemory>
    requires { AreCosts costs.now }
    ensures certified { IfOk result (IsCertified costs.now) }
    ensures least { IfOk result (λ p. (other : List (Option ℕ)) → IsChoice costs.now other → is_lower (choice_sum costs.now other) (choice_sum costs.now p.chosen) ≡ false) }
{
    let (mut matching, mut room) = both(Matching::new(alloc, costs), Search::new(alloc, costs))?;
    settle_all(costs, &mut matching, &mut room);
    Ok(choice_of(matching))
}
