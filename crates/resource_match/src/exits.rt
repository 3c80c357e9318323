//! The cheapest way out of a task: no resource, or a free one.

ghost use Rattle.std.specs.Prelude.{◌≡◌, ◌<◌, ◌+◌, ◌*◌, ◌⊎◌, length, None, Some, MatchOption};
ghost use Rattle.std.specs.Bool.{OnFalse};
ghost use Rattle.std.specs.Option.{ForSome};
ghost use Rattle.khe_base.specs.declared.limits.TheConstants.{GREATEST_TOTAL};
ghost use Rattle.resource_match.specs.Smallness.{IsSmall};
ghost use Rattle.resource_match.specs.Prices.{IsWithin, IsAtMost, price_of};
ghost use Rattle.resource_match.specs.Choices.{AreCosts, cost_at, pair_price};
ghost use Rattle.resource_match.specs.Exits.{IsCheapestOut, IsBetterWay, IsLeast, IsIn, IsFree, AreWays, blocks_of};

use crate::choices::Costs;
use crate::prices::Price;
use khe_base::Totals;

/// How many resources stand in a block, of which the cheapest free one is kept for each task.
const BLOCK: u32 = 100;

/// No resource or a free one, and what the task costs with it.
#[derive(Clone, Copy)]
pub(crate) struct Exit {
    pub(crate) choice: Option<u32>,
    pub(crate) cost: Totals,
}

/// What a task costs with no resource.
pub(crate) fn none_cost(costs: &Costs, task: u32) -> Totals
    requires costs { AreCosts costs.now }
    requires task { task < costs.now.tasks }
    ensures is { result ≡ cost_at costs.now task None }
    ensures small { IsSmall result }
{
    costs.none.as_slice()[task as usize]
}

/// What a task costs with a resource.
pub(crate) fn pair_cost(costs: &Costs, task: u32, resource: u32) -> Totals
    requires costs { AreCosts costs.now }
    requires task { task < costs.now.tasks }
    requires resource { resource < costs.now.resources }
    ensures is { result ≡ cost_at costs.now task (Some resource) }
    ensures small { IsSmall result }
{
    costs.pairs.as_slice()[task as usize * costs.resources as usize + resource as usize]
}

/// What a task costs with a resource, as a price.
pub(crate) fn price_with(costs: &Costs, task: u32, resource: u32) -> Price
    requires costs { AreCosts costs.now }
    requires task { task < costs.now.tasks }
    requires resource { resource < costs.now.resources }
    ensures is { result ≡ pair_price costs.now task resource }
    ensures small { IsWithin GREATEST_TOTAL result }
{
    Price::of(pair_cost(costs, task, resource))
}

/// The better of a way out and another free resource.
fn better_way(old: Exit, resource: u32, cost: Totals) -> Exit
    ensures { IsBetterWay old resource cost result }
{
    let new = Exit {
        choice: Some(resource),
        cost,
    };
    match old.choice {
        Some(_) => { if cost.is_lower(old.cost) { new } else { old } }
        None => new,
    }
}

/// The cheapest free resource of a block. It takes time in proportion to the block.
fn way_in(costs: &Costs, owners: &[Option<u32>], task: u32, block: u32) -> Exit
    requires costs { AreCosts costs.now }
    requires owners { length owners.now ≡ costs.now.resources }
    requires task { task < costs.now.tasks }
    requires block { block < blocks_of costs.now }
    ensures least { IsLeast costs.now owners.now task (IsIn block) result }
    ensures free { IsFree owners.now result.choice }
{
    let mut way = Exit {
        choice: None,
        cost: Totals { hard: 0, soft: 0 },
    };
    let first = block * BLOCK;
    let end = (first + BLOCK).min(costs.resources);
    for resource in first..end {
        if owners[resource as usize].is_none() {
            way = better_way(way, resource, pair_cost(costs, task, resource));
        }
    }
    way
}

/// Where the cheapest resource of a block is kept for a task.
fn place_of(costs: &Costs, task: u32, block: u32) -> usize
    requires costs { AreCosts costs.now }
    requires task { task < costs.now.tasks }
    requires block { block < blocks_of costs.now }
    ensures { result ≡ task * blocks_of costs.now + block }
{
    task as usize * block_count(costs) as usize + block as usize
}

/// How many blocks of resources there are, the last of them maybe empty.
pub(crate) fn block_count(costs: &Costs) -> u32
    ensures { result ≡ blocks_of costs.now }
{
    costs.resources / BLOCK + 1
}

/// Looks at all resources of all tasks.
pub(crate) fn fill(costs: &Costs, owners: &[Option<u32>], ways: &mut Vec<Exit>)
    requires costs { AreCosts costs.now }
    requires owners { length owners.now ≡ costs.now.resources }
    requires ways { length ways.old.items ≡ costs.now.tasks * blocks_of costs.now }
    ensures { AreWays costs.now owners.now ways.new.items }
{
    let blocks = block_count(costs);
    for place in 0..costs.tasks * blocks {
        let way = way_in(costs, owners, place / blocks, place % blocks);
        ways[place as usize] = way;
    }
}

/// Whether a resource has an owner, where there is one.
fn is_taken(owners: &[Option<u32>], choice: Option<u32>) -> bool
    requires { ForSome choice (λ r. r < length owners.now) }
    ensures { OnFalse result (IsFree owners.now choice) }
{
    match choice {
        Some(resource) => owners[resource as usize].is_some(),
        None => false,
    }
}

/// The cheapest free resource of a block: the one that is kept, or if it was taken another, which
/// is kept then.
fn fresh_way(
    costs: &Costs,
    owners: &[Option<u32>],
    ways: &mut Vec<Exit>,
    task: u32,
    block: u32,
) -> Exit
    requires costs { AreCosts costs.now }
    requires owners { length owners.now ≡ costs.now.resources }
    requires ways { AreWays costs.now owners.now ways.old.items }
    requires task { task < costs.now.tasks }
    requires block { block < blocks_of costs.now }
    ensures least { IsLeast costs.now owners.now task (IsIn block) result }
    ensures free { IsFree owners.now result.choice }
    ensures ways { AreWays costs.now owners.now ways.new.items }
{
    let place = place_of(costs, task, block);
    let kept = ways[place];
    if !is_taken(owners, kept.choice) {
        return kept;
    }
    let way = way_in(costs, owners, task, block);
    ways[place] = way;
    way
}

/// The cheaper of two ways out, of which the second may be none at all.
fn cheaper(exit: Exit, way: Exit) -> Exit
    ensures { MatchOption way.choice (result ≡ exit) (λ _. ((result ≡ way) × IsAtMost (price_of way.cost) (price_of exit.cost)) ⊎ ((result ≡ exit) × IsAtMost (price_of exit.cost) (price_of way.cost))) }
{
    match way.choice {
        Some(_) => {
            if way.cost.is_lower(exit.cost) {
                way
            } else {
                exit
            }
        }
        None => exit,
    }
}

/// The cheapest way out of a task. It takes time in proportion to the blocks, and to the resources of the
/// blocks whose cheapest one was taken.
pub(crate) fn exit_of(
    costs: &Costs,
    owners: &[Option<u32>],
    ways: &mut Vec<Exit>,
    task: u32,
) -> Exit
    requires costs { AreCosts costs.now }
    requires owners { length owners.now ≡ costs.now.resources }
    requires ways { AreWays costs.now owners.now ways.old.items }
    requires task { task < costs.now.tasks }
    ensures is { IsCheapestOut costs.now owners.now task result.choice result.cost }
    ensures small { IsSmall result.cost }
    ensures ways { AreWays costs.now owners.now ways.new.items }
{
    let mut exit = Exit {
        choice: None,
        cost: none_cost(costs, task),
    };
    for block in 0..block_count(costs) {
        exit = cheaper(exit, fresh_way(costs, owners, ways, task, block));
    }
    exit
}
