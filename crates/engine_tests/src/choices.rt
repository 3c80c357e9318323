//! Cheapest choices.

ghost use Rattle.std.specs.Prelude.{◌≡◌, ◌*◌, ◌≤◌, ℕ, length, slice_index_or, IfOk};
ghost use Rattle.resource_match.specs.Choices.{AreCosts, IsCertified, no_cost};
ghost use Rattle.resource_match.specs.Smallness.{IsSmall};

use khe_base::{NoMemory, Seq, Totals};
use resource_match::choices::{Cheapest, Costs};
use resource_match::prices::Price;
use resource_match::{cheapest, sum_of};
use std::alloc::Global;

// Costs with these hard parts, and no soft ones.
fn hard(alloc: Global, parts: &[u8]) -> Result<Seq<Totals>, NoMemory>
    ensures long { IfOk result (λ costs. length costs ≡ length parts.now) }
    ensures small { IfOk result (λ costs. (i : ℕ) → IsSmall (slice_index_or costs i no_cost)) }
{
    let mut costs = Vec::new(alloc);
    for part in parts {
        costs.push(Totals {
            hard: u128::from(*part),
            soft: 0,
        })?;
    }
    Ok(Seq { items: costs })
}

fn costs_of(
    alloc: Global,
    tasks: u32,
    resources: u32,
    none: &[u8],
    pairs: &[u8],
) -> Result<Costs, NoMemory>
    requires tasks { tasks ≤ 200 }
    requires resources { resources ≤ 10000 }
    requires none { length none.now ≡ tasks }
    requires pairs { length pairs.now ≡ tasks * resources }
    ensures { IfOk result AreCosts }
{
    let none = hard(alloc, none)?;
    let pairs = hard(alloc, pairs)?;
    Ok(Costs {
        tasks,
        resources,
        none,
        pairs,
    })
}

// Whether this is chosen, at this sum, which all prices add to.
fn shows(costs: &Costs, found: &Cheapest, chosen: &[Option<u32>], sum: u8) -> bool
    requires costs { AreCosts costs.now }
    requires found { IsCertified costs.now found.now }
{
    let total = sum_of(costs, found.chosen.as_slice());
    found.chosen.as_slice() == chosen
        && total.hard == u128::from(sum)
        && total.soft == 0
        && together(
            found.task_prices.as_slice(),
            found.resource_prices.as_slice(),
        ) == i128::from(sum)
}

// The hard parts of all prices together.
fn together(tasks: &[Price], resources: &[Price]) -> i128 {
    let mut sum = 0i128;
    for price in tasks {
        sum = sum.saturating_add(price.hard);
    }
    for price in resources {
        sum = sum.saturating_add(price.hard);
    }
    sum
}

/// Whether the cheapest choice is this one, at this sum.
fn shows_cheapest(alloc: Global, costs: &Costs, chosen: &[Option<u32>], sum: u8) -> bool
    requires { AreCosts costs.now }
{
    match cheapest(alloc, costs) {
        Ok(found) => shows(costs, &found, chosen, sum),
        Err(NoMemory) => false,
    }
}

/// Each task by itself would take the first resource: the first to come would leave the other one 5.
#[test]
fn a_task_leaves_its_cheapest_resource(rt: HostRuntime) -> Result<(), NoMemory> {
    let costs = costs_of(rt.alloc(), 2, 2, &[9, 9], &[1, 2, 1, 5])?;
    let is_right = shows_cheapest(rt.alloc(), &costs, &[Some(1), Some(0)], 3);
    assert!(rt; is_right);
    Ok(())
}

/// A task goes without where each resource costs it more than none.
#[test]
fn a_task_goes_without(rt: HostRuntime) -> Result<(), NoMemory> {
    let costs = costs_of(rt.alloc(), 2, 1, &[3, 2], &[1, 1])?;
    let is_right = shows_cheapest(rt.alloc(), &costs, &[Some(0), None], 3);
    assert!(rt; is_right);
    Ok(())
}
