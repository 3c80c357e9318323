//! What a choice costs.

ghost use Rattle.std.specs.Prelude.{◌≡◌, ◌<◌, ◌≤◌, length};
ghost use Rattle.std.specs.Option.{ForSome};
ghost use Rattle.resource_match.specs.Choices.{AreCosts, IsChoice, choice_sum, cost_at};
ghost use Rattle.resource_match.specs.Smallness.{IsSmall};

use crate::choices::Costs;
use crate::exits::{none_cost, pair_cost};
use khe_base::Totals;

/// What a task costs with a resource, or with none.
fn cost_of(costs: &Costs, task: u32, choice: Option<u32>) -> Totals
    requires costs { AreCosts costs.now }
    requires task { task < costs.now.tasks }
    requires resource { ForSome choice (λ r. r < costs.now.resources) }
    ensures is { result ≡ cost_at costs.now task choice }
    ensures small { IsSmall result }
{
    match choice {
        Some(resource) => pair_cost(costs, task, resource),
        None => none_cost(costs, task),
    }
}

/// What a choice costs: the costs of its tasks, added up by hard and by soft. Each part is at most `MATCHED_TASKS`
/// times `GREATEST_TOTAL`. It takes time in proportion to the tasks.
pub fn sum_of(costs: &Costs, choice: &[Option<u32>]) -> Totals
    requires costs { AreCosts costs.now }
    requires choice { IsChoice costs.now choice.now }
    ensures { result ≡ choice_sum costs.now choice.now }
{
    let mut sum = Totals { hard: 0, soft: 0 };
    for task in 0..choice.len() {
        let cost = cost_of(costs, task as u32, choice[task]);
        sum = Totals {
            hard: sum.hard + cost.hard,
            soft: sum.soft + cost.soft,
        };
    }
    sum
}
