//! The costs of tasks and resources, and a choice with its prices.

use crate::prices::Price;
use khe_base::{Seq, Totals};

/// The greatest number of tasks of one matching.
pub const MATCHED_TASKS: u32 = 200;

/// What each task costs with no resource, and with each resource. A cost has a hard and a soft part, each at most
/// `GREATEST_TOTAL` where a matching is asked for; costs compare by hard first, then by soft.
#[derive(Drop)]
pub struct Costs {
    /// How many tasks there are, at most `MATCHED_TASKS` where a matching is asked for.
    pub tasks: u32,
    /// How many resources there are, at most `RESOURCES` where a matching is asked for.
    pub resources: u32,
    /// What each task costs with no resource.
    pub none: Seq<Totals>,
    /// What each task costs with each resource: a row for each task, one after the other.
    pub pairs: Seq<Totals>,
}

/// A choice, and the prices that bound what any choice costs.
#[derive(Drop)]
pub struct Cheapest {
    /// The resource of each task, or none. No resource stands twice.
    pub chosen: Seq<Option<u32>>,
    /// The price of each task.
    pub task_prices: Seq<Price>,
    /// The price of each resource, none above 0.
    pub resource_prices: Seq<Price>,
}
