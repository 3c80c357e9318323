//! What every layer of the engine stands on: texts and lists that contracts see as plain lists,
//! numbers with a type of their own, costs, totals, and the limits of an instance.
#![tactic(auto)]

pub mod bits;
mod bounds;
mod costs;
pub mod digits;
mod id_sets;
pub mod limits;
mod listed_sets;
mod memory;
mod numbers;
mod results;
mod sequences;
mod sharing;
mod sums;
mod texts;
mod units;

pub use bounds::{count_out, out};
pub use costs::{CostFn, cost};
pub use id_sets::IdSet;
pub use listed_sets::ListedSet;
pub use memory::NoMemory;
pub use numbers::{EventId, GroupId, MeetId, MonitorId, ResourceId, TaskId, TimeId};
pub use results::{beside, both};
pub use sequences::Seq;
pub use sharing::lends_to_threads;
pub use sums::Totals;
pub use texts::Text;
pub use units::least_multiple;
