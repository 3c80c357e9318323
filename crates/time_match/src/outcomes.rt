//! What a matching of the tasks of one time comes to.

use khe_base::{NoMemory, ResourceId, Seq, TaskId, Totals};
use resource_match::choices::Cheapest;

/// What a matching of the tasks of one time comes to.
pub struct Matched {
    /// The tasks, in the order of their numbers: at most 200.
    pub tasks: Seq<TaskId>,
    /// The resources of the type, in the order of their numbers.
    pub resources: Seq<ResourceId>,
    /// The cheapest choice with its prices. A resource stands by its place among those of the type.
    pub cheapest: Cheapest,
    /// What the choice costs, task by task: the totals with each of its pairs alone, added up.
    pub sum: Totals,
    /// Whether the choice was made, since the timetable then costs less than before.
    pub taken: bool,
}

// By hand: an exit of a caller then has one call to prove, and not a drop for each field.
impl Drop for Matched {
    fn drop(self) {
        let Matched {
            tasks: _tasks,
            resources: _resources,
            cheapest: _cheapest,
            sum: _sum,
            taken: _taken,
        } = self;
    }
}

/// Why there is no matching. The timetable is as it was.
#[derive(Clone, Copy)]
pub enum MatchFault {
    /// More than 200 tasks run at the time: this many.
    TooManyTasks(u32),
    /// Memory was refused.
    NoMemory,
}

impl From<NoMemory> for MatchFault {
    ghost use Rattle.std.specs.Prelude.{◌≡◌};
    ghost use Rattle.time_match.specs.declared.outcomes.MatchFault.TheVariants.{NoMemory as OutOfMemory};

    ghost from_gives = { λ _ fault. fault ≡ OutOfMemory };

    fn from(_error: NoMemory) -> MatchFault {
        MatchFault::NoMemory
    }
}
