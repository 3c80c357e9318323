//! The families of the kinds at events and at places of events, whose deviations are told by one
//! event's own meets and tasks; and the keeper that such families share: the served monitors by the
//! events that they name, and a gauge for each. It is lent the told state.
#![tactic(auto)]

mod assign_resource;
mod assign_time;
mod counted;
mod distribute_split_events;
mod effects;
mod foreseeing;
mod gauges;
mod indexes;
mod lists;
mod one_of;
mod posts;
mod prefer_resources;
mod prefer_times;
mod queueing;
mod shares;
mod split_events;
mod sums;
mod turns;

pub use assign_resource::{AssignResource, Unfilled};
pub use assign_time::{AssignTime, Unplaced};
pub use counted::Counted;
pub use distribute_split_events::{DistributeSplitEvents, OfDuration};
pub use effects::{alters_meet, alters_tasks, given_after, gives_other, names_event};
pub use gauges::Gauge;
pub use one_of::OneOf;
pub use posts::Post;
pub use prefer_resources::{Misfilled, PreferResources};
pub use prefer_times::{Misplaced, PreferTimes};
pub use shares::{Share, moves_meet, moves_tasks};
pub use split_events::{Meets, Split, SplitEvents, Unfit};
pub use sums::{Sum, Summed};
