//! The families of the kinds at groups and at pairs of events: Spread Events, by how many meets start in each
//! listed time group; Avoid Split Assignments, by how many tasks in a role each resource has; Link Events, by
//! how many of a group's events run at each time, where an event counts once at a time, however many of its
//! meets run then; and Order Events, by the last end of one event's meets and the first start of another's,
//! kept in trees with their least, so that no walk over all others is needed when a meet goes.
#![tactic(auto)]

mod avoid_split_assignments;
mod candidates;
mod event_ranks;
mod foreseeing;
mod holder_effects;
mod least_trees;
mod link_events;
mod link_runs;
mod link_turns;
mod links;
mod meet_edges;
mod order_events;
mod order_pairs;
mod order_posts;
mod order_waits;
mod pair_lists;
mod role_places;
mod spread_effects;
mod spread_events;

pub use avoid_split_assignments::{AvoidSplitAssignments, Holders};
pub use link_events::LinkEvents;
pub use links::Links;
pub use order_events::{OrderEdges, OrderEvents};
pub use spread_events::{SpreadEvents, Starts};
