//! The monitors at resources: five kinds that are measured by how many tasks of a resource run at each
//! time, as one keeper over one timetable, and each as a family of its own; Limit Workload, by what the
//! tasks of each resource are worth together, in whole parts of one over the instance's unit; and the
//! keepers of all six kinds as one.
#![tactic(auto)]

mod cell_effects;
mod cell_turns;
mod cell_values;
mod cell_waits;
mod cells;
mod given;
mod kinds;
mod limit_workload;
mod load_effects;
mod load_posts;
mod load_turns;
mod load_values;
mod load_waits;
mod loads;
mod masks;
mod measures;
mod places;
mod posts;
mod regiven;
mod resource_keepers;
mod rooms;
mod row_measures;
mod runs;
mod shifts;
mod tables;
mod words;

pub use cells::Cells;
pub use kinds::{
    AtCells, AvoidClashes, AvoidUnavailableTimes, BusyGroups, BusyTimes, CellKinds, Clashes,
    ClusterBusyTimes, FiveKinds, IdleTimes, LimitBusyTimes, LimitIdleTimes, UnavailableTimes,
};
pub use limit_workload::{LimitWorkload, Workloads};
pub use posts::Post;
pub use resource_keepers::ResourceKeepers;
pub use runs::Run;
