//! The keepers of the kinds at resources as one.

use crate::kinds::AtCells;
use crate::limit_workload::Workloads;
use family_keepers::{Keeper, TwoKeepers};
use khe_base::NoMemory;
use khe_instance::Instance;
use std::alloc::Global;

/// The keepers of all six kinds at resources, of which no two serve one kind. Five of them share one timetable.
/// They come last, because measuring begins with the monitor that was queued last, and clashes are what an edit
/// of a resource's tasks most often costs.
pub type ResourceKeepers = TwoKeepers<Workloads, AtCells>;

/// Opens them: that they are well joined is what this call requires. No program calls it.
#[allow(dead_code)]
fn open_keepers(alloc: Global, inst: &Instance) -> Result<ResourceKeepers, NoMemory> {
    ResourceKeepers::open(alloc, inst)
}
