//! Which resources have a row of counts of their own.

ghost use Rattle.std.specs.Prelude.{◌≡◌, ◌+◌, ◌^◌, ◌<◌, ◌≤◌, ℕ, length, slice_index, All, IfOk, IfSome};
ghost use Rattle.khe_base.specs.declared.limits.TheConstants.{TASKS};
ghost use Rattle.resource_deviations.specs.Rows.{AreRows, HasRow, IsResource};

use khe_base::{NoMemory, ResourceId};
use khe_instance::Duty;
use std::alloc::Global;

/// The rows of a table in which only resources with a task have a row of their own. Row 0 is that of all
/// others, and nothing is added to it.
#[derive(Drop)]
pub(crate) struct Rows {
    /// The row of each resource.
    pub of: Vec<u32>,
    /// How many rows there are.
    pub count: u32,
}

/// The rows for the resources with these tasks, numbered as the tasks first name the resources. It takes time
/// in proportion to the resources and the tasks, and memory for a number for each resource.
pub(crate) fn rows_of(alloc: Global, resources: u32, duties: &[Duty]) -> Result<Rows, NoMemory>
    requires resources { All (IsResource resources) duties.now }
    requires few { length duties.now ≤ TASKS }
    ensures rows { IfOk result (λ rows. AreRows rows.of.items rows.count) }
    ensures size { IfOk result (λ rows. length rows.of.items ≡ resources) }
    ensures there { IfOk result (λ rows. All (HasRow rows.of.items) duties.now) }
{
    let mut of = vec![in alloc; 0; resources as usize]?;
    let mut count = 1;
    for duty in duties {
        count = with_row(&mut of, count, duty);
    }
    Ok(Rows { of, count })
}

/// Sees that the resource of a task has a row of its own, and says how many rows there are then.
fn with_row(of: &mut Vec<u32>, count: u32, duty: &Duty) -> u32
    requires rows { AreRows of.old.items count }
    requires resource { IsResource (length of.old.items) duty.now }
    requires small { count + 1 < 2 ^ 32 }
    ensures rows { AreRows of.new.items result }
    ensures size { length of.new.items ≡ length of.old.items }
    ensures there { HasRow of.new.items duty.now }
    ensures kept { (r : ℕ) → 0 < slice_index of.old.items r → 0 < slice_index of.new.items r }
    ensures count { (count ≤ result) × (result ≤ count + 1) }
{
    let Some(resource) = duty.resource else {
        return count;
    };
    let place = resource.0 as usize;
    if of[place] > 0 {
        return count;
    }
    of[place] = count;
    count + 1
}

impl Rows {
    /// The number of a resource's row in its table.
    pub(crate) fn row(&self, resource: ResourceId) -> ResourceId
        requires { resource.0 < length self.now.of.items }
        ensures { result.0 ≡ slice_index self.now.of.items resource.0 }
    {
        ResourceId(self.of[resource.0 as usize])
    }
}
