//! The rows of an instance without meets.

ghost use Rattle.std.specs.Prelude.{◌≡◌, ◌*◌, None, length, replicate, IfOk};
ghost use Rattle.std.specs.List.{sum_by};
ghost use Rattle.khe_told.specs.Slots.{no_meets};
ghost use Rattle.khe_told.specs.Stored.{free_slots, AreInOrder};

use crate::rows::Row;
use khe_base::{MeetId, NoMemory, ResourceId};
use khe_instance::Instance;
use std::alloc::Global;

/// The rows of all meet slots, which are free. It takes time and memory in proportion to the meet
/// slots.
pub(crate) fn rows_of(alloc: Global, inst: &Instance) -> Result<Vec<Row>, NoMemory>
    ensures slots { IfOk result (λ rows. free_slots 0 rows.items ≡ no_meets inst.now) }
    ensures order { IfOk result (λ rows. AreInOrder 0 (sum_by (λ e. e.duration * length e.places) inst.now.events) rows.items) }
{
    inst.facts();
    let mut rows = Vec::new(alloc);
    for number in 0..inst.meet_slots() {
        let meet = MeetId(number);
        let event = inst.event_of(meet);
        rows.push(Row {
            event,
            first_task: inst.first_task(meet),
            places: inst.event(event).places.len() as u32,
            span: None,
        })?;
    }
    Ok(rows)
}

/// The given number of task slots to which nothing is given.
pub(crate) fn no_tasks(alloc: Global, tasks: u32) -> Result<Vec<Option<ResourceId>>, NoMemory>
    ensures { IfOk result (λ given. given.items ≡ replicate tasks None) }
{
    let mut given = Vec::new(alloc);
    for _ in 0..tasks {
        given.push(None)?;
    }
    Ok(given)
}
