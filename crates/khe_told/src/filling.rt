//! The rows that hold a state.

ghost use Rattle.std.specs.Prelude.{◌≡◌, ◌<◌, length, slice_set};
ghost use Rattle.khe_instance.specs.States.{IsTold};
ghost use Rattle.khe_told.specs.Filled.{filled, AreFilled};
ghost use Rattle.khe_told.specs.Naming.{AreSameBut};
ghost use Rattle.khe_told.specs.Slots.{no_meets, slot_at};
ghost use Rattle.khe_told.specs.Stored.{slots_in, AreInOrder};

use crate::naming::Places;
use crate::rows::Row;
use crate::slots::Span;
use khe_base::{MeetId, ResourceId};
use khe_instance::{Instance, Meet, Plain, Task};

/// Puts the meets and tasks of a state into rows without meets. It takes time in proportion to the
/// meets and the tasks.
pub(crate) fn put_all(
    inst: &Instance,
    rows: &mut Vec<Row>,
    given: &mut Vec<Option<ResourceId>>,
    plain: &Plain,
)
    requires order { AreInOrder 0 (length given.old.items) rows.old.items }
    requires free { slots_in 0 rows.old.items given.old.items ≡ no_meets inst.now }
    requires told { IsTold inst.now plain.now.meets plain.now.tasks }
    ensures order { AreInOrder 0 (length given.new.items) rows.new.items }
    ensures filled { AreFilled inst.now plain.now.meets plain.now.tasks (slots_in 0 rows.new.items given.new.items) }
{
    inst.facts();
    let tasks = plain.tasks.as_slice();
    let mut next = 0;
    for meet in plain.meets.as_slice() {
        let places = inst.event(meet.event).places.len();
        put(rows, given, meet, &tasks[next..next + places]);
        next += places;
    }
}

/// Puts a meet and its tasks into the meet's slot.
fn put(rows: &mut Vec<Row>, given: &mut Vec<Option<ResourceId>>, meet: &Meet, tasks: &[Task])
    requires order { AreInOrder 0 (length given.old.items) rows.old.items }
    requires there { meet.now.meet.0 < length rows.old.items }
    requires many { length tasks.now ≡ length (slot_at (slots_in 0 rows.old.items given.old.items) meet.now.meet.0).given }
    ensures order { AreInOrder 0 (length given.new.items) rows.new.items }
    ensures slots { slots_in 0 rows.new.items given.new.items ≡ slice_set (slots_in 0 rows.old.items given.old.items) meet.now.meet.0 (filled (slot_at (slots_in 0 rows.old.items given.old.items) meet.now.meet.0) meet.now tasks.now) }
{
    let at = meet.meet.0 as usize;
    let row = rows[at];
    rows[at] = Row {
        span: Some(Span {
            duration: meet.duration,
            start: meet.start,
        }),
        ..row
    };
    for (place, task) in tasks.iter().enumerate() {
        given[row.first_task as usize + place] = task.resource;
    }
}

/// Puts a meet, or none, and what its places are given into a slot, where no other places than these are given
/// something else.
pub(crate) fn refill(
    rows: &mut Vec<Row>,
    given: &mut Vec<Option<ResourceId>>,
    meet: MeetId,
    span: Option<Span>,
    resources: &[Option<ResourceId>],
    places: Places,
)
    requires order { AreInOrder 0 (length given.old.items) rows.old.items }
    requires there { meet.0 < length rows.old.items }
    requires many { length resources.now ≡ length (slot_at (slots_in 0 rows.old.items given.old.items) meet.0).given }
    requires elsewhere { AreSameBut places (slot_at (slots_in 0 rows.old.items given.old.items) meet.0).given resources.now }
    ensures order { AreInOrder 0 (length given.new.items) rows.new.items }
    ensures slots { slots_in 0 rows.new.items given.new.items ≡ slice_set (slots_in 0 rows.old.items given.old.items) meet.0 (record (slot_at (slots_in 0 rows.old.items given.old.items) meet.0) { span = span; given = resources.now }) }
{
    let at = meet.0 as usize;
    let row = rows[at];
    rows[at] = Row { span, ..row };
    let mut place = places.next(0);
    while place < resources.len() {
        given[row.first_task as usize + place] = resources[place];
        place = places.next(place + 1);
    }
}
