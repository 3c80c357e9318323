//! One meet slot as it is stored, and how a change turns it.

ghost use Rattle.std.specs.Prelude.{◌≡◌, ◌<◌, length, slice_get};
ghost use Rattle.khe_told.specs.Changes.{after, meet_of};
ghost use Rattle.khe_told.specs.Fits.{Suits};
ghost use Rattle.khe_told.specs.Slots.{slot_at};
ghost use Rattle.khe_told.specs.Stored.{slots_in, tasks_after, AreInOrder, HasTask};

use crate::changes::Change;
use crate::slots::Span;
use khe_base::{EventId, MeetId, ResourceId};

/// A meet slot as it is stored. What its places are given stands in a list of all task slots.
#[derive(Clone, Copy)]
pub(crate) struct Row {
    pub(crate) event: EventId,
    /// The number of its first task slot.
    pub(crate) first_task: u32,
    /// How many places its event has.
    pub(crate) places: u32,
    /// Its live meet.
    pub(crate) span: Option<Span>,
}

/// The row of a meet slot, or `None` where there is none of this number.
pub(crate) fn row_at(rows: &[Row], meet: MeetId) -> Option<Row>
    ensures { result ≡ slice_get rows.now meet.0 }
{
    rows.get(meet.0 as usize).copied()
}

/// Changes the row of a meet and what its task slots are given, as a change asks.
pub(crate) fn turn(rows: &mut Vec<Row>, given: &mut Vec<Option<ResourceId>>, change: Change)
    requires order { AreInOrder 0 (length given.old.items) rows.old.items }
    requires there { meet_of change < length rows.old.items }
    requires suits { Suits (slot_at (slots_in 0 rows.old.items given.old.items) (meet_of change)) change }
    ensures order { AreInOrder 0 (length given.new.items) rows.new.items }
    ensures slots { slots_in 0 rows.new.items given.new.items ≡ after (slots_in 0 rows.old.items given.old.items) change }
{
    let at = change.meet().0 as usize;
    let row = rows[at];
    rows[at] = Row {
        span: change.span_after(row.span),
        ..row
    };
    turn_tasks(given, row.first_task, change);
}

// Changes what the task slots are given by a change of the meet whose first task slot is this one.
fn turn_tasks(given: &mut Vec<Option<ResourceId>>, first: u32, change: Change)
    requires { HasTask (length given.old.items) first change }
    ensures { given.new.items ≡ tasks_after first given.old.items change }
{
    match change {
        Change::Give { task, resource } => {
            given[first as usize + task.place as usize] = Some(resource);
        }
        Change::Take { task, .. } => given[first as usize + task.place as usize] = None,
        _ => {}
    }
}
