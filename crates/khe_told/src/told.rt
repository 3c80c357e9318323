//! The told state: the meets and tasks after all changes so far.

ghost use Rattle.std.specs.Prelude.{◌≡◌, ◌<◌, ◌≤◌, length, slice_get, slice_set, IfOk, MatchOption, Some};
ghost use Rattle.khe_instance.specs.States.{IsTold};
ghost use Rattle.khe_told.specs.Slots.{emptied, length_of, no_meets, no_slot, slot_at};
ghost use Rattle.khe_told.specs.Effects.{effect_on, given_with};
ghost use Rattle.khe_told.specs.Turns.{turn_to};
ghost use Rattle.khe_told.specs.Naming.{AreSameBut};
ghost use Rattle.khe_told.specs.Lists.{meet_in, meets_in, tasks_in};
ghost use Rattle.khe_told.specs.Changes.{after};
ghost use Rattle.khe_told.specs.Fits.{AreTold, Fits};
ghost use Rattle.khe_told.specs.Stored.{IsRowOf};

use crate::changes::Change;
use crate::effects::{Effect, Regiven};
use crate::filling::{put_all, refill};
use crate::naming::Places;
use crate::opening::{no_tasks, rows_of};
use crate::rows::{Row, row_at, turn};
use crate::slots::Span;
use crate::turns::{Turn, differ, is_moved, is_resized};
use khe_base::{EventId, MeetId, NoMemory, ResourceId, TaskId};
use khe_instance::{Instance, Meet, Plain};
use std::alloc::Global;
use std::marker::Model;

/// The meets and tasks that were told. Contracts see the list of slots.
///
/// It keeps one row for each meet slot and one entry for each task slot, a few bytes each. No call
/// but `open` and `from_plain` takes memory. Each takes constant time, but for those two, and for
/// `turn_to` and `follow`, which go through the places that they are given.
#[derive(Drop)]
pub struct Told {
    rows: Vec<Row>,
    /// What each task slot is given.
    given: Vec<Option<ResourceId>>,
}

impl Model for Told {
    ghost use Rattle.std.specs.Prelude.{List, length};
    ghost use Rattle.khe_told.specs.Stored.{slots_in, AreInOrder};
    ghost use Rattle.khe_told.specs.declared.slots.Slot.{Slot};

    ghost Value = { List Slot };

    ghost view = { λ t. slots_in 0 t.rows.items t.given.items };

    ghost invariant = { λ t. AreInOrder 0 (length t.given.items) t.rows.items };
}

impl Told {
    /// No meets. It takes time and memory in proportion to the meet slots and the task slots.
    pub fn open(alloc: Global, inst: &Instance) -> Result<Told, NoMemory>
        ensures { IfOk result (λ t. t ≡ no_meets inst.now) }
    {
        let rows = rows_of(alloc, inst)?;
        let given = no_tasks(alloc, inst.task_slots())?;
        Ok(Told { rows, given })
    }

    /// The meets and tasks of a state. It takes time and memory in proportion to the meet slots and
    /// the task slots.
    pub fn from_plain(alloc: Global, inst: &Instance, plain: &Plain) -> Result<Told, NoMemory>
        requires { IsTold inst.now plain.now.meets plain.now.tasks }
        ensures told { IfOk result (λ t. AreTold inst.now t) }
        ensures meets { IfOk result (λ t. meets_in t ≡ plain.now.meets) }
        ensures tasks { IfOk result (λ t. tasks_in t ≡ plain.now.tasks) }
    {
        inst.facts();
        let mut told = Told::open(alloc, inst)?;
        put_all(inst, &mut told.rows, &mut told.given, plain);
        Ok(told)
    }

    /// How many meet slots there are.
    pub fn len(&self) -> usize
        ensures { result ≡ length self.now }
    {
        self.rows.len()
    }

    /// The stored row of a meet slot.
    fn row(&self, meet: MeetId) -> Option<Row>
        ensures { MatchOption result
            ((length self.now ≤ meet.0) × (slot_at self.now meet.0 ≡ no_slot))
            (λ row. IsRowOf row meet.0 (slot_at self.now meet.0)) }
    {
        row_at(&self.rows, meet)
    }

    /// The event of a meet slot.
    pub fn event(&self, meet: MeetId) -> EventId
        requires { meet.0 < length self.now }
        ensures { result ≡ (slot_at self.now meet.0).event }
    {
        let Some(row) = self.row(meet) else {
            unreachable!()
        };
        row.event
    }

    /// The duration and the start of a told meet, or `None` where no told meet has the number.
    pub fn span(&self, meet: MeetId) -> Option<Span>
        ensures { result ≡ (slot_at self.now meet.0).span }
    {
        self.row(meet)?.span
    }

    /// How long a told meet is, and 0 where no told meet has the number.
    pub fn duration(&self, meet: MeetId) -> u32
        ensures { result ≡ length_of (slot_at self.now meet.0) }
    {
        match self.span(meet) {
            Some(span) => span.duration,
            None => 0,
        }
    }

    /// What each place of a meet slot is given, in order: nothing at all where the slot is free,
    /// and the empty list where no slot has the number.
    pub fn given(&self, meet: MeetId) -> &[Option<ResourceId>]
        ensures { result.now ≡ (slot_at self.now meet.0).given }
    {
        let Some(row) = row_at(&self.rows, meet) else {
            return &[];
        };
        let first = row.first_task as usize;
        &self.given[first..first + row.places as usize]
    }

    /// The told meet, or `None` where no told meet has the number.
    pub fn meet(&self, meet: MeetId) -> Option<Meet>
        ensures { result ≡ meet_in (slot_at self.now meet.0) }
    {
        let row = self.row(meet)?;
        let span = row.span?;
        Some(Meet {
            meet,
            event: row.event,
            duration: span.duration,
            start: span.start,
        })
    }

    /// What a task is given, or `None` where it has no resource.
    pub fn resource(&self, task: TaskId) -> Option<ResourceId>
        requires meet { task.meet.0 < length self.now }
        requires place { task.place < length (slot_at self.now task.meet.0).given }
        ensures { slice_get (slot_at self.now task.meet.0).given task.place ≡ Some result }
    {
        self.given(task.meet)[task.place as usize]
    }

    /// The turn of a meet slot when it is copied from another state, which may differ in what it gives at these
    /// places alone. It takes the time of comparing what these places are given.
    pub fn turn_to<'a>(&'a self, next: &'a Told, meet: MeetId, places: Places) -> Turn<'a>
        requires there { meet.0 < length self.now }
        requires same { emptied (slot_at next.now meet.0) ≡ emptied (slot_at self.now meet.0) }
        requires elsewhere { AreSameBut places (slot_at self.now meet.0).given (slot_at next.now meet.0).given }
        ensures turn { result ≡ turn_to self.now next.now meet.0 }
        ensures number { result.before.meet ≡ meet }
    {
        let Some(row) = self.row(meet) else {
            unreachable!()
        };
        let given_before = self.given(meet);
        let given_after = next.given(meet);
        let before = row.span;
        let after = next.span(meet);
        Turn {
            meet,
            event: row.event,
            before,
            after,
            moves: is_moved(before, after),
            resizes: is_resized(before, after),
            given_before,
            given_after,
            places,
            gives_other: differ(given_before, given_after, places),
        }
    }

    /// What an edit would make of a meet slot: a slot with this meet, of which each place is given this, but for one
    /// that may be given something else.
    pub fn effect<'a>(
        &'a self,
        meet: MeetId,
        after: Option<Span>,
        given: &'a [Option<ResourceId>],
        regiven: Option<Regiven>,
    ) -> Effect<'a>
        requires { meet.0 < length self.now }
        ensures effect { result ≡ effect_on (slot_at self.now meet.0) after (given_with given.now regiven) }
        ensures number { result.before.meet ≡ meet }
    {
        let Some(row) = self.row(meet) else {
            unreachable!()
        };
        let before = row.span;
        Effect {
            meet,
            event: row.event,
            before,
            after,
            given_before: self.given(meet),
            given_after: given,
            regiven,
            moves: is_moved(before, after),
            resizes: is_resized(before, after),
        }
    }

    /// Copies a meet slot from another state, which may differ in what it gives at these places alone. It takes
    /// time in proportion to these places.
    pub fn follow(&mut self, next: &Told, meet: MeetId, places: Places)
        requires there { meet.0 < length self.old }
        requires same { emptied (slot_at next.now meet.0) ≡ emptied (slot_at self.old meet.0) }
        requires elsewhere { AreSameBut places (slot_at self.old meet.0).given (slot_at next.now meet.0).given }
        ensures { self.new ≡ slice_set self.old meet.0 (slot_at next.now meet.0) }
    {
        let given = next.given(meet);
        refill(
            &mut self.rows,
            &mut self.given,
            meet,
            next.span(meet),
            given,
            places,
        );
    }

    /// The state after a change that fits.
    pub fn note(&mut self, inst: &Instance, change: Change)
        requires fits { Fits inst.now self.old change }
        ensures { self.new ≡ after self.old change }
    {
        let _ = inst;
        turn(&mut self.rows, &mut self.given, change);
    }
}
