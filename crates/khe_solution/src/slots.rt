//! The slots of a solution: the told state, with a bit for each free slot and one for each live slot.

ghost use Rattle.std.specs.Prelude.{◌≡◌, ◌≤◌, ◌<◌, ◌^◌, length, MatchOption, IfOk};
ghost use Rattle.khe_instance.specs.States.{IsTold};
ghost use Rattle.khe_told.specs.Changes.{after};
ghost use Rattle.khe_told.specs.Fits.{AreTold, Fits};
ghost use Rattle.khe_told.specs.Lists.{meets_in, tasks_in};
ghost use Rattle.khe_told.specs.Slots.{slot_at, length_of};
ghost use Rattle.khe_solution.specs.Reading.{free_slot};
ghost use Rattle.khe_solution.specs.FreeBits.{AreLive, IsFirstFree};
ghost use Rattle.khe_solution.specs.LiveBits.{IsNextMeet};
ghost use Rattle.khe_solution.specs.NextTask.{IsNextTask};

use crate::bits::{first_set, free_bits, keep_free};
use crate::lives::{LiveRows, keep_live, live_rows, next_live};
use crate::reads::live;
use crate::tasks::{TaskRows, keep_tasks, next_task, rows_of};
use khe_base::{MeetId, NoMemory, ResourceId, TaskId};
use khe_instance::{Instance, Plain};
use khe_told::{Change, Told};
use std::alloc::Global;
use std::marker::Model;

/// The told state of a solution. Contracts see the list of slots.
pub(crate) struct Slots {
    told: Told,
    /// One bit for each slot, set where it is free.
    free: Vec<u64>,
    tasks: TaskRows,
    live: LiveRows,
}

// By hand: an exit of a caller then has one call to prove, and not a drop for each field.
impl Drop for Slots {
    fn drop(self) {
        let Slots {
            told: _told,
            free: _free,
            tasks: _tasks,
            live: _live,
        } = self;
    }
}

impl Model for Slots {
    ghost use Rattle.std.specs.Prelude.{List};
    ghost use Rattle.khe_told.specs.declared.slots.Slot.{Slot};
    ghost use Rattle.khe_solution.specs.FreeBits.{AreFree};
    ghost use Rattle.khe_solution.specs.LiveBits.{AreLiveBits};
    ghost use Rattle.khe_solution.specs.TaskRows.{AreKept};

    ghost Value = { List Slot };

    ghost view = { λ s. s.told };

    ghost invariant = { λ s. AreFree s.told s.free.items × AreKept s.told s.tasks × AreLiveBits s.told s.live };
}

impl Slots {
    /// The slots of a state, in time and memory in proportion to the meet slots and the task slots.
    #[tactic(auto, using(crate::proofs::Spans::slots_few))]
    pub(crate) fn open(alloc: Global, inst: &Instance, plain: &Plain) -> Result<Slots, NoMemory>
        requires { IsTold inst.now plain.now.meets plain.now.tasks }
        ensures told { IfOk result (λ s. AreTold inst.now s) }
        ensures meets { IfOk result (λ s. meets_in s ≡ plain.now.meets) }
        ensures tasks { IfOk result (λ s. tasks_in s ≡ plain.now.tasks) }
    {
        inst.facts();
        let told = Told::from_plain(alloc, inst, plain)?;
        let free = free_bits(alloc, &told)?;
        let tasks = rows_of(alloc, inst, &told)?;
        let live = live_rows(alloc, &told)?;
        Ok(Slots {
            told,
            free,
            tasks,
            live,
        })
    }

    /// The told state.
    pub(crate) fn told(&self) -> &Told
        ensures { result.now ≡ self.now }
    {
        &self.told
    }

    /// The first free slot from this one on.
    fn first_free(&self, from: u32) -> Option<usize>
        ensures { MatchOption result (AreLive self.now from (length self.now)) (λ n. IsFirstFree self.now from n) }
    {
        first_set(self.free.as_slice(), from as usize)
    }

    /// The first meet from this number on.
    pub(crate) fn next_meet(&self, from: MeetId) -> Option<MeetId>
        ensures { IsNextMeet self.now from.0 result }
    {
        next_live(&self.live, from)
    }

    /// The first task from this one on that has this resource, or has none where none is wanted.
    pub(crate) fn next_task(
        &self,
        inst: &Instance,
        wanted: Option<ResourceId>,
        from: TaskId,
    ) -> Option<TaskId>
        requires { AreTold inst.now self.now }
        ensures { IsNextTask self.now wanted from result }
    {
        next_task(&self.tasks, inst, &self.told, wanted, from)
    }

    /// Follows a change that fits, in constant time, but for a meet that comes or goes, whose places
    /// it goes over.
    pub(crate) fn note(&mut self, inst: &Instance, change: Change)
        requires { Fits inst.now self.old change }
        ensures { self.new ≡ after self.old change }
    {
        keep_tasks(&mut self.tasks, inst, &self.told, change);
        keep_free(&mut self.free, change);
        keep_live(&mut self.live, change);
        self.told.note(inst, change);
    }
}

/// The lowest free slot of the event of a meet that can be cut, so that there is one. It is found by
/// words of bits, from the event's first slot on.
pub(crate) fn new_meet(inst: &Instance, slots: &Slots, meet: MeetId) -> MeetId
    requires told { AreTold inst.now slots.now }
    requires long { 2 ≤ length_of (slot_at slots.now meet.0) }
    ensures { result.0 ≡ free_slot slots.now (slot_at slots.now meet.0).event.0 }
{
    inst.facts();
    let Some(own) = live(slots.told(), meet) else {
        unreachable!()
    };
    let Some(slot) = slots.first_free(inst.event(own.event).first_meet) else {
        unreachable!()
    };
    MeetId(slot as u32)
}
