//! A timetable that is edited, and what is asked of it.

ghost use Rattle.std.specs.Prelude.{◌≡◌, ◌≤◌, ◌<◌, ◌+◌, ◌*◌, ◌++◌, ◌^◌, ℕ, true, length, vec_capacity, Option, Some, None, Ok, Err, IfOk, IfSome, OnOk, OnErr};
ghost use Rattle.std.specs.Option.{option_map};
ghost use Rattle.khe_instance.specs.States.{IsValid};
ghost use Rattle.khe_told.specs.Lists.{meet_in, meets_in, tasks_in};
ghost use Rattle.khe_told.specs.Slots.{slot_at, is_live};
ghost use Rattle.khe_told.specs.Changes.{after_all, inverses};
ghost use Rattle.khe_told.specs.Effects.{AreTurns, turned_all};
ghost use Rattle.khe_told.specs.Fits.{AllFit, AreTold};
ghost use Rattle.khe_told.specs.Watchers.{watcher_counts};
ghost use Rattle.khe_solution.specs.LiveBits.{IsNextMeet};
ghost use Rattle.khe_solution.specs.NextTask.{IsNextTask};
ghost use Rattle.khe_solution.specs.Reading.{has_place, resource_at};
ghost use Rattle.khe_solution.specs.Refusing.{is_of_meets, checked, refusal};
ghost use Rattle.khe_solution.specs.Editing.{edited, made, answer};
ghost use Rattle.khe_solution.specs.Changing.{changes};
ghost use Rattle.khe_solution.specs.Timetables.{HasRoom};
ghost use Rattle.khe_solution.specs.Backs.{back_of, undone, undone_changes, LeadsBack};
ghost use Rattle.khe_told.specs.Valid.{AreValid};
ghost use Rattle.khe_solution.specs.Resting.{FitsIn, timetable_of};

use crate::checks::check;
use crate::edits::{back_of, list_edit, list_undo, made};
use crate::effects::effects_of;
use crate::notes::{note_all, note_back};
use crate::reads::resource_at;
use crate::room::room_for;
use crate::slots::Slots;
use khe_base::{MeetId, NoMemory, ResourceId, TaskId};
use khe_instance::{Instance, Meet, Plain};
use khe_told::{Back, Change, Edit, Effects, Refusal, Steps, Watcher};
use std::alloc::Global;
use std::marker::Model;
use std::sync::ledger::Ledger;

/// A timetable that is edited. It is complete at every moment: contracts see the parts of its instance and its
/// slots, which are valid.
///
/// No call but `open` takes memory. An edit takes time in proportion to the places of its meets.
pub struct Solution<'i> {
    inst: &'i Instance,
    slots: Slots,
    /// The changes of one edit.
    list: Vec<Change>,
}

// By hand: an exit of a caller then has one call to prove, and not a drop for each field.
impl Drop for Solution<'_> {
    fn drop(self) {
        let Solution {
            inst: _inst,
            slots: _slots,
            list: _list,
        } = self;
    }
}

impl<'i> Model for Solution<'i> {
    ghost use Rattle.std.specs.Prelude.{vec_capacity};
    ghost use Rattle.khe_told.specs.Valid.{AreValid};
    ghost use Rattle.khe_solution.specs.Timetables.{Timetable, HasRoom};

    ghost Value = { Timetable };

    ghost view = { λ s. record { parts = s.inst.now; slots = s.slots } };

    ghost invariant = { λ s. AreValid s.inst.now s.slots × HasRoom s.inst.now (vec_capacity s.list) };
}

impl<'i> Solution<'i> {
    /// The timetable of a valid state. It takes time and memory in proportion to the meet slots and
    /// the task slots of the instance; no later call takes memory.
    #[tactic(auto, using(crate::proofs::OpenLaws::open_valid))]
    pub fn open(alloc: Global, inst: &'i Instance, plain: &Plain) -> Result<Solution<'i>, NoMemory>
        requires { IsValid inst.now plain.now }
        ensures parts { IfOk result (λ s. s.parts ≡ inst.now) }
        ensures meets { IfOk result (λ s. meets_in s.slots ≡ plain.now.meets) }
        ensures tasks { IfOk result (λ s. tasks_in s.slots ≡ plain.now.tasks) }
    {
        inst.facts();
        let slots = Slots::open(alloc, inst, plain)?;
        let list = room_for(alloc, inst)?;
        Ok(Solution { inst, slots, list })
    }

    /// What is true of every solution: its slots are valid.
    pub fn facts(&self)
        ensures { AreValid self.now.parts self.now.slots }
    {
        let _ = &self.slots;
    }

    /// The instance that it was opened on.
    pub fn instance(&self) -> &'i Instance
        ensures { result.now ≡ self.now.parts }
    {
        self.inst
    }

    /// The live meet of this number, or `None` where no live meet has it. It takes constant time.
    pub fn meet(&self, meet: MeetId) -> Option<Meet>
        ensures { result ≡ meet_in (slot_at self.now.slots meet.0) }
    {
        self.slots.told().meet(meet)
    }

    /// The first live meet with a number of at least this one, or `None` where there is none. It looks at a bit
    /// for each 4,096 meet slots up to there.
    pub fn next_meet(&self, from: MeetId) -> Option<MeetId>
        ensures { IsNextMeet self.now.slots from.0 result }
    {
        self.slots.next_meet(from)
    }

    /// The resource of a task, or `None` where it has none. It takes constant time.
    pub fn resource(&self, task: TaskId) -> Option<ResourceId>
        requires { has_place (slot_at self.now.slots task.meet.0) task.place ≡ true }
        ensures { result ≡ resource_at self.now.slots task }
    {
        resource_at(self.slots.told(), task)
    }

    /// The first task from this one on that has this resource, by meet and then by place, or `None`
    /// where there is none. It looks at a bit for each 4,096 task slots up to there; and where the
    /// instance has more than 256 resources, at the tasks of one in 256 of them.
    pub fn next_task_of(&self, resource: ResourceId, from: TaskId) -> Option<TaskId>
        ensures { IsNextTask self.now.slots (Some resource) from result }
    {
        self.slots.next_task(self.inst, Some(resource), from)
    }

    /// The first task from this one on that has no resource, by meet and then by place, or `None`
    /// where there is none. It looks at a bit for each 4,096 task slots up to there.
    pub fn next_task_without(&self, from: TaskId) -> Option<TaskId>
        ensures { IsNextTask self.now.slots None from result }
    {
        self.slots.next_task(self.inst, None, from)
    }

    /// The first refusal of an edit of meets and tasks, if it is refused. It looks at no more than
    /// the meets of the edit and their places.
    pub fn check(&self, edit: &Edit) -> Result<(), Refusal>
        requires ours { is_of_meets edit.now ≡ true }
        ensures { result ≡ checked (refusal self.now.parts self.now.slots edit.now) }
    {
        check(self.inst, self.slots.told(), edit)
    }

    /// Makes an edit of meets and tasks, and notifies the watcher of its changes in order.
    ///
    /// The answer is the number of the new meet after a Split, and otherwise none. Where the edit
    /// is refused nothing changes, and the watcher is not notified.
    #[tactic(auto, using(crate::proofs::EditLaws::edit_room, crate::proofs::EditLaws::edit_cuts, crate::proofs::EditLaws::edit_fits, crate::proofs::EditLaws::edit_slots, crate::proofs::EditLaws::edit_valid))]
    pub fn edit<V: Watcher, L: Ledger>(
        &mut self,
        edit: Edit,
        watcher: &mut V,
        steps: &mut Steps<L>,
    ) -> Result<Option<u32>, Refusal>
        requires ours { is_of_meets edit ≡ true }
        requires of { V.IsOf watcher.old self.old.parts }
        requires told { V.told watcher.old ≡ self.old.slots }

        ensures answer { result ≡ answer (refusal self.old.parts self.old.slots edit) (made self.old.slots edit) }
        ensures slots { OnOk result (self.new.slots ≡ edited self.old.slots edit) }
        ensures noted { OnOk result (V.noted watcher.new ≡ option_map (λ cs. cs ++ changes self.old.slots edit) (V.noted watcher.old)) }
        ensures steps { OnOk result (steps.new + V.owed watcher.new self.old.parts ≤ steps.old + V.owed watcher.old self.old.parts + watcher_counts self.old.parts self.old.slots (changes self.old.slots edit)) }
        ensures refused { OnErr result ((self.new ≡ self.old) × (watcher.new ≡ watcher.old) × (steps.new ≡ steps.old)) }

        ensures parts { self.new.parts ≡ self.old.parts }
        ensures of { V.IsOf watcher.new self.old.parts }
        ensures told { V.told watcher.new ≡ self.new.slots }
        ensures rest { V.HasSameRest watcher.old watcher.new }
        ensures silent { V.is_silent ≡ true → steps.new ≡ steps.old }
    {
        self.check(&edit)?;
        self.inst.facts();
        let made = made(self.inst, &self.slots, edit);
        list_edit(&mut self.list, self.slots.told(), edit, made);
        note_all(
            self.inst,
            self.list.as_slice(),
            &mut self.slots,
            watcher,
            steps,
        );
        Ok(made)
    }

    /// Lists the changes of an edit that is not refused, in place of what the list had. It takes no
    /// memory, and time in proportion to the places of the edit's meets.
    #[tactic(auto, using(crate::proofs::EditLaws::edit_room, crate::proofs::EditLaws::edit_cuts, crate::proofs::EditLaws::edit_fits, crate::proofs::EditLaws::edit_slots))]
    pub fn list_changes(&self, edit: &Edit, list: &mut Vec<Change>)
        requires ours { is_of_meets edit.now ≡ true }
        requires accepted { refusal self.now.parts self.now.slots edit.now ≡ None }
        requires room { HasRoom self.now.parts (vec_capacity list.old) }
        ensures items { list.new.items ≡ changes self.now.slots edit.now }
        ensures room { vec_capacity list.old ≤ vec_capacity list.new }
        ensures fit { AllFit self.now.parts self.now.slots (changes self.now.slots edit.now) }
        ensures leads { after_all self.now.slots (changes self.now.slots edit.now) ≡ edited self.now.slots edit.now }
        ensures told { AreTold self.now.parts self.now.slots }
    {
        self.inst.facts();
        let made = made(self.inst, &self.slots, *edit);
        list_edit(list, self.slots.told(), *edit, made);
    }

    /// What an edit that is not refused would make of the slots, where that is said of one or two of them: not of a
    /// Merge and an exchange of the resources of two tasks of one meet. It takes constant time, but that for a Split it
    /// looks for the event's lowest free slot by words of bits.
    pub fn effects(&self, edit: &Edit) -> Option<Effects<'_>>
        requires ours { is_of_meets edit.now ≡ true }
        requires accepted { refusal self.now.parts self.now.slots edit.now ≡ None }
        ensures turns { IfSome result (λ ts. AreTurns self.now.parts self.now.slots ts) }
        ensures leads { IfSome result (λ ts. turned_all self.now.slots ts ≡ edited self.now.slots edit.now) }
    {
        effects_of(self.inst, &self.slots, edit)
    }

    /// The record that leads back from an edit that is not refused. It takes constant time.
    #[tactic(auto, using(crate::proofs::EditLaws::edit_cuts, crate::proofs::EditLaws::back_leads, crate::proofs::EditLaws::back_slots, crate::proofs::EditLaws::back_list))]
    pub fn back(&self, edit: &Edit) -> Back
        requires ours { is_of_meets edit.now ≡ true }
        requires accepted { refusal self.now.parts self.now.slots edit.now ≡ None }
        ensures record_ { result ≡ back_of self.now.slots edit.now }
        ensures leads { LeadsBack self.now.parts (edited self.now.slots edit.now) result }
        ensures slots { undone (edited self.now.slots edit.now) result ≡ self.now.slots }
        ensures list { undone_changes (edited self.now.slots edit.now) result ≡ changes self.now.slots edit.now }
    {
        self.inst.facts();
        back_of(self.inst, &self.slots, edit)
    }

    /// Undoes the edit of a record that leads back, and notifies the watcher of the inverses of the
    /// edit's changes, the last one first.
    #[tactic(auto, using(crate::proofs::EditLaws::edit_room, crate::proofs::EditLaws::undo_cuts, crate::proofs::EditLaws::undo_fits, crate::proofs::EditLaws::undo_slots, crate::proofs::EditLaws::undo_valid, crate::proofs::EditLaws::undo_steps))]
    pub fn undo<V: Watcher, L: Ledger>(&mut self, back: Back, watcher: &mut V, steps: &mut Steps<L>)
        requires leads { LeadsBack self.old.parts self.old.slots back }
        requires of { V.IsOf watcher.old self.old.parts }
        requires told { V.told watcher.old ≡ self.old.slots }

        ensures slots { self.new.slots ≡ undone self.old.slots back }
        ensures noted { V.noted watcher.new ≡ option_map (λ cs. cs ++ inverses (undone_changes self.old.slots back)) (V.noted watcher.old) }
        ensures steps { steps.new + V.owed watcher.new self.old.parts ≤ steps.old + V.owed watcher.old self.old.parts + watcher_counts self.old.parts self.new.slots (undone_changes self.old.slots back) }

        ensures parts { self.new.parts ≡ self.old.parts }
        ensures of { V.IsOf watcher.new self.old.parts }
        ensures told { V.told watcher.new ≡ self.new.slots }
        ensures rest { V.HasSameRest watcher.old watcher.new }
        ensures silent { V.is_silent ≡ true → steps.new ≡ steps.old }
    {
        self.inst.facts();
        list_undo(&mut self.list, self.slots.told(), back);
        note_back(self.inst, &mut self.list, &mut self.slots, watcher, steps);
    }
}

/// A timetable that has let go of its instance, and can be resumed on it.
#[derive(Drop)]
pub struct RestingSolution {
    slots: Slots,
    list: Vec<Change>,
}

impl Model for RestingSolution {
    ghost use Rattle.std.specs.Prelude.{vec_capacity};
    ghost use Rattle.khe_solution.specs.Resting.{Rested};

    ghost Value = { Rested };

    ghost view = { λ r. record { slots = r.slots; room = vec_capacity r.list } };
}

impl<'i> Solution<'i> {
    /// Lets go of the instance. It takes constant time and no memory.
    pub fn rest(self) -> RestingSolution
        ensures fits { FitsIn self.entry.parts result }
        ensures same { timetable_of self.entry.parts result ≡ self.entry }
    {
        let Solution {
            inst: _,
            slots,
            list,
        } = self;
        RestingSolution { slots, list }
    }
}

impl RestingSolution {
    /// The timetable again, on an instance that reads the same. It takes constant time and no memory.
    pub fn wake<'i>(self, inst: &'i Instance) -> Solution<'i>
        requires { FitsIn inst.now self }
        ensures { result ≡ timetable_of inst.now self }
    {
        let RestingSolution { slots, list } = self;
        Solution { inst, slots, list }
    }
}
