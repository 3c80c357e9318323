//! The meet slots and task slots of events, found by their numbers.

ghost use Rattle.std.specs.Prelude.{◌≡◌, ◌<◌, ◌≤◌, ◌*◌, ◌^◌, ◌++◌, ℕ, Some, length, replicate, slice_get, IfOk, OnOk};
ghost use Rattle.std.specs.List.{sum_by};
ghost use Rattle.std.specs.List.Sorted.{IsNonDecreasing};
ghost use Rattle.khe_base.specs.declared.limits.TheConstants.{EVENTS};
ghost use Rattle.khe_instance.specs.Slots.{slots_from, all_tasks, first_task};
ghost use Rattle.khe_instance.specs.SlotTables.{IsSlotTable, AreTasks, IsLastUpTo};
ghost use Rattle.khe_instance.specs.WellMade.{AreFirstMeets};

use crate::parts::EventInfo;
use khe_base::{MeetId, NoMemory, TaskId};
use std::alloc::Global;

/// The meet slots and the task slots of events, each found by its number. It keeps a number for each
/// meet slot and one for each event, and none for the tasks.
#[derive(Drop)]
pub(crate) struct SlotTable {
    /// The event of each meet slot.
    pub events: Vec<u32>,
    pub tasks: TaskTable,
}

/// Where the tasks of events stand.
#[derive(Drop)]
pub(crate) struct TaskTable {
    /// The number of the first task of each event.
    pub firsts: Vec<u32>,
    /// How many task slots there are.
    pub count: u32,
}

impl SlotTable {
    /// The event that has a meet slot.
    pub(crate) fn event_of(&self, meet: MeetId) -> u32
        requires { meet.0 < length self.now.events.items }
        ensures { slice_get self.now.events.items meet.0 ≡ Some result }
    {
        self.events[meet.0 as usize]
    }

    pub(crate) fn meet_slots(&self) -> u32
        requires { length self.now.events.items < 2 ^ 32 }
        ensures { result ≡ length self.now.events.items }
    {
        self.events.len() as u32
    }

    pub(crate) fn task_slots(&self) -> u32
        ensures { result ≡ self.now.tasks.count }
    {
        self.tasks.count
    }

    /// The number of the first task of a meet slot of these events.
    pub(crate) fn first_task(&self, events: &[EventInfo], meet: MeetId) -> u32
        requires made { AreFirstMeets 0 events.now }
        requires table { IsSlotTable events.now self.now }
        requires slot { meet.0 < sum_by (λ e. e.duration) events.now }
        requires tasks { sum_by (λ e. e.duration * length e.places) events.now < 2 ^ 32 }
        ensures { result ≡ first_task events.now meet.0 }
    {
        let event = self.events[meet.0 as usize] as usize;
        let info = &events[event];
        let before = (meet.0 - info.first_meet) as usize * info.places.len();
        self.tasks.firsts[event] + before as u32
    }
}

impl TaskTable {
    /// The task of these events with a number, in time in proportion to the logarithm of how many
    /// events there are.
    pub(crate) fn task(&self, events: &[EventInfo], number: u32) -> TaskId
        requires made { AreFirstMeets 0 events.now }
        requires table { AreTasks events.now self.now }
        requires events { length events.now ≤ EVENTS }
        requires slots { sum_by (λ e. e.duration) events.now < 2 ^ 32 }
        requires task { number < sum_by (λ e. e.duration * length e.places) events.now }
        ensures { slice_get (all_tasks events.now) number ≡ Some result }
    {
        let event = self.event_of(number);
        let info = &events[event];
        let task = (number - self.firsts[event]) as usize;
        let places = info.places.len();
        TaskId {
            meet: MeetId(info.first_meet + (task / places) as u32),
            place: (task % places) as u32,
        }
    }

    /// The last event whose first task is not after this one: it has the task, since an event without
    /// tasks has the number of the event that follows it.
    fn event_of(&self, number: u32) -> usize
        requires some { slice_get self.now.firsts.items 0 ≡ Some 0 }
        requires ordered { IsNonDecreasing self.now.firsts.items }
        ensures { IsLastUpTo self.now.firsts.items number result }
    {
        self.firsts
            .as_slice()
            .partition_point(|first| *first <= number)
            - 1
    }
}

/// The slots of events, in time in proportion to the meet slots and the events, and memory for a
/// number for each.
pub(crate) fn slot_table(alloc: Global, events: &[EventInfo]) -> Result<SlotTable, NoMemory>
    requires events { length events.now ≤ EVENTS }
    requires tasks { sum_by (λ e. e.duration * length e.places) events.now < 2 ^ 32 }
    ensures { IfOk result (λ table. IsSlotTable events.now table) }
{
    Ok(SlotTable {
        events: slots_of(alloc, events)?,
        tasks: tasks_of(alloc, events)?,
    })
}

/// The event of each meet slot, in order.
fn slots_of(alloc: Global, events: &[EventInfo]) -> Result<Vec<u32>, NoMemory>
    requires { length events.now ≤ EVENTS }
    ensures { IfOk result (λ slots. slots.items ≡ slots_from 0 events.now) }
{
    let mut slots = Vec::new(alloc);
    for (number, event) in events.iter().enumerate() {
        push_slots(&mut slots, number as u32, event.duration)?;
    }
    Ok(slots)
}

/// Adds `count` slots of the event with this number.
fn push_slots(slots: &mut Vec<u32>, event: u32, count: u32) -> Result<(), NoMemory>
    ensures { OnOk result (slots.new.items ≡ slots.old.items ++ replicate count event) }
{
    for _ in 0..count {
        slots.push(event)?;
    }
    Ok(())
}

/// Where the tasks of events begin, and how many there are.
fn tasks_of(alloc: Global, events: &[EventInfo]) -> Result<TaskTable, NoMemory>
    requires { sum_by (λ e. e.duration * length e.places) events.now < 2 ^ 32 }
    ensures { IfOk result (λ table. AreTasks events.now table) }
{
    let mut firsts = Vec::new(alloc);
    let mut count = 0;
    for event in events {
        firsts.push(count)?;
        count += (event.duration as usize * event.places.len()) as u32;
    }
    Ok(TaskTable { firsts, count })
}
