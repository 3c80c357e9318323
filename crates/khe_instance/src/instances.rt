//! An instance, which does not change, and what is asked of it.

ghost use Rattle.std.specs.Prelude.{◌≡◌, ◌<◌, ◌*◌, Some, length, slice_get, IfOk};
ghost use Rattle.std.specs.Option.{option_map};
ghost use Rattle.std.specs.List.{sum_by};
ghost use Rattle.khe_base.specs.IdSet.{members_of};
ghost use Rattle.khe_instance.specs.ByType.{resources_of_type};
ghost use Rattle.khe_instance.specs.Slots.{HasSlot, all_tasks, first_task};
ghost use Rattle.khe_instance.specs.WellMade.{AreWellMade};

use crate::by_type::by_type;
use crate::parts::{EventInfo, Parts};
use crate::points::Monitor;
use crate::rules::Constraint;
use crate::slots::{SlotTable, slot_table};
use khe_base::{
    EventId, ListedSet, MeetId, MonitorId, NoMemory, ResourceId, Seq, TaskId, Text, TimeId,
    lends_to_threads,
};
use std::alloc::Global;
use std::marker::Model;

/// An instance: parts that are well made. It does not change. Contracts see its parts.
///
/// It has the Ids of its parts by their numbers, and no table that leads from an Id to a number: references are
/// followed once, when an archive is read. No call but `new` takes memory, and each but `task` takes constant
/// time.
pub struct Instance {
    parts: Parts,
    slots: SlotTable,
    /// The resources of each type, ascending.
    by_type: Seq<Seq<u32>>,
}

// By hand: an exit of a caller then has one call to prove, and not a drop for each field.
impl Drop for Instance {
    fn drop(self) {
        let Instance {
            parts: _parts,
            slots: _slots,
            by_type: _by_type,
        } = self;
    }
}

impl Model for Instance {
    ghost use Rattle.khe_instance.specs.declared.parts.Parts.{Parts};
    ghost use Rattle.khe_instance.specs.ByType.{AreByType};
    ghost use Rattle.khe_instance.specs.SlotTables.{IsSlotTable};
    ghost use Rattle.khe_instance.specs.WellMade.{AreWellMade};
    ghost use Rattle.std.specs.Prelude.{◌≡◌};

    ghost Value = { Parts };

    ghost view = { λ i. i.parts };

    ghost invariant = { λ i. AreWellMade i.parts × IsSlotTable i.parts.events i.slots × AreByType i.parts i.by_type };
}

impl Instance {
    /// The instance with these parts. It takes time and memory in proportion to the meet slots of all
    /// events and to the resource types.
    pub fn new(alloc: Global, parts: Parts) -> Result<Instance, NoMemory>
        requires { AreWellMade parts }
        ensures { IfOk result (λ i. i ≡ parts) }
    {
        let slots = slot_table(alloc, parts.events.as_slice())?;
        let by_type = by_type(alloc, &parts)?;
        Ok(Instance {
            parts,
            slots,
            by_type,
        })
    }

    /// What is true of every instance: its parts are well made.
    pub fn facts(&self)
        ensures { AreWellMade self.now }
    {
        let _ = &self.parts;
    }

    /// Its own Id.
    pub fn id(&self) -> &Text
        ensures { result.now ≡ self.now.id }
    {
        &self.parts.id
    }

    /// How many times there are.
    pub fn times(&self) -> u32
        ensures { result ≡ length self.now.times }
    {
        self.parts.times.len() as u32
    }

    /// How many resource types there are.
    pub fn types(&self) -> u32
        ensures { result ≡ self.now.types }
    {
        self.parts.types
    }

    /// How many resources there are.
    pub fn resources(&self) -> u32
        ensures { result ≡ length self.now.resources }
    {
        self.parts.resources.len() as u32
    }

    /// How many events there are.
    pub fn events(&self) -> u32
        ensures { result ≡ length self.now.events }
    {
        self.parts.events.len() as u32
    }

    /// How many event groups there are, courses among them.
    pub fn event_groups(&self) -> u32
        ensures { result ≡ length self.now.groups }
    {
        self.parts.groups.len() as u32
    }

    /// How many constraints there are.
    pub fn constraints(&self) -> u32
        ensures { result ≡ length self.now.constraints }
    {
        self.parts.constraints.len() as u32
    }

    /// How many monitors there are.
    pub fn monitors(&self) -> u32
        ensures { result ≡ length self.now.monitors }
    {
        self.parts.monitors.len() as u32
    }

    /// The least common multiple of all durations of events, and 1 where there are none.
    pub fn unit(&self) -> u64
        ensures { result ≡ self.now.unit }
    {
        self.parts.unit
    }

    /// The event with this number.
    pub fn event(&self, event: EventId) -> &EventInfo
        requires { event.0 < length self.now.events }
        ensures { slice_get self.now.events event.0 ≡ Some result.now }
    {
        &self.parts.events.as_slice()[event.0 as usize]
    }

    /// The event that has this meet slot.
    pub fn event_of(&self, meet: MeetId) -> EventId
        requires { meet.0 < sum_by (λ e. e.duration) self.now.events }
        ensures { HasSlot self.now.events result.0 meet.0 }
    {
        EventId(self.slots.event_of(meet))
    }

    /// How many meet slots there are: the sum of the durations of the events.
    pub fn meet_slots(&self) -> u32
        ensures { result ≡ sum_by (λ e. e.duration) self.now.events }
    {
        self.slots.meet_slots()
    }

    /// How many task slots there are: for each event its duration times its places.
    pub fn task_slots(&self) -> u32
        ensures { result ≡ sum_by (λ e. e.duration * length e.places) self.now.events }
    {
        self.slots.task_slots()
    }

    /// The number of the first task of a meet slot. Task slots are numbered by meet slot and then place, so the
    /// tasks of a meet slot have this number and the numbers that follow it, one for each place of its event.
    pub fn first_task(&self, meet: MeetId) -> u32
        requires { meet.0 < sum_by (λ e. e.duration) self.now.events }
        ensures { result ≡ first_task self.now.events meet.0 }
    {
        self.slots.first_task(self.parts.events.as_slice(), meet)
    }

    /// The task with this number, in time in proportion to the logarithm of the number of events.
    pub fn task(&self, number: u32) -> TaskId
        requires { number < sum_by (λ e. e.duration * length e.places) self.now.events }
        ensures { slice_get (all_tasks self.now.events) number ≡ Some result }
    {
        self.slots.tasks.task(self.parts.events.as_slice(), number)
    }

    /// The constraint with this number.
    pub fn constraint(&self, constraint: u32) -> &Constraint
        requires { constraint < length self.now.constraints }
        ensures { slice_get self.now.constraints constraint ≡ Some result.now }
    {
        &self.parts.constraints.as_slice()[constraint as usize]
    }

    /// The monitor with this number.
    pub fn monitor(&self, monitor: MonitorId) -> Monitor
        requires { monitor.0 < length self.now.monitors }
        ensures { slice_get self.now.monitors monitor.0 ≡ Some result }
    {
        self.parts.monitors.as_slice()[monitor.0 as usize]
    }

    /// The type of a resource.
    pub fn type_of(&self, resource: ResourceId) -> u32
        requires { resource.0 < length self.now.resources }
        ensures { option_map (λ r. r.rtype) (slice_get self.now.resources resource.0) ≡ Some result }
    {
        self.parts.resources.as_slice()[resource.0 as usize].rtype
    }

    /// The numbers of the resources of a type, ascending.
    pub fn resources_of_type(&self, rtype: u32) -> &[u32]
        requires { rtype < self.now.types }
        ensures { result.now ≡ resources_of_type self.now rtype }
    {
        self.by_type.as_slice()[rtype as usize].as_slice()
    }

    /// The events of an event group.
    pub fn event_group(&self, group: u32) -> &ListedSet
        requires { group < length self.now.groups }
        ensures { option_map (λ g. g.events) (slice_get self.now.groups group) ≡ Some result.now }
    {
        &self.parts.groups.as_slice()[group as usize].events
    }

    /// The numbers of the events of an event group, ascending.
    pub fn members(&self, group: u32) -> &[u32]
        requires { group < length self.now.groups }
        ensures { option_map (λ g. members_of g.events) (slice_get self.now.groups group) ≡ Some result.now }
    {
        self.event_group(group).members()
    }

    /// The Id of a time.
    pub fn time_id(&self, time: TimeId) -> &Text
        requires { time.0 < length self.now.times }
        ensures { slice_get self.now.times time.0 ≡ Some result.now }
    {
        &self.parts.times.as_slice()[time.0 as usize]
    }

    /// The Id of a resource.
    pub fn resource_id(&self, resource: ResourceId) -> &Text
        requires { resource.0 < length self.now.resources }
        ensures { option_map (λ r. r.id) (slice_get self.now.resources resource.0) ≡ Some result.now }
    {
        &self.parts.resources.as_slice()[resource.0 as usize].id
    }

    /// The Id of an event group.
    pub fn group_id(&self, group: u32) -> &Text
        requires { group < length self.now.groups }
        ensures { option_map (λ g. g.id) (slice_get self.now.groups group) ≡ Some result.now }
    {
        &self.parts.groups.as_slice()[group as usize].id
    }
}

// Workers read an instance and timetables of it together: the types show it, and no program calls
// this.
#[allow(dead_code)]
fn are_shared(instance: &Instance, plain: &crate::states::Plain) {
    lends_to_threads(instance);
    lends_to_threads(plain);
}
