//! The deviations of all monitors that do not watch resources.

ghost use Rattle.std.specs.Prelude.{◌≡◌, ◌≤◌, ◌<◌, length, slice_get, IfOk};
ghost use Rattle.std.specs.Option.{option_map_or};
ghost use Rattle.khe_base.specs.declared.limits.TheConstants.{GREATEST_DEVIATION};
ghost use Rattle.khe_instance.specs.Deviation.{deviation, group_deviation};
ghost use Rattle.khe_instance.specs.WellMade.{IsMonitor, IsRule};
ghost use Rattle.event_deviations.specs.Rooms.{room_for};
ghost use Rattle.khe_instance.specs.States.{AreOfState};
ghost use Rattle.event_deviations.specs.State.{IsAtEvents};

use crate::at_events::{at_event, at_pair};
use crate::at_places::at_place;
use crate::index::Index;
use crate::rooms::EventRoom;
use khe_base::NoMemory;
use khe_instance::{Duty, Instance, Meet, Monitor, Point, Rule};
use std::alloc::Global;
use std::marker::Model;

/// The deviations of a timetable's monitors at events, places of events, event groups and pairs of
/// events. Contracts see the instance's parts, the meets, and the tasks with their meets.
#[derive(Drop)]
pub struct EventDeviations<'a> {
    index: Index<'a>,
}

impl<'a> Model for EventDeviations<'a> {
    ghost use Rattle.event_deviations.specs.State.{State};

    ghost Value = { State };

    ghost view = { λ s. s.index };
}

impl<'a> EventDeviations<'a> {
    /// Indexes the meets and the tasks of a state of an instance, each task with its meet. Any valid state will
    /// do.
    ///
    /// It takes time and memory in proportion to the meets, the tasks, and the events with their
    /// places. No other call takes memory.
    pub fn open(
        alloc: Global,
        inst: &'a Instance,
        meets: &'a [Meet],
        duties: &'a [Duty],
    ) -> Result<EventDeviations<'a>, NoMemory>
        requires { AreOfState inst.now meets.now duties.now }
        ensures { IfOk result (λ s. s ≡ record { parts = inst.now; meets = meets.now; duties = duties.now }) }
    {
        let index = Index::new(alloc, inst, meets, duties)?;
        Ok(EventDeviations { index })
    }

    /// The deviation of a monitor of the instance whose point isn't a resource, with the room for
    /// the instance, which the call leaves as it was.
    ///
    /// At an event it takes the time of the event's meets, at a place of an event that of the
    /// place's duties, and at a pair that of the meets of both events. AvoidSplitAssignments takes
    /// the time of the places of the group's events and of their duties in the role, SpreadEvents
    /// that of the meets of the group's events, and for each listed time group that of the times at
    /// which they start, and LinkEvents that of the times of the meets of the group's events, each
    /// meet for each of its times.
    pub fn deviation(&self, monitor: Monitor, room: &mut EventRoom) -> u64
        requires monitor { IsMonitor self.now.parts monitor }
        requires point { IsAtEvents monitor.point }
        requires room { room.old ≡ room_for self.now.parts }
        ensures room { room.new ≡ room.old }
        ensures exact { result ≡ deviation self.now.parts self.now.meets self.now.duties monitor }
        ensures bound { result ≤ GREATEST_DEVIATION }
    {
        self.index.facts();
        let rule = &self.index.inst().constraint(monitor.constraint).rule;
        match monitor.point {
            Point::Event(event) => at_event(&self.index, rule, event),
            Point::EventResource { event, place } => at_place(&self.index, rule, event, place),
            Point::EventGroup(group) => at_group(&self.index, rule, group, room),
            Point::EventPair(pair) => at_pair(&self.index, rule, pair),
            Point::Resource(_) => unreachable!(),
        }
    }
}

/// The deviation of a rule at an event group, with the room for the instance.
fn at_group(index: &Index<'_>, rule: &Rule, group: u32, room: &mut EventRoom) -> u64
    requires group { group < length index.now.parts.groups }
    requires rule { IsRule index.now.parts rule.now }
    requires room { room.old ≡ room_for index.now.parts }
    ensures room { room.new ≡ room.old }
    ensures exact { result ≡ option_map_or (λ g. group_deviation index.now.parts index.now.meets index.now.duties rule.now g.events) (slice_get index.now.parts.groups group) 0 }
    ensures bound { result ≤ GREATEST_DEVIATION }
{
    index.facts();
    let events = index.members(group);
    match rule {
        Rule::AvoidSplitAssignments { role } => room.split_assignments(index, events, role),
        Rule::SpreadEvents { groups } => room.spread_events(index, events, groups.as_slice()),
        Rule::LinkEvents => room.unlinked_times(index, events),
        _ => 0,
    }
}
