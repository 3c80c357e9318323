//! Working space for the deviations at event groups.

ghost use Rattle.std.specs.Prelude.{◌≡◌, ◌+◌, ◌-◌, ◌*◌, ◌≤◌, ◌<◌, length, count_by, All, IfOk};
ghost use Rattle.std.specs.List.{sum_by, range_with_len};
ghost use Rattle.khe_base.specs.declared.limits.TheConstants.{NUMBER, DURATION, LISTED, EVENTS};
ghost use Rattle.khe_instance.specs.Lookups.{duration_at};
ghost use Rattle.event_deviations.specs.Groups.{apart_at, has_duty_among, spread_over};
ghost use Rattle.event_deviations.specs.Rooms.{room_for};

use crate::at_groups::{avoid_split_assignments, spread_events};
use crate::index::Index;
use crate::links::link_events;
use crate::marks::Marks;
use khe_base::{NoMemory, Text};
use khe_instance::{Instance, Spread};
use std::alloc::Global;
use std::marker::Model;

/// Working space for the deviations at event groups: a mark for each resource, and two for each time. It is
/// made once for an instance, and serves any timetable of it. Contracts see for how many resources and times it
/// is.
pub struct EventRoom {
    /// The resources that a look met.
    resources: Marks,
    /// The times that a look met, or how many meets start at each.
    some: Marks,
    /// How many of the first events of a group all run at a time.
    leading: Marks,
}

// By hand: an exit of a caller then has one call to prove, and not a drop for each field.
impl Drop for EventRoom {
    fn drop(self) {
        let EventRoom {
            resources: _resources,
            some: _some,
            leading: _leading,
        } = self;
    }
}

impl Model for EventRoom {
    ghost use Rattle.std.specs.Prelude.{◌≡◌, length};
    ghost use Rattle.event_deviations.specs.Rooms.{Room};

    ghost Value = { Room };

    ghost view = { λ r. record { resources = length r.resources; times = length r.some } };

    ghost invariant = { λ r. length r.leading ≡ length r.some };
}

impl EventRoom {
    /// The working space for an instance. It takes time and memory in proportion to the resources and the
    /// times.
    pub fn open(alloc: Global, inst: &Instance) -> Result<EventRoom, NoMemory>
        ensures { IfOk result (λ room. room ≡ room_for inst.now) }
    {
        Ok(EventRoom {
            resources: Marks::new(alloc, inst.resources())?,
            some: Marks::new(alloc, inst.times())?,
            leading: Marks::new(alloc, inst.times())?,
        })
    }

    /// How many resources the events have in the role, less one, at least 0.
    pub(crate) fn split_assignments(
        &mut self,
        index: &Index<'_>,
        events: &[u32],
        role: &Text,
    ) -> u64
        requires events { All (λ e. e < length index.now.parts.events) events.now }
        requires room { self.old ≡ room_for index.now.parts }
        ensures room { self.new ≡ self.old }
        ensures exact { result ≡ count_by (has_duty_among index.now.parts.events index.now.duties role.now events.now) (range_with_len 0 (length index.now.parts.resources)) - 1 }
    {
        avoid_split_assignments(index, events, role, &mut self.resources)
    }

    /// By how many too few or too many meets of the events start in the listed time groups.
    pub(crate) fn spread_events(
        &mut self,
        index: &Index<'_>,
        events: &[u32],
        spreads: &[Spread],
    ) -> u64
        requires events { All (λ e. e < length index.now.parts.events) events.now }
        requires durations { sum_by (duration_at index.now.parts.events) events.now ≤ DURATION }
        requires least { All (λ s. s.min ≤ NUMBER) spreads.now }
        requires listed { length spreads.now ≤ LISTED }
        requires room { self.old ≡ room_for index.now.parts }
        ensures room { self.new ≡ self.old }
        ensures exact { result ≡ spread_over index.now.meets spreads.now events.now }
        ensures bound { result ≤ length spreads.now * (DURATION + NUMBER) }
    {
        spread_events(index, events, spreads, &mut self.some)
    }

    /// At how many times some of the events run and some do not.
    pub(crate) fn unlinked_times(&mut self, index: &Index<'_>, events: &[u32]) -> u64
        requires events { All (λ e. e < length index.now.parts.events) events.now }
        requires amount { length events.now ≤ EVENTS }
        requires room { self.old ≡ room_for index.now.parts }
        ensures room { self.new ≡ self.old }
        ensures exact { result ≡ apart_at index.now.meets events.now (length index.now.parts.times) }
    {
        link_events(index, events, &mut self.some, &mut self.leading)
    }
}
