//! The meets of each event and the duties of each place.

ghost use Rattle.std.specs.Prelude.{◌≡◌, ◌≤◌, ◌<◌, Some, length, option_map, slice_get, All, IfOk, IfSome};
ghost use Rattle.std.specs.List.{sum_by};
ghost use Rattle.khe_base.specs.IdSet.{members_of};
ghost use Rattle.khe_base.specs.declared.limits.TheConstants.{NUMBER, DURATION, EVENTS, TIMES};
ghost use Rattle.khe_instance.specs.EventDeviation.{duties_at};
ghost use Rattle.khe_instance.specs.Lookups.{duration_at, places_at};
ghost use Rattle.khe_instance.specs.Running.{meets_of};
ghost use Rattle.khe_instance.specs.WellMade.{AreWellMade};
ghost use Rattle.event_deviations.specs.Bounded.{AreOfOneEvent};
ghost use Rattle.event_deviations.specs.Indexed.{duties_by_place};
ghost use Rattle.khe_instance.specs.States.{AreOfState};

use crate::lists::{duties_by, meets_by};
use crate::short_lists::ShortList;
use khe_base::{EventId, NoMemory, Seq};
use khe_instance::{Duty, Instance, Meet};
use std::alloc::Global;
use std::marker::Model;

/// The meets of each event, and the duties of each of its places.
#[derive(Drop)]
pub(crate) struct Index<'a> {
    inst: &'a Instance,
    meets: &'a [Meet],
    duties: &'a [Duty],
    by_event: Seq<ShortList<Meet>>,
    by_place: Seq<Seq<ShortList<Duty>>>,
}

impl<'a> Model for Index<'a> {
    ghost use Rattle.event_deviations.specs.Indexed.{IsIndexed};
    ghost use Rattle.event_deviations.specs.State.{State};

    ghost Value = { State };

    ghost view = { λ i. record { parts = i.inst.now; meets = i.meets.now; duties = i.duties.now } };

    ghost invariant = { λ i. IsIndexed i.inst.now i.meets.now i.duties.now i.by_event i.by_place };
}

impl<'a> Index<'a> {
    /// The index of the meets and the duties of a timetable, in time and memory of the meets, the
    /// duties, and the events with their places.
    pub(crate) fn new(
        alloc: Global,
        inst: &'a Instance,
        meets: &'a [Meet],
        duties: &'a [Duty],
    ) -> Result<Index<'a>, NoMemory>
        requires { AreOfState inst.now meets.now duties.now }
        ensures { IfOk result (λ i. i ≡ record { parts = inst.now; meets = meets.now; duties = duties.now }) }
    {
        inst.facts();
        Ok(Index {
            inst,
            meets,
            duties,
            by_event: meets_by(alloc, meets, inst.events())?,
            by_place: duties_by(alloc, duties, inst)?,
        })
    }

    /// The instance.
    pub(crate) fn inst(&self) -> &'a Instance
        ensures { result.now ≡ self.now.parts }
    {
        self.inst
    }

    /// The facts of the instance and the timetable.
    pub(crate) fn facts(&self)
        ensures made { AreWellMade self.now.parts }
        ensures state { AreOfState self.now.parts self.now.meets self.now.duties }
    {
        let _ = &self.meets;
    }

    /// The meets of an event.
    pub(crate) fn meets(&self, event: EventId) -> &[Meet]
        requires { event.0 < length self.now.parts.events }
        ensures are { result.now ≡ meets_of event.0 self.now.meets }
        ensures bounded { AreOfOneEvent (length self.now.parts.times) (duration_at self.now.parts.events event.0) result.now }
        ensures short { duration_at self.now.parts.events event.0 ≤ NUMBER }
        ensures few { length result.now ≤ duration_at self.now.parts.events event.0 }
        ensures times { length self.now.parts.times ≤ TIMES }
    {
        self.by_event.as_slice()[event.0 as usize].as_slice()
    }

    /// The duties of each place of an event.
    fn places(&self, event: EventId) -> &[ShortList<Duty>]
        requires { event.0 < length self.now.parts.events }
        ensures { result.now ≡ duties_by_place self.now.parts.events self.now.duties event.0 }
    {
        self.by_place.as_slice()[event.0 as usize].as_slice()
    }

    /// The duties at a place of an event.
    pub(crate) fn duties(&self, event: EventId, place: usize) -> &[Duty]
        requires { place < places_at self.now.parts.events event.0 }
        ensures are { result.now ≡ duties_at event.0 place self.now.duties }
        ensures bounded { sum_by (λ d. d.meet.duration) result.now ≤ NUMBER }
        ensures given { All (λ d. IfSome d.resource (λ r. r.0 < length self.now.parts.resources)) result.now }
    {
        self.facts();
        self.places(event)[place].as_slice()
    }

    /// The numbers of the events of an event group, ascending.
    pub(crate) fn members(&self, group: u32) -> &[u32]
        requires { group < length self.now.parts.groups }
        ensures are { option_map (λ g. members_of g.events) (slice_get self.now.parts.groups group) ≡ Some result.now }
        ensures within { All (λ e. e < length self.now.parts.events) result.now }
        ensures durations { sum_by (duration_at self.now.parts.events) result.now ≤ DURATION }
        ensures amount { length result.now ≤ EVENTS }
    {
        self.inst.members(group)
    }
}
