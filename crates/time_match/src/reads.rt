//! What a matching reads of a timetable and of its instance.

ghost use Rattle.std.specs.Prelude.{◌≡◌, false, MatchOption};
ghost use Rattle.std.specs.Option.{option_map_or};
ghost use Rattle.khe_instance.specs.Lookups.{place_at};
ghost use Rattle.khe_instance.specs.Running.{covers};
ghost use Rattle.khe_instance.specs.WellMade.{AreWellMade};
ghost use Rattle.khe_solution.specs.Reading.{Shows};
ghost use Rattle.khe_told.specs.Slots.{is_live, slot_at};
ghost use Rattle.khe_told.specs.Valid.{AreValid};
ghost use Rattle.time_match.specs.Tasks.{is_matched, wants};

use khe_base::{EventId, MeetId, TaskId, TimeId};
use khe_engine::Engine;
use khe_instance::{Instance, Meet};
use khe_solution::Solution;
use khe_told::Family;

/// What is true of an engine's instance and of its timetable.
pub(crate) fn facts<F: Family>(engine: &Engine<'_, F>)
    ensures made { AreWellMade engine.now.parts }
    ensures valid { AreValid engine.now.parts engine.now.state.slots }
{
    engine.instance().facts();
    engine.solution().facts();
}

/// The live meet of a slot.
#[tactic(auto, using(khe_solution::proofs::ReadingLaws::meet_shown))]
pub(crate) fn live(solution: &Solution<'_>, meet: MeetId) -> Option<Meet>
    ensures { MatchOption result (is_live (slot_at solution.now.slots meet.0) ≡ false) (Shows (slot_at solution.now.slots meet.0)) }
{
    solution.meet(meet)
}

/// Whether a meet with this start runs at a time.
fn covers(duration: u32, start: Option<TimeId>, time: TimeId) -> bool
    ensures { result ≡ covers duration start time.0 }
{
    match start {
        Some(first) => {
            first.0 <= time.0 && u64::from(time.0) < u64::from(first.0) + u64::from(duration)
        }
        None => false,
    }
}

/// Whether a place of an event is for a resource of this type that is still to be chosen.
fn is_wanted(inst: &Instance, event: EventId, place: u32, rtype: u32) -> bool
    ensures { result ≡ option_map_or (wants rtype) (place_at inst.now.events event.0 place) false }
{
    if event.0 >= inst.events() {
        return false;
    }
    match inst.event(event).places.as_slice().get(place as usize) {
        Some(own) => own.rtype == rtype && own.fixed.is_none(),
        None => false,
    }
}

/// Whether a task's meet runs at a time, and its place is for a resource of this type that is still to be chosen.
pub(crate) fn is_matched(
    inst: &Instance,
    solution: &Solution<'_>,
    task: TaskId,
    time: TimeId,
    rtype: u32,
) -> bool
    ensures { result ≡ is_matched inst.now solution.now.slots time.0 rtype task }
{
    match live(solution, task.meet) {
        Some(own) => {
            covers(own.duration, own.start, time) && is_wanted(inst, own.event, task.place, rtype)
        }
        None => false,
    }
}
