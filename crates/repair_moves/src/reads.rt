//! What the walk over moves reads of a timetable and of its instance.

ghost use Rattle.std.specs.Prelude.{◌≡◌, true, false, Some, None, MatchOption};
ghost use Rattle.khe_instance.specs.Lookups.{place_at};
ghost use Rattle.khe_instance.specs.WellMade.{AreWellMade};
ghost use Rattle.khe_told.specs.Slots.{slot_at, is_live};
ghost use Rattle.khe_told.specs.Valid.{AreValid};
ghost use Rattle.khe_solution.specs.Reading.{Shows, has_type, is_fixed_event, is_fixed_place, resource_at};
ghost use Rattle.khe_solution.specs.Refusing.{is_of_meets};
ghost use Rattle.repair_moves.specs.Items.{task_at};
ghost use Rattle.repair_moves.specs.Moves.{is_accepted};

use khe_base::{EventId, MeetId, ResourceId, TaskId};
use khe_instance::{Instance, Meet, Place};
use khe_solution::Solution;
use khe_told::Edit;

/// What is true of a timetable and its instance.
pub(crate) fn facts(inst: &Instance, solution: &Solution<'_>)
    requires { solution.now.parts ≡ inst.now }
    ensures made { AreWellMade inst.now }
    ensures valid { AreValid inst.now solution.now.slots }
{
    inst.facts();
    solution.facts();
}

/// Whether the table of edits accepts an edit.
#[tactic(auto, unfolding(crate::specs::Moves::is_accepted))]
pub(crate) fn accepts(inst: &Instance, solution: &Solution<'_>, edit: Edit) -> bool
    requires of { solution.now.parts ≡ inst.now }
    requires ours { is_of_meets edit ≡ true }
    ensures { result ≡ is_accepted inst.now solution.now.slots edit }
{
    solution.check(&edit).is_ok()
}

/// The live meet of a slot.
#[tactic(auto, using(khe_solution::proofs::ReadingLaws::meet_shown))]
pub(crate) fn live(solution: &Solution<'_>, slot: u32) -> Option<Meet>
    ensures { MatchOption result (is_live (slot_at solution.now.slots slot) ≡ false) (Shows (slot_at solution.now.slots slot)) }
{
    solution.meet(MeetId(slot))
}

/// The task of a task slot, and the first task of all where no slot has the number.
#[tactic(auto, unfolding(crate::specs::Items::task_at))]
pub(crate) fn task_at(inst: &Instance, slot: u32) -> TaskId
    ensures { result ≡ task_at inst.now slot }
{
    if slot < inst.task_slots() {
        inst.task(slot)
    } else {
        TaskId {
            meet: MeetId(0),
            place: 0,
        }
    }
}

/// What a task is given, if anything.
pub(crate) fn resource_at(
    inst: &Instance,
    solution: &Solution<'_>,
    task: TaskId,
) -> Option<ResourceId>
    requires { solution.now.parts ≡ inst.now }
    ensures { result ≡ resource_at solution.now.slots task }
{
    facts(inst, solution);
    let own = live(solution, task.meet.0)?;
    match place_at(inst, own.event, task.place) {
        Some(_) => solution.resource(task),
        None => None,
    }
}

/// Whether the time of an event is preassigned.
pub(crate) fn is_fixed_event(inst: &Instance, event: EventId) -> bool
    ensures { result ≡ is_fixed_event inst.now event.0 }
{
    event.0 < inst.events() && inst.event(event).fixed.is_some()
}

/// A place of an event.
pub(crate) fn place_at(inst: &Instance, event: EventId, place: u32) -> Option<&Place>
    ensures { MatchOption result (place_at inst.now.events event.0 place ≡ None) (λ own. place_at inst.now.events event.0 place ≡ Some own.now) }
{
    if event.0 < inst.events() {
        inst.event(event).places.as_slice().get(place as usize)
    } else {
        None
    }
}

/// Whether the resource of a place of an event is preassigned.
pub(crate) fn is_fixed_place(inst: &Instance, event: EventId, place: u32) -> bool
    ensures { result ≡ is_fixed_place inst.now event.0 place }
{
    match place_at(inst, event, place) {
        Some(own) => own.fixed.is_some(),
        None => false,
    }
}

/// Whether a resource has the type of a place of an event.
pub(crate) fn has_type(inst: &Instance, event: EventId, place: u32, resource: ResourceId) -> bool
    ensures { result ≡ has_type inst.now resource.0 (place_at inst.now.events event.0 place) }
{
    match place_at(inst, event, place) {
        Some(own) => resource.0 < inst.resources() && inst.type_of(resource) == own.rtype,
        None => false,
    }
}
