//! A timetable in place of the entries of a solution.

ghost use Rattle.std.specs.Prelude.{◌≡◌, map, IfOk, Ok};
ghost use Rattle.khe_instance.specs.States.{IsTold, IsValid};
ghost use Rattle.std.specs.Option.{option_map};
ghost use Rattle.xhstt_completion.specs.Completed.{completed};
ghost use Rattle.xhstt_completion.specs.Entries.{IsSolution};
ghost use Rattle.xhstt_entries.specs.Renumbered.{renumbered};
ghost use Rattle.xhstt_entries.specs.Spelled as spec;

use crate::entries::entry;
use event_deviations::duties;
use khe_base::{NoMemory, Text};
use khe_instance::{Instance, Plain};
use std::alloc::Global;
use xhstt_shape::{Entries, RawSolution, Ref};

/// The entries of a timetable, one for each meet in the order of their numbers.
fn entries(alloc: Global, inst: &Instance, plain: &Plain) -> Result<Entries, NoMemory>
    requires { IsTold inst.now plain.now.meets plain.now.tasks }
    ensures { IfOk result (λ es. es ≡ spec.entries_of inst.now plain.now) }
{
    let meets = plain.meets.as_slice();
    let owned = duties(alloc, inst, meets, plain.tasks.as_slice())?;
    let mut entries = Entries::new(alloc);
    let mut rest = owned.as_slice();
    for meet in meets {
        let places = inst.event(meet.event).places.len();
        let (own, later) = rest.split_at(places);
        let made = entry(alloc, inst, *meet, own)?;
        entries.push(&made)?;
        rest = later;
    }
    Ok(entries)
}

/// A copy of a text, where there is one.
fn copy_if(alloc: Global, text: &Option<Text>) -> Result<Option<Text>, NoMemory>
    ensures { IfOk result (λ t. t ≡ text.now) }
{
    match text {
        Some(text) => Ok(Some(text.copy(alloc)?)),
        None => Ok(None),
    }
}

/// A copy of a reference.
fn copy_of(alloc: Global, reference: &Ref) -> Result<Ref, NoMemory>
    ensures { IfOk result (λ r. r ≡ reference.now) }
{
    Ok(Ref {
        id: reference.id.copy(alloc)?,
        at: reference.at,
    })
}

/// A timetable as a solution: one entry for each meet in the order of their numbers, with its event,
/// its duration, its start if it has one, and the resources of its tasks with their roles, but for those
/// that are preassigned. The reference, the description and the running time are the old solution's.
///
/// Every entry is one of the instance: it names an event, a time and resources of it, and its duration is
/// in range. Where the timetable is a valid one, its entries are read as the same timetable again: the
/// same meets and tasks, with the meets of each event in its first slots, in the order of their numbers;
/// all monitors are attached, and there are no groups.
///
/// It takes time and memory in proportion to the timetable and its Ids.
pub fn spell(
    alloc: Global,
    inst: &Instance,
    plain: &Plain,
    old: &RawSolution,
) -> Result<RawSolution, NoMemory>
    requires { IsTold inst.now plain.now.meets plain.now.tasks }
    ensures spelled { IfOk result (λ raw. raw ≡ spec.spelled inst.now plain.now old.now) }
    ensures solution { IfOk result (IsSolution inst.now) }
    ensures read_again { IsValid inst.now plain.now → IfOk result (λ raw. completed inst.now raw ≡ Ok (renumbered inst.now plain.now)) }
{
    inst.facts();
    Ok(RawSolution {
        reference: copy_of(alloc, &old.reference)?,
        description: copy_if(alloc, &old.description)?,
        running_time: copy_if(alloc, &old.running_time)?,
        events: entries(alloc, inst, plain)?,
    })
}
