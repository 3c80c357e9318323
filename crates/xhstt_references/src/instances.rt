//! The names of one instance, or its first fault.

ghost use Rattle.std.specs.Prelude.{◌≡◌, ◌+◌, nat_lt, false, [], map, length, IfOk};
ghost use Rattle.std.specs.List.{flat_map};
ghost use Rattle.std.specs.Option.{option_map_or};
ghost use Rattle.khe_base.specs.Names.{number_of};
ghost use Rattle.xhstt_references.specs.Directories.{IsDirectoryOf, directory_of};
ghost use Rattle.xhstt_references.specs.Faults.{IsTold, fault_of_instance, fault_of_ids};
ghost use Rattle.xhstt_references.specs.First.{first_of};
ghost use Rattle.xhstt_references.specs.Ids.{instance_ids};
ghost use Rattle.xhstt_references.specs.References as spec;

use crate::directories::Directory;
use crate::faults::ReferenceFault;
use crate::first::First;
use crate::looking_up::unknown_reference;
use crate::names::Names;
use crate::numbering::{event_names, resource_names, time_names};
use crate::repeats::{names_of, repeated_roles};
use fault_tables::{DUPLICATE_ID, DUPLICATE_ROLE, EVENT_OFF_END, UNKNOWN_REFERENCE};
use khe_base::{NoMemory, Text, both};
use std::alloc::Global;
use xhstt_shape::{Archive, RawEvent, RawInstance, Ref};

/// The names of an instance's parts, or the first fault of its names and references.
///
/// These are looked for in turn, and of each the first in the text is the fault: an Id that an earlier part of
/// the same sort has (`DUPLICATE_ID`, at the second one), where weeks and days are time groups and courses are
/// event groups; a reference that names no part of its sort (`UNKNOWN_REFERENCE`), where a week, a day and a
/// course are to be named as such; a role that an earlier place of the same event has (`DUPLICATE_ROLE`, at the
/// second one); and a preassigned time so late that the event would run past the last time (`EVENT_OFF_END`).
/// These are the rules of the XHSTT format, and the order is this project's.
///
/// Memory is taken in proportion to the Ids, and where it is refused, `NoMemory` comes. The time is
/// linear in the instance's text on average, since each reference is looked up by its hash.
pub fn directory(alloc: Global, instance: &RawInstance) -> Result<Directory, ReferenceFault>
    ensures names { IfOk result (λ d. IsDirectoryOf instance.now d) }
    ensures told { IsTold result (fault_of_instance instance.now) }
{
    let (directory, repeated) = numbered_parts(alloc, instance)?;
    judge(alloc, instance, &directory, repeated).and(Ok(directory))
}

/// The first fault of an instance's names and references, given the names of its parts and the first
/// Id that is repeated.
fn judge(
    alloc: Global,
    instance: &RawInstance,
    directory: &Directory,
    repeated: First,
) -> Result<(), ReferenceFault>
    requires names { spec.repeated_ids instance.now ≡ [] → IsDirectoryOf instance.now directory.now }
    requires repeated { repeated.at ≡ first_of None (spec.repeated_ids instance.now) }
    ensures names { IfOk result (λ _. IsDirectoryOf instance.now directory.now) }
    ensures told { IsTold result (fault_of_instance instance.now) }
{
    repeated.fault(DUPLICATE_ID)?;
    unknown_reference(directory, instance).fault(UNKNOWN_REFERENCE)?;
    repeated_roles(alloc, instance.events.as_slice())?.fault(DUPLICATE_ROLE)?;
    event_off_end(directory, instance.events.as_slice()).fault(EVENT_OFF_END)?;
    Ok(())
}

/// The names of an instance's parts, where no Id is repeated, and the first Id that is.
fn numbered_parts(alloc: Global, instance: &RawInstance) -> Result<(Directory, First), NoMemory>
    ensures { IfOk result (λ (d, first). (spec.repeated_ids instance.now ≡ [] → IsDirectoryOf instance.now d) × (first.at ≡ first_of None (spec.repeated_ids instance.now))) }
{
    // All sorts are numbered before the one exit: `both` drops what was made where memory is refused.
    let mut first = First::new();
    let times = time_names(alloc, instance, &mut first);
    let resources = resource_names(alloc, instance, &mut first);
    let events = event_names(alloc, instance, &mut first);
    let constraints = names_of(alloc, instance.constraints.as_slice(), &mut first);
    let ((times, resources), (events, _constraints)) = both(
        both(times, resources),
        both(events, constraints),
    )?;
    let directory = Directory {
        time_groups: times.groups,
        weeks: times.weeks,
        days: times.days,
        times: times.times,
        resource_types: resources.types,
        resource_groups: resources.groups,
        resources: resources.resources,
        event_groups: events.groups,
        courses: events.courses,
        events: events.events,
    };
    Ok((directory, first))
}

/// The first preassigned time from which an event would go on beyond the last time.
fn event_off_end(directory: &Directory, events: &[RawEvent]) -> First
    ensures { result.at ≡ first_of None (flat_map (spec.off_end directory.now) events.now) }
{
    let mut first = First::new();
    for event in events {
        note_off_end(directory, event, &mut first);
    }
    first
}

/// Notes the place of an event's preassigned time, if the event would go on beyond the last time.
#[tactic(auto, using(crate::proofs::FirstLemmas::first_of_nil))]
fn note_off_end(directory: &Directory, event: &RawEvent, first: &mut First)
    ensures { first.new.at ≡ first_of first.old.at (spec.off_end directory.now event.now) }
{
    if let Some(time) = &event.time {
        note_time_off_end(directory, event.duration, time, first);
    }
}

/// Notes the place of a preassigned time, if an event of this duration would go on beyond the last
/// time.
fn note_time_off_end(directory: &Directory, duration: u32, time: &Ref, first: &mut First)
    ensures { first.new.at ≡ first_of first.old.at (spec.off_end_from directory.now duration time.now) }
{
    if is_off_end(&directory.times, &time.id, duration) {
        first.note(time.at);
    }
}

/// Whether what starts at a time would go on beyond the last one.
fn is_off_end(times: &Names, time: &Text, duration: u32) -> bool
    ensures { result ≡ option_map_or (λ t. nat_lt (length times.now) (t + duration)) (number_of time.now times.now) false }
{
    let count = times.len();
    match times.number(time) {
        Some(number) => count - number < duration as usize,
        None => false,
    }
}

/// The Ids of an archive's instances, numbered in the order of the text, or the first Id that came
/// before among those of the instances, or else among those of the solution groups.
///
/// The fault is of the kind `DUPLICATE_ID`, at the second one. Memory is taken in proportion to the
/// Ids, and where it is refused, `NoMemory` comes. The time is linear in the Ids on average.
pub fn instance_names(alloc: Global, archive: &Archive) -> Result<Names, ReferenceFault>
    ensures names { IfOk result (λ names. names ≡ instance_ids archive.now) }
    ensures told { IsTold result (fault_of_ids archive.now) }
{
    let mut repeated = First::new();
    let names = names_of(alloc, archive.instances.as_slice(), &mut repeated)?;
    repeated.fault(DUPLICATE_ID)?;
    let mut repeated = First::new();
    names_of(alloc, archive.solution_groups.as_slice(), &mut repeated)?;
    repeated.fault(DUPLICATE_ID)?;
    Ok(names)
}
