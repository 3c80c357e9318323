//! The state that the entries of a solution say, where none of them has a cause.

ghost use Rattle.std.specs.Prelude.{◌≡◌, ◌<◌, ◌≤◌, ◌++◌, ◌∷◌, [], ℕ, length, map, All, IfOk, IfSome, OnOk, Some, get_or, slice_get};
ghost use Rattle.std.specs.List.{enumerate_from, flat_map};
ghost use Rattle.std.specs.Option.{option_copied};
ghost use Rattle.khe_base.specs.declared.limits.TheConstants.{TASKS};
ghost use Rattle.khe_instance.specs.declared.parts.EventInfo.{EventInfo};
ghost use Rattle.xhstt_completion.specs.Causes.{used_by};
ghost use Rattle.xhstt_completion.specs.Completed.{state_of, meets_at, tasks_at, meet_of, tasks_of, task_of, missing_parts, resource_at, given_for};
ghost use Rattle.xhstt_completion.specs.Chains.{IsChain};
ghost use Rattle.xhstt_completion.specs.Entries.{IsEntry, entries_of, resource_of, role_of};
ghost use Rattle.xhstt_completion.specs.Found.{AreFound};
ghost use Rattle.xhstt_completion.specs.Tables.{Finds};

use crate::chains::{Chains, chained};
use crate::entries::{duration_of, is_given_for, start_of};
use crate::lookups::resources_at;
use crate::tables::{RoleTable, are_few, roles_given};
use khe_base::{EventId, MeetId, NoMemory, ResourceId, Seq, TaskId, Text};
use khe_instance::{EventInfo, Instance, Meet, Place, Plain, Task};
use std::alloc::Global;
use xhstt_references::Followed;
use xhstt_shape::{EntryView, GivenView};

/// The meets and the tasks that are made so far.
#[derive(Drop)]
struct Timetable {
    meets: Seq<Meet>,
    tasks: Seq<Task>,
}

/// The state that entries say, by what they name. It takes time and memory in proportion to the
/// events, the entries, what they give and the state, on average.
pub(crate) fn state_of(
    alloc: Global,
    inst: &Instance,
    entries: &[EntryView<'_>],
    found: &Followed,
) -> Result<Plain, NoMemory>
    requires entries { All (IsEntry inst.now) entries.now }
    requires many { length found.now.named ≡ length entries.now }
    requires each { AreFound inst.now entries.now found.now.named found.now.given }
    requires fit { (e : ℕ) (event : EventInfo) → slice_get inst.now.events e ≡ Some event → used_by inst.now e event entries.now ≤ event.duration }
    ensures { IfOk result (λ plain. plain ≡ state_of inst.now entries.now) }
{
    let chains = chained(alloc, inst, entries, found.named.as_slice())?;
    let mut timetable = room(alloc, inst, entries.len())?;
    for event in 0..inst.events() {
        let event = EventId(event);
        push_event(alloc, &mut timetable, inst, event, entries, found, &chains)?;
    }
    let Timetable { meets, tasks } = timetable;
    Ok(Plain {
        meets,
        tasks,
        detached: Seq::new(alloc),
        groups: Seq::new(alloc),
    })
}

/// No meets and no tasks, with room for a meet of each event and each entry.
fn room(alloc: Global, inst: &Instance, entries: usize) -> Result<Timetable, NoMemory>
    ensures meets { IfOk result (λ t. t.meets ≡ []) }
    ensures tasks { IfOk result (λ t. t.tasks ≡ []) }
{
    let most = entries.saturating_add(inst.events() as usize);
    Ok(Timetable {
        meets: Seq {
            items: Vec::with_capacity(alloc, most)?,
        },
        tasks: Seq::new(alloc),
    })
}

/// Adds the meets and the tasks of an event: one meet for each of its entries, and one for what they
/// miss.
fn push_event(
    alloc: Global,
    timetable: &mut Timetable,
    inst: &Instance,
    number: EventId,
    entries: &[EntryView<'_>],
    found: &Followed,
    chains: &Chains,
) -> Result<(), NoMemory>
    requires there { number.0 < length inst.now.events }
    requires entries { All (IsEntry inst.now) entries.now }
    requires many { length found.now.named ≡ length entries.now }
    requires each { AreFound inst.now entries.now found.now.named found.now.given }
    requires firsts { length chains.now.firsts.items ≡ length inst.now.events }
    requires nexts { length chains.now.nexts.items ≡ length entries.now }
    requires own { IsChain entries.now chains.now.nexts.items 0 (get_or chains.now.firsts.items number.0 0) (entries_of inst.now number.0 entries.now) }
    requires fits { (event : EventInfo) → slice_get inst.now.events number.0 ≡ Some event → used_by inst.now number.0 event entries.now ≤ event.duration }
    ensures meets { OnOk result ((event : EventInfo) → slice_get inst.now.events number.0 ≡ Some event → timetable.new.meets ≡ timetable.old.meets ++ meets_at inst.now entries.now (number.0, event)) }
    ensures tasks { OnOk result ((event : EventInfo) → slice_get inst.now.events number.0 ≡ Some event → timetable.new.tasks ≡ timetable.old.tasks ++ tasks_at inst.now entries.now (number.0, event)) }
{
    inst.facts();
    let event = inst.event(number);
    let mut slot = event.first_meet;
    let mut left = event.duration;
    let mut at = chains.firsts[number.0 as usize];
    let named = found.named.as_slice();
    while at < entries.len() {
        let entry = &entries[at];
        let named = named[at];
        let meet = Meet {
            meet: MeetId(slot),
            event: number,
            duration: duration_of(event, entry),
            start: start_of(event, named.time),
        };
        let given = resources_at(found.given.as_slice(), named, entry);
        push_entry(alloc, timetable, inst, event, meet, entry, given)?;
        slot += 1;
        left -= meet.duration;
        at = chains.nexts[at];
    }
    push_rest(alloc, timetable, inst, event, number, slot, left)?;
    Ok(())
}

/// Adds the meet of what the entries of an event miss, if they miss anything, and its tasks.
fn push_rest(
    alloc: Global,
    timetable: &mut Timetable,
    inst: &Instance,
    event: &EventInfo,
    number: EventId,
    slot: u32,
    left: u32,
) -> Result<(), NoMemory>
    requires { length event.now.places ≤ TASKS }
    ensures meets { OnOk result (timetable.new.meets ≡ timetable.old.meets ++ map (meet_of number.0) (enumerate_from slot (missing_parts event.now left))) }
    ensures tasks { OnOk result (timetable.new.tasks ≡ timetable.old.tasks ++ flat_map (tasks_of inst.now event.now) (enumerate_from slot (missing_parts event.now left))) }
{
    if left == 0 {
        return Ok(());
    }
    let meet = Meet {
        meet: MeetId(slot),
        event: number,
        duration: left,
        start: event.fixed,
    };
    push_meet(alloc, timetable, inst, event, meet, &[], &[])
}

/// Adds a meet of an event, for which an entry gives the resources with these numbers, and its tasks.
fn push_entry(
    alloc: Global,
    timetable: &mut Timetable,
    inst: &Instance,
    event: &EventInfo,
    meet: Meet,
    entry: &EntryView<'_>,
    resources: &[ResourceId],
) -> Result<(), NoMemory>
    requires few { length event.now.places ≤ TASKS }
    requires resources { map (resource_of inst.now) entry.now.resources ≡ map Some resources.now }
    ensures meets { OnOk result (timetable.new.meets ≡ timetable.old.meets ++ meet ∷ []) }
    ensures tasks { OnOk result (timetable.new.tasks ≡ timetable.old.tasks ++ map (task_of inst.now meet.meet.0 entry.now.resources) (enumerate_from 0 event.now.places)) }
{
    let given = entry.resources().listed(alloc)?;
    push_meet(
        alloc,
        timetable,
        inst,
        event,
        meet,
        given.as_slice(),
        resources,
    )
}

/// Adds a meet of an event, for which these resources with these numbers are given, and its tasks.
fn push_meet(
    alloc: Global,
    timetable: &mut Timetable,
    inst: &Instance,
    event: &EventInfo,
    meet: Meet,
    given: &[GivenView<'_>],
    resources: &[ResourceId],
) -> Result<(), NoMemory>
    requires few { length event.now.places ≤ TASKS }
    requires resources { map (resource_of inst.now) given.now ≡ map Some resources.now }
    ensures meets { OnOk result (timetable.new.meets ≡ timetable.old.meets ++ meet ∷ []) }
    ensures tasks { OnOk result (timetable.new.tasks ≡ timetable.old.tasks ++ map (task_of inst.now meet.meet.0 given.now) (enumerate_from 0 event.now.places)) }
{
    timetable.meets.push(meet)?;
    let tasks = &mut timetable.tasks;
    let places = event.places.as_slice();
    if are_few(given.len(), places.len()) {
        return push_tasks(tasks, inst, places, meet.meet, given, resources, None);
    }
    let roles = roles_given(alloc, given)?;
    push_tasks(
        tasks,
        inst,
        places,
        meet.meet,
        given,
        resources,
        Some(&roles),
    )
}

/// Adds the tasks of a meet of an event with these places, by the roles that resources are given for
/// where these were numbered.
fn push_tasks(
    tasks: &mut Seq<Task>,
    inst: &Instance,
    places: &[Place],
    meet: MeetId,
    given: &[GivenView<'_>],
    resources: &[ResourceId],
    roles: Option<&RoleTable>,
) -> Result<(), NoMemory>
    requires few { length places.now ≤ TASKS }
    requires resources { map (resource_of inst.now) given.now ≡ map Some resources.now }
    requires roles { IfSome (option_copied roles) (λ table. Finds table (map role_of given.now)) }
    ensures { OnOk result (tasks.new ≡ tasks.old ++ map (task_of inst.now meet.0 given.now) (enumerate_from 0 places.now)) }
{
    for (number, place) in places.iter().enumerate() {
        let task = TaskId {
            meet,
            place: number as u32,
        };
        let resource = resource_at(inst, given, resources, roles, place);
        tasks.push(Task { task, resource })?;
    }
    Ok(())
}

/// The resource at a place: the preassigned one, or else that which is given for its role.
fn resource_at(
    inst: &Instance,
    given: &[GivenView<'_>],
    resources: &[ResourceId],
    roles: Option<&RoleTable>,
    place: &Place,
) -> Option<ResourceId>
    requires resources { map (resource_of inst.now) given.now ≡ map Some resources.now }
    requires roles { IfSome (option_copied roles) (λ table. Finds table (map role_of given.now)) }
    ensures { result ≡ resource_at inst.now given.now place.now }
{
    match (place.fixed, &place.role) {
        (None, Some(role)) => given_for(inst, given, resources, roles, role),
        _ => place.fixed,
    }
}

/// The resource that is given for a role.
fn given_for(
    inst: &Instance,
    given: &[GivenView<'_>],
    resources: &[ResourceId],
    roles: Option<&RoleTable>,
    role: &Text,
) -> Option<ResourceId>
    requires resources { map (resource_of inst.now) given.now ≡ map Some resources.now }
    requires roles { IfSome (option_copied roles) (λ table. Finds table (map role_of given.now)) }
    ensures { result ≡ given_for inst.now given.now role.now }
{
    match roles {
        None => given_among(inst, given, resources, role),
        Some(roles) => given_by(inst, given, resources, roles, role),
    }
}

/// The resource that is given for a role, looked for among all.
fn given_among(
    _inst: &Instance,
    given: &[GivenView<'_>],
    resources: &[ResourceId],
    role: &Text,
) -> Option<ResourceId>
    requires { map (resource_of _inst.now) given.now ≡ map Some resources.now }
    ensures { result ≡ given_for _inst.now given.now role.now }
{
    for (number, one) in given.iter().enumerate() {
        if is_given_for(one, role.spelling()) {
            return Some(resources[number]);
        }
    }
    None
}

/// The resource that is given for a role, by the table of all roles that resources are given for.
fn given_by(
    _inst: &Instance,
    _given: &[GivenView<'_>],
    resources: &[ResourceId],
    roles: &RoleTable,
    role: &Text,
) -> Option<ResourceId>
    requires resources { map (resource_of _inst.now) _given.now ≡ map Some resources.now }
    requires roles { Finds roles.now (map role_of _given.now) }
    ensures { result ≡ given_for _inst.now _given.now role.now }
{
    match roles.find(role.spelling()) {
        Some(number) => Some(resources[number]),
        None => None,
    }
}
