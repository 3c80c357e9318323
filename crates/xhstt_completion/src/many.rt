//! The causes at the resources of an entry that gives many, for an event with many places.

ghost use Rattle.std.specs.Prelude.{◌≡◌, ◌<◌, ◌≤◌, ◌||◌, ℕ, [], true, length, map, take, find, All, IfOk, Some, None, slice_get};
ghost use Rattle.std.specs.Option.{option_copied};
ghost use Rattle.khe_base.specs.IdSet.{has_member};
ghost use Rattle.khe_base.specs.Text.{characters};
ghost use Rattle.khe_instance.specs.Lookups.{is_role};
ghost use Rattle.khe_instance.specs.WellMade.{IsEvent, IsPlace};
ghost use Rattle.xhstt_completion.specs.Causes.{given_cause, first_given_cause, is_place_for};
ghost use Rattle.xhstt_completion.specs.Entries.{resource_of, role_of};
ghost use Rattle.xhstt_completion.specs.Tables.{Finds, HasUnnamed, IsWanted, is_given, named_cause, unnamed_cause, wanted_role, wanted_roles};

use crate::causes::place_cause;
use crate::tables::{RoleTable, roles_given};
use fault_tables::BAD_ROLE;
use khe_base::{IdSet, NoMemory, ResourceId, Text, beside, both};
use khe_instance::{EventInfo, Instance, Place};
use std::alloc::Global;
use xhstt_shape::GivenView;

/// By what the places of an event are found for the resources of an entry.
pub(crate) struct Wanted {
    /// The roles that the resources are given for.
    roles: RoleTable,
    /// Which of these roles the places have.
    places: RoleTable,
    /// The resources that are preassigned to places without a role.
    unnamed: IdSet,
}

// By hand: an exit of a caller then has one call to prove, and not a drop for each field.
impl Drop for Wanted {
    fn drop(self) {
        let Wanted {
            roles: _roles,
            places: _places,
            unnamed: _unnamed,
        } = self;
    }
}

/// The first cause at the many resources that an entry gives, which have these numbers, for an event
/// with many places. It takes time and memory in proportion to the resources, their roles and the
/// places, on average; and time for one bit for each resource of the instance.
pub(crate) fn first_of_many(
    alloc: Global,
    inst: &Instance,
    event: &EventInfo,
    given: &[GivenView<'_>],
    resources: &[ResourceId],
) -> Result<Option<u32>, NoMemory>
    requires event { IsEvent inst.now event.now }
    requires resources { map (resource_of inst.now) given.now ≡ map Some resources.now }
    ensures { IfOk result (λ cause. cause ≡ first_given_cause inst.now event.now [] given.now) }
{
    let wanted = wants_of(alloc, inst, event, given)?;
    Ok(first_at(inst, event, given, resources, &wanted))
}

/// What an entry that gives these resources wants of the places of an event.
fn wants_of(
    alloc: Global,
    inst: &Instance,
    event: &EventInfo,
    given: &[GivenView<'_>],
) -> Result<Wanted, NoMemory>
    requires { IsEvent inst.now event.now }
    ensures { IfOk result (λ w. IsWanted inst.now given.now event.now.places w) }
{
    let roles = roles_given(alloc, given)?;
    let others = wants_by(alloc, inst, event, given, &roles);
    let ((places, unnamed), roles) = beside(others, roles)?;
    Ok(Wanted {
        roles,
        places,
        unnamed,
    })
}

/// What the places of an event have, of what resources are given for.
fn wants_by(
    alloc: Global,
    inst: &Instance,
    event: &EventInfo,
    given: &[GivenView<'_>],
    roles: &RoleTable,
) -> Result<(RoleTable, IdSet), NoMemory>
    requires event { IsEvent inst.now event.now }
    requires roles { Finds roles.now (map role_of given.now) }
    ensures places { IfOk result (λ p. Finds p.0 (wanted_roles given.now event.now.places)) }
    ensures unnamed { IfOk result (λ p. HasUnnamed inst.now event.now.places p.1) }
{
    let places = event.places.as_slice();
    both(
        roles_wanted(alloc, given, roles, places),
        unnamed_of(alloc, inst, places),
    )
}

/// The roles of places for which resources are given, each at its place.
fn roles_wanted(
    alloc: Global,
    given: &[GivenView<'_>],
    roles: &RoleTable,
    places: &[Place],
) -> Result<RoleTable, NoMemory>
    requires { Finds roles.now (map role_of given.now) }
    ensures { IfOk result (λ table. Finds table (wanted_roles given.now places.now)) }
{
    let mut table = RoleTable::new(alloc, given);
    for (number, place) in places.iter().enumerate() {
        table.push(wanted_role(given, roles, place), number)?;
    }
    Ok(table)
}

/// The role of a place, where a resource is given for it.
fn wanted_role<'a>(
    _given: &[GivenView<'_>],
    roles: &RoleTable,
    place: &'a Place,
) -> Option<&'a Text>
    requires { Finds roles.now (map role_of _given.now) }
    ensures { option_copied result ≡ wanted_role _given.now place.now.role }
{
    let role = place.role.as_ref()?;
    if roles.find(role.spelling()).is_none() {
        return None;
    }
    Some(role)
}

/// The resources that are preassigned to places without a role.
fn unnamed_of(alloc: Global, inst: &Instance, places: &[Place]) -> Result<IdSet, NoMemory>
    requires { All (IsPlace inst.now) places.now }
    ensures { IfOk result (λ set. HasUnnamed inst.now places.now set) }
{
    let mut unnamed = IdSet::new(alloc, inst.resources())?;
    for place in places {
        note(inst, &mut unnamed, place);
    }
    Ok(unnamed)
}

/// Notes the resource that is preassigned to a place, if the place has no role.
fn note(_inst: &Instance, unnamed: &mut IdSet, place: &Place)
    requires many { length unnamed.old ≡ length _inst.now.resources }
    requires place { IsPlace _inst.now place.now }
    ensures many { length unnamed.new ≡ length _inst.now.resources }
    ensures has { (r : ℕ) → has_member unnamed.new r ≡ (has_member unnamed.old r || is_place_for (Some (record { 0 = r })) None place.now) }
{
    if let (None, Some(fixed)) = (&place.role, place.fixed) {
        unnamed.insert(fixed.0);
    }
}

/// The first cause at the resources that an entry gives, by what it wants.
fn first_at(
    inst: &Instance,
    event: &EventInfo,
    given: &[GivenView<'_>],
    resources: &[ResourceId],
    wanted: &Wanted,
) -> Option<u32>
    requires event { IsEvent inst.now event.now }
    requires resources { map (resource_of inst.now) given.now ≡ map Some resources.now }
    requires wanted { IsWanted inst.now given.now event.now.places wanted.now }
    ensures { result ≡ first_given_cause inst.now event.now [] given.now }
{
    for (number, one) in given.iter().enumerate() {
        let resource = resources[number];
        let cause = cause_at(inst, event, given, number, one, resource, wanted);
        if cause.is_some() {
            return cause;
        }
    }
    None
}

/// The cause at the resource with this number in an entry.
fn cause_at(
    inst: &Instance,
    event: &EventInfo,
    given: &[GivenView<'_>],
    number: usize,
    one: &GivenView<'_>,
    resource: ResourceId,
    wanted: &Wanted,
) -> Option<u32>
    requires event { IsEvent inst.now event.now }
    requires there { slice_get given.now number ≡ Some one.now }
    requires resource { resource_of inst.now one.now ≡ Some resource }
    requires wanted { IsWanted inst.now given.now event.now.places wanted.now }
    ensures { result ≡ given_cause inst.now event.now (take number given.now) one.now }
{
    match one.role() {
        Some(role) => named_cause(inst, event, given, number, role.text, resource, wanted),
        None => unnamed_cause(inst, event, given, resource, wanted),
    }
}

/// The cause at a resource that is given for a role, and has this number among those of its entry.
fn named_cause(
    inst: &Instance,
    event: &EventInfo,
    given: &[GivenView<'_>],
    number: usize,
    role: &str,
    resource: ResourceId,
    wanted: &Wanted,
) -> Option<u32>
    requires resource { resource.0 < length inst.now.resources }
    requires role { is_given given.now (characters role.now) ≡ true }
    requires number { number ≤ length given.now }
    requires wanted { IsWanted inst.now given.now event.now.places wanted.now }
    ensures { result ≡ named_cause inst.now event.now (take number given.now) (characters role.now) (Some resource) }
{
    let Some(place) = place_of(inst, event, given, role, wanted) else {
        return Some(BAD_ROLE);
    };
    if came_earlier(given, number, role, &wanted.roles) {
        return Some(BAD_ROLE);
    }
    place_cause(inst, resource, place)
}

/// The place of an event for a role for which a resource is given.
fn place_of<'a>(
    _inst: &Instance,
    event: &'a EventInfo,
    _given: &[GivenView<'_>],
    role: &str,
    wanted: &Wanted,
) -> Option<&'a Place>
    requires role { is_given _given.now (characters role.now) ≡ true }
    requires wanted { IsWanted _inst.now _given.now event.now.places wanted.now }
    ensures { option_copied result ≡ find (λ place. is_role (characters role.now) place.role) event.now.places }
{
    let places = event.places.as_slice();
    match wanted.places.find(role) {
        Some(number) => Some(&places[number]),
        None => None,
    }
}

/// Whether one of the first `number` resources of an entry is given for a role.
fn came_earlier(_given: &[GivenView<'_>], number: usize, role: &str, roles: &RoleTable) -> bool
    requires number { number ≤ length _given.now }
    requires roles { Finds roles.now (map role_of _given.now) }
    ensures { result ≡ is_given (take number _given.now) (characters role.now) }
{
    match roles.find(role) {
        Some(first) => first < number,
        None => false,
    }
}

/// The cause at a resource that is given without a role: where a place without a role has it, that
/// place has its type.
fn unnamed_cause(
    _inst: &Instance,
    _event: &EventInfo,
    _given: &[GivenView<'_>],
    resource: ResourceId,
    wanted: &Wanted,
) -> Option<u32>
    requires event { IsEvent _inst.now _event.now }
    requires wanted { IsWanted _inst.now _given.now _event.now.places wanted.now }
    ensures { result ≡ unnamed_cause _inst.now _event.now (Some resource) }
{
    if wanted.unnamed.has(resource.0) {
        None
    } else {
        Some(BAD_ROLE)
    }
}
