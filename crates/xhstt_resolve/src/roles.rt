//! The event resources of an instance by their roles.

ghost use Rattle.std.specs.Prelude.{◌≡◌, ◌<◌, ◌^◌, ◌++◌, ◌∷◌, [], ℕ, List, Some, None, if◌then◌else◌, map, length, slice_set, slice_index_or, IfOk, OnOk};
ghost use Rattle.std.specs.List.{filter};
ghost use Rattle.std.specs.List.Sorted.{IsNonDecreasingBy};
ghost use Rattle.std.specs.Str.{bytes_eq};
ghost use Rattle.khe_base.specs.Names.{number_of};
ghost use Rattle.xhstt_resolve.specs.Members.{numbers_where};
ghost use Rattle.xhstt_resolve.specs.Points.{has_role};
ghost use Rattle.xhstt_resolve.specs.Roles.{AreRolesOf, held, is_at, role_place};
ghost use Rattle.xhstt_resolve.specs.Tables.{HasFewPlaces};

use khe_base::{NoMemory, Seq, Text};
use std::alloc::Global;
use xhstt_references::{Names, Seed};
use xhstt_shape::{RawEventResource, RawInstance};

/// An event resource that has a role.
#[derive(Clone, Copy)]
pub(crate) struct RolePlace {
    pub event: u32,
    pub place: u32,
}

/// The event resources of all events by their roles.
pub(crate) struct Roles {
    /// The roles, each once.
    pub names: Names,
    /// The event resources with each role, by the role's number, in the order of the events.
    pub places: Seq<Seq<RolePlace>>,
}

// By hand: an exit of a caller then has one call to prove, and not a drop for each field.
impl Drop for Roles {
    fn drop(self) {
        let Roles {
            names: _names,
            places: _places,
        } = self;
    }
}

/// The event resources of an instance by their roles. It takes time and memory in proportion to the
/// events, their event resources and the roles, on average.
pub(crate) fn roles_of(alloc: Global, instance: &RawInstance) -> Result<Roles, NoMemory>
    requires places { HasFewPlaces instance.now }
    requires events { length instance.now.events < 2 ^ 32 }
    ensures { IfOk result (AreRolesOf instance.now) }
{
    let mut names = Names::new(alloc, seed_of_roles(instance));
    let mut lists = Vec::new(alloc);
    for (event, raw) in instance.events.as_slice().iter().enumerate() {
        note_event(
            alloc,
            event as u32,
            raw.resources.as_slice(),
            &mut names,
            &mut lists,
        )?;
    }
    let places = Seq { items: lists };
    Ok(Roles { names, places })
}

/// The number that hashes of the roles of an instance begin with, in time in proportion to the roles.
fn seed_of_roles(instance: &RawInstance) -> u64 {
    let mut seed = Seed::new();
    for event in instance.events.as_slice() {
        for place in event.resources.as_slice() {
            if let Some(role) = &place.role {
                seed.add(role.text.spelling());
            }
        }
    }
    seed.number()
}

/// Adds the event resources of an event to the lists of their roles.
fn note_event(
    alloc: Global,
    event: u32,
    resources: &[RawEventResource],
    names: &mut Names,
    lists: &mut Vec<Seq<RolePlace>>,
) -> Result<(), NoMemory>
    requires few { length resources.now < 2 ^ 32 }
    requires whole { length names.old ≡ length lists.old.items }
    ensures whole { OnOk result (length names.new ≡ length lists.new.items) }
    ensures added { OnOk result ((role : List ℕ) → held names.new lists.new.items role ≡ held names.old lists.old.items role ++ map (role_place event) (numbers_where (has_role role) resources.now)) }
{
    for (place, resource) in resources.iter().enumerate() {
        let place = RolePlace {
            event,
            place: place as u32,
        };
        note_resource(alloc, resource, place, names, lists)?;
    }
    Ok(())
}

/// Adds an event resource to the list of its role, if it has one.
fn note_resource(
    alloc: Global,
    resource: &RawEventResource,
    place: RolePlace,
    names: &mut Names,
    lists: &mut Vec<Seq<RolePlace>>,
) -> Result<(), NoMemory>
    requires whole { length names.old ≡ length lists.old.items }
    ensures whole { OnOk result (length names.new ≡ length lists.new.items) }
    ensures added { OnOk result ((role : List ℕ) → held names.new lists.new.items role ≡ held names.old lists.old.items role ++ (if has_role role resource.now then place ∷ [] else [])) }
{
    match &resource.role {
        Some(role) => note_role(alloc, &role.text, place, names, lists),
        None => Ok(()),
    }
}

/// Adds an event resource to the list of a role.
fn note_role(
    alloc: Global,
    role: &Text,
    place: RolePlace,
    names: &mut Names,
    lists: &mut Vec<Seq<RolePlace>>,
) -> Result<(), NoMemory>
    requires whole { length names.old ≡ length lists.old.items }
    ensures whole { OnOk result (length names.new ≡ length lists.new.items) }
    ensures added { OnOk result ((r : List ℕ) → held names.new lists.new.items r ≡ held names.old lists.old.items r ++ (if bytes_eq role.now r then place ∷ [] else [])) }
{
    let number = role_number(alloc, role, names, lists)?;
    add_place(lists, number, place)
}

/// The number of a role. One that has none gets the next number and an empty list.
fn role_number(
    alloc: Global,
    role: &Text,
    names: &mut Names,
    lists: &mut Vec<Seq<RolePlace>>,
) -> Result<usize, NoMemory>
    requires whole { length names.old ≡ length lists.old.items }
    ensures whole { OnOk result (length names.new ≡ length lists.new.items) }
    ensures number { IfOk result (λ n. number_of role.now names.new ≡ Some n) }
    ensures same { OnOk result ((r : List ℕ) → held names.new lists.new.items r ≡ held names.old lists.old.items r) }
{
    match names.number(role) {
        Some(number) => Ok(number),
        None => new_role(alloc, role, names, lists),
    }
}

/// Gives a role that has no number the next one, and an empty list.
fn new_role(
    alloc: Global,
    role: &Text,
    names: &mut Names,
    lists: &mut Vec<Seq<RolePlace>>,
) -> Result<usize, NoMemory>
    requires new { number_of role.now names.old ≡ None }
    requires whole { length names.old ≡ length lists.old.items }
    ensures whole { OnOk result (length names.new ≡ length lists.new.items) }
    ensures number { IfOk result (λ n. number_of role.now names.new ≡ Some n) }
    ensures same { OnOk result ((r : List ℕ) → held names.new lists.new.items r ≡ held names.old lists.old.items r) }
{
    let number = names.len();
    lists.push(Seq::new(alloc))?;
    names.insert(role)?;
    Ok(number)
}

/// Adds an event resource to the end of a list.
fn add_place(
    lists: &mut Vec<Seq<RolePlace>>,
    number: usize,
    place: RolePlace,
) -> Result<(), NoMemory>
    requires { number < length lists.old.items }
    ensures { OnOk result (lists.new.items ≡ slice_set lists.old.items number (slice_index_or lists.old.items number [] ++ place ∷ [])) }
{
    let list = &mut lists[number];
    list.push(place)
}

impl Roles {
    /// The event resources with a role, in the order of the events. It takes the time of a hash of the
    /// role, on average.
    pub fn with_role(&self, role: &Text) -> &[RolePlace]
        ensures { result.now ≡ held self.now.names self.now.places role.now }
    {
        match self.names.number(role) {
            Some(number) => self.numbered(number),
            None => &[],
        }
    }

    /// The event resources with the role that has a number, and none where no role has it.
    fn numbered(&self, number: usize) -> &[RolePlace]
        ensures { result.now ≡ slice_index_or self.now.places number [] }
    {
        match self.places.as_slice().get(number) {
            Some(places) => places.as_slice(),
            None => &[],
        }
    }
}

/// Those of some event resources that are of an event, in time in proportion to the logarithm of how
/// many there are.
pub(crate) fn places_at(places: &[RolePlace], event: u32) -> &[RolePlace]
    requires { IsNonDecreasingBy (λ (p : RolePlace). p.event) places.now }
    ensures { result.now ≡ filter (is_at event) places.now }
{
    let start = places.partition_point(|place| place.event < event);
    let (_, rest) = places.split_at(start);
    let end = rest.partition_point(|place| place.event <= event);
    let (own, _) = rest.split_at(end);
    own
}
