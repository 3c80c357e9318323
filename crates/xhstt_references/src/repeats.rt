//! Ids that stand twice.

ghost use Rattle.std.specs.Prelude.{◌≡◌, [], ◌∷◌, map, if◌then◌else◌, IfOk, OnOk};
ghost use Rattle.std.specs.List.{filter, flat_map};
ghost use Rattle.std.specs.Option.{option_map_or};
ghost use Rattle.khe_base.specs.Names.{is_among_names, with_name};
ghost use Rattle.xhstt_references.specs.First.{first_of};
ghost use Rattle.xhstt_references.specs.Ids.{is_week, is_day, is_course};
ghost use Rattle.xhstt_references.specs.References as spec;

use crate::first::First;
use crate::hashing::Seed;
use crate::ids::HasId;
use crate::names::Names;
use khe_base::NoMemory;
use std::alloc::Global;
use xhstt_shape::{EventGroup, GroupSort, Name, RawEvent, RawEventResource, TimeGroup, TimeSort};

/// Adds a name to the names that came before, and notes its place if it is among them.
fn note_repeated(names: &mut Names, name: &Name, first: &mut First) -> Result<(), NoMemory>
    ensures names { OnOk result (names.new ≡ with_name name.now.text names.old) }
    ensures first { OnOk result (first.new.at ≡ first_of first.old.at (if is_among_names name.now.text names.old then name.now.at ∷ [] else [])) }
{
    if !names.insert(&name.text)? {
        first.note(name.at);
    }
    Ok(())
}

/// The number that hashes of the Ids of some items begin with, in time in proportion to the Ids.
fn seed_of<T: HasId>(items: &[T]) -> u64 {
    let mut seed = Seed::new();
    for item in items {
        seed.add(item.id().text.spelling());
    }
    seed.number()
}

/// The number that hashes of the roles of some places begin with, in time in proportion to the roles.
fn seed_of_roles(places: &[RawEventResource]) -> u64 {
    let mut seed = Seed::new();
    for place in places {
        if let Some(role) = &place.role {
            seed.add(role.text.spelling());
        }
    }
    seed.number()
}

/// The Ids of some items with their numbers; the places of Ids that came before are noted. It takes time and
/// memory in proportion to the Ids, on average.
pub(crate) fn names_of<T: HasId>(
    alloc: Global,
    items: &[T],
    first: &mut First,
) -> Result<Names, NoMemory>
    ensures names { IfOk result (λ names. spec.repeated (map T.id items.now) ≡ [] → names ≡ map (λ item. (T.id item).text) items.now) }
    ensures first { OnOk result (first.new.at ≡ first_of first.old.at (spec.repeated (map T.id items.now))) }
{
    let mut names = Names::new(alloc, seed_of(items));
    for item in items {
        note_repeated(&mut names, item.id(), first)?;
    }
    Ok(names)
}

/// The Ids of the weeks among some time groups with their numbers, where no Id is repeated.
pub(crate) fn weeks_of(alloc: Global, groups: &[TimeGroup]) -> Result<Names, NoMemory>
    ensures { IfOk result (λ names. spec.repeated (map (λ g. g.id) groups.now) ≡ [] → names ≡ map (λ g. g.id.text) (filter (λ g. is_week g.sort) groups.now)) }
{
    let mut names = Names::new(alloc, seed_of(groups));
    for group in groups {
        if let TimeSort::Week = group.sort {
            names.insert(&group.id.text)?;
        }
    }
    Ok(names)
}

/// The Ids of the days among some time groups with their numbers, where no Id is repeated.
pub(crate) fn days_of(alloc: Global, groups: &[TimeGroup]) -> Result<Names, NoMemory>
    ensures { IfOk result (λ names. spec.repeated (map (λ g. g.id) groups.now) ≡ [] → names ≡ map (λ g. g.id.text) (filter (λ g. is_day g.sort) groups.now)) }
{
    let mut names = Names::new(alloc, seed_of(groups));
    for group in groups {
        if let TimeSort::Day = group.sort {
            names.insert(&group.id.text)?;
        }
    }
    Ok(names)
}

/// The Ids of the courses among some event groups with their numbers, where no Id is repeated.
pub(crate) fn courses_of(alloc: Global, groups: &[EventGroup]) -> Result<Names, NoMemory>
    ensures { IfOk result (λ names. spec.repeated (map (λ g. g.id) groups.now) ≡ [] → names ≡ map (λ g. g.id.text) (filter (λ g. is_course g.sort) groups.now)) }
{
    let mut names = Names::new(alloc, seed_of(groups));
    for group in groups {
        if let GroupSort::Course = group.sort {
            names.insert(&group.id.text)?;
        }
    }
    Ok(names)
}

/// The first role that came before among those of the same event. It takes time in proportion to
/// the roles, on average, and memory for those of one event at a time.
pub(crate) fn repeated_roles(alloc: Global, events: &[RawEvent]) -> Result<First, NoMemory>
    ensures { IfOk result (λ first. first.at ≡ first_of None (flat_map (λ e. spec.repeated (spec.roles_of e)) events.now)) }
{
    let mut first = First::new();
    for event in events {
        note_repeated_roles(alloc, event, &mut first)?;
    }
    Ok(first)
}

/// Notes the places of the roles of an event that came before among them.
fn note_repeated_roles(alloc: Global, event: &RawEvent, first: &mut First) -> Result<(), NoMemory>
    ensures { OnOk result (first.new.at ≡ first_of first.old.at (spec.repeated (spec.roles_of event.now))) }
{
    let mut names = Names::new(alloc, seed_of_roles(event.resources.as_slice()));
    for place in event.resources.as_slice() {
        note_repeated_role(&mut names, &place.role, first)?;
    }
    Ok(())
}

/// Adds a role that may be missing to the roles that came before, and notes its place if it is among them.
#[tactic(auto, using(crate::proofs::FirstLemmas::first_of_nil))]
fn note_repeated_role(
    names: &mut Names,
    role: &Option<Name>,
    first: &mut First,
) -> Result<(), NoMemory>
    ensures names { OnOk result (names.new ≡ option_map_or (λ n. with_name n.text names.old) role.now names.old) }
    ensures first { OnOk result (first.new.at ≡ first_of first.old.at (option_map_or (λ n. if is_among_names n.text names.old then n.at ∷ [] else []) role.now [])) }
{
    match role {
        Some(role) => note_repeated(names, role, first),
        None => Ok(()),
    }
}
