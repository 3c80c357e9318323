//! What the entries of a solution name, by number.

ghost use Rattle.std.specs.Prelude.{◌≡◌, ◌++◌, ◌∷◌, [], List, ℕ, length, unwrap_or, IfOk, OnOk};
ghost use Rattle.std.specs.List.{flat_map};
ghost use Rattle.std.specs.Option.{option_map};
ghost use Rattle.khe_base.specs.Names.{number_of};
ghost use Rattle.xhstt_references.specs.Directories.{named_by};
ghost use Rattle.xhstt_references.specs.First.{first_of};
ghost use Rattle.xhstt_references.specs.Followed as spec;
ghost use Rattle.xhstt_references.specs.References.{unknown, unknown_one, unknown_in_entry, unknown_in_given};
ghost use Rattle.xhstt_shape.specs.Views.{seen_reference};

use crate::first::First;
use crate::part_names::InstanceNames;
use khe_base::{EventId, NoMemory, ResourceId, Seq, TimeId};
use std::alloc::Global;
use xhstt_shape::{Entries, EntryView, GivenViews, NameView};

/// What an entry of a solution names, by number.
#[derive(Clone, Copy)]
pub struct Named {
    pub event: EventId,
    pub time: Option<TimeId>,
    /// Where its resources begin among the resources that all entries give.
    pub first: u32,
}

/// What the entries of a solution name, in their order, and the resources that they give, those of all
/// entries in one list.
#[derive(Drop)]
pub struct Followed {
    pub named: Seq<Named>,
    pub given: Seq<ResourceId>,
}

/// What no entries name. It takes no memory.
pub(crate) fn nothing(alloc: Global) -> Followed
    ensures { result ≡ spec.nothing }
{
    Followed {
        named: Seq::new(alloc),
        given: Seq::new(alloc),
    }
}

/// What entries name, where a reference that names nothing has the number 0, and notes the places of
/// these references. It takes the time of a hash of each reference on average, and memory for what the
/// entries name.
pub(crate) fn follow(
    alloc: Global,
    names: &InstanceNames,
    entries: &Entries,
    first: &mut First,
) -> Result<Followed, NoMemory>
    ensures followed { IfOk result (λ f. f ≡ spec.followed names.now entries.now) }
    ensures first { OnOk result (first.new.at ≡ first_of first.old.at (flat_map (unknown_in_entry (named_by names.now)) entries.now)) }
{
    let mut named = Seq {
        items: Vec::with_capacity(alloc, entries.len())?,
    };
    let mut given = Seq::new(alloc);
    follow_entries(names, entries, &mut named, &mut given, first)?;
    given.items.shrink_to_fit();
    Ok(Followed { named, given })
}

/// Adds what entries name.
fn follow_entries(
    names: &InstanceNames,
    entries: &Entries,
    named: &mut Seq<Named>,
    given: &mut Seq<ResourceId>,
    first: &mut First,
) -> Result<(), NoMemory>
    ensures named { OnOk result (named.new ≡ named.old ++ spec.named_from names.now (length given.old) entries.now) }
    ensures given { OnOk result (given.new ≡ given.old ++ flat_map (spec.given_in names.now) entries.now) }
    ensures first { OnOk result (first.new.at ≡ first_of first.old.at (flat_map (unknown_in_entry (named_by names.now)) entries.now)) }
{
    let mut rest = entries.views();
    while let Some(entry) = rest.next() {
        follow_entry(names, &entry, named, given, first)?;
    }
    Ok(())
}

/// Adds what an entry names.
fn follow_entry(
    names: &InstanceNames,
    entry: &EntryView<'_>,
    named: &mut Seq<Named>,
    given: &mut Seq<ResourceId>,
    first: &mut First,
) -> Result<(), NoMemory>
    ensures named { OnOk result (named.new ≡ named.old ++ spec.named_at names.now (length given.old) entry.now ∷ []) }
    ensures given { OnOk result (given.new ≡ given.old ++ spec.given_in names.now entry.now) }
    ensures first { OnOk result (first.new.at ≡ first_of first.old.at (unknown_in_entry (named_by names.now) entry.now)) }
{
    let start = fitting(given.len())?;
    let event = follow_event(names, entry.reference(), first);
    let time = follow_time(names, entry.time(), first);
    follow_givens(names, entry.resources(), given, first)?;
    named.push(Named {
        event,
        time,
        first: start,
    })
}

/// A place among the resources of all entries in 32 bits. No archive is so long that it does not fit:
/// then it is as if memory were refused.
fn fitting(place: usize) -> Result<u32, NoMemory>
    ensures { IfOk result (λ n. n ≡ place) }
{
    match u32::try_from(place) {
        Ok(place) => Ok(place),
        Err(_) => Err(NoMemory),
    }
}

/// Adds the resources that an entry gives.
fn follow_givens(
    names: &InstanceNames,
    givens: GivenViews<'_>,
    given: &mut Seq<ResourceId>,
    first: &mut First,
) -> Result<(), NoMemory>
    ensures given { OnOk result (given.new ≡ given.old ++ spec.numbered_in names.now givens.entry) }
    ensures first { OnOk result (first.new.at ≡ first_of first.old.at (flat_map (unknown_in_given (named_by names.now)) givens.entry)) }
{
    let mut rest = givens;
    while let Some(one) = rest.next() {
        given.push(follow_resource(names, one.reference(), first))?;
    }
    Ok(())
}

/// The event that a reference names.
fn follow_event(names: &InstanceNames, reference: NameView<'_>, first: &mut First) -> EventId
    ensures event { result ≡ spec.event_numbered names.now (seen_reference reference.entry) }
    ensures first { first.new.at ≡ first_of first.old.at (unknown names.now.events (seen_reference reference.entry ∷ [])) }
{
    EventId(number_or_noted(names.event(reference.text), reference, first))
}

/// The resource that a reference names.
fn follow_resource(names: &InstanceNames, reference: NameView<'_>, first: &mut First) -> ResourceId
    ensures resource { result ≡ spec.resource_numbered names.now (seen_reference reference.entry) }
    ensures first { first.new.at ≡ first_of first.old.at (unknown names.now.resources (seen_reference reference.entry ∷ [])) }
{
    ResourceId(number_or_noted(names.resource(reference.text), reference, first))
}

/// The time that a reference names, if there is one.
#[tactic(auto, using(crate::proofs::FirstLemmas::first_of_nil))]
fn follow_time(
    names: &InstanceNames,
    reference: Option<NameView<'_>>,
    first: &mut First,
) -> Option<TimeId>
    ensures time { result ≡ option_map (spec.time_numbered names.now) (option_map seen_reference reference.entry) }
    ensures first { first.new.at ≡ first_of first.old.at (unknown_one names.now.times (option_map seen_reference reference.entry)) }
{
    match reference {
        Some(reference) => Some(TimeId(number_or_noted(
            names.time(reference.text),
            reference,
            first,
        ))),
        None => None,
    }
}

/// The number that was found for a reference, or 0 where there is none, and then its place is noted.
fn number_or_noted(found: Option<u32>, reference: NameView<'_>, first: &mut First) -> u32
    ensures number { result ≡ unwrap_or found 0 }
    ensures first { (names : List (List ℕ)) → found ≡ number_of (seen_reference reference.entry).id names → first.new.at ≡ first_of first.old.at (unknown names (seen_reference reference.entry ∷ [])) }
{
    match found {
        Some(number) => number,
        None => {
            first.note(reference.at);
            0
        }
    }
}
