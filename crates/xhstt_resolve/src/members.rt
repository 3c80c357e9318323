//! The members of groups.

ghost use Rattle.std.specs.Prelude.{◌≡◌, ◌<◌, ◌^◌, ◌∷◌, [], List, ℕ, true, length, map, slice_set, slice_index_or, replicate, IfOk, OnOk};
ghost use Rattle.std.specs.Option.{option_copied, option_to_list};
ghost use Rattle.khe_base.specs.Names.{are_distinct};
ghost use Rattle.xhstt_resolve.specs.Joined.{ends_with, with_last, joined};
ghost use Rattle.xhstt_resolve.specs.Members.{named, members, groups_of_time, groups_of_resource, groups_of_event};

use khe_base::{NoMemory, Seq};
use std::alloc::Global;
use xhstt_references::Names;
use xhstt_shape::{RawEvent, RawResource, Ref, Time};

/// What may be in groups.
pub(crate) trait Grouped {
    ghost groups: { Self → List (List ℕ) };

    /// Adds its number to the list of each group that it names.
    fn join(&self, number: u32, names: &Names, lists: &mut Vec<Seq<u32>>) -> Result<(), NoMemory>
        requires same { length names.now ≡ length lists.old.items }
        requires distinct { are_distinct names.now ≡ true }
        ensures { OnOk result (lists.new.items ≡ joined number (groups self.now) names.now lists.old.items) };
}

impl Grouped for Time {
    ghost groups = { groups_of_time };

    fn join(&self, number: u32, names: &Names, lists: &mut Vec<Seq<u32>>) -> Result<(), NoMemory> {
        join_optional(self.week.as_ref(), number, names, lists)?;
        join_optional(self.day.as_ref(), number, names, lists)?;
        join_all(self.time_groups.as_slice(), number, names, lists)
    }
}

impl Grouped for RawResource {
    ghost groups = { groups_of_resource };

    fn join(&self, number: u32, names: &Names, lists: &mut Vec<Seq<u32>>) -> Result<(), NoMemory> {
        join_all(self.resource_groups.as_slice(), number, names, lists)
    }
}

impl Grouped for RawEvent {
    ghost groups = { groups_of_event };

    fn join(&self, number: u32, names: &Names, lists: &mut Vec<Seq<u32>>) -> Result<(), NoMemory> {
        join_optional(self.course.as_ref(), number, names, lists)?;
        join_all(self.event_groups.as_slice(), number, names, lists)
    }
}

/// The numbers of the members of each group, ascending, by the groups' numbers.
///
/// It takes time and memory in proportion to the references of the items and to the groups, on
/// average.
pub(crate) fn members_of<T: Grouped>(
    alloc: Global,
    items: &[T],
    names: &Names,
) -> Result<Seq<Seq<u32>>, NoMemory>
    requires { length items.now < 2 ^ 32 }
    ensures { IfOk result (λ lists. lists ≡ map (members T.groups items.now) names.now) }
{
    let mut lists = no_members(alloc, names.len())?;
    for (number, item) in items.iter().enumerate() {
        item.join(number as u32, names, &mut lists)?;
    }
    Ok(Seq { items: lists })
}

/// The given number of empty lists.
fn no_members(alloc: Global, count: usize) -> Result<Vec<Seq<u32>>, NoMemory>
    ensures { IfOk result (λ lists. lists.items ≡ replicate count []) }
{
    let mut lists = Vec::new(alloc);
    for _ in 0..count {
        lists.push(Seq::new(alloc))?;
    }
    Ok(lists)
}

/// Adds a number to the list of each group that is named.
fn join_all(
    references: &[Ref],
    number: u32,
    names: &Names,
    lists: &mut Vec<Seq<u32>>,
) -> Result<(), NoMemory>
    requires same { length names.now ≡ length lists.old.items }
    requires distinct { are_distinct names.now ≡ true }
    ensures { OnOk result (lists.new.items ≡ joined number (named references.now) names.now lists.old.items) }
{
    for reference in references {
        join_one(reference, number, names, lists)?;
    }
    Ok(())
}

/// Adds a number to the list of a group that may be named.
fn join_optional(
    reference: Option<&Ref>,
    number: u32,
    names: &Names,
    lists: &mut Vec<Seq<u32>>,
) -> Result<(), NoMemory>
    requires same { length names.now ≡ length lists.old.items }
    requires distinct { are_distinct names.now ≡ true }
    ensures { OnOk result (lists.new.items ≡ joined number (named (option_to_list (option_copied reference.entry))) names.now lists.old.items) }
{
    match reference {
        Some(reference) => join_one(reference, number, names, lists),
        None => Ok(()),
    }
}

/// Adds a number to the list of the group that is named, where there is one.
fn join_one(
    reference: &Ref,
    number: u32,
    names: &Names,
    lists: &mut Vec<Seq<u32>>,
) -> Result<(), NoMemory>
    requires same { length names.now ≡ length lists.old.items }
    requires distinct { are_distinct names.now ≡ true }
    ensures { OnOk result (lists.new.items ≡ joined number (reference.now.id ∷ []) names.now lists.old.items) }
{
    match names.number(&reference.id) {
        Some(group) => add_last(lists, group, number),
        None => Ok(()),
    }
}

/// Adds a number to the end of a group's list, once.
fn add_last(lists: &mut Vec<Seq<u32>>, group: usize, number: u32) -> Result<(), NoMemory>
    requires { group < length lists.old.items }
    ensures { OnOk result (lists.new.items ≡ slice_set lists.old.items group (with_last number (slice_index_or lists.old.items group []))) }
{
    let list = &mut lists[group];
    if !is_last(list.as_slice(), number) {
        list.push(number)?;
    }
    Ok(())
}

/// Whether a list ends with a number.
fn is_last(numbers: &[u32], number: u32) -> bool
    ensures { result ≡ ends_with number numbers.now }
{
    match numbers.last() {
        Some(last) => *last == number,
        None => false,
    }
}
