//! The times, resources and events of an instance by their names and groups.

ghost use Rattle.std.specs.Prelude.{◌≡◌, ◌<◌, ◌≤◌, ◌^◌, length, IfOk, OnOk};
ghost use Rattle.std.specs.List.{fold, flat_map};
ghost use Rattle.khe_base.specs.Names.{number_of};
ghost use Rattle.xhstt_resolve.specs.Members.{set_of, first_mentions, numbers_of, members_in};
ghost use Rattle.xhstt_resolve.specs.Tables.{IsTable, IsTableOf, IsLookup, HasNames, HasKeptCounts, members_numbered, members_at, listed_at, listed_once};

use crate::collecting::{Collect, Mentions};
use crate::grouped_sets::{Members, add_all};
use crate::members::{Grouped, members_of};
use crate::resources::types_of;
use khe_base::{IdSet, NoMemory, Seq, Text, both};
use std::alloc::Global;
use xhstt_references::{Directory, Names};
use xhstt_shape::{RawInstance, Ref};

/// One sort of items, as the times of an instance, with the groups of them.
#[derive(Drop)]
pub(crate) struct Table<'a> {
    pub names: &'a Names,
    pub group_names: &'a Names,
    /// The numbers of the members of each group, ascending.
    pub members: Seq<Members>,
}

/// The times, resources and events of an instance.
#[derive(Drop)]
pub(crate) struct Tables<'a> {
    pub times: Table<'a>,
    pub resources: Table<'a>,
    pub events: Table<'a>,
}

/// An instance with what its Ids lead to.
pub(crate) struct Lookup<'a> {
    pub instance: &'a RawInstance,
    pub names: &'a Directory,
    /// The numbers of the types of the resources: a type's Id may be long, and is followed once for
    /// each resource, not at each place that the resource takes.
    pub types: Seq<u32>,
    pub tables: Tables<'a>,
}

// By hand: an exit of a caller then has one call to prove, and not a drop for each field.
impl Drop for Lookup<'_> {
    fn drop(self) {
        let Lookup {
            instance: _instance,
            names: _names,
            types: _types,
            tables: _tables,
        } = self;
    }
}

/// The lookup of an instance. It takes time and memory in proportion to the references to groups of
/// its times, resources and events, to those to types of its resources, and to the groups, on
/// average.
pub(crate) fn lookup_of<'a>(
    alloc: Global,
    instance: &'a RawInstance,
    names: &'a Directory,
) -> Result<Lookup<'a>, NoMemory>
    requires names { HasNames instance.now names.now }
    requires counts { HasKeptCounts instance.now }
    ensures lookup { IfOk result IsLookup }
    ensures instance { IfOk result (λ l. l.instance.now ≡ instance.now) }
{
    let types = types_of(alloc, instance.resources.as_slice(), &names.resource_types);
    let times = table_of(
        alloc,
        instance.times.as_slice(),
        &names.times,
        &names.time_groups,
    );
    let resources = table_of(
        alloc,
        instance.resources.as_slice(),
        &names.resources,
        &names.resource_groups,
    );
    let events = table_of(
        alloc,
        instance.events.as_slice(),
        &names.events,
        &names.event_groups,
    );
    let (types, (times, (resources, events))) = both(types, both(times, both(resources, events)))?;
    let tables = Tables {
        times,
        resources,
        events,
    };
    Ok(Lookup {
        instance,
        names,
        types,
        tables,
    })
}

/// The table of some items and of the groups of them.
fn table_of<'a, T: Grouped>(
    alloc: Global,
    items: &[T],
    names: &'a Names,
    group_names: &'a Names,
) -> Result<Table<'a>, NoMemory>
    requires few { length items.now < 2 ^ 32 }
    requires few_groups { length group_names.now < 2 ^ 32 }
    requires same { length names.now ≡ length items.now }
    ensures { IfOk result (IsTableOf names.now (members_in group_names.now T.groups items.now)) }
{
    let lists = members_of(alloc, items, group_names)?;
    let members = with_sets(alloc, items.len() as u32, lists)?;
    Ok(Table {
        names,
        group_names,
        members,
    })
}

/// Lists of members of groups of `size` items, as members.
fn with_sets(alloc: Global, size: u32, lists: Seq<Seq<u32>>) -> Result<Seq<Members>, NoMemory>
    ensures { IfOk result (λ members. members ≡ lists) }
{
    let mut members = Seq::new(alloc);
    for list in lists.items {
        members.push(Members::new(alloc, size, list)?)?;
    }
    Ok(members)
}

impl<'a> Table<'a> {
    /// How many items there are.
    pub fn size(&self) -> u32
        requires { IsTable self.now }
        ensures { result ≡ length self.now.names.now }
    {
        self.names.len() as u32
    }

    /// The number of the item that is named, if there is one, in constant time on average.
    pub fn number(&self, reference: &Ref) -> Option<u32>
        requires { IsTable self.now }
        ensures { result ≡ number_of reference.now.id self.now.names.now }
    {
        let number = self.names.number(&reference.id)?;
        Some(number as u32)
    }

    /// The members of the group with an Id, and none where there is no such group, in constant time
    /// on average.
    pub fn members(&self, group: &Text) -> &[u32]
        requires { IsTable self.now }
        ensures { result.now ≡ members_at self.now group.now }
    {
        match self.group_names.number(group) {
            Some(number) => self.members_numbered(number as u32),
            None => &[],
        }
    }

    /// The members of the group with a number, and none where there is no such group, in constant
    /// time.
    fn members_numbered(&self, group: u32) -> &[u32]
        ensures { result.now ≡ members_numbered self.now group }
    {
        match self.members.as_slice().get(group as usize) {
            Some(members) => members.as_slice(),
            None => &[],
        }
    }

    /// The set of the members of a group, in constant time on average but for time and memory in proportion to a 64th
    /// of the items.
    pub fn group_set(&self, alloc: Global, group: &Text) -> Result<IdSet, NoMemory>
        requires { IsTable self.now }
        ensures { IfOk result (λ s. s ≡ set_of (length self.now.names.now) (members_at self.now group.now)) }
    {
        match self.group_names.number(group) {
            Some(number) => self.set_numbered(alloc, number as u32),
            None => IdSet::new(alloc, self.size()),
        }
    }

    /// The set of the members of the group with a number, and the empty one where there is no such group.
    fn set_numbered(&self, alloc: Global, group: u32) -> Result<IdSet, NoMemory>
        requires { IsTable self.now }
        ensures { IfOk result (λ s. s ≡ set_of (length self.now.names.now) (members_numbered self.now group)) }
    {
        match self.members.as_slice().get(group as usize) {
            Some(members) => members.set(alloc, self.size()),
            None => IdSet::new(alloc, self.size()),
        }
    }

    /// The set of what is listed. It takes time in proportion to the list, on average, to the members
    /// of the groups in it, each group once however often it is listed, and to a 64th of the items
    /// and groups; and memory in proportion to those two 64ths and to the groups in the list.
    pub fn set(&self, alloc: Global, groups: &[Ref], singles: &[Ref]) -> Result<IdSet, NoMemory>
        requires { IsTable self.now }
        ensures { IfOk result (λ s. s ≡ set_of (length self.now.names.now) (listed_at self.now groups.now singles.now)) }
    {
        let mut set = IdSet::new(alloc, self.size())?;
        self.collect(alloc, groups, singles, &mut set)?;
        Ok(set)
    }

    /// What is listed, each item at its first mention. It takes the time of the set, and its memory
    /// and that of the items.
    pub fn first_mentions(
        &self,
        alloc: Global,
        groups: &[Ref],
        singles: &[Ref],
    ) -> Result<Seq<u32>, NoMemory>
        requires { IsTable self.now }
        ensures numbers { IfOk result (λ ns. ns ≡ first_mentions (listed_at self.now groups.now singles.now)) }
        ensures few { IfOk result (λ ns. length ns ≤ length self.now.names.now) }
    {
        let mut mentions = Mentions::new(alloc, self.size())?;
        self.collect(alloc, groups, singles, &mut mentions)?;
        let Mentions { seen: _, numbers } = mentions;
        Ok(numbers)
    }

    /// Collects what is listed: the members of each group, at the group's first mention alone, and
    /// then what is listed singly.
    fn collect<C: Collect>(
        &self,
        alloc: Global,
        groups: &[Ref],
        singles: &[Ref],
        into: &mut C,
    ) -> Result<(), NoMemory>
        requires { IsTable self.now }
        ensures { OnOk result (into.new ≡ fold C.added into.old (listed_once self.now groups.now singles.now)) }
    {
        let groups = first_named(alloc, self.group_names, groups)?;
        self.collect_members(groups.as_slice(), into)?;
        collect_named(self.names, singles, into)
    }

    /// Collects the members of groups, group by group.
    fn collect_members<C: Collect>(&self, groups: &[u32], into: &mut C) -> Result<(), NoMemory>
        ensures { OnOk result (into.new ≡ fold C.added into.old (flat_map (members_numbered self.now) groups.now)) }
    {
        for group in groups {
            add_all(self.members_numbered(*group), into)?;
        }
        Ok(())
    }
}

/// What references name, each at its first mention. It takes time in proportion to the names and
/// the references, on average, and memory in proportion to the names.
pub(crate) fn first_named(
    alloc: Global,
    names: &Names,
    references: &[Ref],
) -> Result<Seq<u32>, NoMemory>
    requires { length names.now < 2 ^ 32 }
    ensures { IfOk result (λ ns. ns ≡ first_mentions (numbers_of names.now references.now)) }
{
    let mut mentions = Mentions::new(alloc, names.len() as u32)?;
    collect_named(names, references, &mut mentions)?;
    let Mentions { seen: _, numbers } = mentions;
    Ok(numbers)
}

/// Collects the numbers of what references name.
fn collect_named<C: Collect>(
    names: &Names,
    references: &[Ref],
    into: &mut C,
) -> Result<(), NoMemory>
    requires { length names.now < 2 ^ 32 }
    ensures { OnOk result (into.new ≡ fold C.added into.old (numbers_of names.now references.now)) }
{
    for reference in references {
        if let Some(number) = names.number(&reference.id) {
            into.add(number as u32)?;
        }
    }
    Ok(())
}
