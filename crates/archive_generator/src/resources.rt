//! The resources of a job.

ghost use Rattle.std.specs.Prelude.{◌≡◌, ◌++◌, map, IfOk, OnOk, IsTrue};
ghost use Rattle.khe_base.specs.Text.{is_ascii};
ghost use Rattle.archive_generator.specs.Names.{below};
ghost use Rattle.archive_generator.specs.Resources as spec;

use crate::lists::{roomy, to_one};
use crate::names::{name, numbered_name, to};
use crate::sizes::{classes, rooms, teachers};
use khe_base::{NoMemory, Seq, Text, both};
use std::alloc::Global;
use xhstt_shape::{RawResource, ResourceGroup, ResourceType};

/// A type of resources.
fn resource_type(alloc: Global, id: &str) -> Result<ResourceType, NoMemory>
    requires { IsTrue (is_ascii id.now) }
    ensures { IfOk result (λ t. t ≡ spec.resource_type id.now) }
{
    Ok(ResourceType {
        id: name(alloc, id)?,
        name: Text::new(alloc),
    })
}

/// The types of resources.
#[tactic(auto, unfolding(crate::specs::Resources::resource_types))]
pub(crate) fn resource_types(alloc: Global) -> Result<Seq<ResourceType>, NoMemory>
    ensures { IfOk result (λ types. types ≡ spec.resource_types) }
{
    let mut types = roomy(alloc, 3)?;
    types.push(resource_type(alloc, "Teacher")?)?;
    types.push(resource_type(alloc, "Class")?)?;
    types.push(resource_type(alloc, "Room")?)?;
    Ok(types)
}

/// A group of resources of a type.
fn resource_group(alloc: Global, id: &str, type_id: &str) -> Result<ResourceGroup, NoMemory>
    requires id { IsTrue (is_ascii id.now) }
    requires type_id { IsTrue (is_ascii type_id.now) }
    ensures { IfOk result (λ g. g ≡ spec.resource_group id.now type_id.now) }
{
    let (id, resource_type) = both(name(alloc, id), to(alloc, type_id))?;
    Ok(ResourceGroup {
        id,
        name: Text::new(alloc),
        resource_type,
    })
}

/// The groups of resources, one for each type.
#[tactic(auto, unfolding(crate::specs::Resources::resource_groups))]
pub(crate) fn resource_groups(alloc: Global) -> Result<Seq<ResourceGroup>, NoMemory>
    ensures { IfOk result (λ groups. groups ≡ spec.resource_groups) }
{
    let mut groups = roomy(alloc, 3)?;
    groups.push(resource_group(alloc, "gp", "Teacher")?)?;
    groups.push(resource_group(alloc, "gc", "Class")?)?;
    groups.push(resource_group(alloc, "gq", "Room")?)?;
    Ok(groups)
}

/// A sort of resources.
#[derive(Clone, Copy)]
pub enum Sort {
    Teacher,
    Class,
    Room,
}

impl Sort {
    /// What the Ids of its resources begin with.
    fn word(self) -> &'static str
        ensures value { result.now ≡ spec.word self }
        ensures ascii { IsTrue (is_ascii result.now) }
    {
        match self {
            Sort::Teacher => "p",
            Sort::Class => "c",
            Sort::Room => "q",
        }
    }

    /// The Id of its type.
    fn type_id(self) -> &'static str
        ensures value { result.now ≡ spec.type_id self }
        ensures ascii { IsTrue (is_ascii result.now) }
    {
        match self {
            Sort::Teacher => "Teacher",
            Sort::Class => "Class",
            Sort::Room => "Room",
        }
    }

    /// The Id of its group.
    fn group(self) -> &'static str
        ensures value { result.now ≡ spec.group self }
        ensures ascii { IsTrue (is_ascii result.now) }
    {
        match self {
            Sort::Teacher => "gp",
            Sort::Class => "gc",
            Sort::Room => "gq",
        }
    }
}

/// A resource of a sort.
fn resource(alloc: Global, sort: Sort, number: u32) -> Result<RawResource, NoMemory>
    ensures { IfOk result (λ r. r ≡ spec.resource sort number) }
{
    let id = numbered_name(alloc, sort.word(), number);
    let ((id, resource_type), resource_groups) = both(
        both(id, to(alloc, sort.type_id())),
        to_one(alloc, sort.group()),
    )?;
    Ok(RawResource {
        id,
        name: Text::new(alloc),
        resource_type,
        resource_groups,
    })
}

/// Adds the given number of resources of a sort.
fn add_resources(
    alloc: Global,
    list: &mut Seq<RawResource>,
    sort: Sort,
    count: u32,
) -> Result<(), NoMemory>
    ensures { OnOk result (list.new ≡ list.old ++ map (spec.resource sort) (below count)) }
{
    for number in 0..count {
        list.push(resource(alloc, sort, number)?)?;
    }
    Ok(())
}

/// The resources.
#[tactic(auto, unfolding(crate::specs::Resources::resources))]
pub(crate) fn resources(alloc: Global, size: u32) -> Result<Seq<RawResource>, NoMemory>
    ensures { IfOk result (λ list. list ≡ spec.resources size) }
{
    let (teachers, classes, rooms) = (teachers(size), classes(size), rooms(size));
    let mut list = roomy(alloc, (teachers + classes + rooms) as usize)?;
    add_resources(alloc, &mut list, Sort::Teacher, teachers)?;
    add_resources(alloc, &mut list, Sort::Class, classes)?;
    add_resources(alloc, &mut list, Sort::Room, rooms)?;
    Ok(list)
}
