//! An archive as records: what its elements say, before any Id is looked up.

ghost use Rattle.std.specs.Prelude.{◌≡◌, IfOk};

use crate::constraints::RawConstraint;
use crate::entries::Entries;
use khe_base::{NoMemory, Seq, Text};
use std::alloc::Global;
use std::marker::Model;

/// A reference to something by its Id.
#[derive(Drop)]
pub struct Ref {
    pub id: Text,
    /// The place of the first byte of the attribute's value.
    pub at: u64,
}

/// An Id, or a role.
#[derive(Drop)]
pub struct Name {
    pub text: Text,
    /// The place of the first byte of the attribute's value; for a role, of the element's value.
    pub at: u64,
}

/// An archive of instances and their solutions.
pub struct Archive {
    pub id: Option<Name>,
    pub meta_data: Option<About>,
    pub instances: Seq<RawInstance>,
    pub solution_groups: Seq<SolutionGroup>,
}

// By hand: an exit of a caller then has one call to prove, and not a drop for each field.
impl Drop for Archive {
    fn drop(self) {
        let Archive {
            id: _id,
            meta_data: _meta_data,
            instances: _instances,
            solution_groups: _solution_groups,
        } = self;
    }
}

/// What is said of an archive, an instance or a solution group as a whole.
pub struct MetaData {
    /// Empty where it is missing.
    pub name: Text,
    pub contributor: Option<Text>,
    pub date: Option<Text>,
    pub country: Option<Text>,
    pub description: Option<Text>,
    pub publication: Option<Text>,
    pub remarks: Option<Text>,
}

// By hand: an exit of a caller then has one call to prove, and not a drop for each field.
impl Drop for MetaData {
    fn drop(self) {
        let MetaData {
            name: _name,
            contributor: _contributor,
            date: _date,
            country: _country,
            description: _description,
            publication: _publication,
            remarks: _remarks,
        } = self;
    }
}

/// Boxed metadata: where there is none it takes a few bytes. Contracts see the metadata.
#[derive(Drop)]
pub struct About {
    said: Box<MetaData>,
}

impl Model for About {
    ghost use Rattle.xhstt_shape.specs.declared.records.MetaData.{MetaData};

    ghost Value = { MetaData };

    ghost view = { λ a. a.said.value };
}

impl About {
    /// Boxes the metadata.
    pub fn new(alloc: Global, said: MetaData) -> Result<About, NoMemory>
        ensures { IfOk result (λ a. a ≡ said) }
    {
        Ok(About {
            said: Box::new(alloc, said)?,
        })
    }

    /// What is said, in constant time.
    pub fn said(&self) -> &MetaData
        ensures { result.now ≡ self.now }
    {
        &self.said
    }
}

/// An instance. Each list is in the order of the text.
pub struct RawInstance {
    pub id: Name,
    pub meta_data: Option<About>,
    /// The time groups, with the weeks and the days.
    pub time_groups: Seq<TimeGroup>,
    /// The times, in chronological order.
    pub times: Seq<Time>,
    pub resource_types: Seq<ResourceType>,
    pub resource_groups: Seq<ResourceGroup>,
    pub resources: Seq<RawResource>,
    /// The event groups, with the courses.
    pub event_groups: Seq<EventGroup>,
    pub events: Seq<RawEvent>,
    pub constraints: Seq<RawConstraint>,
}

// By hand: an exit of a caller then has one call to prove, and not a drop for each field.
impl Drop for RawInstance {
    fn drop(self) {
        let RawInstance {
            id: _id,
            meta_data: _meta_data,
            time_groups: _time_groups,
            times: _times,
            resource_types: _resource_types,
            resource_groups: _resource_groups,
            resources: _resources,
            event_groups: _event_groups,
            events: _events,
            constraints: _constraints,
        } = self;
    }
}

/// By which element a time group is given.
#[derive(Clone, Copy)]
pub enum TimeSort {
    Week,
    Day,
    Group,
}

/// A time group.
#[derive(Drop)]
pub struct TimeGroup {
    pub sort: TimeSort,
    pub id: Name,
    /// Empty where it is missing.
    pub name: Text,
}

/// A time.
#[derive(Drop)]
pub struct Time {
    pub id: Name,
    /// Empty where it is missing.
    pub name: Text,
    pub week: Option<Ref>,
    pub day: Option<Ref>,
    /// The time groups that it is in, besides its week and its day.
    pub time_groups: Seq<Ref>,
}

/// A type of resources, as teachers or rooms.
#[derive(Drop)]
pub struct ResourceType {
    pub id: Name,
    /// Empty where it is missing.
    pub name: Text,
}

/// A group of resources of one type.
#[derive(Drop)]
pub struct ResourceGroup {
    pub id: Name,
    /// Empty where it is missing.
    pub name: Text,
    pub resource_type: Ref,
}

/// A resource.
#[derive(Drop)]
pub struct RawResource {
    pub id: Name,
    /// Empty where it is missing.
    pub name: Text,
    pub resource_type: Ref,
    pub resource_groups: Seq<Ref>,
}

/// By which element an event group is given.
#[derive(Clone, Copy)]
pub enum GroupSort {
    Course,
    Group,
}

/// An event group.
#[derive(Drop)]
pub struct EventGroup {
    pub sort: GroupSort,
    pub id: Name,
    /// Empty where it is missing.
    pub name: Text,
}

/// An event.
pub struct RawEvent {
    pub id: Name,
    pub color: Option<Text>,
    /// Empty where it is missing.
    pub name: Text,
    /// In times, from 1 to 1,000,000.
    pub duration: u32,
    /// At most 1,000,000.
    pub workload: Option<u32>,
    pub course: Option<Ref>,
    /// The preassigned time.
    pub time: Option<Ref>,
    pub resources: Seq<RawEventResource>,
    /// Groups of resources that all take part.
    pub resource_groups: Seq<Ref>,
    /// The event groups that it is in, besides its course.
    pub event_groups: Seq<Ref>,
}

// By hand: an exit of a caller then has one call to prove, and not a drop for each field.
impl Drop for RawEvent {
    fn drop(self) {
        let RawEvent {
            id: _id,
            color: _color,
            name: _name,
            duration: _duration,
            workload: _workload,
            course: _course,
            time: _time,
            resources: _resources,
            resource_groups: _resource_groups,
            event_groups: _event_groups,
        } = self;
    }
}

/// A place of an event for one resource.
#[derive(Drop)]
pub struct RawEventResource {
    /// The preassigned resource. Without one, the role and the type are there.
    pub reference: Option<Ref>,
    pub role: Option<Name>,
    pub resource_type: Option<Ref>,
    /// At most 1,000,000.
    pub workload: Option<u32>,
}

/// A group of solutions.
#[derive(Drop)]
pub struct SolutionGroup {
    pub id: Name,
    pub meta_data: Option<About>,
    pub solutions: Seq<RawSolution>,
}

/// A solution.
pub struct RawSolution {
    /// A reference to its instance.
    pub reference: Ref,
    pub description: Option<Text>,
    pub running_time: Option<Text>,
    pub events: Entries,
}

// By hand: an exit of a caller then has one call to prove, and not a drop for each field.
impl Drop for RawSolution {
    fn drop(self) {
        let RawSolution {
            reference: _reference,
            description: _description,
            running_time: _running_time,
            events: _events,
        } = self;
    }
}

/// What a solution says of one event, or of a part of it.
#[derive(Drop)]
pub struct RawEntry {
    /// A reference to the event.
    pub reference: Ref,
    /// In times, from 1 to 1,000,000.
    pub duration: Option<u32>,
    /// A reference to its starting time.
    pub time: Option<Ref>,
    pub resources: Seq<RawGiven>,
}

/// A resource that an entry gives.
#[derive(Drop)]
pub struct RawGiven {
    /// A reference to the resource.
    pub reference: Ref,
    /// The role of the place that it takes.
    pub role: Option<Name>,
}
