//! References that name nothing.
#![tactic(auto, using(crate::proofs::FirstLemmas::place_steps))]

ghost use Rattle.std.specs.Prelude.{◌≡◌, List, ℕ};
ghost use Rattle.std.specs.List.{flat_map};
ghost use Rattle.xhstt_references.specs.First.{first_of};
ghost use Rattle.xhstt_references.specs.References as spec;
ghost use Rattle.xhstt_references.specs.declared.directories.Directory.{Directory};

use crate::directories::Directory;
use crate::first::First;
use xhstt_shape::{
    RawApplies, RawConstraint, RawEvent, RawEventResource, RawInstance, RawPair, RawResource,
    RawRule, RawSpread, ResourceGroup, Time,
};

/// What refers to an instance's parts.
pub(crate) trait Refer {
    ghost unknown: { Directory → Self → List ℕ };

    /// Notes the places of its references that name nothing in the directory. It takes the time of
    /// a hash of each reference.
    fn note_unknown(&self, directory: &Directory, first: &mut First)
        ensures { first.new.at ≡ first_of first.old.at (unknown directory.now self.now) };
}

/// Notes the places of the references of some items that name nothing in the directory.
pub(crate) fn note_unknown_in<T: Refer>(directory: &Directory, items: &[T], first: &mut First)
    ensures { first.new.at ≡ first_of first.old.at (flat_map (T.unknown directory.now) items.now) }
{
    for item in items {
        item.note_unknown(directory, first);
    }
}

/// The first reference of an instance that names nothing in the directory. It takes the time of a
/// hash of each reference.
pub(crate) fn unknown_reference(directory: &Directory, instance: &RawInstance) -> First
    ensures { result.at ≡ first_of None (spec.unknown_in directory.now instance.now) }
{
    let mut first = First::new();
    note_unknown_in(directory, instance.times.as_slice(), &mut first);
    note_unknown_in(directory, instance.resource_groups.as_slice(), &mut first);
    note_unknown_in(directory, instance.resources.as_slice(), &mut first);
    note_unknown_in(directory, instance.events.as_slice(), &mut first);
    note_unknown_in(directory, instance.constraints.as_slice(), &mut first);
    first
}

impl Refer for Time {
    ghost unknown = { spec.unknown_in_time };

    fn note_unknown(&self, directory: &Directory, first: &mut First) {
        first.note_unknown_one(&directory.weeks, &self.week);
        first.note_unknown_one(&directory.days, &self.day);
        first.note_unknown_each(&directory.time_groups, &self.time_groups);
    }
}

impl Refer for ResourceGroup {
    ghost unknown = { spec.unknown_in_group };

    fn note_unknown(&self, directory: &Directory, first: &mut First) {
        first.note_unknown(&directory.resource_types, &self.resource_type);
    }
}

impl Refer for RawResource {
    ghost unknown = { spec.unknown_in_resource };

    fn note_unknown(&self, directory: &Directory, first: &mut First) {
        first.note_unknown(&directory.resource_types, &self.resource_type);
        first.note_unknown_each(&directory.resource_groups, &self.resource_groups);
    }
}

impl Refer for RawEventResource {
    ghost unknown = { spec.unknown_in_place };

    fn note_unknown(&self, directory: &Directory, first: &mut First) {
        first.note_unknown_one(&directory.resources, &self.reference);
        first.note_unknown_one(&directory.resource_types, &self.resource_type);
    }
}

impl Refer for RawEvent {
    ghost unknown = { spec.unknown_in_event };

    fn note_unknown(&self, directory: &Directory, first: &mut First) {
        first.note_unknown_one(&directory.courses, &self.course);
        first.note_unknown_one(&directory.times, &self.time);
        note_unknown_in(directory, self.resources.as_slice(), first);
        first.note_unknown_each(&directory.resource_groups, &self.resource_groups);
        first.note_unknown_each(&directory.event_groups, &self.event_groups);
    }
}

impl Refer for RawPair {
    ghost unknown = { spec.unknown_in_pair };

    fn note_unknown(&self, directory: &Directory, first: &mut First) {
        first.note_unknown(&directory.events, &self.first);
        first.note_unknown(&directory.events, &self.second);
    }
}

impl Refer for RawApplies {
    ghost unknown = { spec.unknown_in_applies };

    fn note_unknown(&self, directory: &Directory, first: &mut First) {
        match self {
            RawApplies::Events {
                event_groups,
                events,
            } => {
                first.note_unknown_each(&directory.event_groups, event_groups);
                first.note_unknown_each(&directory.events, events);
            }
            RawApplies::Groups { event_groups } => {
                first.note_unknown_each(&directory.event_groups, event_groups);
            }
            RawApplies::Pairs { pairs } => {
                note_unknown_in(directory, pairs.as_slice(), first);
            }
            RawApplies::Resources {
                resource_groups,
                resources,
            } => {
                first.note_unknown_each(&directory.resource_groups, resource_groups);
                first.note_unknown_each(&directory.resources, resources);
            }
        }
    }
}

impl Refer for RawSpread {
    ghost unknown = { spec.unknown_in_spread };

    fn note_unknown(&self, directory: &Directory, first: &mut First) {
        first.note_unknown(&directory.time_groups, &self.reference);
    }
}

impl Refer for RawRule {
    ghost unknown = { spec.unknown_in_rule };

    fn note_unknown(&self, directory: &Directory, first: &mut First) {
        match self {
            RawRule::PreferTimes {
                time_groups,
                times,
                ..
            }
            | RawRule::AvoidUnavailableTimes { time_groups, times } => {
                first.note_unknown_each(&directory.time_groups, time_groups);
                first.note_unknown_each(&directory.times, times);
            }
            RawRule::PreferResources {
                resource_groups,
                resources,
                ..
            } => {
                first.note_unknown_each(&directory.resource_groups, resource_groups);
                first.note_unknown_each(&directory.resources, resources);
            }
            RawRule::SpreadEvents { time_groups } => {
                note_unknown_in(directory, time_groups.as_slice(), first);
            }
            RawRule::LimitIdleTimes { time_groups, .. }
            | RawRule::ClusterBusyTimes { time_groups, .. }
            | RawRule::LimitBusyTimes { time_groups, .. } => {
                first.note_unknown_each(&directory.time_groups, time_groups);
            }
            RawRule::AssignTime
            | RawRule::AssignResource { .. }
            | RawRule::SplitEvents { .. }
            | RawRule::DistributeSplitEvents { .. }
            | RawRule::AvoidSplitAssignments { .. }
            | RawRule::LinkEvents
            | RawRule::OrderEvents
            | RawRule::AvoidClashes
            | RawRule::LimitWorkload { .. } => {}
        }
    }
}

impl Refer for RawConstraint {
    ghost unknown = { spec.unknown_in_constraint };

    fn note_unknown(&self, directory: &Directory, first: &mut First) {
        self.applies.note_unknown(directory, first);
        self.rule.note_unknown(directory, first);
    }
}
