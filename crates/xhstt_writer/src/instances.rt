//! Writing instances.

ghost use Rattle.std.specs.Prelude.{◌≡◌, [], true, false};
ghost use Rattle.xhstt_writer.specs.Archives as spec;
ghost use Rattle.xhstt_writer.specs.Parts as parts;
ghost use Rattle.xhstt_writer.specs.Output.{Writes, WritesOne};

use crate::lists::{Tagged, Write, items, list, tagged_list, write_if};
use crate::output::Output;
use crate::parts::{attribute, begin, end, name, reference, reference_if};
use khe_base::Text;
use xhstt_shape::{
    EventGroup, GroupSort, Label, Name, RawInstance, RawResource, ResourceGroup, ResourceType, Tag,
    Time, TimeGroup, TimeSort,
};

/// Writes an element with an Id and, where it is not empty, a name.
fn named<O: Output>(out: &mut O, opened: bool, tag: Tag, id: &Name, text: &Text)
    ensures { WritesOne (O.said out.old) opened (O.said out.new) tag (spec.named id.now text.now) }
{
    begin(out, opened, tag);
    attribute(out, Label::Id, &id.text);
    let inside = name(out, true, text);
    end(out, inside, tag);
}

impl Write for TimeGroup {
    ghost use Rattle.xhstt_writer.specs.Archives as spec;

    ghost body = { spec.time_group };

    fn write<O: Output>(&self, out: &mut O, opened: bool, tag: Tag) {
        named(out, opened, tag, &self.id, &self.name);
    }
}

impl Tagged for TimeGroup {
    ghost use Rattle.xhstt_writer.specs.Archives as spec;

    ghost own_tag = { spec.time_group_tag };

    fn tag(&self) -> Tag {
        match self.sort {
            TimeSort::Week => Tag::Week,
            TimeSort::Day => Tag::Day,
            TimeSort::Group => Tag::TimeGroup,
        }
    }
}

impl Write for Time {
    ghost use Rattle.xhstt_writer.specs.Archives as spec;

    ghost body = { spec.time };

    fn write<O: Output>(&self, out: &mut O, opened: bool, tag: Tag) {
        begin(out, opened, tag);
        attribute(out, Label::Id, &self.id.text);
        let mut inside = name(out, true, &self.name);
        inside = reference_if(out, inside, Tag::Week, &self.week);
        inside = reference_if(out, inside, Tag::Day, &self.day);
        inside = list(
            out,
            inside,
            Tag::TimeGroups,
            Tag::TimeGroup,
            &self.time_groups,
        );
        end(out, inside, tag);
    }
}

impl Write for ResourceType {
    ghost use Rattle.xhstt_writer.specs.Archives as spec;

    ghost body = { spec.resource_type };

    fn write<O: Output>(&self, out: &mut O, opened: bool, tag: Tag) {
        named(out, opened, tag, &self.id, &self.name);
    }
}

impl Write for ResourceGroup {
    ghost use Rattle.xhstt_writer.specs.Archives as spec;

    ghost body = { spec.resource_group };

    fn write<O: Output>(&self, out: &mut O, opened: bool, tag: Tag) {
        begin(out, opened, tag);
        attribute(out, Label::Id, &self.id.text);
        let inside = name(out, true, &self.name);
        reference(out, inside, Tag::ResourceType, &self.resource_type);
        end(out, false, tag);
    }
}

impl Write for RawResource {
    ghost use Rattle.xhstt_writer.specs.Archives as spec;

    ghost body = { spec.resource };

    fn write<O: Output>(&self, out: &mut O, opened: bool, tag: Tag) {
        begin(out, opened, tag);
        attribute(out, Label::Id, &self.id.text);
        let mut inside = name(out, true, &self.name);
        reference(out, inside, Tag::ResourceType, &self.resource_type);
        inside = list(
            out,
            false,
            Tag::ResourceGroups,
            Tag::ResourceGroup,
            &self.resource_groups,
        );
        end(out, inside, tag);
    }
}

impl Write for EventGroup {
    ghost use Rattle.xhstt_writer.specs.Archives as spec;

    ghost body = { spec.event_group };

    fn write<O: Output>(&self, out: &mut O, opened: bool, tag: Tag) {
        named(out, opened, tag, &self.id, &self.name);
    }
}

impl Tagged for EventGroup {
    ghost use Rattle.xhstt_writer.specs.Archives as spec;

    ghost own_tag = { spec.event_group_tag };

    fn tag(&self) -> Tag {
        match self.sort {
            GroupSort::Course => Tag::Course,
            GroupSort::Group => Tag::EventGroup,
        }
    }
}

impl Write for RawInstance {
    ghost use Rattle.xhstt_writer.specs.Archives as spec;

    ghost body = { spec.instance };

    fn write<O: Output>(&self, out: &mut O, opened: bool, tag: Tag) {
        begin(out, opened, tag);
        attribute(out, Label::Id, &self.id.text);
        let mut inside = write_if(out, true, Tag::MetaData, &self.meta_data);
        inside = times(out, inside, self);
        inside = resources(out, inside, self);
        inside = events(out, inside, self);
        inside = tagged_list(out, inside, Tag::Constraints, &self.constraints);
        end(out, inside, tag);
    }
}

/// Whether there are neither times nor groups of times.
#[tactic(auto, using(crate::proofs::ListLemmas::none_of_two))]
fn has_no_times(instance: &RawInstance) -> bool
    ensures { result ≡ parts.is_none (parts.row (spec.times_parts instance.now)) }
{
    instance.time_groups.is_empty() && instance.times.is_empty()
}

/// Writes the times and their groups, where there are any.
fn times<O: Output>(out: &mut O, opened: bool, instance: &RawInstance) -> bool
    ensures { Writes (O.said out.old) opened (O.said out.new) result (parts.list_of Tag.Times (parts.row (spec.times_parts instance.now))) }
{
    if has_no_times(instance) {
        return opened;
    }
    some_times(out, opened, instance);
    false
}

/// Writes an element around times and their groups.
#[tactic(auto, unfolding(crate::specs::Parts::put_all))]
fn some_times<O: Output>(out: &mut O, opened: bool, instance: &RawInstance)
    ensures { Writes (O.said out.old) opened (O.said out.new) false (parts.one Tag.Times (parts.element [] (parts.row (spec.times_parts instance.now)))) }
{
    begin(out, opened, Tag::Times);
    let groups = tagged_list(out, true, Tag::TimeGroups, &instance.time_groups);
    let inside = items(out, groups, Tag::Time, instance.times.as_slice());
    end(out, inside, Tag::Times);
}

/// Whether there are neither resources nor types nor groups of them.
#[tactic(auto, using(crate::proofs::ListLemmas::none_of_three))]
fn has_no_resources(instance: &RawInstance) -> bool
    ensures { result ≡ parts.is_none (parts.row (spec.resources_parts instance.now)) }
{
    instance.resource_types.is_empty()
        && (instance.resource_groups.is_empty() && instance.resources.is_empty())
}

/// Writes the resources with their types and groups, where there are any.
fn resources<O: Output>(out: &mut O, opened: bool, instance: &RawInstance) -> bool
    ensures { Writes (O.said out.old) opened (O.said out.new) result (parts.list_of Tag.Resources (parts.row (spec.resources_parts instance.now))) }
{
    if has_no_resources(instance) {
        return opened;
    }
    some_resources(out, opened, instance);
    false
}

/// Writes an element around resources with their types and groups.
#[tactic(auto, unfolding(crate::specs::Parts::put_all))]
fn some_resources<O: Output>(out: &mut O, opened: bool, instance: &RawInstance)
    ensures { Writes (O.said out.old) opened (O.said out.new) false (parts.one Tag.Resources (parts.element [] (parts.row (spec.resources_parts instance.now)))) }
{
    begin(out, opened, Tag::Resources);
    let types = list(
        out,
        true,
        Tag::ResourceTypes,
        Tag::ResourceType,
        &instance.resource_types,
    );
    let groups = list(
        out,
        types,
        Tag::ResourceGroups,
        Tag::ResourceGroup,
        &instance.resource_groups,
    );
    let inside = items(out, groups, Tag::Resource, instance.resources.as_slice());
    end(out, inside, Tag::Resources);
}

/// Whether there are neither events nor groups of events.
#[tactic(auto, using(crate::proofs::ListLemmas::none_of_two))]
fn has_no_events(instance: &RawInstance) -> bool
    ensures { result ≡ parts.is_none (parts.row (spec.events_parts instance.now)) }
{
    instance.event_groups.is_empty() && instance.events.is_empty()
}

/// Writes the events and their groups, where there are any.
fn events<O: Output>(out: &mut O, opened: bool, instance: &RawInstance) -> bool
    ensures { Writes (O.said out.old) opened (O.said out.new) result (parts.list_of Tag.Events (parts.row (spec.events_parts instance.now))) }
{
    if has_no_events(instance) {
        return opened;
    }
    some_events(out, opened, instance);
    false
}

/// Writes an element around events and their groups.
#[tactic(auto, unfolding(crate::specs::Parts::put_all))]
fn some_events<O: Output>(out: &mut O, opened: bool, instance: &RawInstance)
    ensures { Writes (O.said out.old) opened (O.said out.new) false (parts.one Tag.Events (parts.element [] (parts.row (spec.events_parts instance.now)))) }
{
    begin(out, opened, Tag::Events);
    let groups = tagged_list(out, true, Tag::EventGroups, &instance.event_groups);
    let inside = items(out, groups, Tag::Event, instance.events.as_slice());
    end(out, inside, Tag::Events);
}
