//! Building instances from elements.

ghost use Rattle.std.specs.Prelude.{◌≡◌, IfOk};
ghost use Rattle.xhstt_shape.specs.Values as spec;

use crate::building::{Build, all_inside, every, every_inside, optional};
use crate::constraint_values::constraints;
use crate::leaves::{
    attribute_text, duration, id, name, optional_reference, the_reference, workload,
};
use crate::records::{
    About, EventGroup, GroupSort, MetaData, RawEvent, RawEventResource, RawInstance, RawResource,
    ResourceGroup, ResourceType, Time, TimeGroup, TimeSort,
};
use crate::words::{Label, Tag};
use khe_base::{NoMemory, both};
use std::alloc::Global;
use xhstt_text::Element;

impl Build for MetaData {
    ghost value = { spec.meta_data };

    #[tactic(auto, unfolding(crate::specs::Values::meta_data))]
    fn build(alloc: Global, element: &Element<'_, '_>) -> Result<MetaData, NoMemory> {
        let who = both(
            name(alloc, element),
            both(
                optional(alloc, Tag::Contributor, element),
                optional(alloc, Tag::Date, element),
            ),
        );
        let what = both(
            both(
                optional(alloc, Tag::Country, element),
                optional(alloc, Tag::Description, element),
            ),
            both(
                optional(alloc, Tag::Publication, element),
                optional(alloc, Tag::Remarks, element),
            ),
        );
        let ((name, (contributor, date)), ((country, description), (publication, remarks))) = both(
            who, what,
        )?;
        Ok(MetaData {
            name,
            contributor,
            date,
            country,
            description,
            publication,
            remarks,
        })
    }
}

impl Build for About {
    ghost value = { spec.meta_data };

    fn build(alloc: Global, element: &Element<'_, '_>) -> Result<About, NoMemory> {
        About::new(alloc, MetaData::build(alloc, element)?)
    }
}

/// By which element a time group is given.
#[tactic(auto, unfolding(crate::specs::Values::time_sort_of))]
fn time_sort(element: &Element<'_, '_>) -> TimeSort
    ensures { result ≡ spec.time_sort_of element.now.info.name }
{
    if element.is_named(Tag::Week.word()) {
        TimeSort::Week
    } else if element.is_named(Tag::Day.word()) {
        TimeSort::Day
    } else {
        TimeSort::Group
    }
}

impl Build for TimeGroup {
    ghost value = { spec.time_group };

    #[tactic(auto, unfolding(crate::specs::Values::time_group))]
    fn build(alloc: Global, element: &Element<'_, '_>) -> Result<TimeGroup, NoMemory> {
        Ok(TimeGroup {
            sort: time_sort(element),
            id: id(alloc, element)?,
            name: name(alloc, element)?,
        })
    }
}

impl Build for Time {
    ghost value = { spec.time };

    #[tactic(auto, unfolding(crate::specs::Values::time))]
    fn build(alloc: Global, element: &Element<'_, '_>) -> Result<Time, NoMemory> {
        Ok(Time {
            id: id(alloc, element)?,
            name: name(alloc, element)?,
            week: optional(alloc, Tag::Week, element)?,
            day: optional(alloc, Tag::Day, element)?,
            time_groups: every(alloc, Tag::TimeGroups, element)?,
        })
    }
}

impl Build for ResourceType {
    ghost value = { spec.resource_type };

    #[tactic(auto, unfolding(crate::specs::Values::resource_type))]
    fn build(alloc: Global, element: &Element<'_, '_>) -> Result<ResourceType, NoMemory> {
        Ok(ResourceType {
            id: id(alloc, element)?,
            name: name(alloc, element)?,
        })
    }
}

impl Build for ResourceGroup {
    ghost value = { spec.resource_group };

    #[tactic(auto, unfolding(crate::specs::Values::resource_group))]
    fn build(alloc: Global, element: &Element<'_, '_>) -> Result<ResourceGroup, NoMemory> {
        Ok(ResourceGroup {
            id: id(alloc, element)?,
            name: name(alloc, element)?,
            resource_type: the_reference(alloc, Tag::ResourceType, element)?,
        })
    }
}

impl Build for RawResource {
    ghost value = { spec.resource };

    #[tactic(auto, unfolding(crate::specs::Values::resource))]
    fn build(alloc: Global, element: &Element<'_, '_>) -> Result<RawResource, NoMemory> {
        Ok(RawResource {
            id: id(alloc, element)?,
            name: name(alloc, element)?,
            resource_type: the_reference(alloc, Tag::ResourceType, element)?,
            resource_groups: every(alloc, Tag::ResourceGroups, element)?,
        })
    }
}

/// By which element an event group is given.
#[tactic(auto, unfolding(crate::specs::Values::group_sort_of))]
fn group_sort(element: &Element<'_, '_>) -> GroupSort
    ensures { result ≡ spec.group_sort_of element.now.info.name }
{
    if element.is_named(Tag::Course.word()) {
        GroupSort::Course
    } else {
        GroupSort::Group
    }
}

impl Build for EventGroup {
    ghost value = { spec.event_group };

    #[tactic(auto, unfolding(crate::specs::Values::event_group))]
    fn build(alloc: Global, element: &Element<'_, '_>) -> Result<EventGroup, NoMemory> {
        Ok(EventGroup {
            sort: group_sort(element),
            id: id(alloc, element)?,
            name: name(alloc, element)?,
        })
    }
}

impl Build for RawEventResource {
    ghost value = { spec.event_resource };

    #[tactic(auto, unfolding(crate::specs::Values::event_resource))]
    fn build(alloc: Global, element: &Element<'_, '_>) -> Result<RawEventResource, NoMemory> {
        Ok(RawEventResource {
            reference: optional_reference(alloc, element)?,
            role: optional(alloc, Tag::Role, element)?,
            resource_type: optional(alloc, Tag::ResourceType, element)?,
            workload: workload(alloc, element)?,
        })
    }
}

impl Build for RawEvent {
    ghost value = { spec.event };

    #[tactic(auto, unfolding(crate::specs::Values::event))]
    fn build(alloc: Global, element: &Element<'_, '_>) -> Result<RawEvent, NoMemory> {
        let duration = duration(alloc, element)?;
        let workload = workload(alloc, element)?;
        let texts = both(
            id(alloc, element),
            both(
                attribute_text(alloc, Label::Color, element),
                name(alloc, element),
            ),
        );
        let references = both(
            optional(alloc, Tag::Course, element),
            optional(alloc, Tag::Time, element),
        );
        let lists = both(
            every(alloc, Tag::Resources, element),
            both(
                every(alloc, Tag::ResourceGroups, element),
                every(alloc, Tag::EventGroups, element),
            ),
        );
        let ((id, (color, name)), ((course, time), (resources, (resource_groups, event_groups)))) =
            both(texts, both(references, lists))?;
        Ok(RawEvent {
            id,
            color,
            name,
            duration,
            workload,
            course,
            time,
            resources,
            resource_groups,
            event_groups,
        })
    }
}

impl Build for RawInstance {
    ghost value = { spec.instance };

    #[tactic(auto, unfolding(crate::specs::Values::instance))]
    fn build(alloc: Global, element: &Element<'_, '_>) -> Result<RawInstance, NoMemory> {
        let head = both(id(alloc, element), optional(alloc, Tag::MetaData, element));
        let times = both(
            every_inside(alloc, Tag::Times, Tag::TimeGroups, element),
            all_inside(alloc, Tag::Times, Tag::Time, element),
        );
        let resources = both(
            every_inside(alloc, Tag::Resources, Tag::ResourceTypes, element),
            both(
                every_inside(alloc, Tag::Resources, Tag::ResourceGroups, element),
                all_inside(alloc, Tag::Resources, Tag::Resource, element),
            ),
        );
        let events = both(
            every_inside(alloc, Tag::Events, Tag::EventGroups, element),
            all_inside(alloc, Tag::Events, Tag::Event, element),
        );
        let constraints = constraints(alloc, element);
        let (
            ((id, meta_data), (time_groups, times)),
            ((resource_types, (resource_groups, resources)), ((event_groups, events), constraints)),
        ) = both(
            both(head, times),
            both(resources, both(events, constraints)),
        )?;
        Ok(RawInstance {
            id,
            meta_data,
            time_groups,
            times,
            resource_types,
            resource_groups,
            resources,
            event_groups,
            events,
            constraints,
        })
    }
}
