//! What the parts of an instance are called: by their names, and by their Ids where they have none.

use khe_base::Text;
use xhstt_shape::{About, RawInstance};

/// A name, or the Id where the name is missing.
pub(crate) fn shown<'a>(name: &'a Text, id: &'a Text) -> &'a Text {
    if name.as_bytes().is_empty() { id } else { name }
}

/// What an archive, an instance or a solution group is called.
pub(crate) fn whole_name<'a>(meta_data: &'a Option<About>, id: &'a Text) -> &'a Text {
    match meta_data {
        Some(meta_data) => shown(&meta_data.said().name, id),
        None => id,
    }
}

/// What an instance is called.
pub(crate) fn instance_name(raw: &RawInstance) -> &Text {
    whole_name(&raw.meta_data, &raw.id.text)
}

/// What the time with a number is called. A number beyond the last time has the instance's Id, and so it is with
/// the other parts.
pub(crate) fn time_name(raw: &RawInstance, time: u32) -> &Text {
    match raw.times.as_slice().get(time as usize) {
        Some(time) => shown(&time.name, &time.id.text),
        None => &raw.id.text,
    }
}

/// What the resource with a number is called.
pub(crate) fn resource_name(raw: &RawInstance, resource: u32) -> &Text {
    match raw.resources.as_slice().get(resource as usize) {
        Some(resource) => shown(&resource.name, &resource.id.text),
        None => &raw.id.text,
    }
}

/// What the resource type with a number is called.
pub(crate) fn type_name(raw: &RawInstance, rtype: u32) -> &Text {
    match raw.resource_types.as_slice().get(rtype as usize) {
        Some(rtype) => shown(&rtype.name, &rtype.id.text),
        None => &raw.id.text,
    }
}

/// What the event with a number is called.
pub(crate) fn event_name(raw: &RawInstance, event: u32) -> &Text {
    match raw.events.as_slice().get(event as usize) {
        Some(event) => shown(&event.name, &event.id.text),
        None => &raw.id.text,
    }
}

/// What the event group with a number is called.
pub(crate) fn group_name(raw: &RawInstance, group: u32) -> &Text {
    match raw.event_groups.as_slice().get(group as usize) {
        Some(group) => shown(&group.name, &group.id.text),
        None => &raw.id.text,
    }
}

/// What the constraint with a number is called.
pub(crate) fn constraint_name(raw: &RawInstance, constraint: u32) -> &Text {
    match raw.constraints.as_slice().get(constraint as usize) {
        Some(constraint) => shown(&constraint.name, &constraint.id.text),
        None => &raw.id.text,
    }
}

/// The Id of the constraint with a number, where it is called otherwise.
pub(crate) fn constraint_id(raw: &RawInstance, constraint: u32) -> Option<&Text> {
    let Some(constraint) = raw.constraints.as_slice().get(constraint as usize) else {
        return None;
    };
    let id = &constraint.id.text;
    if shown(&constraint.name, id).is_same(id) {
        return None;
    }
    Some(id)
}
