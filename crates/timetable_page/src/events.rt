//! The events of a solution: when they run and with whom, and which lack a time or a resource.

use crate::busy::list_at;
use crate::defects::{push_event_link, push_resource_link, role_of};
use crate::draft::Draft;
use crate::naming::{event_name, time_name};
use crate::view::View;
use khe_instance::Meet;

/// Adds one resource of a meet, or that its place has none.
fn push_given(page: &mut Draft, view: &View<'_>, meet: &Meet, place: u32, resource: Option<u32>) {
    if let Some(resource) = resource {
        page.push_literal(" ");
        push_resource_link(page, view, resource);
        return;
    }
    match role_of(view, meet.event, place) {
        Some(role) => page.push_named(" <strong>no ", role, "</strong>"),
        None => page.push_literal(" <strong>nobody</strong>"),
    }
}

/// Adds one meet: its time, how long it lasts, and its resources.
fn push_part(page: &mut Draft, view: &View<'_>, number: u32) {
    let Some(meet) = view.plain.meets.as_slice().get(number as usize) else {
        return;
    };
    match meet.start {
        Some(time) => page.push_named("<div><b>", time_name(view.raw, time.0), "</b>"),
        None => page.push_literal("<div><strong>no time</strong>"),
    }
    if meet.duration > 1 {
        page.push_counted(" for ", u128::from(meet.duration), " times");
    }
    page.push_literal(":");
    for given in list_at(&view.table.given, number) {
        push_given(
            page,
            view,
            meet,
            given.place,
            given.resource.map(|resource| resource.0),
        );
    }
    page.push_literal("</div>");
}

/// Adds the row of an event.
fn push_event(page: &mut Draft, view: &View<'_>, event: u32) {
    page.push_place("<tr id=s", view.number, "e", event, ">");
    page.push_named(
        "<th scope=row class=n>",
        event_name(view.raw, event),
        "<td>",
    );
    for number in list_at(&view.table.parts, event) {
        push_part(page, view, *number);
    }
    page.push_literal("\n");
}

/// Whether a part of an event has no time.
fn lacks_time(view: &View<'_>, event: u32) -> bool {
    let meets = view.plain.meets.as_slice();
    let parts = list_at(&view.table.parts, event);
    parts.iter().any(|number| match meets.get(*number as usize) {
        Some(meet) => meet.start.is_none(),
        None => false,
    })
}

/// Whether a place of a part of an event has no resource.
fn lacks_resource(view: &View<'_>, event: u32) -> bool {
    let parts = list_at(&view.table.parts, event);
    parts.iter().any(|number| {
        let given = list_at(&view.table.given, *number);
        given.iter().any(|one| one.resource.is_none())
    })
}

/// Adds a list of the events that lack a time, or of the events that lack a resource.
fn push_lacking(page: &mut Draft, view: &View<'_>, times: bool) {
    let mut any = false;
    for event in 0..view.inst.events() {
        let lacks = if times {
            lacks_time(view, event)
        } else {
            lacks_resource(view, event)
        };
        if lacks {
            if any {
                page.push_literal(", ");
            } else {
                page.push_str(if times {
                    "<p class=\"lack\">Without a time: "
                } else {
                    "<p class=\"lack\">Without a resource: "
                });
            }
            push_event_link(page, view, event);
            any = true;
        }
    }
    if any {
        page.push_literal("</p>\n");
    }
}

/// Adds the events of a solution.
pub(crate) fn push_events(page: &mut Draft, view: &View<'_>) {
    page.push_counted(
        "<details id=s",
        u128::from(view.number),
        "v><summary>Events</summary>\n",
    );
    push_lacking(page, view, true);
    push_lacking(page, view, false);
    page.push_literal("<div class=wide tabindex=0 role=region aria-label=Events>");
    page.push_literal("<table class=events><thead><tr><th scope=col>Event");
    page.push_literal("<th scope=col>When and with whom<tbody>\n");
    for event in 0..view.inst.events() {
        push_event(page, view, event);
    }
    page.push_literal("</table></div></details>\n");
}
