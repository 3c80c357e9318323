//! The monitors that deviate, in words.

ghost use Rattle.std.specs.Prelude.{IsTrue};
ghost use Rattle.khe_base.specs.Text.{is_ascii};

use crate::about::{push_about, push_at_resource};
use crate::busy::{Cells, Marks, has_cells, list_at, marked_cells, said_of};
use crate::costs::Defect;
use crate::draft::Draft;
use crate::naming::{group_name, time_name};
use crate::view::View;
use khe_base::{EventId, MonitorId, NoMemory, Seq, Text};
use khe_instance::{Kind, Point, Rule};
use std::alloc::Global;

/// How many monitors of a constraint are listed at most.
const LISTED_MONITORS: usize = 1_000;

/// How many cells of a monitor are listed at most.
const LISTED_CELLS: u32 = 40;

/// Adds a piece with a number, where there is one.
fn push_label(page: &mut Draft, labels: &Seq<Text>, number: u32) {
    if let Some(label) = labels.as_slice().get(number as usize) {
        page.push_ready(label);
    }
}

/// Adds a link to a resource's timetable, with its name.
pub(crate) fn push_resource_link(page: &mut Draft, view: &View<'_>, resource: u32) {
    push_label(page, &view.labels.resources, resource);
}

/// Adds a link to an event's row, with its name.
pub(crate) fn push_event_link(page: &mut Draft, view: &View<'_>, event: u32) {
    push_label(page, &view.labels.events, event);
}

/// Adds the attribute of a cell that says the whole name of its time.
pub(crate) fn push_title(page: &mut Draft, view: &View<'_>, time: u32) {
    push_label(page, &view.labels.times, time);
}

/// The role of a place of an event, where it has one.
pub(crate) fn role_of<'a>(view: &'a View<'a>, event: EventId, place: u32) -> Option<&'a Text> {
    if event.0 >= view.inst.events() {
        return None;
    }
    let places = view.inst.event(event).places.as_slice();
    match places.get(place as usize) {
        Some(place) => match &place.role {
            Some(role) => Some(role),
            None => None,
        },
        None => None,
    }
}

/// Adds the two events of a pair.
fn push_pair(page: &mut Draft, view: &View<'_>, rule: &Rule, number: u32) {
    let Rule::OrderEvents { pairs } = rule else {
        return;
    };
    if let Some(pair) = pairs.as_slice().get(number as usize) {
        push_event_link(page, view, pair.first.0);
        page.push_literal(" and ");
        push_event_link(page, view, pair.second.0);
    }
}

/// Adds what a monitor watches.
fn push_subject(page: &mut Draft, view: &View<'_>, rule: &Rule, point: Point) {
    match point {
        Point::Event(event) => push_event_link(page, view, event.0),
        Point::EventResource { event, place } => {
            push_event_link(page, view, event.0);
            if let Some(role) = role_of(view, event, place) {
                page.push_named(" (", role, ")");
            }
        }
        Point::EventGroup(group) => page.push_named("", group_name(view.raw, group), ""),
        Point::EventPair(number) => push_pair(page, view, rule, number),
        Point::Resource(resource) => push_resource_link(page, view, resource.0),
    }
}

/// What is wrong, by the kind of the constraint, before the deviation.
fn phrase(kind: Kind) -> &'static str
    ensures { IsTrue (is_ascii result.now) }
{
    match kind {
        Kind::AssignTime => " has no time; times missing: ",
        Kind::AssignResource => " has no resource; times without one: ",
        Kind::SplitEvents => " is split into parts of other lengths or numbers than wanted, by ",
        Kind::DistributeSplitEvents => " has too many or too few parts of one length, by ",
        Kind::PreferTimes => " starts at a time that is not preferred; times: ",
        Kind::PreferResources => " has a resource that is not preferred; times: ",
        Kind::AvoidSplitAssignments => " is shared out to too many resources, by ",
        Kind::SpreadEvents => " is not spread over the time groups as wanted, by ",
        Kind::LinkEvents => " does not run at the same times; times apart: ",
        Kind::OrderEvents => " are not in order or too near or too far apart, by ",
        Kind::AvoidClashes => " is busy more than once at a time; meets too many: ",
        Kind::AvoidUnavailableTimes => " is busy when it is to be free; times: ",
        Kind::LimitIdleTimes => " has too many or too few idle times, by ",
        Kind::ClusterBusyTimes => " is busy in too many or too few time groups, by ",
        Kind::LimitBusyTimes => " is too busy or not busy enough in time groups, by ",
        Kind::LimitWorkload => " has too much or too little to do, by ",
    }
}

/// Adds a link to a cell of a resource's timetable, with what happens there.
fn push_cell_link(page: &mut Draft, view: &View<'_>, resource: u32, time: u32, busy: usize) {
    page.push_place(" <a href=#s", view.number, "r", resource, "t");
    page.push_counted("", u128::from(time), ">");
    page.push_named("", time_name(view.raw, time), "</a>");
    if busy == 2 {
        page.push_literal(" (twice)");
    }
    if busy > 2 {
        page.push_counted(" (", busy as u128, " times)");
    }
}

/// Whether a monitor of this kind is about a cell.
fn is_cell(kind: Kind, busy: usize, closed: bool, idle: bool) -> bool {
    match kind {
        Kind::AvoidClashes => busy > 1,
        Kind::AvoidUnavailableTimes => closed && busy > 0,
        _ => idle,
    }
}

/// Adds what a monitor at a resource is about: links to the cells of its own constraint's times, and not of those of
/// other monitors of the resource; its time groups; or what is wanted.
fn push_where(
    alloc: Global,
    page: &mut Draft,
    view: &View<'_>,
    number: u32,
    rule: &Rule,
    resource: u32,
) {
    if number >= view.inst.monitors() {
        return;
    }
    let runs = list_at(&view.table.runs, resource);
    let monitor = view.inst.monitor(MonitorId(number));
    match marked_cells(alloc, view.inst, runs, &[number], &[]) {
        Ok((marks, cells)) => {
            if has_cells(monitor.kind) {
                page.push_literal(", at");
                push_cell_links(page, view, monitor.kind, resource, &cells, &marks);
            }
            push_at_resource(page, view, monitor.constraint, rule, &cells);
        }
        Err(NoMemory) => page.refuse(),
    }
}

/// Adds the links by what happens at each time, and by what the monitor says of it.
fn push_cell_links(
    page: &mut Draft,
    view: &View<'_>,
    kind: Kind,
    resource: u32,
    cells: &Cells,
    marks: &Marks,
) {
    let mut listed = 0u32;
    for time in 0..view.inst.times() {
        let busy = cells.at(time).len();
        let closed = said_of(marks.closed.as_slice(), time).any;
        let idle = said_of(marks.idle.as_slice(), time).any;
        if is_cell(kind, busy, closed, idle) {
            if listed >= LISTED_CELLS {
                page.push_literal(" and at more times");
                return;
            }
            listed = listed.saturating_add(1);
            push_cell_link(page, view, resource, time, busy);
        }
    }
}

/// Adds one monitor: its cost, what it watches, what is wrong and where.
fn push_defect(alloc: Global, page: &mut Draft, view: &View<'_>, rule: &Rule, defect: &Defect) {
    if defect.number >= view.inst.monitors() {
        return;
    }
    let monitor = view.inst.monitor(MonitorId(defect.number));
    page.push_place("<li id=s", view.number, "m", defect.number, ">");
    page.push_counted("<b>", defect.cost, "</b> ");
    push_subject(page, view, rule, monitor.point);
    page.push_counted(phrase(monitor.kind), u128::from(defect.deviation), "");
    match monitor.point {
        Point::Resource(resource) => {
            push_where(alloc, page, view, defect.number, rule, resource.0);
        }
        point => push_about(page, view, monitor.constraint, rule, point),
    }
    page.push_literal("\n");
}

/// Adds the row of a constraint's monitors that deviate.
pub(crate) fn push_defects(
    alloc: Global,
    page: &mut Draft,
    view: &View<'_>,
    rule: &Rule,
    defects: &[Defect],
) {
    page.push_literal("<tr class=why><td colspan=6><details><summary>");
    page.push_counted(
        "Monitors that deviate: ",
        defects.len() as u128,
        "</summary><ul>\n",
    );
    for defect in defects.iter().take(LISTED_MONITORS) {
        push_defect(alloc, page, view, rule, defect);
    }
    if defects.len() > LISTED_MONITORS {
        page.push_counted(
            "<li>Only the ",
            LISTED_MONITORS as u128,
            " dearest are listed.",
        );
    }
    page.push_literal("</ul></details>\n");
}
