//! The timetable of each resource, as a grid.

use crate::busy::{Cells, Marks, list_at, marked_cells, said_of};
use crate::defects::{push_event_link, push_resource_link, push_title};
use crate::draft::Draft;
use crate::layout::{Sheet, time_group_name};
use crate::naming::{constraint_name, resource_name, time_name, type_name};
use crate::rows::Row;
use crate::view::View;
use khe_base::{MonitorId, NoMemory};
use std::alloc::Global;

/// What the marks of cells mean, above the timetables of a solution.
const LEGEND: &str =
    "<p class=legend>Marks of defects, each with a link to the monitor that deviates: <b>clash</b>, more than one \
meet at the time; <b>unavailable</b>, a meet at a time to be kept free; <b>idle</b>, a gap between meets. Where no \
monitor deviates: <b>2 meets</b> at one time; <b>gap</b>, an idle time within the limits; <b>off</b>, a time to be \
kept free.</p>\n<p class=legend>Rows are what is left of the names of a day's times without the words that all of \
them begin with, or numbers where these can't be aligned. The title of a cell, and its place among the times of the cells, have the whole name of its time.</p>\n";

/// The monitors that deviate at a cell, by what is wrong there.
#[derive(Clone, Copy)]
struct Wrong {
    clash: Option<u32>,
    unavailable: Option<u32>,
    idle: Option<u32>,
}

/// Adds one meet of a cell: its event, and the other resources that it is given.
fn push_meet(page: &mut Draft, view: &View<'_>, resource: u32, meet: u32) {
    let Some(held) = view.plain.meets.as_slice().get(meet as usize) else {
        return;
    };
    push_event_link(page, view, held.event.0);
    for given in list_at(&view.table.given, meet) {
        if let Some(other) = given.resource {
            if other.0 != resource {
                page.push_literal(" ");
                push_resource_link(page, view, other.0);
            }
        }
    }
}

/// Which monitors deviate at a cell with this many meets.
fn wrong_at(marks: &Marks, time: u32, busy: usize) -> Wrong {
    let clash = if busy > 1 { marks.clash } else { None };
    let closed = said_of(marks.closed.as_slice(), time).defect;
    let unavailable = if busy > 0 { closed } else { None };
    let idle = said_of(marks.idle.as_slice(), time).defect;
    Wrong {
        clash,
        unavailable,
        idle,
    }
}

/// Adds the class and the place of a cell that a defect leads to.
fn push_defect_head(page: &mut Draft, view: &View<'_>, resource: u32, time: u32, class: &str) {
    page.push_literal(" class=");
    page.push_str(class);
    page.push_place(" id=s", view.number, "r", resource, "t");
    page.push_counted("", u128::from(time), ">");
}

/// Adds the mark of a monitor, where one deviates: a word that says what is wrong, which leads to it.
fn push_mark(page: &mut Draft, view: &View<'_>, monitor: Option<u32>, word: &str) {
    if let Some(monitor) = monitor {
        page.push_place("<a class=mark href=#s", view.number, "m", monitor, ">");
        page.push_str(word);
        page.push_literal("</a>");
    }
}

/// Adds the beginning of a cell that no monitor which deviates is about.
fn push_quiet_head(page: &mut Draft, marks: &Marks, time: u32, busy: usize) {
    if busy == 0 && said_of(marks.closed.as_slice(), time).any {
        page.push_literal(" class=off>off");
    } else if busy == 0 && said_of(marks.idle.as_slice(), time).any {
        page.push_literal(" class=gap>gap");
    } else {
        page.push_literal(">");
    }
}

/// Adds the beginning of a cell with its marks: what monitors that deviate say of it, or else a quiet word.
fn push_cell_head(
    page: &mut Draft,
    view: &View<'_>,
    resource: u32,
    time: u32,
    busy: usize,
    marks: &Marks,
) {
    let wrong = wrong_at(marks, time, busy);
    if wrong.clash.is_some() || wrong.unavailable.is_some() {
        push_defect_head(page, view, resource, time, "bad");
    } else if wrong.idle.is_some() {
        push_defect_head(page, view, resource, time, "idle");
    } else {
        push_quiet_head(page, marks, time, busy);
    }
    push_mark(page, view, wrong.clash, "clash");
    if busy > 1 && wrong.clash.is_none() {
        page.push_counted("<span class=more>", busy as u128, " meets</span>");
    }
    push_mark(page, view, wrong.unavailable, "unavailable");
    push_mark(page, view, wrong.idle, "idle");
}

/// What the cells of a resource's grids look up: its number, its meets at each time, and the marks of the times.
#[derive(Clone, Copy)]
struct Grid<'a> {
    resource: u32,
    cells: &'a Cells,
    marks: &'a Marks,
}

/// Adds the meets of a cell, with a line between two.
fn push_meets(page: &mut Draft, view: &View<'_>, resource: u32, meets: &[u32]) {
    let mut any = false;
    for meet in meets {
        if any {
            page.push_literal("<hr>");
        }
        push_meet(page, view, resource, *meet);
        any = true;
    }
}

/// Adds the cell of a time, which is as high as so many rows. One with a meet or a mark says the name of its time; to
/// others the script gives it.
fn push_cell(page: &mut Draft, view: &View<'_>, grid: Grid<'_>, time: u32, rows: usize) {
    let meets = grid.cells.at(time);
    page.push_literal("<td");
    if rows > 1 {
        page.push_counted(" rowspan=", rows as u128, "");
    }
    if !meets.is_empty() {
        push_title(page, view, time);
    }
    push_cell_head(page, view, grid.resource, time, meets.len(), grid.marks);
    push_meets(page, view, grid.resource, meets);
}

/// Adds the heads of all columns.
fn push_column_heads(page: &mut Draft, view: &View<'_>, sheet: &Sheet) {
    page.push_literal("<thead><tr>");
    if !sheet.columns.is_empty() {
        page.push_literal("<td>");
    }
    for column in sheet.columns.as_slice() {
        page.push_literal("<th scope=col>");
        if let Some(name) = time_group_name(view.raw, column.group) {
            page.push_named("", name, "");
        }
    }
    for time in sheet.others.as_slice() {
        page.push_named("<th scope=col>", time_name(view.raw, *time), "");
    }
    page.push_literal("<tbody>\n");
}

/// Adds the head of a row: what it is called, or its position.
fn push_row_head(page: &mut Draft, row: &Row, position: usize) {
    match &row.name {
        Some(name) => page.push_named("<th scope=row>", name, ""),
        None => page.push_counted("<th scope=row>", (position as u128).saturating_add(1), ""),
    }
}

/// Adds one row of a grid. The times that have a column of their own stand beside the first, as high as all.
fn push_row(
    page: &mut Draft,
    view: &View<'_>,
    grid: Grid<'_>,
    sheet: &Sheet,
    row: &Row,
    position: usize,
) {
    page.push_literal("<tr>");
    if !sheet.columns.is_empty() {
        push_row_head(page, row, position);
    }
    for time in row.times.as_slice() {
        match time {
            Some(time) => push_cell(page, view, grid, *time, 1),
            None => page.push_literal("<td class=none>"),
        }
    }
    if position == 0 {
        for time in sheet.others.as_slice() {
            push_cell(page, view, grid, *time, sheet.rows.len());
        }
    }
    page.push_literal("\n");
}

/// Adds links to the monitors of a resource that deviate.
fn push_monitors(page: &mut Draft, view: &View<'_>, resource: u32, deviations: &[u64]) {
    let mut any = false;
    for number in list_at(&view.table.watched, resource) {
        let deviation = deviations.get(*number as usize).copied().unwrap_or(0);
        if deviation > 0 && *number < view.inst.monitors() {
            let constraint = view.inst.monitor(MonitorId(*number)).constraint;
            page.push_str(if any { ", " } else { "<p>Defects: " });
            page.push_place("<a href=#s", view.number, "m", *number, ">");
            page.push_named("", constraint_name(view.raw, constraint), "</a>");
            any = true;
        }
    }
    if any {
        page.push_literal("</p>\n");
    }
}

/// Adds the timetable of a resource.
fn push_grid(alloc: Global, page: &mut Draft, view: &View<'_>, resource: u32, deviations: &[u64]) {
    let runs = list_at(&view.table.runs, resource);
    page.push_place("<div class=one id=s", view.number, "r", resource, "");
    page.push_between(
        " tabindex=0 role=region aria-label=\"",
        resource_name(view.raw, resource),
        "\">",
    );
    page.push_named("<h4 class=n>", resource_name(view.raw, resource), "</h4>\n");
    push_monitors(page, view, resource, deviations);
    if runs.is_empty() {
        page.push_literal("<p class=nothing>has no meets</div>\n");
        return;
    }
    let watched = list_at(&view.table.watched, resource);
    match marked_cells(alloc, view.inst, runs, watched, deviations) {
        Ok((marks, cells)) => push_tables(page, view, resource, &cells, &marks),
        Err(NoMemory) => page.refuse(),
    }
}

/// Adds the grids of a resource that has meets, with the marks of the times.
fn push_tables(page: &mut Draft, view: &View<'_>, resource: u32, cells: &Cells, marks: &Marks) {
    let grid = Grid {
        resource,
        cells,
        marks,
    };
    for sheet in view.layout.sheets.as_slice() {
        push_table(page, view, grid, sheet);
    }
    page.push_literal("</div>\n");
}

/// Adds what a grid is called where there is one for each week: by its week, or as that of the other times.
fn push_week(page: &mut Draft, view: &View<'_>, sheet: &Sheet) {
    match sheet.week.and_then(|week| time_group_name(view.raw, week)) {
        Some(week) => page.push_named("", week, ""),
        None => page.push_literal("Times without a week"),
    }
}

/// Adds one grid of a resource.
fn push_table(page: &mut Draft, view: &View<'_>, grid: Grid<'_>, sheet: &Sheet) {
    if view.layout.weekly {
        page.push_literal("<table class=grid><caption>");
        push_week(page, view, sheet);
        page.push_literal("</caption>");
    } else {
        page.push_literal("<table class=grid>");
    }
    push_column_heads(page, view, sheet);
    let mut position = 0usize;
    for row in sheet.rows.as_slice() {
        push_row(page, view, grid, sheet, row, position);
        position = position.saturating_add(1);
    }
    page.push_literal("</table>\n");
}

/// Adds the timetables of the resources of one type.
fn push_type(alloc: Global, page: &mut Draft, view: &View<'_>, rtype: u32, deviations: &[u64]) {
    if rtype >= view.inst.types() {
        return;
    }
    page.push_named("<h3>", type_name(view.raw, rtype), "</h3>\n");
    for resource in view.inst.resources_of_type(rtype) {
        push_grid(alloc, page, view, *resource, deviations);
    }
}

/// Adds the grids of the times: each cell says which time it is.
fn push_times(page: &mut Draft, view: &View<'_>) {
    page.push_literal("<details class=times><summary>The times of the cells</summary>\n");
    page.push_literal(
        "<div class=wide tabindex=0 role=region aria-label=\"The times of the cells\">\n",
    );
    for sheet in view.layout.sheets.as_slice() {
        page.push_literal("<table class=grid>");
        push_column_heads(page, view, sheet);
        let mut position = 0usize;
        for row in sheet.rows.as_slice() {
            push_row_of_times(page, view, sheet, row, position);
            position = position.saturating_add(1);
        }
        page.push_literal("</table>\n");
    }
    page.push_literal("</div></details>\n");
}

/// Adds a row of the grid of the times.
fn push_row_of_times(page: &mut Draft, view: &View<'_>, sheet: &Sheet, row: &Row, position: usize) {
    page.push_literal("<tr>");
    if !sheet.columns.is_empty() {
        push_row_head(page, row, position);
    }
    for time in row.times.as_slice() {
        match time {
            Some(time) => page.push_named("<td>", time_name(view.raw, *time), ""),
            None => page.push_literal("<td class=none>"),
        }
    }
    if position == 0 {
        for time in sheet.others.as_slice() {
            page.push_counted("<td rowspan=", sheet.rows.len() as u128, ">");
            page.push_named("", time_name(view.raw, *time), "");
        }
    }
    page.push_literal("\n");
}

/// Adds the timetables of all resources, type by type.
pub(crate) fn push_grids(alloc: Global, page: &mut Draft, view: &View<'_>, deviations: &[u64]) {
    page.push_counted(
        "<details open id=s",
        u128::from(view.number),
        "t><summary>Timetables</summary>\n",
    );
    page.push_str(LEGEND);
    push_times(page, view);
    for rtype in 0..view.inst.types() {
        push_type(alloc, page, view, rtype, deviations);
    }
    page.push_literal("</details>\n");
}
