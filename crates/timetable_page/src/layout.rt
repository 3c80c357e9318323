//! How the times of an instance are laid out: a grid for each week, with a column for each day and a row for each time
//! of day. Where times have no weeks there is one grid; where they have weeks and no days its columns are the weeks. A
//! time without a day, or without a week where others have one, has a column of its own.

use crate::busy::{add, empty_lists};
use crate::naming::shown;
use crate::rows::{Row, rows_of};
use khe_base::{NoMemory, Seq, Text, both};
use std::alloc::Global;
use xhstt_references::{Names, Seed};
use xhstt_shape::{RawInstance, Ref, Time, TimeSort};

/// A column of a grid: the number of the time group that it is called after, and its times in their order.
#[derive(Drop)]
pub(crate) struct Column {
    pub group: u32,
    pub times: Seq<u32>,
}

/// A grid: its columns and rows, and the times that have a column of their own.
#[derive(Drop)]
pub(crate) struct Sheet {
    /// The number of the time group of its week, where it has the times of one.
    pub week: Option<u32>,
    pub columns: Seq<Column>,
    pub others: Seq<u32>,
    pub rows: Seq<Row>,
}

/// The grids of an instance.
#[derive(Drop)]
pub(crate) struct Layout {
    pub sheets: Seq<Sheet>,
    /// Whether each grid but the last has the times of a week.
    pub weekly: bool,
}

/// By which time groups columns are made.
fn sort_of_columns(raw: &RawInstance) -> Option<TimeSort> {
    if raw.times.as_slice().iter().any(|time| time.day.is_some()) {
        return Some(TimeSort::Day);
    }
    if raw.times.as_slice().iter().any(|time| time.week.is_some()) {
        return Some(TimeSort::Week);
    }
    None
}

/// Whether there is a grid for each week: times have days, and some have weeks.
fn is_weekly(raw: &RawInstance) -> bool {
    raw.times.as_slice().iter().any(|time| time.day.is_some())
        && raw.times.as_slice().iter().any(|time| time.week.is_some())
}

/// The reference of a time to its day or its week.
fn reference_of(time: &Time, sort: TimeSort) -> &Option<Ref> {
    match sort {
        TimeSort::Day => &time.day,
        _ => &time.week,
    }
}

/// The Ids of all time groups, in order.
pub(crate) fn group_names(alloc: Global, raw: &RawInstance) -> Result<Names, NoMemory> {
    let mut seed = Seed::new();
    for group in raw.time_groups.as_slice() {
        seed.add(group.id.text.spelling());
    }
    let mut names = Names::new(alloc, seed.number());
    for group in raw.time_groups.as_slice() {
        let _ = names.insert(&group.id.text)?;
    }
    Ok(names)
}

/// The number of the time group that is a time's day or week, and that of the last one and one more where it has none.
fn group_of(raw: &RawInstance, names: &Names, time: u32, sort: TimeSort) -> u32 {
    let none = u32::try_from(names.len()).unwrap_or(u32::MAX);
    let Some(time) = raw.times.as_slice().get(time as usize) else {
        return none;
    };
    match reference_of(time, sort) {
        Some(reference) => match names.number(&reference.id) {
            Some(group) => u32::try_from(group).unwrap_or(none),
            None => none,
        },
        None => none,
    }
}

/// The times of each time group that columns are made by, and last those of none.
fn times_by_group(
    alloc: Global,
    raw: &RawInstance,
    names: &Names,
) -> Result<Seq<Seq<u32>>, NoMemory> {
    let mut lists = empty_lists(alloc, names.len().saturating_add(1))?;
    let none = u32::try_from(names.len()).unwrap_or(u32::MAX);
    let sort = sort_of_columns(raw);
    let mut time = 0u32;
    for _ in raw.times.as_slice() {
        let group = match sort {
            Some(sort) => group_of(raw, names, time, sort),
            None => none,
        };
        add(&mut lists, group, time)?;
        time = time.saturating_add(1);
    }
    Ok(lists)
}

/// The given number of grids, empty, each of the week with its number.
fn empty_sheets(alloc: Global, weeks: usize) -> Result<Seq<Sheet>, NoMemory> {
    let mut sheets = Seq::new(alloc);
    for week in 0..weeks {
        sheets.push(Sheet {
            week: u32::try_from(week).ok(),
            columns: Seq::new(alloc),
            others: Seq::new(alloc),
            rows: Seq::new(alloc),
        })?;
    }
    sheets.push(Sheet {
        week: None,
        columns: Seq::new(alloc),
        others: Seq::new(alloc),
        rows: Seq::new(alloc),
    })?;
    Ok(sheets)
}

/// Adds a time to the column of a group, which is the last one or a new one.
fn add_to_column(
    alloc: Global,
    columns: &mut Seq<Column>,
    group: u32,
    time: u32,
) -> Result<(), NoMemory> {
    let last = columns.len();
    if last > 0 && columns.items[last - 1].group == group {
        return columns.items[last - 1].times.push(time);
    }
    let mut times = Seq::new(alloc);
    times.push(time)?;
    columns.push(Column { group, times })
}

/// Adds a time of a group to the grid of its week, or of none: to the group's column, or to the times that have a
/// column of their own.
fn place(
    alloc: Global,
    sheets: &mut Seq<Sheet>,
    week: usize,
    group: Option<u32>,
    time: u32,
) -> Result<(), NoMemory> {
    if week >= sheets.len() {
        return Ok(());
    }
    match group {
        Some(group) => add_to_column(alloc, &mut sheets.items[week].columns, group, time),
        None => sheets.items[week].others.push(time),
    }
}

/// Adds the times of one group to the grids.
fn place_all(
    alloc: Global,
    sheets: &mut Seq<Sheet>,
    raw: &RawInstance,
    names: &Names,
    group: u32,
    times: &[u32],
) -> Result<(), NoMemory> {
    let last = sheets.len().saturating_sub(1);
    let weekly = last > 0;
    for time in times {
        let week = if weekly {
            group_of(raw, names, *time, TimeSort::Week) as usize
        } else {
            last
        };
        let own = group as usize >= names.len() || weekly && week >= last;
        let group = if own { None } else { Some(group) };
        place(alloc, sheets, week, group, *time)?;
    }
    Ok(())
}

/// The grids with their columns.
fn filled_sheets(alloc: Global, raw: &RawInstance, names: &Names) -> Result<Seq<Sheet>, NoMemory> {
    let weeks = if is_weekly(raw) { names.len() } else { 0 };
    let lists = times_by_group(alloc, raw, names);
    let (lists, mut sheets) = both(lists, empty_sheets(alloc, weeks))?;
    let filled = fill(alloc, &mut sheets, raw, names, &lists);
    filled.and(Ok(sheets))
}

/// Adds the times of each group to the grids.
fn fill(
    alloc: Global,
    sheets: &mut Seq<Sheet>,
    raw: &RawInstance,
    names: &Names,
    lists: &Seq<Seq<u32>>,
) -> Result<(), NoMemory> {
    let mut group = 0u32;
    for times in lists.as_slice() {
        place_all(alloc, sheets, raw, names, group, times.as_slice())?;
        group = group.saturating_add(1);
    }
    Ok(())
}

/// The grids that have times.
fn used(alloc: Global, sheets: Seq<Sheet>) -> Result<Seq<Sheet>, NoMemory> {
    let mut kept = Seq::new(alloc);
    for sheet in sheets.items {
        if !sheet.columns.is_empty() || !sheet.others.is_empty() {
            kept.push(sheet)?;
        }
    }
    Ok(kept)
}

/// Gives each grid its rows.
fn add_rows(alloc: Global, sheets: &mut Seq<Sheet>, raw: &RawInstance) -> Result<(), NoMemory> {
    for sheet in sheets.items.iter_mut() {
        sheet.rows = rows_of(alloc, raw, sheet.columns.as_slice())?;
    }
    Ok(())
}

/// The grids of an instance with its time groups.
fn sheets_of(alloc: Global, raw: &RawInstance, names: &Names) -> Result<Seq<Sheet>, NoMemory> {
    let mut sheets = used(alloc, filled_sheets(alloc, raw, names)?)?;
    let added = add_rows(alloc, &mut sheets, raw);
    added.and(Ok(sheets))
}

/// The layout of an instance's times, of which the Ids of the time groups are given. It takes time and memory in
/// proportion to the times, the time groups, and the rows of the grids times their columns.
pub(crate) fn layout_of(
    alloc: Global,
    raw: &RawInstance,
    names: &Names,
) -> Result<Layout, NoMemory> {
    let sheets = sheets_of(alloc, raw, names)?;
    Ok(Layout {
        sheets,
        weekly: is_weekly(raw),
    })
}

/// What a time group is called, or none where there is none with the number.
pub(crate) fn time_group_name(raw: &RawInstance, group: u32) -> Option<&Text> {
    match raw.time_groups.as_slice().get(group as usize) {
        Some(group) => Some(shown(&group.name, &group.id.text)),
        None => None,
    }
}
