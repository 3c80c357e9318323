//! What the parts of a section repeat: links to resources and events with their names, and the heads of cells with the
//! names of their times. Each is made once for a section.

use crate::draft::Draft;
use crate::naming::{event_name, resource_name, time_name};
use khe_base::{NoMemory, Seq, Text, both};
use khe_instance::Instance;
use std::alloc::Global;
use xhstt_shape::RawInstance;

/// Pieces of markup that a section has many times.
#[derive(Drop)]
pub(crate) struct Labels {
    /// Of each event, the link to its row, with its name.
    pub events: Seq<Text>,
    /// Of each resource, the link to its timetable, with its name.
    pub resources: Seq<Text>,
    /// Of each time, the attribute of a cell that says the whole name of its time.
    pub times: Seq<Text>,
}

/// A link to a place of a solution's section, with a name. A name of ASCII characters alone is written from left to
/// right as all around it is, so it needs no isolation.
fn link(
    alloc: Global,
    solution: u32,
    letter: &'static str,
    number: u32,
    name: &Text,
) -> Result<Text, NoMemory> {
    let mut piece = Draft::new(alloc);
    piece.push_literal("<a href=#s");
    piece.push_counted("", u128::from(solution), "");
    piece.push_str(letter);
    piece.push_counted("", u128::from(number), ">");
    if name.as_bytes().is_ascii() {
        piece.push_between("", name, "</a>");
    } else {
        piece.push_named("", name, "</a>");
    }
    piece.into_text()
}

/// The links to all events.
fn event_links(
    alloc: Global,
    inst: &Instance,
    raw: &RawInstance,
    solution: u32,
) -> Result<Seq<Text>, NoMemory> {
    let mut links = Seq::new(alloc);
    for number in 0..inst.events() {
        links.push(link(alloc, solution, "e", number, event_name(raw, number))?)?;
    }
    Ok(links)
}

/// The links to all resources.
fn resource_links(
    alloc: Global,
    inst: &Instance,
    raw: &RawInstance,
    solution: u32,
) -> Result<Seq<Text>, NoMemory> {
    let mut links = Seq::new(alloc);
    for number in 0..inst.resources() {
        links.push(link(alloc, solution, "r", number, resource_name(raw, number))?)?;
    }
    Ok(links)
}

/// The attribute of a cell that says the whole name of its time.
fn title(alloc: Global, name: &Text) -> Result<Text, NoMemory> {
    let mut piece = Draft::new(alloc);
    piece.push_between(" title=\"", name, "\"");
    piece.into_text()
}

/// The attributes of all times.
fn titles(alloc: Global, inst: &Instance, raw: &RawInstance) -> Result<Seq<Text>, NoMemory> {
    let mut titles = Seq::new(alloc);
    for time in 0..inst.times() {
        titles.push(title(alloc, time_name(raw, time))?)?;
    }
    Ok(titles)
}

/// The pieces of the section of the solution with a number. They take time and memory in proportion to the names.
pub(crate) fn labels_of(
    alloc: Global,
    inst: &Instance,
    raw: &RawInstance,
    solution: u32,
) -> Result<Labels, NoMemory> {
    let resources = resource_links(alloc, inst, raw, solution);
    let times = titles(alloc, inst, raw);
    let (events, (resources, times)) = both(
        event_links(alloc, inst, raw, solution),
        both(resources, times),
    )?;
    Ok(Labels {
        events,
        resources,
        times,
    })
}
