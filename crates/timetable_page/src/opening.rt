//! The beginning and the end of the page.

ghost use Rattle.std.specs.Prelude.{IsTrue};
ghost use Rattle.khe_base.specs.Text.{is_ascii};

use crate::draft::Draft;
use crate::naming::whole_name;
use crate::style::{SCRIPT, STYLE};
use crate::words::Choice;
use khe_base::{NoMemory, Text};
use std::alloc::Global;
use xhstt_shape::{Archive, MetaData};

/// To how many sections the links that stay in sight lead at most.
const NAMED: usize = 200;

/// Adds a line on the archive, where it has one.
fn push_said(page: &mut Draft, before: &str, text: &Option<Text>)
    requires { IsTrue (is_ascii before.now) }
{
    if let Some(text) = text {
        page.push_named(before, text, "</dd>\n");
    }
}

/// Adds what an archive says of itself.
fn push_meta_data(page: &mut Draft, meta_data: &MetaData) {
    page.push_literal("<dl>\n");
    push_said(page, "<dt>Contributor</dt><dd>", &meta_data.contributor);
    push_said(page, "<dt>Date</dt><dd>", &meta_data.date);
    push_said(page, "<dt>Country</dt><dd>", &meta_data.country);
    push_said(page, "<dt>Description</dt><dd>", &meta_data.description);
    push_said(page, "<dt>Publication</dt><dd>", &meta_data.publication);
    push_said(page, "<dt>Remarks</dt><dd>", &meta_data.remarks);
    page.push_literal("</dl>\n");
}

/// What an archive is called.
fn archive_name<'a>(unnamed: &'a Text, archive: &'a Archive) -> &'a Text {
    let id = match &archive.id {
        Some(id) => &id.text,
        None => unnamed,
    };
    whole_name(&archive.meta_data, id)
}

/// Adds what comes before the heading, and the heading.
fn push_heading(page: &mut Draft, unnamed: &Text, archive: &Archive) {
    let name = archive_name(unnamed, archive);
    page.push_between(
        "<!DOCTYPE html>\n<html lang=\"en\"><head><meta charset=\"utf-8\"><title>",
        name,
        "</title>\n",
    );
    page.push_literal(
        "<meta name=\"viewport\" content=\"width=device-width,initial-scale=1\">\n<style>\n",
    );
    page.push_str(STYLE);
    page.push_named("</style></head><body><header id=top><h1>", name, "</h1>\n");
}

/// Adds how much the archive has, and what it says of itself.
fn push_contents(page: &mut Draft, archive: &Archive, solutions: usize) {
    let instances = archive.instances.len() as u128;
    page.push_counted("<p>Instances: ", instances, ", ");
    page.push_counted("solutions: ", solutions as u128, ".</p>\n");
    if let Some(meta_data) = &archive.meta_data {
        push_meta_data(page, meta_data.said());
    }
}

/// Adds the field to search by, and ends the header.
fn push_search(page: &mut Draft) {
    page.push_literal("<search><label for=\"find\">Find a resource or an event</label>\n");
    page.push_literal(
        "<input id=\"find\" type=\"search\" autocomplete=\"off\"><ul id=\"found\" aria-live=\"polite\"></ul></search>\n",
    );
    page.push_literal(
        "<noscript><p>Searching and sorting need scripts; all else works without.</p></noscript>\n",
    );
    page.push_literal("</header>\n");
}

/// Adds the links that stay in sight: to the top, the summary, and the section of each solution that has one.
fn push_nav(page: &mut Draft, choice: &Choice<'_>, solutions: usize) {
    page.push_literal(
        "<nav class=top aria-label=Page><a href=#top>Top</a> <a href=#summary>Summary</a>",
    );
    let mut named = 0usize;
    for number in 0..u32::try_from(solutions).unwrap_or(u32::MAX) {
        if named < NAMED && choice.shows(number) {
            page.push_counted(" <a href=#s", u128::from(number), ">Solution ");
            page.push_counted("", u128::from(number), "</a>");
            named = named.saturating_add(1);
        }
    }
    page.push_literal("</nav><main>\n");
}

/// The beginning of the page: what archive it is, and how much it has. It is there before the solutions are judged.
pub(crate) fn opening(
    alloc: Global,
    choice: &Choice<'_>,
    archive: &Archive,
    solutions: usize,
) -> Result<Text, NoMemory> {
    let unnamed = Text::from_str(alloc, "Timetables")?;
    let mut page = Draft::new(alloc);
    push_heading(&mut page, &unnamed, archive);
    push_contents(&mut page, archive, solutions);
    push_search(&mut page);
    push_nav(&mut page, choice, solutions);
    page.into_text()
}

/// Adds that the timetables of the solutions from one on are not shown, of those that are to be.
fn push_not_shown(page: &mut Draft, choice: &Choice<'_>, shown: u32, solutions: u32) {
    if shown >= solutions {
        return;
    }
    page.push_counted(
        "<section><h2>Not shown</h2><p id=rest>The timetables of solutions from ",
        u128::from(shown),
        " on ",
    );
    page.push_literal("are not shown, so that the page does not grow too large.</p>\n");
    for number in shown..solutions {
        if choice.shows(number) {
            page.push_counted("<p id=s", u128::from(number), ">Solution ");
            page.push_counted("", u128::from(number), " is not shown.</p>\n");
        }
    }
    page.push_literal("</section>\n");
}

/// Ends the page.
fn push_end(page: &mut Draft) {
    page.push_literal("</main><script>\n");
    page.push_str(SCRIPT);
    page.push_literal("</script></body></html>\n");
}

/// The end of the page, where timetables from one solution on are not shown.
pub(crate) fn closing(
    alloc: Global,
    choice: &Choice<'_>,
    shown: u32,
    solutions: usize,
) -> Result<Text, NoMemory> {
    let solutions = u32::try_from(solutions).unwrap_or(u32::MAX);
    let mut page = Draft::new(alloc);
    push_not_shown(&mut page, choice, shown, solutions);
    push_end(&mut page);
    page.into_text()
}
