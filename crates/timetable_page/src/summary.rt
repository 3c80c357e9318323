//! The summary: what each solution costs, by instances and solution groups.

use crate::busy::{add, empty_lists, list_at};
use crate::draft::Draft;
use crate::naming::{instance_name, whole_name};
use crate::outcomes::Outcome;
use crate::words::Choice;
use khe_base::{NoMemory, Seq, Text, Totals};
use std::alloc::Global;
use xhstt_shape::{Archive, RawInstance, SolutionGroup};

/// How many cells a table by instances and solution groups has at most. Where there are more, each solution has a
/// row.
const CELLS: usize = 20_000;

/// What the summary shows.
#[derive(Clone, Copy)]
pub(crate) struct Results<'a> {
    pub archive: &'a Archive,
    /// What comes of each solution, the number of its instance and that of its group.
    pub outcomes: &'a [Outcome],
    pub instances: &'a [u32],
    pub groups: &'a [u32],
    /// Which solutions have timetables.
    pub choice: Choice<'a>,
}

/// The number of the group of each solution.
pub(crate) fn group_numbers(alloc: Global, archive: &Archive) -> Result<Seq<u32>, NoMemory> {
    let mut numbers = Seq::new(alloc);
    let mut number = 0u32;
    for group in archive.solution_groups.as_slice() {
        for _ in group.solutions.as_slice() {
            numbers.push(number)?;
        }
        number = number.saturating_add(1);
    }
    Ok(numbers)
}

/// What the solution group with a number is called.
pub(crate) fn group_title(archive: &Archive, group: u32) -> Option<&Text> {
    match archive.solution_groups.as_slice().get(group as usize) {
        Some(group) => Some(title_of(group)),
        None => None,
    }
}

/// What a solution group is called.
fn title_of(group: &SolutionGroup) -> &Text {
    whole_name(&group.meta_data, &group.id.text)
}

/// The lower of the totals that were least so far and those of an outcome.
fn lower(least: Option<Totals>, outcome: Outcome) -> Option<Totals> {
    match (least, outcome) {
        (Some(least), Outcome::Valid(totals)) => {
            if totals.is_lower(least) {
                Some(totals)
            } else {
                Some(least)
            }
        }
        (None, Outcome::Valid(totals)) => Some(totals),
        _ => least,
    }
}

/// The least totals of some solutions.
fn least_of(results: &Results<'_>, solutions: &[u32]) -> Option<Totals> {
    let mut least = None;
    for number in solutions {
        if let Some(outcome) = results.outcomes.get(*number as usize) {
            least = lower(least, *outcome);
        }
    }
    least
}

/// Adds what comes of a solution: as a link to its section, where it has one.
fn push_result(
    page: &mut Draft,
    results: &Results<'_>,
    number: u32,
    outcome: Outcome,
    least: Option<Totals>,
) {
    let shown = results.choice.shows(number);
    if shown {
        page.push_counted("<div><a href=#s", u128::from(number), ">");
    } else {
        page.push_literal("<div>");
    }
    match outcome {
        Outcome::Valid(totals) => page.push_totals(totals),
        Outcome::Invalid { cause, entry } => page.push_invalid(cause, entry),
    }
    if shown {
        page.push_literal("</a>");
    }
    if is_best(outcome, least) {
        page.push_literal(" <span class=best>&#9733; best</span>");
    }
    page.push_literal("</div>");
}

/// Whether a solution costs no more than the least.
fn is_best(outcome: Outcome, least: Option<Totals>) -> bool {
    match outcome {
        Outcome::Valid(totals) => least.is_some_and(|least| least == totals),
        Outcome::Invalid { .. } => false,
    }
}

/// Adds what a cell is sorted by: the least totals of its solutions.
fn push_sorted_by(page: &mut Draft, least: Option<Totals>) {
    match least {
        Some(totals) => {
            page.push_counted("<td data-v=\"", totals.hard, " ");
            page.push_counted("", totals.soft, "\">");
        }
        None => page.push_literal("<td>"),
    }
}

/// Adds the results of some solutions, in one cell.
fn push_cell(page: &mut Draft, results: &Results<'_>, solutions: &[u32], best: Option<Totals>) {
    push_sorted_by(page, least_of(results, solutions));
    for number in solutions {
        if let Some(outcome) = results.outcomes.get(*number as usize) {
            push_result(page, results, *number, *outcome, best);
        }
    }
}

/// How many of these solutions, from one place on, are of a group.
fn count_of(results: &Results<'_>, solutions: &[u32], first: usize, group: u32) -> usize {
    let mut count = 0usize;
    for place in first..solutions.len() {
        if results.groups.get(solutions[place] as usize).copied() != Some(group) {
            return count;
        }
        count = count.saturating_add(1);
    }
    count
}

/// The numbers of the solutions of each instance.
fn by_instance(alloc: Global, results: &Results<'_>) -> Result<Seq<Seq<u32>>, NoMemory> {
    let mut lists = empty_lists(alloc, results.archive.instances.len())?;
    let mut number = 0u32;
    for instance in results.instances {
        add(&mut lists, *instance, number)?;
        number = number.saturating_add(1);
    }
    Ok(lists)
}

/// Adds a head that sorts its table by its column.
fn push_sorting_head(page: &mut Draft, name: &Text) {
    page.push_named("<th scope=col><button type=button>", name, "</button>");
}

/// Adds the row of an instance.
fn push_instance_row(
    page: &mut Draft,
    results: &Results<'_>,
    raw: &RawInstance,
    solutions: &[u32],
) {
    let best = least_of(results, solutions);
    page.push_named("<tr><th scope=row>", instance_name(raw), "");
    let mut group = 0u32;
    let mut first = 0usize;
    for _ in results.archive.solution_groups.as_slice() {
        let end = first.saturating_add(count_of(results, solutions, first, group));
        if first <= end && end <= solutions.len() {
            push_cell(page, results, &solutions[first..end], best);
        }
        first = end;
        group = group.saturating_add(1);
    }
    page.push_literal("\n");
}

/// Adds a table with a row for each instance and a column for each solution group.
fn push_matrix(alloc: Global, page: &mut Draft, results: &Results<'_>) {
    match by_instance(alloc, results) {
        Ok(lists) => push_rows(page, results, &lists),
        Err(NoMemory) => page.refuse(),
    }
}

/// Adds it with the solutions of each instance.
fn push_rows(page: &mut Draft, results: &Results<'_>, lists: &Seq<Seq<u32>>) {
    page.push_literal("<table class=sorts><thead><tr><th scope=col>");
    page.push_literal("<button type=button>Instance</button>");
    for group in results.archive.solution_groups.as_slice() {
        push_sorting_head(page, title_of(group));
    }
    page.push_literal("<tbody>\n");
    let mut number = 0u32;
    for raw in results.archive.instances.as_slice() {
        push_instance_row(page, results, raw, list_at(lists, number));
        number = number.saturating_add(1);
    }
    page.push_literal("</table>\n");
}

/// Adds the row of a solution.
fn push_solution_row(page: &mut Draft, results: &Results<'_>, number: u32, outcome: Outcome) {
    page.push_literal("<tr><th scope=row>");
    if let Some(instance) = results.instances.get(number as usize) {
        if let Some(raw) = results.archive.instances.as_slice().get(*instance as usize) {
            page.push_named("", instance_name(raw), "");
        }
    }
    page.push_literal("<td>");
    if let Some(group) = results.groups.get(number as usize) {
        if let Some(title) = group_title(results.archive, *group) {
            page.push_named("", title, "");
        }
    }
    push_sorted_by(page, lower(None, outcome));
    push_result(page, results, number, outcome, None);
    page.push_literal("\n");
}

/// Adds a table with a row for each solution.
fn push_list(page: &mut Draft, results: &Results<'_>) {
    page.push_literal("<table class=sorts><thead><tr><th scope=col>");
    page.push_literal("<button type=button>Instance</button>");
    page.push_literal("<th scope=col><button type=button>Group</button>");
    page.push_literal("<th scope=col><button type=button>Costs</button><tbody>\n");
    let mut number = 0u32;
    for outcome in results.outcomes {
        push_solution_row(page, results, number, *outcome);
        number = number.saturating_add(1);
    }
    page.push_literal("</table>\n");
}

/// Adds which timetables are left out, where some are, and how to ask for them.
fn push_left_out(page: &mut Draft, results: &Results<'_>) {
    let mut shown = 0u128;
    let mut number = 0u32;
    for _ in results.outcomes {
        if results.choice.shows(number) {
            shown = shown.saturating_add(1);
        }
        number = number.saturating_add(1);
    }
    let count = results.outcomes.len() as u128;
    if shown < count {
        page.push_counted("<p id=left>Of ", count, " solutions ");
        page.push_counted(
            "",
            shown,
            " have timetables below, so that the page does not grow too large. ",
        );
        page.push_literal(
            "The option <code>--solutions N</code> shows the first N, and <code>--solution K</code> ",
        );
        page.push_literal("the one with the number K, counted from 0.</p>\n");
    }
}

/// Adds the summary of an archive. It takes time in proportion to the instances times the solution groups, where these
/// are few, and to the solutions times the solution groups.
pub(crate) fn push_summary(alloc: Global, page: &mut Draft, results: &Results<'_>) {
    page.push_literal("<section id=summary><h2>Summary</h2>\n");
    page.push_literal("<p>Lower costs are better, and hard ones count before soft ones.</p>\n");
    page.push_literal("<div class=wide tabindex=0 role=region aria-label=Summary>\n");
    let instances = results.archive.instances.len();
    let groups = results.archive.solution_groups.len();
    if instances.saturating_mul(groups) > CELLS {
        push_list(page, results);
    } else {
        push_matrix(alloc, page, results);
    }
    page.push_literal("</div>\n");
    push_left_out(page, results);
    page.push_literal("</section>\n");
}
