//! The part of the page on one solution.

ghost use Rattle.std.specs.Prelude.{◌≡◌, ◌++◌, OnOk, IfOk, length, map};
ghost use Rattle.parallel_solve.specs.declared.verdicts.Verdict.TheVariants.{Valid as ValidVerdict, Invalid as InvalidVerdict};
ghost use Rattle.timetable_page.specs.Pages.{IsSection};
ghost use Rattle.timetable_page.specs.Pieces as spec;

use crate::busy::{list_at, timetable_of};
use crate::costs::{Defect, PageSolution, cost_of, dearest_first, page_solution};
use crate::defects::push_defects;
use crate::draft::Draft;
use crate::events::push_events;
use crate::grids::push_grids;
use crate::kinds::{kind_name, kind_of, push_kinds};
use crate::labels::labels_of;
use crate::layout::{group_names, layout_of};
use crate::marking::{push_invalid, push_totals};
use crate::naming::{constraint_id, constraint_name, event_name, instance_name};
use crate::parts::Spelled;
use crate::view::View;
use khe_base::{CostFn, NoMemory, Seq, Text, Totals, beside, both};
use khe_instance::{Constraint, Instance, Plain};
use plain_eval::Values;
use std::alloc::Global;
use xhstt_shape::RawInstance;

/// The head of a section: the number of the solution, its instance and its group.
fn push_head(page: &mut Draft, spelled: &Spelled<'_>) {
    let number = u128::from(spelled.number);
    page.push_counted("<section class=sol id=s", number, ">");
    page.push_counted("<h2>Solution ", number, ": ");
    page.push_named("", instance_name(spelled.instance), " ");
    page.push_named("<small>by ", spelled.group, "</small></h2>\n");
    let solution = spelled.solution;
    if let Some(description) = &solution.description {
        page.push_named("<p>", description, "</p>\n");
    }
    if let Some(running_time) = &solution.running_time {
        page.push_named("<p>Running time: ", running_time, "</p>\n");
    }
}

/// Adds the links from the head of a valid solution's section to its parts.
fn push_ways(page: &mut Draft, number: u32) {
    let number = u128::from(number);
    page.push_counted(
        "<nav class=ways aria-label=\"Solution ",
        number,
        "\"><a href=#s",
    );
    page.push_counted("", number, "k>Costs by kind</a> <a href=#s");
    page.push_counted("", number, "o>Costs by constraint</a> <a href=#s");
    page.push_counted("", number, "t>Timetables</a> <a href=#s");
    page.push_counted("", number, "v>Events</a></nav>\n");
}

/// The head of a section, as a text of its own.
fn head_of(alloc: Global, spelled: &Spelled<'_>) -> Result<Text, NoMemory> {
    let mut page = Draft::new(alloc);
    push_head(&mut page, spelled);
    page.into_text()
}

/// Adds what a section says of the totals of a valid solution.
fn push_valid(page: &mut Text, totals: Totals) -> Result<(), NoMemory>
    ensures { OnOk result (page.new ≡ page.old ++ spec.valid_text totals) }
{
    page.push_literal("<p class=\"totals\">")?;
    push_totals(page, totals)?;
    page.push_literal("</p>\n")
}

/// A section of its head, the totals, and the rest.
fn joined(head: Text, totals: Totals, rest: &Text) -> Result<Text, NoMemory>
    ensures { IfOk result (λ page. page ≡ head ++ (spec.valid_text totals ++ rest.now)) }
{
    let mut page = head;
    push_valid(&mut page, totals)?;
    page.push_text(rest)?;
    Ok(page)
}

/// The section of an invalid solution: why it is, and the event of the entry that the cause is found at.
pub(crate) fn invalid_section(
    alloc: Global,
    spelled: &Spelled<'_>,
    cause: u32,
    entry: u32,
) -> Result<Text, NoMemory>
    ensures { IfOk result (IsSection (InvalidVerdict cause entry)) }
{
    let head = head_of(alloc, spelled)?;
    let rest = entry_text(alloc, spelled, entry)?;
    let page = joined_cause(head, cause, entry, &rest)?;
    Ok(page)
}

/// A section of its head, the cause, and the rest.
fn joined_cause(head: Text, cause: u32, entry: u32, rest: &Text) -> Result<Text, NoMemory>
    ensures { IfOk result (λ page. page ≡ head ++ (spec.cause_text cause entry ++ rest.now)) }
{
    let mut page = head;
    push_cause(&mut page, cause, entry)?;
    page.push_text(rest)?;
    Ok(page)
}

/// Adds what a section says of a solution that is invalid.
fn push_cause(page: &mut Text, cause: u32, entry: u32) -> Result<(), NoMemory>
    ensures { OnOk result (page.new ≡ page.old ++ spec.cause_text cause entry) }
{
    page.push_literal("<p class=\"bad\">")?;
    push_invalid(page, cause, entry)?;
    page.push_literal("</p>\n")
}

/// Whose entry the entry with a number is, and the end of the section.
fn entry_text(alloc: Global, spelled: &Spelled<'_>, entry: u32) -> Result<Text, NoMemory> {
    let mut page = Draft::new(alloc);
    let mut number = 0u32;
    let mut views = spelled.solution.events.views();
    for _ in 0..spelled.solution.events.len() {
        if let Some(view) = views.next() {
            if number == entry {
                push_entry(&mut page, spelled.instance, entry, view.reference().text);
            }
        }
        number = number.saturating_add(1);
    }
    page.push_literal("</section>\n");
    page.into_text()
}

/// Adds that an entry is of the event with this Id.
fn push_entry(page: &mut Draft, raw: &RawInstance, entry: u32, id: &str) {
    let mut number = 0u32;
    for event in raw.events.as_slice() {
        if event.id.text.is_spelled(id) {
            page.push_counted("<p>Entry ", u128::from(entry), " is of the event ");
            page.push_named("", event_name(raw, number), "");
            page.push_named(" (Id ", &event.id.text, ").</p>\n");
        }
        number = number.saturating_add(1);
    }
}

/// How a constraint's cost counts.
fn hardness(required: bool) -> &'static str {
    if required { "hard" } else { "soft" }
}

/// What a constraint's cost is of its deviation.
fn cost_function(cost: CostFn) -> &'static str {
    match cost {
        CostFn::Step => "step",
        CostFn::Linear => "linear",
        CostFn::Quadratic => "quadratic",
    }
}

/// Adds the row of a constraint: its kind, its name and its Id, whether it is required, its weight, how many monitors
/// deviate, and what they cost together.
fn push_constraint_row(
    page: &mut Draft,
    number: u32,
    raw: &RawInstance,
    which: u32,
    constraint: &Constraint,
    defects: &[Defect],
) {
    page.push_place("<tr id=s", number, "c", which, "><td>");
    page.push_str(kind_name(kind_of(&constraint.rule)));
    page.push_named("<th scope=row>", constraint_name(raw, which), "");
    if let Some(id) = constraint_id(raw, which) {
        page.push_named(" <small>", id, "</small>");
    }
    page.push_literal("<td>");
    page.push_str(hardness(constraint.required));
    page.push_counted("<td class=num>", u128::from(constraint.weight), " ");
    page.push_str(cost_function(constraint.cost));
    page.push_spent(defects.len(), cost_of(defects));
}

/// Adds the row of one constraint, and below it the monitors that deviate.
fn push_constraint(
    alloc: Global,
    page: &mut Draft,
    view: &View<'_>,
    which: u32,
    defects: &[Defect],
) {
    if which >= view.inst.constraints() {
        return;
    }
    let constraint = view.inst.constraint(which);
    push_constraint_row(page, view.number, view.raw, which, constraint, defects);
    if !defects.is_empty() {
        push_defects(alloc, page, view, &constraint.rule, defects);
    }
}

/// Adds the table of what the solution costs by constraint, in the order of the instance, those first of which a
/// monitor deviates.
fn push_costs(alloc: Global, page: &mut Draft, view: &View<'_>, defects: &Seq<Seq<Defect>>) {
    page.push_counted(
        "<details open id=s",
        u128::from(view.number),
        "o><summary>Costs by constraint</summary>",
    );
    page.push_literal("<div class=wide tabindex=0 role=region aria-label=\"Costs by constraint\">");
    page.push_literal("<table class=costs><thead><tr><th scope=col>Kind<th scope=col>Constraint");
    page.push_literal("<th scope=col>Counts as<th scope=col>Weight");
    page.push_literal("<th scope=col>Deviate<th scope=col>Cost<tbody>\n");
    for which in 0..view.inst.constraints() {
        let list = list_at(defects, which);
        if !list.is_empty() {
            push_constraint(alloc, page, view, which, list);
        }
    }
    page.push_literal("<tbody class=fine>\n");
    for which in 0..view.inst.constraints() {
        let list = list_at(defects, which);
        if list.is_empty() {
            push_constraint(alloc, page, view, which, list);
        }
    }
    page.push_literal("</table></div></details>\n");
}

/// Puts the defects of each constraint in order, the dearest first.
fn in_order(defects: &mut Seq<Seq<Defect>>) {
    for list in defects.items.iter_mut() {
        dearest_first(list);
    }
}

/// The defects of each constraint, the dearest first.
fn defects_of(alloc: Global, inst: &Instance, values: &Values) -> Result<Seq<Seq<Defect>>, NoMemory>
    requires { (length values.now.deviations ≡ length inst.now.monitors) × (length values.now.costs ≡ length inst.now.monitors) }
{
    let PageSolution {
        totals: _,
        mut defects,
    } = page_solution(alloc, inst, values)?;
    in_order(&mut defects);
    Ok(defects)
}

/// Adds what a section has below the totals: the costs by kind and by constraint, the timetables and the events.
fn push_below(
    alloc: Global,
    page: &mut Draft,
    view: &View<'_>,
    defects: &Seq<Seq<Defect>>,
    deviations: &[u64],
) {
    push_ways(page, view.number);
    push_kinds(alloc, page, view.number, view.inst, defects);
    push_costs(alloc, page, view, defects);
    push_grids(alloc, page, view, deviations);
    push_events(page, view);
    page.push_literal("</section>\n");
}

/// What a section has below the totals, as a text of its own.
fn below(alloc: Global, view: &View<'_>, values: &Values) -> Result<Text, NoMemory>
    requires { (length values.now.deviations ≡ length view.now.inst.now.monitors) × (length values.now.costs ≡ length view.now.inst.now.monitors) }
{
    let defects = defects_of(alloc, view.inst, values)?;
    let mut page = Draft::new(alloc);
    push_below(
        alloc,
        &mut page,
        view,
        &defects,
        values.deviations.as_slice(),
    );
    page.into_text()
}

/// What a section has below the totals, of the timetable of a solution.
fn rest_of(
    alloc: Global,
    spelled: &Spelled<'_>,
    inst: &Instance,
    plain: &Plain,
    values: &Values,
) -> Result<Text, NoMemory>
    requires { (length values.now.deviations ≡ length inst.now.monitors) × (length values.now.costs ≡ length inst.now.monitors) }
{
    let raw = spelled.instance;
    let table = timetable_of(alloc, inst, plain);
    let labels = labels_of(alloc, inst, raw, spelled.number);
    let names = group_names(alloc, raw)?;
    let layout = layout_of(alloc, raw, &names);
    let ((table, labels), (layout, names)) = both(both(table, labels), beside(layout, names))?;
    let view = View {
        number: spelled.number,
        inst,
        raw,
        plain,
        table: &table,
        layout: &layout,
        labels: &labels,
        time_groups: &names,
    };
    below(alloc, &view, values)
}

/// The section of a valid solution: its totals, its costs by kind and by constraint, its timetables and its events.
pub(crate) fn valid_section(
    alloc: Global,
    spelled: &Spelled<'_>,
    inst: &Instance,
    plain: &Plain,
    values: &Values,
) -> Result<Text, NoMemory>
    requires { (length values.now.deviations ≡ length inst.now.monitors) × (length values.now.costs ≡ length inst.now.monitors) }
    ensures { IfOk result (IsSection (ValidVerdict values.now)) }
{
    let head = head_of(alloc, spelled)?;
    let rest = rest_of(alloc, spelled, inst, plain, values)?;
    let page = joined(head, values.totals, &rest)?;
    Ok(page)
}
