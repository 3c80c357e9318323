//! The lines on a matching.

ghost use Rattle.std.specs.Prelude.{ℕ, ◌≡◌, ◌++◌, ◌<◌, OnOk, IfOk, length, Some};
ghost use Rattle.std.specs.Fmt.{signed_decimal};
ghost use Rattle.std.specs.Option.{ForSome};
ghost use Rattle.match_run.specs.Lines as spec;
ghost use Rattle.match_run.specs.Fitting.{FitsLists};
ghost use Rattle.resource_match.specs.Choices.{IsCertified, choice_at};
ghost use Rattle.resource_match.specs.declared.choices.Costs.{Costs};

use khe_base::{NoMemory, ResourceId, TaskId, Text, Totals};
use resource_match::prices::Price;
use std::alloc::Global;
use time_match::Matched;

/// Adds a whole number in decimal digits, after a minus sign where it is below 0.
fn push_signed(line: &mut Text, number: i128) -> Result<(), NoMemory>
    ensures { OnOk result (line.new ≡ line.old ++ signed_decimal number) }
{
    if number < 0 {
        line.push_literal("-")?;
    }
    line.push_number(number.unsigned_abs())
}

fn push_price(line: &mut Text, price: Price) -> Result<(), NoMemory>
    ensures { OnOk result (line.new ≡ line.old ++ spec.price_words price) }
{
    line.push_literal(" price ")?;
    push_signed(line, price.hard)?;
    line.push_literal(" ")?;
    push_signed(line, price.soft)?;
    line.push_literal(" -->\n")
}

fn push_choice(
    line: &mut Text,
    resources: &[ResourceId],
    choice: Option<u32>,
) -> Result<(), NoMemory>
    requires { ForSome choice (λ k. k < length resources.now) }
    ensures { OnOk result (line.new ≡ line.old ++ spec.choice_words resources.now choice) }
{
    match choice {
        Some(place) => line.push_number(u128::from(resources[place as usize].0)),
        None => line.push_literal("-"),
    }
}

/// Adds what a task is given.
fn push_given(
    line: &mut Text,
    resources: &[ResourceId],
    choice: Option<u32>,
) -> Result<(), NoMemory>
    requires { ForSome choice (λ k. k < length resources.now) }
    ensures { OnOk result (line.new ≡ line.old ++ spec.given_words resources.now choice) }
{
    line.push_literal(" resource ")?;
    push_choice(line, resources, choice)
}

/// Adds a task by its numbers.
fn push_task(line: &mut Text, task: TaskId) -> Result<(), NoMemory>
    ensures { OnOk result (line.new ≡ line.old ++ spec.task_words task) }
{
    line.push_literal("<!-- khe task ")?;
    push_numbers(line, task)
}

/// Adds the numbers of a task's meet and of its place.
fn push_numbers(line: &mut Text, task: TaskId) -> Result<(), NoMemory>
    ensures { OnOk result (line.new ≡ line.old ++ spec.number_words task) }
{
    line.push_number(u128::from(task.meet.0))?;
    line.push_literal(" ")?;
    line.push_number(u128::from(task.place))
}

fn push_task_line(
    line: &mut Text,
    resources: &[ResourceId],
    task: TaskId,
    choice: Option<u32>,
    price: Price,
) -> Result<(), NoMemory>
    requires { ForSome choice (λ k. k < length resources.now) }
    ensures { OnOk result (line.new ≡ line.old ++ spec.task_line resources.now task choice price) }
{
    push_task(line, task)?;
    push_given(line, resources, choice)?;
    push_price(line, price)
}

/// Adds the lines of all tasks.
fn push_tasks(
    line: &mut Text,
    resources: &[ResourceId],
    tasks: &[TaskId],
    choice: &[Option<u32>],
    prices: &[Price],
) -> Result<(), NoMemory>
    requires each { length choice.now ≡ length tasks.now }
    requires priced { length prices.now ≡ length tasks.now }
    requires range { (k r : ℕ) → choice_at choice.now k ≡ Some r → r < length resources.now }
    ensures { OnOk result (line.new ≡ line.old ++ spec.task_lines resources.now tasks.now choice.now prices.now) }
{
    for k in 0..tasks.len() {
        push_task_line(line, resources, tasks[k], choice[k], prices[k])?;
    }
    Ok(())
}

/// Whether a price is 0.
fn is_nothing(price: Price) -> bool
    ensures { result ≡ spec.is_nothing price }
{
    price.hard.unsigned_abs() == 0 && price.soft.unsigned_abs() == 0
}

/// Adds a resource with its price, where that is not 0.
fn push_resource(line: &mut Text, resource: ResourceId, price: Price) -> Result<(), NoMemory>
    ensures { OnOk result (line.new ≡ line.old ++ spec.resource_line resource price) }
{
    if is_nothing(price) {
        return Ok(());
    }
    line.push_literal("<!-- khe resource ")?;
    line.push_number(u128::from(resource.0))?;
    push_price(line, price)
}

/// Adds the lines of all resources.
fn push_resources(
    line: &mut Text,
    resources: &[ResourceId],
    prices: &[Price],
) -> Result<(), NoMemory>
    requires { length prices.now ≡ length resources.now }
    ensures { OnOk result (line.new ≡ line.old ++ spec.resource_lines resources.now prices.now) }
{
    for k in 0..resources.len() {
        push_resource(line, resources[k], prices[k])?;
    }
    Ok(())
}

fn push_totals(line: &mut Text, totals: Totals) -> Result<(), NoMemory>
    ensures { OnOk result (line.new ≡ line.old ++ spec.totals_words totals) }
{
    line.push_literal(" hard ")?;
    line.push_number(totals.hard)?;
    line.push_literal(" soft ")?;
    line.push_number(totals.soft)
}

fn push_sum(line: &mut Text, count: usize, sum: Totals) -> Result<(), NoMemory>
    ensures { OnOk result (line.new ≡ line.old ++ spec.sum_words count sum) }
{
    push_many(line, count)?;
    line.push_literal(" sum")?;
    push_totals(line, sum)
}

/// Adds how many tasks there are.
fn push_many(line: &mut Text, count: usize) -> Result<(), NoMemory>
    ensures { OnOk result (line.new ≡ line.old ++ spec.many_words count) }
{
    line.push_literal("<!-- khe match tasks ")?;
    line.push_number(count as u128)
}

fn push_taken(line: &mut Text, taken: bool) -> Result<(), NoMemory>
    ensures { OnOk result (line.new ≡ line.old ++ spec.taken_words taken) }
{
    if taken {
        line.push_literal(" taken")
    } else {
        line.push_literal(" kept")
    }
}

fn push_last(
    line: &mut Text,
    count: usize,
    sum: Totals,
    taken: bool,
    totals: Totals,
) -> Result<(), NoMemory>
    ensures { OnOk result (line.new ≡ line.old ++ spec.last_line count sum taken totals) }
{
    push_sum(line, count, sum)?;
    push_taken(line, taken)?;
    push_totals(line, totals)?;
    line.push_literal(" -->\n")
}

/// The lines on a matching of a timetable that then costs this: `<!-- khe task M P resource R price H S -->` for each
/// task, by its meet and place, with a dash where it is given no resource; `<!-- khe resource R price H S -->` for each
/// resource of the type whose price is not 0; and `<!-- khe match tasks N sum hard A soft C taken hard H soft S -->`,
/// with `kept` in place of `taken` where the choice was not made: how many tasks there are, what the choice costs task
/// by task, and what the timetable costs. They are comments of the archive that they stand after.
///
/// It fails only where memory is refused. It takes time and memory in proportion to the tasks and the
/// resources.
pub fn match_lines(alloc: Global, matched: &Matched, totals: Totals) -> Result<Text, NoMemory>
    requires { (costs : Costs) × FitsLists matched.now costs × IsCertified costs matched.now.cheapest }
    ensures { IfOk result (λ t. t ≡ spec.match_lines matched.now totals) }
{
    let mut line = Text::new(alloc);
    push_tasks(
        &mut line,
        matched.resources.as_slice(),
        matched.tasks.as_slice(),
        matched.cheapest.chosen.as_slice(),
        matched.cheapest.task_prices.as_slice(),
    )?;
    push_resources(
        &mut line,
        matched.resources.as_slice(),
        matched.cheapest.resource_prices.as_slice(),
    )?;
    push_last(
        &mut line,
        matched.tasks.len(),
        matched.sum,
        matched.taken,
        totals,
    )?;
    Ok(line)
}
