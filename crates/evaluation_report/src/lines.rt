//! The lines of a report on solutions.

ghost use Rattle.std.specs.Prelude.{◌≡◌, ◌++◌, ◌<◌, length, OnOk, IfOk, codes};
ghost use Rattle.evaluation_report.specs.Lines.{header_line, solution_line, monitor_line, measured_line, monitor_head, monitor_tail, total_line, cause_at, invalid_line};

use crate::points::push_point;
use crate::words::{kind_between, push_count, push_id, push_quoted};
use fault_tables::cause_name;
use khe_base::{MonitorId, NoMemory, Text, Totals};
use khe_instance::{Constraint, Instance, Monitor};
use std::alloc::Global;

/// The first line of a report, `archive instances I solutions S`: how many instances and solutions
/// the archive has.
///
/// It fails only where memory is refused. It takes constant time and memory.
pub fn header_line(alloc: Global, instances: u32, solutions: u32) -> Result<Text, NoMemory>
    ensures { IfOk result (λ t. t ≡ header_line instances solutions) }
{
    let mut line = Text::new(alloc);
    line.push_literal("archive instances ")?;
    line.push_number(u128::from(instances))?;
    line.push_literal(" solutions ")?;
    line.push_number(u128::from(solutions))?;
    line.push_literal("\n")?;
    Ok(line)
}

/// The first line of a solution, `solution K group "G" instance "I"`: its number, from 0, and the
/// Ids of its group and its instance, escaped.
///
/// It fails only where memory is refused. It takes time and memory linear in the Ids.
pub fn solution_line(
    alloc: Global,
    number: u32,
    group: &Text,
    instance: &Text,
) -> Result<Text, NoMemory>
    ensures { IfOk result (λ t. t ≡ solution_line number group.now instance.now) }
{
    let mut line = Text::new(alloc);
    line.push_literal("solution ")?;
    line.push_number(u128::from(number))?;
    line.push_literal(" group ")?;
    push_quoted(alloc, &mut line, group)?;
    line.push_literal(" instance ")?;
    push_quoted(alloc, &mut line, instance)?;
    line.push_literal("\n")?;
    Ok(line)
}

/// Adds the line of a monitor, `monitor M KIND "C" POINT deviation D hard X`: its number, its kind, the
/// Id of its constraint, its point, its deviation and its cost. `soft` stands in place of `hard`
/// where the constraint is not required, and ` detached` at the end where the monitor is not
/// attached. The point is `event "E"`, `event "E" role "R"`, `group "G"`, `events "E" "F"` or
/// `resource "R"`.
///
/// It fails only where memory is refused. It takes time and memory linear in the Ids.
pub fn push_monitor_line(
    alloc: Global,
    text: &mut Text,
    inst: &Instance,
    m: MonitorId,
    deviation: u64,
    cost: u128,
    attached: bool,
) -> Result<(), NoMemory>
    requires { m.0 < length inst.now.monitors }
    ensures { OnOk result (text.new ≡ text.old ++ monitor_line inst.now m.0 deviation cost attached) }
{
    inst.facts();
    let monitor = inst.monitor(m);
    let constraint = inst.constraint(monitor.constraint);
    push_head(alloc, text, m, monitor, constraint)?;
    push_point(alloc, text, inst, &constraint.rule, monitor.point)?;
    push_tail(text, constraint.required, deviation, cost, attached)
}

/// The line of a monitor, as `push_monitor_line` adds it.
///
/// It fails only where memory is refused. It takes time and memory linear in the Ids.
pub fn monitor_line(
    alloc: Global,
    inst: &Instance,
    m: MonitorId,
    deviation: u64,
    cost: u128,
    attached: bool,
) -> Result<Text, NoMemory>
    requires { m.0 < length inst.now.monitors }
    ensures { IfOk result (λ t. t ≡ monitor_line inst.now m.0 deviation cost attached) }
{
    let mut line = Text::new(alloc);
    push_monitor_line(alloc, &mut line, inst, m, deviation, cost, attached)?;
    Ok(line)
}

/// Adds what a monitor's line begins with, and a space: its number, its kind and the Id of its constraint.
fn push_head(
    alloc: Global,
    line: &mut Text,
    m: MonitorId,
    monitor: Monitor,
    constraint: &Constraint,
) -> Result<(), NoMemory>
    ensures { OnOk result (line.new ≡ line.old ++ (monitor_head m.0 monitor constraint.now ++ codes " ")) }
{
    line.push_literal("monitor ")?;
    line.push_number(u128::from(m.0))?;
    push_id(
        alloc,
        line,
        kind_between(monitor.kind),
        &constraint.id,
        "\" ",
    )
}

/// Adds the end of a monitor's line: its deviation, and its cost by whether it is hard.
fn push_tail(
    line: &mut Text,
    required: bool,
    deviation: u64,
    cost: u128,
    attached: bool,
) -> Result<(), NoMemory>
    ensures { OnOk result (line.new ≡ line.old ++ monitor_tail required deviation cost attached) }
{
    line.push_literal(" deviation ")?;
    push_count(line, u128::from(deviation))?;
    line.push_literal(if required { " hard " } else { " soft " })?;
    push_count(line, cost)?;
    line.push_literal(if attached { "\n" } else { " detached\n" })
}

/// The last line of a valid solution, `total hard H soft S`: both totals.
///
/// It fails only where memory is refused. It takes constant time and memory.
pub fn total_line(alloc: Global, totals: Totals) -> Result<Text, NoMemory>
    ensures { IfOk result (λ t. t ≡ total_line totals) }
{
    let mut line = Text::new(alloc);
    line.push_literal("total hard ")?;
    line.push_number(totals.hard)?;
    line.push_literal(" soft ")?;
    line.push_number(totals.soft)?;
    line.push_literal("\n")?;
    Ok(line)
}

/// What an invalid solution has in place of monitors and a total, `invalid CAUSE NAME entry J`: the
/// number of the cause, from 1 to 7, its name, and the number of the entry, from 0.
///
/// It fails only where memory is refused. It takes constant time and memory.
pub fn invalid_line(alloc: Global, cause: u32, entry: u32) -> Result<Text, NoMemory>
    ensures { IfOk result (λ t. t ≡ invalid_line cause entry) }
{
    let mut line = Text::new(alloc);
    line.push_literal("invalid ")?;
    push_cause(&mut line, cause, entry)?;
    Ok(line)
}

/// Adds why and at which entry a solution is invalid, `CAUSE NAME entry J`, and a line feed.
///
/// It fails only where memory is refused. It takes constant time and memory.
pub fn push_cause(line: &mut Text, cause: u32, entry: u32) -> Result<(), NoMemory>
    ensures { OnOk result (line.new ≡ line.old ++ cause_at cause entry) }
{
    line.push_number(u128::from(cause))?;
    line.push_literal(" ")?;
    line.push_literal(cause_name(cause).unwrap_or(""))?;
    line.push_literal(" entry ")?;
    line.push_number(u128::from(entry))?;
    line.push_literal("\n")
}
