//! The lines that answer the questions of a script.

ghost use Rattle.std.specs.Prelude.{◌≡◌, ◌++◌, ◌<◌, length, OnOk, IfOk};
ghost use Rattle.std.specs.Option.{option_map};
ghost use Rattle.evaluation_report.specs.Answers.{group_line, meet_line, span_text, task_line, ok_line, refused_line, number_or_dash};

use crate::points::push_event;
use khe_base::{GroupId, NoMemory, Text, Totals};
use khe_instance::{Instance, Meet, Task};
use khe_told::Refusal;
use std::alloc::Global;

/// The line of a group of monitors, `group G hard H soft S`: its number, and what its children cost
/// together.
///
/// It fails only where memory is refused. It takes constant time and memory.
pub fn group_line(alloc: Global, group: GroupId, totals: Totals) -> Result<Text, NoMemory>
    ensures { IfOk result (λ t. t ≡ group_line group.0 totals) }
{
    let mut line = Text::new(alloc);
    line.push_literal("group ")?;
    line.push_number(u128::from(group.0))?;
    line.push_literal(" hard ")?;
    line.push_number(totals.hard)?;
    line.push_literal(" soft ")?;
    line.push_number(totals.soft)?;
    line.push_literal("\n")?;
    Ok(line)
}

/// The line of a meet, `meet M event "E" duration D time T`: its number, the Id of its event,
/// escaped, its duration and the number of its start, with `-` where it has none.
///
/// It fails only where memory is refused. It takes time and memory linear in the Id.
pub fn meet_line(alloc: Global, inst: &Instance, meet: &Meet) -> Result<Text, NoMemory>
    requires { meet.now.event.0 < length inst.now.events }
    ensures { IfOk result (λ t. t ≡ meet_line inst.now meet.now) }
{
    let mut line = Text::new(alloc);
    line.push_literal("meet ")?;
    line.push_number(u128::from(meet.meet.0))?;
    line.push_literal(" ")?;
    push_event(alloc, &mut line, inst, meet.event)?;
    push_span(&mut line, meet.duration, meet.start.map(|time| time.0))?;
    Ok(line)
}

/// Adds the end of a meet's line: its duration and the number of its start.
fn push_span(line: &mut Text, duration: u32, start: Option<u32>) -> Result<(), NoMemory>
    ensures { OnOk result (line.new ≡ line.old ++ span_text duration start) }
{
    line.push_literal(" duration ")?;
    line.push_number(u128::from(duration))?;
    line.push_literal(" time ")?;
    push_number_or_dash(line, start)?;
    line.push_literal("\n")
}

/// The line of a task, `task M P resource R`: the number of its meet, its place and the number of
/// its resource, with `-` where it has none.
///
/// It fails only where memory is refused. It takes constant time and memory.
pub fn task_line(alloc: Global, task: &Task) -> Result<Text, NoMemory>
    ensures { IfOk result (λ t. t ≡ task_line task.now) }
{
    let mut line = Text::new(alloc);
    line.push_literal("task ")?;
    line.push_number(u128::from(task.task.meet.0))?;
    line.push_literal(" ")?;
    line.push_number(u128::from(task.task.place))?;
    line.push_literal(" resource ")?;
    push_number_or_dash(&mut line, task.resource.map(|resource| resource.0))?;
    line.push_literal("\n")?;
    Ok(line)
}

/// The answer to what was done, `ok`, or `ok N` with the number of the meet or the group that was
/// made.
///
/// It fails only where memory is refused. It takes constant time and memory.
pub fn ok_line(alloc: Global, made: Option<u32>) -> Result<Text, NoMemory>
    ensures { IfOk result (λ t. t ≡ ok_line made) }
{
    let mut line = Text::new(alloc);
    line.push_literal("ok")?;
    if let Some(number) = made {
        line.push_literal(" ")?;
        line.push_number(u128::from(number))?;
    }
    line.push_literal("\n")?;
    Ok(line)
}

/// The answer to what is refused, `refused NUMBER NAME`: the number of the refusal and its name.
///
/// It fails only where memory is refused. It takes constant time and memory.
pub fn refused_line(alloc: Global, refusal: Refusal) -> Result<Text, NoMemory>
    ensures { IfOk result (λ t. t ≡ refused_line refusal) }
{
    let mut line = Text::new(alloc);
    line.push_literal("refused ")?;
    line.push_number(u128::from(refusal.number()))?;
    line.push_literal(" ")?;
    line.push_literal(refusal.name())?;
    line.push_literal("\n")?;
    Ok(line)
}

/// Adds a number, or `-` where there is none.
fn push_number_or_dash(line: &mut Text, number: Option<u32>) -> Result<(), NoMemory>
    ensures { OnOk result (line.new ≡ line.old ++ number_or_dash number) }
{
    match number {
        Some(number) => line.push_number(u128::from(number)),
        None => line.push_literal("-"),
    }
}
