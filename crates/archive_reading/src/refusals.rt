//! Why an archive is refused, and the line that says so.

ghost use Rattle.std.specs.Prelude.{◌≡◌, ◌++◌, IfOk, IsTrue, OnOk, codes};
ghost use Rattle.khe_base.specs.Text.{is_ascii};
ghost use Rattle.archive_reading.specs.Refusals as spec;

use evaluation_report::push_cause;
use fault_tables::{
    INVALID, LIMIT, NO_SUCH_INSTANCE, NO_SUCH_SOLUTION, NO_SUCH_TIME, NO_SUCH_TYPE, TOO_LARGE,
    TOO_MANY_TO_MATCH, fault_name, limit_name,
};
use khe_base::{NoMemory, Text};
use std::alloc::Global;

/// Why an archive is refused.
#[derive(Clone, Copy, PartialEq, Eq)]
pub enum Refusal {
    /// A fault of this kind at this byte: of the text, kinds 1 to 6; of the shape of the elements,
    /// kinds 7 to 11; of names and references, kinds 12 to 15.
    Fault { kind: u32, at: u64 },
    /// The count above the limit with this number, from 1 to 16.
    Limit { which: u32, value: u128 },
    /// More bytes than the greatest archive has.
    TooLarge,
    /// The archive has no solution of the number that is asked for.
    NoSuchSolution,
    /// The archive has no instance of the number that is asked for.
    NoSuchInstance,
    /// That solution is invalid, for the cause with this number at the entry with this number.
    Invalid { cause: u32, entry: u32 },
    /// Its instance has no time of the number that is asked for.
    NoSuchTime,
    /// Its instance has no resource type of the number that is asked for.
    NoSuchType,
    /// More tasks run at the time than can be matched: this many.
    TooManyTasks { tasks: u32 },
}

/// The line that refuses an archive.
pub fn refusal_line(alloc: Global, refusal: Refusal) -> Result<Text, NoMemory>
    ensures { IfOk result (λ t. t ≡ spec.refusal_line refusal) }
{
    let mut line = Text::new(alloc);
    line.push_literal("khe: archive refused: ")?;
    push_refusal(&mut line, refusal)?;
    Ok(line)
}

/// Adds the number and the name of a refusal, with what more is said of it, and a line feed.
pub fn push_refusal(line: &mut Text, refusal: Refusal) -> Result<(), NoMemory>
    ensures { OnOk result (line.new ≡ line.old ++ spec.refusal_words refusal) }
{
    match refusal {
        Refusal::Fault { kind, at } => push_fault(line, kind, at),
        Refusal::Limit { which, value } => push_limit(line, which, value),
        Refusal::TooLarge => push_alone(line, TOO_LARGE),
        Refusal::NoSuchSolution => push_alone(line, NO_SUCH_SOLUTION),
        Refusal::NoSuchInstance => push_alone(line, NO_SUCH_INSTANCE),
        Refusal::Invalid { cause, entry } => {
            push_kind(line, INVALID)?;
            line.push_literal(" ")?;
            push_cause(line, cause, entry)
        }
        Refusal::NoSuchTime => push_alone(line, NO_SUCH_TIME),
        Refusal::NoSuchType => push_alone(line, NO_SUCH_TYPE),
        Refusal::TooManyTasks { tasks } => push_count(line, TOO_MANY_TO_MATCH, tasks),
    }
}

/// Adds the number of a kind of fault and its name.
fn push_kind(line: &mut Text, kind: u32) -> Result<(), NoMemory>
    ensures { OnOk result (line.new ≡ line.old ++ spec.kind_words kind) }
{
    line.push_number(u128::from(kind))?;
    line.push_literal(" ")?;
    line.push_literal(kind_name(kind))
}

/// The name of a kind of fault.
#[tactic(auto, unfolding(crate::specs::Refusals::kind_name))]
fn kind_name(kind: u32) -> &'static str
    ensures name { result.now ≡ spec.kind_name kind }
    ensures ascii { IsTrue (is_ascii result.now) }
{
    fault_name(kind).unwrap_or("")
}

/// Adds a kind of which no more is said.
fn push_alone(line: &mut Text, kind: u32) -> Result<(), NoMemory>
    ensures { OnOk result (line.new ≡ line.old ++ (spec.kind_words kind ++ codes "\n")) }
{
    push_kind(line, kind)?;
    line.push_literal("\n")
}

/// Adds a kind and a number of what there is too much of.
fn push_count(line: &mut Text, kind: u32, count: u32) -> Result<(), NoMemory>
    ensures { OnOk result (line.new ≡ line.old ++ spec.count_words kind count) }
{
    push_kind(line, kind)?;
    line.push_literal(" ")?;
    line.push_number(u128::from(count))?;
    line.push_literal("\n")
}

fn push_fault(line: &mut Text, kind: u32, at: u64) -> Result<(), NoMemory>
    ensures { OnOk result (line.new ≡ line.old ++ spec.fault_words kind at) }
{
    push_kind(line, kind)?;
    line.push_literal(" at ")?;
    line.push_number(u128::from(at))?;
    line.push_literal("\n")
}

/// Adds the name of a limit between blanks.
fn push_limit_name(line: &mut Text, which: u32) -> Result<(), NoMemory>
    ensures { OnOk result (line.new ≡ line.old ++ spec.limit_name_words which) }
{
    line.push_literal(" ")?;
    line.push_literal(limit_name(which).unwrap_or(""))?;
    line.push_literal(" ")
}

fn push_limit(line: &mut Text, which: u32, value: u128) -> Result<(), NoMemory>
    ensures { OnOk result (line.new ≡ line.old ++ spec.limit_words which value) }
{
    push_kind(line, LIMIT)?;
    push_limit_name(line, which)?;
    line.push_number(value)?;
    line.push_literal("\n")
}
