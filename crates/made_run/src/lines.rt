//! The line on a run.

ghost use Rattle.std.specs.Prelude.{◌≡◌, ◌++◌, OnOk, length};
ghost use Rattle.made_run.specs.Lines as spec;

use khe_base::{NoMemory, Text, Totals};
use khe_instance::Instance;

/// Adds the seed and the size.
pub(crate) fn push_job(line: &mut Text, seed: u64, size: u32) -> Result<(), NoMemory>
    ensures { OnOk result (line.new ≡ line.old ++ spec.job_words seed size) }
{
    line.push_literal("made seed ")?;
    line.push_number(u128::from(seed))?;
    line.push_literal(" size ")?;
    line.push_number(u128::from(size))
}

/// Adds how many resources and monitors an instance has.
pub(crate) fn push_instance(line: &mut Text, inst: &Instance) -> Result<(), NoMemory>
    ensures { OnOk result (line.new ≡ line.old ++ spec.instance_words inst.now) }
{
    line.push_literal(" resources ")?;
    line.push_number(u128::from(inst.resources()))?;
    line.push_literal(" monitors ")?;
    line.push_number(u128::from(inst.monitors()))
}

/// Adds how many edits were accepted and how many refused.
pub(crate) fn push_counts(line: &mut Text, accepted: u32, refused: u32) -> Result<(), NoMemory>
    ensures { OnOk result (line.new ≡ line.old ++ spec.count_words accepted refused) }
{
    line.push_literal(" accepted ")?;
    line.push_number(u128::from(accepted))?;
    line.push_literal(" refused ")?;
    line.push_number(u128::from(refused))
}

/// Adds what the timetable costs.
pub(crate) fn push_totals(line: &mut Text, totals: Totals) -> Result<(), NoMemory>
    ensures { OnOk result (line.new ≡ line.old ++ spec.totals_words totals) }
{
    line.push_literal(" hard ")?;
    line.push_number(totals.hard)?;
    line.push_literal(" soft ")?;
    line.push_number(totals.soft)
}

/// Adds how many demands no assignment can serve.
pub(crate) fn push_deficit(line: &mut Text, deficit: u32) -> Result<(), NoMemory>
    ensures { OnOk result (line.new ≡ line.old ++ spec.deficit_words deficit) }
{
    line.push_literal(" deficit ")?;
    line.push_number(u128::from(deficit))?;
    line.push_literal("\n")
}
