//! The lines on a repair and on many.

ghost use Rattle.std.specs.Prelude.{◌≡◌, ◌++◌, OnOk, IfOk};
ghost use Rattle.repair_run.specs.Lines as spec;

use ejection_repair::Outcome;
use khe_base::{NoMemory, Text, Totals};
use std::alloc::Global;

/// The line on a repair, `<!-- khe repair done accepted A tried T hard H soft S -->` or
/// `<!-- khe repair spent accepted A tried T settled K hard H soft S -->`: how many chains were taken and
/// how many were tried, where the budget was spent the number of moves to which the timetable is settled,
/// and the totals of the timetable. It is a comment of the archive that it stands after.
///
/// It fails only where memory is refused. It takes constant time and memory.
pub fn repair_line(alloc: Global, outcome: Outcome, totals: Totals) -> Result<Text, NoMemory>
    ensures { IfOk result (λ t. t ≡ spec.repair_line outcome totals) }
{
    let mut line = Text::new(alloc);
    line.push_literal("<!-- khe repair ")?;
    push_outcome(&mut line, outcome)?;
    push_totals(&mut line, totals)?;
    Ok(line)
}

/// The line on many repairs, `<!-- khe solve job J hard H soft S -->`: the number of the job with the
/// least result, and the totals of its timetable. It is a comment of the archive that it stands after.
///
/// It fails only where memory is refused. It takes constant time and memory.
pub fn solve_line(alloc: Global, job: u64, totals: Totals) -> Result<Text, NoMemory>
    ensures { IfOk result (λ t. t ≡ spec.solve_line job totals) }
{
    let mut line = Text::new(alloc);
    line.push_literal("<!-- khe solve job ")?;
    line.push_number(u128::from(job))?;
    push_totals(&mut line, totals)?;
    Ok(line)
}

fn push_outcome(line: &mut Text, outcome: Outcome) -> Result<(), NoMemory>
    ensures { OnOk result (line.new ≡ line.old ++ spec.outcome_words outcome) }
{
    match outcome {
        Outcome::Done { accepted, tried } => {
            line.push_literal("done")?;
            push_counts(line, accepted, tried)
        }
        Outcome::Spent {
            accepted,
            tried,
            complete_to,
        } => {
            line.push_literal("spent")?;
            push_counts(line, accepted, tried)?;
            line.push_literal(" settled ")?;
            line.push_number(u128::from(complete_to))
        }
    }
}

fn push_counts(line: &mut Text, accepted: u64, tried: u64) -> Result<(), NoMemory>
    ensures { OnOk result (line.new ≡ line.old ++ spec.count_words accepted tried) }
{
    line.push_literal(" accepted ")?;
    line.push_number(u128::from(accepted))?;
    line.push_literal(" tried ")?;
    line.push_number(u128::from(tried))
}

fn push_totals(line: &mut Text, totals: Totals) -> Result<(), NoMemory>
    ensures { OnOk result (line.new ≡ line.old ++ spec.totals_words totals) }
{
    line.push_literal(" hard ")?;
    line.push_number(totals.hard)?;
    line.push_literal(" soft ")?;
    line.push_number(totals.soft)?;
    line.push_literal(" -->\n")
}
