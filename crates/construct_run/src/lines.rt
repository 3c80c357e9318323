//! The line on a construction.

ghost use Rattle.std.specs.Prelude.{◌≡◌, ◌++◌, IfOk, OnOk};
ghost use Rattle.construct_run.specs.Lines as spec;
ghost use Rattle.repair_run.specs.Lines.{totals_words};

use khe_base::{NoMemory, Text, Totals};
use std::alloc::Global;

/// The line on a construction, `<!-- khe construct meets N hard H soft S -->`: how many meets the timetable
/// has, and its totals. It is a comment of the archive that it stands after.
///
/// It fails only where memory is refused. It takes constant time and memory.
pub fn construct_line(alloc: Global, meets: u64, totals: Totals) -> Result<Text, NoMemory>
    ensures { IfOk result (λ t. t ≡ spec.construct_line meets totals) }
{
    let mut line = Text::new(alloc);
    line.push_literal("<!-- khe construct meets ")?;
    line.push_number(u128::from(meets))?;
    push_totals(&mut line, totals)?;
    Ok(line)
}

fn push_totals(line: &mut Text, totals: Totals) -> Result<(), NoMemory>
    ensures { OnOk result (line.new ≡ line.old ++ totals_words totals) }
{
    line.push_literal(" hard ")?;
    line.push_number(totals.hard)?;
    line.push_literal(" soft ")?;
    line.push_number(totals.soft)?;
    line.push_literal(" -->\n")
}
