//! The pieces that the page is put together from: literal markup with a text, a number, totals or a cause between.

ghost use Rattle.std.specs.Prelude.{◌≡◌, ◌++◌, OnOk, IsTrue};
ghost use Rattle.std.specs.Fmt.{decimal};
ghost use Rattle.khe_base.specs.Text.{is_ascii};
ghost use Rattle.timetable_page.specs.Escape.{escaped};
ghost use Rattle.timetable_page.specs.Pieces.{invalid_text, name_of_cause, totals_text};

use crate::escaping::push_escaped;
use fault_tables::cause_name;
use khe_base::{NoMemory, Text, Totals};

/// Adds a text of the archive, escaped, between two pieces of markup.
pub(crate) fn push_between(
    page: &mut Text,
    before: &str,
    text: &Text,
    after: &str,
) -> Result<(), NoMemory>
    requires before { IsTrue (is_ascii before.now) }
    requires after { IsTrue (is_ascii after.now) }
    ensures { OnOk result (page.new ≡ page.old ++ (before.now ++ (escaped text.now ++ after.now))) }
{
    page.push_literal(before)?;
    push_escaped(page, text)?;
    page.push_literal(after)
}

/// Adds a number in decimal digits between two pieces of markup.
pub(crate) fn push_counted(
    page: &mut Text,
    before: &str,
    number: u128,
    after: &str,
) -> Result<(), NoMemory>
    requires before { IsTrue (is_ascii before.now) }
    requires after { IsTrue (is_ascii after.now) }
    ensures { OnOk result (page.new ≡ page.old ++ (before.now ++ (decimal number ++ after.now))) }
{
    page.push_literal(before)?;
    page.push_number(number)?;
    page.push_literal(after)
}

/// Adds totals, the hard cost first.
pub(crate) fn push_totals(page: &mut Text, totals: Totals) -> Result<(), NoMemory>
    ensures { OnOk result (page.new ≡ page.old ++ totals_text totals) }
{
    push_counted(page, "hard <b>", totals.hard, "</b> ")?;
    push_counted(page, "soft <b>", totals.soft, "</b>")
}

/// Adds why and at which entry a solution is invalid.
pub(crate) fn push_invalid(page: &mut Text, cause: u32, entry: u32) -> Result<(), NoMemory>
    ensures { OnOk result (page.new ≡ page.old ++ invalid_text cause entry) }
{
    page.push_literal("invalid: ")?;
    page.push_literal(name_of(cause))?;
    push_counted(page, " at entry ", u128::from(entry), "")
}

/// The name of a cause.
#[tactic(auto, unfolding(crate::specs::Pieces::name_of_cause))]
fn name_of(cause: u32) -> &'static str
    ensures name { result.now ≡ name_of_cause cause }
    ensures ascii { IsTrue (is_ascii result.now) }
{
    cause_name(cause).unwrap_or("")
}
