//! The page on an archive that is refused.

ghost use Rattle.std.specs.Prelude.{◌≡◌, IfOk, IsTrue};
ghost use Rattle.khe_base.specs.Text.{is_ascii};
ghost use Rattle.timetable_page.specs.Refusals as spec;

use archive_reading::{Refusal, push_refusal};
use khe_base::{NoMemory, Text};
use std::alloc::Global;

/// The page that refuses an archive, which has the line that the program `khe` refuses it with.
pub(crate) fn refusal_page(alloc: Global, refusal: Refusal) -> Result<Text, NoMemory>
    ensures { IfOk result (λ t. t ≡ spec.refusal_page refusal) }
{
    let mut page = Text::new(alloc);
    page.push_literal(refusal_head())?;
    push_refusal(&mut page, refusal)?;
    page.push_literal("</p></html>\n")?;
    Ok(page)
}

/// What the page of a refusal begins with.
fn refusal_head() -> &'static str
    ensures head { result.now ≡ spec.refusal_head }
    ensures ascii { IsTrue (is_ascii result.now) }
{
    "<!DOCTYPE html>\n<html lang=\"en\"><meta charset=\"utf-8\"><title>Refused</title>\n<p>khe: archive refused: "
}
