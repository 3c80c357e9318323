//! What may stand before the root: a byte order mark, a declaration, comments and white.

ghost use Rattle.std.specs.Prelude.{◌≡◌, ◌≤◌, ◌<◌, ◌∷◌, ◌+◌, ◌++◌, [], true, false, drop, length, IfOk, MatchOption};
ghost use Rattle.xhstt_text.specs.Bytes.{is_white};
ghost use Rattle.xhstt_text.specs.Machine.{Read, at_declaration, beginning, content, in_declaration, question, run};
ghost use Rattle.xhstt_text.specs.Reading.{Leads, begins, read_of};

use crate::TextFault;
use crate::bytes::{is_white, past, skip};
use crate::cursor::Cursor;
use crate::faults::bad_markup;

// Over a byte order mark, where one stands.
fn byte_order_mark<'a>(from: Cursor<'a>) -> Result<Cursor<'a>, TextFault>
    ensures leads { Leads result (run beginning (read_of [] [] []) from.entry.at from.entry.rest.now) (λ q. run at_declaration (read_of [] [] []) q.at q.rest.now) }
    ensures onward { IfOk result (λ q. from.entry.at ≤ q.at) }
{
    let Some(first) = past(from, 0xEF) else {
        return Ok(from);
    };
    let Some(second) = past(first, 0xBB) else {
        return Err(bad_markup(first.at));
    };
    let Some(third) = past(second, 0xBF) else {
        return Err(bad_markup(second.at));
    };
    Ok(third)
}

// The place after one byte of white.
fn past_white<'a>(here: Cursor<'a>) -> Option<Cursor<'a>>
    ensures { MatchOption result (begins is_white here.entry.rest.now ≡ false)
        (λ q. (begins is_white here.entry.rest.now ≡ true) × (q.rest.now ≡ drop 1 here.entry.rest.now) × (q.at ≡ here.entry.at + 1)) }
{
    match here.rest {
        [first, ..] if is_white(*first) => Some(skip(here, 1)),
        _ => None,
    }
}

// The place after the first `>` with a `?` before it.
fn declaration_end<'a>(from: Cursor<'a>) -> Result<Cursor<'a>, TextFault>
    ensures leads { Leads result (run (in_declaration false) (read_of [] [] []) from.entry.at from.entry.rest.now) (λ q. run content (read_of [] [] []) q.at q.rest.now) }
    ensures onward { IfOk result (λ q. from.entry.at ≤ q.at) }
{
    let mut here = from;
    let mut seen = false;
    'bytes: while let [first, ..] = here.rest {
        let next = skip(here, 1);
        if seen && *first == b'>' {
            return Ok(next);
        }
        seen = *first == b'?';
        here = next;
    }
    Err(bad_markup(here.at))
}

// Over a declaration, where one stands.
fn declaration<'a>(from: Cursor<'a>) -> Result<Cursor<'a>, TextFault>
    ensures leads { Leads result (run at_declaration (read_of [] [] []) from.entry.at from.entry.rest.now) (λ q. run content (read_of [] [] []) q.at q.rest.now) }
    ensures onward { IfOk result (λ q. from.entry.at ≤ q.at) }
{
    let Some(tag) = past(from, b'<') else {
        return Ok(from);
    };
    let Some(question) = past(tag, b'?') else {
        return Ok(from);
    };
    let after = declaration_name(question)?;
    declaration_end(after)
}

// Over `xml` and a white.
fn declaration_name<'a>(from: Cursor<'a>) -> Result<Cursor<'a>, TextFault>
    ensures leads { Leads result (run (question (120 ∷ 109 ∷ 108 ∷ [])) (read_of [] [] []) from.entry.at from.entry.rest.now) (λ q. run (in_declaration false) (read_of [] [] []) q.at q.rest.now) }
    ensures onward { IfOk result (λ q. from.entry.at ≤ q.at) }
{
    let Some(first) = past(from, b'x') else {
        return Err(bad_markup(from.at));
    };
    let Some(second) = past(first, b'm') else {
        return Err(bad_markup(first.at));
    };
    let Some(third) = past(second, b'l') else {
        return Err(bad_markup(second.at));
    };
    let Some(end) = past_white(third) else {
        return Err(bad_markup(third.at));
    };
    Ok(end)
}

/// Over what may stand before the body of a text: a byte order mark and a declaration.
pub fn prolog<'a>(from: Cursor<'a>) -> Result<Cursor<'a>, TextFault>
    ensures leads { Leads result (run beginning (read_of [] [] []) from.entry.at from.entry.rest.now) (λ q. run content (read_of [] [] []) q.at q.rest.now) }
    ensures onward { IfOk result (λ q. from.entry.at ≤ q.at) }
{
    let after = byte_order_mark(from)?;
    declaration(after)
}
