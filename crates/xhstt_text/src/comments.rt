//! Reading comments.

ghost use Rattle.std.specs.Prelude.{◌≡◌, ◌<◌, ◌≤◌, false, length, IfOk, [], List};
ghost use Rattle.xhstt_text.specs.Bytes.{is_white};
ghost use Rattle.xhstt_text.specs.Machine.{Region, Read, bang, in_comment, phase_of, run};
ghost use Rattle.xhstt_text.specs.Reading.{Leads, begins, begins_comment, other_markup, read_of};
ghost use Rattle.xhstt_text.specs.declared.tree.Attribute.{Attribute};
ghost use Rattle.xhstt_text.specs.declared.tree.Node.{Node};

use crate::TextFault;
use crate::bytes::{past, skip, white};
use crate::cursor::Cursor;
use crate::faults::{bad_markup, unsupported};

// The place after the first `>` with two dashes before it.
fn comment_end<'a>(from: Cursor<'a>) -> Result<Cursor<'a>, TextFault>
    ensures leads { (place : Region) (r : Read) → Leads result (run (in_comment place 0) r from.entry.at from.entry.rest.now) (λ q. run (phase_of place) r q.at q.rest.now) }
    ensures onward { IfOk result (λ q. (length q.rest.now < length from.entry.rest.now) × (from.entry.at ≤ q.at)) }
{
    let mut here = from;
    let mut dashes = 0usize;
    'bytes: while let [first, ..] = here.rest {
        let next = skip(here, 1);
        if dashes >= 2 && *first == b'>' {
            return Ok(next);
        }
        dashes = if *first == b'-' { dashes + 1 } else { 0 };
        here = next;
    }
    Err(bad_markup(here.at))
}

// The fault of markup that begins with `<!` at a place, and then with bytes that begin no comment.
fn other_markup(at: u32, from: Cursor) -> TextFault
    ensures { result ≡ other_markup at from.entry.at from.entry.rest.now }
{
    if from.rest.starts_with(b"DOCTYPE") || from.rest.starts_with(b"[CDATA[") {
        unsupported(at)
    } else {
        bad_markup(from.at)
    }
}

/// Over a comment, from after the `<!` at a place.
pub fn comment<'a>(at: u32, from: Cursor<'a>) -> Result<Cursor<'a>, TextFault>
    ensures leads { (place : Region) (r : Read) → Leads result (run (bang at place) r from.entry.at from.entry.rest.now) (λ q. run (phase_of place) r q.at q.rest.now) }
    ensures onward { IfOk result (λ q. (length q.rest.now < length from.entry.rest.now) × (from.entry.at ≤ q.at)) }
{
    let Some(dash) = past(from, b'-') else {
        return Err(other_markup(at, from));
    };
    let Some(inner) = past(dash, b'-') else {
        return Err(bad_markup(dash.at));
    };
    comment_end(inner)
}

/// Over white and comments outside the outermost element.
pub fn space<'a>(from: Cursor<'a>) -> Result<Cursor<'a>, TextFault>
    ensures leads { (place : Region) (nodes : List Node) (rows : List Attribute) → Leads result
        (run (phase_of place) (read_of [] nodes rows) from.entry.at from.entry.rest.now)
        (λ q. run (phase_of place) (read_of [] nodes rows) q.at q.rest.now) }
    ensures stops { IfOk result (λ q. (begins is_white q.rest.now ≡ false) × (begins_comment q.rest.now ≡ false)) }
    ensures onward { IfOk result (λ q. from.entry.at ≤ q.at) }
{
    let mut here = from;
    'space: loop {
        let start = white(here);
        let Some(tag) = past(start, b'<') else {
            return Ok(start);
        };
        let Some(bang) = past(tag, b'!') else {
            return Ok(start);
        };
        here = comment(start.at, bang)?;
    }
}
