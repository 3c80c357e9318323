//! Reading start tags, end tags and empty tags.

ghost use Rattle.std.specs.Prelude.{◌≡◌, ◌<◌, ◌≤◌, ◌+◌, ◌∷◌, ◌++◌, ◌^◌, ℕ, List, true, false, length, IfOk, MatchOption, [], set, Option, Some};
ghost use Rattle.xhstt_text.specs.Bytes.{is_first, is_name, is_text, is_white, is_quote, is_quoted};
ghost use Rattle.xhstt_text.specs.Document.{has_name};
ghost use Rattle.xhstt_text.specs.Machine.{Frame, Tag, Read, run, content, opened, valued, attribute_name, in_value, equals, shut_begin, with_name, attribute_row, resume, close_element, opened_row, Outcome, refused};
ghost use Rattle.xhstt_text.specs.Reading.{Leads, Skips, begins, is_byte, read_of, bare, frame_of, frames_of, NoOtherTag, NoPiece, is_loose_text, trailing, unopened, with_loose_text};
ghost use Rattle.xhstt_text.specs.declared.tree.Attribute.{Attribute};
ghost use Rattle.xhstt_text.specs.declared.tree.Node.{Node};

use crate::TextFault;
use crate::bytes::{is_text, name, next_is, past, quoted, text, white};
use crate::comments::{comment, space};
use crate::cursor::Cursor;
use crate::faults::{bad_markup, mismatched_end, too_deep, unsupported};
use crate::names::{add_name, no_names};
use crate::packed::Place;
use crate::references::piece;
use crate::table::{OpenElement, StartTag, Table};
use crate::tree::{Attribute, Span};
use khe_base::limits;
use std::alloc::Global;

// How many elements may be open at once.
const DEPTH: usize = limits::DEPTH as usize;

// A quote, and the place after it.
fn quote<'a>(here: Cursor<'a>) -> Option<(u8, Cursor<'a>)>
    ensures { MatchOption result (begins is_quote here.entry.rest.now ≡ false)
        (λ found. (is_quote found.0 ≡ true) × (here.entry.rest.now ≡ found.0 ∷ found.1.rest.now) × (found.1.at ≡ here.entry.at + 1)) }
{
    match past(here, b'"') {
        Some(after) => Some((b'"', after)),
        None => match past(here, b'\'') {
            Some(after) => Some((b'\'', after)),
            None => None,
        },
    }
}

// Over what may stand between two such quotes.
fn value_end<'a>(from: Cursor<'a>, mark: u8) -> Result<Cursor<'a>, TextFault>
    requires { is_quote mark ≡ true }
    ensures leads { (t : Tag) (place : ℕ) (known : List ℕ) (start : ℕ) (r : Read) →
        Leads result (run (in_value t place known mark start) r from.entry.at from.entry.rest.now) (λ q. run (in_value t place known mark start) r q.at q.rest.now) }
    ensures stops { IfOk result (λ q. (begins (is_quoted mark) q.rest.now ≡ false) × NoPiece q.rest.now) }
    ensures onward { IfOk result (λ q. (length q.rest.now ≤ length from.entry.rest.now) × (from.entry.at ≤ q.at)) }
{
    let mut here = from;
    'pieces: loop {
        let stop = quoted(here, mark);
        let Some(next) = piece(stop)? else {
            return Ok(stop);
        };
        here = next;
    }
}

// From the end of an attribute's name over its value: where the value stands, and the place after
// its last quote.
fn value<'a>(here: Cursor<'a>) -> Result<(Span, Cursor<'a>), TextFault>
    requires name { begins is_name here.rest.now ≡ false }
    requires colon { begins (is_byte 58) here.rest.now ≡ false }
    ensures leads { (t : Tag) (place : ℕ) (known : List ℕ) (r : Read) → has_name known t.names ≡ false →
        Leads result (run (attribute_name t place known) r here.entry.at here.entry.rest.now)
        (λ v. run (valued (with_name t known)) (record r { attributes = r.attributes ++ attribute_row place known v.0.from v.0.to ∷ [] }) v.1.at v.1.rest.now) }
    ensures onward { IfOk result (λ v. (length v.1.rest.now ≤ length here.entry.rest.now) × (here.entry.at ≤ v.1.at)) }
{
    let before = white(here);
    let Some(equal) = past(before, b'=') else {
        return Err(bad_markup(before.at));
    };
    let after = white(equal);
    let Some((mark, from)) = quote(after) else {
        return Err(bad_markup(after.at));
    };
    let to = value_end(from, mark)?;
    let Some(end) = past(to, mark) else {
        return Err(bad_markup(to.at));
    };
    let value = Span {
        from: from.at,
        to: to.at,
    };
    Ok((value, end))
}

// Over the attributes of a start tag and the white after them, to the byte that must end the tag.
fn attributes<'a>(
    alloc: Global,
    from: Cursor<'a>,
    rows: &mut Vec<Attribute>,
) -> Result<Cursor<'a>, TextFault>
    requires { length rows.old.items ≤ from.at }
    ensures leads { (frames : List Frame) (nodes : List Node) (place : ℕ) (tag : List ℕ) (first : ℕ) →
        Leads result (run (valued (bare place tag first)) (read_of frames nodes rows.old.items) from.entry.at from.entry.rest.now)
        (λ q. run (valued (bare place tag first)) (read_of frames nodes rows.new.items) q.at q.rest.now) }
    ensures ends { IfOk result (λ q. (begins is_first q.rest.now ≡ false) × (begins is_white q.rest.now ≡ false)) }
    ensures few { IfOk result (λ q. length rows.new.items ≤ q.at) }
    ensures onward { IfOk result (λ q. (length q.rest.now ≤ length from.entry.rest.now) × (from.entry.at ≤ q.at)) }
{
    let mut names = no_names(alloc);
    let mut here = from;
    'attributes: loop {
        let start = white(here);
        let Some((found, after)) = name(start) else {
            return Ok(start);
        };
        if start.at == here.at {
            return Err(bad_markup(start.at));
        }
        if !add_name(&mut names, found)? {
            return Err(bad_markup(start.at));
        }
        if next_is(after, b':') {
            return Err(unsupported(after.at));
        }
        let (value, end) = value(after)?;
        rows.push(Attribute {
            name: Span {
                from: start.at,
                to: after.at,
            },
            value,
        })?;
        here = end;
    }
}

// Over text in an element whose loose text is known.
fn known_text<'a>(from: Cursor<'a>) -> Result<Cursor<'a>, TextFault>
    ensures leads { (f : Frame) (fs : List Frame) (nodes : List Node) (rows : List Attribute) (place : ℕ) → f.node.loose ≡ Some place →
        Leads result (run content (read_of (f ∷ fs) nodes rows) from.entry.at from.entry.rest.now) (λ q. run content (read_of (f ∷ fs) nodes rows) q.at q.rest.now) }
    ensures stops { IfOk result (λ q. (begins is_text q.rest.now ≡ false) × NoPiece q.rest.now) }
    ensures onward { IfOk result (λ q. (length q.rest.now ≤ length from.entry.rest.now) × (from.entry.at ≤ q.at)) }
{
    let mut here = from;
    'pieces: loop {
        let stop = text(here);
        let Some(next) = piece(stop)? else {
            return Ok(stop);
        };
        here = next;
    }
}

// Whether text, or what may stand for a character, begins here.
fn begins_text(here: Cursor) -> bool
    ensures { result ≡ begins is_loose_text here.entry.rest.now }
{
    match here.rest {
        [first, ..] => is_text(*first) || *first == b'&' || *first == 0xEF,
        [] => false,
    }
}

// Over text in an element whose loose text so far begins at `loose`: the place after it, and where
// the loose text begins now.
fn content_text<'a>(
    here: Cursor<'a>,
    loose: Option<Place>,
) -> Result<(Cursor<'a>, Option<Place>), TextFault>
    ensures leads { (f : Frame) (fs : List Frame) (nodes : List Node) (rows : List Attribute) → f.node.loose ≡ loose →
        Leads result (run content (read_of (f ∷ fs) nodes rows) here.entry.at here.entry.rest.now)
        (λ found. run content (read_of (with_loose_text f found.1 ∷ fs) nodes rows) found.0.at found.0.rest.now) }
    ensures stops { IfOk result (λ found. (begins is_text found.0.rest.now ≡ false) × NoPiece found.0.rest.now) }
    ensures onward { IfOk result (λ found. (length found.0.rest.now ≤ length here.entry.rest.now) × (here.entry.at ≤ found.0.at)) }
{
    let start = white(here);
    if !begins_text(start) {
        return Ok((start, loose));
    }
    let end = known_text(start)?;
    Ok((end, loose.or(Some(Place::of(start.at)))))
}

// Over an end tag, from after its `</`: it must have the name of the innermost element.
fn end_tag<'a>(
    at: u32,
    shut: Cursor<'a>,
    inner: &OpenElement<'a>,
    table: &mut Table<'a>,
) -> Result<Cursor<'a>, TextFault>
    requires { length table.old.nodes.items < 2 ^ 32 }
    ensures leads { Leads result
        (run (shut_begin at) (read_of (frame_of inner.now ∷ frames_of table.old.stack.items) table.old.nodes.items table.old.attributes.items) shut.entry.at shut.entry.rest.now)
        (λ q. run (resume (frames_of table.new.stack.items)) (read_of (frames_of table.new.stack.items) table.new.nodes.items table.new.attributes.items) q.at q.rest.now) }
    ensures count { IfOk result (λ q. length table.new.nodes.items ≡ length table.old.nodes.items) }
    ensures attributes { IfOk result (λ q. table.new.attributes.items ≡ table.old.attributes.items) }
    ensures onward { IfOk result (λ q. (length q.rest.now < length shut.entry.rest.now) × (shut.entry.at ≤ q.at)) }
{
    let Some((found, after)) = name(shut) else {
        return Err(bad_markup(shut.at));
    };
    if next_is(after, b':') {
        return Err(unsupported(after.at));
    }
    let last = white(after);
    let Some(end) = past(last, b'>') else {
        return Err(bad_markup(last.at));
    };
    if found != inner.name {
        return Err(mismatched_end(at));
    }
    table.close(inner, at);
    Ok(end)
}

// The fault of a `<` at a place, and then of bytes that begin no tag and no comment.
fn unopened(at: u32, inside: Cursor) -> TextFault
    ensures { result ≡ unopened at inside.entry.at inside.entry.rest.now }
{
    if next_is(inside, b'?') {
        unsupported(at)
    } else {
        bad_markup(inside.at)
    }
}

// Over a start tag, from after its `<`.
fn start_tag<'a>(
    alloc: Global,
    at: u32,
    inside: Cursor<'a>,
    table: &mut Table<'a>,
) -> Result<Cursor<'a>, TextFault>
    requires place { inside.at ≡ at + 1 }
    requires start { NoOtherTag (frames_of table.old.stack.items) inside.rest.now }
    requires count { length table.old.nodes.items ≤ at }
    requires few { length table.old.attributes.items ≤ at }
    ensures leads { Leads result
        (run (opened at) (read_of (frames_of table.old.stack.items) table.old.nodes.items table.old.attributes.items) inside.entry.at inside.entry.rest.now)
        (λ q. run (resume (frames_of table.new.stack.items)) (read_of (frames_of table.new.stack.items) table.new.nodes.items table.new.attributes.items) q.at q.rest.now) }
    ensures count { IfOk result (λ q. length table.new.nodes.items ≤ q.at) }
    ensures few { IfOk result (λ q. length table.new.attributes.items ≤ q.at) }
    ensures onward { IfOk result (λ q. length q.rest.now < length inside.entry.rest.now) }
{
    let Some((found, after)) = name(inside) else {
        return Err(unopened(at, inside));
    };
    if table.stack.len() >= DEPTH {
        return Err(too_deep(at));
    }
    if next_is(after, b':') {
        return Err(unsupported(after.at));
    }
    let first = table.attributes.len();
    let tag = StartTag {
        at: Place::of(at),
        name: found,
        name_to: after.at,
        first: first as u32,
    };
    let last = attributes(alloc, after, &mut table.attributes)?;
    end_of_start(last, &tag, table)
}

// Over the end of a start tag.
fn end_of_start<'a>(
    here: Cursor<'a>,
    tag: &StartTag<'a>,
    table: &mut Table<'a>,
) -> Result<Cursor<'a>, TextFault>
    requires name { tag.now.name_to ≡ tag.now.at + 1 + length tag.now.name.now }
    requires count { length table.old.nodes.items + 1 < 2 ^ 32 }
    requires few { length table.old.attributes.items < 2 ^ 32 }
    requires ends { (begins is_first here.rest.now ≡ false) × (begins is_white here.rest.now ≡ false) }
    ensures leads { Leads result
        (run (valued (bare tag.now.at tag.now.name.now tag.now.first)) (read_of (frames_of table.old.stack.items) table.old.nodes.items table.old.attributes.items) here.entry.at here.entry.rest.now)
        (λ q. run (resume (frames_of table.new.stack.items)) (read_of (frames_of table.new.stack.items) table.new.nodes.items table.new.attributes.items) q.at q.rest.now) }
    ensures count { IfOk result (λ q. length table.new.nodes.items ≡ length table.old.nodes.items + 1) }
    ensures attributes { IfOk result (λ q. table.new.attributes.items ≡ table.old.attributes.items) }
    ensures onward { IfOk result (λ q. (length q.rest.now ≤ length here.entry.rest.now) × (here.entry.at ≤ q.at)) }
{
    let Some(slash) = past(here, b'/') else {
        let Some(end) = past(here, b'>') else {
            return Err(bad_markup(here.at));
        };
        table.open(tag, end.at)?;
        return Ok(end);
    };
    let Some(end) = past(slash, b'>') else {
        return Err(bad_markup(slash.at));
    };
    table.add(tag, end.at)?;
    Ok(end)
}

/// Over text and the next tag or comment, inside the innermost element, which was taken off the
/// stack.
pub fn next_tag<'a>(
    alloc: Global,
    here: Cursor<'a>,
    inner: &OpenElement<'a>,
    table: &mut Table<'a>,
) -> Result<Cursor<'a>, TextFault>
    requires count { length table.old.nodes.items ≤ here.at }
    requires few { length table.old.attributes.items ≤ here.at }
    ensures leads { Leads result
        (run content (read_of (frame_of inner.now ∷ frames_of table.old.stack.items) table.old.nodes.items table.old.attributes.items) here.entry.at here.entry.rest.now)
        (λ q. run (resume (frames_of table.new.stack.items)) (read_of (frames_of table.new.stack.items) table.new.nodes.items table.new.attributes.items) q.at q.rest.now) }
    ensures count { IfOk result (λ q. length table.new.nodes.items ≤ q.at) }
    ensures few { IfOk result (λ q. length table.new.attributes.items ≤ q.at) }
    ensures onward { IfOk result (λ q. length q.rest.now < length here.entry.rest.now) }
{
    let (tag, loose) = match content_text(here, inner.node.loose()) {
        Ok(found) => found,
        Err(fault) => return Err(fault),
    };
    let Some(inside) = past(tag, b'<') else {
        return Err(bad_markup(tag.at));
    };
    let number = inner.number;
    let inner = OpenElement {
        number,
        name: inner.name,
        node: inner.node.with_loose(loose),
    };
    match past(inside, b'/') {
        Some(shut) => end_tag(tag.at, shut, &inner, table),
        None => {
            table.stack.push(inner)?;
            match past(inside, b'!') {
                Some(bang) => comment(tag.at, bang),
                None => start_tag(alloc, tag.at, inside, table),
            }
        }
    }
}

/// Over white and comments before the outermost element, and its start tag.
pub fn root<'a>(
    alloc: Global,
    here: Cursor<'a>,
    table: &mut Table<'a>,
) -> Result<Cursor<'a>, TextFault>
    requires stack { table.old.stack.items ≡ [] }
    requires nodes { table.old.nodes.items ≡ [] }
    requires attributes { table.old.attributes.items ≡ [] }
    ensures leads { Leads result
        (run content (read_of [] [] []) here.entry.at here.entry.rest.now)
        (λ q. run (resume (frames_of table.new.stack.items)) (read_of (frames_of table.new.stack.items) table.new.nodes.items table.new.attributes.items) q.at q.rest.now) }
    ensures count { IfOk result (λ q. length table.new.nodes.items ≤ q.at) }
    ensures few { IfOk result (λ q. length table.new.attributes.items ≤ q.at) }
{
    let tag = space(here)?;
    let Some(inside) = past(tag, b'<') else {
        return Err(bad_markup(tag.at));
    };
    start_tag(alloc, tag.at, inside, table)
}

/// The fault of bytes after the outermost element that begin neither white nor a comment.
pub fn trailing(here: Cursor) -> TextFault
    ensures { result ≡ trailing here.entry.at here.entry.rest.now }
{
    match past(here, b'<') {
        Some(inside) => unopened(here.at, inside),
        None => bad_markup(here.at),
    }
}
