//! Which bytes are white, begin a name, go on in one, or may stand in a text.

ghost use Rattle.std.specs.Prelude.{◌≡◌, ◌+◌, ◌≤◌, ◌∷◌, length, drop, MatchOption, false};
ghost use Rattle.std.specs.List.{prefix_len};
ghost use Rattle.xhstt_text.specs.Bytes.{is_white, is_first, is_name, is_text, is_quoted};
ghost use Rattle.xhstt_text.specs.Reading.{Skips, TakesName, begins, is_byte};

use crate::cursor::Cursor;

pub fn is_white(byte: u8) -> bool
    ensures { result ≡ is_white byte }
{
    byte == b' ' || byte == b'\t' || byte == b'\n' || byte == b'\r'
}

fn is_first(byte: u8) -> bool
    ensures { result ≡ is_first byte }
{
    (b'a' <= byte && byte <= b'z') || (b'A' <= byte && byte <= b'Z') || byte == b'_'
}

// Each byte that goes on in a name stands at its own place, and a comma at every other place. More than half of the
// bytes of an archive are looked up here, each by one load.
static NAMES: [u8; 256] = *b"\
    ,,,,,,,,,,,,,,,,,,,,,,,,,,,,,,,,\
    ,,,,,,,,,,,,,-.,0123456789,,,,,,\
    ,ABCDEFGHIJKLMNOPQRSTUVWXYZ,,,,_\
    ,abcdefghijklmnopqrstuvwxyz,,,,,\
    ,,,,,,,,,,,,,,,,,,,,,,,,,,,,,,,,\
    ,,,,,,,,,,,,,,,,,,,,,,,,,,,,,,,,\
    ,,,,,,,,,,,,,,,,,,,,,,,,,,,,,,,,\
    ,,,,,,,,,,,,,,,,,,,,,,,,,,,,,,,,";

fn is_name(byte: u8) -> bool
    ensures { result ≡ is_name byte }
{
    NAMES[byte as usize] != b','
}

pub fn is_text(byte: u8) -> bool
    ensures { result ≡ is_text byte }
{
    is_white(byte) || (b' ' <= byte && byte != b'<' && byte != b'&' && byte != 0xEF)
}

fn is_quoted(quote: u8, byte: u8) -> bool
    ensures { result ≡ is_quoted quote byte }
{
    is_text(byte) && byte != quote
}

// How many bytes of white the slice begins with.
fn white_length(bytes: &[u8]) -> usize
    ensures { result ≡ prefix_len is_white bytes.now }
{
    bytes.iter().take_while(|byte| is_white(**byte)).count()
}

fn name_length(bytes: &[u8]) -> usize
    ensures { result ≡ prefix_len is_name bytes.now }
{
    bytes.iter().take_while(|byte| is_name(**byte)).count()
}

fn text_length(bytes: &[u8]) -> usize
    ensures { result ≡ prefix_len is_text bytes.now }
{
    bytes.iter().take_while(|byte| is_text(**byte)).count()
}

fn quoted_length(quote: u8, bytes: &[u8]) -> usize
    ensures { result ≡ prefix_len (is_quoted quote) bytes.now }
{
    bytes
        .iter()
        .take_while(|byte| is_quoted(quote, **byte))
        .count()
}

/// The place the given number of bytes later.
pub fn skip<'a>(here: Cursor<'a>, count: usize) -> Cursor<'a>
    requires { count ≤ length here.rest.now }
    ensures at { result.at ≡ here.entry.at + count }
    ensures rest { result.rest.now ≡ drop count here.entry.rest.now }
{
    Cursor {
        at: here.at + count as u32,
        rest: &here.rest[count..],
    }
}

/// The place after all white.
pub fn white<'a>(here: Cursor<'a>) -> Cursor<'a>
    ensures { Skips is_white here.entry.at here.entry.rest.now result.at result.rest.now }
{
    skip(here, white_length(here.rest))
}

/// The place after all bytes that may stand in content.
pub fn text<'a>(here: Cursor<'a>) -> Cursor<'a>
    ensures { Skips is_text here.entry.at here.entry.rest.now result.at result.rest.now }
{
    skip(here, text_length(here.rest))
}

/// The place after all bytes that may stand between two such quotes.
pub fn quoted<'a>(here: Cursor<'a>, quote: u8) -> Cursor<'a>
    ensures { Skips (is_quoted quote) here.entry.at here.entry.rest.now result.at result.rest.now }
{
    skip(here, quoted_length(quote, here.rest))
}

/// The place after this byte, where it is the next one.
pub fn past<'a>(here: Cursor<'a>, byte: u8) -> Option<Cursor<'a>>
    ensures { MatchOption result (begins (is_byte byte) here.entry.rest.now ≡ false)
        (λ q. (here.entry.rest.now ≡ byte ∷ q.rest.now) × (q.at ≡ here.entry.at + 1)) }
{
    match here.rest {
        [first, ..] if *first == byte => Some(skip(here, 1)),
        _ => None,
    }
}

/// Whether this byte is the next one.
pub fn next_is(here: Cursor, byte: u8) -> bool
    ensures { result ≡ begins (is_byte byte) here.entry.rest.now }
{
    match here.rest {
        [first, ..] => *first == byte,
        [] => false,
    }
}

/// The name at this place, up to the last byte that can belong to it, and the place after it.
pub fn name<'a>(here: Cursor<'a>) -> Option<(&'a [u8], Cursor<'a>)>
    ensures { MatchOption result (begins is_first here.entry.rest.now ≡ false)
        (λ found. TakesName here.entry.at here.entry.rest.now found.0.now found.1.at found.1.rest.now) }
{
    match here.rest {
        [first, ..] if is_first(*first) => {
            let length = name_length(here.rest);
            Some((&here.rest[..length], skip(here, length)))
        }
        _ => None,
    }
}
