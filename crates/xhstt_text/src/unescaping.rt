//! What the bytes between two tags or two quotes stand for.

ghost use Rattle.std.specs.Prelude.{◌≡◌, ℕ, List, Some, [], ◌++◌, ◌≤◌, nat_lt, OnOk, IfOk, IfSome, unwrap_or, encode_utf8_all};
ghost use Rattle.std.specs.List.{list_all};
ghost use Rattle.std.specs.Option.{option_and_then};
ghost use Rattle.khe_base.specs.Text.{characters, text_of};
ghost use Rattle.xhstt_text.specs.Bytes.{AllAre};
ghost use Rattle.xhstt_text.specs.Document.{Content, Spelled, Value};
ghost use Rattle.xhstt_text.specs.Forest.{Forest};
ghost use Rattle.xhstt_text.specs.Spans.{IsAttributeIn, IsElementIn};
ghost use Rattle.xhstt_text.specs.Unescape.{IsTextOf, IsValueOf, meaning, unescaped, value_meaning};
ghost use Rattle.xhstt_text.specs.UnescapeMachine as spec;
ghost use Rattle.xhstt_text.specs.Units.{is_character};

use khe_base::{NoMemory, Text};
use std::alloc::Global;

/// What stands at a place of a text.
#[derive(Clone, Copy)]
pub(crate) enum Part {
    /// A character of the text.
    Plain,
    /// The name of a reference, or the `;` after it.
    Reference,
    /// The byte after a `<`.
    Less,
    /// The byte after `<!`.
    Mark,
    /// The byte after `<!-`.
    MarkDash,
    /// The inside of a comment.
    Comment,
    /// The inside of a comment, after a `-`.
    Dash,
    /// The inside of a comment, after `--`.
    Dashes,
}

/// The text that bytes between two tags or two quotes stand for: references are replaced by their
/// characters, comments are left out, and each other character stands for itself, as the grammar of
/// XML says. All its characters may stand in a text of the grammar.
///
/// It has an answer for other bytes too: a reference of a form that is not known stands for nothing,
/// and bytes that stand for no UTF-8 give the empty text. It takes time and memory linear in the
/// bytes.
pub fn unescape(alloc: Global, span: &[u8]) -> Result<Text, NoMemory>
    ensures value { IfOk result (λ t. t ≡ unescaped span.now) }

    // A text of the grammar gives what it stands for, in characters of the grammar.
    ensures between_tags { IfOk result (λ t. (c : Content) → IsTextOf span.now c → text_of (meaning c) ≡ Some t) }
    ensures between_quotes { IfOk result (λ t. (quote : ℕ) (v : Value) → IsValueOf quote span.now v → text_of (value_meaning v) ≡ Some t) }
    ensures characters { IfOk result (λ t. (c : Content) → IsTextOf span.now c → AllAre is_character t) }
    ensures characters_between_quotes { IfOk result (λ t. (quote : ℕ) (v : Value) → IsValueOf quote span.now v → AllAre is_character t) }

    // Each span of a tree is such a text.
    ensures of_element { IfOk result (λ t. (bytes : List ℕ) (f : Forest) → Spelled bytes f → IsElementIn span.now f
        → (c : Content) × IsTextOf span.now c × (text_of (meaning c) ≡ Some t)) }
    ensures of_attribute { IfOk result (λ t. (bytes : List ℕ) (f : Forest) → Spelled bytes f → IsAttributeIn span.now f
        → (quote : ℕ) × (v : Value) × IsValueOf quote span.now v × (text_of (value_meaning v) ≡ Some t)) }
{
    plain_text(alloc, span)
}

/// The bytes that stand between two tags or two quotes, where each of them stands for itself: ASCII without
/// `&` and `<`. `None` where there are others, even if these stand for themselves too. What is returned is what
/// `unescape` would make, in UTF-8. It takes time linear in the bytes, and no memory.
#[tactic(auto, using(crate::proofs::PlainTexts::stands_for_itself))]
pub fn plain<'a>(span: &'a [u8]) -> Option<&'a [u8]>
    ensures { IfSome result (λ bytes. bytes.now ≡ encode_utf8_all (unescaped span.now)) }
{
    if are_ascii(span) && are_plain(span) {
        Some(span)
    } else {
        None
    }
}

/// The text between two tags or two quotes, where each of its characters stands for itself; `None` where there is a
/// reference or a comment. What is returned is what `unescape` would make. It takes time linear in the bytes, and no
/// memory.
pub fn as_it_stands<'a>(span: &'a [u8]) -> Option<&'a str>
    ensures { IfSome result (λ text. characters text.now ≡ unescaped span.now) }
{
    if !are_plain(span) {
        return None;
    }
    match str::from_utf8(span) {
        Ok(text) => Some(text),
        Err(_) => None,
    }
}

/// Whether a byte is a character of ASCII.
fn is_ascii(byte: u8) -> bool
    ensures { result ≡ nat_lt byte 128 }
{
    byte < 128
}

/// Whether each byte is a character of ASCII.
fn are_ascii(span: &[u8]) -> bool
    ensures { result ≡ list_all (λ b. nat_lt b 128) span.now }
{
    span.iter().all(|byte| is_ascii(*byte))
}

/// Whether a byte begins neither a reference nor a comment.
fn is_plain(byte: u8) -> bool
    ensures { result ≡ spec.is_plain byte }
{
    byte != b'&' && byte != b'<'
}

/// Whether no byte begins a reference or a comment: then each stands for itself.
fn are_plain(span: &[u8]) -> bool
    ensures { result ≡ list_all spec.is_plain span.now }
{
    span.iter().all(|byte| is_plain(*byte))
}

/// The text that bytes stand for. Bytes that stand for themselves are copied once, as they are.
fn plain_text(alloc: Global, span: &[u8]) -> Result<Text, NoMemory>
    ensures { IfOk result (λ t. t ≡ unescaped span.now) }
{
    if are_plain(span) {
        return text_or_empty(alloc, span);
    }
    let plain = plain_of(alloc, span)?;
    text_or_empty(alloc, plain.as_slice())
}

/// The text that bytes spell, and the empty text where they are not UTF-8. It takes time and memory linear in the
/// bytes.
pub fn text_or_empty(alloc: Global, bytes: &[u8]) -> Result<Text, NoMemory>
    ensures { IfOk result (λ t. t ≡ unwrap_or (text_of bytes.now) []) }
{
    match Text::from_utf8(alloc, bytes)? {
        Some(text) => Ok(text),
        None => Ok(Text::new(alloc)),
    }
}

/// The bytes that a text stands for.
fn plain_of(alloc: Global, span: &[u8]) -> Result<Vec<u8>, NoMemory>
    ensures { IfOk result (λ plain. plain.items ≡ spec.plain_after Part.Plain [] span.now) }
{
    let mut plain = Vec::new(alloc);
    let mut name = Vec::new(alloc);
    let mut part = Part::Plain;
    for byte in span {
        add(&mut plain, part, name.as_slice(), *byte)?;
        follow_name(&mut name, part, *byte)?;
        part = next_part(part, *byte);
    }
    Ok(plain)
}

/// The part of a text that a byte leads to.
fn next_part(part: Part, byte: u8) -> Part
    ensures { result ≡ spec.next_part part byte }
{
    match part {
        Part::Plain => match byte {
            b'&' => Part::Reference,
            b'<' => Part::Less,
            _ => Part::Plain,
        },
        Part::Reference => {
            if byte == b';' {
                Part::Plain
            } else {
                Part::Reference
            }
        }
        Part::Less => Part::Mark,
        Part::Mark => Part::MarkDash,
        Part::MarkDash => Part::Comment,
        Part::Comment => {
            if byte == b'-' {
                Part::Dash
            } else {
                Part::Comment
            }
        }
        Part::Dash => {
            if byte == b'-' {
                Part::Dashes
            } else {
                Part::Comment
            }
        }
        Part::Dashes => match byte {
            b'>' => Part::Plain,
            b'-' => Part::Dashes,
            _ => Part::Comment,
        },
    }
}

/// Follows the name of a reference by one byte.
fn follow_name(name: &mut Vec<u8>, part: Part, byte: u8) -> Result<(), NoMemory>
    ensures { OnOk result (name.new.items ≡ spec.next_name part name.old.items byte) }
{
    match part {
        Part::Reference => {
            if byte == b';' {
                name.clear();
            } else {
                name.push(byte)?;
            }
            Ok(())
        }
        _ => Ok(()),
    }
}

/// Adds what one byte adds to what the text stands for.
fn add(plain: &mut Vec<u8>, part: Part, name: &[u8], byte: u8) -> Result<(), NoMemory>
    ensures { OnOk result (plain.new.items ≡ plain.old.items ++ spec.added part name.now byte) }
{
    match part {
        Part::Plain => {
            if byte != b'&' && byte != b'<' {
                plain.push(byte)?;
            }
            Ok(())
        }
        Part::Reference => {
            if byte == b';' {
                refer(plain, name)?;
            }
            Ok(())
        }
        _ => Ok(()),
    }
}

/// Adds what a reference stands for, by its name.
fn refer(plain: &mut Vec<u8>, name: &[u8]) -> Result<(), NoMemory>
    ensures { OnOk result (plain.new.items ≡ plain.old.items ++ spec.referred name.now) }
{
    if b"lt".as_slice() == name {
        plain.push(b'<')?;
    } else if b"gt".as_slice() == name {
        plain.push(b'>')?;
    } else if b"amp".as_slice() == name {
        plain.push(b'&')?;
    } else if b"apos".as_slice() == name {
        plain.push(b'\'')?;
    } else if b"quot".as_slice() == name {
        plain.push(b'"')?;
    } else if name.starts_with(b"#x") {
        add_numbered(plain, 16, &name[2..])?;
    } else if name.starts_with(b"#") {
        add_numbered(plain, 10, &name[1..])?;
    }
    Ok(())
}

/// Adds the character whose number these digits write.
fn add_numbered(plain: &mut Vec<u8>, base: u32, digits: &[u8]) -> Result<(), NoMemory>
    requires { base ≤ 16 }
    ensures { OnOk result (plain.new.items ≡ plain.old.items ++ spec.numbered (spec.number_after base 0 digits.now)) }
{
    match number_of(base, digits) {
        Some(code) => add_character(plain, code),
        None => Ok(()),
    }
}

/// Adds a character in UTF-8, by its number.
fn add_character(plain: &mut Vec<u8>, code: u32) -> Result<(), NoMemory>
    ensures { OnOk result (plain.new.items ≡ plain.old.items ++ spec.character_bytes code) }
{
    match char::from_u32(code) {
        Some(character) => {
            let mut room = [0; 4];
            plain.extend_from_slice(character.encode_utf8(&mut room).as_bytes())?;
            Ok(())
        }
        None => Ok(()),
    }
}

/// The number that digits of a base write, up to that of the last character.
fn number_of(base: u32, digits: &[u8]) -> Option<u32>
    requires { base ≤ 16 }
    ensures { result ≡ spec.number_after base 0 digits.now }
{
    let mut number = 0;
    for byte in digits {
        number = with_byte(base, number, *byte)?;
    }
    Some(number)
}

/// The number that one more digit makes of a number.
fn with_byte(base: u32, before: u32, byte: u8) -> Option<u32>
    requires base { base ≤ 16 }
    requires before { before ≤ 0x10FFFF }
    ensures value { result ≡ option_and_then (spec.with_digit base before) (spec.digit byte) }
    ensures bounded { IfSome result (λ n. n ≤ 0x10FFFF) }
{
    let digit = digit_of(byte)?;
    let number = before * base + digit;
    if digit < base && number <= 0x10_FFFF {
        Some(number)
    } else {
        None
    }
}

/// What a digit writes.
fn digit_of(byte: u8) -> Option<u32>
    ensures value { result ≡ spec.digit byte }
    ensures bounded { IfSome result (λ d. d ≤ 15) }
{
    match byte {
        b'0'..=b'9' => Some(u32::from(byte - b'0')),
        b'a'..=b'f' => Some(u32::from(byte - b'a') + 10),
        b'A'..=b'F' => Some(u32::from(byte - b'A') + 10),
        _ => None,
    }
}
