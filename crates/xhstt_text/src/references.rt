//! References to characters, by name or by number.

ghost use Rattle.std.specs.Prelude.{◌≡◌, ◌≤◌, ◌<◌, ◌+◌, ◌∷◌, [], ℕ, true, false, length, IfOk, MatchOption, MatchResult};
ghost use Rattle.xhstt_text.specs.Machine.{Phase, Read, Within, after_piece, hash, hash_x, reference, reference_a, run, wide_1, wide_2, word};
ghost use Rattle.xhstt_text.specs.Reading.{Enters, Fails, Leads, NoPiece, TakesDigit, begins, broken, is_byte};
ghost use Rattle.xhstt_text.specs.Units.{digit, is_character, is_decimal, is_hexadecimal, is_last};

use crate::TextFault;
use crate::bytes::{past, skip};
use crate::cursor::Cursor;
use crate::faults::{bad_markup, bad_reference};

// More than any character: a greater number is written as this one.
const LIMIT: u32 = 0x11_0000;

fn is_decimal(byte: u8) -> bool
    ensures { result ≡ is_decimal byte }
{
    b'0' <= byte && byte <= b'9'
}

fn is_hexadecimal(byte: u8) -> bool
    ensures { result ≡ is_hexadecimal byte }
{
    is_decimal(byte) || (b'A' <= byte && byte <= b'F') || (b'a' <= byte && byte <= b'f')
}

// What a digit stands for.
fn digit(byte: u8) -> u32
    requires { is_hexadecimal byte ≡ true }
    ensures value { result ≡ digit byte }
    ensures bound { result < 16 }
{
    if byte <= b'9' {
        u32::from(byte - b'0')
    } else if byte <= b'F' {
        u32::from(byte - b'A') + 10
    } else {
        u32::from(byte - b'a') + 10
    }
}

fn is_character(number: u32) -> bool
    ensures { result ≡ is_character number }
{
    number == 9
        || number == 10
        || number == 13
        || (32 <= number && number <= 0xD7FF)
        || (0xE000 <= number && number <= 0xFFFD)
        || (0x1_0000 <= number && number <= 0x10_FFFF)
}

// The fault of a reference that begins at a place, and cannot go on from here.
fn broken(place: u32, here: Cursor) -> TextFault
    ensures { result ≡ broken place here.entry.at here.entry.rest.now }
{
    if here.rest.is_empty() {
        bad_markup(here.at)
    } else {
        bad_reference(place)
    }
}

// Over a last letter and `;`.
fn last_letter<'a>(place: u32, from: Cursor<'a>, letter: u8) -> Result<Cursor<'a>, TextFault>
    ensures leads { (w : Within) (r : Read) → Leads result (run (word place (letter ∷ 59 ∷ []) w) r from.entry.at from.entry.rest.now) (λ q. run (after_piece w) r q.at q.rest.now) }
    ensures onward { IfOk result (λ q. (length q.rest.now ≤ length from.entry.rest.now) × (from.entry.at ≤ q.at)) }
{
    let Some(last) = past(from, letter) else {
        return Err(broken(place, from));
    };
    let Some(end) = past(last, b';') else {
        return Err(broken(place, last));
    };
    Ok(end)
}

// Over the last two bytes of a character from U+F000 on.
fn wide<'a>(from: Cursor<'a>) -> Result<Cursor<'a>, TextFault>
    ensures leads { (w : Within) (r : Read) → Leads result (run (wide_1 w) r from.entry.at from.entry.rest.now) (λ q. run (after_piece w) r q.at q.rest.now) }
    ensures onward { IfOk result (λ q. (length q.rest.now ≤ length from.entry.rest.now) × (from.entry.at ≤ q.at)) }
{
    match from.rest {
        [second, ..] if 128 <= *second => last_byte(skip(from, 1), *second == 191),
        _ => Err(bad_markup(from.at)),
    }
}

fn is_last(greatest: bool, byte: u8) -> bool
    ensures { result ≡ is_last greatest byte }
{
    128 <= byte && !(greatest && 190 <= byte)
}

// Over the last byte of such a character: whether its second byte is the greatest.
fn last_byte<'a>(from: Cursor<'a>, greatest: bool) -> Result<Cursor<'a>, TextFault>
    ensures leads { (w : Within) (r : Read) → Leads result (run (wide_2 greatest w) r from.entry.at from.entry.rest.now) (λ q. run (after_piece w) r q.at q.rest.now) }
    ensures onward { IfOk result (λ q. (length q.rest.now ≤ length from.entry.rest.now) × (from.entry.at ≤ q.at)) }
{
    match from.rest {
        [byte, ..] if is_last(greatest, *byte) => Ok(skip(from, 1)),
        _ => Err(bad_markup(from.at)),
    }
}

// The decimal digit at this place, and the place after it.
fn next_decimal<'a>(from: Cursor<'a>) -> Option<(u32, Cursor<'a>)>
    ensures { MatchOption result (begins is_decimal from.entry.rest.now ≡ false)
        (λ found. TakesDigit is_decimal from.entry.at from.entry.rest.now found.0 found.1.at found.1.rest.now) }
{
    match from.rest {
        [byte, ..] if is_decimal(*byte) => Some((digit(*byte), skip(from, 1))),
        _ => None,
    }
}

// The place after the digits and the `;` of a decimal number.
fn decimal<'a>(place: u32, from: Cursor<'a>) -> Result<Cursor<'a>, TextFault>
    requires { begins (is_byte 120) from.rest.now ≡ false }
    ensures leads { (w : Within) (r : Read) → Leads result (run (hash place w) r from.entry.at from.entry.rest.now) (λ q. run (after_piece w) r q.at q.rest.now) }
    ensures onward { IfOk result (λ q. (length q.rest.now ≤ length from.entry.rest.now) × (from.entry.at ≤ q.at)) }
{
    let mut here = from;
    let mut number = 0u32;
    let mut digits = 0usize;
    'digits: while let Some((value, next)) = next_decimal(here) {
        number = (number * 10 + value).min(LIMIT);
        digits += 1;
        here = next;
    }
    let Some(end) = past(here, b';') else {
        return Err(broken(place, here));
    };
    if digits == 0 {
        return Err(bad_reference(place));
    }
    if !is_character(number) {
        return Err(broken(place, end));
    }
    Ok(end)
}

// The hexadecimal digit at this place, and the place after it.
fn next_hexadecimal<'a>(from: Cursor<'a>) -> Option<(u32, Cursor<'a>)>
    ensures { MatchOption result (begins is_hexadecimal from.entry.rest.now ≡ false)
        (λ found. TakesDigit is_hexadecimal from.entry.at from.entry.rest.now found.0 found.1.at found.1.rest.now) }
{
    match from.rest {
        [byte, ..] if is_hexadecimal(*byte) => Some((digit(*byte), skip(from, 1))),
        _ => None,
    }
}

// The place after the digits and the `;` of a hexadecimal number.
fn hexadecimal<'a>(place: u32, from: Cursor<'a>) -> Result<Cursor<'a>, TextFault>
    ensures leads { (w : Within) (r : Read) → Leads result (run (hash_x place w) r from.entry.at from.entry.rest.now) (λ q. run (after_piece w) r q.at q.rest.now) }
    ensures onward { IfOk result (λ q. (length q.rest.now ≤ length from.entry.rest.now) × (from.entry.at ≤ q.at)) }
{
    let mut here = from;
    let mut number = 0u32;
    let mut digits = 0usize;
    'digits: while let Some((value, next)) = next_hexadecimal(here) {
        number = (number * 16 + value).min(LIMIT);
        digits += 1;
        here = next;
    }
    let Some(end) = past(here, b';') else {
        return Err(broken(place, here));
    };
    if digits == 0 {
        return Err(bad_reference(place));
    }
    if !is_character(number) {
        return Err(broken(place, end));
    }
    Ok(end)
}

// Over the rest of `apos` or `amp`, from after its first letter.
fn reference_a<'a>(place: u32, from: Cursor<'a>) -> Result<Cursor<'a>, TextFault>
    ensures leads { (w : Within) (r : Read) → Leads result (run (reference_a place w) r from.entry.at from.entry.rest.now) (λ q. run (after_piece w) r q.at q.rest.now) }
    ensures onward { IfOk result (λ q. (length q.rest.now ≤ length from.entry.rest.now) × (from.entry.at ≤ q.at)) }
{
    if let Some(second) = past(from, b'm') {
        return last_letter(place, second, b'p');
    }
    let Some(second) = past(from, b'p') else {
        return Err(broken(place, from));
    };
    let Some(third) = past(second, b'o') else {
        return Err(broken(place, second));
    };
    last_letter(place, third, b's')
}

// Over the rest of a reference, from after the `&` at a place.
fn reference<'a>(place: u32, from: Cursor<'a>) -> Result<Cursor<'a>, TextFault>
    ensures leads { (w : Within) (r : Read) → Leads result (run (reference place w) r from.entry.at from.entry.rest.now) (λ q. run (after_piece w) r q.at q.rest.now) }
    ensures onward { IfOk result (λ q. (length q.rest.now ≤ length from.entry.rest.now) × (from.entry.at ≤ q.at)) }
{
    if let Some(first) = past(from, b'l') {
        return last_letter(place, first, b't');
    }
    if let Some(first) = past(from, b'g') {
        return last_letter(place, first, b't');
    }
    if let Some(first) = past(from, b'a') {
        return reference_a(place, first);
    }
    if let Some(first) = past(from, b'q') {
        return quotation(place, first);
    }
    if let Some(digits) = past(from, b'#') {
        return number(place, digits);
    }
    Err(broken(place, from))
}

// Over the rest of `quot`, from after its first letter.
fn quotation<'a>(place: u32, from: Cursor<'a>) -> Result<Cursor<'a>, TextFault>
    ensures leads { (w : Within) (r : Read) → Leads result (run (word place (117 ∷ 111 ∷ 116 ∷ 59 ∷ []) w) r from.entry.at from.entry.rest.now) (λ q. run (after_piece w) r q.at q.rest.now) }
    ensures onward { IfOk result (λ q. (length q.rest.now ≤ length from.entry.rest.now) × (from.entry.at ≤ q.at)) }
{
    let Some(second) = past(from, b'u') else {
        return Err(broken(place, from));
    };
    let Some(third) = past(second, b'o') else {
        return Err(broken(place, second));
    };
    last_letter(place, third, b't')
}

// Over the rest of a number, from after its `#`.
fn number<'a>(place: u32, from: Cursor<'a>) -> Result<Cursor<'a>, TextFault>
    ensures leads { (w : Within) (r : Read) → Leads result (run (hash place w) r from.entry.at from.entry.rest.now) (λ q. run (after_piece w) r q.at q.rest.now) }
    ensures onward { IfOk result (λ q. (length q.rest.now ≤ length from.entry.rest.now) × (from.entry.at ≤ q.at)) }
{
    match past(from, b'x') {
        Some(digits) => hexadecimal(place, digits),
        None => decimal(place, from),
    }
}

/// The place after the reference, or the character from U+F000 to U+FFFF, that begins here; none
/// where neither begins.
pub fn piece<'a>(from: Cursor<'a>) -> Result<Option<Cursor<'a>>, TextFault>
    ensures leads { (p : Phase) (w : Within) (r s : Read) → Enters p w r s from.entry.at → MatchResult result
        (λ found. MatchOption found (Unit {0}) (λ q. run p r from.entry.at from.entry.rest.now ≡ run (after_piece w) s q.at q.rest.now))
        (λ e. Fails e (run p r from.entry.at from.entry.rest.now)) }
    ensures onward { MatchResult result (λ found. MatchOption found (NoPiece from.entry.rest.now) (λ q. (length q.rest.now < length from.entry.rest.now) × (from.entry.at ≤ q.at))) (λ _. Unit {0}) }
{
    if let Some(inner) = past(from, b'&') {
        return Ok(Some(reference(from.at, inner)?));
    }
    if let Some(inner) = past(from, 0xEF) {
        return Ok(Some(wide(inner)?));
    }
    Ok(None)
}
