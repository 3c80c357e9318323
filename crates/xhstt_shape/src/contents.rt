//! The texts and numbers that stand in an element.

ghost use Rattle.std.specs.Prelude.{◌≡◌, ◌≤◌, [], IfOk, IsTrue, length, not, unwrap_or};
ghost use Rattle.std.specs.List.{list_all};
ghost use Rattle.khe_base.specs.Text.{text_of};
ghost use Rattle.xhstt_text.specs.Bytes.{is_white};
ghost use Rattle.xhstt_shape.specs.Contents as spec;

use khe_base::{CostFn, NoMemory, Text};
use std::alloc::Global;
use xhstt_text::{plain, text_or_empty, unescape};

/// Whether a byte is a space, a tab, a line feed or a carriage return.
fn is_white(byte: u8) -> bool
    ensures { result ≡ is_white byte }
{
    byte == b' ' || byte == b'\t' || byte == b'\n' || byte == b'\r'
}

/// What is left after white at the front.
fn without_front(bytes: &[u8]) -> &[u8]
    ensures { result.now ≡ spec.without_front bytes.now }
{
    let mut rest = bytes;
    while let [first, more @ ..] = rest {
        if !is_white(*first) {
            return rest;
        }
        rest = more;
    }
    rest
}

/// What is left before white at the end.
fn without_back(bytes: &[u8]) -> &[u8]
    ensures { result.now ≡ spec.without_back bytes.now }
{
    let mut rest = bytes;
    while let [more @ .., last] = rest {
        if !is_white(*last) {
            return rest;
        }
        rest = more;
    }
    rest
}

/// What is left between white at both ends. It takes time linear in the bytes.
pub(crate) fn trimmed(bytes: &[u8]) -> &[u8]
    ensures { result.now ≡ spec.trimmed bytes.now }
{
    without_back(without_front(bytes))
}

/// A role, from the bytes between its tags. It takes time linear in the bytes, and memory for the
/// role alone where they are plain.
#[tactic(auto, unfolding(crate::specs::Contents::trimmed_text, crate::specs::Contents::role_text))]
pub(crate) fn role_text(alloc: Global, value: &[u8]) -> Result<Text, NoMemory>
    ensures { IfOk result (λ t. t ≡ spec.role_text value.now) }
{
    if let Some(bytes) = plain(value) {
        return text_or_empty(alloc, trimmed(bytes));
    }
    let text = unescape(alloc, value)?;
    text_or_empty(alloc, trimmed(text.as_bytes()))
}

/// Whether the bytes between its tags give a role. It takes time linear in the bytes, and no memory
/// where they are plain.
#[tactic(auto, unfolding(crate::specs::Contents::trimmed_text, crate::specs::Contents::role_text))]
pub(crate) fn is_role(alloc: Global, value: &[u8]) -> Result<bool, NoMemory>
    ensures { IfOk result (λ b. b ≡ not (spec.is_blank (spec.role_text value.now))) }
{
    if let Some(bytes) = plain(value) {
        return Ok(spells_some(trimmed(bytes)));
    }
    let text = unescape(alloc, value)?;
    Ok(spells_some(trimmed(text.as_bytes())))
}

/// Whether bytes spell a text of at least one character.
fn spells_some(bytes: &[u8]) -> bool
    ensures { result ≡ not (spec.is_blank (unwrap_or (text_of bytes.now) [])) }
{
    match str::from_utf8(bytes) {
        Ok(text) => !text.is_empty(),
        Err(_) => false,
    }
}

/// The number that an element's bytes write, where it is in this range. It takes time linear in the
/// bytes, and no memory where they are plain.
#[tactic(auto, unfolding(crate::specs::Contents::trimmed_text))]
pub(crate) fn number_text(
    alloc: Global,
    least: u32,
    greatest: u32,
    value: &[u8],
) -> Result<Option<u32>, NoMemory>
    ensures { IfOk result (λ n. n ≡ spec.number_between least greatest (spec.trimmed_text value.now)) }
{
    if let Some(bytes) = plain(value) {
        return Ok(number_between(least, greatest, trimmed(bytes)));
    }
    let text = unescape(alloc, value)?;
    Ok(number_between(least, greatest, trimmed(text.as_bytes())))
}

/// What the words `true` and `false` between an element's tags say. It takes time linear in the
/// bytes, and no memory where they are plain.
#[tactic(auto, unfolding(crate::specs::Contents::trimmed_text))]
pub(crate) fn truth_text(alloc: Global, value: &[u8]) -> Result<Option<bool>, NoMemory>
    ensures { IfOk result (λ b. b ≡ spec.truth_of (spec.trimmed_text value.now)) }
{
    if let Some(bytes) = plain(value) {
        return Ok(truth_of(trimmed(bytes)));
    }
    let text = unescape(alloc, value)?;
    Ok(truth_of(trimmed(text.as_bytes())))
}

/// The cost function that is named between an element's tags. It takes time linear in the bytes, and
/// no memory where they are plain.
#[tactic(auto, unfolding(crate::specs::Contents::trimmed_text))]
pub(crate) fn function_text(alloc: Global, value: &[u8]) -> Result<Option<CostFn>, NoMemory>
    ensures { IfOk result (λ f. f ≡ spec.function_of (spec.trimmed_text value.now)) }
{
    if let Some(bytes) = plain(value) {
        return Ok(function_of(trimmed(bytes)));
    }
    let text = unescape(alloc, value)?;
    Ok(function_of(trimmed(text.as_bytes())))
}

/// The number that 1 to 10 digits write, where it is in this range.
#[tactic(auto, unfolding(crate::specs::Contents::number_between))]
fn number_between(least: u32, greatest: u32, bytes: &[u8]) -> Option<u32>
    ensures { result ≡ spec.number_between least greatest bytes.now }
{
    if !are_digits(bytes) || bytes.is_empty() || bytes.len() > 10 {
        return None;
    }
    let value = value_of(bytes);
    if value < u64::from(least) || value > u64::from(greatest) {
        return None;
    }
    Some(value as u32)
}

/// Whether each byte is a decimal digit.
fn are_digits(bytes: &[u8]) -> bool
    ensures { result ≡ list_all spec.is_digit bytes.now }
{
    bytes.iter().all(|c| is_digit(*c))
}

/// Whether a byte is a decimal digit.
fn is_digit(byte: u8) -> bool
    ensures { result ≡ spec.is_digit byte }
{
    48 <= byte && byte <= 57
}

/// The number that up to 10 digits write.
fn value_of(digits: &[u8]) -> u64
    requires digits { IsTrue (list_all spec.is_digit digits.now) }
    requires short { length digits.now ≤ 10 }
    ensures { result ≡ spec.value_after 0 digits.now }
{
    let mut value = 0;
    for digit in digits {
        value = value * 10 + u64::from(*digit - b'0');
    }
    value
}

/// What the words `true` and `false` say.
#[tactic(auto, unfolding(crate::specs::Contents::truth_of))]
fn truth_of(bytes: &[u8]) -> Option<bool>
    ensures { result ≡ spec.truth_of bytes.now }
{
    if b"true".as_slice() == bytes {
        Some(true)
    } else if b"false".as_slice() == bytes {
        Some(false)
    } else {
        None
    }
}

/// The cost function of this name.
#[tactic(auto, unfolding(crate::specs::Contents::function_of))]
fn function_of(bytes: &[u8]) -> Option<CostFn>
    ensures { result ≡ spec.function_of bytes.now }
{
    if b"Linear".as_slice() == bytes {
        Some(CostFn::Linear)
    } else if b"Quadratic".as_slice() == bytes {
        Some(CostFn::Quadratic)
    } else if b"Step".as_slice() == bytes {
        Some(CostFn::Step)
    } else {
        None
    }
}
