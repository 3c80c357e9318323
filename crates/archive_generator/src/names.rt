//! Ids and roles, and references, with texts in memory of their exact size. Nothing has a place, since
//! there is no text that it was read from.

ghost use Rattle.std.specs.Prelude.{◌≡◌, ◌<◌, ◌^◌, [], IfOk, IsTrue};
ghost use Rattle.khe_base.specs.Text.{is_ascii};
ghost use Rattle.archive_generator.specs.Names as spec;

use itoa::Buffer;
use khe_base::{NoMemory, Text};
use std::alloc::Global;
use xhstt_shape::{Name, Ref};

/// A text of ASCII.
fn text(alloc: Global, word: &str) -> Result<Text, NoMemory>
    requires { IsTrue (is_ascii word.now) }
    ensures { IfOk result (λ t. t ≡ word.now) }
{
    let mut text = roomy_text(alloc, word.len())?;
    text.push_literal(word)?;
    Ok(text)
}

/// An empty text with room for the given number of bytes.
fn roomy_text(alloc: Global, bytes: usize) -> Result<Text, NoMemory>
    ensures { IfOk result (λ t. t ≡ []) }
{
    Ok(Text {
        items: String::with_capacity(alloc, bytes)?,
    })
}

/// A word of ASCII with a number after it.
fn numbered(alloc: Global, word: &str, number: u32) -> Result<Text, NoMemory>
    requires { IsTrue (is_ascii word.now) }
    ensures { IfOk result (λ t. t ≡ spec.numbered word.now number) }
{
    let mut buffer = Buffer::new();
    let digits = buffer.format(number);
    let mut text = roomy_text(alloc, word.len().saturating_add(digits.len()))?;
    text.push_literal(word)?;
    text.push_str(digits)?;
    Ok(text)
}

/// An Id or a role.
pub(crate) fn name(alloc: Global, word: &str) -> Result<Name, NoMemory>
    requires { IsTrue (is_ascii word.now) }
    ensures { IfOk result (λ n. n ≡ spec.name word.now) }
{
    Ok(Name {
        text: text(alloc, word)?,
        at: 0,
    })
}

/// An Id with a number.
pub(crate) fn numbered_name(alloc: Global, word: &str, number: u32) -> Result<Name, NoMemory>
    requires { IsTrue (is_ascii word.now) }
    ensures { IfOk result (λ n. n ≡ spec.name (spec.numbered word.now number)) }
{
    Ok(Name {
        text: numbered(alloc, word, number)?,
        at: 0,
    })
}

/// A reference by an Id.
pub(crate) fn to(alloc: Global, id: &str) -> Result<Ref, NoMemory>
    requires { IsTrue (is_ascii id.now) }
    ensures { IfOk result (λ r. r ≡ spec.to id.now) }
{
    Ok(Ref {
        id: text(alloc, id)?,
        at: 0,
    })
}

/// A reference by an Id with a number.
pub(crate) fn to_numbered(alloc: Global, word: &str, number: u32) -> Result<Ref, NoMemory>
    requires { IsTrue (is_ascii word.now) }
    ensures { IfOk result (λ r. r ≡ spec.to (spec.numbered word.now number)) }
{
    Ok(Ref {
        id: numbered(alloc, word, number)?,
        at: 0,
    })
}

/// A reference to a time, where there is one.
pub(crate) fn to_time(alloc: Global, time: Option<u32>) -> Result<Option<Ref>, NoMemory>
    ensures { IfOk result (λ r. r ≡ spec.to_time time) }
{
    match time {
        Some(number) => Ok(Some(to_numbered(alloc, "t", number)?)),
        None => Ok(None),
    }
}
