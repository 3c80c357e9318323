//! A text as it is written between tags or in an attribute.

ghost use Rattle.std.specs.Prelude.{◌≡◌, ◌++◌, OnOk, OnErr, IfOk, encode_utf8_all};
ghost use Rattle.xhstt_text.specs.Escape.{escaped, escaped_character};
ghost use Rattle.xhstt_text.specs.Unescape.{unescaped};

use khe_base::{NoMemory, Text};
use std::alloc::Global;

/// A text as it is written in an attribute's value or between tags: `&`, `<`, `>`, `"`, the tab,
/// the line feed and the carriage return as references, each other character as it is. Unescaping
/// it gives the text back.
///
/// It takes time and memory linear in the text.
pub fn escape(alloc: Global, text: &Text) -> Result<Text, NoMemory>
    ensures written { IfOk result (λ t. t ≡ escaped text.now) }
    ensures read_back { IfOk result (λ t. unescaped (encode_utf8_all t) ≡ text.now) }
{
    let mut written = Text::new(alloc);
    for character in text.as_str().chars() {
        push_escaped(&mut written, character)?;
    }
    Ok(written)
}

/// Adds what one character is written as.
fn push_escaped(written: &mut Text, character: char) -> Result<(), NoMemory>
    ensures ok { OnOk result (written.new ≡ written.old ++ escaped_character character) }
    ensures err { OnErr result (written.new ≡ written.old) }
{
    match character {
        '&' => written.push_literal("&amp;"),
        '<' => written.push_literal("&lt;"),
        '>' => written.push_literal("&gt;"),
        '"' => written.push_literal("&quot;"),
        '\t' => written.push_literal("&#9;"),
        '\n' => written.push_literal("&#10;"),
        '\r' => written.push_literal("&#13;"),
        other => written.push(other),
    }
}
