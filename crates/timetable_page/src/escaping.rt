//! The one way of a text of the archive onto the page: escaped, so that it stands as it is written.

ghost use Rattle.std.specs.Prelude.{◌≡◌, ◌++◌, OnOk};
ghost use Rattle.timetable_page.specs.Escape.{escaped, escaped_character, shown_character};

use khe_base::{NoMemory, Text};

/// Adds a text of the archive, escaped: `<`, `>`, `&`, `"` and `'` as the references that HTML has for them, the
/// characters that turn the direction of the text around them by their numbers, as `[U+202E]`, and each other
/// character as it is.
///
/// It fails only where memory is refused. It takes time and memory linear in the text.
pub(crate) fn push_escaped(page: &mut Text, text: &Text) -> Result<(), NoMemory>
    ensures { OnOk result (page.new ≡ page.old ++ escaped text.now) }
{
    for character in text.as_str().chars() {
        push_character(page, character)?;
    }
    Ok(())
}

/// Adds what one character is written as.
fn push_character(page: &mut Text, character: char) -> Result<(), NoMemory>
    ensures { OnOk result (page.new ≡ page.old ++ escaped_character character) }
{
    match character {
        '&' => page.push_literal("&amp;"),
        '<' => page.push_literal("&lt;"),
        '>' => page.push_literal("&gt;"),
        '"' => page.push_literal("&quot;"),
        '\'' => page.push_literal("&#39;"),
        other => push_shown(page, other),
    }
}

/// Adds a character that is none of markup: by its number where it turns the direction of the text around it, since
/// a name could otherwise reverse the sentence that it stands in.
///
/// The characters are those with the property Bidi_Control of the Unicode Standard.
#[tactic(auto, unfolding(crate::specs::Escape::shown_character))]
fn push_shown(page: &mut Text, character: char) -> Result<(), NoMemory>
    ensures { OnOk result (page.new ≡ page.old ++ shown_character character) }
{
    match character {
        '\u{61c}' => page.push_literal("[U+061C]"),
        '\u{200e}' => page.push_literal("[U+200E]"),
        '\u{200f}' => page.push_literal("[U+200F]"),
        '\u{202a}' => page.push_literal("[U+202A]"),
        '\u{202b}' => page.push_literal("[U+202B]"),
        '\u{202c}' => page.push_literal("[U+202C]"),
        '\u{202d}' => page.push_literal("[U+202D]"),
        '\u{202e}' => page.push_literal("[U+202E]"),
        '\u{2066}' => page.push_literal("[U+2066]"),
        '\u{2067}' => page.push_literal("[U+2067]"),
        '\u{2068}' => page.push_literal("[U+2068]"),
        '\u{2069}' => page.push_literal("[U+2069]"),
        other => page.push(other),
    }
}
