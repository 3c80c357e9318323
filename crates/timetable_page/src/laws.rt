//! The laws of escaped texts. Nothing calls them, since it is the check that shows them.

ghost use Rattle.std.specs.Prelude.{◌≡◌, ℕ, List, None, true};
ghost use Rattle.std.specs.List.{list_all};
ghost use Rattle.timetable_page.specs.Escape.{escaped, shown};
ghost use Rattle.timetable_page.specs.Reading.{is_inert, read_from};

// What a text is written as opens and closes no tag and no quote, and is read back as the text with the characters that
// turn its direction shown by their numbers.
fn escaped_texts()
    ensures inert { (text : List ℕ) → list_all is_inert (escaped text) ≡ true }
    ensures read_back { (text : List ℕ) → read_from None (escaped text) ≡ shown text }
{}
