//! Lines of words and what they ask for by the table of commands, and lines that it does not read. Each function's
//! contract is an example: it is proved, and nothing calls it.
#![allow(dead_code)]

ghost use Rattle.std.specs.Prelude.{[]};
ghost use Rattle.word_laws.specs.Examples.{AreNotRead, AreRead, checks, constructions, makings, matchings, missing, others, out_of_form, out_of_range, repairs, reports, scripts, solves, twice, unknown};
ghost use Rattle.command_words.specs.Table.{HasNoReading};

// Each command is read, with its options in any order and its numbers up to the greatest.
fn each_command_is_read()
    ensures reports { AreRead reports }
    ensures scripts { AreRead scripts }
    ensures checks { AreRead checks }
    ensures repairs { AreRead repairs }
    ensures solves { AreRead solves }
    ensures constructions { AreRead constructions }
    ensures matchings { AreRead matchings }
    ensures makings { AreRead makings }
{}

// Other words are not.
fn other_words_are_not_read()
    ensures none { HasNoReading [] }
    ensures twice { AreNotRead twice }
    ensures unknown { AreNotRead unknown }
    ensures missing { AreNotRead missing }
    ensures out_of_range { AreNotRead out_of_range }
    ensures out_of_form { AreNotRead out_of_form }
    ensures others { AreNotRead others }
{}
