//! Laws on the texts that are written, each the contract of a function that does nothing: no program calls these.
#![allow(dead_code)]

ghost use Rattle.text_laws.specs.Matched.{MatchingsAreReadNoDearer};
ghost use Rattle.text_laws.specs.Repaired.{RepairsAreReadNoDearer, SolvesAreReadNoDearer};
ghost use Rattle.text_laws.specs.Rewritten.{SpellingsAreReadAgain};

// The canonical spelling of an archive that was read is read as the same archive, with the same instances, and
// is that one's spelling too.
fn a_spelling_is_read_again()
    ensures { SpellingsAreReadAgain }
{}

// What a repair is written as is read as the same archive but for the entries of the solution, which costs what the
// line says, and no more than before; and less, where chains were taken.
fn a_repair_is_read_no_dearer()
    ensures { RepairsAreReadNoDearer }
{}

// So is what a solve is written as.
fn a_solve_is_read_no_dearer()
    ensures { SolvesAreReadNoDearer }
{}

// And so is what a matching is written as.
fn a_matching_is_read_no_dearer()
    ensures { MatchingsAreReadNoDearer }
{}
