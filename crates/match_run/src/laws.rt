//! What is true of the lines on a matching. The contract of the function is a law: it is proved, and running it does
//! nothing.
#![allow(dead_code)]

ghost use Rattle.std.specs.Prelude.{ℕ, List, ◌++◌, encode_utf8_all};
ghost use Rattle.khe_base.specs.declared.sums.Totals.{Totals};
ghost use Rattle.match_run.specs.Lines.{match_lines};
ghost use Rattle.time_match.specs.declared.outcomes.Matched.{Matched};
ghost use Rattle.xhstt_shape.specs.declared.records.Archive.{Archive};
ghost use Rattle.xhstt_writer.specs.Archives.{IsReadAs};

// Bytes that are read as an archive are so with the lines after them, which are comments.
fn lines_are_read_as_nothing()
    ensures { (a : Archive) (m : Matched) (t : Totals) (bytes : List ℕ) → IsReadAs bytes a → IsReadAs (bytes ++ encode_utf8_all (match_lines m t)) a }
{}
