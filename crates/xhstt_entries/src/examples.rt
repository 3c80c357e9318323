//! What is written of a small timetable, and what is read again: the contracts of the functions are
//! examples. Nothing calls them, since it is the check that shows them.

ghost use Rattle.std.specs.Prelude.{◌≡◌, ◌∷◌, [], None, Ok, Some, codes};
ghost use Rattle.xhstt_completion.specs.Completed.{completed};
ghost use Rattle.xhstt_entries.specs.Examples.{empty, entry, for_role, school, timetable, with_gap};
ghost use Rattle.xhstt_entries.specs.Renumbered.{renumbered};
ghost use Rattle.xhstt_entries.specs.Spelled.{entries_of, spelled};

/// Parts of an event are entries of their own; a preassigned class is not written, nor what is missing.
fn three_meets()
    ensures { entries_of school timetable ≡ entry (codes "lesson") 2 (Some (codes "second")) (for_role (codes "teacher") (codes "smith") ∷ []) ∷ (entry (codes "lesson") 1 None [] ∷ (entry (codes "talk") 1 None [] ∷ [])) }
{}

/// Meets have the first slots of their events when they are read again.
fn a_gap_is_closed()
    ensures renumbered { renumbered school with_gap ≡ timetable }
    ensures read { completed school (spelled school with_gap empty) ≡ Ok timetable }
{}
