//! What the definition gives for the entries of a small school. Each function's contract is an
//! example, and the check proves it: no program calls these functions.

ghost use Rattle.std.specs.Prelude.{◌≡◌, Some, None, [], ◌∷◌, codes};
ghost use Rattle.xhstt_completion.specs.Examples.{said, at_entry, state, meet, task, whole, lasting, lasting_at, giving, for_role, for_no_role};

// Without entries each event is one meet of its whole duration.
fn nothing_is_said()
    ensures { said [] ≡ state (meet 0 0 2 None ∷ meet 2 1 2 (Some (record { 0 = 1 })) ∷ []) (task 0 0 None ∷ task 0 1 (Some (record { 0 = 1 })) ∷ task 2 0 (Some (record { 0 = 0 })) ∷ []) }
{}

// An entry is a meet with what it gives, and one more meet lasts for the rest of the course.
fn a_part_is_missing()
    ensures { said (giving (lasting_at (codes "course") 1 (codes "third")) (for_role (codes "teacher") (codes "smith") ∷ []) ∷ whole (codes "assembly") ∷ [])
        ≡ state (meet 0 0 1 (Some (record { 0 = 2 })) ∷ meet 1 0 1 None ∷ meet 2 1 2 (Some (record { 0 = 1 })) ∷ [])
        (task 0 0 (Some (record { 0 = 0 })) ∷ task 0 1 (Some (record { 0 = 1 })) ∷ task 1 0 None ∷ task 1 1 (Some (record { 0 = 1 })) ∷ task 2 0 (Some (record { 0 = 0 })) ∷ []) }
{}

// Two entries of the course last longer than it does together, with another event's between them.
fn too_long()
    ensures { said (lasting (codes "course") 1 ∷ whole (codes "assembly") ∷ lasting (codes "course") 2 ∷ []) ≡ at_entry 2 1 }
{}

fn split_fixed()
    ensures { said (whole (codes "course") ∷ lasting (codes "assembly") 1 ∷ []) ≡ at_entry 1 2 }
{}

fn fixed_time()
    ensures other { said (whole (codes "course") ∷ lasting_at (codes "assembly") 2 (codes "first") ∷ []) ≡ at_entry 1 3 }
    ensures later { said (whole (codes "course") ∷ lasting_at (codes "assembly") 2 (codes "third") ∷ []) ≡ at_entry 1 3 }
{}

// The last time is time enough for an entry of duration 1.
fn off_end()
    ensures in_time { said (lasting_at (codes "course") 1 (codes "third") ∷ lasting_at (codes "assembly") 2 (codes "second") ∷ lasting_at (codes "course") 2 (codes "third") ∷ []) ≡ at_entry 2 1 }
    ensures late { said (whole (codes "assembly") ∷ lasting_at (codes "course") 2 (codes "third") ∷ []) ≡ at_entry 1 4 }
{}

// A role that the course does not have, one that came before, and a resource without a role that
// the course does not have.
fn bad_role()
    ensures other { said (whole (codes "assembly") ∷ giving (whole (codes "course")) (for_role (codes "pupil") (codes "smith") ∷ []) ∷ []) ≡ at_entry 1 5 }
    ensures again { said (whole (codes "assembly") ∷ giving (whole (codes "course")) (for_role (codes "teacher") (codes "smith") ∷ for_role (codes "teacher") (codes "smith") ∷ []) ∷ []) ≡ at_entry 1 5 }
    ensures none { said (whole (codes "assembly") ∷ giving (whole (codes "course")) (for_no_role (codes "class") ∷ for_no_role (codes "smith") ∷ []) ∷ []) ≡ at_entry 1 5 }
{}

fn fixed_resource()
    ensures { said (whole (codes "course") ∷ giving (whole (codes "assembly")) (for_role (codes "teacher") (codes "class") ∷ []) ∷ []) ≡ at_entry 1 6 }
{}

fn wrong_type()
    ensures { said (whole (codes "assembly") ∷ giving (whole (codes "course")) (for_role (codes "teacher") (codes "room") ∷ []) ∷ []) ≡ at_entry 1 7 }
{}

// Of the causes of one entry the first one is told; the resources are looked at in turn.
fn causes_have_an_order()
    ensures long { said (lasting_at (codes "assembly") 3 (codes "third") ∷ []) ≡ at_entry 0 1 }
    ensures split { said (lasting_at (codes "assembly") 1 (codes "first") ∷ []) ≡ at_entry 0 2 }
    ensures late { said (giving (lasting_at (codes "course") 2 (codes "third")) (for_role (codes "pupil") (codes "smith") ∷ []) ∷ []) ≡ at_entry 0 4 }
    ensures fixed { said (giving (whole (codes "assembly")) (for_role (codes "teacher") (codes "room") ∷ []) ∷ []) ≡ at_entry 0 6 }
    ensures turn { said (giving (whole (codes "course")) (for_role (codes "teacher") (codes "room") ∷ for_role (codes "pupil") (codes "smith") ∷ []) ∷ []) ≡ at_entry 0 7 }
{}
