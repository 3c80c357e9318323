//! What is true of each list of moves. Each function's contract is a law: it is proved, and running
//! the function does nothing.
#![allow(dead_code)]

ghost use Rattle.std.specs.Prelude.{◌≡◌, ℕ, All, None, List};
ghost use Rattle.khe_instance.specs.declared.parts.Parts.{Parts};
ghost use Rattle.khe_solution.specs.Refusing.{refusal};
ghost use Rattle.khe_told.specs.declared.slots.Slot.{Slot};
ghost use Rattle.repair_moves.specs.Moves.{moves};

// The table of edits accepts each move of a list.
#[tactic(auto, using(crate::proofs::ListLaws::each_taken))]
fn each_move_is_accepted()
    ensures { (p : Parts) (s : List Slot) (n : ℕ) → All (λ e. refusal p s e ≡ None) (moves p s n) }
{}
