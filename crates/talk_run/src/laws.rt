//! What follows from the definitions of a talk. The contract of each function is a law: it is proved, and nothing
//! calls it.
#![allow(dead_code)]

ghost use Rattle.std.specs.Prelude.{ℕ, ◌≡◌, List, true, encode_utf8_all};
ghost use Rattle.std.specs.List.{flat_map};
ghost use Rattle.khe_engine.specs.States.{State};
ghost use Rattle.khe_instance.specs.declared.parts.Parts.{Parts};
ghost use Rattle.script_run.specs.Plays.{Play};
ghost use Rattle.script_run.specs.Scripts.{answers, is_read};
ghost use Rattle.talk_run.specs.Talks.{ended, talk_answers, talk_bytes};

// The answers to lines that a script may have are together what the script answers; and what is written is each of
// them with a full stop after it.
fn a_talk_answers_as_a_script()
    ensures script { (spelled : State → List ℕ) (p : Parts) (w : Play) (number : ℕ) (ls : List (List ℕ)) → is_read ls ≡ true → encode_utf8_all (answers p w number ls) ≡ flat_map (λ bytes. bytes) (talk_answers spelled p w number ls) }
    ensures stops { (spelled : State → List ℕ) (p : Parts) (w : Play) (number : ℕ) (ls : List (List ℕ)) → talk_bytes spelled p w number ls ≡ flat_map ended (talk_answers spelled p w number ls) }
{}
