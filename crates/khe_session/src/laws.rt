//! What follows from the definitions of a session. The contract of each function is a law: it is proved, and nothing
//! calls it.
#![allow(dead_code)]

ghost use Rattle.std.specs.Prelude.{ℕ, ◌≡◌, ◌+◌, List, true, encode_utf8_all};
ghost use Rattle.std.specs.List.{flat_map};
ghost use Rattle.edit_script.specs.Lines.{lines};
ghost use Rattle.khe_engine.specs.States.{State};
ghost use Rattle.khe_instance.specs.declared.parts.Parts.{Parts};
ghost use Rattle.khe_session.specs.States.{SessionState, answers_to, blank};
ghost use Rattle.script_run.specs.Scripts.{is_script, script_text};
ghost use Rattle.talk_run.specs.Answers.{archive_bytes};
ghost use Rattle.talk_run.specs.Talks.{talk_answers};
ghost use Rattle.xhstt_shape.specs.declared.records.Archive.{Archive};

// The answers of a session to lines are those of a talk; its answers to the lines of a script, from its first line
// on, are together what the script answers; and the archive that its state has is written with a timetable just as the
// archive that was read.
fn a_session_answers_as_a_script()
    ensures talk { (s : SessionState) (ls : List (List ℕ)) → answers_to s ls ≡ talk_answers (archive_bytes s.archive s.solution s.parts) s.parts s.play (s.lines + 1) ls }
    ensures script { (s : SessionState) (script : List ℕ) → s.lines ≡ 0 → is_script script ≡ true → flat_map (λ bytes. bytes) (answers_to s (lines script)) ≡ encode_utf8_all (script_text s.parts s.play script) }
    ensures archive { (a : Archive) (number : ℕ) (p : Parts) (t : State) → archive_bytes (blank a number p) number p t ≡ archive_bytes a number p t }
{}
