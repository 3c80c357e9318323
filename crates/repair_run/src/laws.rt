//! What follows from the definitions of a repair and of a solve. The contract of each function is a law: it is
//! proved, and nothing calls it.
#![allow(dead_code)]

ghost use Rattle.std.specs.Prelude.{ℕ, ◌≡◌, List, encode_utf8_all};
ghost use Rattle.khe_engine.specs.Openings.{IsStateOf};
ghost use Rattle.khe_engine.specs.States.{State};
ghost use Rattle.khe_instance.specs.WellMade.{AreWellMade};
ghost use Rattle.khe_instance.specs.declared.parts.Parts.{Parts};
ghost use Rattle.khe_instance.specs.declared.states.Plain.{Plain};
ghost use Rattle.parallel_repair.specs.Jobs.{job_answer};
ghost use Rattle.parallel_repair.specs.Solved.{IsSolved};
ghost use Rattle.parallel_repair.specs.declared.answers.Solved.{Solved};
ghost use Rattle.repair_run.specs.Laws.{IsLeast, IsNoDearer, IsSettledTo};
ghost use Rattle.repair_run.specs.Placed.{respelled};
ghost use Rattle.repair_run.specs.Repairs.{IsMended, repair_bytes};
ghost use Rattle.repair_run.specs.Solves.{IsSolveText, solve_bytes};
ghost use Rattle.repair_run.specs.declared.mending.Mended.{Mended};
ghost use Rattle.xhstt_shape.specs.WellFormed.{IsWellFormed};
ghost use Rattle.xhstt_shape.specs.declared.records.Archive.{Archive};
ghost use Rattle.xhstt_writer.specs.Archives.{IsReadAs};

// A repair never leaves a timetable that costs more, and where a chain was taken it costs less. Where the
// repair is done, no chain of at most `depth` moves leaves lower totals; where the budget is spent, none of as many
// moves as it tells.
fn a_repair_never_costs_more()
    ensures no_dearer { (p : Parts) (plain : Plain) (depth budget : ℕ) (m : Mended) → IsMended p plain depth budget m → IsNoDearer p plain m }
    ensures settled { (p : Parts) (plain : Plain) (depth budget : ℕ) (m : Mended) → IsMended p plain depth budget m → IsSettledTo p depth m }
{}

// The least result of many repairs never costs more than the timetable that they begin with, and none of them
// comes to one that costs less, also none that was left out.
fn a_solve_never_costs_more()
    ensures { (p : Parts) (plain : Plain) (before : State) (depth budget jobs : ℕ) (s : Solved) → AreWellMade p → IsStateOf p plain before → IsSolved (job_answer p plain depth budget) jobs s → IsLeast p before depth budget jobs s }
{}

// What a solve is written as is the same bytes, whoever did which jobs and in which order.
fn a_solve_is_written_in_one_way()
    ensures { (a : Archive) (number : ℕ) (p : Parts) (plain : Plain) (depth budget jobs : ℕ) (text other : List ℕ) → IsSolveText a number p plain depth budget jobs text → IsSolveText a number p plain depth budget jobs other → encode_utf8_all text ≡ encode_utf8_all other }
{}

// What a repair is written as, and what a solve is, is read as the archive alone: the line after it is a
// comment.
fn a_line_is_read_as_nothing()
    ensures repaired { (a : Archive) (number : ℕ) (p : Parts) (m : Mended) → IsWellFormed (respelled a number p m.plain) → IsReadAs (repair_bytes a number p m) (respelled a number p m.plain) }
    ensures solved { (a : Archive) (number : ℕ) (p : Parts) (s : Solved) → IsWellFormed (respelled a number p s.plain) → IsReadAs (solve_bytes a number p s) (respelled a number p s.plain) }
{}
