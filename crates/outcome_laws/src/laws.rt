//! Laws on the outcomes of the program, each the contract of a function that does nothing: no program calls these.
#![allow(dead_code)]

ghost use Rattle.khe_app.specs.Deficits.{DeficitsOutnumber};
ghost use Rattle.outcome_laws.specs.Outcomes.{EachRunHasOneOutcome, MakingReadsNothing, NoRunHasTwoStatuses};
ghost use Rattle.outcome_laws.specs.Outcomes.{OutcomesDoNotHang};
ghost use Rattle.khe_app.specs.Texts.{ChecksAreReadAgain, RepairsAreNoDearer, SolvesAreNoDearer};

// All words have one outcome, whatever stands under the names: there is a status and a text, and any other outcome has
// the same status and the same bytes. The words of `match` have one status, and the choice of its text is left open.
fn each_run_has_one_outcome()
    ensures one { EachRunHasOneOutcome }
    ensures status { NoRunHasTwoStatuses }
{}

// Where nothing is read, the outcome is the same whatever stands under the names, and nothing is missing.
fn what_is_not_read_does_not_count()
    ensures shelf { OutcomesDoNotHang }
    ensures nothing_missing { MakingReadsNothing }
{}

// What `check` writes is read as the same archive, and checked again it is written as it stands.
fn what_is_checked_is_read_again()
    ensures { ChecksAreReadAgain }
{}

// What `repair` writes is read as the same archive but for the entries of the solution, which costs no more than it
// did, and less where the line says that chains were taken.
fn what_is_repaired_costs_no_more()
    ensures { RepairsAreNoDearer }
{}

// What `solve` writes is so read too, and costs no more.
fn what_is_solved_costs_no_more()
    ensures { SolvesAreNoDearer }
{}

// What a script answers to `deficit` names demands that outnumber the supplies that they may have by just the number
// that it gives.
fn a_deficit_names_demands_that_outnumber()
    ensures { DeficitsOutnumber }
{}
