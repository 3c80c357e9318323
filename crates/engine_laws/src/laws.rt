//! Laws on the states of an engine, each the contract of a function that does nothing: no program calls these.
#![allow(dead_code)]

ghost use Rattle.engine_laws.specs.Budgets.{LargeBudgetsTell};
ghost use Rattle.engine_laws.specs.Owed.{OwedAsPut};
ghost use Rattle.engine_laws.specs.Served.{WatchersAreServed};
ghost use Rattle.engine_laws.specs.Small.{StatesCostLittle, TimetablesCostLittle};
ghost use Rattle.engine_laws.specs.Standing.{EditsKeepStanding, MarksKeepStanding, OpenedStatesStand, UndoingKeepsStanding};
ghost use Rattle.khe_engine.specs.Values.{ServesAll};

use khe_told::Family;
use sixteen_families::Families;

// Whatever a timetable is: no monitor of it deviates or costs more than the limits allow, nor do all of them.
fn timetables_cost_little()
    ensures { TimetablesCostLittle }
{}

// So it is with each state that stands, and with each of its groups.
fn states_cost_little()
    ensures { StatesCostLittle }
{}

// An engine begins with a state that stands, and each edit that is accepted leads from one to another. What is saved at
// the marks stands after each edit and each mark that is opened or closed; and after an undo, also one to a mark with a
// number, the state and all that are saved stand.
fn states_stand()
    ensures opened { OpenedStatesStand }
    ensures edited { EditsKeepStanding }
    ensures marked { MarksKeepStanding }
    ensures undone { UndoingKeepsStanding }
{}

// A repair with a budget of more than all chains of one move has lowered the totals, or no chain of one move does.
fn large_budgets_tell()
    ensures { LargeBudgetsTell }
{}

// Where every kind is served, as an engine asks of its families, the watchers that bound its steps are monitors that
// watch and are served. The sixteen families serve every kind, and no two of them serve the same one.
fn each_watcher_is_served()
    ensures watchers { WatchersAreServed }
    ensures served { ServesAll ⟦<Families as Family>⟧.serves_kind }
    ensures once { ⟦<Families as Family>⟧.IsWellJoined }
{}

// An engine that is put off owes the watchers of the changes that it has not measured yet: one that takes the last of
// these back lowers that by the watchers of the last one.
fn what_is_taken_back_is_owed_no_more()
    ensures { OwedAsPut }
{}
