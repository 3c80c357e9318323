//! A law on the definitions that a solve stands on. It is proved, and no program calls it.

#![allow(dead_code)]

ghost use Rattle.std.specs.Prelude.{◌≡◌};
ghost use Rattle.khe_engine.specs.Openings.{IsStateOf};
ghost use Rattle.khe_engine.specs.States.{State};
ghost use Rattle.khe_instance.specs.States.{IsValid};
ghost use Rattle.khe_instance.specs.WellMade.{AreWellMade};
ghost use Rattle.khe_instance.specs.declared.parts.Parts.{Parts};
ghost use Rattle.khe_instance.specs.declared.states.Plain.{Plain};
ghost use Rattle.parallel_repair.specs.Listed.{listed, state_in};

// A timetable is that of one state alone.
fn one_state_has_a_timetable()
    ensures { (p : Parts) (plain : Plain) (s : State) → AreWellMade p → IsStateOf p plain s → s ≡ state_in p plain }
{}

// A state has one valid timetable alone.
fn one_timetable_is_that_of_a_state()
    ensures { (p : Parts) (plain : Plain) (s : State) → IsValid p plain → IsStateOf p plain s → plain ≡ listed s }
{}
