//! Laws on the reading of words, each the contract of a function that does nothing: no program calls these.
#![allow(dead_code)]

ghost use Rattle.word_laws.specs.Outcomes.{OutcomesAreByTable};

// The outcome of words is that of what they ask for by the table, or the line for words that ask for nothing.
fn each_outcome_is_that_of_a_reading()
    ensures { OutcomesAreByTable }
{}
