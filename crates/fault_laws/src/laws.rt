//! Laws on readings and outcomes, each the contract of a function that does nothing: no program calls these.
#![allow(dead_code)]

ghost use Rattle.fault_laws.specs.Told.{FaultsAreTold, OutcomesAreByRows, ReadingsAreByRows, TextsAreByRows};

// What bytes lead to is the same by the rows of faults and the grammar of texts as by the machines that read them.
fn each_reading_is_by_rows()
    ensures { ReadingsAreByRows }
{}

// What comes of an archive comes of such a reading of its bytes.
fn each_outcome_is_by_rows()
    ensures { OutcomesAreByRows }
{}

// Where the bytes have a least fault by the rows, each command on them ends with status 3 and the line that tells its
// kind and its place.
fn the_least_fault_is_told()
    ensures { FaultsAreTold }
{}

// And where they spell no tree, it is the line of their least fault that stands there.
fn what_is_told_of_no_text_is_the_least_fault()
    ensures { TextsAreByRows }
{}
