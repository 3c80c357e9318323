//! Every row of the tables. Each function's contract is an example, and the check proves it: no program
//! calls these functions.

ghost use Rattle.std.specs.Prelude.{◌≡◌, Some, None, codes};
ghost use Rattle.fault_tables.specs.Causes.{cause_name};
ghost use Rattle.fault_tables.specs.Faults.{fault_name};
ghost use Rattle.fault_tables.specs.Limits.{limit_name, greatest_of};

// The kinds of faults at a byte of the text.
#[allow(dead_code)]
fn faults_of_the_text_are_named()
    ensures none { fault_name 0 ≡ None }
    ensures not_utf8 { fault_name 1 ≡ Some (codes "NotUtf8") }
    ensures markup { fault_name 2 ≡ Some (codes "BadMarkup") }
    ensures end { fault_name 3 ≡ Some (codes "MismatchedEnd") }
    ensures reference { fault_name 4 ≡ Some (codes "BadReference") }
    ensures unsupported { fault_name 5 ≡ Some (codes "Unsupported") }
    ensures deep { fault_name 6 ≡ Some (codes "TooDeep") }
{}

// The kinds of faults of the shape of the elements.
#[allow(dead_code)]
fn faults_of_the_shape_are_named()
    ensures unknown { fault_name 7 ≡ Some (codes "UnknownElement") }
    ensures missing { fault_name 8 ≡ Some (codes "MissingChild") }
    ensures repeated { fault_name 9 ≡ Some (codes "RepeatedChild") }
    ensures number { fault_name 10 ≡ Some (codes "BadNumber") }
    ensures word { fault_name 11 ≡ Some (codes "BadWord") }
{}

// The kinds of faults of names and references, of sizes, and of the whole.
#[allow(dead_code)]
fn faults_of_the_whole_are_named()
    ensures twice { fault_name 12 ≡ Some (codes "DuplicateId") }
    ensures nothing { fault_name 13 ≡ Some (codes "UnknownReference") }
    ensures role { fault_name 14 ≡ Some (codes "DuplicateRole") }
    ensures event_end { fault_name 15 ≡ Some (codes "EventOffEnd") }
    ensures limit { fault_name 16 ≡ Some (codes "Limit") }
    ensures large { fault_name 17 ≡ Some (codes "TooLarge") }
    ensures solution { fault_name 18 ≡ Some (codes "NoSuchSolution") }
    ensures invalid { fault_name 19 ≡ Some (codes "Invalid") }
    ensures unused { fault_name 20 ≡ None }
    ensures instance { fault_name 21 ≡ Some (codes "NoSuchInstance") }
    ensures last { fault_name 24 ≡ Some (codes "TooManyTasks") }
    ensures beyond { fault_name 25 ≡ None }
{}

// The limits are numbered from 1.
#[allow(dead_code)]
fn limits_are_named()
    ensures none { limit_name 0 ≡ None }
    ensures times { limit_name 1 ≡ Some (codes "times") }
    ensures time_groups { limit_name 2 ≡ Some (codes "time_groups") }
    ensures resource_types { limit_name 3 ≡ Some (codes "resource_types") }
    ensures resources { limit_name 4 ≡ Some (codes "resources") }
    ensures resource_groups { limit_name 5 ≡ Some (codes "resource_groups") }
    ensures events { limit_name 6 ≡ Some (codes "events") }
    ensures event_groups { limit_name 7 ≡ Some (codes "event_groups") }
    ensures constraints { limit_name 8 ≡ Some (codes "constraints") }
    ensures duration { limit_name 9 ≡ Some (codes "duration") }
    ensures tasks { limit_name 10 ≡ Some (codes "tasks") }
    ensures cells { limit_name 11 ≡ Some (codes "cells") }
    ensures listed { limit_name 12 ≡ Some (codes "listed") }
    ensures monitors { limit_name 13 ≡ Some (codes "monitors") }
    ensures watches { limit_name 14 ≡ Some (codes "watches") }
    ensures unit { limit_name 15 ≡ Some (codes "unit") }
    ensures solutions { limit_name 16 ≡ Some (codes "solutions") }
    ensures beyond { limit_name 17 ≡ None }
{}

// The greatest unit is 2^62.
#[allow(dead_code)]
fn limits_have_greatest_values()
    ensures none { greatest_of 0 ≡ None }
    ensures times { greatest_of 1 ≡ Some 4000 }
    ensures time_groups { greatest_of 2 ≡ Some 10000 }
    ensures resource_types { greatest_of 3 ≡ Some 1000 }
    ensures resources { greatest_of 4 ≡ Some 10000 }
    ensures resource_groups { greatest_of 5 ≡ Some 10000 }
    ensures events { greatest_of 6 ≡ Some 10000 }
    ensures event_groups { greatest_of 7 ≡ Some 10000 }
    ensures constraints { greatest_of 8 ≡ Some 10000 }
    ensures duration { greatest_of 9 ≡ Some 100000 }
    ensures tasks { greatest_of 10 ≡ Some 400000 }
    ensures cells { greatest_of 11 ≡ Some 4000000 }
    ensures listed { greatest_of 12 ≡ Some 10000 }
    ensures monitors { greatest_of 13 ≡ Some 1000000 }
    ensures watches { greatest_of 14 ≡ Some 8000000 }
    ensures unit { greatest_of 15 ≡ Some 4611686018427387904 }
    ensures solutions { greatest_of 16 ≡ Some 10000 }
    ensures beyond { greatest_of 17 ≡ None }
{}

// The causes for which a solution is invalid.
#[allow(dead_code)]
fn causes_are_named()
    ensures none { cause_name 0 ≡ None }
    ensures long { cause_name 1 ≡ Some (codes "TooLong") }
    ensures split { cause_name 2 ≡ Some (codes "SplitFixed") }
    ensures time { cause_name 3 ≡ Some (codes "FixedTime") }
    ensures end { cause_name 4 ≡ Some (codes "OffEnd") }
    ensures role { cause_name 5 ≡ Some (codes "BadRole") }
    ensures resource { cause_name 6 ≡ Some (codes "FixedResource") }
    ensures sort { cause_name 7 ≡ Some (codes "WrongType") }
    ensures beyond { cause_name 8 ≡ None }
{}
