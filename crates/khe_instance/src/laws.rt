//! Laws on what timetables cost, each the contract of a function that does nothing: no program calls
//! these.
#![allow(dead_code)]

ghost use Rattle.khe_instance.specs.Laws.{DeviationsAreSmall, FinerPartsGiveTheSame, AllUnitsGiveTheSame, WatchesAreSizes};

// No monitor deviates by more than the greatest deviation that the limits allow.
fn deviations_are_small()
    ensures { DeviationsAreSmall }
{}

// Limit Workload is the same in any number of parts of one in which the shares of the events' meets
// are whole, as they are in the least common multiple of the durations.
fn the_unit_leaves_no_trace()
    ensures finer { FinerPartsGiveTheSame }
    ensures any { AllUnitsGiveTheSame }
{}

// A monitor watches one event, the events of its group or its pair, or the times that its rule lists.
fn watches_are_sizes()
    ensures { WatchesAreSizes }
{}
