//! What is short in the present state.

ghost use Rattle.std.specs.Prelude.{◌≡◌, ◌<◌, IfOk};
ghost use Rattle.hall_report.specs.Kept.{AreOf};
ghost use Rattle.hall_report.specs.Shortages.{AreCompeting, IsShortageOf, deficit_of};

use crate::engine::Engine;
use crate::telling::tell_all;
use hall_report::{Demand, DemandKeeper, Demands, Shortage, shortage_of};
use khe_base::{NoMemory, Seq};
use khe_instance::Instance;
use khe_solution::Solution;
use khe_told::{Blank, Family, Steps};
use std::alloc::Global;
use std::marker::Brand;
use std::sync::ledger::Ledger;

impl<'i, F: DemandKeeper> Engine<'i, F> {
    /// How many demands no assignment can serve, in constant time and without memory.
    pub fn deficit(&self) -> u32
        ensures { result ≡ deficit_of self.now.parts self.now.state.slots }
    {
        self.listeners.families.deficit()
    }

    /// The demands that compete: those in every set whose excess over its supplies is the deficit, in
    /// their order.
    ///
    /// It fails only where memory is refused. It takes memory for a mark for each demand, and time in
    /// proportion to the demands.
    pub fn hall(&self) -> Result<Seq<Demand>, NoMemory>
        ensures { IfOk result (AreCompeting self.now.parts self.now.state.slots) }
    {
        self.listeners.families.hall()
    }
}

impl<'i, F: Family> Engine<'i, F> {
    /// What is short, for families that keep no demands: the demands are opened and told of the whole
    /// timetable.
    ///
    /// It fails only where memory is refused. It takes what opening demands takes, and time for a change of the
    /// matching for each meet, start and assignment.
    pub fn shortage(&self, alloc: Global) -> Result<Shortage, NoMemory>
        ensures { IfOk result (IsShortageOf self.now.parts self.now.state.slots) }
    {
        shortage_in(alloc, self.inst, &self.solution)
    }
}

/// What is short in a timetable.
fn shortage_in(
    alloc: Global,
    inst: &Instance,
    solution: &Solution<'_>,
) -> Result<Shortage, NoMemory>
    requires parts { solution.now.parts ≡ inst.now }
    ensures { IfOk result (IsShortageOf inst.now solution.now.slots) }
{
    let demands = demands_of::<Brand>(alloc, inst, solution, Blank::new(1))?;
    shortage_of(&demands)
}

/// The demands of a timetable.
fn demands_of<L: Ledger>(
    alloc: Global,
    inst: &Instance,
    solution: &Solution<'_>,
    blank: Blank,
) -> Result<Demands, NoMemory>
    requires name { blank.name ≡ L.name }
    requires shares { blank.parts ≡ L.parts }
    requires some { 0 < blank.parts }
    requires parts { solution.now.parts ≡ inst.now }
    ensures of { IfOk result (λ d. AreOf inst.now d.told d.units d.picks d.matching d.cells d.tasks d.times) }
    ensures told { IfOk result (λ d. d.told ≡ solution.now.slots) }
{
    let mut demands = Demands::open(alloc, inst)?;
    let mut steps = Steps::<L>::new(blank);
    tell_all(inst, solution, &mut demands, &mut steps);
    Ok(demands)
}
