//! What is true of every engine.

ghost use Rattle.khe_engine.specs.Small.{CostsLittle};
ghost use Rattle.khe_instance.specs.WellMade.{AreWellMade};
ghost use Rattle.khe_told.specs.Valid.{AreValid};

use crate::engine::Engine;
use khe_told::Family;

impl<'i, F: Family> Engine<'i, F> {
    /// What is true of every engine: its instance is well made, its slots are those of a timetable that stands whole,
    /// and no deviation, no cost, no total and no group's total is above the greatest that the limits allow. It takes
    /// constant time and no memory.
    #[tactic(auto, using(crate::proofs::SmallLaws::engine_little))]
    pub fn facts(&self)
        ensures made { AreWellMade self.now.parts }
        ensures valid { AreValid self.now.parts self.now.state.slots }
        ensures little { CostsLittle self.now.parts self.now.state }
    {
        self.inst.facts();
        self.solution.facts();
        self.listeners.graph.facts();
    }
}
