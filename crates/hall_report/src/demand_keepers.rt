//! The trait of families that can say what is short.

ghost use Rattle.std.specs.Prelude.{◌≡◌, IfOk};
ghost use Rattle.khe_instance.specs.declared.parts.Parts.{Parts};
ghost use Rattle.hall_report.specs.Shortages.{AreCompeting, deficit_of};

use crate::demand::Demand;
use khe_base::{NoMemory, Seq};
use khe_told::Family;

/// Families that keep the demands of the told state.
pub trait DemandKeeper: Family {
    /// How many demands no assignment can serve: the greatest excess of a set of demands over the
    /// supplies that they may have. It takes constant time and no memory.
    fn deficit(&self) -> u32
        ensures { (p : Parts) → Self.IsOf self.now p → result ≡ deficit_of p (Self.told self.now) };

    /// The demands that compete: those in every set whose excess is the deficit, in their order.
    ///
    /// It fails only where memory is refused. It takes memory for a mark for each demand and each supply, and time in
    /// proportion to the demands.
    fn hall(&self) -> Result<Seq<Demand>, NoMemory>
        ensures { (p : Parts) → Self.IsOf self.now p → IfOk result (AreCompeting p (Self.told self.now)) };
}
