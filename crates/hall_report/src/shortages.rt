//! What is short in a timetable.

ghost use Rattle.std.specs.Prelude.{IfOk};
ghost use Rattle.khe_instance.specs.declared.parts.Parts.{Parts};
ghost use Rattle.hall_report.specs.Kept.{AreOf};
ghost use Rattle.hall_report.specs.Shortages.{IsShortageOf};

use crate::demand::Demand;
use crate::demands::Demands;
use khe_base::{NoMemory, Seq};

/// What is short in a timetable: how many demands no assignment can serve, and the demands that
/// compete, which outnumber their supplies by just that number, in their order.
#[derive(Drop)]
pub struct Shortage {
    pub deficit: u32,
    pub demands: Seq<Demand>,
}

/// What is short, according to the demands that are kept.
///
/// It fails only where memory is refused. It takes memory for a mark for each demand and each supply, and time in
/// proportion to the demands.
pub fn shortage_of(demands: &Demands) -> Result<Shortage, NoMemory>
    ensures { (p : Parts) → AreOf p demands.now.told demands.now.units demands.now.picks demands.now.matching demands.now.cells demands.now.tasks demands.now.times → IfOk result (IsShortageOf p demands.now.told) }
{
    let deficit = demands.deficit();
    let hall = demands.hall()?;
    Ok(Shortage {
        deficit,
        demands: hall,
    })
}
