//! Families that keep the demands beside them.

use crate::demand::Demand;
use crate::demand_keepers::DemandKeeper;
use crate::demands::Demands;
use crate::shortages::shortage_of;
use khe_base::{MonitorId, NoMemory, Seq, both};
use khe_instance::{Instance, Kind};
use khe_told::{Change, Effects, Family, Waits};
use std::alloc::Global;

/// Families that keep the demands of the timetable beside them: each change is told to both. They
/// serve the kinds of the families.
pub struct WithDemands<F> {
    families: F,
    demands: Demands,
}

// By hand: an exit of a caller then has one call to prove, and not a drop for each field.
impl<F: Drop> Drop for WithDemands<F> {
    fn drop(self) {
        let WithDemands {
            families: _families,
            demands: _demands,
        } = self;
    }
}

impl<F: Family + Drop> Family for WithDemands<F> {
    ghost use Rattle.std.specs.Prelude.{◌≡◌};
    ghost use Rattle.hall_report.specs.Kept.{AreOf};

    ghost serves_kind = { F.serves_kind };

    ghost IsWellJoined = { F.IsWellJoined };

    ghost told = { λ x. F.told x.families };

    ghost IsOf = { λ x p. F.IsOf x.families p × (x.demands.told ≡ F.told x.families)
        × AreOf p x.demands.told x.demands.units x.demands.picks x.demands.matching x.demands.cells x.demands.tasks x.demands.times };

    ghost Foresees = { λ x p ts. F.Foresees x.families p ts };

    fn open(alloc: Global, inst: &Instance) -> Result<WithDemands<F>, NoMemory> {
        let (families, demands) = both(F::open(alloc, inst), Demands::open(alloc, inst))?;
        Ok(WithDemands { families, demands })
    }

    fn serves(&self, kind: Kind) -> bool {
        self.families.serves(kind)
    }

    fn turn_all<W: Waits>(&mut self, inst: &Instance, changes: &[Change], waits: &mut W) {
        self.demands.tell_all(inst, changes);
        self.families.turn_all(inst, changes, waits);
    }

    fn deviation(&self, inst: &Instance, monitor: MonitorId) -> u64 {
        self.families.deviation(inst, monitor)
    }

    fn foresees(&self, inst: &Instance, effects: &Effects<'_>) -> bool {
        self.families.foresees(inst, effects)
    }

    fn queue_affected<W: Waits>(&self, inst: &Instance, effects: &Effects<'_>, waits: &mut W) {
        self.families.queue_affected(inst, effects, waits);
    }

    fn deviation_after(&self, inst: &Instance, effects: &Effects<'_>, monitor: MonitorId) -> u64 {
        self.families.deviation_after(inst, effects, monitor)
    }
}

impl<F: Family + Drop> DemandKeeper for WithDemands<F> {
    fn deficit(&self) -> u32 {
        self.demands.deficit()
    }

    fn hall(&self) -> Result<Seq<Demand>, NoMemory> {
        let shortage = shortage_of(&self.demands)?;
        Ok(shortage.demands)
    }
}
