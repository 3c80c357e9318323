//! Two keepers as one.

use crate::keepers::Keeper;
use khe_base::{MonitorId, NoMemory};
use khe_instance::{Instance, Kind};
use khe_told::{Effects, Told, Turn, Waits};
use std::alloc::Global;

/// Two keepers as one, which serves the kinds of both. It is well joined where both are and no kind is
/// served by both.
#[derive(Drop)]
pub struct TwoKeepers<A, B> {
    first: A,
    second: B,
}

impl<A: Keeper + Drop, B: Keeper + Drop> Keeper for TwoKeepers<A, B> {
    ghost use Rattle.std.specs.Prelude.{◌||◌};
    ghost use Rattle.khe_told.specs.Agreement.{AreApart};

    ghost serves_kind = { λ k. A.serves_kind k || B.serves_kind k };

    ghost IsWellJoined = { A.IsWellJoined × B.IsWellJoined × AreApart A.serves_kind B.serves_kind };

    ghost Keeps = { λ k p s. A.Keeps k.first p s × B.Keeps k.second p s × AreApart A.serves_kind B.serves_kind };

    ghost Foresees = { λ k p ts. A.Foresees k.first p ts × B.Foresees k.second p ts };

    fn open(alloc: Global, inst: &Instance) -> Result<TwoKeepers<A, B>, NoMemory> {
        let first = A::open(alloc, inst)?;
        let second = B::open(alloc, inst)?;
        Ok(TwoKeepers { first, second })
    }

    fn serves(&self, kind: Kind) -> bool {
        self.first.serves(kind) || self.second.serves(kind)
    }

    fn turn<W: Waits>(&mut self, inst: &Instance, told: &Told, turn: &Turn<'_>, waits: &mut W) {
        self.first.turn(inst, told, turn, waits);
        self.second.turn(inst, told, turn, waits);
    }

    fn deviation(&self, inst: &Instance, monitor: MonitorId) -> u64 {
        if self.first.serves(inst.monitor(monitor).kind) {
            return self.first.deviation(inst, monitor);
        }
        self.second.deviation(inst, monitor)
    }

    fn foresees(&self, inst: &Instance, effects: &Effects<'_>) -> bool {
        self.first.foresees(inst, effects) && self.second.foresees(inst, effects)
    }

    fn queue_affected<W: Waits>(
        &self,
        inst: &Instance,
        told: &Told,
        effects: &Effects<'_>,
        waits: &mut W,
    ) {
        self.first.queue_affected(inst, told, effects, waits);
        self.second.queue_affected(inst, told, effects, waits);
    }

    fn deviation_after(
        &self,
        inst: &Instance,
        told: &Told,
        effects: &Effects<'_>,
        monitor: MonitorId,
    ) -> u64 {
        if self.first.serves(inst.monitor(monitor).kind) {
            return self.first.deviation_after(inst, told, effects, monitor);
        }
        self.second.deviation_after(inst, told, effects, monitor)
    }
}
