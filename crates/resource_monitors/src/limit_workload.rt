//! Limit Workload.

use crate::load_effects::{queue_effect, value_after};
use crate::load_posts::lists_of;
use crate::load_turns::turn_loads;
use crate::load_values::value;
use crate::loads::no_loads;
use crate::posts::Post;
use family_keepers::{Keeper, Keeping};
use khe_base::{MonitorId, NoMemory, Seq};
use khe_instance::{Instance, Kind};
use khe_told::{Effects, Told, Turn, Waits};
use std::alloc::Global;

/// The family of Limit Workload: how far the workload of a resource lies outside the bounds.
pub type LimitWorkload = Keeping<Workloads>;

/// The keeper of Limit Workload.
///
/// It keeps the workload of each resource in whole parts of one over the instance's unit, so that a deviation
/// is rounded once. Only a turn that gives a place something else, or another duration, alters a workload, and
/// then its monitors are queued; every other turn takes constant time.
#[derive(Drop)]
pub struct Workloads {
    loads: Vec<u128>,
    lists: Vec<Seq<Post>>,
}

impl Keeper for Workloads {
    ghost use Rattle.resource_monitors.specs.Loads.{AreKept, is_on_workload};

    ghost serves_kind = { is_on_workload };

    ghost IsWellJoined = { Unit {0} };

    ghost Keeps = { λ f p s. AreKept p s f.loads.items f.lists.items };

    ghost Foresees = { λ f p ts. Unit {0} };

    fn open(alloc: Global, inst: &Instance) -> Result<Workloads, NoMemory> {
        let lists = lists_of(alloc, inst)?;
        let loads = no_loads(alloc, inst.resources())?;
        Ok(Workloads { loads, lists })
    }

    fn serves(&self, kind: Kind) -> bool {
        kind == Kind::LimitWorkload
    }

    fn turn<W: Waits>(&mut self, inst: &Instance, told: &Told, turn: &Turn<'_>, waits: &mut W) {
        inst.facts();
        if !turn.gives_other() && !turn.resizes() {
            return;
        }
        let lists = self.lists.as_slice();
        turn_loads(inst, told, turn, lists, &mut self.loads, waits);
    }

    fn deviation(&self, inst: &Instance, monitor: MonitorId) -> u64 {
        inst.facts();
        let of = inst.monitor(monitor);
        value(inst, self.loads.as_slice(), of)
    }

    fn foresees(&self, inst: &Instance, effects: &Effects<'_>) -> bool {
        let _ = inst;
        let _ = effects;
        true
    }

    fn queue_affected<W: Waits>(
        &self,
        inst: &Instance,
        told: &Told,
        effects: &Effects<'_>,
        waits: &mut W,
    ) {
        inst.facts();
        let _ = told;
        if effects.is_cut() {
            return;
        }
        let lists = self.lists.as_slice();
        let (first, second) = effects.slots();
        queue_effect(inst, lists, first, waits);
        if let Some(second) = second {
            queue_effect(inst, lists, second, waits);
        }
    }

    fn deviation_after(
        &self,
        inst: &Instance,
        told: &Told,
        effects: &Effects<'_>,
        monitor: MonitorId,
    ) -> u64 {
        inst.facts();
        let of = inst.monitor(monitor);
        value_after(inst, told, effects, self.loads.as_slice(), of)
    }
}
