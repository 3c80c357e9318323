//! A keeper with a gauge for each monitor.

use crate::foreseeing::foresee;
use crate::gauges::Gauge;
use crate::indexes::Index;
use crate::posts::gauges_of;
use crate::queueing::{queue_affected, queue_cut};
use crate::turns::turn_all;
use family_keepers::Keeper;
use khe_base::{MonitorId, NoMemory, beside};
use khe_instance::{Instance, Kind};
use khe_told::{Effects, Told, Turn, Waits};
use std::alloc::Global;

/// A keeper that has a gauge for each monitor that it serves. It is lent the told state.
///
/// A slot that changes turns the gauges of the monitors that name its event, and no others; where there are
/// none, or where they do not observe such a turn, it takes constant time.
pub struct Counted<G> {
    index: Index,
    gauges: Vec<G>,
}

// By hand: an exit of a caller then has one call to prove, and not a drop for each field.
impl<G: Drop> Drop for Counted<G> {
    fn drop(self) {
        let Counted {
            index: _index,
            gauges: _gauges,
        } = self;
    }
}

impl<G: Gauge + Drop> Keeper for Counted<G> {
    ghost use Rattle.std.specs.Prelude.{ℕ, ◌≡◌, Some, length, slice_get};
    ghost use Rattle.event_monitors.specs.Posts.{ArePosts, AreListed, AreKept, ArePlaces};
    ghost use Rattle.event_monitors.specs.declared.posts.Post.{Post};

    ghost serves_kind = { G.serves_kind };

    ghost IsWellJoined = { Unit {0} };

    ghost Keeps = { λ f p s. ArePosts p G.serves_kind f.index.posts × AreListed p f.index.posts f.index.lists
        × (length f.gauges.items ≡ length f.index.posts) × AreKept G.Keeps p f.index.posts f.gauges.items s
        × ArePlaces f.index.posts f.index.places.items };

    ghost Foresees = { λ f p ts. AreListed p f.index.posts f.index.lists → (k : ℕ) (a : Post)
        → slice_get f.index.posts k ≡ Some a → G.Foresees p a.monitor ts };

    fn open(alloc: Global, inst: &Instance) -> Result<Counted<G>, NoMemory> {
        let index = Index::open::<G>(alloc, inst)?;
        let gauges = gauges_of(alloc, inst, index.posts.as_slice());
        let (gauges, index) = beside(gauges, index)?;
        Ok(Counted { index, gauges })
    }

    fn serves(&self, kind: Kind) -> bool {
        G::serves(kind)
    }

    fn turn<W: Waits>(&mut self, inst: &Instance, told: &Told, turn: &Turn<'_>, waits: &mut W) {
        if !G::hears(turn) {
            return;
        }
        let list = self.index.lists.as_slice()[turn.event().0 as usize].as_slice();
        let posts = self.index.posts.as_slice();
        turn_all(inst, told, turn, posts, list, &mut self.gauges, waits);
    }

    fn deviation(&self, inst: &Instance, monitor: MonitorId) -> u64 {
        let k = self.index.place_of(monitor);
        self.gauges[k].value(inst, self.index.posts.as_slice()[k].monitor)
    }

    fn foresees(&self, inst: &Instance, effects: &Effects<'_>) -> bool {
        G::foresees_always(effects) || foresee::<G>(inst, &self.index, effects)
    }

    fn queue_affected<W: Waits>(
        &self,
        inst: &Instance,
        told: &Told,
        effects: &Effects<'_>,
        waits: &mut W,
    ) {
        let _ = told;
        let gauges = self.gauges.as_slice();
        let (first, second) = effects.slots();
        if effects.is_cut() {
            queue_cut(inst, first.event(), &self.index, gauges, waits);
            return;
        }
        queue_affected(inst, first, &self.index, gauges, waits);
        if let Some(second) = second {
            queue_affected(inst, second, &self.index, gauges, waits);
        }
    }

    fn deviation_after(
        &self,
        inst: &Instance,
        told: &Told,
        effects: &Effects<'_>,
        monitor: MonitorId,
    ) -> u64 {
        let k = self.index.place_of(monitor);
        let monitor = self.index.posts.as_slice()[k].monitor;
        self.gauges[k].value_after(inst, monitor, told, effects)
    }
}
