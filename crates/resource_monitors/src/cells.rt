//! A keeper of kinds that are measured at cells: a resource at a time.

ghost use Rattle.std.specs.Prelude.{◌≡◌, ℕ, true, length};
ghost use Rattle.khe_instance.specs.Running.{running_tasks};
ghost use Rattle.khe_told.specs.Lists.{duties_in};
ghost use Rattle.khe_told.specs.Turns.{AreWatchers, IsTurn, turned};
ghost use Rattle.khe_told.specs.Waits.{AreUnmoved, WaitOn};
ghost use Rattle.timetables.specs.Counts.{count_at};
ghost use Rattle.resource_monitors.specs.Cells.{HasRows};
ghost use Rattle.resource_monitors.specs.Posts.{AreLists};
ghost use Rattle.resource_monitors.specs.Sets.{room_for};

use crate::cell_effects::{is_short, queue_effect, value_after};
use crate::cell_values::value;
use crate::cell_waits::Audience;
use crate::kinds::CellKinds;
use crate::places::follow_all;
use crate::posts::{Post, lists_of};
use crate::regiven::Regiven;
use crate::rooms::TimeSets;
use crate::runs::run_of;
use crate::tables::CellTable;
use family_keepers::Keeper;
use khe_base::{MonitorId, NoMemory, Seq};
use khe_instance::{Instance, Kind};
use khe_told::{Effects, Told, Turn, Waits};
use std::alloc::Global;
use std::marker::PhantomData;

/// A keeper of kinds that are measured by how many tasks of a resource run at each time.
///
/// It keeps a timetable, the masks of the constraints' sets of times and for each resource the monitors at it.
/// A slot that changes turns the counts of the cells that are emptied or filled, and then queues the monitors
/// at their resources that list one of the times. Monitors that are measured by busy times alone are passed
/// over where no resource may have become busy or free. A cut is always foreseen, and any other effects where the
/// instance has at most 64 times, one word of busy times for each resource.
pub struct Cells<K> {
    table: CellTable,
    sets: TimeSets,
    lists: Vec<Seq<Post>>,
    kinds: PhantomData<K>,
}

// By hand: an exit of a caller then has one call to prove, and not a drop for each field.
impl<K> Drop for Cells<K> {
    fn drop(self) {
        let Cells {
            table: _table,
            sets: _sets,
            lists: _lists,
            kinds: _kinds,
        } = self;
    }
}

/// Turns the counts where a slot changes, and queues the monitors that list one of the times. What
/// was told is the state before. It takes time in proportion to the altered places times the times, and for each
/// monitor at what these are given time in proportion to the times at most; where the meet has no start before and
/// none after it takes constant time.
fn turn_cells<K: CellKinds, W: Waits>(
    inst: &Instance,
    told: &Told,
    turn: &Turn<'_>,
    sets: &TimeSets,
    lists: &[Seq<Post>],
    table: &mut CellTable,
    waits: &mut W,
)
    requires turns { IsTurn inst.now told.now turn.now }
    requires sets { sets.now ≡ room_for inst.now }
    requires lists { AreLists K.serves_kind (length inst.now.resources) inst.now.monitors lists.now }
    requires rows { HasRows inst.now table.old }
    requires counts { (r t : ℕ) → count_at table.old r t ≡ running_tasks (duties_in told.now) r t }
    requires monitors { W.monitors waits.old ≡ length inst.now.monitors }
    ensures rows { HasRows inst.now table.new }
    ensures counts { (r t : ℕ) → count_at table.new r t ≡ running_tasks (duties_in (turned told.now turn.now)) r t }
    ensures monitors { W.monitors waits.new ≡ W.monitors waits.old }
    ensures unmoved { W.hears ≡ true → AreUnmoved inst.now K.serves_kind (W.waits waits.new) told.now
        (turned told.now turn.now) }
    ensures kept { WaitOn (W.waits waits.old) (W.waits waits.new) }
    ensures watchers { AreWatchers inst.now turn.now (W.waits waits.old) (W.waits waits.new) }
{
    let _ = told;
    inst.facts();
    let emptied = run_of(turn.before());
    let filled = run_of(turn.after());
    if emptied.is_none() && filled.is_none() {
        return;
    }
    let before = turn.given_before();
    let later = turn.given_after();
    let places = turn.altered();
    let audience = Audience { inst, sets, lists };
    let regiven = Regiven {
        before,
        later,
        places,
    };
    follow_all::<K, W>(&audience, &regiven, emptied, filled, table, waits);
}

impl<K: CellKinds> Keeper for Cells<K> {
    ghost use Rattle.std.specs.Prelude.{◌≡◌, ◌⊎◌};
    ghost use Rattle.khe_told.specs.Effects.{AreCut};
    ghost use Rattle.resource_monitors.specs.Effects.{IsShort};
    ghost use Rattle.resource_monitors.specs.Kept.{AreKept};

    ghost serves_kind = { K.serves_kind };

    ghost IsWellJoined = { Unit {0} };

    ghost Keeps = { λ f p s. AreKept K.serves_kind p s f.table f.sets f.lists.items };

    ghost Foresees = { λ f p ts. AreCut ts ⊎ IsShort p };

    fn open(alloc: Global, inst: &Instance) -> Result<Cells<K>, NoMemory> {
        inst.facts();
        let lists = lists_of::<K>(alloc, inst)?;
        let table = CellTable::open(alloc, inst.resources(), inst.times())?;
        let sets = TimeSets::open(alloc, inst)?;
        Ok(Cells {
            table,
            sets,
            lists,
            kinds: PhantomData,
        })
    }

    fn serves(&self, kind: Kind) -> bool {
        K::serves(kind)
    }

    fn turn<W: Waits>(&mut self, inst: &Instance, told: &Told, turn: &Turn<'_>, waits: &mut W) {
        let lists = self.lists.as_slice();
        turn_cells::<K, W>(inst, told, turn, &self.sets, lists, &mut self.table, waits);
    }

    fn deviation(&self, inst: &Instance, monitor: MonitorId) -> u64 {
        inst.facts();
        let of = inst.monitor(monitor);
        value(inst, &self.sets, &self.table, of)
    }

    fn foresees(&self, inst: &Instance, effects: &Effects<'_>) -> bool {
        effects.is_cut() || is_short(inst)
    }

    fn queue_affected<W: Waits>(
        &self,
        inst: &Instance,
        told: &Told,
        effects: &Effects<'_>,
        waits: &mut W,
    ) {
        inst.facts();
        if !is_short(inst) {
            return;
        }
        if effects.is_cut() {
            return;
        }
        if !W::hears() {
            return;
        }
        let lists = self.lists.as_slice();
        let (first, second) = effects.slots();
        queue_effect::<K, W>(inst, told, effects, first, &self.table, lists, waits);
        if let Some(second) = second {
            queue_effect::<K, W>(inst, told, effects, second, &self.table, lists, waits);
        }
    }

    fn deviation_after(
        &self,
        inst: &Instance,
        told: &Told,
        effects: &Effects<'_>,
        monitor: MonitorId,
    ) -> u64 {
        inst.facts();
        if !is_short(inst) {
            return self.deviation(inst, monitor);
        }
        let of = inst.monitor(monitor);
        value_after(inst, told, effects, &self.sets, &self.table, of)
    }
}
