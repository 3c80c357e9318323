//! The families of all sixteen kinds of monitors as one, as the engine has them.
#![tactic(auto)]

use event_monitors::{
    Counted, Misfilled, Misplaced, OfDuration, OneOf, Split, Sum, Unfilled, Unplaced,
};
use family_keepers::{Keeper, Keeping, TwoKeepers};
use khe_base::{MonitorId, NoMemory};
use khe_instance::{Instance, Kind};
use khe_told::{Effects, Family, Told, Turn, Waits};
use resource_monitors::ResourceKeepers;
use set_monitors::{Holders, Links, OrderEdges, Starts};
use std::alloc::Global;

/// The kinds whose deviations only a change of a duration may change.
type OfDurations = Counted<OneOf<Split, Sum<OfDuration>>>;

/// The kinds whose deviations only a change of a task or of a duration may change.
type OfTasks = Counted<OneOf<Holders, OneOf<Sum<Unfilled>, Sum<Misfilled>>>>;

/// The kinds whose deviations only a change of a meet may change: of its start, or of its duration.
type OfMeets = Counted<OneOf<OneOf<Starts, Links>, OneOf<Sum<Unplaced>, Sum<Misplaced>>>>;

/// The kinds at events, at places and groups of them, and at pairs. Kinds that observe the same changes share
/// one list of an event's monitors, which is looked up once for each change.
type OfEvents = TwoKeepers<OfMeets, TwoKeepers<OfTasks, TwoKeepers<OfDurations, OrderEdges>>>;

/// The keepers of all kinds.
type AllKeepers = TwoKeepers<OfEvents, ResourceKeepers>;

/// The keepers of all kinds as one keeper. It is a struct rather than a type alias, so that code which names
/// the families names one type, and its check does not go through the sixteen.
pub struct SixteenKeepers {
    all: AllKeepers,
}

// By hand: an exit of a caller then has one call to prove, and not a drop for each field.
impl Drop for SixteenKeepers {
    fn drop(self) {
        let SixteenKeepers { all: _all } = self;
    }
}

impl Keeper for SixteenKeepers {
    ghost serves_kind = { ⟦<AllKeepers as Keeper>⟧.serves_kind };

    ghost IsWellJoined = { ⟦<AllKeepers as Keeper>⟧.IsWellJoined };

    ghost Keeps = { λ k p s. ⟦<AllKeepers as Keeper>⟧.Keeps k.all p s };

    ghost Foresees = { λ k p ts. ⟦<AllKeepers as Keeper>⟧.Foresees k.all p ts };

    fn open(alloc: Global, inst: &Instance) -> Result<SixteenKeepers, NoMemory> {
        let all = AllKeepers::open(alloc, inst)?;
        Ok(SixteenKeepers { all })
    }

    fn serves(&self, kind: Kind) -> bool {
        self.all.serves(kind)
    }

    fn turn<W: Waits>(&mut self, inst: &Instance, told: &Told, turn: &Turn<'_>, waits: &mut W) {
        self.all.turn(inst, told, turn, waits);
    }

    fn deviation(&self, inst: &Instance, monitor: MonitorId) -> u64 {
        self.all.deviation(inst, monitor)
    }

    fn foresees(&self, inst: &Instance, effects: &Effects<'_>) -> bool {
        self.all.foresees(inst, effects)
    }

    fn queue_affected<W: Waits>(
        &self,
        inst: &Instance,
        told: &Told,
        effects: &Effects<'_>,
        waits: &mut W,
    ) {
        self.all.queue_affected(inst, told, effects, waits);
    }

    fn deviation_after(
        &self,
        inst: &Instance,
        told: &Told,
        effects: &Effects<'_>,
        monitor: MonitorId,
    ) -> u64 {
        self.all.deviation_after(inst, told, effects, monitor)
    }
}

/// All of them, over one told state. They are well joined.
pub type Families = Keeping<SixteenKeepers>;

/// Opens them: that they are well joined is what this call requires. No program calls it.
#[allow(dead_code)]
fn open_all(alloc: Global, inst: &Instance) -> Result<Families, NoMemory> {
    Families::open(alloc, inst)
}
