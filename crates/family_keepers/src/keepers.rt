//! The trait of a keeper: what follows the slots of a timetable one by one.

ghost use Rattle.std.specs.Prelude.{◌≡◌, ◌<◌, ◌≤◌, Bool, true, List, length, slice_get, Some, IfOk, IfSome};
ghost use Rattle.std.specs.Option.{option_map};
ghost use Rattle.khe_base.specs.declared.limits.TheConstants.{GREATEST_DEVIATION};
ghost use Rattle.khe_instance.specs.declared.parts.Parts.{Parts};
ghost use Rattle.khe_instance.specs.declared.rules.Kind.{Kind};
ghost use Rattle.khe_told.specs.declared.slots.Slot.{Slot};
ghost use Rattle.khe_told.specs.Slots.{no_meets};
ghost use Rattle.khe_told.specs.Agreement.{deviation_in};
ghost use Rattle.khe_told.specs.Effects.{AreTurns, turned_all};
ghost use Rattle.khe_told.specs.Turns.{AreWatchers, IsTurn, SlotTurn, turned};
ghost use Rattle.khe_told.specs.Waits.{AreUnmoved, WaitOn};

use khe_base::{MonitorId, NoMemory};
use khe_instance::{Instance, Kind};
use khe_told::{Effects, Told, Turn, Waits};
use std::alloc::Global;

/// Keeps up to date, slot by slot, what the deviations of the monitors of some kinds are computed from. Several
/// keepers share one copy of the meets and tasks, and each is lent it as it stands before a change.
pub trait Keeper {
    /// The kinds that it serves.
    ghost serves_kind: { Kind → Bool };

    /// A fact of the type alone: where it is made of several keepers, no two serve one kind.
    ghost IsWellJoined: { Type 0 };

    /// It was opened on the instance with these parts and keeps what it should of these slots.
    ghost Keeps: { Self → Parts → List Slot → Type 0 };

    /// That it can tell the deviations after effects without a change.
    ghost Foresees: { Self → Parts → List SlotTurn → Type 0 };

    /// A keeper while there are no meets. It takes all the memory that it will need; no other call takes
    /// memory.
    fn open(alloc: Global, inst: &Instance) -> Result<Self, NoMemory>
        requires { IsWellJoined }
        ensures { IfOk result (λ k. Keeps k inst.now (no_meets inst.now)) };

    /// Whether it serves the monitors of a kind. It takes constant time.
    fn serves(&self, kind: Kind) -> bool
        ensures { result ≡ serves_kind kind };

    /// Follows a meet slot of the told state that changes. It queues each monitor that it serves whose
    /// deviation may have changed, and no monitor that does not watch the change.
    fn turn<W: Waits>(&mut self, inst: &Instance, told: &Told, turn: &Turn<'_>, waits: &mut W)
        requires keeps { Keeps self.old inst.now told.now }
        requires turns { IsTurn inst.now told.now turn.now }
        requires monitors { W.monitors waits.old ≡ length inst.now.monitors }
        ensures keeps { Keeps self.new inst.now (turned told.now turn.now) }
        ensures monitors { W.monitors waits.new ≡ W.monitors waits.old }
        ensures unmoved { W.hears ≡ true → AreUnmoved inst.now serves_kind (W.waits waits.new) told.now (turned told.now turn.now) }
        ensures kept { WaitOn (W.waits waits.old) (W.waits waits.new) }
        ensures watchers { AreWatchers inst.now turn.now (W.waits waits.old) (W.waits waits.new) };

    /// The deviation, in the state of which it keeps what it should, of a monitor of a kind that it serves: at
    /// most `GREATEST_DEVIATION`.
    fn deviation(&self, inst: &Instance, monitor: MonitorId) -> u64
        requires keeps { (s : List Slot) × Keeps self.now inst.now s }
        requires known { monitor.0 < length inst.now.monitors }
        requires served { IfSome (slice_get inst.now.monitors monitor.0) (λ m. serves_kind m.kind ≡ true) }
        ensures value { (s : List Slot) → Keeps self.now inst.now s → option_map (deviation_in inst.now s) (slice_get inst.now.monitors monitor.0) ≡ Some result }
        ensures small { result ≤ GREATEST_DEVIATION };

    /// Whether `queue_affected` and `deviation_after` may be asked about these effects. It takes constant time.
    fn foresees(&self, inst: &Instance, effects: &Effects<'_>) -> bool
        ensures { result ≡ true → Foresees self.now inst.now effects.now };

    /// Queues each monitor that it serves whose deviation may be another after the effects. What is told is the state
    /// before them.
    fn queue_affected<W: Waits>(
        &self,
        inst: &Instance,
        told: &Told,
        effects: &Effects<'_>,
        waits: &mut W,
    )
        requires keeps { Keeps self.now inst.now told.now }
        requires turns { AreTurns inst.now told.now effects.now }
        requires foreseen { Foresees self.now inst.now effects.now }
        requires monitors { W.monitors waits.old ≡ length inst.now.monitors }
        ensures monitors { W.monitors waits.new ≡ W.monitors waits.old }
        ensures unmoved { W.hears ≡ true → AreUnmoved inst.now serves_kind (W.waits waits.new) told.now
            (turned_all told.now effects.now) }
        ensures kept { WaitOn (W.waits waits.old) (W.waits waits.new) };

    /// The deviation that a monitor of a kind that it serves would have after the effects: at most
    /// `GREATEST_DEVIATION`. What is told is the state before them.
    fn deviation_after(
        &self,
        inst: &Instance,
        told: &Told,
        effects: &Effects<'_>,
        monitor: MonitorId,
    ) -> u64
        requires keeps { Keeps self.now inst.now told.now }
        requires turns { AreTurns inst.now told.now effects.now }
        requires foreseen { Foresees self.now inst.now effects.now }
        requires known { monitor.0 < length inst.now.monitors }
        requires served { IfSome (slice_get inst.now.monitors monitor.0) (λ m. serves_kind m.kind ≡ true) }
        ensures value { option_map (deviation_in inst.now (turned_all told.now effects.now))
            (slice_get inst.now.monitors monitor.0) ≡ Some result }
        ensures small { result ≤ GREATEST_DEVIATION };
}
