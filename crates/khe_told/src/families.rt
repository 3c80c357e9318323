//! The trait of a family: what keeps the deviations of the monitors of some kinds.

ghost use Rattle.std.specs.Prelude.{◌≡◌, ◌<◌, ◌≤◌, Bool, true, List, length, slice_get, Some, IfOk, IfSome};
ghost use Rattle.std.specs.Option.{option_map};
ghost use Rattle.khe_base.specs.declared.limits.TheConstants.{GREATEST_DEVIATION};
ghost use Rattle.khe_instance.specs.declared.parts.Parts.{Parts};
ghost use Rattle.khe_instance.specs.declared.rules.Kind.{Kind};
ghost use Rattle.khe_told.specs.declared.slots.Slot.{Slot};
ghost use Rattle.khe_told.specs.Slots.{no_meets};
ghost use Rattle.khe_told.specs.Changes.{after_all};
ghost use Rattle.khe_told.specs.Effects.{AreTurns, turned_all};
ghost use Rattle.khe_told.specs.Fits.{AllFit};
ghost use Rattle.khe_told.specs.Agreement.{deviation_in};
ghost use Rattle.khe_told.specs.Waits.{AreUnmoved, WaitOn};
ghost use Rattle.khe_told.specs.Turns.{SlotTurn};
ghost use Rattle.khe_told.specs.Watchers.{AreWatchersOf};

use crate::changes::Change;
use crate::effects::Effects;
use crate::waiting::Waits;
use khe_base::{MonitorId, NoMemory};
use khe_instance::{Instance, Kind};
use std::alloc::Global;

/// Keeps up to date, edit by edit, what the deviations of the monitors of some kinds are computed from.
///
/// Changes and then their inverses leave the told state as it was, since `turn_all` gives `after_all`.
pub trait Family {
    /// The kinds that it serves.
    ghost serves_kind: { Kind → Bool };

    /// A fact of the type alone: where it is made of several families, no two serve one kind.
    ghost IsWellJoined: { Type 0 };

    /// The meets and tasks of which it was notified.
    ghost told: { Self → List Slot };

    /// It was opened on the instance with these parts.
    ghost IsOf: { Self → Parts → Type 0 };

    /// That it can tell the deviations after effects without a change.
    ghost Foresees: { Self → Parts → List SlotTurn → Type 0 };

    /// A family without meets. It takes all the memory that it will need; no other call takes memory.
    fn open(alloc: Global, inst: &Instance) -> Result<Self, NoMemory>
        requires { IsWellJoined }
        ensures of { IfOk result (λ f. IsOf f inst.now) }
        ensures told { IfOk result (λ f. told f ≡ no_meets inst.now) };

    /// Whether it serves the monitors of a kind. It takes constant time.
    fn serves(&self, kind: Kind) -> bool
        ensures { result ≡ serves_kind kind };

    /// Follows changes that fit one after the other, as an edit makes them, and measures nothing. It queues
    /// each monitor that it serves whose deviation may have changed, and no monitor that watches none of the
    /// changes. It takes no memory, and time linear in the changes and in what is kept for the monitors that
    /// watch them.
    fn turn_all<W: Waits>(&mut self, inst: &Instance, changes: &[Change], waits: &mut W)
        requires of { IsOf self.old inst.now }
        requires fit { AllFit inst.now (told self.old) changes.now }
        requires monitors { W.monitors waits.old ≡ length inst.now.monitors }
        ensures of { IsOf self.new inst.now }
        ensures told { told self.new ≡ after_all (told self.old) changes.now }
        ensures monitors { W.monitors waits.new ≡ W.monitors waits.old }
        ensures unmoved { W.hears ≡ true → AreUnmoved inst.now serves_kind (W.waits waits.new) (told self.old) (told self.new) }
        ensures kept { WaitOn (W.waits waits.old) (W.waits waits.new) }
        ensures watchers { AreWatchersOf inst.now (told self.old) changes.now (W.waits waits.old) (W.waits waits.new) };

    /// The deviation, in the told state, of a monitor of a kind that it serves: at most
    /// `GREATEST_DEVIATION`.
    fn deviation(&self, inst: &Instance, monitor: MonitorId) -> u64
        requires of { IsOf self.now inst.now }
        requires known { monitor.0 < length inst.now.monitors }
        requires served { IfSome (slice_get inst.now.monitors monitor.0) (λ m. serves_kind m.kind ≡ true) }
        ensures value { option_map (deviation_in inst.now (told self.now)) (slice_get inst.now.monitors monitor.0) ≡ Some result }
        ensures small { result ≤ GREATEST_DEVIATION };

    /// Whether `queue_affected` and `deviation_after` may be asked about these effects. Where it is not known, the
    /// changes have to be made and taken back. It takes constant time.
    fn foresees(&self, inst: &Instance, effects: &Effects<'_>) -> bool
        ensures { result ≡ true → Foresees self.now inst.now effects.now };

    /// Queues each monitor that it serves whose deviation may be another after the effects. Nothing is changed. It
    /// takes no memory, and time linear in the monitors that watch the slots.
    fn queue_affected<W: Waits>(&self, inst: &Instance, effects: &Effects<'_>, waits: &mut W)
        requires of { IsOf self.now inst.now }
        requires turns { AreTurns inst.now (told self.now) effects.now }
        requires foreseen { Foresees self.now inst.now effects.now }
        requires monitors { W.monitors waits.old ≡ length inst.now.monitors }
        ensures monitors { W.monitors waits.new ≡ W.monitors waits.old }
        ensures unmoved { W.hears ≡ true → AreUnmoved inst.now serves_kind (W.waits waits.new) (told self.now)
            (turned_all (told self.now) effects.now) }
        ensures kept { WaitOn (W.waits waits.old) (W.waits waits.new) };

    /// The deviation that a monitor of a kind that it serves would have after the effects: at most
    /// `GREATEST_DEVIATION`. Nothing is changed, and it takes no memory.
    fn deviation_after(&self, inst: &Instance, effects: &Effects<'_>, monitor: MonitorId) -> u64
        requires of { IsOf self.now inst.now }
        requires turns { AreTurns inst.now (told self.now) effects.now }
        requires foreseen { Foresees self.now inst.now effects.now }
        requires known { monitor.0 < length inst.now.monitors }
        requires served { IfSome (slice_get inst.now.monitors monitor.0) (λ m. serves_kind m.kind ≡ true) }
        ensures value { option_map (deviation_in inst.now (turned_all (told self.now) effects.now))
            (slice_get inst.now.monitors monitor.0) ≡ Some result }
        ensures small { result ≤ GREATEST_DEVIATION };
}
