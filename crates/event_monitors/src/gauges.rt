//! The trait of a gauge: what is kept for one monitor.

ghost use Rattle.std.specs.Prelude.{◌≡◌, ◌≤◌, ◌<◌, Bool, true, false, ℕ, List, IfOk, slice_set, length};
ghost use Rattle.khe_base.specs.declared.limits.TheConstants.{GREATEST_DEVIATION};
ghost use Rattle.khe_instance.specs.WellMade.{IsMonitor};
ghost use Rattle.khe_instance.specs.declared.parts.Parts.{Parts};
ghost use Rattle.khe_instance.specs.declared.points.Monitor.{Monitor};
ghost use Rattle.khe_instance.specs.declared.rules.Kind.{Kind};
ghost use Rattle.khe_told.specs.Agreement.{deviation_in};
ghost use Rattle.khe_told.specs.Effects.{AreTurns, turned_all};
ghost use Rattle.khe_told.specs.Slots.{emptied, no_meets, slot_at};
ghost use Rattle.khe_told.specs.Turns.{IsTurn, SlotTurn, turned};
ghost use Rattle.khe_told.specs.declared.slots.Slot.{Slot};
ghost use Rattle.event_monitors.specs.Effects.{IsUncut, NameNone};
ghost use Rattle.event_monitors.specs.Posts.{names};

use khe_base::NoMemory;
use khe_instance::{Instance, Kind, Monitor};
use khe_told::{Effect, Effects, Told, Turn};
use std::alloc::Global;

/// What is kept for one monitor of some kinds, from which its deviation is read. It is turned where a meet
/// slot of an event that the monitor names changes.
pub trait Gauge {
    /// The kinds whose monitors have such a gauge.
    ghost serves_kind: { Kind → Bool };

    /// It keeps what it should of these slots, for a monitor of these parts.
    ghost Keeps: { Self → Parts → Monitor → List Slot → Type 0 };

    /// The deviation that is read from it.
    ghost value: { Self → Parts → Monitor → ℕ };

    /// Whether the monitors of a kind have such a gauge. It takes constant time.
    fn serves(kind: Kind) -> bool
        ensures { result ≡ serves_kind kind };

    /// A turn of a slot changes nothing that a gauge keeps or reads.
    ghost IsUnheard: { SlotTurn → Type 0 };

    /// Whether a turn may change what a gauge keeps or reads. It takes constant time.
    fn hears(turn: &Turn<'_>) -> bool
        ensures { result ≡ false → IsUnheard turn.now };

    /// The gauge of a monitor while there are no meets. It takes all the memory that it will need.
    fn open(alloc: Global, inst: &Instance, monitor: Monitor) -> Result<Self, NoMemory>
        requires monitor { IsMonitor inst.now monitor }
        requires served { serves_kind monitor.kind ≡ true }
        ensures { IfOk result (λ g. Keeps g inst.now monitor (no_meets inst.now)) };

    /// Follows a turn of a slot of an event that the monitor names, and answers `false` only where the
    /// deviation that is read from it is still the same. It takes no memory.
    fn turn(&mut self, inst: &Instance, monitor: Monitor, told: &Told, turn: &Turn<'_>) -> bool
        requires keeps { Keeps self.old inst.now monitor told.now }
        requires turns { IsTurn inst.now told.now turn.now }
        requires named { names inst.now turn.now.before.event.0 monitor ≡ true }
        ensures keeps { Keeps self.new inst.now monitor (turned told.now turn.now) }
        ensures same { result ≡ false → value self.new inst.now monitor ≡ value self.old inst.now monitor };

    /// The monitor's deviation. It takes no memory.
    fn value(&self, inst: &Instance, monitor: Monitor) -> u64
        requires keeps { (s : List Slot) × Keeps self.now inst.now monitor s }
        ensures value { result ≡ value self.now inst.now monitor }
        ensures small { result ≤ GREATEST_DEVIATION };

    /// That the gauge of a monitor can tell the deviation after effects without a change.
    ghost Foresees: { Parts → Monitor → List SlotTurn → Type 0 };

    /// Whether `value_after` may be asked about these effects, whatever the monitor. It takes constant time.
    fn foresees_always(effects: &Effects<'_>) -> bool
        ensures { result ≡ true → (p : Parts) (m : Monitor) → Foresees p m effects.now };

    /// Whether `value_after` may be asked about these effects for a monitor. It takes constant time.
    fn foresees(inst: &Instance, monitor: Monitor, effects: &Effects<'_>) -> bool
        ensures { result ≡ true → Foresees inst.now monitor effects.now };

    /// Whether an effect on a slot may change what a gauge keeps or reads. It takes the time of the slot's places.
    fn observes(effect: &Effect<'_>) -> bool
        ensures { result ≡ false → IsUnheard effect.now };

    /// That an effect on a slot of an event that the monitor names leaves what a gauge of it keeps.
    ghost IsUnaffected: { Self → Parts → Monitor → SlotTurn → Type 0 };

    /// Whether an effect on a slot of an event that the monitor names may change the deviation. It takes no memory.
    fn is_affected(&self, inst: &Instance, monitor: Monitor, effect: &Effect<'_>) -> bool
        requires keeps { (s : List Slot) × Keeps self.now inst.now monitor s }
        ensures { result ≡ false → IsUnaffected self.now inst.now monitor effect.now };

    /// Whether a cut may change the deviation that is read from a gauge. It takes constant time.
    fn observes_cuts() -> bool
        ensures { result ≡ false → (g : Self) → IsUncut Keeps value g };

    /// Whether a cut may change the deviation that is read from this gauge. It takes constant time.
    fn observes_cut(&self) -> bool
        ensures { result ≡ false → IsUncut Keeps value self.now };

    /// The deviation that the monitor would have after the effects. What is told is the state before them. It takes
    /// no memory.
    fn value_after(
        &self,
        inst: &Instance,
        monitor: Monitor,
        told: &Told,
        effects: &Effects<'_>,
    ) -> u64
        requires keeps { Keeps self.now inst.now monitor told.now }
        requires turns { AreTurns inst.now told.now effects.now }
        requires foreseen { Foresees inst.now monitor effects.now }
        ensures value { deviation_in inst.now (turned_all told.now effects.now) monitor ≡ result }
        ensures small { result ≤ GREATEST_DEVIATION };

    /// What is read is the definition's deviation.
    ghost exact: { (g : Self) (p : Parts) (m : Monitor) (s : List Slot) → Keeps g p m s → deviation_in p s m ≡ value g p m };

    /// A change the gauge does not observe keeps it valid.
    ghost deaf: { (g : Self) (p : Parts) (m : Monitor) (s : List Slot) (t : SlotTurn) → IsUnheard t → IsTurn p s t → Keeps g p m s → Keeps g p m (turned s t) };

    /// An effect that leaves what it keeps keeps it valid.
    ghost unaffected: { (g : Self) (p : Parts) (m : Monitor) (s : List Slot) (t : SlotTurn) → IsUnaffected g p m t →
        IsTurn p s t → Keeps g p m s → Keeps g p m (turned s t) };

    /// Effects on slots of events that the monitor does not name are foreseen.
    ghost foresees_elsewhere: { (p : Parts) (m : Monitor) (ts : List SlotTurn) → NameNone p m ts → Foresees p m ts };

    /// A change of a slot of an event that the monitor does not name keeps it valid.
    ghost elsewhere: { (g : Self) (p : Parts) (m : Monitor) (s : List Slot) (k : ℕ) (x : Slot) → k < length s → emptied x ≡ emptied (slot_at s k)
        → names p (slot_at s k).event.0 m ≡ false → Keeps g p m s → Keeps g p m (slice_set s k x) };
}
