//! A gauge of one of two sorts.

use crate::gauges::Gauge;
use khe_base::NoMemory;
use khe_instance::{Instance, Kind, Monitor};
use khe_told::{Effect, Effects, Told, Turn};
use std::alloc::Global;

/// A gauge of one of two sorts, by the monitor's kind; where both sorts serve a kind it is the first.
///
/// A keeper of such gauges has one list of monitors for each event, and follows each turn once,
/// where two keepers would each follow it.
#[derive(Drop)]
pub enum OneOf<A, B> {
    First(A),
    Second(B),
}

impl<A: Gauge + Drop, B: Gauge + Drop> Gauge for OneOf<A, B> {
    ghost use Rattle.std.specs.Prelude.{◌||◌};
    ghost use Rattle.event_monitors.specs.OneOfs.{keeps_one, value_one, exact_one, deaf_one, elsewhere_one};
    ghost use Rattle.event_monitors.specs.OneOfs.{unaffected_in, unaffected_one};

    ghost serves_kind = { λ k. A.serves_kind k || B.serves_kind k };

    ghost Keeps = { keeps_one A.Keeps B.Keeps };

    ghost value = { value_one A.value B.value };

    fn serves(kind: Kind) -> bool {
        A::serves(kind) || B::serves(kind)
    }

    ghost IsUnheard = { λ t. A.IsUnheard t × B.IsUnheard t };

    fn hears(turn: &Turn<'_>) -> bool {
        A::hears(turn) || B::hears(turn)
    }

    fn open(alloc: Global, inst: &Instance, monitor: Monitor) -> Result<OneOf<A, B>, NoMemory> {
        if A::serves(monitor.kind) {
            let first = A::open(alloc, inst, monitor)?;
            return Ok(OneOf::First(first));
        }
        let second = B::open(alloc, inst, monitor)?;
        Ok(OneOf::Second(second))
    }

    // Inlined, since the list of an event's monitors is gone through at each turn.
    #[inline(always)]
    fn turn(&mut self, inst: &Instance, monitor: Monitor, told: &Told, turn: &Turn<'_>) -> bool {
        match self {
            OneOf::First(gauge) => A::hears(turn) && gauge.turn(inst, monitor, told, turn),
            OneOf::Second(gauge) => B::hears(turn) && gauge.turn(inst, monitor, told, turn),
        }
    }

    fn value(&self, inst: &Instance, monitor: Monitor) -> u64 {
        match self {
            OneOf::First(gauge) => gauge.value(inst, monitor),
            OneOf::Second(gauge) => gauge.value(inst, monitor),
        }
    }

    ghost Foresees = { λ p m ts. A.Foresees p m ts × B.Foresees p m ts };

    fn foresees_always(effects: &Effects<'_>) -> bool {
        A::foresees_always(effects) && B::foresees_always(effects)
    }

    fn foresees(inst: &Instance, monitor: Monitor, effects: &Effects<'_>) -> bool {
        A::foresees(inst, monitor, effects) && B::foresees(inst, monitor, effects)
    }

    ghost foresees_elsewhere = { λ p m ts h. (A.foresees_elsewhere p m ts h, B.foresees_elsewhere p m ts h) };

    fn observes(effect: &Effect<'_>) -> bool {
        A::observes(effect) || B::observes(effect)
    }

    ghost IsUnaffected = { unaffected_in A.IsUnaffected B.IsUnaffected };

    #[inline(always)]
    fn is_affected(&self, inst: &Instance, monitor: Monitor, effect: &Effect<'_>) -> bool {
        match self {
            OneOf::First(gauge) => gauge.is_affected(inst, monitor, effect),
            OneOf::Second(gauge) => gauge.is_affected(inst, monitor, effect),
        }
    }

    fn observes_cuts() -> bool {
        A::observes_cuts() || B::observes_cuts()
    }

    fn observes_cut(&self) -> bool {
        match self {
            OneOf::First(gauge) => gauge.observes_cut(),
            OneOf::Second(gauge) => gauge.observes_cut(),
        }
    }

    fn value_after(
        &self,
        inst: &Instance,
        monitor: Monitor,
        told: &Told,
        effects: &Effects<'_>,
    ) -> u64 {
        match self {
            OneOf::First(gauge) => gauge.value_after(inst, monitor, told, effects),
            OneOf::Second(gauge) => gauge.value_after(inst, monitor, told, effects),
        }
    }

    ghost exact = { exact_one A.Keeps B.Keeps A.value B.value A.exact B.exact };

    ghost deaf = { deaf_one A.Keeps B.Keeps A.IsUnheard B.IsUnheard A.deaf B.deaf };

    ghost unaffected = { unaffected_one A.Keeps B.Keeps A.IsUnaffected B.IsUnaffected A.unaffected B.unaffected };

    ghost elsewhere = { elsewhere_one A.Keeps B.Keeps A.elsewhere B.elsewhere };
}
