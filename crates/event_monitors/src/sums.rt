//! Kinds whose deviation is read from one sum.

ghost use Rattle.std.specs.Prelude.{◌≡◌, ◌≤◌, ◌+◌, Bool, true, ℕ, List};
ghost use Rattle.khe_base.specs.declared.limits.TheConstants.{GREATEST_DEVIATION, NUMBER};
ghost use Rattle.khe_instance.specs.Deviation.{deviation_at};
ghost use Rattle.khe_instance.specs.Kinds.{kind_of};
ghost use Rattle.khe_instance.specs.WellMade.{IsMonitor, IsPointOf, IsRule};
ghost use Rattle.khe_instance.specs.declared.parts.Parts.{Parts};
ghost use Rattle.khe_instance.specs.declared.points.Point.{Point};
ghost use Rattle.khe_instance.specs.declared.rules.Kind.{Kind};
ghost use Rattle.khe_instance.specs.declared.rules.Rule.{Rule};
ghost use Rattle.khe_told.specs.Lists.{meets_in, duties_in};
ghost use Rattle.khe_told.specs.declared.slots.Slot.{Slot};
ghost use Rattle.event_monitors.specs.Shares.{greatest_total, measured_by, total_at};

use crate::gauges::Gauge;
use crate::shares::{Share, is_other, total_after, turned};
use khe_base::NoMemory;
use khe_instance::{Instance, Kind, Monitor, Rule};
use khe_told::{Effect, Effects, Told, Turn};
use std::alloc::Global;
use std::marker::PhantomData;

/// A kind whose deviation is read from one sum.
pub trait Summed: Share {
    ghost serves_kind: { Kind → Bool };

    /// The deviation, by the monitor's rule and its sum.
    ghost measured: { Rule → ℕ → ℕ };

    /// Whether it is this kind.
    fn serves(kind: Kind) -> bool
        ensures { result ≡ serves_kind kind };

    /// The deviation, by a rule of the instance and a sum. It takes constant time and no memory.
    fn measured(inst: &Instance, rule: &Rule, total: u64) -> u64
        requires rule { IsRule inst.now rule.now }
        requires small { total ≤ greatest_total }
        ensures value { result ≡ measured rule.now total }
        ensures bound { result ≤ total + NUMBER };

    /// It is the deviation of the definition.
    ghost exact: { (p : Parts) (s : List Slot) (rule : Rule) (point : Point) → serves_kind (kind_of rule) ≡ true → IsPointOf p rule point
        → deviation_at p (meets_in s) (duties_in s) rule point ≡ measured rule (total_at Self.share p rule point s) };
}

/// The gauge of such a kind: the sum.
#[derive(Drop)]
pub struct Sum<S> {
    total: u64,
    of: PhantomData<S>,
}

impl<S: Summed> Gauge for Sum<S> {
    ghost use Rattle.std.specs.Prelude.{◌≡◌, ◌≤◌, true};
    ghost use Rattle.khe_instance.specs.WellMade.{IsMonitor};
    ghost use Rattle.event_monitors.specs.ShareLaws.{measured_total, total_elsewhere, total_unaffected, total_unheard};
    ghost use Rattle.event_monitors.specs.Shares.{IsSameShare, greatest_total, measured_by, total_of};

    ghost serves_kind = { S.serves_kind };

    ghost Keeps = { λ g p m s. IsMonitor p m × (S.serves_kind m.kind ≡ true) × (g.total ≡ total_of S.share p m s) × (g.total ≤ greatest_total) };

    ghost value = { λ g p m. measured_by S.measured p m g.total };

    fn serves(kind: Kind) -> bool {
        S::serves(kind)
    }

    ghost IsUnheard = { S.IsUnheard };

    fn hears(turn: &Turn<'_>) -> bool {
        S::hears(turn)
    }

    fn open(alloc: Global, inst: &Instance, monitor: Monitor) -> Result<Sum<S>, NoMemory> {
        let _ = alloc;
        let _ = inst;
        let _ = monitor;
        Ok(Sum {
            total: 0,
            of: PhantomData,
        })
    }

    fn turn(&mut self, inst: &Instance, monitor: Monitor, told: &Told, turn: &Turn<'_>) -> bool {
        let before = self.total;
        self.total = turned::<S>(before, inst, monitor, told, turn);
        self.total != before
    }

    fn value(&self, inst: &Instance, monitor: Monitor) -> u64 {
        measure::<S>(inst, monitor, self.total)
    }

    ghost Foresees = { λ p m ts. Unit {0} };

    fn foresees_always(effects: &Effects<'_>) -> bool {
        let _ = effects;
        true
    }

    fn foresees(inst: &Instance, monitor: Monitor, effects: &Effects<'_>) -> bool {
        let _ = inst;
        let _ = monitor;
        let _ = effects;
        true
    }

    ghost foresees_elsewhere = { λ p m ts h. tt };

    fn observes(effect: &Effect<'_>) -> bool {
        S::observes(effect)
    }

    ghost IsUnaffected = { λ g p m t. IsSameShare S.share p m t };

    #[inline(always)]
    fn is_affected(&self, inst: &Instance, monitor: Monitor, effect: &Effect<'_>) -> bool {
        is_other::<S>(inst, monitor, effect)
    }

    fn observes_cuts() -> bool {
        S::observes_cuts()
    }

    fn observes_cut(&self) -> bool {
        S::observes_cuts()
    }

    fn value_after(
        &self,
        inst: &Instance,
        monitor: Monitor,
        told: &Told,
        effects: &Effects<'_>,
    ) -> u64 {
        let total = total_after::<S>(self.total, inst, monitor, told, effects);
        measure::<S>(inst, monitor, total)
    }

    ghost exact = { λ g p m s k. measured_total S.share S.serves_kind S.measured S.exact p m s g.total k.0 k.1 k.2 };

    ghost deaf = { λ g p m s t h turns kept. (kept.0, kept.1, total_unheard S.share p m s t g.total turns (λ r q. S.unheard r q t h) kept.2, kept.3) };

    ghost unaffected = { λ g p m s t h turns kept. (
      kept.0,
      kept.1,
      total_unaffected S.share p m s t g.total turns h
          kept.2,
      kept.3,
    ) };

    ghost elsewhere = { λ g p m s k x l same named kept. (kept.0, kept.1, total_elsewhere S.share p m s k x g.total l same named kept.0 kept.2, kept.3) };
}

/// A monitor's deviation by its sum. It takes constant time and no memory.
fn measure<S: Summed>(inst: &Instance, monitor: Monitor, total: u64) -> u64
    requires monitor { IsMonitor inst.now monitor }
    requires small { total ≤ greatest_total }
    ensures value { result ≡ measured_by S.measured inst.now monitor total }
    ensures small { result ≤ GREATEST_DEVIATION }
{
    inst.facts();
    let rule = &inst.constraint(monitor.constraint).rule;
    S::measured(inst, rule, total)
}
