//! Split Events.

ghost use Rattle.std.specs.Prelude.{◌≡◌, ◌≤◌, ◌+◌};
ghost use Rattle.khe_base.specs.declared.limits.TheConstants.{GREATEST_DEVIATION, NUMBER};
ghost use Rattle.khe_instance.specs.WellMade.{IsMonitor, IsRule};
ghost use Rattle.event_monitors.specs.Shares.{greatest_total};
ghost use Rattle.event_monitors.specs.SplitEvents.{split_by, split_value};

use crate::counted::Counted;
use crate::effects::alters_duration;
use crate::gauges::Gauge;
use crate::shares::{Share, resizes, total_after, turned};
use family_keepers::Keeping;
use khe_base::{NoMemory, ResourceId, count_out};
use khe_instance::{Instance, Kind, Monitor, Rule};
use khe_told::{Effect, Effects, Span, Told, Turn};
use std::alloc::Global;

/// The family of Split Events: a monitor's deviation is how many of its event's meets are too short
/// or too long, and by how many the event has too few or too many.
pub type SplitEvents = Keeping<Counted<Split>>;

/// The gauge of Split Events: two sums over the meets of the event.
#[derive(Drop)]
pub struct Split {
    /// How many are too short or too long.
    unfit: u64,
    /// How many there are.
    meets: u64,
}

impl Gauge for Split {
    ghost use Rattle.std.specs.Prelude.{◌≡◌, ◌≤◌, true};
    ghost use Rattle.khe_instance.specs.KindLaws.{is_kind};
    ghost use Rattle.khe_instance.specs.WellMade.{IsMonitor};
    ghost use Rattle.khe_instance.specs.declared.rules.Kind.TheVariants as kind;
    ghost use Rattle.event_monitors.specs.ShareLaws.{total_elsewhere, total_unheard};
    ghost use Rattle.event_monitors.specs.Shares.{KeepsDuration, greatest_total, total_of};
    ghost use Rattle.event_monitors.specs.SplitEvents.{meets, meets_unheard, split_exact, split_value, unfit, unfit_unheard};

    ghost serves_kind = { λ k. is_kind k kind.SplitEvents };

    ghost Keeps = { λ g p m s. IsMonitor p m × (is_kind m.kind kind.SplitEvents ≡ true) × (g.unfit ≡ total_of unfit p m s) × (g.unfit ≤ greatest_total)
        × (g.meets ≡ total_of meets p m s) × (g.meets ≤ greatest_total) };

    ghost value = { λ g p m. split_value p m g.unfit g.meets };

    fn serves(kind: Kind) -> bool {
        kind == Kind::SplitEvents
    }

    ghost IsUnheard = { KeepsDuration };

    fn hears(turn: &Turn<'_>) -> bool {
        resizes(turn)
    }

    fn open(alloc: Global, inst: &Instance, monitor: Monitor) -> Result<Split, NoMemory> {
        let _ = alloc;
        let _ = inst;
        let _ = monitor;
        Ok(Split { unfit: 0, meets: 0 })
    }

    fn turn(&mut self, inst: &Instance, monitor: Monitor, told: &Told, turn: &Turn<'_>) -> bool {
        self.unfit = turned::<Unfit>(self.unfit, inst, monitor, told, turn);
        self.meets = turned::<Meets>(self.meets, inst, monitor, told, turn);
        true
    }

    fn value(&self, inst: &Instance, monitor: Monitor) -> u64 {
        measure_both(inst, monitor, self.unfit, self.meets)
    }

    ghost Foresees = { λ p m ts. Unit {0} };

    fn foresees_always(effects: &Effects<'_>) -> bool {
        let _ = effects;
        true
    }

    fn foresees(inst: &Instance, monitor: Monitor, effects: &Effects<'_>) -> bool {
        let _ = inst;
        let _ = monitor;
        let _ = effects;
        true
    }

    ghost foresees_elsewhere = { λ p m ts h. tt };

    fn observes(effect: &Effect<'_>) -> bool {
        alters_duration(effect)
    }

    ghost IsUnaffected = { λ g p m t. ⊥ };

    fn is_affected(&self, inst: &Instance, monitor: Monitor, effect: &Effect<'_>) -> bool {
        let _ = inst;
        let _ = monitor;
        let _ = effect;
        true
    }

    fn observes_cuts() -> bool {
        true
    }

    fn observes_cut(&self) -> bool {
        true
    }

    fn value_after(
        &self,
        inst: &Instance,
        monitor: Monitor,
        told: &Told,
        effects: &Effects<'_>,
    ) -> u64 {
        let unfit = total_after::<Unfit>(self.unfit, inst, monitor, told, effects);
        let meets = total_after::<Meets>(self.meets, inst, monitor, told, effects);
        measure_both(inst, monitor, unfit, meets)
    }

    ghost exact = { λ g p m s k. split_exact p m s g.unfit g.meets k.0 k.1 k.2 k.4 };

    ghost deaf = { λ g p m s t h turns kept. (
      kept.0,
      kept.1,
      total_unheard unfit p m s t g.unfit turns (λ r q. unfit_unheard r q t h) kept.2,
      kept.3,
      total_unheard meets p m s t g.meets turns (λ r q. meets_unheard r q t h) kept.4,
      kept.5,
    ) };

    ghost unaffected = { λ g p m s t h turns kept. absurd h };

    ghost elsewhere = { λ g p m s k x l same named kept. (
      kept.0,
      kept.1,
      total_elsewhere unfit p m s k x g.unfit l same named kept.0 kept.2,
      kept.3,
      total_elsewhere meets p m s k x g.meets l same named kept.0 kept.4,
      kept.5,
    ) };
}

// A monitor's deviation by both sums.
fn measure_both(inst: &Instance, monitor: Monitor, unfit: u64, meets: u64) -> u64
    requires monitor { IsMonitor inst.now monitor }
    requires unfit { unfit ≤ greatest_total }
    requires meets { meets ≤ greatest_total }
    ensures value { result ≡ split_value inst.now monitor unfit meets }
    ensures small { result ≤ GREATEST_DEVIATION }
{
    inst.facts();
    let rule = &inst.constraint(monitor.constraint).rule;
    measure(inst, rule, unfit, meets)
}

// The deviation, by a rule of the instance and both sums.
fn measure(inst: &Instance, rule: &Rule, unfit: u64, meets: u64) -> u64
    requires rule { IsRule inst.now rule.now }
    requires unfit { unfit ≤ greatest_total }
    requires meets { meets ≤ greatest_total }
    ensures value { result ≡ split_by rule.now unfit meets }
    ensures bound { result ≤ unfit + meets + NUMBER }
{
    let _ = inst;
    match rule {
        Rule::SplitEvents {
            min_amount,
            max_amount,
            ..
        } => unfit + count_out(meets, *min_amount, *max_amount),
        _ => 0,
    }
}

/// A slot counts for 1 where its meet is too short or too long for the rule.
#[derive(Drop)]
pub struct Unfit;

impl Share for Unfit {
    ghost use Rattle.event_monitors.specs.Shares.{KeepsDuration};
    ghost use Rattle.event_monitors.specs.SplitEvents.{unfit, unfit_bounded, unfit_unheard};

    ghost share = { unfit };

    ghost IsUnheard = { KeepsDuration };

    fn hears(turn: &Turn<'_>) -> bool {
        resizes(turn)
    }

    fn observes(effect: &Effect<'_>) -> bool {
        alters_duration(effect)
    }

    fn observes_cuts() -> bool {
        true
    }

    ghost unheard = { unfit_unheard };

    fn share(rule: &Rule, span: Option<Span>, given: Option<Option<ResourceId>>) -> u64 {
        let _ = given;
        match (rule, span) {
            (
                Rule::SplitEvents {
                    min_duration,
                    max_duration,
                    ..
                },
                Some(span),
            ) => u64::from(span.duration < *min_duration || *max_duration < span.duration),
            _ => 0,
        }
    }

    ghost bounded = { unfit_bounded };
}

/// A slot counts for 1 where it has a meet.
#[derive(Drop)]
pub struct Meets;

impl Share for Meets {
    ghost use Rattle.event_monitors.specs.Shares.{KeepsDuration};
    ghost use Rattle.event_monitors.specs.SplitEvents.{meets, meets_bounded, meets_unheard};

    ghost share = { meets };

    ghost IsUnheard = { KeepsDuration };

    fn hears(turn: &Turn<'_>) -> bool {
        resizes(turn)
    }

    fn observes(effect: &Effect<'_>) -> bool {
        alters_duration(effect)
    }

    fn observes_cuts() -> bool {
        true
    }

    ghost unheard = { meets_unheard };

    fn share(rule: &Rule, span: Option<Span>, given: Option<Option<ResourceId>>) -> u64 {
        let _ = rule;
        let _ = given;
        match span {
            Some(_) => 1,
            None => 0,
        }
    }

    ghost bounded = { meets_bounded };
}
