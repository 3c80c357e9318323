//! Link Events.

use crate::foreseeing::{keep_meets, keep_named};
use crate::link_turns::{follow, members};
use crate::links::{Links, no_links};
use event_monitors::{Counted, Gauge, alters_meet, moves_meet};
use family_keepers::Keeping;
use khe_base::NoMemory;
use khe_instance::{Instance, Kind, Monitor};
use khe_told::{Effect, Effects, Told, Turn};
use std::alloc::Global;

/// The family of Link Events: a monitor's deviation is the number of times at which some of its
/// group's events run and some do not.
///
/// Each monitor keeps counts for the events of its group at all times.
pub type LinkEvents = Keeping<Counted<Links>>;

impl Gauge for Links {
    ghost use Rattle.std.specs.Prelude.{◌≡◌, true, length};
    ghost use Rattle.khe_instance.specs.KindLaws.{is_kind};
    ghost use Rattle.khe_instance.specs.WellMade.{IsMonitor};
    ghost use Rattle.khe_instance.specs.declared.rules.Kind.TheVariants as kind;
    ghost use Rattle.event_monitors.specs.Shares.{KeepsMeet};
    ghost use Rattle.set_monitors.specs.ForeseenElsewhereLaws.{foreseen_elsewhere};
    ghost use Rattle.set_monitors.specs.Foreseeing.{AreCutOrKeep, KeepsOrElsewhere};
    ghost use Rattle.set_monitors.specs.LinkCounts.{AreLinked};
    ghost use Rattle.set_monitors.specs.LinkElsewhereLaws.{group_elsewhere, group_unheard};
    ghost use Rattle.set_monitors.specs.LinkExactLaws.{linked_exact};
    ghost use Rattle.set_monitors.specs.Links.{AreOfGroup};

    ghost serves_kind = { λ k. is_kind k kind.LinkEvents };

    ghost Keeps = { λ g p m s. IsMonitor p m × (is_kind m.kind kind.LinkEvents ≡ true) × AreOfGroup p m.point s g.table (length g.running.items) × AreLinked g.table g.events g.running.items g.apart };

    ghost value = { λ g p m. g.apart };

    fn serves(kind: Kind) -> bool {
        kind == Kind::LinkEvents
    }

    ghost IsUnheard = { KeepsMeet };

    fn hears(turn: &Turn<'_>) -> bool {
        moves_meet(turn)
    }

    fn open(alloc: Global, inst: &Instance, monitor: Monitor) -> Result<Links, NoMemory> {
        inst.facts();
        let events = members(inst, monitor.point);
        no_links(alloc, events.len() as u32, inst.times())
    }

    fn turn(&mut self, inst: &Instance, monitor: Monitor, told: &Told, turn: &Turn<'_>) -> bool {
        let before = self.apart;
        follow(self, inst, monitor, told, turn);
        self.apart != before
    }

    fn value(&self, inst: &Instance, monitor: Monitor) -> u64 {
        let _ = inst;
        let _ = monitor;
        u64::from(self.apart)
    }

    ghost Foresees = { λ p m ts. AreCutOrKeep (KeepsOrElsewhere p m) ts };

    fn foresees_always(effects: &Effects<'_>) -> bool {
        keep_meets(effects)
    }

    fn foresees(inst: &Instance, monitor: Monitor, effects: &Effects<'_>) -> bool {
        keep_named(inst, monitor, effects)
    }

    ghost foresees_elsewhere = { foreseen_elsewhere };

    fn observes(effect: &Effect<'_>) -> bool {
        alters_meet(effect)
    }

    ghost IsUnaffected = { λ g p m t. ⊥ };

    fn is_affected(&self, inst: &Instance, monitor: Monitor, effect: &Effect<'_>) -> bool {
        let _ = inst;
        let _ = monitor;
        let _ = effect;
        true
    }

    fn observes_cuts() -> bool {
        false
    }

    fn observes_cut(&self) -> bool {
        false
    }

    fn value_after(
        &self,
        inst: &Instance,
        monitor: Monitor,
        told: &Told,
        effects: &Effects<'_>,
    ) -> u64 {
        let _ = told;
        let _ = effects;
        self.value(inst, monitor)
    }

    ghost exact = { λ g p m s k. linked_exact p m s g.table g.events g.running.items g.apart k.0 k.1 k.2 k.3 };

    ghost deaf = { λ g p m s t h turns kept. (kept.0, kept.1, group_unheard p m.point s t g.table (length g.running.items) h turns kept.2, kept.3) };

    ghost unaffected = { λ g p m s t h turns kept. absurd h };

    ghost elsewhere = { λ g p m s k x l same named kept. (kept.0, kept.1, group_elsewhere p m s g.table (length g.running.items) k x kept.0 l same named kept.2, kept.3) };
}
