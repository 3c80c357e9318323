//! Spread Events.

ghost use Rattle.std.specs.Prelude.{◌≡◌, ◌≤◌, ◌+◌, ◌*◌, ℕ, All, Bool, true, List, length};
ghost use Rattle.khe_base.specs.Bounds.{count_outside};
ghost use Rattle.khe_base.specs.declared.limits.TheConstants.{DURATION, GREATEST_DEVIATION, LISTED, NUMBER};
ghost use Rattle.khe_instance.specs.EventDeviation.{starts_in};
ghost use Rattle.khe_instance.specs.WellMade.{IsMonitor};
ghost use Rattle.set_monitors.specs.SpreadEvents.{AreCounts, AreFew, counted_then, spread_by, spreads_of, start_in};

use crate::spread_effects::{outside_after, shifts_of};
use event_monitors::{Counted, Gauge, alters_meet, moves_meet};
use family_keepers::Keeping;
use khe_base::{IdSet, NoMemory, TimeId, count_out};
use khe_instance::{Instance, Kind, Monitor, Rule, Spread};
use khe_told::{Effect, Effects, Span, Told, Turn};
use std::alloc::Global;

/// The family of Spread Events: a monitor's deviation is, over the time groups that its constraint
/// lists, by how many too few or too many meets of its events start in them.
///
/// A turn of a meet's start looks at each listed group once, and any other turn at none.
pub type SpreadEvents = Keeping<Counted<Starts>>;

/// The gauge of Spread Events.
#[derive(Drop)]
pub struct Starts {
    /// By how many too few or too many start, over all listed groups.
    outside: u64,
    /// How many meets start in each listed group.
    counts: Vec<u32>,
}

impl Gauge for Starts {
    ghost use Rattle.std.specs.Prelude.{◌≡◌, true};
    ghost use Rattle.khe_instance.specs.KindLaws.{is_kind};
    ghost use Rattle.khe_instance.specs.declared.rules.Kind.TheVariants as kind;
    ghost use Rattle.event_monitors.specs.Shares.{KeepsMeet};
    ghost use Rattle.set_monitors.specs.SpreadEvents.{IsSpread, spread_elsewhere, spread_exact, spread_unaffected};
    ghost use Rattle.set_monitors.specs.SpreadEvents.{spread_unheard, start_in};

    ghost serves_kind = { λ k. is_kind k kind.SpreadEvents };

    ghost Keeps = { λ g p m s. IsSpread p m s g.counts.items g.outside };

    ghost value = { λ g p m. g.outside };

    fn serves(kind: Kind) -> bool {
        kind == Kind::SpreadEvents
    }

    ghost IsUnheard = { KeepsMeet };

    fn hears(turn: &Turn<'_>) -> bool {
        moves_meet(turn)
    }

    fn open(alloc: Global, inst: &Instance, monitor: Monitor) -> Result<Starts, NoMemory> {
        let spreads = listed(inst, monitor);
        let counts = vec![in alloc; 0; spreads.len()]?;
        Ok(Starts {
            outside: out_of(spreads, &counts),
            counts,
        })
    }

    fn turn(&mut self, inst: &Instance, monitor: Monitor, told: &Told, turn: &Turn<'_>) -> bool {
        let _ = told;
        let before = start_in(turn.before());
        let after = start_in(turn.after());
        if is_same(before, after) {
            return false;
        }
        inst.facts();
        let outside = self.outside;
        let spreads = listed(inst, monitor);
        self.outside = turn_counts(spreads, &mut self.counts, outside, before, after);
        self.outside != outside
    }

    fn value(&self, inst: &Instance, monitor: Monitor) -> u64 {
        let _ = inst;
        let _ = monitor;
        self.outside
    }

    ghost Foresees = { λ p m ts. Unit {0} };

    fn foresees_always(effects: &Effects<'_>) -> bool {
        let _ = effects;
        true
    }

    fn foresees(inst: &Instance, monitor: Monitor, effects: &Effects<'_>) -> bool {
        let _ = inst;
        let _ = monitor;
        let _ = effects;
        true
    }

    ghost foresees_elsewhere = { λ p m ts h. tt };

    fn observes(effect: &Effect<'_>) -> bool {
        alters_meet(effect)
    }

    ghost IsUnaffected = { λ g p m t. start_in t.before.span ≡ start_in t.after.span };

    fn is_affected(&self, inst: &Instance, monitor: Monitor, effect: &Effect<'_>) -> bool {
        let _ = inst;
        let _ = monitor;
        !is_same(start_in(effect.before()), start_in(effect.after()))
    }

    fn observes_cuts() -> bool {
        true
    }

    fn observes_cut(&self) -> bool {
        true
    }

    fn value_after(
        &self,
        inst: &Instance,
        monitor: Monitor,
        told: &Told,
        effects: &Effects<'_>,
    ) -> u64 {
        let _ = told;
        inst.facts();
        let spreads = listed(inst, monitor);
        let shifts = shifts_of(inst, monitor, effects);
        outside_after(spreads, self.counts.as_slice(), self.outside, shifts)
    }

    ghost exact = { λ g p m s k. spread_exact p m s g.counts.items g.outside k };

    ghost deaf = { λ g p m s t h turns kept. spread_unheard p m s t g.counts.items g.outside h turns kept };

    ghost unaffected = { λ g p m s t h turns kept. spread_unaffected p m s t g.counts.items g.outside h turns kept };

    ghost elsewhere = { λ g p m s k x l same named kept. spread_elsewhere p m s k x g.counts.items g.outside l same named kept };
}

// The time groups that a monitor's constraint lists.
fn listed(inst: &Instance, monitor: Monitor) -> &[Spread]
    requires monitor { IsMonitor inst.now monitor }
    ensures spreads { result.now ≡ spreads_of inst.now monitor }
    ensures least { All (λ q. q.min ≤ NUMBER) result.now }
    ensures listed { length result.now ≤ LISTED }
{
    inst.facts();
    match &inst.constraint(monitor.constraint).rule {
        Rule::SpreadEvents { groups } => groups.as_slice(),
        _ => &[],
    }
}

// When a meet starts, if it has a start.
pub(crate) fn start_in(span: Option<Span>) -> Option<TimeId>
    ensures { result ≡ start_in span }
{
    match span {
        Some(span) => span.start,
        None => None,
    }
}

// Whether two starts are the same.
fn is_same(before: Option<TimeId>, after: Option<TimeId>) -> bool
    ensures { result ≡ true → before ≡ after }
{
    before == after
}

// Whether a start is given and is in a set of times.
pub(crate) fn starts_in(times: &IdSet, start: Option<TimeId>) -> bool
    ensures { result ≡ starts_in times.now start }
{
    match start {
        Some(start) => times.has(start.0),
        None => false,
    }
}

// Turns the counts of all listed groups where a meet's start changed. What is returned is by how many too
// few or too many start in them then, by how many it was before.
fn turn_counts(
    spreads: &[Spread],
    counts: &mut Vec<u32>,
    outside: u64,
    before: Option<TimeId>,
    after: Option<TimeId>,
) -> u64
    requires amount { length counts.old.items ≡ length spreads.now }
    requires few { AreFew counts.old.items }
    requires least { All (λ q. q.min ≤ NUMBER) spreads.now }
    requires listed { length spreads.now ≤ LISTED }
    requires small { outside ≤ GREATEST_DEVIATION }
    ensures amount { length counts.new.items ≡ length spreads.now }
    ensures counts { (f : List Bool → ℕ) → AreCounts f spreads.now counts.old.items → AreCounts (λ g. counted_then (f g) g before after) spreads.now counts.new.items }
    ensures outside { (f : List Bool → ℕ) → AreCounts f spreads.now counts.old.items → outside ≡ spread_by f spreads.now → result ≡ spread_by (λ g. counted_then (f g) g before after) spreads.now }
{
    let mut total = outside;
    for (i, spread) in spreads.iter().enumerate() {
        total = turn_count(spread, &mut counts[i], total, before, after);
    }
    total
}

// The same for one of them.
fn turn_count(
    spread: &Spread,
    count: &mut u32,
    outside: u64,
    before: Option<TimeId>,
    after: Option<TimeId>,
) -> u64
    requires few { count.old ≤ DURATION }
    requires least { spread.now.min ≤ NUMBER }
    requires small { outside ≤ GREATEST_DEVIATION + LISTED * (DURATION + NUMBER + 1) }
    ensures count { count.new ≡ counted_then count.old spread.now.group before after }
    ensures outside { (rest : ℕ) → outside ≡ rest + count_outside count.old spread.now.min spread.now.max → result ≡ rest + count_outside count.new spread.now.min spread.now.max }
    ensures bound { result ≤ outside + (DURATION + NUMBER + 1) }
{
    let goes = starts_in(&spread.group, before);
    let comes = starts_in(&spread.group, after);
    if goes == comes {
        return outside;
    }
    let old = *count;
    let new = (old + u32::from(comes)).saturating_sub(u32::from(goes));
    *count = new;
    let rest = outside.saturating_sub(count_out(u64::from(old), spread.min, spread.max));
    rest + count_out(u64::from(new), spread.min, spread.max)
}

// By how many too few or too many start in the listed groups, by their counts.
fn out_of(spreads: &[Spread], counts: &[u32]) -> u64
    requires amount { length counts.now ≡ length spreads.now }
    requires few { AreFew counts.now }
    requires least { All (λ q. q.min ≤ NUMBER) spreads.now }
    requires listed { length spreads.now ≤ LISTED }
    ensures outside { (f : List Bool → ℕ) → AreCounts f spreads.now counts.now → result ≡ spread_by f spreads.now }
    ensures bound { result ≤ length spreads.now * (DURATION + NUMBER) }
{
    let mut total = 0;
    for (i, spread) in spreads.iter().enumerate() {
        total += count_out(u64::from(counts[i]), spread.min, spread.max);
    }
    total
}
