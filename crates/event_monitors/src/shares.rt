//! What one slot adds to the sum of a monitor.

ghost use Rattle.std.specs.Prelude.{◌≡◌, ◌≤◌, true, false, ℕ, List, Option, Some, slice_get};
ghost use Rattle.khe_base.specs.declared.numbers.ResourceId.{ResourceId as Resource};
ghost use Rattle.khe_instance.specs.WellMade.{IsMonitor};
ghost use Rattle.khe_instance.specs.declared.rules.Rule.{Rule};
ghost use Rattle.khe_instance.specs.declared.points.Point.{Point};
ghost use Rattle.khe_told.specs.Effects.{AreTurns, turned_all};
ghost use Rattle.khe_told.specs.Turns.{IsTurn, SlotTurn, turned};
ghost use Rattle.khe_told.specs.declared.slots.Slot.{Slot};
ghost use Rattle.khe_told.specs.declared.slots.Span.{Span};
ghost use Rattle.event_monitors.specs.Posts.{names};
ghost use Rattle.event_monitors.specs.Shares.{AddsUp, IsSameShare, KeepsDuration, KeepsMeet, KeepsTasks, given_at};
ghost use Rattle.event_monitors.specs.Shares.{greatest_total, most_of, total_of};

use crate::effects::{names_event, point_after};
use khe_base::ResourceId;
use khe_instance::{Constraint, Instance, Monitor, Point, Rule};
use khe_told::{Effect, Effects, Span, Told, Turn};

/// What a slot counts for in the sum of a monitor that names its event.
pub trait Share {
    /// By the monitor's rule, the slot's meet, and what the monitor's place is given: `None` at an
    /// event, and where there is no such place.
    ghost share: { Rule → Option Span → Option (Option Resource) → ℕ };

    /// It takes constant time and no memory.
    fn share(rule: &Rule, span: Option<Span>, given: Option<Option<ResourceId>>) -> u64
        ensures { result ≡ share rule.now span given };

    /// A turn of a slot does not change what the slot counts for.
    ghost IsUnheard: { SlotTurn → Type 0 };

    /// Whether a turn may change what a slot counts for. It takes constant time.
    fn hears(turn: &Turn<'_>) -> bool
        ensures { result ≡ false → IsUnheard turn.now };

    /// Whether an effect may change what a slot counts for. It takes the time of the slot's places.
    fn observes(effect: &Effect<'_>) -> bool
        ensures { result ≡ false → IsUnheard effect.now };

    /// Whether both parts of a meet that is cut may count for another sum than the meet does. It takes constant time.
    fn observes_cuts() -> bool
        ensures { result ≡ false → AddsUp share };

    /// A turn that it does not observe keeps what the slot counts for.
    ghost unheard: { (rule : Rule) (point : Point) (t : SlotTurn) → IsUnheard t
        → share rule t.after.span (given_at point t.after.given) ≡ share rule t.before.span (given_at point t.before.given) };

    /// A slot without a meet counts for nothing, and one with a meet for at most 1 more than its
    /// duration.
    ghost bounded: { (rule : Rule) (span : Option Span) (given : Option (Option Resource)) → share rule span given ≤ most_of span };
}

/// Whether a turn may change a meet. It takes constant time.
pub fn moves_meet(turn: &Turn<'_>) -> bool
    ensures { result ≡ false → KeepsMeet turn.now }
{
    turn.moves()
}

/// Whether a turn may change what a meet's places are given, or how long it lasts. It takes constant time.
pub fn moves_tasks(turn: &Turn<'_>) -> bool
    ensures { result ≡ false → KeepsTasks turn.now }
{
    turn.gives_other() || turn.resizes()
}

/// Whether a turn may change how long a meet lasts.
pub(crate) fn resizes(turn: &Turn<'_>) -> bool
    ensures { result ≡ false → KeepsDuration turn.now }
{
    turn.resizes()
}

/// A monitor's sum after a turn of a slot of an event that it names, by the sum before. It takes constant
/// time and no memory.
pub(crate) fn turned<S: Share>(
    total: u64,
    inst: &Instance,
    monitor: Monitor,
    told: &Told,
    turn: &Turn<'_>,
) -> u64
    requires monitor { IsMonitor inst.now monitor }
    requires total { total ≡ total_of S.share inst.now monitor told.now }
    requires turns { IsTurn inst.now told.now turn.now }
    requires named { names inst.now turn.now.before.event.0 monitor ≡ true }
    ensures total { result ≡ total_of S.share inst.now monitor (turned told.now turn.now) }
    ensures small { result ≤ greatest_total }
{
    let _ = told;
    inst.facts();
    let rule = &inst.constraint(monitor.constraint).rule;
    let point = monitor.point;
    let before = S::share(rule, turn.before(), given_of(turn.given_before(), point));
    let later = S::share(rule, turn.after(), given_of(turn.given_after(), point));
    total - before + later
}

/// Whether a slot would count for another amount after an effect, in the sum of a monitor that names its event. It
/// takes constant time and no memory.
pub(crate) fn is_other<S: Share>(inst: &Instance, monitor: Monitor, effect: &Effect<'_>) -> bool
    requires { IsMonitor inst.now monitor }
    ensures { result ≡ false → IsSameShare S.share inst.now monitor effect.now }
{
    let rule = &inst.constraint(monitor.constraint).rule;
    let point = monitor.point;
    let before = S::share(
        rule,
        effect.before(),
        given_of(effect.given_before(), point),
    );
    let later = S::share(rule, effect.after(), point_after(effect, point));
    before != later
}

/// A monitor's sum after one effect, by the sum before.
fn with_effect<S: Share>(
    total: u64,
    inst: &Instance,
    monitor: Monitor,
    constraint: &Constraint,
    effect: &Effect<'_>,
) -> u64
    requires monitor { IsMonitor inst.now monitor }
    requires constraint { slice_get inst.now.constraints monitor.constraint ≡ Some constraint.now }
    requires small { total ≤ greatest_total }
    requires total { (s : List Slot) × (total ≡ total_of S.share inst.now monitor s) × IsTurn inst.now s effect.now }
    ensures total { (s : List Slot) → total ≡ total_of S.share inst.now monitor s → IsTurn inst.now s effect.now
        → result ≡ total_of S.share inst.now monitor (turned s effect.now) }
    ensures small { result ≤ greatest_total }
{
    inst.facts();
    let rule = &constraint.rule;
    let point = monitor.point;
    if !names_event(inst, rule, point, effect.event()) {
        return total;
    }
    let before = S::share(
        rule,
        effect.before(),
        given_of(effect.given_before(), point),
    );
    let later = S::share(rule, effect.after(), point_after(effect, point));
    total - before + later
}

/// A monitor's sum after effects, by the sum before. It takes constant time and no memory.
pub(crate) fn total_after<S: Share>(
    total: u64,
    inst: &Instance,
    monitor: Monitor,
    told: &Told,
    effects: &Effects<'_>,
) -> u64
    requires monitor { IsMonitor inst.now monitor }
    requires total { total ≡ total_of S.share inst.now monitor told.now }
    requires small { total ≤ greatest_total }
    requires turns { AreTurns inst.now told.now effects.now }
    ensures total { result ≡ total_of S.share inst.now monitor (turned_all told.now effects.now) }
    ensures small { result ≤ greatest_total }
{
    let _ = told;
    let constraint = inst.constraint(monitor.constraint);
    let (first, second) = effects.slots();
    let once = with_effect::<S>(total, inst, monitor, constraint, first);
    match second {
        Some(second) => with_effect::<S>(once, inst, monitor, constraint, second),
        None => once,
    }
}

/// What the place of a point is given.
fn given_of(given: &[Option<ResourceId>], point: Point) -> Option<Option<ResourceId>>
    ensures { result ≡ given_at point given.now }
{
    match point {
        Point::EventResource { place, .. } => given.get(place as usize).copied(),
        _ => None,
    }
}
