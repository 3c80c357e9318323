//! What an effect on one slot leaves as it is, and whether a monitor names its event.

ghost use Rattle.std.specs.Prelude.{◌≡◌, false, slice_get};
ghost use Rattle.khe_instance.specs.Watching.{names_event, pair_names};
ghost use Rattle.khe_told.specs.Effects.{given_with};
ghost use Rattle.event_monitors.specs.Shares.{KeepsDuration, KeepsMeet, KeepsTasks, given_at};

use khe_base::{EventId, ResourceId};
use khe_instance::{Instance, Point, Rule};
use khe_told::{Effect, Regiven};

/// Whether an effect may change a meet. It takes constant time.
pub fn alters_meet(effect: &Effect<'_>) -> bool
    ensures { result ≡ false → KeepsMeet effect.now }
{
    effect.moves()
}

/// Whether an effect may change how long a meet lasts. It takes constant time.
pub(crate) fn alters_duration(effect: &Effect<'_>) -> bool
    ensures { result ≡ false → KeepsDuration effect.now }
{
    effect.resizes()
}

/// Whether an effect may change what a meet's places are given, or how long it lasts. It takes the time of the places.
pub fn alters_tasks(effect: &Effect<'_>) -> bool
    ensures { result ≡ false → KeepsTasks effect.now }
{
    effect.resizes() || gives_other(effect)
}

/// Whether an effect may change what a meet's places are given. It takes the time of the places.
pub fn gives_other(effect: &Effect<'_>) -> bool
    ensures { result ≡ false → effect.now.before.given ≡ effect.now.after.given }
{
    let before = effect.given_before();
    let (kept, regiven) = effect.given_after();
    regiven.is_some() || are_other(before, kept)
}

/// Whether places are given something else.
fn are_other(before: &[Option<ResourceId>], after: &[Option<ResourceId>]) -> bool
    ensures { result ≡ false → before.now ≡ after.now }
{
    before != after
}

/// What a place would be given after an effect, or `None` where the slot has no such place. It takes constant time.
pub fn given_after(effect: &Effect<'_>, place: u32) -> Option<Option<ResourceId>>
    ensures { result ≡ slice_get effect.now.after.given place }
{
    let (kept, regiven) = effect.given_after();
    at_place(kept, regiven, place)
}

/// What a place would be given where one is given something else.
fn at_place(
    kept: &[Option<ResourceId>],
    regiven: Option<Regiven>,
    place: u32,
) -> Option<Option<ResourceId>>
    ensures { result ≡ slice_get (given_with kept.now regiven) place }
{
    let own = kept.get(place as usize).copied()?;
    match regiven {
        Some(other) if other.place == place => Some(other.resource),
        _ => Some(own),
    }
}

/// What the place of a point would be given.
pub(crate) fn point_after(effect: &Effect<'_>, point: Point) -> Option<Option<ResourceId>>
    ensures { result ≡ given_at point effect.now.after.given }
{
    match point {
        Point::EventResource { place, .. } => given_after(effect, place),
        _ => None,
    }
}

/// Whether a point names an event. It takes constant time.
pub fn names_event(inst: &Instance, rule: &Rule, point: Point, event: EventId) -> bool
    ensures { result ≡ names_event inst.now rule.now point event.0 }
{
    match point {
        Point::Event(own) => own.0 == event.0,
        Point::EventResource { event: own, .. } => own.0 == event.0,
        Point::EventGroup(group) => {
            group < inst.event_groups() && inst.event_group(group).has(event.0)
        }
        Point::EventPair(pair) => pair_names(rule, pair, event),
        Point::Resource(_) => false,
    }
}

/// Whether a rule's pair with this number names an event.
fn pair_names(rule: &Rule, pair: u32, event: EventId) -> bool
    ensures { result ≡ pair_names rule.now pair event.0 }
{
    let Rule::OrderEvents { pairs } = rule else {
        return false;
    };
    match pairs.as_slice().get(pair as usize) {
        Some(own) => own.first.0 == event.0 || own.second.0 == event.0,
        None => false,
    }
}
