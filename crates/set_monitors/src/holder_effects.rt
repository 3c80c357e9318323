//! How many resources would have tasks in a role after effects.

ghost use Rattle.std.specs.Prelude.{◌≡◌, ◌≤◌, ◌+◌, ◌-◌, ℕ, false, List, None, length, IfSome, slice_index_or};
ghost use Rattle.khe_base.specs.declared.limits.TheConstants.{RESOURCES};
ghost use Rattle.khe_instance.specs.Running.{is_resource};
ghost use Rattle.khe_instance.specs.WellMade.{IsMonitor};
ghost use Rattle.khe_told.specs.Effects.{AreTurns, given_with, turned_all};
ghost use Rattle.khe_told.specs.Turns.{IsTurn, turned};
ghost use Rattle.khe_told.specs.declared.slots.Slot.{Slot};
ghost use Rattle.set_monitors.specs.AvoidSplitAssignments.{AreAscending, AreHeld, AreWithin, IsHeldOn, IsListed};
ghost use Rattle.set_monitors.specs.AvoidSplitAssignments.{IsShared};
ghost use Rattle.set_monitors.specs.AvoidSplitAssignments.{held, is_first, is_last, with_one};
ghost use Rattle.set_monitors.specs.Handings.{AreHanded, IsHanded, IsHandedOf};
ghost use Rattle.set_monitors.specs.RolePlaces.{AreRolePlaces};

use crate::avoid_split_assignments::{given_at, is_other, place_among};
use crate::role_places::{RolePlace, place_of};
use event_monitors::names_event;
use khe_base::ResourceId;
use khe_instance::{Instance, Monitor};
use khe_told::{Effect, Effects, Regiven};

/// What the place in the role of a slot is given before an effect and after it: nothing where there is no such place,
/// or
/// where it is given the same.
#[derive(Clone, Copy)]
pub(crate) struct Handing {
    before: Option<ResourceId>,
    after: Option<ResourceId>,
}

/// Those of one slot or of two, one after the other.
#[derive(Clone, Copy)]
pub(crate) struct Handings {
    first: Handing,
    second: Handing,
}

/// That of nothing.
fn no_handing() -> Handing
    ensures { result ≡ record { before = None; after = None } }
{
    Handing {
        before: None,
        after: None,
    }
}

/// What a place would be given: nothing where there is none of the number.
fn given_then(effect: &Effect<'_>, place: usize) -> Option<ResourceId>
    ensures { result ≡ slice_index_or effect.now.after.given place None }
{
    let (kept, regiven) = effect.given_after();
    given_in(kept, regiven, place)
}

/// What a place is given where one is given something else.
fn given_in(
    kept: &[Option<ResourceId>],
    regiven: Option<Regiven>,
    place: usize,
) -> Option<ResourceId>
    ensures { result ≡ slice_index_or (given_with kept.now regiven) place None }
{
    match regiven {
        Some(other) if other.place as usize == place && place < kept.len() => other.resource,
        _ => given_at(kept, place),
    }
}

/// That of the slot of an effect.
fn handing_of(
    inst: &Instance,
    monitor: Monitor,
    places: &[RolePlace],
    effect: &Effect<'_>,
) -> Handing
    requires monitor { IsMonitor inst.now monitor }
    requires places { AreRolePlaces inst.now monitor places.now }
    ensures handed { (s : List Slot) → IsTurn inst.now s effect.now
        → IsHanded (held inst.now monitor s) result (held inst.now monitor (turned s effect.now)) }
    ensures listed { (s : List Slot) → (numbers : List ℕ) → (row : List ℕ) → (n : ℕ)
        → IsShared inst.now monitor s numbers row n → IsTurn inst.now s effect.now → IsHandedOf numbers result }
{
    let Some(place) = place_of(places, effect.event()) else {
        return no_handing();
    };
    let before = given_at(effect.given_before(), place);
    let after = given_then(effect, place);
    if !is_other(before, after) {
        return no_handing();
    }
    let rule = &inst.constraint(monitor.constraint).rule;
    if !names_event(inst, rule, monitor.point, effect.event()) {
        return no_handing();
    }
    Handing { before, after }
}

/// Whether an effect may change how many tasks in the role resources have.
pub(crate) fn hands_other(
    inst: &Instance,
    monitor: Monitor,
    places: &[RolePlace],
    effect: &Effect<'_>,
) -> bool
    requires monitor { IsMonitor inst.now monitor }
    requires places { AreRolePlaces inst.now monitor places.now }
    ensures { result ≡ false → IsHeldOn inst.now monitor effect.now }
{
    let handing = handing_of(inst, monitor, places, effect);
    handing.before.is_some() || handing.after.is_some()
}

/// Those of all slots that effects change.
pub(crate) fn handings_of(
    inst: &Instance,
    monitor: Monitor,
    places: &[RolePlace],
    effects: &Effects<'_>,
) -> Handings
    requires monitor { IsMonitor inst.now monitor }
    requires places { AreRolePlaces inst.now monitor places.now }
    ensures handed { (s : List Slot) → AreTurns inst.now s effects.now
        → AreHanded (held inst.now monitor s) result (held inst.now monitor (turned_all s effects.now)) }
    ensures first { (s : List Slot) → (numbers : List ℕ) → (row : List ℕ) → (n : ℕ)
        → IsShared inst.now monitor s numbers row n → AreTurns inst.now s effects.now
        → IsHandedOf numbers result.first }
    ensures second { (s : List Slot) → (numbers : List ℕ) → (row : List ℕ) → (n : ℕ)
        → IsShared inst.now monitor s numbers row n → AreTurns inst.now s effects.now
        → IsHandedOf numbers result.second }
{
    let (first, second) = effects.slots();
    let first = handing_of(inst, monitor, places, first);
    let second = match second {
        Some(second) => handing_of(inst, monitor, places, second),
        None => no_handing(),
    };
    Handings { first, second }
}

/// Whether a resource is what is given.
fn is_given(given: Option<ResourceId>, resource: ResourceId) -> bool
    ensures { result ≡ is_resource resource.0 given }
{
    match given {
        Some(own) => own.0 == resource.0,
        None => false,
    }
}

/// How many tasks a candidate has after an earlier handing.
fn held_after(candidates: &[u32], counts: &[u32], earlier: Handing, resource: ResourceId) -> u32
    requires ascending { AreAscending candidates.now }
    requires listed { IsListed candidates.now resource.0 }
    requires amount { length counts.now ≡ length candidates.now }
    requires within { AreWithin counts.now }
    ensures { (f : ℕ → ℕ) → (mid : ℕ → ℕ) → AreHeld f candidates.now counts.now → IsHanded f earlier mid
        → result ≡ mid resource.0 }
{
    let k = place_among(candidates, resource.0);
    let came = u32::from(is_given(earlier.after, resource));
    let went = u32::from(is_given(earlier.before, resource));
    (counts[k] + came).saturating_sub(went)
}

/// 1 where a resource that is given a task has none yet after an earlier handing.
fn first_of(candidates: &[u32], counts: &[u32], earlier: Handing, given: Option<ResourceId>) -> u32
    requires ascending { AreAscending candidates.now }
    requires listed { IfSome given (λ r. IsListed candidates.now r.0) }
    requires amount { length counts.now ≡ length candidates.now }
    requires within { AreWithin counts.now }
    ensures value { (f : ℕ → ℕ) → (mid : ℕ → ℕ) → AreHeld f candidates.now counts.now → IsHanded f earlier mid
        → result ≡ is_first mid given }
    ensures bound { result ≤ 1 }
{
    let Some(resource) = given else {
        return 0;
    };
    u32::from(held_after(candidates, counts, earlier, resource) == 0)
}

/// 1 where a resource whose task is taken has no other after an earlier handing and what is given then.
fn last_of(candidates: &[u32], counts: &[u32], earlier: Handing, handing: Handing) -> u32
    requires ascending { AreAscending candidates.now }
    requires listed { IfSome handing.before (λ r. IsListed candidates.now r.0) }
    requires amount { length counts.now ≡ length candidates.now }
    requires within { AreWithin counts.now }
    ensures { (f : ℕ → ℕ) → (mid : ℕ → ℕ) → AreHeld f candidates.now counts.now → IsHanded f earlier mid
        → result ≡ is_last (with_one mid handing.after) handing.before }
{
    let Some(resource) = handing.before else {
        return 0;
    };
    let own = held_after(candidates, counts, earlier, resource);
    let came = is_given(handing.after, resource);
    u32::from(own == u32::from(!came))
}

/// How many resources have a task after a handing, by how many have one after an earlier one.
fn above_with(
    candidates: &[u32],
    counts: &[u32],
    earlier: Handing,
    above: u32,
    handing: Handing,
) -> u32
    requires ascending { AreAscending candidates.now }
    requires listed { IsHandedOf candidates.now handing }
    requires amount { length counts.now ≡ length candidates.now }
    requires within { AreWithin counts.now }
    requires small { above ≤ RESOURCES + 1 }
    ensures value { (f : ℕ → ℕ) → (mid : ℕ → ℕ) → AreHeld f candidates.now counts.now → IsHanded f earlier mid
        → result ≡ above + is_first mid handing.after - is_last (with_one mid handing.after) handing.before }
    ensures bound { result ≤ above + 1 }
{
    let more = first_of(candidates, counts, earlier, handing.after);
    let less = last_of(candidates, counts, earlier, handing);
    (above + more).saturating_sub(less)
}

/// How many resources would have a task after both handings.
pub(crate) fn above_after(
    candidates: &[u32],
    counts: &[u32],
    above: u32,
    handings: &Handings,
) -> u32
    requires ascending { AreAscending candidates.now }
    requires first { IsHandedOf candidates.now handings.now.first }
    requires second { IsHandedOf candidates.now handings.now.second }
    requires amount { length counts.now ≡ length candidates.now }
    requires within { AreWithin counts.now }
    requires small { above ≤ RESOURCES }
    ensures { (f : ℕ → ℕ) → (mid : ℕ → ℕ) → AreHeld f candidates.now counts.now → IsHanded f handings.now.first mid
        → result ≡ above + is_first f handings.now.first.after
        - is_last (with_one f handings.now.first.after) handings.now.first.before
        + is_first mid handings.now.second.after
        - is_last (with_one mid handings.now.second.after) handings.now.second.before }
{
    let first = handings.first;
    let once = above_with(candidates, counts, no_handing(), above, first);
    above_with(candidates, counts, first, once, handings.second)
}
