//! Avoid Split Assignments.

ghost use Rattle.std.specs.Prelude.{◌≡◌, ◌≤◌, ◌+◌, ◌-◌, ℕ, true, false, None, Some, length, replicate, IfOk, IfSome};
ghost use Rattle.std.specs.Prelude.{slice_get, slice_index_or};
ghost use Rattle.khe_base.specs.declared.limits.TheConstants.{RESOURCES};
ghost use Rattle.khe_instance.specs.KindLaws.{is_kind};
ghost use Rattle.khe_instance.specs.WellMade.{IsMonitor};
ghost use Rattle.khe_instance.specs.declared.rules.Kind.TheVariants as kind;
ghost use Rattle.khe_told.specs.Slots.{no_meets};
ghost use Rattle.khe_told.specs.Turns.{IsTurn, turned};
ghost use Rattle.event_monitors.specs.Posts.{names};
ghost use Rattle.set_monitors.specs.AvoidSplitAssignments.{AreAscending, AreHeld, AreWithin, IsListed, IsShared};
ghost use Rattle.set_monitors.specs.AvoidSplitAssignments.{is_first, is_last, with_one, without_one};
ghost use Rattle.set_monitors.specs.RolePlaces.{AreRolePlaces};

use crate::candidates::candidates;
use crate::holder_effects::{above_after, handings_of, hands_other};
use crate::role_places::{RolePlace, place_of, role_places};
use event_monitors::{Counted, Gauge, gives_other};
use family_keepers::Keeping;
use khe_base::{NoMemory, ResourceId, Seq, beside};
use khe_instance::{Instance, Kind, Monitor};
use khe_told::{Effect, Effects, Told, Turn};
use std::alloc::Global;

/// The family of Avoid Split Assignments: a monitor's deviation is how many resources have a task
/// in the role among its events, less one.
///
/// A monitor keeps a count for each resource with the type of such a task, 8 bytes each, and the place in the
/// role of each of its events that has one. A turn finds that place by binary search and looks at no other;
/// where its resource changes, the old and the new resource are found by binary search too.
pub type AvoidSplitAssignments = Keeping<Counted<Holders>>;

/// The gauge of Avoid Split Assignments.
#[derive(Drop)]
pub struct Holders {
    /// How many resources have a task in the role.
    above: u32,
    /// How many of these tasks each candidate has.
    counts: Vec<u32>,
    /// The resources that may have one, ascending.
    candidates: Seq<u32>,
    /// The places in the role.
    places: Seq<RolePlace>,
}

impl Gauge for Holders {
    ghost use Rattle.std.specs.Prelude.{◌≡◌, ◌-◌, true};
    ghost use Rattle.khe_instance.specs.KindLaws.{is_kind};
    ghost use Rattle.khe_instance.specs.declared.rules.Kind.TheVariants as kind;
    ghost use Rattle.set_monitors.specs.AvoidSplitAssignments.{IsShared, shared_elsewhere, shared_exact};
    ghost use Rattle.set_monitors.specs.AvoidSplitAssignments.{IsHeldOn, shared_on, shared_unheard};
    ghost use Rattle.set_monitors.specs.RolePlaces.{AreRolePlaces};

    ghost serves_kind = { λ k. is_kind k kind.AvoidSplitAssignments };

    ghost Keeps = { λ g p m s. IsShared p m s g.candidates g.counts.items g.above × AreRolePlaces p m g.places };

    ghost value = { λ g p m. g.above - 1 };

    fn serves(kind: Kind) -> bool {
        kind == Kind::AvoidSplitAssignments
    }

    ghost IsUnheard = { λ t. t.before.given ≡ t.after.given };

    fn hears(turn: &Turn<'_>) -> bool {
        turn.gives_other()
    }

    fn open(alloc: Global, inst: &Instance, monitor: Monitor) -> Result<Holders, NoMemory> {
        let places = role_places(alloc, inst, monitor)?;
        let (counts, candidates) = nothing_held(alloc, inst, monitor)?;
        Ok(Holders {
            above: 0,
            counts,
            candidates,
            places,
        })
    }

    fn turn(&mut self, inst: &Instance, monitor: Monitor, told: &Told, turn: &Turn<'_>) -> bool {
        let before = self.above;
        let places = self.places.as_slice();
        let candidates = self.candidates.as_slice();
        let role = Role { places, candidates };
        self.above = turned(inst, monitor, told, turn, &role, &mut self.counts, before);
        self.above != before
    }

    fn value(&self, inst: &Instance, monitor: Monitor) -> u64 {
        let _ = inst;
        let _ = monitor;
        u64::from(self.above.saturating_sub(1))
    }

    ghost Foresees = { λ p m ts. Unit {0} };

    fn foresees_always(effects: &Effects<'_>) -> bool {
        let _ = effects;
        true
    }

    fn foresees(inst: &Instance, monitor: Monitor, effects: &Effects<'_>) -> bool {
        let _ = inst;
        let _ = monitor;
        let _ = effects;
        true
    }

    ghost foresees_elsewhere = { λ p m ts h. tt };

    fn observes(effect: &Effect<'_>) -> bool {
        gives_other(effect)
    }

    ghost IsUnaffected = { λ g p m t. IsHeldOn p m t };

    fn is_affected(&self, inst: &Instance, monitor: Monitor, effect: &Effect<'_>) -> bool {
        hands_other(inst, monitor, self.places.as_slice(), effect)
    }

    fn observes_cuts() -> bool {
        false
    }

    fn observes_cut(&self) -> bool {
        false
    }

    fn value_after(
        &self,
        inst: &Instance,
        monitor: Monitor,
        told: &Told,
        effects: &Effects<'_>,
    ) -> u64 {
        let _ = told;
        inst.facts();
        let handings = handings_of(inst, monitor, self.places.as_slice(), effects);
        let candidates = self.candidates.as_slice();
        let above = above_after(candidates, self.counts.as_slice(), self.above, &handings);
        u64::from(above.saturating_sub(1))
    }

    ghost exact = { λ g p m s k. shared_exact p m s g.candidates g.counts.items g.above k.0 };

    ghost deaf = { λ g p m s t h turns kept. (
      shared_unheard p m s t g.candidates g.counts.items g.above h turns kept.0,
      kept.1,
    ) };

    ghost unaffected = { λ g p m s t h turns kept. (
      shared_on p m s t g.candidates g.counts.items g.above (h s turns) turns kept.0,
      kept.1,
    ) };

    ghost elsewhere = { λ g p m s k x l same named kept.
        (shared_elsewhere p m s k x g.candidates g.counts.items g.above l same named kept.0, kept.1) };
}

// The resources that may have a task in the role, and a count of none for each.
fn nothing_held(
    alloc: Global,
    inst: &Instance,
    monitor: Monitor,
) -> Result<(Vec<u32>, Seq<u32>), NoMemory>
    requires monitor { IsMonitor inst.now monitor }
    requires served { is_kind monitor.kind kind.AvoidSplitAssignments ≡ true }
    ensures { IfOk result (λ made. IsShared inst.now monitor (no_meets inst.now) made.1 made.0.items 0) }
{
    let candidates = candidates(alloc, inst, monitor)?;
    let counts = no_tasks(alloc, candidates.len());
    let (counts, candidates) = beside(counts, candidates)?;
    Ok((counts, candidates))
}

// The given number of counts of no tasks.
fn no_tasks(alloc: Global, size: usize) -> Result<Vec<u32>, NoMemory>
    ensures { IfOk result (λ counts. counts.items ≡ replicate size 0) }
{
    Ok(vec![in alloc; 0; size]?)
}

/// Where a monitor looks: the places in the role of its events, and the resources that may have a task in it.
#[derive(Clone, Copy)]
struct Role<'a> {
    places: &'a [RolePlace],
    candidates: &'a [u32],
}

// Turns the counts of the resources before and after of the event's place in the role, where that is given
// something else. What is returned is how many counts are above 0 then.
fn turned(
    inst: &Instance,
    monitor: Monitor,
    told: &Told,
    turn: &Turn<'_>,
    role: &Role<'_>,
    counts: &mut Vec<u32>,
    above: u32,
) -> u32
    requires keeps { IsShared inst.now monitor told.now role.now.candidates.now counts.old.items above }
    requires places { AreRolePlaces inst.now monitor role.now.places.now }
    requires turns { IsTurn inst.now told.now turn.now }
    requires named { names inst.now turn.now.before.event.0 monitor ≡ true }
    ensures keeps { IsShared inst.now monitor (turned told.now turn.now) role.now.candidates.now counts.new.items
        result }
{
    let _ = told;
    inst.facts();
    let Some(place) = place_of(role.places, turn.event()) else {
        return above;
    };
    let before = given_at(turn.given_before(), place);
    let after = given_at(turn.given_after(), place);
    if is_other(before, after) {
        let above = rise(role.candidates, counts, above, after);
        return fall(role.candidates, counts, above, before);
    }
    above
}

// What a place is given: nothing where there is none of the number.
pub(crate) fn given_at(given: &[Option<ResourceId>], place: usize) -> Option<ResourceId>
    ensures { result ≡ slice_index_or given.now place None }
{
    match given.get(place) {
        Some(resource) => *resource,
        None => None,
    }
}

// Whether a place is given something else.
pub(crate) fn is_other(before: Option<ResourceId>, after: Option<ResourceId>) -> bool
    ensures same { result ≡ false → before ≡ after }
    ensures differ { result ≡ true → before ≡ after → ⊥ }
{
    before != after
}

// One more task of a resource, where one is given.
fn rise(candidates: &[u32], counts: &mut Vec<u32>, above: u32, given: Option<ResourceId>) -> u32
    requires ascending { AreAscending candidates.now }
    requires listed { IfSome given (λ r. IsListed candidates.now r.0) }
    requires amount { length counts.old.items ≡ length candidates.now }
    requires within { AreWithin counts.old.items }
    requires above { above ≤ RESOURCES }
    ensures amount { length counts.new.items ≡ length candidates.now }
    ensures counts { (f : ℕ → ℕ) → AreHeld f candidates.now counts.old.items
        → AreHeld (with_one f given) candidates.now counts.new.items }
    ensures above { (f : ℕ → ℕ) → AreHeld f candidates.now counts.old.items → result ≡ above + is_first f given }
{
    let Some(resource) = given else {
        return above;
    };
    let k = place_among(candidates, resource.0);
    let before = counts[k];
    counts[k] = before + 1;
    above + u32::from(before == 0)
}

// One less.
fn fall(candidates: &[u32], counts: &mut Vec<u32>, above: u32, given: Option<ResourceId>) -> u32
    requires ascending { AreAscending candidates.now }
    requires listed { IfSome given (λ r. IsListed candidates.now r.0) }
    requires amount { length counts.old.items ≡ length candidates.now }
    ensures amount { length counts.new.items ≡ length candidates.now }
    ensures counts { (f : ℕ → ℕ) → AreHeld f candidates.now counts.old.items
        → AreHeld (without_one f given) candidates.now counts.new.items }
    ensures above { (f : ℕ → ℕ) → AreHeld f candidates.now counts.old.items → result ≡ above - is_last f given }
{
    let Some(resource) = given else {
        return above;
    };
    let k = place_among(candidates, resource.0);
    let before = counts[k];
    counts[k] = before.saturating_sub(1);
    above.saturating_sub(u32::from(before == 1))
}

// The place of a number among ascending ones, by binary search.
pub(crate) fn place_among(numbers: &[u32], number: u32) -> usize
    requires ascending { AreAscending numbers.now }
    requires listed { IsListed numbers.now number }
    ensures { slice_get numbers.now result ≡ Some number }
{
    let mut low = 0;
    let mut end = numbers.len();
    while low < end {
        let middle = low + (end - low) / 2;
        if numbers[middle] < number {
            low = middle + 1;
        } else {
            end = middle;
        }
    }
    low
}
