//! What effects would make of workloads.

ghost use Rattle.std.specs.Prelude.{◌≡◌, ◌<◌, ◌≤◌, ◌^◌, ◌⊎◌, None, Some, true, false, List, length, slice_index};
ghost use Rattle.khe_base.specs.declared.numbers.ResourceId.{ResourceId};
ghost use Rattle.khe_base.specs.declared.limits.TheConstants.{GREATEST_DEVIATION};
ghost use Rattle.khe_instance.specs.WellMade.{IsMonitor};
ghost use Rattle.khe_told.specs.Agreement.{deviation_in};
ghost use Rattle.khe_told.specs.Effects.{AreTurns, given_with, turned_all};
ghost use Rattle.khe_told.specs.Turns.{IsTurn, turned};
ghost use Rattle.khe_told.specs.Waits.{WaitOn};
ghost use Rattle.khe_told.specs.declared.slots.Slot.{Slot};
ghost use Rattle.resource_monitors.specs.Effects.{AreLoadsQueued, IsPlaceQueued, load_in};
ghost use Rattle.resource_monitors.specs.Loads.{HasLoads, is_on_workload, part_of, worth_at, worths_of};
ghost use Rattle.resource_monitors.specs.Posts.{AreLists};

use crate::given::{given_at, is_of, is_same};
use crate::load_values::measure;
use crate::load_waits::add_all;
use crate::loads::{length_of, worth_of};
use crate::posts::Post;
use khe_base::{EventId, ResourceId, Seq};
use khe_instance::{Instance, Monitor, Point};
use khe_told::{Effect, Effects, Regiven, Told, Waits};

/// What a task at a place is worth to a resource.
fn part(
    inst: &Instance,
    event: EventId,
    duration: u32,
    place: usize,
    of: Option<ResourceId>,
    r: ResourceId,
) -> u128
    requires { event.0 < length inst.now.events }
    ensures { result ≡ part_of of (worth_at inst.now event duration place) r.0 }
{
    if is_of(of, r) {
        return worth_of(inst, event, duration, place);
    }
    0
}

/// What the tasks of a meet are worth to a resource together. It takes time in proportion to the places.
fn worths(
    inst: &Instance,
    event: EventId,
    duration: u32,
    given: &[Option<ResourceId>],
    regiven: Option<Regiven>,
    r: ResourceId,
) -> u128
    requires event { event.0 < length inst.now.events }
    requires small { worths_of inst.now event duration 0 (given_with given.now regiven) r.0 < 2 ^ 128 }
    ensures { result ≡ worths_of inst.now event duration 0 (given_with given.now regiven) r.0 }
{
    let mut total = 0;
    for place in 0..given.len() {
        let of = given_at(given, regiven, place);
        total += part(inst, event, duration, place, of, r);
    }
    total
}

/// The workload of a resource after the effect on one slot.
fn load_turned(inst: &Instance, effect: &Effect<'_>, load: u128, r: ResourceId) -> u128
    requires { (s : List Slot) × IsTurn inst.now s effect.now × (load ≡ load_in inst.now s r.0) }
    ensures { (s : List Slot) → IsTurn inst.now s effect.now → load ≡ load_in inst.now s r.0
        → result ≡ load_in inst.now (turned s effect.now) r.0 }
{
    inst.facts();
    let event = effect.event();
    let less = length_of(effect.before());
    let more = length_of(effect.after());
    let before = effect.given_before();
    let (later, regiven) = effect.given_after();
    let lost = worths(inst, event, less, before, None, r);
    let gained = worths(inst, event, more, later, regiven, r);
    load + gained - lost
}

/// The workload of a resource after effects, by what it is before them. It takes time in proportion to the places of
/// their slots.
fn load_after(
    inst: &Instance,
    told: &Told,
    effects: &Effects<'_>,
    load: u128,
    r: ResourceId,
) -> u128
    requires turns { AreTurns inst.now told.now effects.now }
    requires load { load ≡ load_in inst.now told.now r.0 }
    ensures { result ≡ load_in inst.now (turned_all told.now effects.now) r.0 }
{
    let _ = told;
    let (first, second) = effects.slots();
    let load = load_turned(inst, first, load, r);
    let Some(second) = second else {
        return load;
    };
    load_turned(inst, second, load, r)
}

/// How far the workload of a monitor's resource would lie outside its bounds after effects. It takes time in
/// proportion to the places of their slots.
pub(crate) fn value_after(
    inst: &Instance,
    told: &Told,
    effects: &Effects<'_>,
    loads: &[u128],
    monitor: Monitor,
) -> u64
    requires turns { AreTurns inst.now told.now effects.now }
    requires loads { HasLoads inst.now told.now loads.now }
    requires monitor { IsMonitor inst.now monitor }
    requires kind { is_on_workload monitor.kind ≡ true }
    ensures value { result ≡ deviation_in inst.now (turned_all told.now effects.now) monitor }
    ensures small { result ≤ GREATEST_DEVIATION }
{
    inst.facts();
    let Point::Resource(r) = monitor.point else {
        return 0;
    };
    let rule = &inst.constraint(monitor.constraint).rule;
    let load = load_at(loads, r);
    let load = load_after(inst, told, effects, load, r);
    measure(inst, rule, load)
}

/// The workload of a resource.
#[inline(always)]
fn load_at(loads: &[u128], r: ResourceId) -> u128
    requires { r.0 < length loads.now }
    ensures { result ≡ slice_index loads.now r.0 }
{
    loads[r.0 as usize]
}

/// Queues the monitors on the workload of what a place is given.
fn queue_place<W: Waits>(
    inst: &Instance,
    lists: &[Seq<Post>],
    place: Option<ResourceId>,
    waits: &mut W,
)
    requires lists { AreLists is_on_workload (length inst.now.resources) inst.now.monitors lists.now }
    requires resource { (r : ResourceId) → place ≡ Some r → r.0 < length inst.now.resources }
    requires monitors { W.monitors waits.old ≡ length inst.now.monitors }
    ensures monitors { W.monitors waits.new ≡ W.monitors waits.old }
    ensures kept { WaitOn (W.waits waits.old) (W.waits waits.new) }
    ensures queued { W.hears ≡ true → IsPlaceQueued inst.now is_on_workload place (W.waits waits.new) }
{
    inst.facts();
    let Some(r) = place else {
        return;
    };
    let list = lists[r.0 as usize].as_slice();
    add_all(list, waits);
}

/// Queues the monitors on the workload of what a place is given before or after, unless that is the same for the same
/// duration.
#[inline(always)]
fn queue_other<W: Waits>(
    inst: &Instance,
    lists: &[Seq<Post>],
    resizes: bool,
    before: Option<ResourceId>,
    later: Option<ResourceId>,
    waits: &mut W,
)
    requires lists { AreLists is_on_workload (length inst.now.resources) inst.now.monitors lists.now }
    requires before { (r : ResourceId) → before ≡ Some r → r.0 < length inst.now.resources }
    requires later { (r : ResourceId) → later ≡ Some r → r.0 < length inst.now.resources }
    requires monitors { W.monitors waits.old ≡ length inst.now.monitors }
    ensures monitors { W.monitors waits.new ≡ W.monitors waits.old }
    ensures kept { WaitOn (W.waits waits.old) (W.waits waits.new) }
    ensures queued { W.hears ≡ true → ((resizes ≡ false) × (before ≡ later))
        ⊎ (IsPlaceQueued inst.now is_on_workload before (W.waits waits.new)
        × IsPlaceQueued inst.now is_on_workload later (W.waits waits.new)) }
{
    if !resizes && is_same(before, later) {
        return;
    }
    queue_place(inst, lists, before, waits);
    queue_place(inst, lists, later, waits);
}

/// Queues the monitors on the workloads that the effect on one slot may change. It takes time in proportion to the
/// slot's places and to these monitors.
pub(crate) fn queue_effect<W: Waits>(
    inst: &Instance,
    lists: &[Seq<Post>],
    effect: &Effect<'_>,
    waits: &mut W,
)
    requires lists { AreLists is_on_workload (length inst.now.resources) inst.now.monitors lists.now }
    requires turns { (s : List Slot) × IsTurn inst.now s effect.now }
    requires monitors { W.monitors waits.old ≡ length inst.now.monitors }
    ensures monitors { W.monitors waits.new ≡ W.monitors waits.old }
    ensures kept { WaitOn (W.waits waits.old) (W.waits waits.new) }
    ensures queued { W.hears ≡ true → (s : List Slot) → IsTurn inst.now s effect.now
        → AreLoadsQueued inst.now s (turned s effect.now) (W.waits waits.new) }
{
    inst.facts();
    let resizes = effect.resizes();
    let before = effect.given_before();
    let (later, regiven) = effect.given_after();
    for place in 0..before.len() {
        let old = before[place];
        let new = given_at(later, regiven, place);
        queue_other(inst, lists, resizes, old, new, waits);
    }
}
