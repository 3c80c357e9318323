//! What effects would make of the cells of a resource, and of what is measured by them.

ghost use Rattle.std.specs.Prelude.{◌≡◌, ◌<◌, ◌≤◌, ◌&&◌, ◌||◌, ◌⊎◌, ℕ, true, false, Some, None, List, length, nat_eq, slice_get};
ghost use Rattle.khe_base.specs.declared.numbers.ResourceId.{ResourceId};
ghost use Rattle.khe_instance.specs.Deviation.{measured};
ghost use Rattle.khe_instance.specs.Kinds.{kind_of};
ghost use Rattle.khe_instance.specs.Running.{running_tasks};
ghost use Rattle.khe_instance.specs.WellMade.{IsMonitor, IsRule};
ghost use Rattle.khe_told.specs.Agreement.{deviation_in};
ghost use Rattle.khe_told.specs.Effects.{AreTurns, turned_all};
ghost use Rattle.khe_told.specs.Lists.{duties_in};
ghost use Rattle.khe_told.specs.Turns.{IsTurn};
ghost use Rattle.khe_told.specs.Waits.{WaitOn};
ghost use Rattle.khe_told.specs.declared.slots.Slot.{Slot};
ghost use Rattle.timetables.specs.Counts.{count_at};
ghost use Rattle.resource_monitors.specs.Cells.{HasRows, is_at_cells};
ghost use Rattle.resource_monitors.specs.Effects.{AreCellsSettled, IsPlaceSettled, IsShort, is_changed};
ghost use Rattle.resource_monitors.specs.Posts.{AreAdded, AreLists, ArePosts};
ghost use Rattle.resource_monitors.specs.Runs.{run_of};
ghost use Rattle.resource_monitors.specs.Sets.{room_for, sets_of};
ghost use Rattle.resource_monitors.specs.Shifts.{CanShift, after_both};
ghost use Rattle.resource_monitors.specs.declared.posts.Post.{Post};

use crate::given::{given_at, is_same};
use crate::kinds::{CellKinds, is_by_busy};
use crate::posts::Post;
use crate::rooms::TimeSets;
use crate::row_measures::{busy_outside_of, busy_sets_outside_of, busy_total_of, idle_outside_of};
use crate::shifts::{Shifts, clashes_after, shifts_of};
use crate::tables::CellTable;
use crate::words::word_after;
use khe_base::{ResourceId, Seq};
use khe_instance::{Instance, Kind, Monitor, Point, Rule};
use khe_told::{Effect, Effects, Told, Waits};
use timetables::Mask;

/// What a rule would measure at a resource after effects, of at most 64 times. It takes time in proportion to the sets
/// and to how many times are lost and gained.
fn measure_after(
    inst: &Instance,
    rule: &Rule,
    masks: &[Mask],
    table: &CellTable,
    r: ResourceId,
    shifts: Shifts,
) -> u64
    requires rule { IsRule inst.now rule.now }
    requires kind { is_at_cells (kind_of rule.now) ≡ true }
    requires masks { masks.now ≡ sets_of rule.now }
    requires resource { r.0 < length inst.now.resources }
    requires rows { HasRows inst.now table.now }
    requires can { CanShift shifts (length inst.now.times) (count_at table.now r.0) }
    requires some { 0 < length inst.now.times }
    requires few { length inst.now.times ≤ 64 }
    ensures { result ≡ measured inst.now rule.now (after_both shifts (count_at table.now r.0)) 0 }
{
    inst.facts();
    let times = inst.times();
    let word = word_after(table, r, shifts);
    match rule {
        Rule::AvoidClashes => clashes_after(table, r, shifts, table.word(r), word),
        Rule::AvoidUnavailableTimes { .. } => busy_total_of(masks, word, times),
        Rule::LimitIdleTimes { min, max, .. } => idle_outside_of(masks, word, times, *min, *max),
        Rule::ClusterBusyTimes { min, max, .. } => {
            busy_sets_outside_of(masks, word, times, *min, *max)
        }
        Rule::LimitBusyTimes { min, max, .. } => busy_outside_of(masks, word, times, *min, *max),
        Rule::LimitWorkload { .. } => unreachable!(),
        _ => 0,
    }
}

/// What a monitor would measure at its resource after effects.
pub(crate) fn value_after(
    inst: &Instance,
    told: &Told,
    effects: &Effects<'_>,
    sets: &TimeSets,
    table: &CellTable,
    monitor: Monitor,
) -> u64
    requires monitor { IsMonitor inst.now monitor }
    requires kind { is_at_cells monitor.kind ≡ true }
    requires sets { sets.now ≡ room_for inst.now }
    requires turns { AreTurns inst.now told.now effects.now }
    requires rows { HasRows inst.now table.now }
    requires counts { (r t : ℕ) → count_at table.now r t ≡ running_tasks (duties_in told.now) r t }
    requires some { 0 < length inst.now.times }
    requires few { length inst.now.times ≤ 64 }
    ensures { result ≡ deviation_in inst.now (turned_all told.now effects.now) monitor }
{
    inst.facts();
    let Point::Resource(r) = monitor.point else {
        return 0;
    };
    let shifts = shifts_of(inst, told, effects, r);
    let rule = &inst.constraint(monitor.constraint).rule;
    let masks = sets.masks_of(monitor.constraint);
    measure_after(inst, rule, masks, table, r, shifts)
}

/// Whether what the monitors of a kind measure may be another, by whether busy times are and whether clashes are.
#[inline(always)]
fn is_changed(kind: Kind, busy: bool, clashes: bool) -> bool
    ensures { result ≡ is_changed kind busy clashes }
{
    if is_by_busy(kind) { busy } else { clashes }
}

/// Lets a monitor wait, if what it measures may be another.
#[inline(always)]
fn add_one<W: Waits>(post: Post, busy: bool, clashes: bool, waits: &mut W)
    requires hears { W.hears ≡ true }
    requires known { post.number.0 < W.monitors waits.old }
    ensures monitors { W.monitors waits.new ≡ W.monitors waits.old }
    ensures waits { (k : ℕ) → W.waits waits.new k
        ≡ (W.waits waits.old k || (is_changed post.monitor.kind busy clashes && nat_eq k post.number.0)) }
{
    if is_changed(post.monitor.kind, busy, clashes) {
        waits.add(post.number);
    }
}

/// Lets each monitor of a list wait whose measure may be another.
fn add_changed<W: Waits>(list: &[Post], busy: bool, clashes: bool, waits: &mut W)
    requires hears { W.hears ≡ true }
    requires known { (k : ℕ) (a : Post) → slice_get list.now k ≡ Some a → a.number.0 < W.monitors waits.old }
    ensures monitors { W.monitors waits.new ≡ W.monitors waits.old }
    ensures added { AreAdded (λ m. is_changed m.kind busy clashes) list.now (length list.now) (W.waits waits.old)
        (W.waits waits.new) }
{
    for post in list {
        add_one(*post, busy, clashes, waits);
    }
}

/// Whether two numbers differ.
#[inline(always)]
fn differs(one: u64, other: u64) -> bool
    ensures { result ≡ false → one ≡ other }
{
    one != other
}

/// Queues the monitors at what a place is given whose deviation would be another.
fn queue_place<K: CellKinds, W: Waits>(
    inst: &Instance,
    told: &Told,
    effects: &Effects<'_>,
    table: &CellTable,
    lists: &[Seq<Post>],
    place: Option<ResourceId>,
    waits: &mut W,
)
    requires hears { W.hears ≡ true }
    requires lists { AreLists K.serves_kind (length inst.now.resources) inst.now.monitors lists.now }
    requires resource { (r : ResourceId) → place ≡ Some r → r.0 < length inst.now.resources }
    requires turns { AreTurns inst.now told.now effects.now }
    requires rows { HasRows inst.now table.now }
    requires counts { (r t : ℕ) → count_at table.now r t ≡ running_tasks (duties_in told.now) r t }
    requires some { 0 < length inst.now.times }
    requires few { length inst.now.times ≤ 64 }
    requires monitors { W.monitors waits.old ≡ length inst.now.monitors }
    ensures monitors { W.monitors waits.new ≡ W.monitors waits.old }
    ensures kept { WaitOn (W.waits waits.old) (W.waits waits.new) }
    ensures settled { IsPlaceSettled inst.now K.serves_kind told.now (turned_all told.now effects.now) place
        (W.waits waits.new) }
{
    inst.facts();
    let Some(r) = place else {
        return;
    };
    let shifts = shifts_of(inst, told, effects, r);
    let before = table.word(r);
    let after = word_after(table, r, shifts);
    let clashes = clashes_after(table, r, shifts, before, after);
    let list = lists[r.0 as usize].as_slice();
    let busy = differs(before, after);
    let other = differs(clashes, table.clashes(r));
    add_changed(list, busy, other, waits);
}

/// Queues the monitors whose deviation the effect on one slot may change. It takes time in proportion to the slot's
/// places, and for each of these to the places of the effects' slots and to the monitors at what it is given.
pub(crate) fn queue_effect<K: CellKinds, W: Waits>(
    inst: &Instance,
    told: &Told,
    effects: &Effects<'_>,
    effect: &Effect<'_>,
    table: &CellTable,
    lists: &[Seq<Post>],
    waits: &mut W,
)
    requires hears { W.hears ≡ true }
    requires lists { AreLists K.serves_kind (length inst.now.resources) inst.now.monitors lists.now }
    requires turns { AreTurns inst.now told.now effects.now }
    requires turn { (s : List Slot) × IsTurn inst.now s effect.now }
    requires rows { HasRows inst.now table.now }
    requires counts { (r t : ℕ) → count_at table.now r t ≡ running_tasks (duties_in told.now) r t }
    requires some { 0 < length inst.now.times }
    requires few { length inst.now.times ≤ 64 }
    requires monitors { W.monitors waits.old ≡ length inst.now.monitors }
    ensures monitors { W.monitors waits.new ≡ W.monitors waits.old }
    ensures kept { WaitOn (W.waits waits.old) (W.waits waits.new) }
    ensures settled { AreCellsSettled inst.now K.serves_kind told.now (turned_all told.now effects.now)
        (run_of effect.now.before.span) (run_of effect.now.after.span) effect.now.before.given effect.now.after.given
        (W.waits waits.new) }
{
    inst.facts();
    let moves = effect.moves();
    let before = effect.given_before();
    let (later, regiven) = effect.given_after();
    for place in 0..before.len() {
        let old = before[place];
        let new = given_at(later, regiven, place);
        let from = other(moves, old, new, old);
        let to = other(moves, old, new, new);
        queue_place::<K, W>(inst, told, effects, table, lists, from, waits);
        queue_place::<K, W>(inst, told, effects, table, lists, to, waits);
    }
}

/// What a place is given, unless that is the same before and after at the same times.
#[inline(always)]
fn other(
    moves: bool,
    before: Option<ResourceId>,
    later: Option<ResourceId>,
    given: Option<ResourceId>,
) -> Option<ResourceId>
    ensures same { ((moves ≡ false) × (before ≡ later)) ⊎ (result ≡ given) }
    ensures given { (result ≡ None) ⊎ (result ≡ given) }
{
    if !moves && is_same(before, later) {
        return None;
    }
    given
}

/// Whether an instance has a time, and no more than the bits of a word.
#[inline(always)]
pub(crate) fn is_short(inst: &Instance) -> bool
    ensures short { result ≡ true → IsShort inst.now }
    ensures long { result ≡ false → IsShort inst.now → ⊥ }
{
    let times = inst.times();
    0 < times && times <= 64
}
