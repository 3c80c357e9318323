//! Raising and lowering workloads where a slot changes.

ghost use Rattle.std.specs.Prelude.{◌≡◌, ◌<◌, ℕ, true, false, length, slice_get, Some};
ghost use Rattle.khe_base.specs.declared.numbers.ResourceId.{ResourceId};
ghost use Rattle.khe_told.specs.Naming.{is_named};
ghost use Rattle.khe_told.specs.Turns.{AreWatchers, IsTurn, turned};
ghost use Rattle.khe_told.specs.Waits.{AreUnmoved, WaitOn};
ghost use Rattle.resource_monitors.specs.Posts.{AreLists};
ghost use Rattle.resource_monitors.specs.Loads.{AreAllExchanged, AreExchanged, AreMeasuredSame, AreOnEither, AreOnLoad};
ghost use Rattle.resource_monitors.specs.Loads.{AreOnMoved, CanExchange, CanTurn, HasLoads, Turned, is_on_workload};
ghost use Rattle.resource_monitors.specs.Loads.{worth_at};

use crate::load_waits::add_all;
use crate::loads::{length_of, turn_load, worth_of};
use crate::posts::Post;
use crate::regiven::Regiven;
use khe_base::{EventId, ResourceId, Seq};
use khe_instance::Instance;
use khe_told::{Told, Turn, Waits};

/// A task by which its resource has a workload: its event, how long its meet lasts, and its place.
#[derive(Clone, Copy)]
struct Task {
    event: EventId,
    duration: u32,
    number: usize,
}

/// A meet of an event, with how long it lasts before and after.
#[derive(Clone, Copy)]
struct Resized {
    event: EventId,
    less: u32,
    more: u32,
}

/// A place of a meet, with what it is given before and after.
#[derive(Clone, Copy)]
struct Handed {
    number: usize,
    before: Option<ResourceId>,
    later: Option<ResourceId>,
}

/// Raises or lowers the workload of the resource that a place is given, and queues the monitors on it.
fn follow_place<W: Waits>(
    inst: &Instance,
    lists: &[Seq<Post>],
    task: Task,
    place: Option<ResourceId>,
    rises: bool,
    loads: &mut Vec<u128>,
    waits: &mut W,
)
    requires lists { AreLists is_on_workload (length inst.now.resources) inst.now.monitors lists.now }
    requires event { task.event.0 < length inst.now.events }
    requires resources { length loads.old.items ≡ length inst.now.resources }
    requires resource { (r : ResourceId) → place ≡ Some r → r.0 < length inst.now.resources }
    requires can { CanTurn rises place (worth_at inst.now task.event task.duration task.number) loads.old.items }
    requires monitors { W.monitors waits.old ≡ length inst.now.monitors }
    ensures resources { length loads.new.items ≡ length loads.old.items }
    ensures loads { Turned rises place (worth_at inst.now task.event task.duration task.number) loads.old.items
        loads.new.items }
    ensures monitors { W.monitors waits.new ≡ W.monitors waits.old }
    ensures unmoved { W.hears ≡ true → AreMeasuredSame inst.now (W.waits waits.new) loads.old.items loads.new.items }
    ensures kept { WaitOn (W.waits waits.old) (W.waits waits.new) }
    ensures listed { AreOnLoad inst.now place (W.waits waits.old) (W.waits waits.new) }
{
    inst.facts();
    let Some(r) = place else {
        return;
    };
    let worth = worth_of(inst, task.event, task.duration, task.number);
    turn_load(loads, r, worth, rises);
    let list = lists[r.0 as usize].as_slice();
    add_all(list, waits);
}

/// Whether a place is given the same for the same duration.
fn is_same(before: Option<ResourceId>, later: Option<ResourceId>, less: u32, more: u32) -> bool
    ensures same { result ≡ true → (before ≡ later) × (less ≡ more) }
    ensures differ { result ≡ false → before ≡ later → less ≡ more → ⊥ }
{
    before == later && less == more
}

/// Lowers the workload of what a place is given before, and raises that of what it is given after. Where that is
/// the same for the same duration there is nothing to do.
fn follow_both<W: Waits>(
    inst: &Instance,
    lists: &[Seq<Post>],
    resized: Resized,
    handed: Handed,
    loads: &mut Vec<u128>,
    waits: &mut W,
)
    requires lists { AreLists is_on_workload (length inst.now.resources) inst.now.monitors lists.now }
    requires event { resized.event.0 < length inst.now.events }
    requires resources { length loads.old.items ≡ length inst.now.resources }
    requires before { (r : ResourceId) → handed.before ≡ Some r → r.0 < length inst.now.resources }
    requires later { (r : ResourceId) → handed.later ≡ Some r → r.0 < length inst.now.resources }
    requires some { CanTurn false handed.before (worth_at inst.now resized.event resized.less handed.number)
        loads.old.items }
    requires room { CanTurn true handed.later (worth_at inst.now resized.event resized.more handed.number)
        loads.old.items }
    requires monitors { W.monitors waits.old ≡ length inst.now.monitors }
    ensures resources { length loads.new.items ≡ length loads.old.items }
    ensures loads { AreExchanged handed.before handed.later (worth_at inst.now resized.event resized.less handed.number)
        (worth_at inst.now resized.event resized.more handed.number) loads.old.items loads.new.items }
    ensures monitors { W.monitors waits.new ≡ W.monitors waits.old }
    ensures unmoved { W.hears ≡ true → AreMeasuredSame inst.now (W.waits waits.new) loads.old.items loads.new.items }
    ensures kept { WaitOn (W.waits waits.old) (W.waits waits.new) }
    ensures listed { AreOnEither inst.now handed.before handed.later resized.less resized.more (W.waits waits.old)
        (W.waits waits.new) }
{
    let Resized { event, less, more } = resized;
    let Handed {
        number,
        before,
        later,
    } = handed;
    if is_same(before, later, less, more) {
        return;
    }
    let lost = Task {
        event,
        duration: less,
        number,
    };
    follow_place(inst, lists, lost, before, false, loads, waits);
    let gained = Task {
        event,
        duration: more,
        number,
    };
    follow_place(inst, lists, gained, later, true, loads, waits);
}

/// Lowers the workloads of what the places of a meet are given before, and raises those of what they are given after.
/// It looks at these places alone: any other is given the same for the same duration.
fn follow_all<W: Waits>(
    inst: &Instance,
    lists: &[Seq<Post>],
    resized: Resized,
    regiven: &Regiven<'_>,
    loads: &mut Vec<u128>,
    waits: &mut W,
)
    requires lists { AreLists is_on_workload (length inst.now.resources) inst.now.monitors lists.now }
    requires can { CanExchange inst.now resized.event resized.less resized.more regiven.now.before.now
        regiven.now.later.now loads.old.items }
    requires still { (j : ℕ) → is_named regiven.now.places j ≡ false
        → (slice_get regiven.now.before.now j ≡ slice_get regiven.now.later.now j) × (resized.less ≡ resized.more) }
    requires monitors { W.monitors waits.old ≡ length inst.now.monitors }
    ensures resources { length loads.new.items ≡ length loads.old.items }
    ensures loads { AreAllExchanged inst.now resized.event resized.less resized.more regiven.now.before.now
        regiven.now.later.now loads.old.items loads.new.items }
    ensures monitors { W.monitors waits.new ≡ W.monitors waits.old }
    ensures unmoved { W.hears ≡ true → AreMeasuredSame inst.now (W.waits waits.new) loads.old.items loads.new.items }
    ensures kept { WaitOn (W.waits waits.old) (W.waits waits.new) }
    ensures listed { AreOnMoved inst.now resized.less resized.more regiven.now.before.now regiven.now.later.now
        (W.waits waits.old) (W.waits waits.new) }
{
    let mut number = regiven.places.next(0);
    while number < regiven.before.len() {
        let handed = Handed {
            number,
            before: regiven.before[number],
            later: regiven.later[number],
        };
        follow_both(inst, lists, resized, handed, loads, waits);
        number = regiven.places.next(number + 1);
    }
}

/// Turns the workloads where a slot changes, and queues the monitors on them. It takes time in proportion
/// to the places that are altered and the monitors on their workloads.
pub(crate) fn turn_loads<W: Waits>(
    inst: &Instance,
    told: &Told,
    turn: &Turn<'_>,
    lists: &[Seq<Post>],
    loads: &mut Vec<u128>,
    waits: &mut W,
)
    requires turns { IsTurn inst.now told.now turn.now }
    requires lists { AreLists is_on_workload (length inst.now.resources) inst.now.monitors lists.now }
    requires loads { HasLoads inst.now told.now loads.old.items }
    requires monitors { W.monitors waits.old ≡ length inst.now.monitors }
    ensures loads { HasLoads inst.now (turned told.now turn.now) loads.new.items }
    ensures monitors { W.monitors waits.new ≡ W.monitors waits.old }
    ensures unmoved { W.hears ≡ true → AreUnmoved inst.now is_on_workload (W.waits waits.new) told.now
        (turned told.now turn.now) }
    ensures kept { WaitOn (W.waits waits.old) (W.waits waits.new) }
    ensures watchers { AreWatchers inst.now turn.now (W.waits waits.old) (W.waits waits.new) }
{
    let _ = told;
    inst.facts();
    let event = turn.event();
    let less = length_of(turn.before());
    let more = length_of(turn.after());
    let before = turn.given_before();
    let later = turn.given_after();
    let places = turn.altered();
    let resized = Resized { event, less, more };
    let regiven = Regiven {
        before,
        later,
        places,
    };
    follow_all(inst, lists, resized, &regiven, loads, waits);
}
