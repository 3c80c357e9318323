//! Which monitors are queued where the cells of a resource change.

ghost use Rattle.std.specs.Prelude.{◌≡◌, ◌≤◌, ◌<◌, ◌&&◌, ◌||◌, ℕ, true, length, nat_eq, Some};
ghost use Rattle.khe_base.specs.declared.numbers.ResourceId.{ResourceId};
ghost use Rattle.khe_instance.specs.WellMade.{IsMonitor};
ghost use Rattle.timetables.specs.Counts.{row_of};
ghost use Rattle.resource_monitors.specs.Cells.{HasRows, is_due, is_due_if, is_low, lists, lists_all, lists_any};
ghost use Rattle.resource_monitors.specs.Cells.{may_differ};
ghost use Rattle.resource_monitors.specs.Posts.{ArePosts, AreLists, AreAdded, list_for};
ghost use Rattle.resource_monitors.specs.Sets.{room_for};

use crate::kinds::{CellKinds, is_by_busy};
use crate::posts::Post;
use crate::rooms::TimeSets;
use crate::runs::Run;
use crate::tables::CellTable;
use khe_base::{ResourceId, Seq, TimeId};
use khe_instance::{Instance, Kind, Monitor};
use khe_told::Waits;

/// The monitors that may be queued where the cells of a resource change, listed by resource, with the times that their
/// constraints list.
#[derive(Clone, Copy)]
pub(crate) struct Audience<'a> {
    pub(crate) inst: &'a Instance,
    pub(crate) sets: &'a TimeSets,
    pub(crate) lists: &'a [Seq<Post>],
}

/// Whether a kind lists all times.
fn lists_all(kind: Kind) -> bool
    ensures { result ≡ lists_all kind }
{
    kind == Kind::AvoidClashes
}

/// Whether a monitor lists a time: all, or those of its constraint's sets. It takes constant time.
fn lists(_inst: &Instance, sets: &TimeSets, monitor: Monitor, time: u32) -> bool
    requires sets { sets.now ≡ room_for _inst.now }
    requires monitor { IsMonitor _inst.now monitor }
    ensures { result ≡ lists _inst.now monitor time }
{
    lists_all(monitor.kind) || sets.has(monitor.constraint, time)
}

/// Whether a monitor lists one of the times of a run.
fn lists_one(inst: &Instance, sets: &TimeSets, monitor: Monitor, start: u32, end: u32) -> bool
    requires sets { sets.now ≡ room_for inst.now }
    requires monitor { IsMonitor inst.now monitor }
    ensures { result ≡ lists_any inst.now start end monitor }
{
    for t in start..end {
        if lists(inst, sets, monitor, t) {
            return true;
        }
    }
    false
}

/// Whether the monitors of a kind may measure other values than before, by whether one of the counts
/// is low.
fn may_differ(kind: Kind, low: bool) -> bool
    ensures { result ≡ may_differ kind low }
{
    !is_by_busy(kind) || low
}

/// Whether a monitor lists one of the times of a run and may measure another value.
fn is_due(
    inst: &Instance,
    sets: &TimeSets,
    monitor: Monitor,
    start: u32,
    end: u32,
    low: bool,
) -> bool
    requires sets { sets.now ≡ room_for inst.now }
    requires monitor { IsMonitor inst.now monitor }
    ensures { result ≡ is_due_if inst.now start end low monitor }
{
    may_differ(monitor.kind, low) && lists_one(inst, sets, monitor, start, end)
}

/// Queues a monitor, if it lists one of the times and may measure another value.
fn add_one<W: Waits>(
    inst: &Instance,
    sets: &TimeSets,
    start: u32,
    end: u32,
    low: bool,
    post: Post,
    waits: &mut W,
)
    requires hears { W.hears ≡ true }
    requires sets { sets.now ≡ room_for inst.now }
    requires monitor { IsMonitor inst.now post.monitor }
    requires known { post.number.0 < W.monitors waits.old }
    ensures monitors { W.monitors waits.new ≡ W.monitors waits.old }
    ensures waits { (k : ℕ) → W.waits waits.new k
        ≡ (W.waits waits.old k || (is_due_if inst.now start end low post.monitor && nat_eq k post.number.0)) }
{
    if is_due(inst, sets, post.monitor, start, end, low) {
        waits.add(post.number);
    }
}

/// Lets each monitor of a list wait that lists one of the times and may measure another value. The list's last comes
/// first: an instance mostly has its rule on clashes before the others at resources, and what came last is measured
/// first.
fn add_due<W: Waits>(
    inst: &Instance,
    sets: &TimeSets,
    start: u32,
    end: u32,
    low: bool,
    list: &[Post],
    waits: &mut W,
)
    requires hears { W.hears ≡ true }
    requires sets { sets.now ≡ room_for inst.now }
    requires posts { ArePosts inst.now list.now }
    requires monitors { W.monitors waits.old ≡ length inst.now.monitors }
    ensures monitors { W.monitors waits.new ≡ W.monitors waits.old }
    ensures added { AreAdded (is_due_if inst.now start end low) list.now (length list.now) (W.waits waits.old)
        (W.waits waits.new) }
{
    inst.facts();
    let mut place = list.len();
    while place > 0 {
        place -= 1;
        add_one(inst, sets, start, end, low, list[place], waits);
    }
}

/// Whether one of a resource's counts at the times of a run is no more than a limit.
fn is_low(table: &CellTable, r: ResourceId, start: u32, end: u32, limit: u32) -> bool
    requires resource { r.0 < length table.now }
    requires times { end ≤ length (row_of table.now r.0) }
    ensures { result ≡ is_low table.now start end limit r.0 }
{
    for t in start..end {
        if table.count(r, TimeId(t)) <= limit {
            return true;
        }
    }
    false
}

/// Queues the monitors of a place's resource that list one of the times. Where the resource's counts are all above a
/// limit, monitors that are measured by busy times alone are passed over.
pub(crate) fn add_place<K: CellKinds, W: Waits>(
    audience: &Audience<'_>,
    table: &CellTable,
    run: Run,
    limit: u32,
    place: Option<ResourceId>,
    waits: &mut W,
)
    requires hears { W.hears ≡ true }
    requires sets { audience.now.sets.now ≡ room_for audience.now.inst.now }
    requires rows { HasRows audience.now.inst.now table.now }
    requires times { run.end ≤ length audience.now.inst.now.times }
    requires lists { AreLists K.serves_kind (length audience.now.inst.now.resources) audience.now.inst.now.monitors
        audience.now.lists.now }
    requires resource { (r : ResourceId) → place ≡ Some r → r.0 < length audience.now.inst.now.resources }
    requires monitors { W.monitors waits.old ≡ length audience.now.inst.now.monitors }
    ensures monitors { W.monitors waits.new ≡ W.monitors waits.old }
    ensures added { AreAdded (is_due audience.now.inst.now table.now run.start run.end limit)
        (list_for K.serves_kind audience.now.inst.now.monitors place)
        (length (list_for K.serves_kind audience.now.inst.now.monitors place)) (W.waits waits.old) (W.waits waits.new) }
{
    let Some(r) = place else {
        return;
    };
    let low = is_low(table, r, run.start, run.end, limit);
    let lists = audience.lists;
    let list = lists[r.0 as usize].as_slice();
    add_due(
        audience.inst,
        audience.sets,
        run.start,
        run.end,
        low,
        list,
        waits,
    );
}
