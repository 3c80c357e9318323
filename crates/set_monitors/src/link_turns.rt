//! Turning the gauge of Link Events where a slot changes.

ghost use Rattle.std.specs.Prelude.{◌≡◌, ◌<◌, ◌≤◌, ℕ, true, Some, length, slice_get};
ghost use Rattle.khe_base.specs.declared.limits.TheConstants.{EVENTS};
ghost use Rattle.khe_instance.specs.KindLaws.{is_kind};
ghost use Rattle.khe_instance.specs.WellMade.{IsMonitor};
ghost use Rattle.khe_instance.specs.declared.points.Point.TheVariants.{EventGroup};
ghost use Rattle.khe_instance.specs.declared.rules.Kind.TheVariants as kind;
ghost use Rattle.khe_told.specs.Turns.{IsTurn, turned};
ghost use Rattle.event_monitors.specs.Posts.{names};
ghost use Rattle.set_monitors.specs.LinkCounts.{AreLinked};
ghost use Rattle.set_monitors.specs.Links.{AreAscending, AreOfGroup, members_at};

use crate::event_ranks::rank_of;
use crate::link_runs::{fill_meet, free_meet};
use crate::links::Links;
use khe_base::{EventId, ResourceId};
use khe_instance::{Instance, Monitor, Point};
use khe_told::{Told, Turn};

/// The events of the group that a point is, ascending.
pub(crate) fn members(inst: &Instance, point: Point) -> &[u32]
    requires { (g : ℕ) → point ≡ EventGroup g → g < length inst.now.groups }
    ensures { result.now ≡ members_at inst.now point }
{
    match point {
        Point::EventGroup(group) => inst.members(group),
        _ => &[],
    }
}

/// The row of an event of a group, by its place among the members.
fn row_of_event(events: &[u32], event: EventId) -> ResourceId
    requires ascending { AreAscending events.now }
    requires there { (k : ℕ) × (slice_get events.now k ≡ Some event.0) }
    requires few { length events.now ≤ EVENTS }
    ensures { slice_get events.now result.0 ≡ Some event.0 }
{
    ResourceId(rank_of(events, event) as u32)
}

/// The row of an event that a monitor names in the counts of the monitor's group.
fn row_in(inst: &Instance, monitor: Monitor, event: EventId) -> ResourceId
    requires monitor { IsMonitor inst.now monitor }
    requires served { is_kind monitor.kind kind.LinkEvents ≡ true }
    requires named { names inst.now event.0 monitor ≡ true }
    ensures { slice_get (members_at inst.now monitor.point) result.0 ≡ Some event.0 }
{
    inst.facts();
    row_of_event(members(inst, monitor.point), event)
}

/// Follows a turn of a slot of an event of a monitor's group, by the state before it. It takes the time of the
/// meet's times before and after and of the logarithm of the group's events, and no memory.
pub(crate) fn follow(
    links: &mut Links,
    inst: &Instance,
    monitor: Monitor,
    told: &Told,
    turn: &Turn<'_>,
)
    requires monitor { IsMonitor inst.now monitor }
    requires served { is_kind monitor.kind kind.LinkEvents ≡ true }
    requires of { AreOfGroup inst.now monitor.point told.now links.old.table (length links.old.running.items) }
    requires linked { AreLinked links.old.table links.old.events links.old.running.items links.old.apart }
    requires turns { IsTurn inst.now told.now turn.now }
    requires named { names inst.now turn.now.before.event.0 monitor ≡ true }
    ensures of { AreOfGroup inst.now monitor.point (turned told.now turn.now) links.new.table (length links.new.running.items) }
    ensures linked { AreLinked links.new.table links.new.events links.new.running.items links.new.apart }
{
    let _ = told;
    inst.facts();
    let row = row_in(inst, monitor, turn.event());
    let old = turn.before();
    let new = turn.after();
    free_meet(links, row, old);
    fill_meet(links, row, new);
}
