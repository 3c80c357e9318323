//! Effects that leave what some kinds are read from.

ghost use Rattle.std.specs.Prelude.{◌≡◌, ◌⊎◌, false, true};
ghost use Rattle.khe_instance.specs.declared.parts.Parts.{Parts};
ghost use Rattle.khe_instance.specs.declared.points.Monitor.{Monitor};
ghost use Rattle.event_monitors.specs.Shares.{KeepsMeet};
ghost use Rattle.set_monitors.specs.Foreseeing.{AllKeep, AreCutOrKeep, KeepsOrElsewhere, group_has};

use event_monitors::alters_meet;
use khe_base::EventId;
use khe_instance::{Instance, Monitor, Point};
use khe_told::{Effect, Effects};

/// Whether a meet is cut, or each slot would keep its meet. It takes constant time.
pub(crate) fn keep_meets(effects: &Effects<'_>) -> bool
    ensures { result ≡ true → (p : Parts) (m : Monitor) → AreCutOrKeep (KeepsOrElsewhere p m) effects.now }
{
    effects.is_cut() || keep_all_meets(effects)
}

/// Whether each slot would keep its meet.
fn keep_all_meets(effects: &Effects<'_>) -> bool
    ensures { result ≡ true → (p : Parts) (m : Monitor) → AllKeep (KeepsOrElsewhere p m) effects.now }
{
    let (first, second) = effects.slots();
    if alters_meet(first) {
        return false;
    }
    match second {
        Some(second) => !alters_meet(second),
        None => true,
    }
}

/// Whether a point is a group that has an event, or no group. It takes the time of a look into the group.
fn has_event(inst: &Instance, point: Point, event: EventId) -> bool
    ensures { result ≡ group_has inst.now point event.0 }
{
    match point {
        Point::EventGroup(group) => {
            group < inst.event_groups() && inst.event_group(group).has(event.0)
        }
        _ => true,
    }
}

/// Whether a slot would keep its meet, or is of an event that a point at a group does not name.
fn keeps_named(inst: &Instance, point: Point, effect: &Effect<'_>) -> bool
    ensures { result ≡ true → KeepsMeet effect.now ⊎ (group_has inst.now point effect.now.before.event.0 ≡ false) }
{
    !alters_meet(effect) || !has_event(inst, point, effect.event())
}

/// Whether a meet is cut, or each slot would keep its meet or is of an event that a monitor at a group does not name.
/// It takes the time of two looks into the group.
pub(crate) fn keep_named(inst: &Instance, monitor: Monitor, effects: &Effects<'_>) -> bool
    ensures { result ≡ true → AreCutOrKeep (KeepsOrElsewhere inst.now monitor) effects.now }
{
    effects.is_cut() || keep_all_named(inst, monitor, effects)
}

/// Whether each slot would keep its meet or is of an event that a monitor at a group does not name.
fn keep_all_named(inst: &Instance, monitor: Monitor, effects: &Effects<'_>) -> bool
    ensures { result ≡ true → AllKeep (KeepsOrElsewhere inst.now monitor) effects.now }
{
    let (first, second) = effects.slots();
    if !keeps_named(inst, monitor.point, first) {
        return false;
    }
    match second {
        Some(second) => keeps_named(inst, monitor.point, second),
        None => true,
    }
}
