//! By how many too few or too many meets would start in listed time groups after effects.

ghost use Rattle.std.specs.Prelude.{◌≡◌, ◌≤◌, ◌+◌, ◌*◌, ℕ, All, Bool, List, length};
ghost use Rattle.khe_base.specs.Bounds.{count_outside};
ghost use Rattle.khe_base.specs.declared.limits.TheConstants.{DURATION, GREATEST_DEVIATION, LISTED, NUMBER};
ghost use Rattle.khe_instance.specs.WellMade.{IsMonitor};
ghost use Rattle.khe_told.specs.Effects.{AreTurns, turned_all};
ghost use Rattle.khe_told.specs.Turns.{IsTurn, turned};
ghost use Rattle.khe_told.specs.declared.slots.Slot.{Slot};
ghost use Rattle.set_monitors.specs.SpreadEvents.{AreCounts, AreFew, counted_then, spread_by, started};

use crate::spread_events::{start_in, starts_in};
use event_monitors::names_event;
use khe_base::{IdSet, TimeId, count_out};
use khe_instance::{Instance, Monitor, Spread};
use khe_told::{Effect, Effects};

/// When the meet of a slot starts, and when it would start after an effect.
#[derive(Clone, Copy)]
pub(crate) struct Shift {
    before: Option<TimeId>,
    after: Option<TimeId>,
}

/// Those of one slot or of two, one after the other.
#[derive(Clone, Copy)]
pub(crate) struct Shifts {
    first: Shift,
    second: Shift,
}

/// That of no meet.
fn no_shift() -> Shift
    ensures { result ≡ record { before = None; after = None } }
{
    Shift {
        before: None,
        after: None,
    }
}

/// That of a slot of which a monitor counts the meet, and of no meet where the monitor does not name the event.
fn shift_of(inst: &Instance, monitor: Monitor, effect: &Effect<'_>) -> Shift
    requires { IsMonitor inst.now monitor }
    ensures { (s : List Slot) → IsTurn inst.now s effect.now → (times : List Bool)
        → started inst.now monitor (turned s effect.now) times
        ≡ counted_then (started inst.now monitor s times) times result.before result.after }
{
    let rule = &inst.constraint(monitor.constraint).rule;
    if !names_event(inst, rule, monitor.point, effect.event()) {
        return no_shift();
    }
    Shift {
        before: start_in(effect.before()),
        after: start_in(effect.after()),
    }
}

/// Those of all slots that effects change.
pub(crate) fn shifts_of(inst: &Instance, monitor: Monitor, effects: &Effects<'_>) -> Shifts
    requires { IsMonitor inst.now monitor }
    ensures { (s : List Slot) → AreTurns inst.now s effects.now → (times : List Bool)
        → started inst.now monitor (turned_all s effects.now) times
        ≡ counted_then (counted_then (started inst.now monitor s times) times result.first.before result.first.after)
        times result.second.before result.second.after }
{
    let (first, second) = effects.slots();
    let first = shift_of(inst, monitor, first);
    let second = match second {
        Some(second) => shift_of(inst, monitor, second),
        None => no_shift(),
    };
    Shifts { first, second }
}

/// How many meets start in a set of times after a shift, by how many there were before.
fn counted(count: u32, times: &IdSet, shift: Shift) -> u32
    requires { count ≤ DURATION + 1 }
    ensures count { result ≡ counted_then count times.now shift.before shift.after }
    ensures bound { result ≤ count + 1 }
{
    let goes = starts_in(times, shift.before);
    let comes = starts_in(times, shift.after);
    (count + u32::from(comes)).saturating_sub(u32::from(goes))
}

/// By how many too few or too many start in all listed groups, where it changes for one of them.
fn with_one(spread: &Spread, count: u32, outside: u64, shifts: &Shifts) -> u64
    requires few { count ≤ DURATION }
    requires least { spread.now.min ≤ NUMBER }
    requires small { outside ≤ GREATEST_DEVIATION + LISTED * (DURATION + NUMBER + 2) }
    ensures outside { (rest : ℕ) → outside ≡ rest + count_outside count spread.now.min spread.now.max
        → result ≡ rest + count_outside (counted_then (counted_then count spread.now.group shifts.now.first.before
        shifts.now.first.after) spread.now.group shifts.now.second.before shifts.now.second.after) spread.now.min
        spread.now.max }
    ensures bound { result ≤ outside + (DURATION + NUMBER + 2) }
{
    let new = counted(
        counted(count, &spread.group, shifts.first),
        &spread.group,
        shifts.second,
    );
    if new == count {
        return outside;
    }
    let rest = outside.saturating_sub(count_out(u64::from(count), spread.min, spread.max));
    rest + count_out(u64::from(new), spread.min, spread.max)
}

/// By how many too few or too many would start in the listed groups, by how many it is before. It takes the time of the
/// groups.
pub(crate) fn outside_after(spreads: &[Spread], counts: &[u32], outside: u64, shifts: Shifts) -> u64
    requires amount { length counts.now ≡ length spreads.now }
    requires few { AreFew counts.now }
    requires least { All (λ q. q.min ≤ NUMBER) spreads.now }
    requires listed { length spreads.now ≤ LISTED }
    requires small { outside ≤ GREATEST_DEVIATION }
    ensures { (f : List Bool → ℕ) → AreCounts f spreads.now counts.now → outside ≡ spread_by f spreads.now
        → result ≡ spread_by (λ g. counted_then (counted_then (f g) g shifts.first.before shifts.first.after) g
        shifts.second.before shifts.second.after) spreads.now }
{
    let mut total = outside;
    for (i, spread) in spreads.iter().enumerate() {
        total = with_one(spread, counts[i], total, &shifts);
    }
    total
}
