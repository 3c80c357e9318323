//! The times at which a meet without a start may start.

ghost use Rattle.std.specs.Prelude.{◌≡◌, ◌==◌, ◌<◌, ◌≤◌, ◌+◌, ◌^◌, nat_lt, true, ℕ, length, IfOk, OnOk};
ghost use Rattle.std.specs.Option.{option_map_or};
ghost use Rattle.khe_base.specs.IdSet.{has_member};
ghost use Rattle.khe_instance.specs.declared.rules.Rule.TheVariants.{PreferTimes};
ghost use Rattle.hall_report.specs.Opening.{AreNarrowedBy, AreStartEntries, AreStartsTo, AreWholeStarts, ServesFor, event_of};
ghost use Rattle.hall_report.specs.Picks.{AreStartSets};
ghost use Rattle.hall_report.specs.Sets.{AreSets};
ghost use Rattle.hall_report.specs.Strict.{is_strict};
ghost use Rattle.hall_report.specs.Units.{units_of};

use crate::sets::narrow;
use khe_base::{EventId, IdSet, MeetId, MonitorId, NoMemory, Seq};
use khe_instance::{Constraint, Instance, Point, Rule};
use std::alloc::Global;

/// The sets, and for each event and duration up to the event's the number of its set, at the event's
/// first meet slot and one place less than the duration from there on.
#[derive(Drop)]
pub(crate) struct StartSets {
    pub(crate) sets: Seq<IdSet>,
    pub(crate) entries: Vec<u32>,
}

/// Whether a constraint is required and has a weight above 0.
pub(crate) fn is_strict(constraint: &Constraint) -> bool
    ensures { result ≡ is_strict constraint.now }
{
    constraint.required && constraint.weight > 0
}

/// The sets of an instance. It takes time and memory in proportion to the square of the times, the
/// meet slots, and the times once for each event and duration that a strict constraint speaks of,
/// time once for each such constraint.
pub(crate) fn start_sets(alloc: Global, inst: &Instance) -> Result<StartSets, NoMemory>
    ensures { IfOk result (λ starts. AreStartSets inst.now starts.sets starts.entries.items) }
{
    inst.facts();
    let sets = whole_sets(alloc, inst.times())?;
    let entries = whole_entries(alloc, inst)?;
    let mut starts = StartSets { sets, entries };
    narrow_all(alloc, inst, &mut starts)?;
    Ok(starts)
}

// For each duration, up to one more than there are times, the times at which a meet of this
// duration may start so that it ends with the last time or before.
#[tactic(auto, using(crate::proofs::SetsOpened::whole_more, crate::proofs::SetsOpened::whole_none))]
fn whole_sets(alloc: Global, times: u32) -> Result<Seq<IdSet>, NoMemory>
    requires { times + 2 < 2 ^ 32 }
    ensures { IfOk result (λ sets. AreWholeStarts times (times + 2) sets) }
{
    let mut sets = Seq::new(alloc);
    for duration in 0..times + 2 {
        let count = (times + 1 - duration).min(times);
        sets.push(first_times(alloc, times, count)?)?;
    }
    Ok(sets)
}

// The set of the first `count` times.
#[tactic(auto, using(crate::proofs::SetLaws::upto_none, crate::proofs::SetLaws::upto_with, crate::proofs::SetLaws::upto_all))]
fn first_times(alloc: Global, times: u32, count: u32) -> Result<IdSet, NoMemory>
    requires { count ≤ times }
    ensures size { IfOk result (λ set. length set ≡ times) }
    ensures members { IfOk result (λ set. (t : ℕ) → has_member set t ≡ nat_lt t count) }
{
    let mut set = IdSet::new(alloc, times)?;
    for time in 0..count {
        set.insert(time);
    }
    Ok(set)
}

// The number of the set for a duration: no meet of more than all times fits.
fn set_for(times: u32, duration: u32) -> u32
    requires some { 1 ≤ duration }
    requires few { times + 2 < 2 ^ 32 }
    ensures { ServesFor times duration result }
{
    duration.min(times + 1)
}

// For each meet slot the set of the duration that it stands for.
#[tactic(auto, using(crate::proofs::SetsOpened::entries_none))]
fn whole_entries(alloc: Global, inst: &Instance) -> Result<Vec<u32>, NoMemory>
    ensures { IfOk result (λ entries. AreStartEntries inst.now.events (length inst.now.times) (units_of inst.now.events) entries.items) }
{
    inst.facts();
    let mut entries = Vec::new(alloc);
    for slot in 0..inst.meet_slots() {
        let event = inst.event(inst.event_of(MeetId(slot)));
        entries.push(set_for(inst.times(), slot - event.first_meet + 1))?;
    }
    Ok(entries)
}

fn narrow_all(alloc: Global, inst: &Instance, starts: &mut StartSets) -> Result<(), NoMemory>
    requires { AreStartsTo inst.now 0 starts.old.sets starts.old.entries.items }
    ensures { OnOk result (AreStartsTo inst.now (length inst.now.monitors) starts.new.sets starts.new.entries.items) }
{
    for number in 0..inst.monitors() {
        narrow_by(alloc, inst, starts, MonitorId(number))?;
    }
    Ok(())
}

// Narrows the sets of a monitor's event to what its constraint lets start.
fn narrow_by(
    alloc: Global,
    inst: &Instance,
    starts: &mut StartSets,
    number: MonitorId,
) -> Result<(), NoMemory>
    requires there { number.0 < length inst.now.monitors }
    requires sets { AreStartsTo inst.now number.0 starts.old.sets starts.old.entries.items }
    ensures { OnOk result (AreStartsTo inst.now (number.0 + 1) starts.new.sets starts.new.entries.items) }
{
    inst.facts();
    let monitor = inst.monitor(number);
    let constraint = inst.constraint(monitor.constraint);
    if !is_strict(constraint) {
        return Ok(());
    }
    let Rule::PreferTimes { times, duration } = &constraint.rule else {
        return Ok(());
    };
    let Some(event) = event_of(monitor.point) else {
        return Ok(());
    };
    let event = inst.event(event);
    narrow_event(
        alloc,
        inst.times() + 2,
        event.first_meet,
        event.duration,
        starts,
        times,
        *duration,
    )?;
    Ok(())
}

// The event of a point, where it is one.
fn event_of(point: Point) -> Option<EventId>
    ensures { result ≡ event_of point }
{
    match point {
        Point::Event(event) => Some(event),
        _ => None,
    }
}

// Narrows the sets of `count` durations from an entry on, or of one of them, to the preferred times.
fn narrow_event(
    alloc: Global,
    shared: u32,
    first: u32,
    count: u32,
    starts: &mut StartSets,
    times: &IdSet,
    only: Option<u32>,
) -> Result<(), NoMemory>
    requires within { first + count ≤ length starts.old.entries.items }
    requires few { length starts.old.entries.items < 2 ^ 32 }
    requires sets { AreSets shared (length times.now) starts.old.sets starts.old.entries.items }
    ensures sets { OnOk result (AreSets shared (length times.now) starts.new.sets starts.new.entries.items) }
    ensures narrowed { OnOk result (AreNarrowedBy (PreferTimes times.now only) first count starts.old.sets starts.old.entries.items starts.new.sets starts.new.entries.items) }
{
    for more in 0..count {
        if is_one(only, more + 1) {
            let entry = (first + more) as usize;
            narrow(
                alloc,
                &mut starts.sets,
                &mut starts.entries,
                shared,
                entry,
                times,
            )?;
        }
    }
    Ok(())
}

// Whether a duration is the one, where there is one.
fn is_one(only: Option<u32>, duration: u32) -> bool
    ensures { result ≡ option_map_or (λ x. x == duration) only true }
{
    match only {
        Some(only) => only == duration,
        None => true,
    }
}
