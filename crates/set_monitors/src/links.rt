//! The gauge of Link Events.

ghost use Rattle.std.specs.Prelude.{◌≡◌, ◌<◌, ◌≤◌, ◌+◌, ◌-◌, length, replicate, slice_index, slice_set, if◌then◌else◌, IfOk};
ghost use Rattle.khe_base.specs.declared.limits.TheConstants.{GREATEST_COUNT, TIMES};
ghost use Rattle.timetables.specs.Counts.{no_counts, count_at, with_count};
ghost use Rattle.set_monitors.specs.LinkCounts.{is_apart, AreLinked};

use khe_base::{NoMemory, ResourceId, Seq, TimeId, both};
use std::alloc::Global;
use timetables::Timetable;

/// The gauge of Link Events: how many meets of each event of a group run at each time, how many of
/// the events run then, and at how many times some of them run and some do not.
#[derive(Drop)]
pub struct Links {
    /// How many meets of each event run at each time: a row for each event, as a timetable has one
    /// for each resource.
    pub(crate) table: Timetable,
    /// How many events there are.
    pub(crate) events: u32,
    /// How many of them run at each time.
    pub(crate) running: Vec<u32>,
    /// At how many times some of them run and some do not.
    pub(crate) apart: u32,
}

/// The given numbers of events, none with a meet, and of times. It takes time and memory in
/// proportion to events times times.
pub(crate) fn no_links(alloc: Global, events: u32, times: u32) -> Result<Links, NoMemory>
    requires { times ≤ TIMES }
    ensures table { IfOk result (λ l. l.table ≡ no_counts events times) }
    ensures times { IfOk result (λ l. length l.running.items ≡ times) }
    ensures linked { IfOk result (λ l. AreLinked l.table l.events l.running.items l.apart) }
{
    let table = Timetable::open(alloc, events, times);
    let running = none_running(alloc, times);
    let (running, table) = both(running, table)?;
    Ok(Links {
        apart: 0,
        events,
        running: running.items,
        table,
    })
}

/// A 0 for each time.
fn none_running(alloc: Global, times: u32) -> Result<Seq<u32>, NoMemory>
    ensures { IfOk result (λ running. running ≡ replicate times 0) }
{
    let items = vec![in alloc; 0; times as usize]?;
    Ok(Seq { items })
}

/// Whether some of the events run, and not all.
fn is_apart(running: u32, events: u32) -> bool
    ensures { result ≡ is_apart running events }
{
    0 < running && running < events
}

/// Changes how many events run at a time. What is returned is at how many times some of them run
/// and some do not, by how many there were before.
fn recount(running: &mut Vec<u32>, events: u32, apart: u32, time: TimeId, now: u32) -> u32
    requires time { time.0 < length running.old.items }
    requires apart { (if is_apart (slice_index running.old.items time.0) events then 1 else 0) ≤ apart }
    requires small { apart ≤ TIMES }
    ensures running { running.new.items ≡ slice_set running.old.items time.0 now }
    ensures apart { result ≡ apart - (if is_apart (slice_index running.old.items time.0) events then 1 else 0) + (if is_apart now events then 1 else 0) }
{
    let place = time.0 as usize;
    let before = u32::from(is_apart(running[place], events));
    running[place] = now;
    apart - before + u32::from(is_apart(now, events))
}

/// One more meet of an event at a time, in the counts of the meets and of the events that run then.
/// What is returned is at how many times some events run and some do not, by how many there were
/// before.
fn raise(
    table: &mut Timetable,
    running: &mut Vec<u32>,
    events: u32,
    apart: u32,
    event: ResourceId,
    time: TimeId,
) -> u32
    requires linked { AreLinked table.old events running.old.items apart }
    requires event { event.0 < length table.old }
    requires time { time.0 < length running.old.items }
    requires room { count_at table.old event.0 time.0 < GREATEST_COUNT }
    ensures table { table.new ≡ with_count table.old event.0 time.0 (count_at table.old event.0 time.0 + 1) }
    ensures times { length running.new.items ≡ length running.old.items }
    ensures linked { AreLinked table.new events running.new.items result }
{
    let runs = table.busy(event, time);
    table.rise(event, time);
    if runs {
        return apart;
    }
    let now = running[time.0 as usize] + 1;
    recount(running, events, apart, time, now)
}

/// One meet of an event less at a time, in the same counts.
fn lower(
    table: &mut Timetable,
    running: &mut Vec<u32>,
    events: u32,
    apart: u32,
    event: ResourceId,
    time: TimeId,
) -> u32
    requires linked { AreLinked table.old events running.old.items apart }
    requires event { event.0 < length table.old }
    requires time { time.0 < length running.old.items }
    requires some { 0 < count_at table.old event.0 time.0 }
    ensures table { table.new ≡ with_count table.old event.0 time.0 (count_at table.old event.0 time.0 - 1) }
    ensures times { length running.new.items ≡ length running.old.items }
    ensures linked { AreLinked table.new events running.new.items result }
{
    table.fall(event, time);
    if table.busy(event, time) {
        return apart;
    }
    let now = running[time.0 as usize] - 1;
    recount(running, events, apart, time, now)
}

/// One more meet of an event at a time. It takes constant time and no memory.
pub(crate) fn rise(links: &mut Links, event: ResourceId, time: TimeId)
    requires linked { AreLinked links.old.table links.old.events links.old.running.items links.old.apart }
    requires event { event.0 < length links.old.table }
    requires time { time.0 < length links.old.running.items }
    requires room { count_at links.old.table event.0 time.0 < GREATEST_COUNT }
    ensures table { links.new.table ≡ with_count links.old.table event.0 time.0 (count_at links.old.table event.0 time.0 + 1) }
    ensures times { length links.new.running.items ≡ length links.old.running.items }
    ensures linked { AreLinked links.new.table links.new.events links.new.running.items links.new.apart }
{
    let table = &mut links.table;
    let running = &mut links.running;
    links.apart = raise(table, running, links.events, links.apart, event, time);
}

/// One meet of an event less at a time. It takes constant time and no memory.
pub(crate) fn fall(links: &mut Links, event: ResourceId, time: TimeId)
    requires linked { AreLinked links.old.table links.old.events links.old.running.items links.old.apart }
    requires event { event.0 < length links.old.table }
    requires time { time.0 < length links.old.running.items }
    requires some { 0 < count_at links.old.table event.0 time.0 }
    ensures table { links.new.table ≡ with_count links.old.table event.0 time.0 (count_at links.old.table event.0 time.0 - 1) }
    ensures times { length links.new.running.items ≡ length links.old.running.items }
    ensures linked { AreLinked links.new.table links.new.events links.new.running.items links.new.apart }
{
    let table = &mut links.table;
    let running = &mut links.running;
    links.apart = lower(table, running, links.events, links.apart, event, time);
}
