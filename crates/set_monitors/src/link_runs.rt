//! Counting a meet in or out at each time at which it runs.

ghost use Rattle.std.specs.Prelude.{◌≡◌, ◌<◌, ◌≤◌, ℕ, true, length};
ghost use Rattle.khe_base.specs.declared.limits.TheConstants.{GREATEST_COUNT};
ghost use Rattle.timetables.specs.Counts.{count_at};
ghost use Rattle.set_monitors.specs.LinkCounts.{AreLinked};
ghost use Rattle.set_monitors.specs.Links.{runs_in};
ghost use Rattle.set_monitors.specs.LinkRuns.{AreRaised, EndsBy, in_run};

use crate::links::{Links, fall, rise};
use khe_base::{ResourceId, TimeId};
use khe_told::Span;

/// One more meet of an event at each time of a run. It takes the time of the run, and no memory.
fn fill(links: &mut Links, event: ResourceId, start: u32, end: u32)
    requires linked { AreLinked links.old.table links.old.events links.old.running.items links.old.apart }
    requires event { event.0 < length links.old.table }
    requires order { start ≤ end }
    requires times { end ≤ length links.old.running.items }
    requires room { (t : ℕ) → in_run start end t ≡ true → count_at links.old.table event.0 t < GREATEST_COUNT }
    ensures counts { AreRaised event.0 (in_run start end) (count_at links.old.table) (count_at links.new.table) }
    ensures events { length links.new.table ≡ length links.old.table }
    ensures times { length links.new.running.items ≡ length links.old.running.items }
    ensures linked { AreLinked links.new.table links.new.events links.new.running.items links.new.apart }
{
    for t in start..end {
        rise(links, event, TimeId(t));
    }
}

/// One meet of an event less at each time of a run. It takes the time of the run, and no memory.
fn free(links: &mut Links, event: ResourceId, start: u32, end: u32)
    requires linked { AreLinked links.old.table links.old.events links.old.running.items links.old.apart }
    requires event { event.0 < length links.old.table }
    requires order { start ≤ end }
    requires times { end ≤ length links.old.running.items }
    requires some { (t : ℕ) → in_run start end t ≡ true → 0 < count_at links.old.table event.0 t }
    ensures counts { AreRaised event.0 (in_run start end) (count_at links.new.table) (count_at links.old.table) }
    ensures events { length links.new.table ≡ length links.old.table }
    ensures times { length links.new.running.items ≡ length links.old.running.items }
    ensures linked { AreLinked links.new.table links.new.events links.new.running.items links.new.apart }
{
    for t in start..end {
        fall(links, event, TimeId(t));
    }
}

/// One more meet of an event at each time at which a meet runs: at none where it has no start. It takes the
/// time of the meet's times, and no memory.
pub(crate) fn fill_meet(links: &mut Links, event: ResourceId, meet: Option<Span>)
    requires linked { AreLinked links.old.table links.old.events links.old.running.items links.old.apart }
    requires event { event.0 < length links.old.table }
    requires times { EndsBy meet (length links.old.running.items) }
    requires room { (t : ℕ) → runs_in meet t ≡ true → count_at links.old.table event.0 t < GREATEST_COUNT }
    ensures counts { AreRaised event.0 (runs_in meet) (count_at links.old.table) (count_at links.new.table) }
    ensures events { length links.new.table ≡ length links.old.table }
    ensures times { length links.new.running.items ≡ length links.old.running.items }
    ensures linked { AreLinked links.new.table links.new.events links.new.running.items links.new.apart }
{
    if let Some(
        Span {
            duration,
            start: Some(start),
        },
    ) = meet
    {
        fill(links, event, start.0, start.0 + duration);
    }
}

/// One meet of an event less at each time at which a meet runs: at none where it has no start. It takes the
/// time of the meet's times, and no memory.
pub(crate) fn free_meet(links: &mut Links, event: ResourceId, meet: Option<Span>)
    requires linked { AreLinked links.old.table links.old.events links.old.running.items links.old.apart }
    requires event { event.0 < length links.old.table }
    requires times { EndsBy meet (length links.old.running.items) }
    requires some { (t : ℕ) → runs_in meet t ≡ true → 0 < count_at links.old.table event.0 t }
    ensures counts { AreRaised event.0 (runs_in meet) (count_at links.new.table) (count_at links.old.table) }
    ensures events { length links.new.table ≡ length links.old.table }
    ensures times { length links.new.running.items ≡ length links.old.running.items }
    ensures linked { AreLinked links.new.table links.new.events links.new.running.items links.new.apart }
{
    if let Some(
        Span {
            duration,
            start: Some(start),
        },
    ) = meet
    {
        free(links, event, start.0, start.0 + duration);
    }
}
