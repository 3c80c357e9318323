//! The deviation of Link Events.

ghost use Rattle.std.specs.Prelude.{◌≡◌, ◌+◌, ◌≤◌, ◌<◌, length, All, IfSome};
ghost use Rattle.std.specs.List.{list_any};
ghost use Rattle.khe_base.specs.declared.limits.TheConstants.{TIMES, EVENTS};
ghost use Rattle.khe_instance.specs.Running.{runs};
ghost use Rattle.event_deviations.specs.Groups.{apart_at};
ghost use Rattle.event_deviations.specs.Links.{is_between, Joins, Advances, count_at};

use crate::index::Index;
use crate::marks::Marks;
use khe_base::EventId;
use khe_instance::Meet;

/// At how many times some of the events run and some do not. It takes the time of what their
/// meets cover, each meet for each of its times. The marks have a place for each time.
pub(crate) fn link_events(
    index: &Index<'_>,
    events: &[u32],
    some: &mut Marks,
    leading: &mut Marks,
) -> u64
    requires events { All (λ e. e < length index.now.parts.events) events.now }
    requires amount { length events.now ≤ EVENTS }
    requires some { length some.old ≡ length index.now.parts.times }
    requires leading { length leading.old ≡ length index.now.parts.times }
    ensures some { length some.new ≡ length some.old }
    ensures leading { length leading.new ≡ length leading.old }
    ensures exact { result ≡ apart_at index.now.meets events.now (length index.now.parts.times) }
{
    some.clear();
    leading.clear();
    // The number of times at which all of the events so far run.
    let mut whole = 0;
    for (rank, event) in events.iter().enumerate() {
        whole = cover(index.meets(EventId(*event)), rank as u32, some, leading);
    }
    some.count() - whole
}

/// Marks the times at which the meets run, and gives those of them that have a rank the next one.
/// The result is the number of times that have that next rank then.
fn cover(meets: &[Meet], rank: u32, some: &mut Marks, leading: &mut Marks) -> u64
    requires ends { All (λ m. IfSome m.start (λ s. s.0 + m.duration ≤ length some.old)) meets.now }
    requires times { length some.old ≤ TIMES }
    requires rank { rank ≤ EVENTS }
    requires none { count_at (rank + 1) leading.old ≡ 0 }
    requires leading { length leading.old ≡ length some.old }
    ensures some_times { length some.new ≡ length some.old }
    ensures leading_times { length leading.new ≡ length leading.old }
    ensures some { Joins some.old some.new (λ t. list_any (λ m. runs m t) meets.now) }
    ensures leading { Advances rank leading.old leading.new (λ t. list_any (λ m. runs m t) meets.now) }
    ensures count { result ≡ count_at (rank + 1) leading.new }
{
    let mut count = 0;
    for meet in meets {
        if let Some(start) = meet.start {
            count += cover_times(start.0, start.0 + meet.duration, rank, some, leading);
        }
    }
    count
}

/// The same for the times from the first to before the end. The result is the number of times that
/// it gave the next rank.
fn cover_times(first: u32, end: u32, rank: u32, some: &mut Marks, leading: &mut Marks) -> u64
    requires first { first ≤ end }
    requires end { end ≤ length some.old }
    requires rank { rank ≤ EVENTS }
    requires leading { length leading.old ≡ length some.old }
    ensures some_times { length some.new ≡ length some.old }
    ensures leading_times { length leading.new ≡ length leading.old }
    ensures some { Joins some.old some.new (is_between first end) }
    ensures leading { Advances rank leading.old leading.new (is_between first end) }
    ensures count { count_at (rank + 1) leading.old + result ≡ count_at (rank + 1) leading.new }
{
    let mut count = 0;
    for time in first..end {
        some.put(time, 1);
        if leading.at(time) == rank {
            leading.put(time, rank + 1);
            count += 1;
        }
    }
    count
}
