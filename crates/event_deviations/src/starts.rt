//! How many meets of some events start at each time.

ghost use Rattle.std.specs.Prelude.{◌≡◌, ◌+◌, ◌≤◌, ◌<◌, ℕ, Bool, List, length, slice_index, count_by, All, IfSome};
ghost use Rattle.std.specs.List.{sum_by};
ghost use Rattle.khe_base.specs.declared.limits.TheConstants.{DURATION};
ghost use Rattle.khe_instance.specs.EventDeviation.{starts_in};
ghost use Rattle.khe_instance.specs.Lookups.{duration_at};
ghost use Rattle.event_deviations.specs.Groups.{starting_in};
ghost use Rattle.event_deviations.specs.Marked.{sum_in};

use crate::index::Index;
use crate::marks::Marks;
use khe_base::EventId;
use khe_instance::Meet;

/// Gives each time the number of the events' meets that start at it: as many meets start in a set
/// of times as the values of its members sum up to. It takes the time of the meets. The marks have
/// a place for each time.
pub(crate) fn count_starts(index: &Index<'_>, events: &[u32], starts: &mut Marks)
    requires events { All (λ e. e < length index.now.parts.events) events.now }
    requires durations { sum_by (duration_at index.now.parts.events) events.now ≤ DURATION }
    requires times { length starts.old ≡ length index.now.parts.times }
    ensures times { length starts.new ≡ length starts.old }
    ensures exact { (times : List Bool) → sum_in starts.new times ≡ starting_in index.now.meets times events.now }
    ensures bound { (times : List Bool) → sum_in starts.new times ≤ DURATION }
{
    starts.clear();
    for event in events {
        count_meets(index.meets(EventId(*event)), starts);
    }
}

/// Adds one for each meet at the time at which it starts.
fn count_meets(meets: &[Meet], starts: &mut Marks)
    requires each { All (λ m. 1 ≤ m.duration) meets.now }
    requires ends { All (λ m. IfSome m.start (λ s. s.0 + m.duration ≤ length starts.old)) meets.now }
    requires few { (t : ℕ) → slice_index starts.old t + length meets.now ≤ DURATION }
    ensures times { length starts.new ≡ length starts.old }
    ensures exact { (times : List Bool) → sum_in starts.new times ≡ sum_in starts.old times + count_by (λ m. starts_in times m.start) meets.now }
    ensures few { (t : ℕ) → slice_index starts.new t ≤ slice_index starts.old t + length meets.now }
{
    for meet in meets {
        if let Some(start) = meet.start {
            let before = starts.at(start.0);
            starts.put(start.0, before + 1);
        }
    }
}
