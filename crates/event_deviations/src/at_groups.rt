//! Deviations at event groups.

ghost use Rattle.std.specs.Prelude.{◌≡◌, ◌+◌, ◌-◌, ◌*◌, ◌≤◌, ◌<◌, ◌||◌, ℕ, length, count_by, All, IfSome};
ghost use Rattle.std.specs.List.{sum_by, range_with_len};
ghost use Rattle.khe_base.specs.declared.limits.TheConstants.{NUMBER, DURATION, LISTED};
ghost use Rattle.khe_instance.specs.Lookups.{duration_at, is_role};
ghost use Rattle.event_deviations.specs.Groups.{some_has, has_duty, has_duty_among, spread_over};
ghost use Rattle.event_deviations.specs.Marked.{is_marked};

use crate::index::Index;
use crate::marks::Marks;
use crate::starts::count_starts;
use khe_base::{EventId, Text, count_out};
use khe_instance::{Duty, Place, Spread};

/// How many resources the events have in the role, less one, at least 0. It takes the time of the
/// places of the events and of the duties in the role. `seen` has a place for each resource.
pub(crate) fn avoid_split_assignments(
    index: &Index<'_>,
    events: &[u32],
    role: &Text,
    seen: &mut Marks,
) -> u64
    requires events { All (λ e. e < length index.now.parts.events) events.now }
    requires seen { length seen.old ≡ length index.now.parts.resources }
    ensures seen { length seen.new ≡ length seen.old }
    ensures exact { result ≡ count_by (has_duty_among index.now.parts.events index.now.duties role.now events.now) (range_with_len 0 (length index.now.parts.resources)) - 1 }
{
    seen.clear();
    for event in events {
        see_event(index, EventId(*event), role, seen);
    }
    seen.count().saturating_sub(1)
}

/// Marks the resources that an event has in the role.
fn see_event(index: &Index<'_>, event: EventId, role: &Text, seen: &mut Marks)
    requires event { event.0 < length index.now.parts.events }
    requires seen { length seen.old ≡ length index.now.parts.resources }
    ensures seen { length seen.new ≡ length seen.old }
    ensures marked { (r : ℕ) → is_marked seen.new r ≡ (is_marked seen.old r || has_duty index.now.parts.events index.now.duties role.now r event.0) }
{
    let places = index.inst().event(event).places.as_slice();
    for (number, place) in places.iter().enumerate() {
        if has_role(place, role) {
            see(index.duties(event, number), seen);
        }
    }
}

/// Whether a place has the role.
fn has_role(place: &Place, role: &Text) -> bool
    ensures { result ≡ is_role role.now place.now.role }
{
    match &place.role {
        None => false,
        Some(own) => role.is_same(own),
    }
}

/// Marks the resources of some duties.
fn see(duties: &[Duty], seen: &mut Marks)
    requires { All (λ d. IfSome d.resource (λ r. r.0 < length seen.old)) duties.now }
    ensures seen { length seen.new ≡ length seen.old }
    ensures marked { (r : ℕ) → is_marked seen.new r ≡ (is_marked seen.old r || some_has duties.now r) }
{
    for duty in duties {
        if let Some(resource) = duty.resource {
            seen.put(resource.0, 1);
        }
    }
}

/// By how many too few or too many meets of the events start in the listed time groups. It takes
/// the time of the events' meets, and for each listed time group that of the times at which they
/// start. `starts` has a place for each time.
pub(crate) fn spread_events(
    index: &Index<'_>,
    events: &[u32],
    spreads: &[Spread],
    starts: &mut Marks,
) -> u64
    requires events { All (λ e. e < length index.now.parts.events) events.now }
    requires durations { sum_by (duration_at index.now.parts.events) events.now ≤ DURATION }
    requires least { All (λ s. s.min ≤ NUMBER) spreads.now }
    requires listed { length spreads.now ≤ LISTED }
    requires times { length starts.old ≡ length index.now.parts.times }
    ensures times { length starts.new ≡ length starts.old }
    ensures exact { result ≡ spread_over index.now.meets spreads.now events.now }
    ensures bound { result ≤ length spreads.now * (DURATION + NUMBER) }
{
    index.facts();
    count_starts(index, events, starts);
    let mut total = 0;
    for spread in spreads {
        total += count_out(starts.sum_in(&spread.group), spread.min, spread.max);
    }
    total
}
