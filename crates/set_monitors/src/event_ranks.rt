//! The place of an event among ascending events.

ghost use Rattle.std.specs.Prelude.{ℕ, ◌≡◌, Some, slice_get};
ghost use Rattle.set_monitors.specs.Links.{AreAscending};

use khe_base::EventId;

/// The place of an event among ascending events of which it is one, by binary search.
pub(crate) fn rank_of(events: &[u32], event: EventId) -> usize
    requires ascending { AreAscending events.now }
    requires there { (k : ℕ) × (slice_get events.now k ≡ Some event.0) }
    ensures { slice_get events.now result ≡ Some event.0 }
{
    let mut low = 0;
    let mut end = events.len();
    while low < end {
        let middle = low + (end - low) / 2;
        if events[middle] < event.0 {
            low = middle + 1;
        } else {
            end = middle;
        }
    }
    low
}
