//! What the entries of a solution say, read through an instance.

ghost use Rattle.std.specs.Prelude.{◌≡◌};
ghost use Rattle.std.specs.Option.{option_or};
ghost use Rattle.std.specs.Str.{bytes_eq};
ghost use Rattle.khe_base.specs.Text.{characters};
ghost use Rattle.khe_instance.specs.Lookups.{is_role};
ghost use Rattle.xhstt_completion.specs.Entries.{duration_of, role_of};

use khe_base::TimeId;
use khe_instance::EventInfo;
use xhstt_shape::{EntryView, GivenView};

/// How long an entry lasts: as long as its event where it does not say.
pub(crate) fn duration_of(event: &EventInfo, entry: &EntryView<'_>) -> u32
    ensures { result ≡ duration_of event.now entry.now }
{
    entry.duration().unwrap_or(event.duration)
}

/// When an entry starts that gives this time: at the preassigned time where it gives none.
pub(crate) fn start_of(event: &EventInfo, time: Option<TimeId>) -> Option<TimeId>
    ensures { result ≡ option_or time event.now.fixed }
{
    time.or(event.fixed)
}

/// Whether a resource is given for this role.
pub(crate) fn is_given_for(given: &GivenView<'_>, role: &str) -> bool
    ensures { result ≡ is_role (characters role.now) (role_of given.now) }
{
    match given.role() {
        Some(name) => are_same(role, name.text),
        None => false,
    }
}

/// Whether two texts have the same characters in the same order.
fn are_same(x: &str, y: &str) -> bool
    ensures { result ≡ bytes_eq (characters x.now) (characters y.now) }
{
    x == y
}
