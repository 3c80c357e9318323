//! What the entries of a solution name, as it was followed when the archive was resolved.

ghost use Rattle.std.specs.Prelude.{◌≡◌, ◌<◌, ◌≤◌, ◌+◌, length, take, drop, slice_get, Some};
ghost use Rattle.xhstt_completion.specs.Found.{AreFound, IsFound};
ghost use Rattle.xhstt_shape.specs.declared.records.RawEntry.{RawEntry};

use khe_base::ResourceId;
use khe_instance::Instance;
use xhstt_references::{Followed, Named};
use xhstt_shape::EntryView;

/// What the entry with this number names.
pub(crate) fn named_at(
    _inst: &Instance,
    _entries: &[EntryView<'_>],
    found: &Followed,
    number: usize,
) -> Named
    requires many { length found.now.named ≡ length _entries.now }
    requires each { AreFound _inst.now _entries.now found.now.named found.now.given }
    requires within { number < length _entries.now }
    ensures found { (entry : RawEntry) → slice_get _entries.now number ≡ Some entry → IsFound _inst.now found.now.given entry result }
    ensures there { result.event.0 < length _inst.now.events }
{
    let named = found.named.as_slice();
    named[number]
}

/// The resources of an entry, by what was found.
pub(crate) fn resources_at<'a>(
    given: &'a [ResourceId],
    named: Named,
    entry: &EntryView<'_>,
) -> &'a [ResourceId]
    requires { named.first + length entry.now.resources ≤ length given.now }
    ensures { result.now ≡ take (length entry.now.resources) (drop named.first given.now) }
{
    let first = named.first as usize;
    &given[first..first + entry.resources().len()]
}
