//! For how many times the events of a job run.

ghost use Rattle.std.specs.Prelude.{◌≡◌, ◌<◌, ◌≤◌, ◌^◌, Some, length, slice_get};
ghost use Rattle.std.specs.List.{sum_by};
ghost use Rattle.archive_generator.specs.Job.{slots};
ghost use Rattle.archive_generator.specs.Made.{made};
ghost use Rattle.xhstt_shape.specs.declared.records.RawEvent.{RawEvent as Event};

use xhstt_shape::{Archive, RawEvent, RawInstance};

/// For how many times all events of the archive that is made from a seed and a size run together: the
/// greatest number of meets that they can be split into. It takes time linear in the size.
pub fn slot_count(archive: &Archive, seed: u64, size: u32) -> u32
    requires made { archive.now ≡ made seed size }
    requires some { 1 ≤ size }
    requires few { size < 2 ^ 30 }
    ensures value { result ≡ slots seed size }
    ensures some { 1 ≤ result }
{
    let _ = seed;
    let _ = size;
    let instance = first_instance(archive.instances.as_slice());
    total_duration(instance.events.as_slice())
}

/// The first of some instances.
fn first_instance(instances: &[RawInstance]) -> &RawInstance
    requires { 0 < length instances.now }
    ensures { slice_get instances.now 0 ≡ Some result.now }
{
    &instances[0]
}

/// The durations of events together.
fn total_duration(events: &[RawEvent]) -> u32
    requires { sum_by (λ (e : Event). e.duration) events.now < 2 ^ 32 }
    ensures { result ≡ sum_by (λ (e : Event). e.duration) events.now }
{
    let mut total = 0;
    for event in events {
        total += event.duration;
    }
    total
}
