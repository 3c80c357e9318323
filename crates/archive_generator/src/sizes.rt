//! How many resources and groups a job of a size has.

ghost use Rattle.std.specs.Prelude.{◌≡◌, ◌≤◌, ◌<◌, ◌^◌};
ghost use Rattle.archive_generator.specs.Job as job;
ghost use Rattle.archive_generator.specs.Events as events;
ghost use Rattle.archive_generator.specs.Constraints as constraints;

/// How many teachers there are: one for five events, and at least one.
pub(crate) fn teachers(size: u32) -> u32
    ensures value { result ≡ job.teachers size }
    ensures some { 1 ≤ result }
    ensures few { result ≤ 2 ^ 30 }
{
    (size / 5).max(1)
}

/// How many classes there are: one for ten events, and at least one.
pub(crate) fn classes(size: u32) -> u32
    ensures value { result ≡ job.classes size }
    ensures some { 1 ≤ result }
    ensures few { result ≤ 2 ^ 30 }
{
    (size / 10).max(1)
}

/// How many rooms there are: one for ten events, and at least one.
pub(crate) fn rooms(size: u32) -> u32
    ensures value { result ≡ job.rooms size }
    ensures some { 1 ≤ result }
    ensures few { result ≤ 2 ^ 30 }
{
    (size / 10).max(1)
}

/// How many resources a job of a size has: its teachers, its classes and its rooms. It takes constant time.
pub fn resource_count(size: u32) -> u32
    ensures value { result ≡ job.resource_count size }
    ensures some { 1 ≤ result }
{
    teachers(size) + classes(size) + rooms(size)
}

/// How many groups of two events, or of the last one, there are.
pub(crate) fn halves(size: u32) -> u32
    ensures { result ≡ events.halves size }
{
    size.saturating_sub(1) / 2 + 1
}

/// How many pairs of events in order there are.
pub(crate) fn pair_count(size: u32) -> u32
    ensures { result ≡ constraints.pair_count size }
{
    ((size as u64 + 18) / 20) as u32
}
