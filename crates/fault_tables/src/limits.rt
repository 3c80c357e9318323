//! The limits on the sizes of an archive.

ghost use Rattle.std.specs.Prelude.{◌≡◌, Some, IfSome, IsTrue};
ghost use Rattle.std.specs.Option.{option_copied, option_map};
ghost use Rattle.khe_base.specs.Text.{is_ascii};
ghost use Rattle.fault_tables.specs.Limits as spec;

use khe_base::limits;

/// The number of the limit on the times of an instance.
pub const TOO_MANY_TIMES: u32 = 1;

/// The number of the limit on the time groups of an instance.
pub const TOO_MANY_TIME_GROUPS: u32 = 2;

/// The number of the limit on the resource types of an instance.
pub const TOO_MANY_RESOURCE_TYPES: u32 = 3;

/// The number of the limit on the resources of an instance.
pub const TOO_MANY_RESOURCES: u32 = 4;

/// The number of the limit on the resource groups of an instance.
pub const TOO_MANY_RESOURCE_GROUPS: u32 = 5;

/// The number of the limit on the events of an instance.
pub const TOO_MANY_EVENTS: u32 = 6;

/// The number of the limit on the event groups of an instance.
pub const TOO_MANY_EVENT_GROUPS: u32 = 7;

/// The number of the limit on the constraints of an instance.
pub const TOO_MANY_CONSTRAINTS: u32 = 8;

/// The number of the limit on the sum of the durations of events.
pub const TOO_LONG_DURATION: u32 = 9;

/// The number of the limit on tasks: for each event its duration times its places.
pub const TOO_MANY_TASKS: u32 = 10;

/// The number of the limit on cells: resources times times.
pub const TOO_MANY_CELLS: u32 = 11;

/// The number of the limit on the time groups that one constraint lists.
pub const TOO_MANY_LISTED: u32 = 12;

/// The number of the limit on monitors.
pub const TOO_MANY_MONITORS: u32 = 13;

/// The number of the limit on watches: what all monitors name, together.
pub const TOO_MANY_WATCHES: u32 = 14;

/// The number of the limit on the least common multiple of durations.
pub const TOO_GREAT_UNIT: u32 = 15;

/// The number of the limit on the solutions of an archive.
pub const TOO_MANY_SOLUTIONS: u32 = 16;

/// A limit: its name, as lines print it, and the greatest value that keeps it.
#[derive(Clone, Copy)]
pub struct Limit {
    pub name: &'static str,
    pub greatest: u64,
}

/// The limit with this number, or `None` where no limit has it. It takes constant time.
pub fn limit_numbered(which: u32) -> Option<Limit>
    ensures name { option_map (λ l. l.name.now) result ≡ spec.limit_name which }
    ensures ascii { IfSome result (λ l. IsTrue (is_ascii l.name.now)) }
    ensures greatest { option_map (λ l. l.greatest) result ≡ spec.greatest_of which }
{
    match which {
        TOO_MANY_TIMES => row("times", u64::from(limits::TIMES)),
        TOO_MANY_TIME_GROUPS => row("time_groups", u64::from(limits::TIME_GROUPS)),
        TOO_MANY_RESOURCE_TYPES => row("resource_types", u64::from(limits::RESOURCE_TYPES)),
        TOO_MANY_RESOURCES => row("resources", u64::from(limits::RESOURCES)),
        TOO_MANY_RESOURCE_GROUPS => row("resource_groups", u64::from(limits::RESOURCE_GROUPS)),
        TOO_MANY_EVENTS => row("events", u64::from(limits::EVENTS)),
        TOO_MANY_EVENT_GROUPS => row("event_groups", u64::from(limits::EVENT_GROUPS)),
        TOO_MANY_CONSTRAINTS => row("constraints", u64::from(limits::CONSTRAINTS)),
        TOO_LONG_DURATION => row("duration", u64::from(limits::DURATION)),
        TOO_MANY_TASKS => row("tasks", u64::from(limits::TASKS)),
        TOO_MANY_CELLS => row("cells", u64::from(limits::CELLS)),
        TOO_MANY_LISTED => row("listed", u64::from(limits::LISTED)),
        TOO_MANY_MONITORS => row("monitors", u64::from(limits::MONITORS)),
        TOO_MANY_WATCHES => row("watches", u64::from(limits::WATCHES)),
        TOO_GREAT_UNIT => row("unit", limits::UNIT),
        TOO_MANY_SOLUTIONS => row("solutions", u64::from(limits::SOLUTIONS)),
        _ => None,
    }
}

/// The name that lines print for the limit with this number, or `None` where no limit has it. It takes constant
/// time.
pub fn limit_name(which: u32) -> Option<&'static str>
    ensures name { option_copied result ≡ spec.limit_name which }
    ensures ascii { IfSome result (λ name. IsTrue (is_ascii name.now)) }
{
    match limit_numbered(which) {
        Some(limit) => Some(limit.name),
        None => None,
    }
}

/// A row of the table of limits.
fn row(name: &'static str, greatest: u64) -> Option<Limit>
    ensures name { option_map (λ l. l.name.now) result ≡ Some name.now }
    ensures greatest { option_map (λ l. l.greatest) result ≡ Some greatest }
{
    Some(Limit { name, greatest })
}
