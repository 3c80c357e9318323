//! The causes for which an entry of a solution is invalid.

ghost use Rattle.std.specs.Prelude.{◌≡◌, IfSome, IsTrue};
ghost use Rattle.std.specs.Option.{option_copied};
ghost use Rattle.khe_base.specs.Text.{is_ascii};
ghost use Rattle.fault_tables.specs.Causes as spec;

/// The durations of the event's entries, up to this one, add up to more than the event's.
pub const TOO_LONG: u32 = 1;

/// The event has a preassigned time, and this entry is shorter than the event.
pub const SPLIT_FIXED: u32 = 2;

/// The entry gives another time than the preassigned one.
pub const FIXED_TIME: u32 = 3;

/// The entry starts so late that it ends after the last time.
pub const OFF_END: u32 = 4;

/// The entry gives a resource for a role that its event does not have, or that came before in this
/// entry; or a resource without a role that the event does not have without a role.
pub const BAD_ROLE: u32 = 5;

/// The entry gives another resource than the preassigned one.
pub const FIXED_RESOURCE: u32 = 6;

/// The entry gives a resource of another type than the event wants there.
pub const WRONG_TYPE: u32 = 7;

/// The name that lines print for the cause with this number, or `None` where no cause has it. It takes constant
/// time.
pub fn cause_name(cause: u32) -> Option<&'static str>
    ensures name { option_copied result ≡ spec.cause_name cause }
    ensures ascii { IfSome result (λ name. IsTrue (is_ascii name.now)) }
{
    match cause {
        TOO_LONG => Some("TooLong"),
        SPLIT_FIXED => Some("SplitFixed"),
        FIXED_TIME => Some("FixedTime"),
        OFF_END => Some("OffEnd"),
        BAD_ROLE => Some("BadRole"),
        FIXED_RESOURCE => Some("FixedResource"),
        WRONG_TYPE => Some("WrongType"),
        _ => None,
    }
}
