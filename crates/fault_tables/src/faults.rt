//! The kinds of faults for which an archive is refused.

ghost use Rattle.std.specs.Prelude.{◌≡◌, IfSome, IsTrue};
ghost use Rattle.std.specs.Option.{option_copied};
ghost use Rattle.khe_base.specs.Text.{is_ascii};
ghost use Rattle.fault_tables.specs.Faults as spec;

/// Bytes that are not UTF-8, at the first byte that is no part of a well-formed character.
pub const NOT_UTF8: u32 = 1;

/// A byte that cannot continue the text at its place, or bytes that end too early, at their length; or
/// the second of two equal attribute names of one element, at its first byte.
pub const BAD_MARKUP: u32 = 2;

/// A whole end tag that has another name than the innermost open element, at its `<`.
pub const MISMATCHED_END: u32 = 3;

/// An `&` in content or in a value from which the bytes spell no reference, at the `&`. Where all bytes
/// from it on are the beginning of one, or the whole of one that gives no character, the fault is
/// `BAD_MARKUP` at the length.
pub const BAD_REFERENCE: u32 = 4;

/// `<!DOCTYPE`, `<![CDATA[`, or `<?` after the place of the declaration, at the `<`; or a `:` straight
/// after a name, at the `:`.
pub const UNSUPPORTED: u32 = 5;

/// An element inside 32 open elements, at its `<`.
pub const TOO_DEEP: u32 = 6;

/// An element or an attribute that the table does not have there, at the `<` of the element or the
/// first byte of the attribute's name.
pub const UNKNOWN_ELEMENT: u32 = 7;

/// A child or an attribute that an element lacks, at the `<` of that element.
pub const MISSING_CHILD: u32 = 8;

/// A second child where one may stand, at its `<`.
pub const REPEATED_CHILD: u32 = 9;

/// A number that is not in form or not in its range, at the first byte of the element's value.
pub const BAD_NUMBER: u32 = 10;

/// A word that may not stand there, or an empty role, at the first byte of the
/// element's value; or text where elements are to stand, at its first byte that is not white.
pub const BAD_WORD: u32 = 11;

/// An Id that an earlier part of the same sort has.
pub const DUPLICATE_ID: u32 = 12;

/// A reference that names nothing.
pub const UNKNOWN_REFERENCE: u32 = 13;

/// A role that an earlier place of the same event has.
pub const DUPLICATE_ROLE: u32 = 14;

/// A preassigned time so late that the event would run past the last time.
pub const EVENT_OFF_END: u32 = 15;

/// A size above its limit.
pub const LIMIT: u32 = 16;

/// More bytes than the greatest archive has.
pub const TOO_LARGE: u32 = 17;

/// The number of a solution that the archive does not have.
pub const NO_SUCH_SOLUTION: u32 = 18;

/// A solution that is invalid, where a valid one is asked for.
pub const INVALID: u32 = 19;

/// The number of an instance that the archive does not have.
pub const NO_SUCH_INSTANCE: u32 = 21;

/// The number of a time that the instance does not have.
pub const NO_SUCH_TIME: u32 = 22;

/// The number of a resource type that the instance does not have.
pub const NO_SUCH_TYPE: u32 = 23;

/// More tasks of one time than can be matched.
pub const TOO_MANY_TO_MATCH: u32 = 24;

/// The name that lines print for the kind of fault with this number, or `None` where no kind has it. It takes
/// constant time.
pub fn fault_name(kind: u32) -> Option<&'static str>
    ensures name { option_copied result ≡ spec.fault_name kind }
    ensures ascii { IfSome result (λ name. IsTrue (is_ascii name.now)) }
{
    match kind {
        NOT_UTF8 => Some("NotUtf8"),
        BAD_MARKUP => Some("BadMarkup"),
        MISMATCHED_END => Some("MismatchedEnd"),
        BAD_REFERENCE => Some("BadReference"),
        UNSUPPORTED => Some("Unsupported"),
        TOO_DEEP => Some("TooDeep"),
        UNKNOWN_ELEMENT => Some("UnknownElement"),
        MISSING_CHILD => Some("MissingChild"),
        REPEATED_CHILD => Some("RepeatedChild"),
        BAD_NUMBER => Some("BadNumber"),
        BAD_WORD => Some("BadWord"),
        DUPLICATE_ID => Some("DuplicateId"),
        UNKNOWN_REFERENCE => Some("UnknownReference"),
        DUPLICATE_ROLE => Some("DuplicateRole"),
        EVENT_OFF_END => Some("EventOffEnd"),
        LIMIT => Some("Limit"),
        TOO_LARGE => Some("TooLarge"),
        NO_SUCH_SOLUTION => Some("NoSuchSolution"),
        INVALID => Some("Invalid"),
        NO_SUCH_INSTANCE => Some("NoSuchInstance"),
        NO_SUCH_TIME => Some("NoSuchTime"),
        NO_SUCH_TYPE => Some("NoSuchType"),
        TOO_MANY_TO_MATCH => Some("TooManyTasks"),
        _ => None,
    }
}
