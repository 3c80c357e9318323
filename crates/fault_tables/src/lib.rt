//! The tables of what may be wrong with an archive: kinds of faults, limits on sizes, and causes for
//! which a solution is invalid, each with its number and its name.
#![tactic(auto)]

mod causes;
mod examples;
mod faults;
mod limits;

pub use causes::{
    BAD_ROLE, FIXED_RESOURCE, FIXED_TIME, OFF_END, SPLIT_FIXED, TOO_LONG, WRONG_TYPE, cause_name,
};
pub use faults::{
    BAD_MARKUP, BAD_NUMBER, BAD_REFERENCE, BAD_WORD, DUPLICATE_ID, DUPLICATE_ROLE, EVENT_OFF_END,
    INVALID, LIMIT, MISMATCHED_END, MISSING_CHILD, NO_SUCH_INSTANCE, NO_SUCH_SOLUTION,
    NO_SUCH_TIME, NO_SUCH_TYPE, NOT_UTF8, REPEATED_CHILD, TOO_DEEP, TOO_LARGE, TOO_MANY_TO_MATCH,
    UNKNOWN_ELEMENT, UNKNOWN_REFERENCE, UNSUPPORTED, fault_name,
};
pub use limits::{
    Limit, TOO_GREAT_UNIT, TOO_LONG_DURATION, TOO_MANY_CELLS, TOO_MANY_CONSTRAINTS,
    TOO_MANY_EVENT_GROUPS, TOO_MANY_EVENTS, TOO_MANY_LISTED, TOO_MANY_MONITORS,
    TOO_MANY_RESOURCE_GROUPS, TOO_MANY_RESOURCE_TYPES, TOO_MANY_RESOURCES, TOO_MANY_SOLUTIONS,
    TOO_MANY_TASKS, TOO_MANY_TIME_GROUPS, TOO_MANY_TIMES, TOO_MANY_WATCHES, limit_name,
    limit_numbered,
};
