//! The names of all parts of an instance.

ghost use Rattle.std.specs.Prelude.{◌≡◌};
ghost use Rattle.xhstt_references.specs.Directories.{names_in};

use crate::names::Names;
use crate::part_names::PartNames;

/// The Ids of an instance's parts, each numbered in the order of the text.
///
/// Weeks and days are time groups, and courses are event groups; each has
/// its name in a list of its own besides.
pub struct Directory {
    pub time_groups: Names,
    pub weeks: Names,
    pub days: Names,
    pub times: Names,
    pub resource_types: Names,
    pub resource_groups: Names,
    pub resources: Names,
    pub event_groups: Names,
    pub courses: Names,
    pub events: Names,
}

// By hand: an exit of a caller then has one call to prove, and not a drop for each field.
impl Drop for Directory {
    fn drop(self) {
        let Directory {
            time_groups: _time_groups,
            weeks: _weeks,
            days: _days,
            times: _times,
            resource_types: _resource_types,
            resource_groups: _resource_groups,
            resources: _resources,
            event_groups: _event_groups,
            courses: _courses,
            events: _events,
        } = self;
    }
}

impl Directory {
    /// The names that solutions use, of times, resources and events. The memory of the others is free again.
    pub(crate) fn into_part_names(self) -> PartNames
        ensures { result ≡ names_in self }
    {
        let Directory {
            time_groups: _time_groups,
            weeks: _weeks,
            days: _days,
            times,
            resource_types: _resource_types,
            resource_groups: _resource_groups,
            resources,
            event_groups: _event_groups,
            courses: _courses,
            events,
        } = self;
        PartNames {
            times,
            resources,
            events,
        }
    }
}
