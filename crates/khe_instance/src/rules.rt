//! The sixteen kinds of constraints, with what each of them says.

use khe_base::{CostFn, EventId, IdSet, Seq, Text};

/// The sixteen kinds of constraints of the XHSTT format.
#[derive(Clone, Copy, PartialEq, Eq)]
pub enum Kind {
    AssignTime,
    AssignResource,
    SplitEvents,
    DistributeSplitEvents,
    PreferTimes,
    PreferResources,
    AvoidSplitAssignments,
    SpreadEvents,
    LinkEvents,
    OrderEvents,
    AvoidClashes,
    AvoidUnavailableTimes,
    LimitIdleTimes,
    ClusterBusyTimes,
    LimitBusyTimes,
    LimitWorkload,
}

/// A time group with bounds on how many meets start in it.
#[derive(Drop)]
pub struct Spread {
    pub group: IdSet,
    pub min: u32,
    pub max: u32,
}

/// Two events of which the first is to end before the second begins, with bounds on the times
/// between them.
#[derive(Clone, Copy, PartialEq, Eq)]
pub struct EventPair {
    pub first: EventId,
    pub second: EventId,
    pub min: u32,
    pub max: u32,
}

/// What a constraint asks for, by its kind. A set of times is over all times of the instance, a set of
/// resources over all its resources.
#[derive(Drop)]
pub enum Rule {
    AssignTime,
    AssignResource {
        role: Text,
    },
    SplitEvents {
        min_duration: u32,
        max_duration: u32,
        min_amount: u32,
        max_amount: u32,
    },
    DistributeSplitEvents {
        duration: u32,
        min: u32,
        max: u32,
    },
    PreferTimes {
        times: IdSet,
        duration: Option<u32>,
    },
    PreferResources {
        resources: IdSet,
        role: Text,
    },
    AvoidSplitAssignments {
        role: Text,
    },
    SpreadEvents {
        groups: Seq<Spread>,
    },
    LinkEvents,
    OrderEvents {
        pairs: Seq<EventPair>,
    },
    AvoidClashes,
    AvoidUnavailableTimes {
        times: IdSet,
    },
    LimitIdleTimes {
        groups: Seq<IdSet>,
        min: u32,
        max: u32,
    },
    ClusterBusyTimes {
        groups: Seq<IdSet>,
        min: u32,
        max: u32,
    },
    LimitBusyTimes {
        groups: Seq<IdSet>,
        min: u32,
        max: u32,
    },
    LimitWorkload {
        min: u32,
        max: u32,
    },
}

/// A constraint of an instance.
pub struct Constraint {
    pub id: Text,
    /// Whether its cost is hard.
    pub required: bool,
    pub weight: u32,
    pub cost: CostFn,
    pub rule: Rule,
}

// By hand: an exit of a caller then has one call to prove, and not a drop for each field.
impl Drop for Constraint {
    fn drop(self) {
        let Constraint {
            id: _id,
            required: _required,
            weight: _weight,
            cost: _cost,
            rule: _rule,
        } = self;
    }
}
