//! A constraint as it is written in an archive.

use crate::records::{Name, Ref};
use khe_base::{CostFn, Seq, Text};

/// A constraint. In every kind a lower bound is at most 1,000,000, and 0 where it is missing; an upper bound is
/// at most 2,147,483,647, and that number where it is missing.
pub struct RawConstraint {
    pub id: Name,
    /// Empty where it is missing.
    pub name: Text,
    /// Whether its cost is hard.
    pub required: bool,
    /// At most 1,000,000.
    pub weight: u32,
    pub cost: CostFn,
    pub applies: RawApplies,
    pub rule: RawRule,
}

// By hand: an exit of a caller then has one call to prove, and not a drop for each field.
impl Drop for RawConstraint {
    fn drop(self) {
        let RawConstraint {
            id: _id,
            name: _name,
            required: _required,
            weight: _weight,
            cost: _cost,
            applies: _applies,
            rule: _rule,
        } = self;
    }
}

/// What a constraint applies to. The form follows from its kind.
#[derive(Drop)]
pub enum RawApplies {
    /// Event groups and single events.
    Events {
        event_groups: Seq<Ref>,
        events: Seq<Ref>,
    },
    /// Event groups.
    Groups {
        event_groups: Seq<Ref>,
    },
    /// Pairs of events.
    Pairs {
        pairs: Seq<RawPair>,
    },
    /// Resource groups and single resources.
    Resources {
        resource_groups: Seq<Ref>,
        resources: Seq<Ref>,
    },
}

/// A pair of events, and how many times are to be between them.
#[derive(Drop)]
pub struct RawPair {
    pub first: Ref,
    pub second: Ref,
    pub min: u32,
    pub max: u32,
}

/// A time group, and how many meets are to start in it.
#[derive(Drop)]
pub struct RawSpread {
    pub reference: Ref,
    pub min: u32,
    pub max: u32,
}

/// What a constraint of each kind asks for.
#[derive(Drop)]
pub enum RawRule {
    /// Events have times.
    AssignTime,
    /// Event resources of a role have resources.
    AssignResource {
        role: Name,
    },
    /// Events are split into parts of given sizes and in given numbers.
    SplitEvents {
        min_duration: u32,
        max_duration: u32,
        min_amount: u32,
        max_amount: u32,
    },
    /// Events have parts of one duration, from 1 to 1,000,000, in given numbers.
    DistributeSplitEvents {
        duration: u32,
        min: u32,
        max: u32,
    },
    /// Events, or their parts of one duration, from 1 to 1,000,000, start at preferred times.
    PreferTimes {
        time_groups: Seq<Ref>,
        times: Seq<Ref>,
        duration: Option<u32>,
    },
    /// Event resources of a role have preferred resources.
    PreferResources {
        resource_groups: Seq<Ref>,
        resources: Seq<Ref>,
        role: Name,
    },
    /// The parts of events have one resource of a role.
    AvoidSplitAssignments {
        role: Name,
    },
    /// Events are spread over time groups.
    SpreadEvents {
        time_groups: Seq<RawSpread>,
    },
    /// Events run at the same times.
    LinkEvents,
    /// Events follow others.
    OrderEvents,
    /// Resources are needed once at a time.
    AvoidClashes,
    /// Resources are not busy at given times.
    AvoidUnavailableTimes {
        time_groups: Seq<Ref>,
        times: Seq<Ref>,
    },
    /// Resources have a number of idle times in each time group.
    LimitIdleTimes {
        time_groups: Seq<Ref>,
        min: u32,
        max: u32,
    },
    /// Resources are busy in a number of time groups.
    ClusterBusyTimes {
        time_groups: Seq<Ref>,
        min: u32,
        max: u32,
    },
    /// Resources are busy at a number of times of each time group.
    LimitBusyTimes {
        time_groups: Seq<Ref>,
        min: u32,
        max: u32,
    },
    /// Resources have a workload.
    LimitWorkload {
        min: u32,
        max: u32,
    },
}
