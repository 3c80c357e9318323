//! The constraints of a job, one of each kind.

ghost use Rattle.std.specs.Prelude.{◌≡◌, ◌+◌, ◌*◌, ◌^◌, ◌<◌, ◌++◌, IfOk, OnOk, IsTrue};
ghost use Rattle.khe_base.specs.Text.{is_ascii};
ghost use Rattle.archive_generator.specs.Constraints as spec;

use crate::lists::{roomy, to_each, to_one};
use crate::names::{name, numbered_name, to, to_numbered};
use crate::sizes::{halves, pair_count};
use crate::times::{DAYS, days};
use khe_base::{CostFn, NoMemory, Seq, Text, beside, both};
use std::alloc::Global;
use xhstt_shape::{RawApplies, RawConstraint, RawPair, RawRule, RawSpread, Ref};

/// The greatest number that a constraint can name: no limit.
const NO_LIMIT: u32 = 2_147_483_647;

/// How the violations of a constraint are charged.
#[derive(Clone, Copy)]
struct Charge {
    required: bool,
    weight: u32,
    cost: CostFn,
}

/// Charges in proportion to the deviation, hard ones and soft ones.
const HARD: Charge = Charge {
    required: true,
    weight: 1,
    cost: CostFn::Linear,
};

const SOFT: Charge = Charge {
    required: false,
    weight: 1,
    cost: CostFn::Linear,
};

/// A constraint.
fn constraint(
    alloc: Global,
    number: u32,
    charge: Charge,
    applies: RawApplies,
    rule: RawRule,
) -> Result<RawConstraint, NoMemory>
    ensures { IfOk result (λ c. c ≡ spec.constraint number charge.required charge.weight charge.cost applies rule) }
{
    let (id, (applies, rule)) = beside(numbered_name(alloc, "x", number), (applies, rule))?;
    Ok(RawConstraint {
        id,
        name: Text::new(alloc),
        required: charge.required,
        weight: charge.weight,
        cost: charge.cost,
        applies,
        rule,
    })
}

/// All events.
fn all_events(alloc: Global) -> Result<RawApplies, NoMemory>
    ensures { IfOk result (λ a. a ≡ spec.all_events) }
{
    Ok(RawApplies::Events {
        event_groups: to_one(alloc, "all")?,
        events: Seq::new(alloc),
    })
}

/// All groups of two events.
#[tactic(auto, unfolding(crate::specs::Constraints::all_halves))]
fn all_halves(alloc: Global, size: u32) -> Result<RawApplies, NoMemory>
    ensures { IfOk result (λ a. a ≡ spec.all_halves size) }
{
    Ok(RawApplies::Groups {
        event_groups: to_each(alloc, "h", halves(size))?,
    })
}

/// A group of resources.
fn group(alloc: Global, id: &str) -> Result<RawApplies, NoMemory>
    requires { IsTrue (is_ascii id.now) }
    ensures { IfOk result (λ a. a ≡ spec.group id.now) }
{
    Ok(RawApplies::Resources {
        resource_groups: to_one(alloc, id)?,
        resources: Seq::new(alloc),
    })
}

/// The groups of all resources.
fn all_groups(alloc: Global) -> Result<Seq<Ref>, NoMemory>
    ensures { IfOk result (λ groups. groups ≡ spec.all_groups) }
{
    let mut groups = roomy(alloc, 3)?;
    let pushed = push_groups(alloc, &mut groups);
    let ((), groups) = beside(pushed, groups)?;
    Ok(groups)
}

/// Adds the groups of all resources to a list.
fn push_groups(alloc: Global, groups: &mut Seq<Ref>) -> Result<(), NoMemory>
    ensures { OnOk result (groups.new ≡ groups.old ++ spec.all_groups) }
{
    groups.push(to(alloc, "gp")?)?;
    groups.push(to(alloc, "gc")?)?;
    groups.push(to(alloc, "gq")?)
}

/// A pair of events in order.
fn pair(alloc: Global, number: u32) -> Result<RawPair, NoMemory>
    requires { 20 * number + 1 < 2 ^ 32 }
    ensures { IfOk result (λ p. p ≡ spec.pair number) }
{
    let (first, second) = both(
        to_numbered(alloc, "e", 20 * number),
        to_numbered(alloc, "e", 20 * number + 1),
    )?;
    Ok(RawPair {
        first,
        second,
        min: 0,
        max: NO_LIMIT,
    })
}

/// The pairs of events in order.
#[tactic(auto, using(crate::proofs::ListLemmas::below_none, crate::proofs::ListLemmas::below_more), unfolding(crate::specs::Constraints::pairs))]
fn pairs(alloc: Global, size: u32) -> Result<RawApplies, NoMemory>
    ensures { IfOk result (λ a. a ≡ spec.pairs size) }
{
    let mut pairs = roomy(alloc, pair_count(size) as usize)?;
    for number in 0..pair_count(size) {
        pairs.push(pair(alloc, number)?)?;
    }
    Ok(RawApplies::Pairs { pairs })
}

/// A day in which no more than one part is to start.
fn spread(alloc: Global, number: u32) -> Result<RawSpread, NoMemory>
    ensures { IfOk result (λ s. s ≡ spec.spread number) }
{
    Ok(RawSpread {
        reference: to_numbered(alloc, "d", number)?,
        min: 0,
        max: 1,
    })
}

/// The days, in each of which no more than one part is to start.
#[tactic(auto, using(crate::proofs::ListLemmas::below_none, crate::proofs::ListLemmas::below_more), unfolding(crate::specs::Constraints::spreads))]
fn spreads(alloc: Global) -> Result<Seq<RawSpread>, NoMemory>
    ensures { IfOk result (λ list. list ≡ spec.spreads) }
{
    let mut list = roomy(alloc, DAYS as usize)?;
    for number in 0..DAYS {
        list.push(spread(alloc, number)?)?;
    }
    Ok(list)
}

/// Events have times.
#[tactic(auto, unfolding(crate::specs::Constraints::assign_time))]
fn assign_time(alloc: Global) -> Result<RawConstraint, NoMemory>
    ensures { IfOk result (λ c. c ≡ spec.assign_time) }
{
    constraint(alloc, 0, HARD, all_events(alloc)?, RawRule::AssignTime)
}

/// Events have teachers.
#[tactic(auto, unfolding(crate::specs::Constraints::assign_resource))]
fn assign_resource(alloc: Global) -> Result<RawConstraint, NoMemory>
    ensures { IfOk result (λ c. c ≡ spec.assign_resource) }
{
    let (applies, role) = both(all_events(alloc), name(alloc, "T"))?;
    constraint(alloc, 1, HARD, applies, RawRule::AssignResource { role })
}

/// Events have one or two parts, of durations 1 and 2.
#[tactic(auto, unfolding(crate::specs::Constraints::split_events))]
fn split_events(alloc: Global) -> Result<RawConstraint, NoMemory>
    ensures { IfOk result (λ c. c ≡ spec.split_events) }
{
    let applies = all_events(alloc)?;
    let rule = RawRule::SplitEvents {
        min_duration: 1,
        max_duration: 2,
        min_amount: 1,
        max_amount: 2,
    };
    constraint(alloc, 2, SOFT, applies, rule)
}

/// Events have at most one part of duration 2.
#[tactic(auto, unfolding(crate::specs::Constraints::distribute))]
fn distribute(alloc: Global) -> Result<RawConstraint, NoMemory>
    ensures { IfOk result (λ c. c ≡ spec.distribute) }
{
    let charge = Charge {
        required: false,
        weight: 1,
        cost: CostFn::Step,
    };
    let applies = all_events(alloc)?;
    let rule = RawRule::DistributeSplitEvents {
        duration: 2,
        min: 0,
        max: 1,
    };
    constraint(alloc, 3, charge, applies, rule)
}

/// Parts of duration 1 are at the first times of the days.
#[tactic(auto, unfolding(crate::specs::Constraints::prefer_times))]
fn prefer_times(alloc: Global) -> Result<RawConstraint, NoMemory>
    ensures { IfOk result (λ c. c ≡ spec.prefer_times) }
{
    let (applies, time_groups) = both(all_events(alloc), to_one(alloc, "early"))?;
    let rule = RawRule::PreferTimes {
        time_groups,
        times: Seq::new(alloc),
        duration: Some(1),
    };
    constraint(alloc, 4, SOFT, applies, rule)
}

/// Events are in the first room.
#[tactic(auto, unfolding(crate::specs::Constraints::prefer_resources))]
fn prefer_resources(alloc: Global) -> Result<RawConstraint, NoMemory>
    ensures { IfOk result (λ c. c ≡ spec.prefer_resources) }
{
    let given = both(to_one(alloc, "q0"), name(alloc, "R"));
    let (applies, (resources, role)) = both(all_events(alloc), given)?;
    let rule = RawRule::PreferResources {
        resource_groups: Seq::new(alloc),
        resources,
        role,
    };
    constraint(alloc, 5, SOFT, applies, rule)
}

/// The events of a group have one teacher.
#[tactic(auto, unfolding(crate::specs::Constraints::avoid_split))]
fn avoid_split(alloc: Global, size: u32) -> Result<RawConstraint, NoMemory>
    ensures { IfOk result (λ c. c ≡ spec.avoid_split size) }
{
    let charge = Charge {
        required: false,
        weight: 3,
        cost: CostFn::Linear,
    };
    let (applies, role) = both(all_halves(alloc, size), name(alloc, "T"))?;
    constraint(
        alloc,
        6,
        charge,
        applies,
        RawRule::AvoidSplitAssignments { role },
    )
}

/// The events of a group are spread over the days.
#[tactic(auto, unfolding(crate::specs::Constraints::spread_events))]
fn spread_events(alloc: Global, size: u32) -> Result<RawConstraint, NoMemory>
    ensures { IfOk result (λ c. c ≡ spec.spread_events size) }
{
    let charge = Charge {
        required: false,
        weight: 2,
        cost: CostFn::Linear,
    };
    let (applies, time_groups) = both(all_halves(alloc, size), spreads(alloc))?;
    constraint(
        alloc,
        7,
        charge,
        applies,
        RawRule::SpreadEvents { time_groups },
    )
}

/// The events of the first group run together.
#[tactic(auto, unfolding(crate::specs::Constraints::link_events))]
fn link_events(alloc: Global) -> Result<RawConstraint, NoMemory>
    ensures { IfOk result (λ c. c ≡ spec.link_events) }
{
    let applies = RawApplies::Groups {
        event_groups: to_one(alloc, "h0")?,
    };
    constraint(alloc, 8, SOFT, applies, RawRule::LinkEvents)
}

/// The events of each pair follow each other.
#[tactic(auto, unfolding(crate::specs::Constraints::order_events))]
fn order_events(alloc: Global, size: u32) -> Result<RawConstraint, NoMemory>
    ensures { IfOk result (λ c. c ≡ spec.order_events size) }
{
    constraint(alloc, 9, SOFT, pairs(alloc, size)?, RawRule::OrderEvents)
}

/// Resources are in one place at a time.
#[tactic(auto, unfolding(crate::specs::Constraints::avoid_clashes))]
fn avoid_clashes(alloc: Global) -> Result<RawConstraint, NoMemory>
    ensures { IfOk result (λ c. c ≡ spec.avoid_clashes) }
{
    let applies = RawApplies::Resources {
        resource_groups: all_groups(alloc)?,
        resources: Seq::new(alloc),
    };
    constraint(alloc, 10, HARD, applies, RawRule::AvoidClashes)
}

/// Teachers are free at the last time.
#[tactic(auto, unfolding(crate::specs::Constraints::avoid_unavailable))]
fn avoid_unavailable(alloc: Global) -> Result<RawConstraint, NoMemory>
    ensures { IfOk result (λ c. c ≡ spec.avoid_unavailable) }
{
    let (applies, times) = both(group(alloc, "gp"), to_one(alloc, "t39"))?;
    let rule = RawRule::AvoidUnavailableTimes {
        time_groups: Seq::new(alloc),
        times,
    };
    constraint(alloc, 11, HARD, applies, rule)
}

/// Teachers have at most two idle times a day.
#[tactic(auto, unfolding(crate::specs::Constraints::limit_idle))]
fn limit_idle(alloc: Global) -> Result<RawConstraint, NoMemory>
    ensures { IfOk result (λ c. c ≡ spec.limit_idle) }
{
    let charge = Charge {
        required: false,
        weight: 1,
        cost: CostFn::Quadratic,
    };
    let (applies, time_groups) = both(group(alloc, "gp"), days(alloc))?;
    let rule = RawRule::LimitIdleTimes {
        time_groups,
        min: 0,
        max: 2,
    };
    constraint(alloc, 12, charge, applies, rule)
}

/// Teachers are busy at most four days.
#[tactic(auto, unfolding(crate::specs::Constraints::cluster_busy))]
fn cluster_busy(alloc: Global) -> Result<RawConstraint, NoMemory>
    ensures { IfOk result (λ c. c ≡ spec.cluster_busy) }
{
    let (applies, time_groups) = both(group(alloc, "gp"), days(alloc))?;
    let rule = RawRule::ClusterBusyTimes {
        time_groups,
        min: 0,
        max: 4,
    };
    constraint(alloc, 13, SOFT, applies, rule)
}

/// Classes are busy at two to six times a day.
#[tactic(auto, unfolding(crate::specs::Constraints::limit_busy))]
fn limit_busy(alloc: Global) -> Result<RawConstraint, NoMemory>
    ensures { IfOk result (λ c. c ≡ spec.limit_busy) }
{
    let (applies, time_groups) = both(group(alloc, "gc"), days(alloc))?;
    let rule = RawRule::LimitBusyTimes {
        time_groups,
        min: 2,
        max: 6,
    };
    constraint(alloc, 14, SOFT, applies, rule)
}

/// Teachers have a workload of at most twelve.
#[tactic(auto, unfolding(crate::specs::Constraints::limit_workload))]
fn limit_workload(alloc: Global) -> Result<RawConstraint, NoMemory>
    ensures { IfOk result (λ c. c ≡ spec.limit_workload) }
{
    let applies = group(alloc, "gp")?;
    let rule = RawRule::LimitWorkload { min: 0, max: 12 };
    constraint(alloc, 15, SOFT, applies, rule)
}

/// Adds the constraints of events.
#[tactic(auto, unfolding(crate::specs::Constraints::event_constraints))]
fn add_event_constraints(alloc: Global, list: &mut Seq<RawConstraint>) -> Result<(), NoMemory>
    ensures { OnOk result (list.new ≡ list.old ++ spec.event_constraints) }
{
    list.push(assign_time(alloc)?)?;
    list.push(assign_resource(alloc)?)?;
    list.push(split_events(alloc)?)
}

/// Adds the constraints of parts of events.
#[tactic(auto, unfolding(crate::specs::Constraints::part_constraints))]
fn add_part_constraints(alloc: Global, list: &mut Seq<RawConstraint>) -> Result<(), NoMemory>
    ensures { OnOk result (list.new ≡ list.old ++ spec.part_constraints) }
{
    list.push(distribute(alloc)?)?;
    list.push(prefer_times(alloc)?)?;
    list.push(prefer_resources(alloc)?)
}

/// Adds the constraints of groups and pairs of events.
#[tactic(auto, unfolding(crate::specs::Constraints::group_constraints))]
fn add_group_constraints(
    alloc: Global,
    list: &mut Seq<RawConstraint>,
    size: u32,
) -> Result<(), NoMemory>
    ensures { OnOk result (list.new ≡ list.old ++ spec.group_constraints size) }
{
    list.push(avoid_split(alloc, size)?)?;
    list.push(spread_events(alloc, size)?)?;
    list.push(link_events(alloc)?)?;
    list.push(order_events(alloc, size)?)
}

/// Adds the constraints of resources.
#[tactic(auto, unfolding(crate::specs::Constraints::resource_constraints))]
fn add_resource_constraints(alloc: Global, list: &mut Seq<RawConstraint>) -> Result<(), NoMemory>
    ensures { OnOk result (list.new ≡ list.old ++ spec.resource_constraints) }
{
    list.push(avoid_clashes(alloc)?)?;
    list.push(avoid_unavailable(alloc)?)?;
    list.push(limit_idle(alloc)?)
}

/// Adds the constraints of how much resources are busy.
#[tactic(auto, unfolding(crate::specs::Constraints::load_constraints))]
fn add_load_constraints(alloc: Global, list: &mut Seq<RawConstraint>) -> Result<(), NoMemory>
    ensures { OnOk result (list.new ≡ list.old ++ spec.load_constraints) }
{
    list.push(cluster_busy(alloc)?)?;
    list.push(limit_busy(alloc)?)?;
    list.push(limit_workload(alloc)?)
}

/// The constraints, one of each kind.
#[tactic(auto, unfolding(crate::specs::Constraints::constraints))]
pub(crate) fn constraints(alloc: Global, size: u32) -> Result<Seq<RawConstraint>, NoMemory>
    ensures { IfOk result (λ list. list ≡ spec.constraints size) }
{
    let mut list = roomy(alloc, 16)?;
    add_event_constraints(alloc, &mut list)?;
    add_part_constraints(alloc, &mut list)?;
    add_group_constraints(alloc, &mut list, size)?;
    add_resource_constraints(alloc, &mut list)?;
    add_load_constraints(alloc, &mut list)?;
    Ok(list)
}
