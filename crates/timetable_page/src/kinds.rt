//! What a solution costs by the kinds of its constraints.

use crate::busy::list_at;
use crate::costs::{Defect, cost_of, deviation_of};
use crate::draft::Draft;
use khe_base::{MonitorId, NoMemory, Seq};
use khe_instance::{Instance, Kind, Rule};
use std::alloc::Global;

/// The kinds of constraints, in the order in which the format describes them.
const KINDS: &[Kind] = &[
    Kind::AssignTime,
    Kind::AssignResource,
    Kind::SplitEvents,
    Kind::DistributeSplitEvents,
    Kind::PreferTimes,
    Kind::PreferResources,
    Kind::AvoidSplitAssignments,
    Kind::SpreadEvents,
    Kind::LinkEvents,
    Kind::OrderEvents,
    Kind::AvoidClashes,
    Kind::AvoidUnavailableTimes,
    Kind::LimitIdleTimes,
    Kind::ClusterBusyTimes,
    Kind::LimitBusyTimes,
    Kind::LimitWorkload,
];

/// What the monitors of one kind come to.
#[derive(Clone, Copy)]
struct KindSums {
    monitors: u128,
    /// How many of them deviate.
    deviating: u128,
    /// The sum of their deviations.
    deviation: u128,
    hard: u128,
    soft: u128,
}

/// The kind of a rule.
pub(crate) fn kind_of(rule: &Rule) -> Kind {
    match rule {
        Rule::AssignTime => Kind::AssignTime,
        Rule::AssignResource { .. } => Kind::AssignResource,
        Rule::SplitEvents { .. } => Kind::SplitEvents,
        Rule::DistributeSplitEvents { .. } => Kind::DistributeSplitEvents,
        Rule::PreferTimes { .. } => Kind::PreferTimes,
        Rule::PreferResources { .. } => Kind::PreferResources,
        Rule::AvoidSplitAssignments { .. } => Kind::AvoidSplitAssignments,
        Rule::SpreadEvents { .. } => Kind::SpreadEvents,
        Rule::LinkEvents => Kind::LinkEvents,
        Rule::OrderEvents { .. } => Kind::OrderEvents,
        Rule::AvoidClashes => Kind::AvoidClashes,
        Rule::AvoidUnavailableTimes { .. } => Kind::AvoidUnavailableTimes,
        Rule::LimitIdleTimes { .. } => Kind::LimitIdleTimes,
        Rule::ClusterBusyTimes { .. } => Kind::ClusterBusyTimes,
        Rule::LimitBusyTimes { .. } => Kind::LimitBusyTimes,
        Rule::LimitWorkload { .. } => Kind::LimitWorkload,
    }
}

/// What the format calls a kind of constraints.
pub(crate) fn kind_name(kind: Kind) -> &'static str {
    match kind {
        Kind::AssignTime => "Assign Time",
        Kind::AssignResource => "Assign Resource",
        Kind::SplitEvents => "Split Events",
        Kind::DistributeSplitEvents => "Distribute Split Events",
        Kind::PreferTimes => "Prefer Times",
        Kind::PreferResources => "Prefer Resources",
        Kind::AvoidSplitAssignments => "Avoid Split Assignments",
        Kind::SpreadEvents => "Spread Events",
        Kind::LinkEvents => "Link Events",
        Kind::OrderEvents => "Order Events",
        Kind::AvoidClashes => "Avoid Clashes",
        Kind::AvoidUnavailableTimes => "Avoid Unavailable Times",
        Kind::LimitIdleTimes => "Limit Idle Times",
        Kind::ClusterBusyTimes => "Cluster Busy Times",
        Kind::LimitBusyTimes => "Limit Busy Times",
        Kind::LimitWorkload => "Limit Workload",
    }
}

/// The place of a kind in the table.
fn place_of(kind: Kind) -> usize {
    KINDS.iter().position(|other| *other == kind).unwrap_or(0)
}

/// What the monitors of each constraint of an instance come to, by kinds.
fn sums_by_kind(
    alloc: Global,
    inst: &Instance,
    defects: &Seq<Seq<Defect>>,
) -> Result<Vec<KindSums>, NoMemory> {
    let nothing = KindSums {
        monitors: 0,
        deviating: 0,
        deviation: 0,
        hard: 0,
        soft: 0,
    };
    let mut sums = vec![in alloc; nothing; KINDS.len()]?;
    let places = constraint_places(alloc, inst)?;
    for number in 0..inst.monitors() {
        let constraint = inst.monitor(MonitorId(number)).constraint;
        count(&mut sums, places.as_slice(), constraint);
    }
    for which in 0..inst.constraints() {
        let place = places.get(which as usize).copied().unwrap_or(0);
        if place < sums.len() {
            let required = inst.constraint(which).required;
            sums[place] = with_defects(sums[place], required, list_at(defects, which));
        }
    }
    Ok(sums)
}

/// Counts a monitor of a constraint.
fn count(sums: &mut Vec<KindSums>, places: &[usize], constraint: u32) {
    let place = places.get(constraint as usize).copied().unwrap_or(0);
    if place < sums.len() {
        let mut one = sums[place];
        one.monitors = one.monitors.saturating_add(1);
        sums[place] = one;
    }
}

/// The place of the kind of each constraint.
fn constraint_places(alloc: Global, inst: &Instance) -> Result<Vec<usize>, NoMemory> {
    let mut places = Vec::new(alloc);
    for which in 0..inst.constraints() {
        places.push(place_of(kind_of(&inst.constraint(which).rule)))?;
    }
    Ok(places)
}

/// What a kind comes to with the monitors of a constraint that deviate.
fn with_defects(sums: KindSums, required: bool, defects: &[Defect]) -> KindSums {
    let mut sums = sums;
    sums.deviating = sums.deviating.saturating_add(defects.len() as u128);
    sums.deviation = sums.deviation.saturating_add(deviation_of(defects));
    let cost = cost_of(defects);
    if required {
        sums.hard = sums.hard.saturating_add(cost);
    } else {
        sums.soft = sums.soft.saturating_add(cost);
    }
    sums
}

/// Adds a number to a row.
fn push_cell(page: &mut Draft, number: u128) {
    page.push_counted("<td class=num>", number, "");
}

/// Adds the row of a kind.
fn push_kind(page: &mut Draft, kind: Kind, sums: KindSums) {
    if sums.deviating == 0 {
        page.push_literal("<tr class=fine><th scope=row>");
    } else {
        page.push_literal("<tr><th scope=row>");
    }
    page.push_str(kind_name(kind));
    push_cell(page, sums.monitors);
    push_cell(page, sums.deviating);
    push_cell(page, sums.deviation);
    push_cell(page, sums.hard);
    push_cell(page, sums.soft);
    page.push_literal("\n");
}

/// Adds the table of what a solution costs by kind of constraints. It takes time in proportion to the monitors and the
/// constraints.
pub(crate) fn push_kinds(
    alloc: Global,
    page: &mut Draft,
    solution: u32,
    inst: &Instance,
    defects: &Seq<Seq<Defect>>,
) {
    page.push_counted(
        "<details open id=s",
        u128::from(solution),
        "k><summary>Costs by kind</summary>",
    );
    page.push_literal("<div class=wide tabindex=0 role=region aria-label=\"Costs by kind\">");
    page.push_literal("<table class=costs><thead><tr><th scope=col>Kind<th scope=col>Monitors");
    page.push_literal("<th scope=col>Deviate<th scope=col>Sum of deviations");
    page.push_literal("<th scope=col>Hard cost<th scope=col>Soft cost<tbody>\n");
    match sums_by_kind(alloc, inst, defects) {
        Ok(sums) => {
            for (kind, sums) in KINDS.iter().zip(sums.iter()) {
                push_kind(page, *kind, *sums);
            }
        }
        Err(NoMemory) => page.refuse(),
    }
    page.push_literal("</table></div></details>\n");
}
