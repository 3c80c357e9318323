//! Expanding constraints into monitors.

ghost use Rattle.std.specs.Prelude.{◌≡◌, ◌++◌, IfOk};
ghost use Rattle.khe_instance.specs.Kinds.{kind_of};
ghost use Rattle.xhstt_resolve.specs.Followed.{with_monitor};
ghost use Rattle.xhstt_resolve.specs.Points.{monitors_at, monitors_of};
ghost use Rattle.xhstt_resolve.specs.Roles.{AreRolesOf};
ghost use Rattle.xhstt_resolve.specs.Rules.{rule_of};
ghost use Rattle.xhstt_resolve.specs.Tables.{IsLookup, HasFewPlaces};
ghost use Rattle.xhstt_shape.specs.declared.constraints.RawApplies.{RawApplies};
ghost use Rattle.xhstt_shape.specs.declared.records.RawInstance.{RawInstance};

use crate::points::{Follow, Visit, follow_out};
use crate::roles::Roles;
use crate::tables::Lookup;
use khe_base::{NoMemory, Seq};
use khe_instance::{Kind, Monitor};
use std::alloc::Global;
use xhstt_shape::{RawConstraint, RawRule};

/// Monitors, with the kind and the constraint of the next ones.
#[derive(Drop)]
pub(crate) struct Monitors {
    pub kind: Kind,
    pub constraint: u32,
    pub made: Seq<Monitor>,
}

/// Each point becomes a monitor.
impl Follow for Monitors {
    ghost met = { with_monitor };

    fn meet(&mut self, visit: Visit) -> Result<(), NoMemory> {
        self.made.push(Monitor {
            kind: self.kind,
            constraint: self.constraint,
            point: visit.point,
        })
    }
}

/// The monitors: the constraints in order, each expanded into its points.
///
/// It takes time in proportion to what the constraints apply to and the times that they list, with their groups
/// expanded, and for each constraint to all items of the sort that it applies to, on average; and memory in
/// proportion to the monitors and those items.
pub(crate) fn monitors_of(
    alloc: Global,
    lookup: &Lookup<'_>,
    roles: &Roles,
) -> Result<Seq<Monitor>, NoMemory>
    requires lookup { IsLookup lookup.now }
    requires places { HasFewPlaces lookup.now.instance.now }
    requires roles { AreRolesOf lookup.now.instance.now roles.now }
    ensures { IfOk result (λ ms. ms ≡ monitors_of lookup.now.instance.now) }
{
    let mut monitors = Seq::new(alloc);
    for (number, constraint) in lookup.instance.constraints.as_slice().iter().enumerate() {
        monitors = with_monitors(alloc, lookup, roles, number as u32, constraint, monitors)?;
    }
    Ok(monitors)
}

/// The monitors so far with those of the constraint with a number.
fn with_monitors(
    alloc: Global,
    lookup: &Lookup<'_>,
    roles: &Roles,
    number: u32,
    constraint: &RawConstraint,
    made: Seq<Monitor>,
) -> Result<Seq<Monitor>, NoMemory>
    requires lookup { IsLookup lookup.now }
    requires places { HasFewPlaces lookup.now.instance.now }
    requires roles { AreRolesOf lookup.now.instance.now roles.now }
    ensures { IfOk result (λ ms. ms ≡ made ++ monitors_at lookup.now.instance.now (number, constraint.now)) }
{
    let mut monitors = Monitors {
        kind: kind_of(&constraint.rule),
        constraint: number,
        made,
    };
    follow_out(alloc, lookup, roles, constraint, &mut monitors)?;
    let Monitors { made, .. } = monitors;
    Ok(made)
}

/// The kind of a rule.
fn kind_of(rule: &RawRule) -> Kind
    ensures { (i : RawInstance) (applies : RawApplies) → result ≡ kind_of (rule_of i applies rule.now) }
{
    match rule {
        RawRule::AssignTime => Kind::AssignTime,
        RawRule::AssignResource { .. } => Kind::AssignResource,
        RawRule::SplitEvents { .. } => Kind::SplitEvents,
        RawRule::DistributeSplitEvents { .. } => Kind::DistributeSplitEvents,
        RawRule::PreferTimes { .. } => Kind::PreferTimes,
        RawRule::PreferResources { .. } => Kind::PreferResources,
        RawRule::AvoidSplitAssignments { .. } => Kind::AvoidSplitAssignments,
        RawRule::SpreadEvents { .. } => Kind::SpreadEvents,
        RawRule::LinkEvents => Kind::LinkEvents,
        RawRule::OrderEvents => Kind::OrderEvents,
        RawRule::AvoidClashes => Kind::AvoidClashes,
        RawRule::AvoidUnavailableTimes { .. } => Kind::AvoidUnavailableTimes,
        RawRule::LimitIdleTimes { .. } => Kind::LimitIdleTimes,
        RawRule::ClusterBusyTimes { .. } => Kind::ClusterBusyTimes,
        RawRule::LimitBusyTimes { .. } => Kind::LimitBusyTimes,
        RawRule::LimitWorkload { .. } => Kind::LimitWorkload,
    }
}
