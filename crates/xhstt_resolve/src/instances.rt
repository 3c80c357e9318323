//! One instance, or the first limit that it is above.

ghost use Rattle.std.specs.Prelude.{◌≡◌, ◌≤◌, ◌*◌, ◌^◌, ◌<◌, None, length, map, IfOk, IfErr};
ghost use Rattle.khe_base.specs.declared.limits.TheConstants.{DURATION, RESOURCES, TASKS, TIMES};
ghost use Rattle.xhstt_references.specs.Directories.{IsDirectoryOf};
ghost use Rattle.xhstt_references.specs.Faults.{fault_of_instance};
ghost use Rattle.xhstt_resolve.specs.Answers.{IsFirst};
ghost use Rattle.xhstt_resolve.specs.LaterLimits.{last_fault, later_fault};
ghost use Rattle.xhstt_resolve.specs.Limits as spec;
ghost use Rattle.xhstt_resolve.specs.Parts as parts;
ghost use Rattle.xhstt_resolve.specs.Roles.{AreRolesOf};
ghost use Rattle.xhstt_resolve.specs.Tables.{HasFewPlaces, HasKeptCounts, IsLookup};
ghost use Rattle.xhstt_resolve.specs.Units.{unit_of};
ghost use Rattle.xhstt_shape.specs.WellFormed.{IsInstance};
ghost use Rattle.fault_tables.specs.declared.limits.TheConstants.{TOO_GREAT_UNIT, TOO_MANY_LISTED};

use crate::building::parts_of;
use crate::counting::counts_of;
use crate::faults::ResolveFault;
use crate::roles::{Roles, roles_of};
use crate::sizes::{listed_above, task_count, total_duration};
use crate::tables::{Lookup, lookup_of};
use crate::units::unit_of;
use fault_tables::{
    Limit, TOO_GREAT_UNIT, TOO_LONG_DURATION, TOO_MANY_CELLS, TOO_MANY_CONSTRAINTS,
    TOO_MANY_EVENT_GROUPS, TOO_MANY_EVENTS, TOO_MANY_LISTED, TOO_MANY_MONITORS,
    TOO_MANY_RESOURCE_GROUPS, TOO_MANY_RESOURCE_TYPES, TOO_MANY_RESOURCES, TOO_MANY_TASKS,
    TOO_MANY_TIME_GROUPS, TOO_MANY_TIMES, TOO_MANY_WATCHES, limit_numbered,
};
use khe_instance::{Instance, Parts};
use std::alloc::Global;
use xhstt_references::Directory;
use xhstt_shape::RawInstance;

/// The instance with these names, which has no fault of names and references, or the first limit that
/// it is above.
///
/// Nothing is made of what is above a limit: places, monitors and watches are counted first. It takes time in
/// proportion to the instance with its groups expanded, twice, and to the sets that it makes.
pub(crate) fn instance_of(
    alloc: Global,
    raw: &RawInstance,
    names: &Directory,
) -> Result<Instance, ResolveFault>
    requires names { IsDirectoryOf raw.now names.now }
    requires sound { fault_of_instance raw.now ≡ None }
    requires formed { IsInstance raw.now }
    ensures made { IfOk result (λ i. i ≡ parts.parts_of raw.now) }
    ensures within { IfOk result (λ i. spec.limit_fault raw.now ≡ None) }
    ensures kept { IfOk result (λ i. HasKeptCounts raw.now) }
    ensures fault { IfErr result (IsFirst (spec.limit_fault raw.now)) }
{
    let parts = parts_named(alloc, raw, names)?;
    Ok(Instance::new(alloc, parts)?)
}

/// The parts with these names of an instance, or the first limit that it is above. What its Ids lead to
/// is kept no longer than this call.
fn parts_named(alloc: Global, raw: &RawInstance, names: &Directory) -> Result<Parts, ResolveFault>
    requires names { IsDirectoryOf raw.now names.now }
    requires formed { IsInstance raw.now }
    ensures made { IfOk result (λ p. p ≡ parts.parts_of raw.now) }
    ensures within { IfOk result (λ p. spec.limit_fault raw.now ≡ None) }
    ensures kept { IfOk result (λ p. HasKeptCounts raw.now) }
    ensures fault { IfErr result (IsFirst (spec.limit_fault raw.now)) }
{
    counts_within(raw)?;
    let lookup = lookup_of(alloc, raw, names)?;
    let made = parts_within(alloc, &lookup);
    drop(lookup);
    made
}

/// The parts of an instance whose counts keep their limits, or the first of the other limits, in the
/// order of their numbers, that it is above.
fn parts_within(alloc: Global, lookup: &Lookup<'_>) -> Result<Parts, ResolveFault>
    requires lookup { IsLookup lookup.now }
    requires formed { IsInstance lookup.now.instance.now }
    requires earlier { spec.limit_fault lookup.now.instance.now ≡ later_fault lookup.now.instance.now }
    ensures made { IfOk result (λ p. p ≡ parts.parts_of lookup.now.instance.now) }
    ensures within { IfOk result (λ p. spec.limit_fault lookup.now.instance.now ≡ None) }
    ensures fault { IfErr result (IsFirst (spec.limit_fault lookup.now.instance.now)) }
{
    sums_within(lookup)?;
    let roles = roles_of(alloc, lookup.instance)?;
    let made = parts_by_roles(alloc, lookup, &roles);
    drop(roles);
    made
}

/// The parts of an instance of which the monitors, the watches and the unit alone are left to be
/// looked at, or the first of these limits that it is above.
fn parts_by_roles(alloc: Global, lookup: &Lookup<'_>, roles: &Roles) -> Result<Parts, ResolveFault>
    requires lookup { IsLookup lookup.now }
    requires formed { IsInstance lookup.now.instance.now }
    requires places { HasFewPlaces lookup.now.instance.now }
    requires roles { AreRolesOf lookup.now.instance.now roles.now }
    requires duration { spec.total_duration lookup.now.instance.now ≤ DURATION }
    requires earlier { spec.limit_fault lookup.now.instance.now ≡ last_fault lookup.now.instance.now }
    ensures made { IfOk result (λ p. p ≡ parts.parts_of lookup.now.instance.now) }
    ensures within { IfOk result (λ p. spec.limit_fault lookup.now.instance.now ≡ None) }
    ensures fault { IfErr result (IsFirst (spec.limit_fault lookup.now.instance.now)) }
{
    let unit = monitors_within(alloc, lookup, roles)?;
    Ok(parts_of(alloc, lookup, roles, unit)?)
}

/// A count of an instance's parts that is above its limit is a fault.
fn counts_within(raw: &RawInstance) -> Result<(), ResolveFault>
    ensures kept { IfOk result (λ u. HasKeptCounts raw.now) }
    ensures within { IfOk result (λ u. spec.limit_fault raw.now ≡ later_fault raw.now) }
    ensures fault { IfErr result (IsFirst (spec.limit_fault raw.now)) }
{
    within(TOO_MANY_TIMES, raw.times.len() as u128)?;
    within(TOO_MANY_TIME_GROUPS, raw.time_groups.len() as u128)?;
    within(TOO_MANY_RESOURCE_TYPES, raw.resource_types.len() as u128)?;
    within(TOO_MANY_RESOURCES, raw.resources.len() as u128)?;
    within(TOO_MANY_RESOURCE_GROUPS, raw.resource_groups.len() as u128)?;
    within(TOO_MANY_EVENTS, raw.events.len() as u128)?;
    within(TOO_MANY_EVENT_GROUPS, raw.event_groups.len() as u128)?;
    within(TOO_MANY_CONSTRAINTS, raw.constraints.len() as u128)?;
    Ok(())
}

/// Durations, tasks, cells or a listing above their limits are a fault, where the counts keep theirs.
fn sums_within(lookup: &Lookup<'_>) -> Result<(), ResolveFault>
    requires lookup { IsLookup lookup.now }
    requires earlier { spec.limit_fault lookup.now.instance.now ≡ later_fault lookup.now.instance.now }
    ensures duration { IfOk result (λ u. spec.total_duration lookup.now.instance.now ≤ DURATION) }
    ensures tasks { IfOk result (λ u. spec.task_count lookup.now.instance.now ≤ TASKS) }
    ensures within { IfOk result (λ u. spec.limit_fault lookup.now.instance.now ≡ last_fault lookup.now.instance.now) }
    ensures fault { IfErr result (IsFirst (spec.limit_fault lookup.now.instance.now)) }
{
    within(
        TOO_LONG_DURATION,
        u128::from(total_duration(lookup.instance)),
    )?;
    within(TOO_MANY_TASKS, task_count(lookup))?;
    within(TOO_MANY_CELLS, cells(lookup.instance))?;
    listed_within(lookup.instance)?;
    Ok(())
}

/// The unit of an instance that keeps the limits before those of monitors and watches, or the first of
/// these two and that of the unit that it is above.
fn monitors_within(alloc: Global, lookup: &Lookup<'_>, roles: &Roles) -> Result<u64, ResolveFault>
    requires lookup { IsLookup lookup.now }
    requires formed { IsInstance lookup.now.instance.now }
    requires places { HasFewPlaces lookup.now.instance.now }
    requires roles { AreRolesOf lookup.now.instance.now roles.now }
    requires earlier { spec.limit_fault lookup.now.instance.now ≡ last_fault lookup.now.instance.now }
    ensures unit { IfOk result (λ u. u ≡ unit_of (map (λ e. e.duration) lookup.now.instance.now.events)) }
    ensures within { IfOk result (λ u. spec.limit_fault lookup.now.instance.now ≡ None) }
    ensures fault { IfErr result (IsFirst (spec.limit_fault lookup.now.instance.now)) }
{
    let counts = counts_of(alloc, lookup, roles)?;
    within(TOO_MANY_MONITORS, counts.monitors)?;
    within(TOO_MANY_WATCHES, counts.watches)?;
    let unit = unit_within(lookup.instance)?;
    Ok(unit)
}

/// The unit of an instance, or the fault that it is too great.
fn unit_within(instance: &RawInstance) -> Result<u64, ResolveFault>
    requires { IsInstance instance.now }
    ensures unit { IfOk result (λ u. u ≡ unit_of (map (λ e. e.duration) instance.now.events)) }
    ensures within { IfOk result (λ u. spec.first_above TOO_GREAT_UNIT (spec.units instance.now) ≡ None) }
    ensures fault { IfErr result (IsFirst (spec.first_above TOO_GREAT_UNIT (spec.units instance.now))) }
{
    match unit_of(instance) {
        Ok(unit) => Ok(unit),
        Err(value) => Err(ResolveFault::Limit {
            which: TOO_GREAT_UNIT,
            value,
        }),
    }
}

/// A constraint that lists too many time groups is a fault.
fn listed_within(instance: &RawInstance) -> Result<(), ResolveFault>
    ensures within { IfOk result (λ u. spec.first_above TOO_MANY_LISTED (spec.listings instance.now) ≡ None) }
    ensures fault { IfErr result (IsFirst (spec.first_above TOO_MANY_LISTED (spec.listings instance.now))) }
{
    match listed_above(instance) {
        None => Ok(()),
        Some(value) => Err(ResolveFault::Limit {
            which: TOO_MANY_LISTED,
            value: value as u128,
        }),
    }
}

/// How many cells there are: resources times times.
fn cells(instance: &RawInstance) -> u128
    requires resources { length instance.now.resources ≤ RESOURCES }
    requires times { length instance.now.times ≤ TIMES }
    ensures { result ≡ length instance.now.resources * length instance.now.times }
{
    (instance.resources.len() * instance.times.len()) as u128
}

/// A value above the greatest of the limit with a number is a fault.
pub(crate) fn within(which: u32, value: u128) -> Result<(), ResolveFault>
    ensures within { IfOk result (λ u. spec.above which value ≡ None) }
    ensures fault { IfErr result (IsFirst (spec.above which value)) }
{
    match limit_numbered(which) {
        Some(limit) => within_limit(limit, which, value),
        None => Ok(()),
    }
}

/// A value above the greatest of a limit is a fault.
fn within_limit(limit: Limit, which: u32, value: u128) -> Result<(), ResolveFault>
    ensures within { IfOk result (λ u. spec.beyond which limit.greatest value ≡ None) }
    ensures fault { IfErr result (IsFirst (spec.beyond which limit.greatest value)) }
{
    if value > u128::from(limit.greatest) {
        return Err(ResolveFault::Limit { which, value });
    }
    Ok(())
}
