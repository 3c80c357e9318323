//! Making the parts of an instance that keeps its limits.

ghost use Rattle.std.specs.Prelude.{◌≡◌, ◌≤◌, map, IfOk};
ghost use Rattle.khe_base.specs.declared.limits.TheConstants.{DURATION};
ghost use Rattle.xhstt_references.specs.Ids.{time_ids};
ghost use Rattle.xhstt_resolve.specs.Limits.{total_duration};
ghost use Rattle.xhstt_resolve.specs.Parts.{parts_of};
ghost use Rattle.xhstt_resolve.specs.Roles.{AreRolesOf};
ghost use Rattle.xhstt_resolve.specs.Tables.{IsLookup, HasFewPlaces};
ghost use Rattle.xhstt_resolve.specs.Units.{unit_of};

use crate::events::events_of;
use crate::monitors::monitors_of;
use crate::resources::{groups_of, resources_of};
use crate::roles::Roles;
use crate::rules::constraints_of;
use crate::tables::Lookup;
use khe_base::{NoMemory, Seq, Text, both};
use khe_instance::Parts;
use std::alloc::Global;
use xhstt_shape::RawInstance;

/// The parts of an instance that keeps its limits and has this unit.
///
/// It takes time in proportion to the instance with its groups expanded, and besides to the sets that it makes:
/// event groups times events, listed time groups times times, and constraints times the items of the sort that
/// they apply to. It takes memory in proportion to what it makes.
pub(crate) fn parts_of(
    alloc: Global,
    lookup: &Lookup<'_>,
    roles: &Roles,
    unit: u64,
) -> Result<Parts, NoMemory>
    requires lookup { IsLookup lookup.now }
    requires places { HasFewPlaces lookup.now.instance.now }
    requires roles { AreRolesOf lookup.now.instance.now roles.now }
    requires duration { total_duration lookup.now.instance.now ≤ DURATION }
    requires unit { unit ≡ unit_of (map (λ e. e.duration) lookup.now.instance.now.events) }
    ensures { IfOk result (λ p. p ≡ parts_of lookup.now.instance.now) }
{
    let types = lookup.instance.resource_types.len() as u32;
    let names = both(
        lookup.instance.id.text.copy(alloc),
        time_ids(alloc, lookup.instance),
    );
    let items = both(
        resources_of(alloc, lookup),
        both(groups_of(alloc, lookup), events_of(alloc, lookup)),
    );
    let rules = both(
        constraints_of(alloc, lookup),
        monitors_of(alloc, lookup, roles),
    );
    let ((id, times), ((resources, (groups, events)), (constraints, monitors))) = both(
        names,
        both(items, rules),
    )?;
    Ok(Parts {
        id,
        times,
        types,
        resources,
        groups,
        events,
        constraints,
        monitors,
        unit,
    })
}

/// Copies of the Ids of the times.
fn time_ids(alloc: Global, instance: &RawInstance) -> Result<Seq<Text>, NoMemory>
    ensures { IfOk result (λ ids. ids ≡ time_ids instance.now) }
{
    let mut ids = Seq::new(alloc);
    for time in instance.times.as_slice() {
        ids.push(time.id.text.copy(alloc)?)?;
    }
    Ok(ids)
}
