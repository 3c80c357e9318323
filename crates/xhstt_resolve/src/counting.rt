//! How many monitors and watches an instance has, before any is made.

ghost use Rattle.std.specs.Prelude.{◌≡◌, length, IfOk};
ghost use Rattle.xhstt_resolve.specs.Followed.{with_count};
ghost use Rattle.xhstt_resolve.specs.Limits.{watch_count};
ghost use Rattle.xhstt_resolve.specs.Points.{monitors_of};
ghost use Rattle.xhstt_resolve.specs.Roles.{AreRolesOf};
ghost use Rattle.xhstt_resolve.specs.Tables.{IsLookup, HasFewPlaces};

use crate::points::{Follow, Visit, follow_out};
use crate::roles::Roles;
use crate::tables::Lookup;
use khe_base::NoMemory;
use std::alloc::Global;

/// How many monitors there are, and how many watches: what all of them name, together.
#[derive(Clone, Copy)]
pub(crate) struct Counts {
    pub monitors: u128,
    pub watches: u128,
}

/// Each point is one monitor. A count stays at the greatest `u128`, which no instance comes to whose
/// parts keep their limits.
impl Follow for Counts {
    ghost met = { with_count };

    fn meet(&mut self, visit: Visit) -> Result<(), NoMemory> {
        self.monitors = self.monitors.saturating_add(1);
        self.watches = self.watches.saturating_add(visit.watches);
        Ok(())
    }
}

/// How many monitors and watches an instance has. It takes the time of making the monitors, and
/// memory in proportion to the items of the sort that a constraint applies to.
pub(crate) fn counts_of(
    alloc: Global,
    lookup: &Lookup<'_>,
    roles: &Roles,
) -> Result<Counts, NoMemory>
    requires lookup { IsLookup lookup.now }
    requires places { HasFewPlaces lookup.now.instance.now }
    requires roles { AreRolesOf lookup.now.instance.now roles.now }
    ensures monitors { IfOk result (λ n. n.monitors ≡ length (monitors_of lookup.now.instance.now)) }
    ensures watches { IfOk result (λ n. n.watches ≡ watch_count lookup.now.instance.now) }
{
    let mut counts = Counts {
        monitors: 0,
        watches: 0,
    };
    for constraint in lookup.instance.constraints.as_slice() {
        follow_out(alloc, lookup, roles, constraint, &mut counts)?;
    }
    Ok(counts)
}
