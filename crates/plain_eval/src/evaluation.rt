//! What a timetable costs, from scratch.

ghost use Rattle.std.specs.Prelude.{◌≡◌, ◌≤◌, All, IfOk};
ghost use Rattle.khe_base.specs.declared.limits.TheConstants.{GREATEST_COST, GREATEST_DEVIATION, GREATEST_TOTAL};
ghost use Rattle.khe_instance.specs.Evaluated as evaluated;
ghost use Rattle.khe_instance.specs.States.{IsValid};
ghost use Rattle.resource_deviations.specs.Sets.{room_for};

use crate::costing::{costs_of, totals_of};
use crate::measuring::deviations_of;
use khe_base::{NoMemory, Seq, Totals, lends_to_threads};
use khe_instance::{Instance, Plain};
use resource_deviations::ResourceRoom;
use std::alloc::Global;

/// What a timetable costs.
#[derive(Drop)]
pub struct Values {
    /// The deviation of each monitor, in the order of their numbers, at most
    /// `khe_base::limits::GREATEST_DEVIATION`.
    pub deviations: Seq<u64>,
    /// What each monitor costs, at most `khe_base::limits::GREATEST_COST`, and 0 where it is
    /// detached.
    pub costs: Seq<u128>,
    /// The sum of the costs of required constraints, and that of all others, each at most
    /// `khe_base::limits::GREATEST_TOTAL`.
    pub totals: Totals,
}

/// What a valid timetable of an instance costs. The deviations are those of the definitions of the
/// sixteen kinds, the costs those of the cost functions of their constraints, and the totals their
/// sums; all of it is added up anew.
///
/// The only error is that memory is refused. It takes time about in proportion to the meets, the tasks, the
/// times that they cover, the watches of the monitors, the resources, and the times for each resource that has
/// a task; and memory in proportion to the meets, the tasks, the monitors, the resources, and the times for
/// each resource that has a task. A caller that evaluates many timetables of an instance makes what depends on
/// the instance alone once, and calls `evaluate_in`.
///
/// The sources are the pages of the constraints and of the cost functions of the XHSTT format.
pub fn evaluate(alloc: Global, inst: &Instance, plain: &Plain) -> Result<Values, NoMemory>
    requires { IsValid inst.now plain.now }
    ensures deviations { IfOk result (λ v. v.deviations ≡ evaluated.deviations inst.now plain.now) }
    ensures costs { IfOk result (λ v. v.costs ≡ evaluated.costs inst.now plain.now) }
    ensures totals { IfOk result (λ v. v.totals ≡ evaluated.totals inst.now plain.now) }
    ensures small_deviations { IfOk result (λ v. All (λ d. d ≤ GREATEST_DEVIATION) v.deviations) }
    ensures small_costs { IfOk result (λ v. All (λ c. c ≤ GREATEST_COST) v.costs) }
    ensures small_totals { IfOk result (λ v. (v.totals.hard ≤ GREATEST_TOTAL) × (v.totals.soft ≤ GREATEST_TOTAL)) }
{
    let room = ResourceRoom::open(alloc, inst)?;
    evaluate_in(alloc, inst, &room, plain)
}

/// What a valid timetable of an instance costs, as `evaluate` says it, with what depends on the
/// instance alone, which was made before and is only read: so any number of threads may share it. It
/// takes the time and memory of `evaluate`, but for that.
pub fn evaluate_in(
    alloc: Global,
    inst: &Instance,
    room: &ResourceRoom,
    plain: &Plain,
) -> Result<Values, NoMemory>
    requires valid { IsValid inst.now plain.now }
    requires room { room.now ≡ room_for inst.now }
    ensures deviations { IfOk result (λ v. v.deviations ≡ evaluated.deviations inst.now plain.now) }
    ensures costs { IfOk result (λ v. v.costs ≡ evaluated.costs inst.now plain.now) }
    ensures totals { IfOk result (λ v. v.totals ≡ evaluated.totals inst.now plain.now) }
    ensures small_deviations { IfOk result (λ v. All (λ d. d ≤ GREATEST_DEVIATION) v.deviations) }
    ensures small_costs { IfOk result (λ v. All (λ c. c ≤ GREATEST_COST) v.costs) }
    ensures small_totals { IfOk result (λ v. (v.totals.hard ≤ GREATEST_TOTAL) × (v.totals.soft ≤ GREATEST_TOTAL)) }
{
    let deviations = deviations_of(alloc, inst, plain, room)?;
    valued(alloc, inst, plain, deviations)
}

/// The values of a timetable by its deviations.
fn valued(
    alloc: Global,
    inst: &Instance,
    plain: &Plain,
    deviations: Seq<u64>,
) -> Result<Values, NoMemory>
    requires state { IsValid inst.now plain.now }
    requires deviations { deviations ≡ evaluated.deviations inst.now plain.now }
    requires small { All (λ d. d ≤ GREATEST_DEVIATION) deviations }
    ensures deviations { IfOk result (λ v. v.deviations ≡ deviations) }
    ensures costs { IfOk result (λ v. v.costs ≡ evaluated.costs inst.now plain.now) }
    ensures totals { IfOk result (λ v. v.totals ≡ evaluated.totals inst.now plain.now) }
    ensures small_costs { IfOk result (λ v. All (λ c. c ≤ GREATEST_COST) v.costs) }
    ensures small_totals { IfOk result (λ v. (v.totals.hard ≤ GREATEST_TOTAL) × (v.totals.soft ≤ GREATEST_TOTAL)) }
{
    let measured = deviations.as_slice();
    let costs = costs_of(alloc, inst, plain, measured)?;
    let paid = costs.as_slice();
    let totals = totals_of(inst, paid);
    Ok(Values {
        deviations,
        costs,
        totals,
    })
}

// Workers share the room of an instance, and what a timetable costs: the types show it, and no
// program calls this.
#[allow(dead_code)]
fn evaluations_are_shared(room: &ResourceRoom, values: &Values) {
    lends_to_threads(room);
    lends_to_threads(values);
}
