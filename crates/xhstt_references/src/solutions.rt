//! The instance of each solution and what its entries name, or the first reference of a solution that
//! names nothing.

ghost use Rattle.std.specs.Prelude.{◌≡◌, ◌<◌, ◌^◌, ◌++◌, ◌∷◌, [], Some, map, length, IfOk, OnOk};
ghost use Rattle.std.specs.List.{filter_map, flat_map};
ghost use Rattle.std.specs.Option.{option_to_list};
ghost use Rattle.khe_base.specs.Names.{number_of};
ghost use Rattle.xhstt_references.specs.Directories.{named_by, part_names};
ghost use Rattle.xhstt_references.specs.Faults.{IsTold, fault_of_solutions};
ghost use Rattle.xhstt_references.specs.First.{first_of};
ghost use Rattle.xhstt_references.specs.Followed.{followed_in, followed_of};
ghost use Rattle.xhstt_references.specs.Ids.{instance_ids};
ghost use Rattle.xhstt_references.specs.References as spec;

use crate::faults::ReferenceFault;
use crate::first::First;
use crate::following::{Followed, follow, nothing};
use crate::names::Names;
use crate::part_names::InstanceNames;
use fault_tables::UNKNOWN_REFERENCE;
use khe_base::{NoMemory, Seq};
use std::alloc::Global;
use xhstt_shape::{Archive, RawSolution, SolutionGroup};

/// The number of each solution's instance, and what the entries of each solution name, group by group.
#[derive(Drop)]
pub struct SolutionNumbers {
    pub instances: Seq<u32>,
    pub followed: Seq<Followed>,
}

/// The number of each solution's instance and what its entries name, group by group, or the first
/// reference of a solution that names nothing: to an instance, or to an event, a time or a resource of
/// its instance.
///
/// `instances` are the names of the archive's instances, and `made` the names of each instance's times,
/// resources and events. The fault is of the kind `UNKNOWN_REFERENCE`. Memory is taken in proportion to
/// the solutions' entries and the resources that they give, and where it is refused, `NoMemory` comes.
/// The time is linear in the text of the solutions on average, since each reference is looked up by its
/// hash, once.
pub fn instances_of_solutions(
    alloc: Global,
    archive: &Archive,
    instances: &Names,
    made: &[InstanceNames],
) -> Result<SolutionNumbers, ReferenceFault>
    requires few { length archive.now.instances < 2 ^ 32 }
    requires instances { instances.now ≡ instance_ids archive.now }
    requires made { made.now ≡ map part_names archive.now.instances }
    ensures numbers { IfOk result (λ r. map Some r.instances ≡ map (λ s. number_of s.reference.id (instance_ids archive.now)) (spec.solutions_of archive.now)) }
    ensures followed { IfOk result (λ r. r.followed ≡ followed_of archive.now) }
    ensures told { IsTold result (fault_of_solutions archive.now) }
{
    let mut first = First::new();
    let mut numbers = Seq::new(alloc);
    let mut followed = Seq::new(alloc);
    for group in archive.solution_groups.as_slice() {
        let solutions = group.solutions.as_slice();
        add_solutions(
            alloc,
            instances,
            made,
            solutions,
            &mut numbers,
            &mut followed,
            &mut first,
        )?;
    }
    first.fault(UNKNOWN_REFERENCE)?;
    Ok(SolutionNumbers {
        instances: numbers,
        followed,
    })
}

/// Adds the numbers of the instances that some solutions name, where there are such instances, and what the
/// solutions' entries name, and notes the places of the solutions' references that name nothing.
fn add_solutions(
    alloc: Global,
    instances: &Names,
    made: &[InstanceNames],
    solutions: &[RawSolution],
    numbers: &mut Seq<u32>,
    followed: &mut Seq<Followed>,
    first: &mut First,
) -> Result<(), NoMemory>
    requires few { length instances.now < 2 ^ 32 }
    requires same { length made.now ≡ length instances.now }
    ensures numbers { OnOk result (numbers.new ≡ numbers.old ++ filter_map (λ s. number_of s.reference.id instances.now) solutions.now) }
    ensures followed { OnOk result (followed.new ≡ followed.old ++ map (followed_in made.now instances.now) solutions.now) }
    ensures first { OnOk result (first.new.at ≡ first_of first.old.at (flat_map (spec.unknown_in_solution instances.now (map named_by made.now)) solutions.now)) }
{
    for solution in solutions {
        add_solution(alloc, instances, made, solution, numbers, followed, first)?;
    }
    Ok(())
}

/// Adds the number of a solution's instance, if its name is among these, and what its entries name
/// there, and notes the places of the solution's references that name nothing.
fn add_solution(
    alloc: Global,
    instances: &Names,
    made: &[InstanceNames],
    solution: &RawSolution,
    numbers: &mut Seq<u32>,
    followed: &mut Seq<Followed>,
    first: &mut First,
) -> Result<(), NoMemory>
    requires few { length instances.now < 2 ^ 32 }
    requires same { length made.now ≡ length instances.now }
    ensures number { OnOk result (numbers.new ≡ numbers.old ++ option_to_list (number_of solution.now.reference.id instances.now)) }
    ensures followed { OnOk result (followed.new ≡ followed.old ++ followed_in made.now instances.now solution.now ∷ []) }
    ensures first { OnOk result (first.new.at ≡ first_of first.old.at (spec.unknown_in_solution instances.now (map named_by made.now) solution.now)) }
{
    match instances.number(&solution.reference.id) {
        Some(number) => {
            numbers.push(number as u32)?;
            let entries = follow(alloc, &made[number], &solution.events, first)?;
            followed.push(entries)
        }
        None => {
            first.note(solution.reference.at);
            followed.push(nothing(alloc))
        }
    }
}
