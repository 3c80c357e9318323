//! A timetable in place of a solution of an archive.

ghost use Rattle.std.specs.Prelude.{◌≡◌, ◌<◌, None, Some, MatchOption, OnOk, length, slice_get, slice_set};
ghost use Rattle.std.specs.List.{flat_map};
ghost use Rattle.khe_instance.specs.States.{IsTold};
ghost use Rattle.repair_run.specs.Placed.{IsSpot, group_with, respelled};
ghost use Rattle.xhstt_shape.specs.declared.records.SolutionGroup.{SolutionGroup as Group};

use khe_base::{NoMemory, Seq};
use khe_instance::{Instance, Plain};
use std::alloc::Global;
use xhstt_entries::spell;
use xhstt_shape::{Archive, RawSolution, SolutionGroup};

/// Where a solution stands in an archive.
#[derive(Clone, Copy)]
pub struct Spot {
    /// The number of its group.
    pub group: usize,
    /// Its place in the group.
    pub place: usize,
}

/// Puts the entries of a timetable in place of those of the solution with this number over all groups of
/// an archive. Where the archive has no such solution it stays as it was.
///
/// It fails only where memory is refused, after which the archive is as it was. It takes time and memory in
/// proportion to the timetable and its Ids, and besides time in proportion to the groups.
pub fn respell(
    alloc: Global,
    archive: &mut Archive,
    number: u32,
    inst: &Instance,
    plain: &Plain,
) -> Result<(), NoMemory>
    requires { IsTold inst.now plain.now.meets plain.now.tasks }
    ensures { OnOk result (archive.new ≡ respelled archive.old number inst.now plain.now) }
{
    let Some(spot) = spot_of(archive.solution_groups.as_slice(), number) else {
        return Ok(());
    };
    let old = solution_at(archive.solution_groups.as_slice(), spot);
    let raw = spell(alloc, inst, plain, old)?;
    put(&mut archive.solution_groups, spot, raw);
    Ok(())
}

/// Where the solution with this number stands, if there is one.
fn spot_of(groups: &[SolutionGroup], number: u32) -> Option<Spot>
    ensures { MatchOption result (slice_get (flat_map (λ g. g.solutions) groups.now) number ≡ None) (IsSpot groups.now number) }
{
    let mut left = number as usize;
    for (group, found) in groups.iter().enumerate() {
        let solutions = found.solutions.len();
        if left < solutions {
            return Some(Spot { group, place: left });
        }
        left -= solutions;
    }
    None
}

/// The solution at a spot.
fn solution_at(groups: &[SolutionGroup], spot: Spot) -> &RawSolution
    requires group { spot.group < length groups.now }
    requires place { (g : Group) → slice_get groups.now spot.group ≡ Some g → spot.place < length g.solutions }
    ensures { (g : Group) → slice_get groups.now spot.group ≡ Some g → slice_get g.solutions spot.place ≡ Some result.now }
{
    let group = &groups[spot.group];
    &group.solutions.as_slice()[spot.place]
}

/// Puts a solution in place of the one at a spot.
fn put(groups: &mut Seq<SolutionGroup>, spot: Spot, raw: RawSolution)
    requires group { spot.group < length groups.old }
    requires place { (g : Group) → slice_get groups.old spot.group ≡ Some g → spot.place < length g.solutions }
    ensures { (g : Group) → slice_get groups.old spot.group ≡ Some g → groups.new ≡ slice_set groups.old spot.group (group_with raw spot.place g) }
{
    let group = &mut groups.items[spot.group];
    put_in(group, spot.place, raw);
}

/// Puts a solution in place of the one at a place of a group.
fn put_in(group: &mut SolutionGroup, place: usize, raw: RawSolution)
    requires { place < length group.old.solutions }
    ensures { group.new ≡ group_with raw place group.old }
{
    group.solutions.items[place] = raw;
}
