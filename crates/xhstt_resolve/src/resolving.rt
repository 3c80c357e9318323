//! All instances of an archive, or its first fault.

ghost use Rattle.std.specs.Prelude.{◌≡◌, ◌<◌, ◌≤◌, ◌∷◌, [], ◌^◌, All, None, true, Ok, length, map, IfOk, IfErr, OnOk, ◌++◌};
ghost use Rattle.std.specs.Option.{option_map};
ghost use Rattle.xhstt_references.specs.Directories.{AreFew, IsDirectoryOf, names_in, part_names};
ghost use Rattle.xhstt_references.specs.Faults.{fault_of_ids, fault_of_instance, fault_of_solutions};
ghost use Rattle.xhstt_references.specs.Followed.{followed_of};
ghost use Rattle.xhstt_references.specs.Ids.{instance_ids};
ghost use Rattle.xhstt_references.specs.References as references;
ghost use Rattle.xhstt_resolve.specs.Answers.{IsFirst, IsFaultOf};
ghost use Rattle.xhstt_resolve.specs.Limits.{above, earliest, limit_fault};
ghost use Rattle.xhstt_resolve.specs.Parts.{parts_of};
ghost use Rattle.xhstt_resolve.specs.Resolved as spec;
ghost use Rattle.xhstt_resolve.specs.Tables.{HasKeptCounts};
ghost use Rattle.fault_tables.specs.declared.limits.TheConstants.{TOO_MANY_SOLUTIONS};
ghost use Rattle.xhstt_shape.specs.WellFormed.{IsInForm, IsInstance};

use crate::faults::ResolveFault;
use crate::instances::{instance_of, within};
use fault_tables::TOO_MANY_SOLUTIONS;
use khe_base::{NoMemory, Seq, both, lends_to_threads};
use khe_instance::Instance;
use std::alloc::Global;
use xhstt_references::{
    Directory, Followed, InstanceNames, Names, SolutionNumbers, directory, instance_names,
    instances_of_solutions,
};
use xhstt_shape::{Archive, RawInstance};

/// The instances of an archive, and for each of its solutions, group by group, the number of its
/// instance and what its entries name there.
#[derive(Drop)]
pub struct Resolved {
    pub instances: Seq<Instance>,
    pub of: Seq<u32>,
    pub followed: Seq<Followed>,
}

/// Instances, and the names that solutions use of each of them, where there are solutions.
#[derive(Drop)]
struct Made {
    instances: Seq<Instance>,
    names: Seq<InstanceNames>,
}

/// The instances of an archive, and of each solution the instance and what the entries name there, or the
/// archive's first fault.
///
/// A constraint is expanded into its points, and each point becomes a monitor at its first mention: the members
/// of listed groups, group by group in the order of the archive, and then the points that are listed singly.
/// The faults are looked for in this order: Ids of instances and then of solution groups that came before; of
/// each instance in turn, its Ids, its references, its roles, events that would go on beyond the last time, and
/// the limits in the order of their numbers; the number of solutions; and references of the solutions. Of one
/// kind it is the first in the text.
///
/// The archive is in form, as each one is that is read from a text. Memory is taken for the instances and for
/// the numbers that the solutions' references lead to, and where it is refused, `NoMemory` comes. The time is
/// about linear in the archive with its groups expanded, on average, and in the sets of the instances.
///
/// The sources are the pages of the XHSTT format; the limits and the order are this project's.
pub fn resolve(alloc: Global, archive: &Archive) -> Result<Resolved, ResolveFault>
    requires formed { IsInForm archive.now }
    requires few { length archive.now.instances < 2 ^ 32 }
    ensures exact { IfOk result (λ r. spec.resolved archive.now ≡ Ok r) }
    ensures fault { IfErr result (IsFaultOf (spec.resolved archive.now)) }
{
    let names = instance_names(alloc, archive)?;
    let names = needed(alloc, archive, names);
    let made = resolved_by(alloc, archive, &names);
    drop(names);
    made
}

/// The instances of an archive whose Ids come once, and each solution's instance, which is looked up by
/// these names, with what its entries name there; or the archive's first fault.
fn resolved_by(alloc: Global, archive: &Archive, names: &Names) -> Result<Resolved, ResolveFault>
    requires formed { IsInForm archive.now }
    requires ids { fault_of_ids archive.now ≡ None }
    requires few { length archive.now.instances < 2 ^ 32 }
    requires names { 0 < length (references.solutions_of archive.now) → names.now ≡ instance_ids archive.now }
    ensures exact { IfOk result (λ r. spec.resolved archive.now ≡ Ok r) }
    ensures fault { IfErr result (IsFaultOf (spec.resolved archive.now)) }
{
    let solved = solution_count(archive) > 0;
    let made = made_instances(alloc, archive.instances.as_slice(), solved)?;
    let Made {
        instances,
        names: parts,
    } = made;
    let numbers = solution_numbers(alloc, archive, names, parts.as_slice());
    drop(parts);
    let SolutionNumbers {
        instances: of,
        followed,
    } = numbers?;
    Ok(Resolved {
        instances,
        of,
        followed,
    })
}

/// The Ids of an archive's instances, or none where it has no solution that would be looked up in them:
/// then their memory is free for the instances.
fn needed(alloc: Global, archive: &Archive, names: Names) -> Names
    requires { names ≡ instance_ids archive.now }
    ensures { 0 < length (references.solutions_of archive.now) → result ≡ instance_ids archive.now }
{
    if solution_count(archive) == 0 {
        return Names::new(alloc, 0);
    }
    names
}

/// Some instances in a list without room to spare, with the names that solutions use of them where there
/// are solutions; or the first fault of the first of them that has one.
fn made_instances(alloc: Global, raws: &[RawInstance], solved: bool) -> Result<Made, ResolveFault>
    requires { All IsInstance raws.now }
    ensures instances { IfOk result (λ made. made.instances ≡ map parts_of raws.now) }
    ensures names { IfOk result (λ made. solved ≡ true → made.names ≡ map part_names raws.now) }
    ensures sound { IfOk result (λ made. earliest (map spec.instance_fault raws.now) ≡ None) }
    ensures fault { IfErr result (IsFirst (earliest (map spec.instance_fault raws.now))) }
{
    let mut made = room_for(alloc, raws.len(), solved)?;
    for raw in raws {
        add_instance(alloc, raw, solved, &mut made)?;
    }
    Ok(made)
}

/// No instances, with room for the given number, and for their names where there are solutions.
fn room_for(alloc: Global, count: usize, solved: bool) -> Result<Made, NoMemory>
    ensures instances { IfOk result (λ made. made.instances ≡ []) }
    ensures names { IfOk result (λ made. made.names ≡ []) }
{
    let named = if solved { count } else { 0 };
    let (instances, names) = both(with_room(alloc, count), with_room(alloc, named))?;
    Ok(Made { instances, names })
}

/// An empty list with room for the given number of items.
fn with_room<T>(alloc: Global, count: usize) -> Result<Seq<T>, NoMemory>
    ensures { IfOk result (λ list. list ≡ []) }
{
    Ok(Seq {
        items: Vec::with_capacity(alloc, count)?,
    })
}

/// Adds one instance, and the names that solutions use of it where there are solutions; or tells its first
/// fault. The other names of its parts are kept no longer than this call.
fn add_instance(
    alloc: Global,
    raw: &RawInstance,
    solved: bool,
    made: &mut Made,
) -> Result<(), ResolveFault>
    requires { IsInstance raw.now }
    ensures instance { OnOk result (made.new.instances ≡ made.old.instances ++ parts_of raw.now ∷ []) }
    ensures names { OnOk result (solved ≡ true → made.new.names ≡ made.old.names ++ part_names raw.now ∷ []) }
    ensures sound { OnOk result (spec.instance_fault raw.now ≡ None) }
    ensures fault { IfErr result (IsFirst (spec.instance_fault raw.now)) }
{
    let directory = directory(alloc, raw)?;
    add_made(alloc, raw, &directory, &mut made.instances)?;
    if solved {
        keep_names(alloc, directory, &mut made.names)?;
    }
    Ok(())
}

/// Adds the instance with these names, or tells the first limit that it is above.
fn add_made(
    alloc: Global,
    raw: &RawInstance,
    directory: &Directory,
    instances: &mut Seq<Instance>,
) -> Result<(), ResolveFault>
    requires names { IsDirectoryOf raw.now directory.now }
    requires sound { fault_of_instance raw.now ≡ None }
    requires formed { IsInstance raw.now }
    ensures instance { OnOk result (instances.new ≡ instances.old ++ parts_of raw.now ∷ []) }
    ensures within { OnOk result (limit_fault raw.now ≡ None) }
    ensures kept { OnOk result (HasKeptCounts raw.now) }
    ensures fault { IfErr result (IsFirst (limit_fault raw.now)) }
{
    let instance = instance_of(alloc, raw, directory)?;
    instances.push(instance)?;
    Ok(())
}

/// Adds the names that solutions use of an instance.
fn keep_names(
    alloc: Global,
    directory: Directory,
    names: &mut Seq<InstanceNames>,
) -> Result<(), NoMemory>
    requires { AreFew (names_in directory) }
    ensures { OnOk result (names.new ≡ names.old ++ names_in directory ∷ []) }
{
    let kept = InstanceNames::new(alloc, directory)?;
    names.push(kept)
}

/// The instance of each solution and what its entries name there, or that there are too many solutions,
/// or their first reference that names nothing.
fn solution_numbers(
    alloc: Global,
    archive: &Archive,
    names: &Names,
    parts: &[InstanceNames],
) -> Result<SolutionNumbers, ResolveFault>
    requires few { length archive.now.instances < 2 ^ 32 }
    requires names { 0 < length (references.solutions_of archive.now) → names.now ≡ instance_ids archive.now }
    requires parts { 0 < length (references.solutions_of archive.now) → parts.now ≡ map part_names archive.now.instances }
    ensures of { IfOk result (λ r. r.instances ≡ spec.instances_of archive.now) }
    ensures followed { IfOk result (λ r. r.followed ≡ followed_of archive.now) }
    ensures sound { IfOk result (λ r. spec.solutions_fault archive.now ≡ None) }
    ensures fault { IfErr result (IsFirst (spec.solutions_fault archive.now)) }
{
    let count = solution_count(archive);
    within(TOO_MANY_SOLUTIONS, count)?;
    if count == 0 {
        return Ok(SolutionNumbers {
            instances: Seq::new(alloc),
            followed: Seq::new(alloc),
        });
    }
    Ok(instances_of_solutions(alloc, archive, names, parts)?)
}

/// How many solutions an archive has.
fn solution_count(archive: &Archive) -> u128
    ensures { result ≡ length (references.solutions_of archive.now) }
{
    let mut count = 0u128;
    for group in archive.solution_groups.as_slice() {
        count += group.solutions.len() as u128;
    }
    count
}

// Workers share the instances of an archive: the types show it, and no program calls this.
#[allow(dead_code)]
fn resolved_is_shared(resolved: &Resolved) {
    lends_to_threads(resolved);
}
