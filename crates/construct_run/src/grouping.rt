//! A timetable as the only solution of an archive.

ghost use Rattle.std.specs.Prelude.{◌≡◌, ◌∷◌, [], IfOk, OnOk, codes};
ghost use Rattle.construct_run.specs.Grouped as spec;
ghost use Rattle.khe_instance.specs.States.{IsTold};
ghost use Rattle.xhstt_entries.specs.Spelled.{spelled};

use khe_base::{NoMemory, Seq, Text};
use khe_instance::{Instance, Plain};
use std::alloc::Global;
use xhstt_entries::spell;
use xhstt_shape::{Archive, Entries, Name, RawSolution, Ref, SolutionGroup};

/// Puts one group with the Id `constructed` in place of all solution groups of an archive. Its only solution is the
/// timetable of the instance, without a description and a running time.
///
/// It fails only where memory is refused, after which the archive is as it was. It takes time and memory in
/// proportion to the timetable and its Ids, and the time to drop the old groups.
pub fn regroup(
    alloc: Global,
    archive: &mut Archive,
    inst: &Instance,
    plain: &Plain,
) -> Result<(), NoMemory>
    requires { IsTold inst.now plain.now.meets plain.now.tasks }
    ensures { OnOk result (archive.new ≡ spec.grouped archive.old inst.now plain.now) }
{
    archive.solution_groups = groups_of(alloc, inst, plain)?;
    Ok(())
}

/// The group with a timetable alone.
fn groups_of(alloc: Global, inst: &Instance, plain: &Plain) -> Result<Seq<SolutionGroup>, NoMemory>
    requires { IsTold inst.now plain.now.meets plain.now.tasks }
    ensures { IfOk result (λ gs. gs ≡ spec.group_of inst.now plain.now ∷ []) }
{
    let mut groups = Seq::new(alloc);
    groups.push(group_of(alloc, inst, plain)?)?;
    Ok(groups)
}

/// The group with a timetable.
fn group_of(alloc: Global, inst: &Instance, plain: &Plain) -> Result<SolutionGroup, NoMemory>
    requires { IsTold inst.now plain.now.meets plain.now.tasks }
    ensures { IfOk result (λ g. g ≡ spec.group_of inst.now plain.now) }
{
    let mut solutions = Seq::new(alloc);
    solutions.push(solution_of(alloc, inst, plain)?)?;
    Ok(SolutionGroup {
        id: Name {
            text: id_of(alloc)?,
            at: 0,
        },
        meta_data: None,
        solutions,
    })
}

/// The Id of the group.
fn id_of(alloc: Global) -> Result<Text, NoMemory>
    ensures { IfOk result (λ t. t ≡ codes "constructed") }
{
    let mut text = Text::new(alloc);
    text.push_literal("constructed")?;
    Ok(text)
}

/// The timetable as a solution of its instance.
fn solution_of(alloc: Global, inst: &Instance, plain: &Plain) -> Result<RawSolution, NoMemory>
    requires { IsTold inst.now plain.now.meets plain.now.tasks }
    ensures { IfOk result (λ raw. raw ≡ spelled inst.now plain.now (spec.blank inst.now)) }
{
    let old = blank(alloc, inst)?;
    spell(alloc, inst, plain, &old)
}

/// A solution of an instance that says nothing.
fn blank(alloc: Global, inst: &Instance) -> Result<RawSolution, NoMemory>
    ensures { IfOk result (λ raw. raw ≡ spec.blank inst.now) }
{
    Ok(RawSolution {
        reference: Ref {
            id: inst.id().copy(alloc)?,
            at: 0,
        },
        description: None,
        running_time: None,
        events: Entries::new(alloc),
    })
}
