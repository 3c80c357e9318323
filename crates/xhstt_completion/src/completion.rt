//! The state that a solution says, completed.

ghost use Rattle.std.specs.Prelude.{◌≡◌, [], length, ◌<◌, IfOk, IfErr, Ok, Some, slice_get};
ghost use Rattle.std.specs.Option.{option_copied};
ghost use Rattle.khe_instance.specs.States.{IsValid};
ghost use Rattle.xhstt_completion.specs.Completed.{completed, IsFaultOf};
ghost use Rattle.xhstt_completion.specs.Entries.{IsSolution};
ghost use Rattle.xhstt_references.specs.References.{solutions_of};
ghost use Rattle.xhstt_completion.specs.Found.{AreFound};
ghost use Rattle.xhstt_completion.specs.Numbered.{IsOne, parts_at};
ghost use Rattle.xhstt_resolve.specs.Resolved as resolving;
ghost use Rattle.xhstt_shape.specs.WellFormed.{IsInForm};
ghost use Rattle.xhstt_shape.specs.declared.records.RawSolution.{RawSolution};

use crate::SolutionFault;
use crate::checking::first_cause;
use crate::faults::Cause;
use crate::states::state_of;
use khe_base::Seq;
use khe_instance::{Instance, Plain};
use std::alloc::Global;
use xhstt_references::Followed;
use xhstt_resolve::Resolved;
use xhstt_shape::{Archive, EntryView, RawSolution};

/// The state that a solution with these entries says, by what they name.
fn completed_by(
    alloc: Global,
    inst: &Instance,
    _raw: &RawSolution,
    entries: &[EntryView<'_>],
    found: &Followed,
) -> Result<Plain, SolutionFault>
    requires solution { IsSolution inst.now _raw.now }
    requires entries { entries.now ≡ _raw.now.events }
    requires many { length found.now.named ≡ length entries.now }
    requires each { AreFound inst.now entries.now found.now.named found.now.given }
    ensures exact { IfOk result (λ plain. completed inst.now _raw.now ≡ Ok plain) }
    ensures invalid { IfErr result (IsFaultOf (completed inst.now _raw.now)) }
    ensures valid { IfOk result (IsValid inst.now) }
    ensures plain { IfOk result (λ plain. (plain.detached ≡ []) × (plain.groups ≡ [])) }
{
    if let Some(Cause { cause, entry }) = first_cause(alloc, inst, entries, found)? {
        return Err(SolutionFault::Invalid { cause, entry });
    }
    inst.facts();
    Ok(state_of(alloc, inst, entries, found)?)
}

/// The completed state of the solution of an archive with this number, counted from 0 over all
/// solution groups in order. The archive is in form, `resolved` is what `resolve` answers for it, and
/// the instance is the solution's: then the references of the solution name parts of the instance.
///
/// A solution is completed as KHE completes one that it reads: the entries of an event are its meets in
/// order, an entry without a duration lasts as long as its event, one without a time has the preassigned
/// time, and where the entries of an event fall short of its duration, one more meet has the rest. All
/// monitors are attached, and there are no groups.
///
/// `Invalid` where an entry cannot stand: the first such entry, with its first cause. Else
/// `NoMemory` where memory is refused.
///
/// It takes time and memory in proportion to the solution groups, the events, to what the entries give and
/// to the state (of an invalid solution, to the places of the events of its entries), on average, where
/// roles are of bounded length: one that is given is compared with those of all places of its event, or a
/// hash of each is taken. No Id is looked up.
pub fn solution(
    alloc: Global,
    inst: &Instance,
    archive: &Archive,
    resolved: &Resolved,
    number: u32,
) -> Result<Plain, SolutionFault>
    requires formed { IsInForm archive.now }
    requires resolved { resolving.resolved archive.now ≡ Ok resolved.now }
    requires there { number < length (solutions_of archive.now) }
    requires instance { parts_at resolved.now number ≡ Some inst.now }
    ensures exact { IfOk result (λ plain. (raw : RawSolution) → slice_get (solutions_of archive.now) number ≡ Some raw → completed inst.now raw ≡ Ok plain) }
    ensures invalid { IfErr result (λ fault. (raw : RawSolution) → slice_get (solutions_of archive.now) number ≡ Some raw → IsFaultOf (completed inst.now raw) fault) }
    ensures valid { IfOk result (IsValid inst.now) }
{
    let Some(raw) = solution_numbered(archive, number) else {
        unreachable!()
    };
    numbered_solution(alloc, inst, resolved, number, raw)
}

/// What `solution` answers, for a solution that is at hand: it is not looked for in its group, so a
/// worker that goes through many takes no time in proportion to the groups.
///
/// It takes the time and the memory of `solution`, less that time.
pub fn numbered_solution(
    alloc: Global,
    inst: &Instance,
    resolved: &Resolved,
    number: u32,
    raw: &RawSolution,
) -> Result<Plain, SolutionFault>
    requires one { IsOne resolved.now number raw.now }
    requires instance { parts_at resolved.now number ≡ Some inst.now }
    ensures exact { IfOk result (λ plain. completed inst.now raw.now ≡ Ok plain) }
    ensures invalid { IfErr result (IsFaultOf (completed inst.now raw.now)) }
    ensures valid { IfOk result (IsValid inst.now) }
{
    let list = raw.events.listed(alloc)?;
    let entries = list.as_slice();
    let followed = resolved.followed.as_slice();
    completed_by(alloc, inst, raw, entries, &followed[number as usize])
}

/// The solution of an archive with this number, if there is one. It takes time in proportion to the
/// solution groups.
fn solution_numbered(archive: &Archive, number: u32) -> Option<&RawSolution>
    ensures { option_copied result ≡ slice_get (solutions_of archive.now) number }
{
    let mut left = number as usize;
    let groups = archive.solution_groups.as_slice();
    for group in groups {
        let solutions = group.solutions.as_slice();
        if left < solutions.len() {
            return Some(&solutions[left]);
        }
        left -= solutions.len();
    }
    None
}
