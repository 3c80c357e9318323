//! From the bytes of an archive to what its solutions cost.

ghost use Rattle.std.specs.Prelude.{◌≡◌, ◌<◌, ◌^◌, None, Some, Ok, IfOk, IfErr, MatchOption, length};
ghost use Rattle.calling_examples.specs.Reading.{AreTotalsOf, IsArchiveOf, IsToldOf};
ghost use Rattle.xhstt_completion.specs.Numbered.{parts_at};
ghost use Rattle.xhstt_resolve.specs.Resolved.{resolved};
ghost use Rattle.xhstt_shape.specs.WellFormed.{IsInForm};

use crate::ReadFault;
use khe_base::Totals;
use khe_instance::Instance;
use plain_eval::evaluate;
use std::alloc::Global;
use xhstt_completion::solution;
use xhstt_resolve::{Resolved, resolve};
use xhstt_shape::Archive;
use xhstt_shape::reading::archive;
use xhstt_text::elements;

/// The most instances that can be numbered.
const MOST_INSTANCES: usize = u32::MAX as usize;

/// An archive with its instances.
#[derive(Drop)]
pub struct ReadArchive {
    pub archive: Archive,
    pub resolved: Resolved,
}

/// The archive that these bytes spell, with its instances; or why there is none. Where the bytes leave the form of a
/// text, it is told where they do so first. It takes time about linear in the bytes, and memory for the tree of the
/// text, which is dropped in the end, and for the archive.
pub fn read(alloc: Global, bytes: &[u8]) -> Result<ReadArchive, ReadFault>
    requires { length bytes.now < 2 ^ 32 }
    ensures archive { IfOk result (λ r. IsArchiveOf bytes.now r.archive) }
    ensures in_form { IfOk result (λ r. IsInForm r.archive) }
    ensures resolved { IfOk result (λ r. resolved r.archive ≡ Ok r.resolved) }
    ensures fault { IfErr result (IsToldOf bytes.now) }
{
    let archive = archive_of(alloc, bytes)?;
    match resolve(alloc, &archive) {
        Ok(resolved) => Ok(ReadArchive { archive, resolved }),
        Err(fault) => Err(ReadFault::Resolve(fault)),
    }
}

/// The archive that these bytes spell. The call that follows asks for fewer than 2^32 instances: no text of so few
/// bytes has more, and a caller that doesn't prove it can look.
fn archive_of(alloc: Global, bytes: &[u8]) -> Result<Archive, ReadFault>
    requires { length bytes.now < 2 ^ 32 }
    ensures archive { IfOk result (IsArchiveOf bytes.now) }
    ensures in_form { IfOk result IsInForm }
    ensures few { IfOk result (λ a. length a.instances < 2 ^ 32) }
    ensures fault { IfErr result (IsToldOf bytes.now) }
{
    let tree = elements(alloc, bytes)?;
    let archive = archive(alloc, &tree)?;
    if archive.instances.len() > MOST_INSTANCES {
        return Err(ReadFault::TooManyInstances);
    }
    Ok(archive)
}

/// What a solution of an archive costs, which is numbered from 0 over all groups: what it completes to, added up by
/// the definitions.
pub fn totals_of(alloc: Global, read: &ReadArchive, number: u32) -> Result<Totals, ReadFault>
    requires in_form { IsInForm read.now.archive }
    requires resolved { resolved read.now.archive ≡ Ok read.now.resolved }
    ensures { IfOk result (AreTotalsOf read.now.archive read.now.resolved number) }
{
    let Some(inst) = instance_of(&read.resolved, number) else {
        return Err(ReadFault::NoSuchSolution);
    };
    let plain = solution(alloc, inst, &read.archive, &read.resolved, number)?;
    let values = evaluate(alloc, inst, &plain)?;
    Ok(values.totals)
}

/// The instance of the solution with this number; `None` where there is no such solution.
fn instance_of(resolved: &Resolved, number: u32) -> Option<&Instance>
    ensures { MatchOption result (parts_at resolved.now number ≡ None) (λ i. parts_at resolved.now number ≡ Some i.now) }
{
    let instance = *resolved.of.as_slice().get(number as usize)?;
    resolved.instances.as_slice().get(instance as usize)
}
