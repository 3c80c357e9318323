//! What an archive that was read begins with: one of its solutions, completed.

ghost use Rattle.std.specs.Prelude.{◌≡◌, ◌<◌, IfOk, IfErr, Some, length, slice_get, slice_index_or};
ghost use Rattle.archive_reading.specs.Ready.{IsReady};
ghost use Rattle.archive_reading.specs.Starting.{IsBarredBy, begins, start_of};
ghost use Rattle.khe_instance.specs.States.{IsValid};
ghost use Rattle.khe_instance.specs.declared.parts.Parts.{Parts};

use crate::reading::Unread;
use crate::refusals::Refusal;
use khe_instance::{Instance, Plain};
use std::alloc::Global;
use xhstt_completion::{SolutionFault, solution};
use xhstt_resolve::Resolved;
use xhstt_shape::Archive;

/// The number of the instance of the solution with this number over all groups, and its timetable, completed; or why
/// there is none, or that memory was refused. It takes what reading the solution takes, and changes nothing.
pub fn begin(
    alloc: Global,
    archive: &Archive,
    resolved: &Resolved,
    number: u32,
) -> Result<(usize, Plain), Unread>
    requires { IsReady archive.now resolved.now }
    ensures begun { IfOk result (λ b. (parts : Parts) × (slice_get resolved.now.instances b.0 ≡ Some parts) × IsValid parts b.1 × (start_of archive.now resolved.now number ≡ begins parts b.1)) }
    ensures barred { IfErr result (IsBarredBy (start_of archive.now resolved.now number)) }
{
    if resolved.of.len() <= number as usize {
        return Err(Unread::Refused(Refusal::NoSuchSolution));
    }
    let instance = instance_number(resolved, number);
    let inst = instance_numbered(resolved, instance);
    match solution(alloc, inst, archive, resolved, number) {
        Ok(plain) => Ok((instance, plain)),
        Err(SolutionFault::Invalid { cause, entry }) => {
            Err(Unread::Refused(Refusal::Invalid { cause, entry }))
        }
        Err(SolutionFault::NoMemory) => Err(Unread::NoMemory),
    }
}

/// The number of the instance of the solution with this number.
fn instance_number(resolved: &Resolved, number: u32) -> usize
    requires { number < length resolved.now.of }
    ensures { result ≡ slice_index_or resolved.now.of number 0 }
{
    resolved.of.as_slice()[number as usize] as usize
}

/// The instance with a number, in constant time.
pub fn instance_numbered(resolved: &Resolved, instance: usize) -> &Instance
    requires { instance < length resolved.now.instances }
    ensures { slice_get resolved.now.instances instance ≡ Some result.now }
{
    &resolved.instances.as_slice()[instance]
}
