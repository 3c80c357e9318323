//! Instances and states of them, read from texts.

ghost use Rattle.std.specs.Prelude.{◌≡◌, ◌<◌, ◌^◌, IfSome, Ok, Some, length};
ghost use Rattle.khe_instance.specs.States.{IsValid};
ghost use Rattle.xhstt_completion.specs.Numbered.{parts_at};
ghost use Rattle.xhstt_resolve.specs.Resolved as resolving;
ghost use Rattle.xhstt_shape.specs.WellFormed.{IsInForm};

use khe_instance::{Instance, Plain};
use std::alloc::Global;
use xhstt_completion::solution;
use xhstt_resolve::{Resolved, resolve};
use xhstt_shape::Archive;
use xhstt_shape::reading::archive;
use xhstt_text::elements;

/// An archive with its instances.
#[derive(Drop)]
pub(crate) struct Worked {
    pub archive: Archive,
    pub resolved: Resolved,
}

/// The archive that a text spells, if it has no fault.
fn archive_of(alloc: Global, text: &str) -> Option<Archive>
    ensures formed { IfSome result IsInForm }
    ensures few { IfSome result (λ a. length a.instances < 2 ^ 32) }
{
    let bytes = text.as_bytes();
    if bytes.len() > 1_000_000 {
        return None;
    }
    let Ok(tree) = elements(alloc, bytes) else {
        return None;
    };
    let Ok(found) = archive(alloc, &tree) else {
        return None;
    };
    if found.instances.len() > 1 {
        return None;
    }
    Some(found)
}

/// The archive that a text spells with its instances, if it has no fault.
pub(crate) fn read(alloc: Global, text: &str) -> Option<Worked>
    ensures formed { IfSome result (λ w. IsInForm w.archive) }
    ensures resolved { IfSome result (λ w. resolving.resolved w.archive ≡ Ok w.resolved) }
{
    let archive = archive_of(alloc, text)?;
    let Ok(resolved) = resolve(alloc, &archive) else {
        return None;
    };
    Some(Worked { archive, resolved })
}

/// The instance of the solution with this number, counted from 0 over all groups, if there is one.
pub(crate) fn instance_of(resolved: &Resolved, number: u32) -> Option<&Instance>
    ensures { IfSome result (λ inst. parts_at resolved.now number ≡ Some inst.now) }
{
    let instance = resolved.of.as_slice().get(number as usize)?;
    resolved.instances.as_slice().get(*instance as usize)
}

/// The state that the solution with this number says, completed, if no entry is invalid.
pub(crate) fn state_of(
    alloc: Global,
    worked: &Worked,
    inst: &Instance,
    number: u32,
) -> Option<Plain>
    requires formed { IsInForm worked.now.archive }
    requires resolved { resolving.resolved worked.now.archive ≡ Ok worked.now.resolved }
    requires instance { parts_at worked.now.resolved number ≡ Some inst.now }
    ensures { IfSome result (IsValid inst.now) }
{
    let Ok(plain) = solution(alloc, inst, &worked.archive, &worked.resolved, number) else {
        return None;
    };
    Some(plain)
}
