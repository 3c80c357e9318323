//! A handle: what C holds of a session.

ghost use Rattle.std.specs.Prelude.{◌≡◌, true, false, Some, None, Option, MatchOption};
ghost use Rattle.khe_c.specs.Kept.{Kept};

use crate::held::Held;
use loose::Loose;
use std::alloc::Global;
use std::marker::Model;

/// What C holds: nothing while it is closed, and else what stands behind the pointer.
#[repr(C)]
#[derive(Drop)]
pub struct SessionHandle {
    at: *mut u8,
    pub is_open: bool,
    pub ghost value: { Option Kept },
}

impl Model for SessionHandle {
    ghost use Rattle.std.specs.Prelude.{Option};
    ghost use Rattle.khe_c.specs.Kept.{Kept};
    ghost use Rattle.khe_c.specs.Holding.{holds};

    ghost also_owns = { λ h. holds h.is_open h.at h.value };
}

/// The open handle that holds this.
pub(crate) fn handle_of(held: Box<Held>) -> SessionHandle
    ensures open { result.is_open ≡ true }
    ensures value { result.value ≡ Some held.value }
{
    sealed(Loose::of(held))
}

/// What a handle holds, if it is open.
pub(crate) fn held_by(handle: SessionHandle, alloc: Global) -> Option<Box<Held>>
    ensures { MatchOption result (handle.is_open ≡ false) (λ b. (handle.is_open ≡ true) × (handle.value ≡ Some b.value)) }
{
    match unsealed(handle, alloc) {
        Some(loose) => Some(loose.into_box()),
        None => None,
    }
}

/// The handle of a box that was taken apart.
fn sealed(loose: Loose<Held, Global>) -> SessionHandle
    ensures { (result.is_open ≡ true) × (result.value ≡ Some loose.value) }
{
    let Loose { at, alloc: _ } = loose;
    SessionHandle {
        at: at as *mut u8,
        is_open: true,
    }
}

/// The box, taken apart, of an open handle.
fn unsealed(handle: SessionHandle, alloc: Global) -> Option<Loose<Held, Global>>
    ensures { MatchOption result (handle.is_open ≡ false) (λ l. (handle.is_open ≡ true) × (handle.value ≡ Some l.value)) }
{
    let SessionHandle { at, is_open } = handle;
    if is_open {
        return Some(Loose {
            at: at as *mut Held,
            alloc,
        });
    }
    None
}

/// A closed handle.
pub(crate) fn closed() -> SessionHandle
    ensures { result.is_open ≡ false }
{
    SessionHandle {
        at: std::ptr::null_mut(),
        is_open: false,
    }
}
