//! Why bytes are not read as a tree, with the place and the kind of each fault.

ghost use Rattle.std.specs.Prelude.{◌≡◌};
ghost use Rattle.xhstt_text.specs.Faults as spec;

use fault_tables::{BAD_MARKUP, BAD_REFERENCE, MISMATCHED_END, TOO_DEEP, UNSUPPORTED};
use khe_base::NoMemory;
use std::alloc::AllocFailed;
use thiserror::Error;

/// Why bytes are not read as a tree of elements.
#[derive(Clone, Copy, Debug, PartialEq, Eq, Error)]
pub enum TextFault {
    /// The first place, counted in bytes from 0, where the bytes leave the form of a text, and the kind
    /// of that fault, one of `NOT_UTF8`, `BAD_MARKUP`, `MISMATCHED_END`, `BAD_REFERENCE`, `UNSUPPORTED`
    /// and `TOO_DEEP`.
    #[error("a fault of kind {kind} at {at}")]
    Bad { kind: u32, at: u64 },
    /// Memory was refused.
    #[error("out of memory")]
    NoMemory,
}

/// The byte at a place cannot stand there, or the bytes end there too early.
pub(crate) fn bad_markup(at: u32) -> TextFault
    ensures { result ≡ spec.bad_markup at }
{
    TextFault::Bad {
        kind: BAD_MARKUP,
        at: u64::from(at),
    }
}

/// The end tag at a place has another name than the innermost open element.
pub(crate) fn mismatched_end(at: u32) -> TextFault
    ensures { result ≡ spec.mismatched_end at }
{
    TextFault::Bad {
        kind: MISMATCHED_END,
        at: u64::from(at),
    }
}

/// The element at a place stands inside as many open elements as may be open at once.
pub(crate) fn too_deep(at: u32) -> TextFault
    ensures { result ≡ spec.too_deep at }
{
    TextFault::Bad {
        kind: TOO_DEEP,
        at: u64::from(at),
    }
}

/// Markup that is not read begins at a place.
pub(crate) fn unsupported(at: u32) -> TextFault
    ensures { result ≡ spec.unsupported at }
{
    TextFault::Bad {
        kind: UNSUPPORTED,
        at: u64::from(at),
    }
}

/// No reference begins at a place.
pub(crate) fn bad_reference(at: u32) -> TextFault
    ensures { result ≡ spec.bad_reference at }
{
    TextFault::Bad {
        kind: BAD_REFERENCE,
        at: u64::from(at),
    }
}

impl From<NoMemory> for TextFault {
    ghost use Rattle.std.specs.Prelude.{◌≡◌};
    ghost use Rattle.xhstt_text.specs.declared.faults.TextFault.TheVariants.{NoMemory as OutOfMemory};

    ghost from_gives = { λ _ e. e ≡ OutOfMemory };

    fn from(_error: NoMemory) -> TextFault {
        TextFault::NoMemory
    }
}

impl<T: Drop> From<AllocFailed<T>> for TextFault {
    ghost use Rattle.std.specs.Prelude.{◌≡◌};
    ghost use Rattle.xhstt_text.specs.declared.faults.TextFault.TheVariants.{NoMemory as OutOfMemory};

    ghost from_gives = { λ _ e. e ≡ OutOfMemory };

    fn from(_error: AllocFailed<T>) -> TextFault {
        TextFault::NoMemory
    }
}
