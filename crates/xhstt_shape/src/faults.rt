//! Why a tree is not that of an archive.

ghost use Rattle.std.specs.Prelude.{◌≡◌};
ghost use Rattle.xhstt_shape.specs.Faults as spec;

use khe_base::NoMemory;
use thiserror::Error;

/// Why a tree is not the tree of an archive.
#[derive(Clone, Copy, Debug, PartialEq, Eq, Error)]
pub enum ShapeFault {
    /// The first place where the tree leaves the table of elements, and the kind of that fault, one
    /// of `UNKNOWN_ELEMENT`, `MISSING_CHILD`, `REPEATED_CHILD`, `BAD_NUMBER` and `BAD_WORD`.
    #[error("a fault of kind {kind} at {at}")]
    Bad { kind: u32, at: u64 },
    /// Memory was refused.
    #[error("out of memory")]
    NoMemory,
}

impl From<NoMemory> for ShapeFault {
    ghost use Rattle.std.specs.Prelude.{◌≡◌};
    ghost use Rattle.xhstt_shape.specs.declared.faults.ShapeFault.TheVariants.{NoMemory as OutOfMemory};

    ghost from_gives = { λ _ e. e ≡ OutOfMemory };

    fn from(_error: NoMemory) -> ShapeFault {
        ShapeFault::NoMemory
    }
}

/// A fault of a kind at a place, unless something holds.
pub(crate) fn unless(holds: bool, kind: u32, at: u64) -> Result<(), ShapeFault>
    ensures { result ≡ spec.unless holds (spec.bad kind at) }
{
    if holds {
        Ok(())
    } else {
        Err(ShapeFault::Bad { kind, at })
    }
}
