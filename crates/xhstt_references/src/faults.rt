//! Why the names of an archive lead nowhere.

use khe_base::NoMemory;
use std::alloc::AllocFailed;
use thiserror::Error;

/// Why the names of an archive lead nowhere.
#[derive(Clone, Copy, Debug, Error)]
pub enum ReferenceFault {
    /// A fault of this kind at this byte of the text.
    #[error("fault of kind {kind} at byte {at}")]
    Bad { kind: u32, at: u64 },
    /// Memory was refused.
    #[error("out of memory")]
    NoMemory,
}

impl From<NoMemory> for ReferenceFault {
    ghost use Rattle.std.specs.Prelude.{◌≡◌};
    ghost use Rattle.xhstt_references.specs.declared.faults.ReferenceFault.TheVariants.{NoMemory as OutOfMemory};

    ghost from_gives = { λ _ e. e ≡ OutOfMemory };

    fn from(_error: NoMemory) -> ReferenceFault {
        ReferenceFault::NoMemory
    }
}

impl<T: Drop> From<AllocFailed<T>> for ReferenceFault {
    ghost use Rattle.std.specs.Prelude.{◌≡◌};
    ghost use Rattle.xhstt_references.specs.declared.faults.ReferenceFault.TheVariants.{NoMemory as OutOfMemory};

    ghost from_gives = { λ _ e. e ≡ OutOfMemory };

    fn from(_error: AllocFailed<T>) -> ReferenceFault {
        ReferenceFault::NoMemory
    }
}
