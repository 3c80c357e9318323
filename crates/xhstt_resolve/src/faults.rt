//! Why an archive has no instances.

use khe_base::NoMemory;
use thiserror::Error;
use xhstt_references::ReferenceFault;

/// Why an archive has no instances.
#[derive(Clone, Copy, Debug, Error)]
pub enum ResolveFault {
    /// A fault of names and references: of this kind, at this byte of the text.
    #[error("fault of kind {kind} at byte {at}")]
    Bad { kind: u32, at: u64 },
    /// A count above the limit with this number, from `TOO_MANY_TIMES` to `TOO_MANY_SOLUTIONS`.
    #[error("{value} is above limit {which}")]
    Limit { which: u32, value: u128 },
    /// Memory was refused.
    #[error("out of memory")]
    NoMemory,
}

impl From<NoMemory> for ResolveFault {
    ghost use Rattle.std.specs.Prelude.{◌≡◌};
    ghost use Rattle.xhstt_resolve.specs.declared.faults.ResolveFault.TheVariants.{NoMemory as OutOfMemory};

    ghost from_gives = { λ _ e. e ≡ OutOfMemory };

    fn from(_error: NoMemory) -> ResolveFault {
        ResolveFault::NoMemory
    }
}

impl From<ReferenceFault> for ResolveFault {
    ghost use Rattle.std.specs.Prelude.{◌≡◌};
    ghost use Rattle.xhstt_resolve.specs.Faults.{as_fault};

    ghost from_gives = { λ fault e. e ≡ as_fault fault };

    fn from(fault: ReferenceFault) -> ResolveFault {
        match fault {
            ReferenceFault::Bad { kind, at } => ResolveFault::Bad { kind, at },
            ReferenceFault::NoMemory => ResolveFault::NoMemory,
        }
    }
}
