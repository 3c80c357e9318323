//! Why there is no state for a solution.

use khe_base::NoMemory;
use thiserror::Error;

/// A cause, and the number of the entry at which it stands.
#[derive(Clone, Copy)]
pub struct Cause {
    pub cause: u32,
    pub entry: u32,
}

/// Why there is no state for a solution.
#[derive(Clone, Copy, Debug, Error)]
pub enum SolutionFault {
    /// The solution is invalid: its first entry that has a cause, and the first cause of that
    /// entry, one of `TOO_LONG` to `WRONG_TYPE`. Entries are numbered from 0.
    #[error("entry {entry} is invalid by cause {cause}")]
    Invalid { cause: u32, entry: u32 },
    /// Memory was refused.
    #[error("out of memory")]
    NoMemory,
}

impl From<NoMemory> for SolutionFault {
    ghost use Rattle.std.specs.Prelude.{◌≡◌};
    ghost use Rattle.xhstt_completion.specs.declared.faults.SolutionFault.TheVariants.{NoMemory as OutOfMemory};

    ghost from_gives = { λ _ e. e ≡ OutOfMemory };

    fn from(_error: NoMemory) -> SolutionFault {
        SolutionFault::NoMemory
    }
}
