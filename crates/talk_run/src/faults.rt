//! Why a talk ends before its lines do.

use khe_io::Cut;
use thiserror::Error;

/// Why a talk ended before its lines did.
#[derive(Clone, Copy, Debug, PartialEq, Eq, Error)]
pub enum TalkFault {
    /// A line could not be read.
    #[error("a line could not be read")]
    ReadFault,
    /// An answer could not be written.
    #[error("an answer could not be written")]
    WriteFault,
    /// Memory was refused.
    #[error("out of memory")]
    NoMemory,
}

impl From<Cut> for TalkFault {
    ghost use Rattle.std.specs.Prelude.{◌≡◌};
    ghost use Rattle.talk_run.specs.Faults.{of_cut};

    ghost from_gives = { λ cut fault. fault ≡ of_cut cut };

    fn from(cut: Cut) -> TalkFault {
        match cut {
            Cut::WriteFault => TalkFault::WriteFault,
            Cut::NoMemory => TalkFault::NoMemory,
        }
    }
}
