//! Why nothing is read.

use khe_base::NoMemory;
use thiserror::Error;
use xhstt_completion::SolutionFault;
use xhstt_resolve::ResolveFault;
use xhstt_shape::ShapeFault;
use xhstt_text::TextFault;

/// Why an archive or one of its solutions gives no totals.
#[derive(Clone, Copy, Debug, Error)]
pub enum ReadFault {
    /// The bytes are no text of elements.
    #[error("{0}")]
    Text(TextFault),
    /// The elements are not those of an archive.
    #[error("{0}")]
    Shape(ShapeFault),
    /// There are more instances than numbers for them.
    #[error("too many instances")]
    TooManyInstances,
    /// The archive has a fault of names, references or limits.
    #[error("{0}")]
    Resolve(ResolveFault),
    /// The solution is invalid.
    #[error("{0}")]
    Solution(SolutionFault),
    /// There is no solution with this number.
    #[error("no such solution")]
    NoSuchSolution,
    /// Memory was refused.
    #[error("out of memory")]
    NoMemory,
}

impl From<TextFault> for ReadFault {
    ghost use Rattle.std.specs.Prelude.{◌≡◌};
    ghost use Rattle.calling_examples.specs.declared.faults.ReadFault.TheVariants.{Text};

    ghost from_gives = { λ fault read. read ≡ Text fault };

    fn from(fault: TextFault) -> ReadFault {
        ReadFault::Text(fault)
    }
}

impl From<ShapeFault> for ReadFault {
    ghost use Rattle.std.specs.Prelude.{◌≡◌};
    ghost use Rattle.calling_examples.specs.declared.faults.ReadFault.TheVariants.{Shape};

    ghost from_gives = { λ fault read. read ≡ Shape fault };

    fn from(fault: ShapeFault) -> ReadFault {
        ReadFault::Shape(fault)
    }
}

impl From<ResolveFault> for ReadFault {
    ghost use Rattle.std.specs.Prelude.{◌≡◌};
    ghost use Rattle.calling_examples.specs.declared.faults.ReadFault.TheVariants.{Resolve};

    ghost from_gives = { λ fault read. read ≡ Resolve fault };

    fn from(fault: ResolveFault) -> ReadFault {
        ReadFault::Resolve(fault)
    }
}

impl From<SolutionFault> for ReadFault {
    ghost use Rattle.std.specs.Prelude.{◌≡◌};
    ghost use Rattle.calling_examples.specs.declared.faults.ReadFault.TheVariants.{Solution};

    ghost from_gives = { λ fault read. read ≡ Solution fault };

    fn from(fault: SolutionFault) -> ReadFault {
        ReadFault::Solution(fault)
    }
}

impl From<NoMemory> for ReadFault {
    ghost use Rattle.std.specs.Prelude.{◌≡◌};
    ghost use Rattle.calling_examples.specs.declared.faults.ReadFault.TheVariants.{NoMemory as OutOfMemory};

    ghost from_gives = { λ _ read. read ≡ OutOfMemory };

    fn from(_error: NoMemory) -> ReadFault {
        ReadFault::NoMemory
    }
}
