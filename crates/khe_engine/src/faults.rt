//! Why an edit was not made.

ghost use Rattle.std.specs.Prelude.{◌≡◌};
ghost use Rattle.khe_engine.specs.declared.faults.EditFault.TheVariants.{Refused, NoMemory as NoRoom};

use khe_base::NoMemory;
use khe_told::Refusal;

/// Why an edit was not made.
#[derive(Clone, Copy, PartialEq, Eq)]
pub enum EditFault {
    /// The state does not allow it.
    Refused(Refusal),
    /// It is allowed, but there is no memory to keep its record or the child that it adds.
    NoMemory,
}

impl From<NoMemory> for EditFault {
    ghost from_gives = { λ x r. r ≡ NoRoom };

    fn from(_fault: NoMemory) -> EditFault {
        EditFault::NoMemory
    }
}

impl From<Refusal> for EditFault {
    ghost from_gives = { λ x r. r ≡ Refused x };

    fn from(refusal: Refusal) -> EditFault {
        EditFault::Refused(refusal)
    }
}
