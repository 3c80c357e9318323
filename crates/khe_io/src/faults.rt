//! A refused call of a device, and how it is counted.

ghost use Rattle.std.specs.Prelude.{◌≡◌, ◌≤◌};
ghost use Rattle.khe_io.specs.Calls.{one_more};
ghost use Rattle.khe_io.specs.Faults.{Rose};

use thiserror::Error;

/// A shelf or a sink refused a call. Its count of faults tells that it did.
#[derive(Clone, Copy, Debug, PartialEq, Eq, Error)]
#[error("a device refused a call")]
pub struct Failed;

/// Counts a fault, and answers what the caller is told. The count stops at the greatest value.
pub(crate) fn count_fault(faults: &mut u64) -> Failed
    ensures rose { Rose faults.old faults.new }
    ensures one_more { faults.new ≡ one_more faults.old }
    ensures counted { faults.old ≤ faults.new }
{
    *faults = faults.saturating_add(1);
    Failed
}
