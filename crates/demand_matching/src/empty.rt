//! Lists as they are while no demand is present.

ghost use Rattle.std.specs.Prelude.{◌≡◌, ◌-◌, ◌^◌, replicate, IfOk, None};

use crate::Domain;
use khe_base::NoMemory;
use std::alloc::Global;

/// The given number of demands without a domain, in time and memory in proportion to their number.
pub(crate) fn no_domains(alloc: Global, count: usize) -> Result<Vec<Option<Domain>>, NoMemory>
    ensures { IfOk result (λ v. v.items ≡ replicate count None) }
{
    Ok(vec![in alloc; None; count]?)
}

/// The given number of entries without a number, in time and memory in proportion to them.
pub(crate) fn no_numbers(alloc: Global, count: usize) -> Result<Vec<Option<u32>>, NoMemory>
    ensures { IfOk result (λ v. v.items ≡ replicate count None) }
{
    Ok(vec![in alloc; None; count]?)
}

/// The given number of words with all bits set, in time and memory in proportion to their number.
pub(crate) fn all_bits(alloc: Global, words: usize) -> Result<Vec<u64>, NoMemory>
    ensures { IfOk result (λ w. w.items ≡ replicate words (2 ^ 64 - 1)) }
{
    Ok(vec![in alloc; u64::MAX; words]?)
}
