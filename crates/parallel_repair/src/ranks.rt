//! The order of results: by totals, then by the job's number.

ghost use Rattle.std.specs.Prelude.{◌≡◌};
ghost use Rattle.parallel_repair.specs.Ranks.{is_before, is_free, lesser};

use crate::answers::Best;
use khe_base::Totals;

/// Whether these totals of a job come before those of another one.
fn is_before(a: Totals, i: u64, b: Totals, j: u64) -> bool
    ensures { result ≡ is_before a i b j }
{
    a.is_lower(b) || a.hard == b.hard && a.soft == b.soft && i < j
}

/// Whether nothing is left to lower.
pub(crate) fn is_free(totals: Totals) -> bool
    ensures { result ≡ is_free totals }
{
    totals.hard == 0 && totals.soft == 0
}

/// The lesser of two results.
pub(crate) fn lesser(a: Option<Best>, b: Option<Best>) -> Option<Best>
    ensures { result ≡ lesser a b }
{
    let Some(a) = a else { return b };
    let Some(b) = b else { return Some(a) };
    if is_before(b.totals, b.job, a.totals, a.job) {
        Some(b)
    } else {
        Some(a)
    }
}
