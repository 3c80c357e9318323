//! Totals for C.

ghost use Rattle.std.specs.Prelude.{◌≡◌};
ghost use Rattle.khe_c.specs.Halves.{number_of, totals_of};

use khe_base::Totals;

/// 2^64.
const WORD: u128 = 18_446_744_073_709_551_616;

/// A hard and a soft total, each in two words: the first times 2^64 and the second.
#[repr(C)]
#[derive(Clone, Copy, PartialEq, Eq)]
pub struct Costs {
    pub hard_high: u64,
    pub hard_low: u64,
    pub soft_high: u64,
    pub soft_low: u64,
}

/// The totals in words.
pub(crate) fn costs_of(totals: Totals) -> Costs
    ensures { totals_of result ≡ totals }
{
    let (hard_high, hard_low) = halves(totals.hard);
    let (soft_high, soft_low) = halves(totals.soft);
    Costs {
        hard_high,
        hard_low,
        soft_high,
        soft_low,
    }
}

/// A number in two words.
fn halves(number: u128) -> (u64, u64)
    ensures { number_of result.0 result.1 ≡ number }
{
    ((number / WORD) as u64, (number % WORD) as u64)
}
