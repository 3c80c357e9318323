//! The least common multiple of durations, in which workloads are counted whole.

ghost use Rattle.std.specs.Prelude.{◌<◌};
ghost use Rattle.std.specs.Int.{IsGcd};
ghost use Rattle.khe_base.specs.Units.{IsLeastMultiple};

/// The least common multiple of two numbers above 0.
///
/// It takes the time of Euclid's algorithm, in proportion to the digits of the numbers, and no
/// memory.
pub fn least_multiple(unit: u64, duration: u32) -> u128
    requires unit { 0 < unit }
    requires duration { 0 < duration }
    ensures { IsLeastMultiple unit duration result }
{
    let shared = greatest_divisor(unit, u64::from(duration));
    u128::from(unit / shared) * u128::from(duration)
}

// The greatest common divisor of two numbers, by Euclid's algorithm.
fn greatest_divisor(a: u64, b: u64) -> u64
    ensures { IsGcd a b result }
{
    let mut x = a;
    let mut y = b;
    while y != 0 {
        let rest = x % y;
        x = y;
        y = rest;
    }
    x
}
