//! How far a number lies outside of two bounds.

ghost use Rattle.std.specs.Prelude.{◌≡◌, ◌≤◌, ◌+◌};
ghost use Rattle.khe_base.specs.Bounds.{IsNearZero, outside, count_outside};

/// How far a number lies outside two bounds: below the least, or else above the greatest, or 0. Where the least
/// exceeds the greatest, a number below the least is measured against the least. All three arguments must lie
/// between -10^12 and 10^12.
///
/// It takes constant time and no memory. The source is the deviation of the kinds of the XHSTT
/// format that have a minimum and a maximum.
pub fn out(n: i64, min: i64, max: i64) -> u64
    requires number { IsNearZero n }
    requires least { IsNearZero min }
    requires greatest { IsNearZero max }
    ensures { result ≡ outside n min max }
{
    if n < min {
        (min - n).unsigned_abs()
    } else if max < n {
        (n - max).unsigned_abs()
    } else {
        0
    }
}

/// How far a count lies outside the bounds of a constraint, as `out` measures it. It takes constant time and no
/// memory.
pub fn count_out(count: u64, min: u32, max: u32) -> u64
    requires { count ≤ 1000000000000 }
    ensures exact { result ≡ count_outside count min max }
    ensures small { result ≤ count + min }
{
    out(count as i64, i64::from(min), i64::from(max))
}
