//! Sixty-four bits of a row from any place on.

ghost use Rattle.std.specs.Prelude.{◌≡◌, ◌+◌, ◌<◌, ℕ, slice_index};
ghost use Rattle.khe_base.specs.Bits.{has_bit, is_set};

/// The 64 bits of a row of words that begin at this one; those past the row's end are not set. It
/// takes constant time.
pub(crate) fn window(bits: &[u64], from: usize) -> u64
    ensures { (i : ℕ) → i < 64 → has_bit result i ≡ is_set bits.now (from + i) }
{
    let low = word_at(bits, from / 64) as u128;
    let high = word_at(bits, from / 64 + 1) as u128;
    let both = high << 64 | low;
    (both >> (from % 64) & u64::MAX as u128) as u64
}

/// A word of the row, or 0 past its end.
fn word_at(bits: &[u64], k: usize) -> u64
    ensures { result ≡ slice_index bits.now k }
{
    if k < bits.len() { bits[k] } else { 0 }
}
