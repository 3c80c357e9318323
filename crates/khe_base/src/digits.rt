//! Reads decimal numbers in scripts and on the command line, seeds among them.

ghost use Rattle.std.specs.Prelude.{◌≡◌, ◌≤◌, length, IsTrue};
ghost use Rattle.std.specs.List.{list_all};
ghost use Rattle.khe_base.specs.Digits as spec;

use crate::limits::DIGITS;

/// The number spelled by a word of 1 to `most` decimal digits, or `None` where the word is no such number or
/// the number is 2^32 or more. Leading zeros are allowed, a sign is not. It takes time in proportion to the
/// word, and no memory.
#[tactic(auto, unfolding(crate::specs::Digits::number_of))]
pub fn number_of(most: usize, word: &[u8]) -> Option<u32>
    requires { most ≤ 18 }
    ensures { result ≡ spec.number_of most word.now }
{
    if !are_digits(word) || word.is_empty() || word.len() > most {
        return None;
    }
    u32::try_from(value_of(word)).ok()
}

/// The number spelled by a word of 1 to 18 decimal digits, or `None` where the word is no such number: for
/// seeds, which may need more than 32 bits. Leading zeros are allowed, a sign is not. It takes time in
/// proportion to the word, and no memory.
#[tactic(auto, unfolding(crate::specs::Digits::long_number_of))]
pub fn long_number_of(word: &[u8]) -> Option<u64>
    ensures { result ≡ spec.long_number_of word.now }
{
    if !are_digits(word) || word.is_empty() || word.len() > DIGITS {
        return None;
    }
    Some(value_of(word))
}

/// Whether each byte is a decimal digit.
fn are_digits(word: &[u8]) -> bool
    ensures { result ≡ list_all spec.is_digit word.now }
{
    word.iter().all(|byte| is_digit(*byte))
}

/// Whether a byte is a decimal digit.
fn is_digit(byte: u8) -> bool
    ensures { result ≡ spec.is_digit byte }
{
    b'0' <= byte && byte <= b'9'
}

/// The number that up to 18 digits write.
fn value_of(digits: &[u8]) -> u64
    requires digits { IsTrue (list_all spec.is_digit digits.now) }
    requires short { length digits.now ≤ 18 }
    ensures { result ≡ spec.value_after 0 digits.now }
{
    let mut value = 0;
    for digit in digits {
        value = value * 10 + u64::from(*digit - b'0');
    }
    value
}
