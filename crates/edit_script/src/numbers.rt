//! The numbers in a line.

ghost use Rattle.std.specs.Prelude.{◌≡◌, ◌≤◌, length, drop, MatchOption};
ghost use Rattle.std.specs.Option.{option_map};
ghost use Rattle.edit_script.specs.Numbers as spec;
ghost use Rattle.edit_script.specs.Words.{words};

use crate::words::first_word;
use khe_base::digits::number_of;

/// The numbers that the words of a line write, with 0 where there are fewer than four, or `None`
/// where a word writes none. It takes time in proportion to the line.
pub fn numbers_of(line: &[u8]) -> Option<[u32; 4]>
    requires { length (words line.now) ≤ 4 }
    ensures { result ≡ option_map spec.first_four (spec.numbers (words line.now)) }
{
    let (first, rest) = next_number(line)?;
    let (second, rest) = next_number(rest)?;
    let (third, rest) = next_number(rest)?;
    let (fourth, _) = next_number(rest)?;
    Some([first, second, third, fourth])
}

/// The number that the first word writes, and what stands after it, or 0 where no word is left.
fn next_number(line: &[u8]) -> Option<(u32, &[u8])>
    ensures { MatchOption result (spec.first_number (words line.now) ≡ None) (λ next. (spec.first_number (words line.now) ≡ Some next.0) × (words next.1.now ≡ drop 1 (words line.now))) }
{
    match first_word(line) {
        Some((word, rest)) => Some((number(word)?, rest)),
        None => Some((0, line)),
    }
}

/// The number that a word of a script writes.
fn number(word: &[u8]) -> Option<u32>
    ensures { result ≡ spec.number word.now }
{
    number_of(10, word)
}
