//! From a text to its numbers.

ghost use Rattle.std.specs.Prelude.{◌≡◌, ℕ, ◌+◌, ◌<◌, ◌^◌, ◌==◌, drop, position, decimal, length};
ghost use Rattle.std.specs.Prelude.{MatchOption, IfOk, IfErr};
ghost use Rattle.cycle_bound.specs.Least.{Fit};
ghost use Rattle.bound_text.specs.Texts.{numbers_text, IsFaultOf};

use cycle_bound::Numbers;
use std::alloc::Global;
use std::str;

/// Why a text isn't read.
#[derive(Clone, Copy, Debug, PartialEq, Eq)]
pub enum TextFault {
    /// Memory is wanting.
    NoMemory,
    /// The line with this number, counted from 1, is the first that isn't a number in decimal below 2^64, without leading
    /// zeros and with a line feed behind it.
    BadNumber { line: usize },
}

/// The least place of a line feed in a text.
fn line_end(text: &[u8]) -> Option<usize>
    ensures { result ≡ position (λ byte. byte == 10) text.now }
{
    text.iter().position(|byte| *byte == b'\n')
}

/// What stands behind the byte at a place.
fn behind(text: &[u8], place: usize) -> &[u8]
    requires { place < length text.now }
    ensures { result.now ≡ drop (place + 1) text.now }
{
    &text[place + 1..]
}

/// The number that a line spells.
fn number_of(line: &[u8]) -> Option<u64>
    ensures { MatchOption result ((number : ℕ) → number < 2 ^ 64 → ¬ (line.now ≡ decimal number))
        (λ number. line.now ≡ decimal number) }
{
    let Ok(word) = str::from_utf8(line) else {
        return None;
    };
    let Ok(number) = word.parse::<u64>() else {
        return None;
    };
    let mut digits = itoa::Buffer::new();
    if digits.format(number) == word {
        Some(number)
    } else {
        None
    }
}

/// The numbers of a text.
///
/// # Errors
///
/// The first line that isn't a number's; or out of memory.
pub fn read(alloc: Global, text: &[u8]) -> Result<Numbers, TextFault>
    ensures text { IfOk result (λ numbers. text.now ≡ numbers_text numbers) }
    ensures fit { IfOk result Fit }
    ensures fault { IfErr result (IsFaultOf text.now) }
{
    let mut numbers = Numbers::new(alloc);
    let mut left = text;
    while !left.is_empty() {
        let bad = TextFault::BadNumber {
            line: numbers.len() + 1,
        };
        let Some(end) = line_end(left) else {
            return Err(bad);
        };
        let Some(number) = number_of(&left[..end]) else {
            return Err(bad);
        };
        if numbers.push(number).is_err() {
            return Err(TextFault::NoMemory);
        }
        left = behind(left, end);
    }
    Ok(numbers)
}
