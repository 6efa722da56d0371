//! Numbers, ranges and literals: the rules on their digits and values.

ghost use Rattle.std.specs.Prelude.{◌≡◌, ◌↔◌, ◌+◌, ◌*◌, ◌^◌, ◌<◌, ◌≤◌, ◌==◌, not, drop, IsSome, IfSome};
ghost use Rattle.safl_word.specs.Limits.{width_max};
ghost use Rattle.safl_word.specs.Numerals.{digit};
ghost use Rattle.safl_verilog.specs.Faults.{base_at, before_quote, behind_quote};
ghost use Rattle.safl_vparse.specs.Numbers.{bounded_value, literal_word};
ghost use Rattle.safl_word.specs.Runs.{IsRun};

use safl_word::bytes::digit;
use safl_word::limits::{DIGITS_MAX, WIDTH_MAX};
use safl_word::{Raw, Word};

/// The number that some digits spell. None exactly if there are more than `DIGITS_MAX`, or the number is not below
/// 2^128.
pub fn bounded(base: u8, bytes: &[u8]) -> Option<Raw>
    requires { 1 ≤ base }
    ensures { result ≡ bounded_value base bytes.now }
{
    if bytes.len() > DIGITS_MAX {
        return None;
    }
    let mut number = 0;
    for c in bytes {
        number = followed(base, number, *c)?;
    }
    Some(number)
}

// The number with one more digit.
fn followed(base: u8, number: Raw, c: u8) -> Option<Raw>
    ensures some { IsSome result ↔ (number * base + digit c < 2 ^ width_max) }
    ensures value { IfSome result (λ n. n ≡ number * base + digit c) }
{
    number
        .checked_mul(Raw::from(base))?
        .checked_add(Raw::from(digit(c)))
}

/// The word of a sized number. None exactly if it has too many digits, a number that is too large, a width that no word
/// has, or a value that does not fit the width.
pub fn literal(bytes: &[u8]) -> Option<Word>
    ensures { result ≡ literal_word bytes.now }
{
    let (before, behind) = split_at_quote(bytes);
    let width = bounded(10, before)?;
    let value = bounded(base_at(behind), without_first(behind))?;
    if width > Raw::from(WIDTH_MAX) {
        return None;
    }
    Word::new(width as u8, value)
}

// The digits before the `'`, and what follows it.
fn split_at_quote(bytes: &[u8]) -> (&[u8], &[u8])
    ensures before { result.0.now ≡ before_quote bytes.now }
    ensures behind { result.1.now ≡ behind_quote bytes.now }
{
    let n = quote_at(bytes);
    (&bytes[..n], without_first(&bytes[n..]))
}

// How many bytes come before the `'`.
fn quote_at(bytes: &[u8]) -> usize
    ensures { IsRun (λ c. not (c == 39)) bytes.now result }
{
    for (i, c) in bytes.iter().enumerate() {
        if *c == b'\'' {
            return i;
        }
    }
    bytes.len()
}

fn without_first(bytes: &[u8]) -> &[u8]
    ensures { result.now ≡ drop 1 bytes.now }
{
    match bytes {
        [] => bytes,
        [_, rest @ ..] => rest,
    }
}

// The base that the letter after the `'` stands for.
fn base_at(behind: &[u8]) -> u8
    ensures base { result ≡ base_at behind.now }
    ensures some { 1 ≤ result }
{
    match behind {
        [b'h', ..] => 16,
        [b'b', ..] => 2,
        _ => 10,
    }
}
