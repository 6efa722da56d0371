//! Reading and writing numbers.

ghost use Rattle.std.specs.Prelude.{◌≡◌, ◌↔◌, ◌+◌, ◌*◌, ◌/◌, ◌%◌, ◌^◌, ◌<◌, ◌≤◌, [], ◌∷◌, ◌++◌, true, length, take, is_some, IsSome, IfSome, OnOk, OnErr, decimal};
ghost use Rattle.safl_word.specs.Limits.{argument_max, decimal_max, width_max};
ghost use Rattle.safl_word.specs.Numerals.{binary, digit, is_digit, value, IsBounded, IsNumeral};

use crate::bytes::{digit, is_digit};
use crate::fault::NoMemory;
use crate::limits::{ARGUMENT_MAX, DECIMAL_MAX};
use crate::word::Raw;
use itoa::Buffer;

// A number of at most this many decimal digits is below 2^64.
const SHORT_MAX: usize = 19;

/// The number that a numeral of this base spells, which has at most `most` digits. None exactly if the bytes are no
/// such numeral, or the number is not below 2^128.
pub fn numeral(base: u8, most: usize, bytes: &[u8]) -> Option<Raw>
    requires { 1 ≤ base }
    ensures some { IsSome result ↔ IsBounded base most (2 ^ width_max) bytes.now }
    ensures value { IfSome result (λ n. n ≡ value base bytes.now) }
{
    if bytes.is_empty() || bytes.len() > most {
        return None;
    }
    let mut number = 0;
    for c in bytes {
        number = followed(base, number, *c)?;
    }
    Some(number)
}

// The number with one more digit.
fn followed(base: u8, number: Raw, c: u8) -> Option<Raw>
    ensures some { IsSome result ↔ ((is_digit base c ≡ true) × (number * base + digit c < 2 ^ width_max)) }
    ensures value { IfSome result (λ n. n ≡ number * base + digit c) }
{
    let digit = digit_of(base, c)?;
    number
        .checked_mul(Raw::from(base))?
        .checked_add(Raw::from(digit))
}

// The value of a digit of the base.
fn digit_of(base: u8, c: u8) -> Option<u8>
    ensures some { is_some result ≡ is_digit base c }
    ensures value { IfSome result (λ d. d ≡ digit c) }
{
    is_digit(base, c).then_some(digit(c))
}

/// The number of a decimal word. None exactly if the bytes are not 1 to 20 digits of a number below 2^64.
pub fn decimal(bytes: &[u8]) -> Option<u64>
    ensures some { IsSome result ↔ IsBounded 10 decimal_max (2 ^ 64) bytes.now }
    ensures value { IfSome result (λ n. n ≡ value 10 bytes.now) }
{
    u64::try_from(numeral(10, DECIMAL_MAX, bytes)?).ok()
}

/// The number of an argument. None exactly if the bytes are not 1 to 39 digits of a number below 2^128.
pub fn argument(bytes: &[u8]) -> Option<Raw>
    ensures some { IsSome result ↔ IsBounded 10 argument_max (2 ^ width_max) bytes.now }
    ensures value { IfSome result (λ n. n ≡ value 10 bytes.now) }
{
    if bytes.is_empty() || bytes.len() > SHORT_MAX {
        return numeral(10, ARGUMENT_MAX, bytes);
    }
    Some(Raw::from(short_number(bytes)?))
}

// The number of a text of at most `SHORT_MAX` bytes. None if these are not all digits.
fn short_number(text: &[u8]) -> Option<u64>
    requires some { 0 < length text.now }
    requires short { length text.now ≤ 19 }
    ensures some { IsSome result ↔ IsNumeral 10 text.now }
    ensures value { IfSome result (λ n. n ≡ value 10 text.now) }
{
    let mut number = 0;
    for c in text {
        if !c.is_ascii_digit() {
            return None;
        }
        number = 10 * number + u64::from(*c - b'0');
    }
    Some(number)
}

/// Appends the decimal digits of a number, as few as possible, or nothing if out of memory.
pub fn push_decimal(n: Raw, out: &mut Vec<u8>) -> Result<(), NoMemory>
    ensures ok { OnOk result (out.new.items ≡ out.old.items ++ decimal n) }
    ensures err { OnErr result (out.new.items ≡ out.old.items) }
{
    out.extend_from_slice(Buffer::new().format(n).as_bytes())?;
    Ok(())
}

/// Appends the binary digits of a number, as few as possible, or nothing if out of memory.
pub fn push_binary(n: Raw, out: &mut Vec<u8>) -> Result<(), NoMemory>
    ensures ok { OnOk result (out.new.items ≡ out.old.items ++ binary n) }
    ensures err { OnErr result (out.new.items ≡ out.old.items) }
{
    let before = out.len();
    let pushed = push_bits(out, n);
    if pushed.is_err() {
        out.truncate(before);
    }
    pushed
}

// Appends the binary digits of a number, as few as possible, four at a time. If out of memory, some of them may have
// been appended.
fn push_bits(out: &mut Vec<u8>, number: Raw) -> Result<(), NoMemory>
    ensures ok { OnOk result (out.new.items ≡ out.old.items ++ binary number) }
    ensures err { OnErr result (take (length out.old.items) out.new.items ≡ out.old.items) }
{
    if number < 2 {
        out.push(b'0' + number as u8)?;
        return Ok(());
    }
    if number < 16 {
        push_bits(out, number / 2)?;
        out.push(b'0' + (number % 2) as u8)?;
        return Ok(());
    }
    push_bits(out, number / 16)?;
    push_four(out, (number % 16) as u8)
}

// Appends four binary digits, or nothing if out of memory.
#[inline(always)]
fn push_four(out: &mut Vec<u8>, number: u8) -> Result<(), NoMemory>
    requires { number < 16 }
    ensures ok { OnOk result (out.new.items ≡ out.old.items ++ (48 + number / 8) ∷ (48 + number / 4 % 2) ∷ (48 + number / 2 % 2) ∷ (48 + number % 2) ∷ []) }
    ensures err { OnErr result (out.new.items ≡ out.old.items) }
{
    out.extend_from_slice(&[
        b'0' + number / 8,
        b'0' + number / 4 % 2,
        b'0' + number / 2 % 2,
        b'0' + number % 2,
    ])?;
    Ok(())
}
