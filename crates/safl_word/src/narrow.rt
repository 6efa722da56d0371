//! The primitives on narrow words: of at most 64 bits, with a result of at most 64 bits.

ghost use Rattle.std.specs.Prelude.{◌≡◌, ◌+◌, ◌-◌, ◌*◌, ◌/◌, ◌%◌, ◌^◌, ◌<◌, ◌≤◌, [], ◌∷◌, cond, nat_lt};
ghost use Rattle.safl_word.specs.Words.{IsWord};
ghost use Rattle.safl_word.specs.Primitives.{result_width, apply_prim, bit_of};
ghost use Rattle.safl_word.specs.Narrow.{HasLow};
ghost use Rattle.safl_word.specs.Words.{as_word};

use crate::primitive::Primitive;

/// The greatest width of a narrow word, in bits.
pub const LOW_MAX: u8 = 64;

/// The result of a primitive on a word of this width.
#[inline(always)]
pub fn narrow_one(p: Primitive, width: u8, a: u64) -> u64
    requires word { IsWord (as_word width a) }
    requires narrow { width ≤ 64 }
    requires some { HasLow (result_width p (width ∷ [])) }
    ensures { result ≡ (apply_prim p (as_word width a ∷ [])).bits }
{
    match p {
        Primitive::Not => greatest(width) - a,
        Primitive::Bits(high, low) => slice(width, a, high, low),
        Primitive::Ext(_) => a,
        _ => unreachable!(),
    }
}

/// The result of a primitive on two words of these widths.
#[inline(always)]
pub fn narrow_two(p: Primitive, width: u8, other: u8, a: u64, b: u64) -> u64
    requires first { IsWord (as_word width a) }
    requires second { IsWord (as_word other b) }
    requires narrow { width ≤ 64 }
    requires some { HasLow (result_width p (width ∷ other ∷ [])) }
    ensures { result ≡ (apply_prim p (as_word width a ∷ as_word other b ∷ [])).bits }
{
    match p {
        Primitive::Add => sum(width, a, b),
        Primitive::Sub => difference(width, a, b),
        Primitive::Mul => product(width, a, b),
        Primitive::And => a & b,
        Primitive::Or => a | b,
        Primitive::Xor => a ^ b,
        Primitive::Eq => flag(a == b),
        Primitive::Ne => flag(a != b),
        Primitive::Lt => flag(a < b),
        Primitive::Le => flag(a <= b),
        Primitive::Gt => flag(a > b),
        Primitive::Ge => flag(a >= b),
        Primitive::Shl => left_shift(width, a, b),
        Primitive::Shr => right_shift(width, a, b),
        Primitive::Cat => concatenation(width, other, a, b),
        _ => unreachable!(),
    }
}

// The greatest number of a width: all its bits are 1.
#[inline(always)]
fn greatest(width: u8) -> u64
    requires some { 1 ≤ width }
    requires narrow { width ≤ 64 }
    ensures { result ≡ 2 ^ width - 1 }
{
    u64::MAX >> (LOW_MAX - width)
}

// The remainder of a number modulo 2 to the width.
#[inline(always)]
fn low_bits(width: u8, number: u64) -> u64
    requires some { 1 ≤ width }
    requires narrow { width ≤ 64 }
    ensures { result ≡ number % 2 ^ width }
{
    number & greatest(width)
}

#[inline(always)]
fn flag(holds: bool) -> u64
    ensures { result ≡ bit_of holds }
{
    if holds { 1 } else { 0 }
}

#[inline(always)]
fn sum(width: u8, a: u64, b: u64) -> u64
    requires some { 1 ≤ width }
    requires narrow { width ≤ 64 }
    ensures { result ≡ (a + b) % 2 ^ width }
{
    low_bits(width, a.wrapping_add(b))
}

#[inline(always)]
fn difference(width: u8, a: u64, b: u64) -> u64
    requires some { 1 ≤ width }
    requires narrow { width ≤ 64 }
    requires fits { b < 2 ^ width }
    ensures { result ≡ (2 ^ width + a - b) % 2 ^ width }
{
    low_bits(width, a.wrapping_sub(b))
}

#[inline(always)]
fn product(width: u8, a: u64, b: u64) -> u64
    requires some { 1 ≤ width }
    requires narrow { width ≤ 64 }
    ensures { result ≡ (a * b) % 2 ^ width }
{
    low_bits(width, a.wrapping_mul(b))
}

// The number shifted to the left. A shift by the width or more gives 0.
#[inline(always)]
fn left_shift(width: u8, a: u64, b: u64) -> u64
    requires some { 1 ≤ width }
    requires narrow { width ≤ 64 }
    ensures { result ≡ cond (nat_lt b width) ((a * 2 ^ b) % 2 ^ width) 0 }
{
    if b < u64::from(width) {
        low_bits(width, a << (b as u32))
    } else {
        0
    }
}

#[inline(always)]
fn right_shift(width: u8, a: u64, b: u64) -> u64
    requires { width ≤ 64 }
    ensures { result ≡ cond (nat_lt b width) (a / 2 ^ b) 0 }
{
    if b < u64::from(width) {
        a >> (b as u32)
    } else {
        0
    }
}

#[inline(always)]
fn concatenation(width: u8, other: u8, a: u64, b: u64) -> u64
    requires first { a < 2 ^ width }
    requires second { b < 2 ^ other }
    requires some { 1 ≤ width }
    requires narrow { width + other ≤ 64 }
    ensures { result ≡ a * 2 ^ other + b }
{
    a << other | b
}

#[inline(always)]
fn slice(width: u8, a: u64, high: u8, low: u8) -> u64
    requires ordered { low ≤ high }
    requires within { high < width }
    requires narrow { width ≤ 64 }
    ensures { result ≡ (a / 2 ^ low) % 2 ^ (high - low + 1) }
{
    low_bits(high - low + 1, a >> low)
}
