//! The results of the primitives.

ghost use Rattle.std.specs.Prelude.{◌≡◌, ◌+◌, ◌-◌, ◌*◌, ◌/◌, ◌%◌, ◌^◌, ◌<◌, ◌≤◌, [], ◌∷◌, IsSome, map, cond, nat_lt, bit_and, bit_or, bit_xor, true};
ghost use Rattle.safl_word.specs.Limits.{width_max};
ghost use Rattle.safl_word.specs.Primitives.{is_width, result_width, apply_prim, bit_of};

use crate::limits::WIDTH_MAX;
use crate::primitive::Primitive;
use crate::word::{Raw, Word, greatest};

/// The width of a primitive's result on words of these widths. None exactly if the table of widths has no row for them.
/// In each row operands and result have widths from 1 to `WIDTH_MAX`.
pub fn result_width(p: Primitive, widths: &[u8]) -> Option<u8>
    ensures { result ≡ result_width p widths.now }
{
    match widths {
        [a] if is_width(*a) => width_of_one(p, *a),
        [a, b] if is_width(*a) && is_width(*b) => width_of_two(p, *a, *b),
        _ => None,
    }
}

fn is_width(width: u8) -> bool
    ensures { result ≡ is_width width }
{
    1 <= width && width <= WIDTH_MAX
}

fn width_of_one(p: Primitive, a: u8) -> Option<u8>
    requires { is_width a ≡ true }
    ensures { result ≡ result_width p (a ∷ []) }
{
    match p {
        Primitive::Not => Some(a),
        Primitive::Bits(high, low) if low <= high && high < a => Some(high - low + 1),
        Primitive::Ext(width) if a <= width && width <= WIDTH_MAX => Some(width),
        _ => None,
    }
}

fn width_of_two(p: Primitive, a: u8, b: u8) -> Option<u8>
    requires first { is_width a ≡ true }
    requires second { is_width b ≡ true }
    ensures { result ≡ result_width p (a ∷ b ∷ []) }
{
    match p {
        Primitive::Not | Primitive::Bits(_, _) | Primitive::Ext(_) => None,
        Primitive::Eq
        | Primitive::Ne
        | Primitive::Lt
        | Primitive::Le
        | Primitive::Gt
        | Primitive::Ge => { (a == b).then_some(1) }
        Primitive::Shl | Primitive::Shr => Some(a),
        Primitive::Cat => a.checked_add(b).filter(|sum| *sum <= WIDTH_MAX),
        _ => (a == b).then_some(a),
    }
}

/// The result of a primitive on these words. Their widths must have a row in the table of widths.
// Inlined with the two below, so that in the simulator's loop no word goes through memory.
#[inline(always)]
pub fn apply(p: Primitive, args: &[Word]) -> Word
    requires { IsSome (result_width p (map (λ v. v.width) args.now)) }
    ensures { result ≡ apply_prim p args.now }
{
    match args {
        [] => unreachable!(),
        [a] => apply_to_one(p, *a),
        [a, b] => apply_to_two(p, *a, *b),
        [_, _, _, ..] => unreachable!(),
    }
}

#[inline(always)]
fn apply_to_one(p: Primitive, a: Word) -> Word
    requires { IsSome (result_width p (a.width ∷ [])) }
    ensures { result ≡ apply_prim p (a ∷ []) }
{
    match p {
        Primitive::Not => complement(a),
        Primitive::Bits(high, low) => slice(a, high, low),
        Primitive::Ext(width) => extension(a, width),
        _ => unreachable!(),
    }
}

#[inline(always)]
fn apply_to_two(p: Primitive, a: Word, b: Word) -> Word
    requires { IsSome (result_width p (a.width ∷ b.width ∷ [])) }
    ensures { result ≡ apply_prim p (a ∷ b ∷ []) }
{
    match p {
        Primitive::Add => sum(a, b),
        Primitive::Sub => difference(a, b),
        Primitive::Mul => product(a, b),
        Primitive::And => conjunction(a, b),
        Primitive::Or => disjunction(a, b),
        Primitive::Xor => exclusive(a, b),
        Primitive::Eq => flag(a.bits() == b.bits()),
        Primitive::Ne => flag(a.bits() != b.bits()),
        Primitive::Lt => flag(a.bits() < b.bits()),
        Primitive::Le => flag(a.bits() <= b.bits()),
        Primitive::Gt => flag(a.bits() > b.bits()),
        Primitive::Ge => flag(a.bits() >= b.bits()),
        Primitive::Shl => left_shift(a, b),
        Primitive::Shr => right_shift(a, b),
        Primitive::Cat => concatenation(a, b),
        _ => unreachable!(),
    }
}

// A truth value as a word of one bit.
fn flag(holds: bool) -> Word
    ensures { result ≡ record { width = 1; bits = bit_of holds } }
{
    Word::from_parts(1, if holds { 1 } else { 0 })
}

fn sum(a: Word, b: Word) -> Word
    ensures { result ≡ record { width = a.width; bits = (a.bits + b.bits) % 2 ^ a.width } }
{
    Word::from_low_bits(a.width(), a.bits().wrapping_add(b.bits()))
}

fn difference(a: Word, b: Word) -> Word
    requires { a.width ≡ b.width }
    ensures { result ≡ record { width = a.width; bits = (2 ^ a.width + a.bits - b.bits) % 2 ^ a.width } }
{
    let subtrahend = b.bits();
    prove!(b.width() <= WIDTH_MAX);
    Word::from_low_bits(a.width(), a.bits().wrapping_sub(subtrahend))
}

fn product(a: Word, b: Word) -> Word
    ensures { result ≡ record { width = a.width; bits = (a.bits * b.bits) % 2 ^ a.width } }
{
    Word::from_low_bits(a.width(), a.bits().wrapping_mul(b.bits()))
}

fn conjunction(a: Word, b: Word) -> Word
    ensures { result ≡ record { width = a.width; bits = bit_and a.bits b.bits } }
{
    Word::from_parts(a.width(), a.bits() & b.bits())
}

fn disjunction(a: Word, b: Word) -> Word
    requires { a.width ≡ b.width }
    ensures { result ≡ record { width = a.width; bits = bit_or a.bits b.bits } }
{
    Word::from_parts(a.width(), a.bits() | b.bits())
}

fn exclusive(a: Word, b: Word) -> Word
    requires { a.width ≡ b.width }
    ensures { result ≡ record { width = a.width; bits = bit_xor a.bits b.bits } }
{
    Word::from_parts(a.width(), a.bits() ^ b.bits())
}

fn complement(a: Word) -> Word
    ensures { result ≡ record { width = a.width; bits = 2 ^ a.width - 1 - a.bits } }
{
    Word::from_parts(a.width(), greatest(a.width()) - a.bits())
}

// The word shifted to the left. A shift by the width of `a` or more gives 0.
fn left_shift(a: Word, b: Word) -> Word
    ensures { result ≡ record { width = a.width; bits = cond (nat_lt b.bits a.width) ((a.bits * 2 ^ b.bits) % 2 ^ a.width) 0 } }
{
    let width = a.width();
    let amount = b.bits();
    if amount < Raw::from(width) {
        Word::from_low_bits(width, a.bits() << (amount as u32))
    } else {
        Word::from_parts(width, 0)
    }
}

fn right_shift(a: Word, b: Word) -> Word
    ensures { result ≡ record { width = a.width; bits = cond (nat_lt b.bits a.width) (a.bits / 2 ^ b.bits) 0 } }
{
    let width = a.width();
    if b.bits() < Raw::from(width) {
        Word::from_parts(width, a.bits() >> (b.bits() as u32))
    } else {
        Word::from_parts(width, 0)
    }
}

fn concatenation(a: Word, b: Word) -> Word
    requires { a.width + b.width ≤ width_max }
    ensures { result ≡ record { width = a.width + b.width; bits = a.bits * 2 ^ b.width + b.bits } }
{
    let bits = a.bits() << b.width() | b.bits();
    Word::from_parts(a.width() + b.width(), bits)
}

fn slice(a: Word, high: u8, low: u8) -> Word
    requires ordered { low ≤ high }
    requires within { high < a.width }
    ensures { result ≡ record { width = high - low + 1; bits = (a.bits / 2 ^ low) % 2 ^ (high - low + 1) } }
{
    prove!(a.width() <= WIDTH_MAX);
    Word::from_low_bits(high - low + 1, a.bits() >> low)
}

fn extension(a: Word, width: u8) -> Word
    requires wider { a.width ≤ width }
    requires bounded { width ≤ width_max }
    ensures { result ≡ record { width = width; bits = a.bits } }
{
    prove!(a.width() >= 1);
    Word::from_parts(width, a.bits())
}
