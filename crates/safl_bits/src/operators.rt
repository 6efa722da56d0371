//! Operators on words that are lists of literals.

ghost use Rattle.std.specs.Prelude.{◌≡◌, ◌+◌, ◌*◌, ◌%◌, ◌^◌, ◌<◌, ◌≤◌, [], ◌∷◌, ◌++◌, length, IfOk};
ghost use Rattle.safl_word.specs.Limits.{width_max};
ghost use Rattle.safl_aiger.specs.Literals.{Assignment, shown};
ghost use Rattle.safl_bits.specs.Gates.{Gates, AreLiterals, HasRoom, Grows, Holds};
ghost use Rattle.safl_bits.specs.Results.{Makes, MakesOne, MayMake, MayTake, GrowsBy};

use crate::graph::{Graph, inverse};
use crate::words::{
    Gate, Side, add, bitwise, complement, covers, equal, multiply, shift, subtract,
};
use safl_aiger::Lit;
use safl_word::Primitive;
use std::alloc::{AllocError, Global};

/// The word that an operator with two operands gives. It takes operands of these widths.
pub fn apply_to_two(
    alloc: Global,
    g: &mut Graph,
    p: Primitive,
    a: &[Lit],
    b: &[Lit],
) -> Result<Vec<Lit>, AllocError>
    requires first { AreLiterals g.old a.now }
    requires second { AreLiterals g.old b.now }
    requires narrow { length a.now ≤ width_max }
    requires room { MayMake p g.old (length a.now ∷ length b.now ∷ []) }
    ensures built { GrowsBy p g.old g.new (length a.now ∷ length b.now ∷ []) }
    ensures made { IfOk result (λ r. Makes p a.now b.now g.new r.items) }
{
    match p {
        Primitive::Add => total(alloc, g, a, b),
        Primitive::Sub => subtract(alloc, g, a, b),
        Primitive::Mul => multiply(alloc, g, a, b),
        Primitive::And => bitwise(alloc, g, Gate::Both, a, b),
        Primitive::Or => bitwise(alloc, g, Gate::Either, a, b),
        Primitive::Xor => bitwise(alloc, g, Gate::Differ, a, b),
        Primitive::Eq => {
            let holds = equal(g, a, b)?;
            single(alloc, holds)
        }
        Primitive::Ne => {
            let fails = equal(g, a, b)?;
            single(alloc, inverse(fails))
        }
        Primitive::Lt => {
            let fails = covers(g, a, b)?;
            single(alloc, inverse(fails))
        }
        Primitive::Le => {
            let holds = covers(g, b, a)?;
            single(alloc, holds)
        }
        Primitive::Gt => {
            let fails = covers(g, b, a)?;
            single(alloc, inverse(fails))
        }
        Primitive::Ge => {
            let holds = covers(g, a, b)?;
            single(alloc, holds)
        }
        Primitive::Shl => shift(alloc, g, Side::Left, a, b),
        Primitive::Shr => shift(alloc, g, Side::Right, a, b),
        Primitive::Cat => joined(alloc, b, a),
        _ => unreachable!(),
    }
}

/// The word that an operator with one operand gives. It takes an operand of this width.
pub fn apply_to_one(alloc: Global, p: Primitive, a: &[Lit]) -> Result<Vec<Lit>, AllocError>
    requires taken { MayTake p (length a.now) }
    ensures made { (g : Gates) → AreLiterals g a.now → IfOk result (λ r. MakesOne p a.now g r.items) }
{
    match p {
        Primitive::Not => complement(alloc, a),
        Primitive::Bits(high, low) => Vec::from_slice(alloc, &a[low as usize..high as usize + 1]),
        _ => unreachable!(),
    }
}

// A literal as a word of one bit.
fn single(alloc: Global, l: Lit) -> Result<Vec<Lit>, AllocError>
    ensures { IfOk result (λ r. r.items ≡ l ∷ []) }
{
    let mut all = Vec::new(alloc);
    all.push(l)?;
    Ok(all)
}

// The concatenation of two words; `low` has the lower bits.
fn joined(alloc: Global, low: &[Lit], high: &[Lit]) -> Result<Vec<Lit>, AllocError>
    requires { length low.now + length high.now < 4294967296 }
    ensures { IfOk result (λ r. r.items ≡ low.now ++ high.now) }
{
    let mut all = Vec::from_slice(alloc, low)?;
    all.extend_from_slice(high)?;
    Ok(all)
}

// The sum of two words, without its carry.
fn total(alloc: Global, g: &mut Graph, a: &[Lit], b: &[Lit]) -> Result<Vec<Lit>, AllocError>
    requires first { AreLiterals g.old a.now }
    requires second { AreLiterals g.old b.now }
    requires alike { length a.now ≡ length b.now }
    requires room { HasRoom g.old (9 * length a.now) }
    ensures built { Grows g.old g.new (9 * length a.now) }
    ensures fits { IfOk result (λ r. AreLiterals g.new r.items) }
    ensures long { IfOk result (λ r. length r.items ≡ length a.now) }
    ensures value { IfOk result (λ r. (m : Assignment) → Holds g.new m → shown m r.items ≡ (shown m a.now + shown m b.now) % 2 ^ length a.now) }
{
    let zero = g.bottom();
    let sum = add(alloc, g, a, b, zero)?;
    Ok(sum.bits)
}
