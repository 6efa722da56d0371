//! Gates over literals.

ghost use Rattle.std.specs.Prelude.{◌≡◌, ◌||◌, cond, IfOk};
ghost use Rattle.safl_aiger.specs.Literals.{Assignment, on};
ghost use Rattle.safl_bits.specs.Gates.{IsLiteral, HasRoom, Grows, Holds, differ};

use crate::graph::{Graph, inverse};
use safl_aiger::Lit;
use std::alloc::AllocError;

/// The literal that is true if `a` or `b` is.
pub fn either(g: &mut Graph, a: Lit, b: Lit) -> Result<Lit, AllocError>
    requires first { IsLiteral g.old a }
    requires second { IsLiteral g.old b }
    requires room { HasRoom g.old 1 }
    ensures built { Grows g.old g.new 1 }
    ensures fits { IfOk result (IsLiteral g.new) }
    ensures value { IfOk result (λ l. (m : Assignment) → Holds g.new m → on m l ≡ (on m a || on m b)) }
{
    let neither = g.both(inverse(a), inverse(b))?;
    Ok(inverse(neither))
}

/// The literal that is true if exactly one of `a` and `b` is.
pub fn differ(g: &mut Graph, a: Lit, b: Lit) -> Result<Lit, AllocError>
    requires first { IsLiteral g.old a }
    requires second { IsLiteral g.old b }
    requires room { HasRoom g.old 3 }
    ensures built { Grows g.old g.new 3 }
    ensures fits { IfOk result (IsLiteral g.new) }
    ensures value { IfOk result (λ l. (m : Assignment) → Holds g.new m → on m l ≡ differ (on m a) (on m b)) }
{
    let two = g.both(a, b)?;
    let none = g.both(inverse(a), inverse(b))?;
    g.both(inverse(two), inverse(none))
}

/// The literal that is `a` if `c` is true, else `b`.
pub fn mux(g: &mut Graph, c: Lit, a: Lit, b: Lit) -> Result<Lit, AllocError>
    requires test { IsLiteral g.old c }
    requires first { IsLiteral g.old a }
    requires second { IsLiteral g.old b }
    requires room { HasRoom g.old 3 }
    ensures built { Grows g.old g.new 3 }
    ensures fits { IfOk result (IsLiteral g.new) }
    ensures value { IfOk result (λ l. (m : Assignment) → Holds g.new m → on m l ≡ cond (on m c) (on m a) (on m b)) }
{
    let chosen = g.both(c, a)?;
    let other = g.both(inverse(c), b)?;
    either(g, chosen, other)
}
