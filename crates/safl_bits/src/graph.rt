//! Graphs of ANDs, which grow gate by gate.

ghost use Rattle.std.specs.Prelude.{◌≡◌, ◌+◌, ◌*◌, ◌<◌, ◌≤◌, ◌&&◌, [], false, IfOk, IfSome};
ghost use Rattle.std.specs.Cmp.Rules.{hashing};
ghost use Rattle.std.proofs.Common.{rules};
ghost use Rattle.safl_word.specs.Limits.{variables_max};
ghost use Rattle.safl_aiger.specs.Literals.{Assignment, on};
ghost use Rattle.safl_bits.specs.Sharing.{operands_input};
ghost use Rattle.safl_bits.specs.Gates.{IsGates, IsLiteral, HasRoom, Grows, Holds, Folds, Inverts};

use indexmap::IndexSet;
use safl_aiger::Lit;
use std::alloc::{AllocError, Global};
use std::hash::{Hash, Hasher};
use std::marker::Model;

/// The two operands of an AND, the lower one first.
#[derive(Clone, Copy, Debug, PartialEq, Eq)]
struct Operands {
    low: Lit,
    high: Lit,
}

impl Hash for Operands {
    ghost hash_input = { operands_input };

    ghost respects_eq = { Prim.search (hashing, rules) };

    fn hash<H: Hasher>(&self, state: &mut H) {
        self.low.0.hash(state);
        self.high.0.hash(state);
    }
}

/// ANDs over variables. The variables below the first AND have given values. No two ANDs have the same operands.
#[derive(Drop)]
pub struct Graph {
    first: u32,
    ands: IndexSet<Operands>,
}

impl Model for Graph {
    ghost use Rattle.safl_bits.specs.Gates.{Gates, IsGates};
    ghost use Rattle.safl_bits.specs.Sharing.{pairs};

    ghost Value = { Gates };

    ghost view = { λ g. record { first = g.first; ands = pairs g.ands.keys } };

    ghost invariant = { λ g. IsGates (record { first = g.first; ands = pairs g.ands.keys }) };
}

impl Graph {
    /// A graph without ANDs. The first AND will have the variable `first`.
    pub fn new(alloc: Global, first: u32) -> Graph
        requires some { 1 ≤ first }
        requires few { first ≤ variables_max }
        ensures { result ≡ record { first = first; ands = [] } }
    {
        Graph {
            first,
            ands: IndexSet::new(alloc),
        }
    }

    /// The operands of the ANDs, in the order of their variables.
    pub fn ands(&self, alloc: Global) -> Result<Vec<(Lit, Lit)>, AllocError>
        ensures ands { IfOk result (λ r. r.items ≡ self.now.ands) }
        ensures gates { IsGates self.now }
    {
        let found = self.ands.as_slice();
        let mut all = Vec::new(alloc);
        'ands: for i in 0..found.len() {
            all.push((found[i].low, found[i].high))?;
        }
        Ok(all)
    }

    /// The literal that is always false.
    pub fn bottom(&self) -> Lit
        ensures fits { IsLiteral self.now result }
        ensures value { (m : Assignment) → Holds self.now m → on m result ≡ false }
    {
        let _ = &self.first;
        Lit(0)
    }

    /// The literal that is true if `a` and `b` are.
    pub fn both(&mut self, a: Lit, b: Lit) -> Result<Lit, AllocError>
        requires first { IsLiteral self.old a }
        requires second { IsLiteral self.old b }
        requires room { HasRoom self.old 1 }
        ensures built { Grows self.old self.new 1 }
        ensures fits { IfOk result (IsLiteral self.new) }
        ensures value { IfOk result (λ l. (m : Assignment) → Holds self.new m → on m l ≡ (on m a && on m b)) }
    {
        if let Some(l) = folded(a, b) {
            return Ok(l);
        }
        if b.0 < a.0 {
            return self.gate(b, a);
        }
        self.gate(a, b)
    }

    // The AND of two literals: the one that is there already, or else a new one.
    fn gate(&mut self, low: Lit, high: Lit) -> Result<Lit, AllocError>
        requires first { IsLiteral self.old low }
        requires second { IsLiteral self.old high }
        requires room { HasRoom self.old 1 }
        ensures built { Grows self.old self.new 1 }
        ensures fits { IfOk result (IsLiteral self.new) }
        ensures value { IfOk result (λ l. (m : Assignment) → Holds self.new m → on m l ≡ (on m low && on m high)) }
    {
        let (index, _) = self.ands.insert_full(Operands { low, high })?;
        Ok(Lit(2 * (self.first + index as u32)))
    }
}

/// The negation of a literal.
pub fn inverse(a: Lit) -> Lit
    ensures { Inverts a result }
{
    if a.0 % 2 == 0 {
        Lit(a.0 + 1)
    } else {
        Lit(a.0 - 1)
    }
}

// The conjunction of two literals, if it needs no gate.
fn folded(a: Lit, b: Lit) -> Option<Lit>
    ensures { IfSome result (Folds a b) }
{
    if a.0 == 0 || b.0 == 0 || inverse(a).0 == b.0 {
        return Some(Lit(0));
    }
    if a.0 == 1 {
        return Some(b);
    }
    if b.0 == 1 || a.0 == b.0 {
        return Some(a);
    }
    None
}
