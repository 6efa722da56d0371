//! Gates: one temporary each, over signals that the temporaries of a body may read.

ghost use Rattle.std.specs.Prelude.{◌≡◌, ℕ, ◌+◌, ◌&&◌, ◌||◌, List, [], ◌∷◌, ◌++◌, not, cond, false, length, Some, IfOk};
ghost use Rattle.safl_word.specs.Primitives.{apply_prim};
ghost use Rattle.safl_net.specs.Widths.{op_width, prim_width};
ghost use Rattle.safl_net.specs.Valuations.{cell_word};
ghost use Rattle.safl_net.specs.Growth.{Val, words, Wired};
ghost use Rattle.safl_net.specs.Bits.{on};
ghost use Rattle.safl_lower.specs.Sources.{IsSource, AreSources, Builds, CanGrow};
ghost use Rattle.safl_lower.specs.Operations.{CanOperate, GivesWord};
ghost use Rattle.safl_lower.specs.Tables.{IsBitIn, on_in};
ghost use Rattle.safl_lower.specs.Rows.{maybe_one};
ghost use Rattle.safl_lower.specs.Heights.{IsGateOf, Within, AllWithin};

use safl_net::{Net, Op, Sig};
use safl_word::{NoMemory, Primitive, Word};
use std::alloc::Global;

// Adds a temporary with this cell.
fn cell(net: &mut Net, op: Op, operands: &[Sig]) -> Result<Sig, NoMemory>
    requires operands { CanOperate net.old (op_width op) operands.now }
    requires room { CanGrow net.old 1 }
    ensures built { Builds net.old net.new 1 }
    ensures word { GivesWord result net.old net.new (op_width op) (cell_word op) operands.now }
    ensures gate { IfOk result (λ s. IsGateOf net.new s operands.now) }
{
    net.temp(op, operands)
}

/// A constant word.
pub fn constant(net: &mut Net, word: Word) -> Result<Sig, NoMemory>
    requires room { CanGrow net.old 1 }
    ensures built { Builds net.old net.new 1 }
    ensures fits { IfOk result (λ s. IsSource net.new s word.width) }
    ensures value { IfOk result (λ s. (v : Val) → Wired net.new v → v s.0 ≡ word) }
{
    cell(net, Op::Const(word), &[])
}

/// The result of a primitive other than `Ext`, which has no cell.
pub fn operate(net: &mut Net, primitive: Primitive, operands: &[Sig]) -> Result<Sig, NoMemory>
    requires operands { CanOperate net.old (prim_width primitive) operands.now }
    requires room { CanGrow net.old 1 }
    ensures built { Builds net.old net.new 1 }
    ensures word { GivesWord result net.old net.new (prim_width primitive) (apply_prim primitive) operands.now }
    ensures gate { IfOk result (λ s. IsGateOf net.new s operands.now) }
{
    cell(net, Op::Apply(primitive), operands)
}

/// The bit that is always 0.
pub fn zero(net: &mut Net) -> Result<Sig, NoMemory>
    requires room { CanGrow net.old 1 }
    ensures built { Builds net.old net.new 1 }
    ensures fits { IfOk result (λ s. IsSource net.new s 1) }
    ensures value { IfOk result (λ s. (v : Val) → Wired net.new v → on v s ≡ false) }
{
    constant(net, Word::from_low_bits(1, 0))
}

/// The bit that is 1 if `a` is 0.
pub fn inverse(net: &mut Net, a: Sig) -> Result<Sig, NoMemory>
    requires bit { IsSource net.old a 1 }
    requires room { CanGrow net.old 1 }
    ensures built { Builds net.old net.new 1 }
    ensures fits { IfOk result (λ s. IsSource net.new s 1) }
    ensures value { IfOk result (λ s. (v : Val) → Wired net.new v → on v s ≡ not (on v a)) }
    ensures gate { IfOk result (λ s. IsGateOf net.new s (a ∷ [])) }
{
    operate(net, Primitive::Not, &[a])
}

/// The bit that is 1 if `a` and `b` are.
pub fn both(net: &mut Net, a: Sig, b: Sig) -> Result<Sig, NoMemory>
    requires first { IsSource net.old a 1 }
    requires second { IsSource net.old b 1 }
    requires room { CanGrow net.old 1 }
    ensures built { Builds net.old net.new 1 }
    ensures fits { IfOk result (λ s. IsSource net.new s 1) }
    ensures value { IfOk result (λ s. (v : Val) → Wired net.new v → on v s ≡ (on v a && on v b)) }
    ensures gate { IfOk result (λ s. IsGateOf net.new s (a ∷ b ∷ [])) }
{
    operate(net, Primitive::And, &[a, b])
}

/// The bit that is 1 if `a` or `b` is.
pub fn either(net: &mut Net, a: Sig, b: Sig) -> Result<Sig, NoMemory>
    requires first { IsSource net.old a 1 }
    requires second { IsSource net.old b 1 }
    requires room { CanGrow net.old 1 }
    ensures built { Builds net.old net.new 1 }
    ensures fits { IfOk result (λ s. IsSource net.new s 1) }
    ensures value { IfOk result (λ s. (v : Val) → Wired net.new v → on v s ≡ (on v a || on v b)) }
    ensures gate { IfOk result (λ s. IsGateOf net.new s (a ∷ b ∷ [])) }
{
    operate(net, Primitive::Or, &[a, b])
}

/// The bit that is 1 if `a` is 1 and `b` is 0.
pub fn and_not(net: &mut Net, a: Sig, b: Sig) -> Result<Sig, NoMemory>
    requires first { IsSource net.old a 1 }
    requires second { IsSource net.old b 1 }
    requires room { CanGrow net.old 2 }
    ensures built { Builds net.old net.new 2 }
    ensures fits { IfOk result (λ s. IsSource net.new s 1) }
    ensures value { IfOk result (λ s. (v : Val) → Wired net.new v → on v s ≡ (on v a && not (on v b))) }
{
    let other = inverse(net, b)?;
    both(net, a, other)
}

/// The bit that is 1 if `a` is 1 or `b` is 0.
pub fn or_not(net: &mut Net, a: Sig, b: Sig) -> Result<Sig, NoMemory>
    requires first { IsSource net.old a 1 }
    requires second { IsSource net.old b 1 }
    requires room { CanGrow net.old 2 }
    ensures built { Builds net.old net.new 2 }
    ensures fits { IfOk result (λ s. IsSource net.new s 1) }
    ensures value { IfOk result (λ s. (v : Val) → Wired net.new v → on v s ≡ (on v a || not (on v b))) }
{
    let other = inverse(net, b)?;
    either(net, a, other)
}

/// The word `a` if `c` is 1, else `b`.
pub fn mux(net: &mut Net, c: Sig, a: Sig, b: Sig) -> Result<Sig, NoMemory>
    requires test { IsSource net.old c 1 }
    requires branches { (w : ℕ) × IsSource net.old a w × IsSource net.old b w }
    requires room { CanGrow net.old 1 }
    ensures built { Builds net.old net.new 1 }
    ensures fits { (w : ℕ) → IsSource net.old a w → IsSource net.old b w → IfOk result (λ s. IsSource net.new s w) }
    ensures value { IfOk result (λ s. (v : Val) → Wired net.new v → v s.0 ≡ cond (on v c) (v a.0) (v b.0)) }
    ensures gate { IfOk result (λ s. IsGateOf net.new s (c ∷ a ∷ b ∷ [])) }
{
    cell(net, Op::Mux, &[c, a, b])
}

/// The words `a` if `c` is 1, else the words `b`.
pub fn mux_all(
    alloc: Global,
    net: &mut Net,
    c: Sig,
    a: &[Sig],
    b: &[Sig],
) -> Result<Vec<Sig>, NoMemory>
    requires test { IsSource net.old c 1 }
    requires branches { (ws : List ℕ) × AreSources net.old a.now ws × AreSources net.old b.now ws }
    requires room { CanGrow net.old (length a.now) }
    ensures built { Builds net.old net.new (length a.now) }
    ensures fits { (ws : List ℕ) → AreSources net.old a.now ws → AreSources net.old b.now ws → IfOk result (λ xs. AreSources net.new xs.items ws) }
    ensures value { IfOk result (λ xs. (v : Val) → Wired net.new v → words v xs.items ≡ cond (on v c) (words v a.now) (words v b.now)) }
    ensures height { IfOk result (λ xs. AllWithin net.new (c ∷ (a.now ++ b.now)) 1 xs.items) }
{
    let mut all = Vec::new(alloc);
    for i in 0..a.len() {
        let next = mux(net, c, a[i], b[i])?;
        all.push(next)?;
    }
    Ok(all)
}

/// The bit that is 1 if `a` or `b` is. It is `b` itself if there is no `a`.
pub fn or_some(net: &mut Net, a: Option<Sig>, b: Sig) -> Result<Sig, NoMemory>
    requires first { IsBitIn net.old a }
    requires second { IsSource net.old b 1 }
    requires room { CanGrow net.old 1 }
    ensures built { Builds net.old net.new 1 }
    ensures fits { IfOk result (λ s. IsSource net.new s 1) }
    ensures value { IfOk result (λ s. (v : Val) → Wired net.new v → on v s ≡ (on_in v a || on v b)) }
    ensures height { IfOk result (λ s. Within net.new (maybe_one a ++ b ∷ []) 1 s.0) }
{
    match a {
        None => Ok(b),
        Some(a) => either(net, a, b),
    }
}

/// The bit that is 1 if `a` is 1 and `b` is 0. It is `a` itself if there is no `b`.
pub fn and_none(net: &mut Net, a: Sig, b: Option<Sig>) -> Result<Sig, NoMemory>
    requires first { IsSource net.old a 1 }
    requires second { IsBitIn net.old b }
    requires room { CanGrow net.old 2 }
    ensures built { Builds net.old net.new 2 }
    ensures fits { IfOk result (λ s. IsSource net.new s 1) }
    ensures value { IfOk result (λ s. (v : Val) → Wired net.new v → on v s ≡ (on v a && not (on_in v b))) }
{
    match b {
        None => Ok(a),
        Some(b) => and_not(net, a, b),
    }
}
