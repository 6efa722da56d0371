//! Trees of gates: bits and loads are joined by halves, so that few gates follow one another.

ghost use Rattle.std.specs.Prelude.{◌≡◌, ℕ, ◌*◌, ◌<◌, ◌≤◌, ◌^◌, List, length, Some, IfOk, OnOk};
ghost use Rattle.safl_net.specs.Names.{IsTidy};
ghost use Rattle.safl_net.specs.Growth.{Val, Wired};
ghost use Rattle.safl_net.specs.Bits.{on};
ghost use Rattle.safl_lower.specs.Sources.{IsSource, Builds, CanGrow};
ghost use Rattle.safl_lower.specs.Tables.{taken, LoadFits};
ghost use Rattle.safl_lower.specs.Heights.{Within, AllWithin, own_parts, parts};
ghost use Rattle.safl_lower.specs.Joints.{IsAnyOf, IsSeveralOf, AddsFrees};
ghost use Rattle.safl_lower.specs.Rows.{AreBits, on_any, AllFit, first_taken, bit_joins, load_joins};

use crate::gates::{both, either, inverse, or_some};
use crate::loads::{Load, joined};
use safl_net::{Net, Sig};
use safl_word::NoMemory;
use std::alloc::Global;

/// The bit that is 1 if one of these is. With at most 2^h bits, its depth above them is at most h gates.
pub fn any_of(net: &mut Net, bits: &[Sig]) -> Result<Sig, NoMemory>
    requires some { 0 < length bits.now }
    requires bits { AreBits net.old bits.now }
    requires room { CanGrow net.old (bit_joins bits.now) }
    ensures tidy { IsTidy net.new }
    ensures built { OnOk result (Builds net.old net.new (bit_joins bits.now)) }
    ensures fits { IfOk result (λ s. IsSource net.new s 1) }
    ensures value { IfOk result (λ s. (v : Val) → Wired net.new v → on v s ≡ on_any v bits.now) }
    ensures height { (h : ℕ) → length bits.now ≤ 2 ^ h → IfOk result (λ s. Within net.new bits.now h s.0) }
{
    if bits.len() == 1 {
        return Ok(bits[0]);
    }
    let (low, high) = bits.split_at(bits.len() / 2);
    let a = any_of(net, low)?;
    let b = any_of(net, high)?;
    let any = either(net, a, b)?;
    Ok(any)
}

/// Whether one of several bits is 1, and whether two are. A single bit has no second signal.
#[derive(Clone, Copy)]
pub struct Several {
    pub any: Sig,
    pub two: Option<Sig>,
}

/// Whether one of these bits is 1, and whether two are.
pub fn several_of(net: &mut Net, bits: &[Sig]) -> Result<Several, NoMemory>
    requires some { 0 < length bits.now }
    requires bits { AreBits net.old bits.now }
    requires room { CanGrow net.old (4 * bit_joins bits.now) }
    ensures tidy { IsTidy net.new }
    ensures built { OnOk result (Builds net.old net.new (4 * bit_joins bits.now)) }
    ensures joined { IfOk result (λ s. IsSeveralOf net.new bits.now s) }
{
    if bits.len() == 1 {
        return Ok(Several {
            any: bits[0],
            two: None,
        });
    }
    let (left, right) = bits.split_at(bits.len() / 2);
    let a = several_of(net, left)?;
    let b = several_of(net, right)?;
    let any = either(net, a.any, b.any)?;
    let pair = both(net, a.any, b.any)?;
    let first = or_some(net, a.two, pair)?;
    let two = or_some(net, b.two, first)?;
    Ok(Several {
        any,
        two: Some(two),
    })
}

/// The bit that is 1 if one of these is; and for each of them the bit that is 1 if `free` is and none of the bits
/// before it. With at most 2^h bits, the first result is at most h gates above them. The others are at most h gates
/// above `free`, if that is h gates or more above the bits.
pub fn free_before(
    net: &mut Net,
    bits: &[Sig],
    free: Sig,
    out: &mut Vec<Sig>,
) -> Result<Sig, NoMemory>
    requires some { 0 < length bits.now }
    requires bits { AreBits net.old bits.now }
    requires free { IsSource net.old free 1 }
    requires out { AreBits net.old out.old.items }
    requires room { CanGrow net.old (3 * bit_joins bits.now) }
    ensures tidy { IsTidy net.new }
    ensures built { OnOk result (Builds net.old net.new (3 * bit_joins bits.now)) }
    ensures any { IfOk result (λ s. IsAnyOf net.new bits.now (Some s)) }
    ensures frees { OnOk result (AddsFrees net.old net.new bits.now free out.old.items out.new.items) }
{
    if bits.len() == 1 {
        out.push(free)?;
        return Ok(bits[0]);
    }
    let (before, after) = bits.split_at(bits.len() / 2);
    let a = free_before(net, before, free, out)?;
    let rest = inverse(net, a)?;
    let still = both(net, free, rest)?;
    let b = free_before(net, after, still, out)?;
    let any = either(net, a, b)?;
    Ok(any)
}

/// The first of several loads that is taken, as one load. With at most 2^h loads, its bit and words are at most h gates
/// above theirs.
pub fn first_of(alloc: Global, net: &mut Net, loads: &[Load]) -> Result<Load, NoMemory>
    requires some { 0 < length loads.now }
    requires fits { (ws : List ℕ) × AllFit net.old loads.now ws }
    requires room { CanGrow net.old (load_joins loads.now) }
    ensures tidy { IsTidy net.new }
    ensures built { OnOk result (Builds net.old net.new (load_joins loads.now)) }
    ensures fits { (ws : List ℕ) → AllFit net.old loads.now ws → IfOk result (λ l. LoadFits net.new l ws) }
    ensures shows { IfOk result (λ l. (v : Val) → Wired net.new v → taken v l ≡ first_taken v loads.now) }
    ensures height { (h : ℕ) → length loads.now ≤ 2 ^ h → IfOk result (λ l. AllWithin net.new (parts loads.now) h (own_parts l)) }
{
    if loads.len() == 1 {
        let words = Vec::from_slice(alloc, &loads[0].words)?;
        return Ok(Load {
            bit: loads[0].bit,
            words,
        });
    }
    let (low, high) = loads.split_at(loads.len() / 2);
    let a = first_of(alloc, net, low)?;
    let b = first_of(alloc, net, high)?;
    let first = Some(a);
    let all = joined(alloc, net, &first, b.bit, &b.words)?;
    Ok(all)
}
