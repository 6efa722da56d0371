//! Tables of bits and words, to whose entries more are joined one after another.
//!
//! Of several loads that are joined, the first that is taken counts.

ghost use Rattle.std.specs.Prelude.{◌≡◌, ℕ, ◌+◌, ◌<◌, ◌++◌, List, ◌∷◌, Some, length, IfOk, OnOk};
ghost use Rattle.std.specs.Option.{option_or};
ghost use Rattle.safl_net.specs.Growth.{Val, words, Wired};
ghost use Rattle.safl_net.specs.Bits.{on, gate};
ghost use Rattle.safl_lower.specs.Sources.{IsSource, AreSources, Builds, CanGrow};
ghost use Rattle.safl_lower.specs.Heights.{AllWithin, own_parts, load_parts};
ghost use Rattle.safl_lower.specs.Tables.{taken, taken_in, LoadFits, FitsIn, SomeFit, BitsFit, JoinsBit, JoinsLoad, KeepsWidths};

use crate::gates::{either, mux_all, or_some};
use safl_net::{Net, Sig};
use safl_word::NoMemory;
use std::alloc::Global;

/// Words that are taken if a bit is 1.
#[derive(Drop)]
pub struct Load {
    pub bit: Sig,
    pub words: Vec<Sig>,
}

/// The load of this bit and these words.
pub fn load_of(alloc: Global, bit: Sig, operands: &[Sig]) -> Result<Load, NoMemory>
    ensures bit { IfOk result (λ l. l.bit ≡ bit) }
    ensures operands { IfOk result (λ l. l.words.items ≡ operands.now) }
{
    let words = Vec::from_slice(alloc, operands)?;
    Ok(Load { bit, words })
}

/// Joins a bit to the one at `place`.
pub fn add_bit(
    net: &mut Net,
    bits: &mut Vec<Option<Sig>>,
    place: usize,
    bit: Sig,
) -> Result<(), NoMemory>
    requires place { place < length bits.old.items }
    requires fits { BitsFit net.old bits.old.items }
    requires bit { IsSource net.old bit 1 }
    requires room { CanGrow net.old 1 }
    ensures built { Builds net.old net.new 1 }
    ensures count { length bits.new.items ≡ length bits.old.items }
    ensures fits { OnOk result (BitsFit net.new bits.new.items) }
    ensures shows { OnOk result (JoinsBit net.new place bit bits.old.items bits.new.items) }
{
    let joined = or_some(net, bits[place], bit)?;
    bits[place] = Some(joined);
    Ok(())
}

/// Joins a load to the one at `place`. If both are taken, the earlier one counts.
pub fn add_load(
    alloc: Global,
    net: &mut Net,
    loads: &mut Vec<Option<Load>>,
    place: usize,
    bit: Sig,
    operands: &[Sig],
) -> Result<(), NoMemory>
    requires place { place < length loads.old.items }
    requires fits { (ws : ℕ → List ℕ) × SomeFit net.old loads.old.items ws × AreSources net.old operands.now (ws place) }
    requires bit { IsSource net.old bit 1 }
    requires room { CanGrow net.old (1 + length operands.now) }
    ensures built { Builds net.old net.new (1 + length operands.now) }
    ensures count { length loads.new.items ≡ length loads.old.items }
    ensures fits { KeepsWidths result net.old net.new place operands.now loads.old.items loads.new.items }
    ensures shows { OnOk result (JoinsLoad net.new place bit operands.now loads.old.items loads.new.items) }
{
    let joined = joined(alloc, net, &loads[place], bit, operands)?;
    loads[place] = Some(joined);
    Ok(())
}

/// A load joined with the one that follows it. If both are taken, the first counts.
pub fn joined(
    alloc: Global,
    net: &mut Net,
    load: &Option<Load>,
    bit: Sig,
    operands: &[Sig],
) -> Result<Load, NoMemory>
    requires fits { (ws : List ℕ) × FitsIn net.old load.now ws × AreSources net.old operands.now ws }
    requires bit { IsSource net.old bit 1 }
    requires room { CanGrow net.old (1 + length operands.now) }
    ensures built { Builds net.old net.new (1 + length operands.now) }
    ensures fits { (ws : List ℕ) → FitsIn net.old load.now ws → AreSources net.old operands.now ws → IfOk result (λ l. LoadFits net.new l ws) }
    ensures shows { IfOk result (λ l. (v : Val) → Wired net.new v
        → taken v l ≡ option_or (taken_in v load.now) (gate (on v bit) (Some (words v operands.now)))) }
    ensures height { IfOk result (λ l. AllWithin net.new (load_parts load.now ++ (bit ∷ operands.now)) 1 (own_parts l)) }
{
    match load {
        None => {
            let words = Vec::from_slice(alloc, operands)?;
            Ok(Load { bit, words })
        }
        Some(first) => {
            let any = either(net, first.bit, bit)?;
            let words = mux_all(alloc, net, first.bit, &first.words, operands)?;
            Ok(Load { bit: any, words })
        }
    }
}
