//! From a netlist to a bit-level circuit.

ghost use Rattle.std.specs.Prelude.{◌*◌, ◌≤◌, ◌<◌, length, IfOk};
ghost use Rattle.safl_aig.specs.Weights.{weight, most_weight, AllZero};
ghost use Rattle.safl_aig.specs.Mirrors.{Mirrors, SameBits};
ghost use Rattle.safl_aig.specs.Places.{HasNames, Answers};

use crate::places::{names, next_lits, output_lits};
use crate::table::count_bits;
use crate::weights::{first_nonzero, weight};
use crate::wiring::{Wiring, connect};
use safl_aiger::Aig;
use safl_net::{Sig, SigKind};
use safl_order::Ordered;
use safl_word::NoMemory;
use std::alloc::Global;

/// The greatest weight of a net that `blast` converts.
pub const WEIGHT_MAX: u64 = 1_000_000;

/// Why `blast` makes no bit-level circuit of a net.
#[derive(Clone, Copy, Debug, PartialEq, Eq)]
pub enum BlastErr {
    /// The first register whose word at reset is not 0.
    InitNotZero(Sig),
    /// The net's weight, which is above `WEIGHT_MAX`.
    TooLarge(u64),
    NoMemory,
}

/// The bit-level circuit of a net. For every list of inputs, in every cycle, each bit of each register and output has
/// the value that it has in the net.
pub fn blast(alloc: Global, o: &Ordered) -> Result<Aig, BlastErr>
    ensures answers { Answers o.now.net result }
    ensures mirrors { IfOk result (λ a. Mirrors o.now.net a) }
    ensures same { IfOk result (λ a. SameBits o.now.net a) }
    ensures named { IfOk result (λ a. HasNames o.now.net a) }
    ensures few { IfOk result (λ a. length a.ands ≤ 16 * weight o.now.net) }
{
    let net = o.net();
    if let Some(s) = first_nonzero(net) {
        return Err(BlastErr::InitNotZero(s));
    }
    let weight = weight(net);
    if weight > WEIGHT_MAX {
        return Err(BlastErr::TooLarge(weight));
    }
    match circuit(alloc, o) {
        Ok(a) => Ok(a),
        Err(NoMemory) => Err(BlastErr::NoMemory),
    }
}

// The circuit of a net that is within the limit of weight and whose registers are all 0 at reset.
fn circuit(alloc: Global, o: &Ordered) -> Result<Aig, NoMemory>
    requires zero { AllZero o.now.net }
    requires light { weight o.now.net ≤ most_weight }
    ensures mirrors { IfOk result (λ a. Mirrors o.now.net a) }
    ensures same { IfOk result (λ a. SameBits o.now.net a) }
    ensures named { IfOk result (λ a. HasNames o.now.net a) }
    ensures few { IfOk result (λ a. length a.ands ≤ 16 * weight o.now.net) }
{
    let net = o.net();
    let _count = net.signals();
    let inputs = count_bits(net, SigKind::Input) as u32;
    let latches = count_bits(net, SigKind::Reg) as u32;
    let Wiring { graph, table } = connect(alloc, o, inputs, latches)?;
    let nexts = next_lits(alloc, net, &table)?;
    let outputs = output_lits(alloc, net, &table)?;
    let ands = graph.ands(alloc)?;
    let names = names(alloc, net)?;
    Ok(Aig::new(nexts, outputs, ands, names))
}
