//! From a netlist to the AIGER text of its bit-level circuit.

ghost use Rattle.std.specs.Prelude.{IfOk, IfErr};
ghost use Rattle.safl_aig.specs.BitLevel.{IsRefused, IsTextOf};

use crate::conversion::{BlastErr, blast};
use safl_aiger::aig_text;
use safl_aiger::laws::written_reads_law;
use safl_order::Ordered;
use safl_word::NoMemory;
use std::alloc::Global;

/// The AIGER text of a net's bit-level circuit, or why the net has none.
pub fn aiger_text(alloc: Global, o: &Ordered) -> Result<Vec<u8>, BlastErr>
    ensures text { IfOk result (λ text. IsTextOf o.now.net text.items) }
    ensures refused { IfErr result (IsRefused o.now.net) }
{
    written_reads_law();
    let circuit = match blast(alloc, o) {
        Ok(circuit) => circuit,
        Err(error) => return Err(error),
    };
    let _inputs = circuit.inputs();
    match aig_text(alloc, &circuit) {
        Ok(text) => Ok(text),
        Err(NoMemory) => Err(BlastErr::NoMemory),
    }
}
