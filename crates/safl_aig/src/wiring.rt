//! The literals of all signals of a net.

ghost use Rattle.std.specs.Prelude.{◌≡◌, ◌+◌, ◌<◌, ◌≤◌, IfOk};
ghost use Rattle.safl_aig.specs.Weights.{weight};
ghost use Rattle.safl_aig.specs.Tables.{input_count, latch_count};
ghost use Rattle.safl_aig.specs.Wiring.{Connected};

use crate::table::{Pins, sources};
use crate::wires::wire_bits;
use safl_bits::Graph;
use safl_order::Ordered;
use std::alloc::{AllocError, Global};

/// The literals of all signals, and the ANDs that compute them.
#[derive(Drop)]
pub struct Wiring {
    pub graph: Graph,
    pub table: Vec<Pins>,
}

/// Connects all signals of a net. `inputs` and `latches` are the numbers of bits of its inputs and registers.
pub fn connect(alloc: Global, o: &Ordered, inputs: u32, latches: u32) -> Result<Wiring, AllocError>
    requires inputs { inputs ≡ input_count o.now.net }
    requires latches { latches ≡ latch_count o.now.net }
    requires light { weight o.now.net ≤ 1000000 }
    ensures { IfOk result (λ w. Connected o.now.net w.graph w.table.items) }
{
    let net = o.net();
    let _count = net.signals();
    let wires = o.wires();
    let mut table = sources(alloc, net, inputs)?;
    let mut graph = Graph::new(alloc, 1 + inputs + latches);
    'wires: for i in 0..wires.len() {
        let bits = wire_bits(alloc, &mut graph, net, &table, wires[i])?;
        table[wires[i].0 as usize] = Pins { bits };
    }
    Ok(Wiring { graph, table })
}
