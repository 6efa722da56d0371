//! The optimiser.

ghost use Rattle.std.specs.Prelude.{◌≡◌, ◌<◌, ◌^◌, length, IfOk, IfErr};
ghost use Rattle.safl_net.specs.Names.{IsTidy};
ghost use Rattle.safl_opt.specs.Smaller.{IsSmaller};

use crate::build::build;
use crate::fold::fold;
use crate::live::read_values;
use safl_net::Net;
use safl_order::Ordered;
use safl_word::NoMemory;
use std::alloc::Global;

/// A smaller net that does the same: constants are folded, equal cells shared, copies followed, choices by constants
/// made, and temporary wires that nothing reads left out. Inputs, registers, named wires and outputs stay. They are in
/// the same order, before all temporary wires, and have the same words in every cycle. Time and memory are linear,
/// apart from the table of cells. `Err` comes only if out of memory, and hands the net back as it was.
pub fn optimise(alloc: Global, o: Ordered) -> Result<Net, Ordered>
    requires few { length o.net.signals < 2 ^ 31 }
    requires tidy { IsTidy o.net }
    ensures smaller { IfOk result (λ m. IsSmaller o.net m) }
    ensures refused { IfErr result (λ e. e ≡ o) }
{
    match smaller(alloc, &o) {
        Ok(net) => Ok(net),
        Err(_) => Err(o),
    }
}

fn smaller(alloc: Global, o: &Ordered) -> Result<Net, NoMemory>
    requires few { length o.now.net.signals < 2 ^ 31 }
    requires tidy { IsTidy o.now.net }
    ensures { IfOk result (λ m. IsSmaller o.now.net m) }
{
    let net = o.net();
    let _count = net.signals();
    let values = fold(alloc, net, o.wires())?;
    let _nodes = values.nodes.len();
    let read = read_values(alloc, net, &values)?;
    build(alloc, net, &values, read.as_slice())
}
