//! The optimised circuit of a checked program.

ghost use Rattle.std.specs.Prelude.{◌≡◌, IfOk};
ghost use Rattle.safl_net.specs.Arranged.{IsInOrder};
ghost use Rattle.safl_net.specs.Netlist.{AllSet};
ghost use Rattle.safl_net.specs.Valuations.{IsAcyclic};
ghost use Rattle.safl_net.specs.Whole.{IsWhole};
ghost use Rattle.safl_compiler.specs.Circuits.{IsCircuitOf};
ghost use Rattle.safl_compiler.specs.Optimised.{IsSmallerOf};

use crate::circuit::circuit_of;
use safl_circuit::laws::{circuit_law, plan_carries_over, scheme_carries_over};
use safl_net::Net;
use safl_opt::optimise;
use safl_order::laws::loops_are_cyclic;
use safl_order::{OrderErr, Ordered, order};
use safl_sites::laws::plan_law;
use safl_term::Checked;
use safl_word::NoMemory;
use std::alloc::Global;

/// The netlist of a checked program without the temporary wires that can be spared. Like the netlist that it is made
/// of, it has arbiters and kept words exactly where the plan says, and computes what the program means. Fails only if
/// out of memory.
pub fn optimised_circuit_of(alloc: Global, checked: Checked) -> Result<Net, NoMemory>
    ensures circuit { IfOk result (λ n. IsCircuitOf checked.program checked.names n) }
    ensures smaller { IfOk result (IsSmallerOf checked.program checked.names) }
    ensures whole { IfOk result IsWhole }
    ensures in_order { IfOk result IsInOrder }
{
    plan_law();
    circuit_law();
    scheme_carries_over();
    plan_carries_over();
    let _functions = checked.functions();
    let first = circuit_of(alloc, checked)?;
    let _count = first.signals();
    let ordered = ordered(alloc, first)?;
    match optimise(alloc, ordered) {
        Ok(net) => {
            let _signals = net.signals();
            Ok(net)
        }
        Err(_) => Err(NoMemory),
    }
}

/// A circuit with an order of evaluation of its wires. Fails only if out of memory.
pub fn ordered(alloc: Global, net: Net) -> Result<Ordered, NoMemory>
    requires set { AllSet net }
    requires acyclic { IsAcyclic net }
    ensures { IfOk result (λ o. o.net ≡ net) }
{
    loops_are_cyclic();
    match order(alloc, net) {
        Ok(ordered) => Ok(ordered),
        Err(OrderErr::Loop(_, _)) => unreachable!(),
        Err(OrderErr::Unset(_, _)) => unreachable!(),
        Err(OrderErr::NoMemory(_)) => Err(NoMemory),
    }
}
