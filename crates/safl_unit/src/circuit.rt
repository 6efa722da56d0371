//! The circuit of a planned program.

ghost use Rattle.std.specs.Prelude.{◌≡◌, ◌≤◌, length, IfOk};
ghost use Rattle.safl_net.specs.Names.{IsTidy};
ghost use Rattle.safl_net.specs.Valuations.{IsAcyclic};
ghost use Rattle.safl_net.specs.Whole.{IsWhole};
ghost use Rattle.safl_net.specs.Arranged.{IsInOrder};
ghost use Rattle.safl_sites.specs.Plan.{IsPlan};
ghost use Rattle.safl_circuit.specs.Layout.{HasPlan};
ghost use Rattle.safl_circuit.specs.Scheme.{Scheme};
ghost use Rattle.safl_circuit.specs.Theorem.{IsCircuit};

use crate::bodies::lower_bodies;
use crate::controls::controls;
use crate::declare::declare;
use crate::edge::edge;
use crate::finish::finish;
use crate::grants::grants;
use crate::returns::returns;
use safl_circuit::laws::circuit_law;
use safl_net::Net;
use safl_sites::Planned;
use safl_sites::laws::plan_law;
use safl_word::NoMemory;
use std::alloc::Global;
use std::marker::Model;

/// The greatest number of signals of a circuit.
pub const SIGNALS_MAX: u32 = 3_000_000;

/// The circuit of a planned program.
#[derive(Drop)]
pub struct Circuit {
    net: Net,
}

impl Model for Circuit {
    ghost use Rattle.safl_net.specs.Netlist.{Netlist};

    ghost Value = { Netlist };

    ghost view = { λ c. c.net };
}

impl Circuit {
    /// The netlist of the circuit.
    pub fn into_net(self) -> Net
        ensures { result ≡ self }
    {
        self.net
    }
}

/// The circuit of a planned program: the ports, registers and named wires of the layout, with an arbiter at each unit
/// and a kept word at each site that the plan names, and temporaries for all logic. It computes what the program means.
/// Its netlist is whole and free of loops, and has its inputs first, then its registers and then its wires. Fails only
/// if out of memory.
pub fn compile(alloc: Global, p: &Planned) -> Result<Circuit, NoMemory>
    ensures scheme { IfOk result (λ n. Scheme p.now.program p.now.names p.now.choice n) }
    ensures plan { IfOk result (λ n. HasPlan p.now.program p.now.names p.now.choice n) }
    ensures circuit { IfOk result (λ n. IsCircuit p.now.program p.now.names p.now.choice n) }
    ensures tidy { IfOk result (λ n. IsTidy n) }
    ensures whole { IfOk result IsWhole }
    ensures in_order { IfOk result IsInOrder }
    ensures acyclic { IfOk result IsAcyclic }
    ensures count { IfOk result (λ n. length n.signals ≤ SIGNALS_MAX) }
    ensures chosen { IsPlan p.now.program p.now.arbiter p.now.kept }
{
    circuit_law();
    plan_law();
    let declared = declare(alloc, p)?;
    let mut net = declared.net;
    let pins = declared.pins;
    let shown = returns(alloc, &mut net, p, &pins)?;
    let outcomes = lower_bodies(alloc, &mut net, p, &pins, &shown)?;
    let goes = grants(alloc, &mut net, p, &pins, &outcomes)?;
    let starts = goes.as_slice();
    let next = edge(alloc, &mut net, p, &pins, &shown, &outcomes, starts)?;
    let copied = controls(alloc, &mut net, &shown, &outcomes, starts)?;
    finish(alloc, &mut net, p, &pins, &next, &copied)?;
    // the contract of this call says that the net is a netlist
    let _signals = net.signals();
    Ok(Circuit { net })
}
