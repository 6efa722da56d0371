//! The circuit of a checked program.

ghost use Rattle.std.specs.Prelude.{◌≡◌, ◌≤◌, length, IfOk};
ghost use Rattle.safl_net.specs.Names.{IsTidy};
ghost use Rattle.safl_net.specs.Whole.{IsWhole};
ghost use Rattle.safl_net.specs.Arranged.{IsInOrder};
ghost use Rattle.safl_net.specs.Arguments.{argument_widths};
ghost use Rattle.safl_compiler.specs.Circuits.{IsCircuitOf};

use safl_net::Net;
use safl_sites::{Planned, plan};
use safl_term::Checked;
use safl_unit::{SIGNALS_MAX, compile};
use safl_word::NoMemory;
use std::alloc::Global;

/// The netlist of a checked program. It has arbiters and kept words exactly where its plan says. Fails only if out of
/// memory.
pub fn circuit_of(alloc: Global, checked: Checked) -> Result<Net, NoMemory>
    ensures circuit { IfOk result (λ n. IsCircuitOf checked.program checked.names n) }
    ensures tidy { IfOk result (λ n. IsTidy n) }
    ensures whole { IfOk result IsWhole }
    ensures in_order { IfOk result IsInOrder }
    ensures params { IfOk result (λ n. argument_widths n.signals ≡ checked.program.params checked.program.main) }
    ensures count { IfOk result (λ n. length n.signals ≤ SIGNALS_MAX) }
{
    let planned = plan_of(alloc, checked)?;
    planned_circuit(alloc, &planned)
}

/// A checked program with its plan. Fails only if out of memory.
pub fn plan_of(alloc: Global, checked: Checked) -> Result<Planned, NoMemory>
    ensures { IfOk result (λ p. p.checked ≡ checked) }
{
    match plan(alloc, checked) {
        Ok(planned) => Ok(planned),
        Err(_) => Err(NoMemory),
    }
}

/// The netlist of a program by its plan. It has arbiters and kept words exactly where the plan says. Fails only if out
/// of memory.
#[tactic(auto, using(crate::proofs::Ports::ports))]
pub fn planned_circuit(alloc: Global, p: &Planned) -> Result<Net, NoMemory>
    ensures circuit { IfOk result (λ n. IsCircuitOf p.now.program p.now.names n) }
    ensures tidy { IfOk result (λ n. IsTidy n) }
    ensures whole { IfOk result IsWhole }
    ensures in_order { IfOk result IsInOrder }
    ensures params { IfOk result (λ n. argument_widths n.signals ≡ p.now.program.params p.now.program.main) }
    ensures count { IfOk result (λ n. length n.signals ≤ SIGNALS_MAX) }
{
    let _checked = p.checked();
    let circuit = compile(alloc, p)?;
    Ok(circuit.into_net())
}
