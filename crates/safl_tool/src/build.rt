//! The command `build IN OUT [--opt]`: the Verilog text of a source's circuit.

ghost use Rattle.std.specs.Prelude.{◌≤◌, IfOk, IfErr, length};
ghost use Rattle.safl_task.specs.Tasks.{only_writes};
ghost use Rattle.safl_tool.specs.CommandTasks.{GivesCircuit, GivesOptimised, RefusesSourceOf};
ghost use Rattle.safl_word.specs.Limits.{source_max};
ghost use Rattle.safl_tool.specs.Refusals.{RefusesBy};

use crate::refusal::Refusal;
use crate::source::{check_source, compile};
use safl_compiler::optimised_circuit_of;
use safl_verilog::laws::{no_shorter_text_law, written_reads_law};
use safl_vwrite::text_of;
use std::alloc::Global;

/// The Verilog text of the circuit of the source `name`, or why the source is refused.
pub fn circuit_text<'a>(alloc: Global, name: &'a str, source: &[u8]) -> Result<Vec<u8>, Refusal<'a>>
    requires { length source.now ≤ source_max }
    ensures gives { IfOk result (λ text. GivesCircuit source.now (only_writes text.items)) }
    ensures refused { IfErr result (RefusesBy (RefusesSourceOf name.now source.now)) }
{
    let net = compile(alloc, name, source)?;
    written_reads_law();
    no_shorter_text_law();
    Ok(text_of(alloc, &net)?)
}

/// The Verilog text of the optimised circuit of the source `name`, or why the source is refused.
pub fn optimised_text<'a>(
    alloc: Global,
    name: &'a str,
    source: &[u8],
) -> Result<Vec<u8>, Refusal<'a>>
    requires { length source.now ≤ source_max }
    ensures gives { IfOk result (λ text. GivesOptimised source.now (only_writes text.items)) }
    ensures refused { IfErr result (RefusesBy (RefusesSourceOf name.now source.now)) }
{
    let checked = check_source(alloc, name, source)?;
    let net = optimised_circuit_of(alloc, checked)?;
    let _count = net.signals();
    written_reads_law();
    no_shorter_text_law();
    Ok(text_of(alloc, &net)?)
}
