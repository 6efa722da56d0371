//! The command `report IN`: the plan of a source, and the registers of its circuit.

ghost use Rattle.std.specs.Prelude.{◌≤◌, IfOk, IfErr, length};
ghost use Rattle.safl_tool.specs.Answers.{printed};
ghost use Rattle.safl_tool.specs.CommandTasks.{RefusesSourceOf};
ghost use Rattle.safl_word.specs.Limits.{source_max};
ghost use Rattle.safl_tool.specs.Refusals.{RefusesBy};
ghost use Rattle.safl_tool.specs.Reporting.{GivesReport, Reports};

use crate::answer::Lines;
use crate::refusal::Refusal;
use crate::source::plan_source;
use safl_compiler::planned_circuit;
use safl_report::report;
use safl_sites::Planned;
use safl_word::NoMemory;
use std::alloc::Global;

/// The report of the source `name`, or why the source is refused.
pub fn report_lines<'a>(alloc: Global, name: &'a str, source: &[u8]) -> Result<Lines, Refusal<'a>>
    requires { length source.now ≤ source_max }
    ensures gives { IfOk result (λ l. GivesReport source.now (printed l)) }
    ensures refused { IfErr result (RefusesBy (RefusesSourceOf name.now source.now)) }
{
    let planned = plan_source(alloc, name, source)?;
    let text = report_of(alloc, &planned)?;
    Ok(Lines { comes: true, text })
}

fn report_of(alloc: Global, p: &Planned) -> Result<Vec<u8>, NoMemory>
    ensures { IfOk result (λ text. Reports p.now.checked.program p.now.checked.names text.items) }
{
    let net = planned_circuit(alloc, p)?;
    report(alloc, p, &net)
}
