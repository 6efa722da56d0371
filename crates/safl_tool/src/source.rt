//! From a source to its program and its circuit.

ghost use Rattle.std.specs.Prelude.{◌≡◌, ◌≤◌, length, IfOk, IfErr};
ghost use Rattle.safl_compiler.specs.Sources.{HasFewSites, IsSourceOf};
ghost use Rattle.safl_tree.specs.Printable.{IsPrintable};
ghost use Rattle.safl_tree.specs.Shown.{shown_program};
ghost use Rattle.safl_tree.specs.Source.{SpellsProgram};
ghost use Rattle.safl_typing.specs.Forms.{IsFormOf, shown_form};
ghost use Rattle.safl_tool.specs.CommandTasks.{RefusesSourceOf};
ghost use Rattle.safl_word.specs.Limits.{source_max};
ghost use Rattle.safl_tool.specs.Lines.{source_line};
ghost use Rattle.safl_tool.specs.Refusals.{RefusesBy, status_of, line_of};
ghost use Rattle.safl_tool.specs.Sources.{IsCompiled};

use crate::refusal::{Refusal, column_number, line_number};
use safl_compiler::{Accepted, CheckErr, accept, accepted_program, circuit_of, plan_of};
use safl_net::Net;
use safl_sites::Planned;
use safl_task::Status;
use safl_term::Checked;
use safl_word::Fault;
use std::alloc::Global;

/// The checked program of the source `name`, or why the source is refused.
pub fn check_source<'a>(alloc: Global, name: &'a str, source: &[u8]) -> Result<Checked, Refusal<'a>>
    requires { length source.now ≤ source_max }
    ensures accepted { IfOk result (λ c. IsSourceOf source.now c.program c.names) }
    ensures refused { IfErr result (RefusesBy (RefusesSourceOf name.now source.now)) }
{
    match accept(alloc, source) {
        Ok(checked) => Ok(checked),
        Err(CheckErr::Refused(fault)) => Err(refusal_of(name, source, fault)),
        Err(CheckErr::TooDeep) => unreachable!(),
        Err(CheckErr::NoMemory) => Err(Refusal::NoMemory),
    }
}

/// The circuit of the source `name`, or why the source is refused.
pub fn compile<'a>(alloc: Global, name: &'a str, source: &[u8]) -> Result<Net, Refusal<'a>>
    requires { length source.now ≤ source_max }
    ensures compiled { IfOk result (IsCompiled source.now) }
    ensures refused { IfErr result (RefusesBy (RefusesSourceOf name.now source.now)) }
{
    let checked = check_source(alloc, name, source)?;
    let net = circuit_of(alloc, checked)?;
    let _count = net.signals();
    Ok(net)
}

/// The planned program of the source `name`, or why the source is refused.
pub fn plan_source<'a>(alloc: Global, name: &'a str, source: &[u8]) -> Result<Planned, Refusal<'a>>
    requires { length source.now ≤ source_max }
    ensures planned { IfOk result (λ p. IsSourceOf source.now p.program p.names) }
    ensures refused { IfErr result (RefusesBy (RefusesSourceOf name.now source.now)) }
{
    let checked = check_source(alloc, name, source)?;
    Ok(plan_of(alloc, checked)?)
}

/// The program that the source `name` spells, or why the source is refused.
pub fn read_program<'a>(
    alloc: Global,
    name: &'a str,
    source: &[u8],
) -> Result<Accepted, Refusal<'a>>
    requires { length source.now ≤ source_max }
    ensures spelled { IfOk result (λ a. SpellsProgram source.now (shown_program a.program)) }
    ensures printable { IfOk result (λ a. IsPrintable (shown_program a.program)) }
    ensures form { IfOk result (λ a. IsFormOf (shown_program a.program) (shown_form a.checked)) }
    ensures few { IfOk result (λ a. HasFewSites (shown_program a.program)) }
    ensures refused { IfErr result (RefusesBy (RefusesSourceOf name.now source.now)) }
{
    match accepted_program(alloc, source) {
        Ok(accepted) => Ok(accepted),
        Err(CheckErr::Refused(fault)) => Err(refusal_of(name, source, fault)),
        Err(CheckErr::TooDeep) => unreachable!(),
        Err(CheckErr::NoMemory) => Err(Refusal::NoMemory),
    }
}

fn refusal_of<'a>(name: &'a str, source: &[u8], fault: Fault) -> Refusal<'a>
    ensures status { status_of result ≡ Status.SourceRefused }
    ensures line { line_of result ≡ source_line name.now source.now fault }
{
    let place = fault.place as usize;
    Refusal::Source(
        name,
        fault,
        line_number(source, place),
        column_number(source, place),
    )
}
