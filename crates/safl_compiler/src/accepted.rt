//! From the bytes of a source to its checked program.

ghost use Rattle.std.specs.Prelude.{◌≤◌, length, IfOk, IfErr};
ghost use Rattle.safl_word.specs.Limits.{source_max};
ghost use Rattle.safl_tree.specs.Shown.{shown_program};
ghost use Rattle.safl_tree.specs.Printable.{IsPrintable};
ghost use Rattle.safl_tree.specs.Source.{SpellsProgram};
ghost use Rattle.safl_typing.specs.Forms.{IsFormOf, shown_form};
ghost use Rattle.safl_compiler.specs.Sources.{HasFewSites, IsSourceOf, RefusesSource};

use safl_check::laws::forms_are_numbered_law;
use safl_check::{CheckErr, check_defs};
use safl_parse::{ParseErr, parse_program};
use safl_term::Checked;
use safl_tree::Program;
use safl_tree::laws::{printable_law, shallow_law};
use safl_typing::laws::one_form_law;
use std::alloc::Global;

/// An accepted program, as a tree and in numbered form.
#[derive(Drop)]
pub struct Accepted {
    pub program: Program,
    pub checked: Checked,
}

/// The checked program of a source of at most `SOURCE_MAX` bytes, or the source's first fault: a fault of tokens or
/// grammar, E01 to E05, or else a fault of checking, E05 to E16.
pub fn accept(alloc: Global, source: &[u8]) -> Result<Checked, CheckErr>
    requires { length source.now ≤ source_max }
    ensures accepted { IfOk result (λ c. IsSourceOf source.now c.program c.names) }
    ensures refused { IfErr result (RefusesSource source.now) }
{
    forms_are_numbered_law();
    let accepted = accepted_program(alloc, source)?;
    Ok(accepted.checked)
}

/// The program that an accepted source of at most `SOURCE_MAX` bytes spells, or the source's first fault.
pub fn accepted_program(alloc: Global, source: &[u8]) -> Result<Accepted, CheckErr>
    requires { length source.now ≤ source_max }
    ensures spelled { IfOk result (λ a. SpellsProgram source.now (shown_program a.program)) }
    ensures printable { IfOk result (λ a. IsPrintable (shown_program a.program)) }
    ensures form { IfOk result (λ a. IsFormOf (shown_program a.program) (shown_form a.checked)) }
    ensures few { IfOk result (λ a. HasFewSites (shown_program a.program)) }
    ensures refused { IfErr result (RefusesSource source.now) }
{
    printable_law();
    shallow_law();
    one_form_law();
    forms_are_numbered_law();
    let program = spelled(alloc, source)?;
    let checked = check_defs(alloc, &program.defs)?;
    Ok(Accepted { program, checked })
}

// The program that a source spells, or its first fault of tokens or grammar.
fn spelled(alloc: Global, source: &[u8]) -> Result<Program, CheckErr>
    requires { length source.now ≤ source_max }
    ensures spelled { IfOk result (λ p. SpellsProgram source.now (shown_program p)) }
    ensures refused { IfErr result (RefusesSource source.now) }
{
    match parse_program(alloc, source) {
        Ok(program) => Ok(program),
        Err(ParseErr::Refused(fault)) => Err(CheckErr::Refused(fault)),
        Err(ParseErr::NoMemory) => Err(CheckErr::NoMemory),
    }
}
