//! Sources with the programs that they spell.

ghost use Rattle.std.specs.Prelude.{◌≡◌, ◌≤◌, length, List, IfOk, IfErr};
ghost use Rattle.safl_word.specs.Limits.{source_max};
ghost use Rattle.safl_word.specs.declared.fault.Fault.{Fault};
ghost use Rattle.safl_tree.specs.Tree.{Definition};
ghost use Rattle.safl_tree.specs.Shown.{shown_program};
ghost use Rattle.safl_tree.specs.Source.{SpellsProgram, SyntaxFault};
ghost use Rattle.safl_parse.specs.Spelled.{program_of};
ghost use Rattle.safl_parse.specs.Answers.{Spells, RefusedFirst, SpelledUnlessNoMemory, FaultUnlessNoMemory};
ghost use Rattle.safl_parse.specs.TokenAnswers.{IsProgramUnlessNoMemory, IsFaultUnlessNoMemory};

use crate::syntax::{ParseErr, parse_tokens};
use safl_text::lex;
use safl_tree::Program;
use std::alloc::Global;

/// A source, and the program that it spells.
#[derive(Drop)]
pub struct Parsed {
    source: Vec<u8>,
    program: Program,
}

impl Parsed {
    /// The program.
    pub fn program(&self) -> &Program
        ensures { shown_program result.now ≡ program_of self.now }
    {
        &self.program
    }

    /// The program itself.
    pub fn into_program(self) -> Program
        ensures { shown_program result ≡ program_of self }
    {
        self.program
    }
}

/// The program that a source of at most `SOURCE_MAX` bytes spells, or the source's first fault. E01 (foreign byte) and
/// E03 (name or number too long) come before all others. Then, at the first token that breaks a rule, E04 (nesting too
/// deep) comes before E02 (unexpected token), and that before E05 (bad width or range).
pub fn parse_program(alloc: Global, source: &[u8]) -> Result<Program, ParseErr>
    requires { length source.now ≤ source_max }
    ensures program { IfOk result (λ p. SpellsProgram source.now (shown_program p)) }
    ensures refused { IfErr result (λ e. RefusedFirst source.now e) }
    ensures spelled { (p : List Definition) → SpellsProgram source.now p → IsProgramUnlessNoMemory p result }
    ensures faulty { (f : Fault) → SyntaxFault source.now f → IsFaultUnlessNoMemory f result }
{
    let tokens = lex(alloc, source)?;
    parse_tokens(alloc, source, tokens.as_slice())
}

/// The program that `parse_program` gives, with a copy of its source.
pub fn parse(alloc: Global, source: &[u8]) -> Result<Parsed, ParseErr>
    requires { length source.now ≤ source_max }
    ensures program { IfOk result (λ p. Spells source.now p) }
    ensures refused { IfErr result (λ e. RefusedFirst source.now e) }
    ensures spelled { (p : List Definition) → SpellsProgram source.now p → SpelledUnlessNoMemory p result }
    ensures faulty { (f : Fault) → SyntaxFault source.now f → FaultUnlessNoMemory f result }
{
    let program = parse_program(alloc, source)?;
    match Vec::from_slice(alloc, source) {
        Ok(source) => Ok(Parsed { source, program }),
        Err(_) => Err(ParseErr::NoMemory),
    }
}
