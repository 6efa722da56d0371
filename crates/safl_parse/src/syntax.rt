//! From the tokens of a source to its program.

ghost use Rattle.std.specs.Prelude.{◌≡◌, ◌<◌, ◌^◌, length, List, IfOk, IfErr};
ghost use Rattle.safl_word.specs.declared.fault.Fault.{Fault};
ghost use Rattle.safl_tree.specs.Tree.{Definition};
ghost use Rattle.safl_tree.specs.Terminals.{terminals};
ghost use Rattle.safl_tree.specs.Source.{TokensSpell, TokensFault, rule_of, place_in, fault_at};
ghost use Rattle.safl_tree.specs.Shown.{shown_program};
ghost use Rattle.safl_parse.specs.Gives.{rule_of as grammar_rule};
ghost use Rattle.safl_parse.specs.Errors.{error_of};
ghost use Rattle.safl_parse.specs.TokenAnswers.{RefusedRightly, IsProgramUnlessNoMemory, IsFaultUnlessNoMemory};

use crate::error::{Cause, ReadError};
use crate::parser::Parser;
use safl_text::LexErr;
use safl_tree::Program;
use safl_word::{Fault, Rule, Token};
use std::alloc::Global;

/// Why a source cannot be parsed: its first fault, or out of memory.
#[derive(Clone, Copy, Debug, PartialEq, Eq)]
pub enum ParseErr {
    Refused(Fault),
    NoMemory,
}

impl From<LexErr> for ParseErr {
    ghost from_gives = { λ e answer. answer ≡ error_of e };

    fn from(e: LexErr) -> ParseErr {
        match e {
            LexErr::Refused(fault) => ParseErr::Refused(fault),
            LexErr::NoMemory => ParseErr::NoMemory,
        }
    }
}

/// The rule that belongs to a cause.
fn rule_of(cause: Cause) -> Rule
    ensures { result ≡ rule_of (grammar_rule cause) }
{
    match cause {
        Cause::Deep => Rule::E04,
        Cause::Unexpected => Rule::E02,
        Cause::Range => Rule::E05,
    }
}

/// The fault at the first of the tokens in `rest`, or at the end of the source if there are none.
fn fault_at(source: &[u8], cause: Cause, rest: &[Token]) -> Fault
    requires { length source.now < 2 ^ 32 }
    ensures { result ≡ fault_at (rule_of (grammar_rule cause)) (place_in source.now (terminals source.now rest.now)) }
{
    let place = match rest {
        [] => source.len() as u32,
        [first, ..] => first.start,
    };
    Fault::new(rule_of(cause), place)
}

/// The program that the tokens of a source spell, or their first fault. At the first token that breaks a rule, E04
/// (nesting too deep) comes before E02 (unexpected token), and that before E05 (bad width or range).
pub fn parse_tokens(alloc: Global, source: &[u8], tokens: &[Token]) -> Result<Program, ParseErr>
    requires { length source.now < 2 ^ 32 }
    ensures program { IfOk result (λ p. TokensSpell source.now tokens.now (shown_program p)) }
    ensures refused { IfErr result (λ e. RefusedRightly source.now tokens.now e) }
    ensures spelled { (p : List Definition) → TokensSpell source.now tokens.now p → IsProgramUnlessNoMemory p result }
    ensures faulty { (f : Fault) → TokensFault source.now tokens.now f → IsFaultUnlessNoMemory f result }
{
    let parser = Parser {
        alloc,
        text: source,
    };
    match parser.whole(tokens) {
        Ok((program, _)) => Ok(program),
        Err(ReadError::NoMemory) => Err(ParseErr::NoMemory),
        Err(ReadError::Refused(cause, rest)) => {
            Err(ParseErr::Refused(fault_at(source, cause, rest)))
        }
    }
}
