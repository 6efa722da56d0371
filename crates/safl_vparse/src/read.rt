//! Parsing: from the bytes of a text to a file of the grammar.

ghost use Rattle.std.specs.Prelude.{◌≡◌, ◌<◌, ◌^◌, length, IfOk, IfErr};
ghost use Rattle.safl_verilog.specs.Reads.{place_in};
ghost use Rattle.safl_vparse.specs.Shown.{shown_all, shown_file};
ghost use Rattle.safl_vparse.specs.Parsed.{IsFileText, TokensAnswer, RefusesText, RefusesUnparsed};

use crate::error::VErr;
use crate::file::File;
use crate::lexer::lex;
use crate::parser::{Parser, ReadError};
use safl_verilog::{Token, VFault, VRule};
use std::alloc::Global;

/// The file of the grammar that a text of fewer than 2^32 bytes is, or its first fault by the rules V01 and V02. No
/// other rule is checked, so every file of the grammar is read, unless memory runs out.
pub fn parse(alloc: Global, text: &[u8]) -> Result<File, VErr>
    requires { length text.now < 2 ^ 32 }
    ensures parsed { IfOk result (λ f. IsFileText text.now (shown_file text.now f)) }
    ensures refused { IfErr result (λ e. RefusesText text.now e) }
    ensures unparsed { IfErr result (λ e. RefusesUnparsed text.now e) }
{
    let tokens = lex(alloc, text)?;
    parse_tokens(alloc, text, &tokens)
}

// The file that the tokens of a text are.
fn parse_tokens(alloc: Global, text: &[u8], tokens: &[Token]) -> Result<File, VErr>
    requires { length text.now < 2 ^ 32 }
    ensures { TokensAnswer text.now (shown_all text.now tokens.now) result }
{
    let parser = Parser { alloc, text };
    match parser.whole(tokens) {
        Ok((file, _)) => Ok(file),
        Err(ReadError::NoMemory) => Err(VErr::NoMemory),
        Err(ReadError::Unexpected(rest)) => Err(VErr::Refused(VFault::new(
            VRule::V02,
            place_of(text, rest),
        ))),
    }
}

// The place of the first token in `rest`, or the end of the text if there are none.
fn place_of(text: &[u8], rest: &[Token]) -> u32
    requires { length text.now < 2 ^ 32 }
    ensures { result ≡ place_in text.now (shown_all text.now rest.now) }
{
    match rest {
        [] => text.len() as u32,
        [first, ..] => first.start,
    }
}
