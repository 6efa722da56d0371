//! The lexer: from bytes to tokens.

ghost use Rattle.std.specs.Prelude.{◌≤◌, length, IfOk, IfErr};
ghost use Rattle.safl_word.specs.Limits.{source_max};
ghost use Rattle.safl_word.specs.Tokens.{HasTokens};
ghost use Rattle.safl_text.specs.Lexing.{RefusesTokens};
ghost use Rattle.safl_text.specs.Spans.{LieInOrder};

use crate::error::LexErr;
use crate::front::{Front, front_of};
use safl_word::{Fault, Token};
use std::alloc::Global;

/// The tokens of a source of at most `SOURCE_MAX` bytes, in order, or the source's first lexical fault.
pub fn lex(alloc: Global, source: &[u8]) -> Result<Vec<Token>, LexErr>
    requires { length source.now ≤ source_max }
    ensures tokens { IfOk result (λ tokens. HasTokens source.now tokens.items) }
    ensures spans { IfOk result (λ tokens. LieInOrder source.now 0 tokens.items) }
    ensures refused { IfErr result (λ e. RefusesTokens source.now e) }
{
    let mut tokens = Vec::new(alloc);
    let mut place = 0;
    'pieces: while place < source.len() {
        match front_of(&source[place..]) {
            Front::Gap(n) => place += n,
            Front::Found(kind, n) => {
                let start = place as u32;
                place += n;
                tokens.push(Token {
                    start,
                    stop: place as u32,
                    kind,
                })?;
            }
            Front::Broken(rule) => {
                return Err(LexErr::Refused(Fault::new(rule, place as u32)));
            }
        }
    }
    Ok(tokens)
}
