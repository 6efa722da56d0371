//! The lexer: from bytes to tokens.

ghost use Rattle.std.specs.Prelude.{◌<◌, ◌^◌, length, IfOk, IfErr};
ghost use Rattle.safl_verilog.specs.Tokens.{HasVerilogTokens};
ghost use Rattle.safl_vparse.specs.Shown.{shown_all};
ghost use Rattle.safl_vparse.specs.Fronts.{RefusesBytes};

use crate::error::VErr;
use crate::front::{Front, front_of};
use safl_verilog::{Token, VFault, VRule};
use std::alloc::Global;

/// The tokens of a file of fewer than 2^32 bytes, in order. V01 at the first place where no token, blank or comment
/// begins.
pub fn lex(alloc: Global, text: &[u8]) -> Result<Vec<Token>, VErr>
    requires { length text.now < 2 ^ 32 }
    ensures tokens { IfOk result (λ tokens. HasVerilogTokens text.now (shown_all text.now tokens.items)) }
    ensures refused { IfErr result (λ e. RefusesBytes text.now e) }
{
    let mut tokens = Vec::new(alloc);
    let mut place = 0;
    'pieces: while place < text.len() {
        match front_of(&text[place..]) {
            Front::Gap(n) => place += n,
            Front::Found(kind, n) => {
                let start = place as u32;
                place += n;
                tokens.push(Token {
                    start,
                    stop: place as u32,
                    kind,
                })?;
            }
            Front::Stuck => {
                return Err(VErr::Refused(VFault::new(VRule::V01, place as u32)));
            }
        }
    }
    Ok(tokens)
}
