//! From a text to the bit-level circuit that it is, or to its first fault.

ghost use Rattle.std.specs.Prelude.{◌+◌, ◌^◌, ◌<◌, length, drop, IfOk, IfErr};
ghost use Rattle.safl_aiger.specs.Lines.{text_lines};
ghost use Rattle.safl_aiger.specs.Reads.{AigReads, HasHeader, counts};
ghost use Rattle.safl_aiger.specs.Readings.{HasThatFault};
ghost use Rattle.safl_aiger.specs.Sections.{BodyIs};

use crate::circuit::Aig;
use crate::lines::line_end;
use crate::reading::{AigRule, Header, read_header};
use crate::sections::{Body, SectionErr, read_body};
use crate::symbols::{SymbolsErr, no_names, read_symbols};
use std::alloc::Global;

/// Why a text does not read as a circuit.
#[derive(Clone, Copy, Debug, PartialEq, Eq)]
pub enum AigErr {
    /// The rule that the first faulty line breaks, and the number of that line, from 1.
    Refused(AigRule, u32),
    NoMemory,
}

/// The circuit that a text spells, or the text's first fault.
pub fn read_aig(alloc: Global, text: &[u8]) -> Result<Aig, AigErr>
    requires { length text.now < 2 ^ 32 }
    ensures reads { IfOk result (AigReads text.now) }
    ensures fault { IfErr result (HasThatFault text.now) }
{
    if text.is_empty() {
        return Err(AigErr::Refused(AigRule::B01, 1));
    }
    let end = line_end(text, 0);
    match read_header(&text[..end]) {
        Some(h) => read_rest(alloc, text, end + 1, h),
        None => Err(AigErr::Refused(AigRule::B01, 1)),
    }
}

// Reads what follows the header, from `at` on.
fn read_rest(alloc: Global, text: &[u8], at: usize, h: Header) -> Result<Aig, AigErr>
    requires short { length text.now < 2 ^ 32 }
    requires begins { HasHeader text.now (counts h) (text_lines (drop at text.now)) }
    requires sum { h.inputs + h.latches + h.ands < 2 ^ 31 }
    requires outputs { h.outputs < 2 ^ 31 }
    ensures reads { IfOk result (AigReads text.now) }
    ensures fault { IfErr result (HasThatFault text.now) }
{
    match read_body(alloc, text, at, h) {
        Ok(body) => read_names(alloc, text, at, h, body),
        Err(SectionErr::Stopped(s)) => Err(AigErr::Refused(s.rule, 2 + s.place)),
        Err(SectionErr::NoMemory) => Err(AigErr::NoMemory),
    }
}

// Reads the names after the body, from `at` on, and makes the circuit.
fn read_names(alloc: Global, text: &[u8], at: usize, h: Header, body: Body) -> Result<Aig, AigErr>
    requires short { length text.now < 2 ^ 32 }
    requires begins { HasHeader text.now (counts h) (text_lines (drop at text.now)) }
    requires body { BodyIs text.now at (counts h) body }
    requires sum { h.inputs + h.latches + h.ands < 2 ^ 31 }
    requires outputs { h.outputs < 2 ^ 31 }
    ensures reads { IfOk result (AigReads text.now) }
    ensures fault { IfErr result (HasThatFault text.now) }
{
    let Ok(mut names) = no_names(alloc, h) else {
        return Err(AigErr::NoMemory);
    };
    let before = 1 + h.inputs + h.latches + h.outputs + h.ands;
    match read_symbols(alloc, text, body.next, before, &mut names) {
        Ok(()) => Ok(Aig::new(body.nexts, body.outputs, body.ands, names)),
        Err(SymbolsErr::Stopped(n)) => Err(AigErr::Refused(AigRule::B04, n)),
        Err(SymbolsErr::NoMemory) => Err(AigErr::NoMemory),
    }
}
