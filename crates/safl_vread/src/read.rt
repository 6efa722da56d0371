//! Reading: from the bytes of a Verilog file to its net.

ghost use Rattle.std.specs.Prelude.{◌<◌, ◌^◌, length, IfOk, IfErr};
ghost use Rattle.safl_net.specs.Whole.{IsWhole};
ghost use Rattle.safl_verilog.specs.Reads.{Reads};
ghost use Rattle.safl_vparse.specs.Parsed.{RefusesText};

use crate::elaborate::elaborate;
use crate::make::net_of;
use safl_net::Net;
use safl_vparse::{VErr, parse};
use std::alloc::Global;

/// The net that a text of fewer than 2^32 bytes reads as, or the text's first fault. The net is whole: each wire has a
/// cell and each register a next signal, and there are an input `start` of width 1, an output `done` of width 1 and an
/// output `result`.
pub fn read_net(alloc: Global, text: &[u8]) -> Result<Net, VErr>
    requires { length text.now < 2 ^ 32 }
    ensures net { IfOk result (Reads text.now) }
    ensures whole { IfOk result IsWhole }
    ensures refused { IfErr result (RefusesText text.now) }
{
    let file = parse(alloc, text)?;
    let found = elaborate(alloc, text, &file)?;
    Ok(net_of(alloc, &found.scope, &found.drivers)?)
}
