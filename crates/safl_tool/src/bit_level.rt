//! The commands `aig FILE OUT` and `aigstat FILE`: bit-level circuits and their sizes.

ghost use Rattle.std.specs.Prelude.{◌≡◌, ℕ, ◌≤◌, IfOk, IfErr, length};
ghost use Rattle.safl_aig.specs.BitLevel.{IsRefused};
ghost use Rattle.safl_aig.specs.declared.conversion.BlastErr.TheVariants as blast;
ghost use Rattle.safl_tool.specs.Answers.{printed};
ghost use Rattle.safl_task.specs.Tasks.{only_writes};
ghost use Rattle.safl_tool.specs.BitLevel.{GivesBits, GivesCounts, RefusesAig, RefusesBitsOf, RefusesNetlist};
ghost use Rattle.safl_task.specs.Limits.{aig_max, verilog_max};
ghost use Rattle.safl_tool.specs.Refusals.{RefusesBy};
ghost use Rattle.safl_tool.specs.declared.refusal.Refusal.TheVariants as refusals;

use crate::answer::Lines;
use crate::refusal::Refusal;
use crate::run_file::ordered_net;
use safl_aig::{AigErr, BlastErr, aiger_text, counts_lines, read_aig};
use safl_net::Net;
use std::alloc::{AllocError, Global};

/// The AIGER text of the bit-level circuit of the Verilog file `name`, or why it has none.
pub fn aig_text<'a>(alloc: Global, name: &'a str, text: &[u8]) -> Result<Vec<u8>, Refusal<'a>>
    requires { length text.now ≤ verilog_max }
    ensures gives { IfOk result (λ out. GivesBits text.now (only_writes out.items)) }
    ensures refused { IfErr result (RefusesBy (RefusesBitsOf name.now text.now)) }
{
    let ordered = ordered_net(alloc, name, text)?;
    match aiger_text(alloc, &ordered) {
        Ok(text) => Ok(text),
        Err(error) => Err(refusal_of_net(alloc, ordered.net(), error)),
    }
}

// The refusal of a net that has no bit-level circuit.
fn refusal_of_net<'a>(alloc: Global, net: &Net, error: BlastErr) -> Refusal<'a>
    requires { IsRefused net.now error }
    ensures refuses { RefusesBy (RefusesNetlist net.now) result }
    ensures heavy { (weight : ℕ) → error ≡ blast.TooLarge weight → result ≡ refusals.Heavy weight }
{
    match error {
        BlastErr::InitNotZero(register) => match String::from_str(alloc, net.name(register)) {
            Ok(name) => Refusal::Register(name),
            Err(AllocError) => Refusal::NoMemory,
        },
        BlastErr::TooLarge(weight) => Refusal::Heavy(weight),
        BlastErr::NoMemory => Refusal::NoMemory,
    }
}

/// The lines with the numbers of inputs, latches, outputs and ANDs of the AIGER file `name`, or why it is refused.
pub fn aigstat_lines<'a>(alloc: Global, name: &'a str, text: &[u8]) -> Result<Lines, Refusal<'a>>
    requires { length text.now ≤ aig_max }
    ensures gives { IfOk result (λ l. GivesCounts text.now (printed l)) }
    ensures refused { IfErr result (RefusesBy (RefusesAig name.now text.now)) }
{
    let circuit = match read_aig(alloc, text) {
        Ok(circuit) => circuit,
        Err(AigErr::Refused(rule, line)) => return Err(Refusal::Aig(name, line, rule)),
        Err(AigErr::NoMemory) => return Err(Refusal::NoMemory),
    };
    let text = counts_lines(alloc, &circuit)?;
    Ok(Lines { comes: true, text })
}
