//! The command `run FILE --cycles L [ARG..]`: a run of the netlist of a Verilog file.

ghost use Rattle.std.specs.Prelude.{◌≡◌, ◌≤◌, length, map, IfOk, IfErr, string_bytes};
ghost use Rattle.safl_net.specs.Making.{name_at, numbers};
ghost use Rattle.safl_net.specs.Whole.{IsWhole};
ghost use Rattle.safl_tool.specs.Answers.{printed};
ghost use Rattle.safl_tool.specs.CommandTasks.{GivesRun, RefusesText, RefusesNet};
ghost use Rattle.safl_task.specs.Limits.{verilog_max};
ghost use Rattle.safl_tool.specs.Refusals.{RefusesBy, HasLine, status_of, line_of};
ghost use Rattle.safl_tool.specs.Running.{AreKnown, RunsText, IsRunnable};
ghost use Rattle.safl_tool.specs.VerilogLines.{verilog_line, loop_line};
ghost use Rattle.safl_task.specs.declared.status.Status.{Status};

use crate::answer::Lines;
use crate::refusal::{Refusal, column_number, line_number};
use crate::simulate::{outcome, run_net};
use safl_net::{Net, Sig};
use safl_order::laws::loops_are_cyclic;
use safl_order::{OrderErr, Ordered, order};
use safl_sim::Done;
use safl_verilog::VFault;
use safl_vparse::VErr;
use safl_vread::read_net;
use std::alloc::{AllocError, Global};

/// What is printed of a run of the netlist of the Verilog file `name`, or why it is not run.
pub fn run_lines<'a>(
    alloc: Global,
    name: &'a str,
    text: &[u8],
    limit: u64,
    args: &[String],
) -> Result<Lines, Refusal<'a>>
    requires { length text.now ≤ verilog_max }
    ensures gives { IfOk result (λ l. GivesRun (map string_bytes args.now) limit text.now (printed l)) }
    ensures refused { IfErr result (RefusesBy (RefusesText name.now (map string_bytes args.now) text.now)) }
{
    let done = run_text(alloc, name, text, limit, args)?;
    Ok(outcome(alloc, limit, done)?)
}

// The result of a run of the netlist of the Verilog file `name`.
fn run_text<'a>(
    alloc: Global,
    name: &'a str,
    text: &[u8],
    limit: u64,
    args: &[String],
) -> Result<Option<Done>, Refusal<'a>>
    requires { length text.now ≤ verilog_max }
    ensures answer { IfOk result (RunsText text.now (map string_bytes args.now) limit) }
    ensures refused { IfErr result (RefusesBy (RefusesText name.now (map string_bytes args.now) text.now)) }
{
    let ordered = ordered_net(alloc, name, text)?;
    Ok(run_net(alloc, ordered, limit, args)?)
}

/// The netlist of the Verilog file `name`, with an order of evaluation of its wires, or why the file is refused.
pub fn ordered_net<'a>(alloc: Global, name: &'a str, text: &[u8]) -> Result<Ordered, Refusal<'a>>
    requires { length text.now ≤ verilog_max }
    ensures runnable { IfOk result (λ o. IsRunnable text.now o.net) }
    ensures whole { IfOk result (λ o. IsWhole o.net) }
    ensures refused { IfErr result (RefusesBy (RefusesNet name.now text.now)) }
{
    let net = match read_net(alloc, text) {
        Ok(net) => net,
        Err(VErr::Refused(fault)) => return Err(refusal_of_fault(name, text, fault)),
        Err(VErr::NoMemory) => return Err(Refusal::NoMemory),
    };
    loops_are_cyclic();
    match order(alloc, net) {
        Ok(ordered) => {
            let _net = ordered.net();
            Ok(ordered)
        }
        Err(OrderErr::Loop(wires, net)) => Err(refusal_of_loop(alloc, name, &net, &wires)),
        Err(OrderErr::Unset(_, _)) => unreachable!(),
        Err(OrderErr::NoMemory(_)) => Err(Refusal::NoMemory),
    }
}

fn refusal_of_fault<'a>(name: &'a str, text: &[u8], fault: VFault) -> Refusal<'a>
    ensures { HasLine Status.VerilogRefused (verilog_line name.now text.now fault) (status_of result) (line_of result) }
{
    let place = fault.place as usize;
    Refusal::Verilog(
        name,
        fault,
        line_number(text, place),
        column_number(text, place),
    )
}

fn refusal_of_loop<'a>(alloc: Global, name: &'a str, net: &Net, wires: &[Sig]) -> Refusal<'a>
    requires { AreKnown net.now (numbers wires.now) }
    ensures { RefusesBy (HasLine Status.VerilogRefused (loop_line name.now (map (name_at net.now) (numbers wires.now)))) result }
{
    match names_of(alloc, net, wires) {
        Ok(names) => Refusal::Loop(name, names),
        Err(AllocError) => Refusal::NoMemory,
    }
}

fn names_of(alloc: Global, net: &Net, wires: &[Sig]) -> Result<Vec<String>, AllocError>
    requires { AreKnown net.now (numbers wires.now) }
    ensures { IfOk result (λ names. map string_bytes names.items ≡ map (name_at net.now) (numbers wires.now)) }
{
    let mut names = Vec::new(alloc);
    'wires: for i in 0..wires.len() {
        let name = String::from_str(alloc, net.name(wires[i]))?;
        names.push(name)?;
    }
    Ok(names)
}
