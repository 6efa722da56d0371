//! Simulators that are ready to run, with the arguments of the run.

ghost use Rattle.std.specs.Prelude.{◌≤◌, length, map, IfOk, IfErr, string_bytes};
ghost use Rattle.safl_net.specs.Whole.{IsWhole};
ghost use Rattle.safl_net.specs.Arguments.{argument_widths};
ghost use Rattle.safl_word.specs.Limits.{source_max};
ghost use Rattle.safl_tool.specs.Arguments.{RefusesArguments};
ghost use Rattle.safl_tool.specs.CommandTasks.{RefusesGiven};
ghost use Rattle.safl_tool.specs.Readiness.{IsReady, IsReadyOf};
ghost use Rattle.safl_tool.specs.Refusals.{RefusesBy};

use crate::arguments::read_arguments;
use crate::refusal::Refusal;
use crate::source::compile;
use safl_compiler::ordered;
use safl_net::argument_widths;
use safl_order::Ordered;
use safl_sim::Sim;
use safl_word::Word;
use std::alloc::Global;

/// A simulator at reset, and the words of its arguments.
#[derive(Drop)]
pub struct Ready {
    pub sim: Sim,
    pub words: Vec<Word>,
}

/// A simulator of the circuit of the source `name`, with these arguments, or why it cannot run.
pub fn ready_source<'a>(
    alloc: Global,
    name: &'a str,
    source: &[u8],
    args: &[String],
) -> Result<Ready, Refusal<'a>>
    requires { length source.now ≤ source_max }
    ensures ready { IfOk result (IsReadyOf source.now (map string_bytes args.now)) }
    ensures refused { IfErr result (RefusesBy (RefusesGiven name.now (map string_bytes args.now) source.now)) }
{
    let net = compile(alloc, name, source)?;
    let ordered = ordered(alloc, net)?;
    Ok(ready_net(alloc, ordered, args)?)
}

/// A simulator of a net, with these arguments, or why it cannot run.
pub fn ready_net<'a>(alloc: Global, ordered: Ordered, args: &[String]) -> Result<Ready, Refusal<'a>>
    requires { IsWhole ordered.net }
    ensures ready { IfOk result (IsReady ordered.net (map string_bytes args.now)) }
    ensures refused { IfErr result (RefusesBy (RefusesArguments (argument_widths ordered.net.signals) (map string_bytes args.now))) }
{
    let widths = argument_widths(alloc, ordered.net())?;
    let words = read_arguments(alloc, &widths, args)?;
    let Ok(sim) = Sim::new(alloc, ordered) else {
        return Err(Refusal::NoMemory);
    };
    Ok(Ready { sim, words })
}
