//! Runs of circuits and of other nets, and what is printed of a run.

ghost use Rattle.std.specs.Prelude.{◌≡◌, ◌++◌, map, is_some, OnOk, IfOk, IfErr, string_bytes};
ghost use Rattle.safl_net.specs.Valuations.{IsAcyclic};
ghost use Rattle.safl_net.specs.Whole.{IsWhole};
ghost use Rattle.safl_net.specs.Arguments.{argument_widths};
ghost use Rattle.safl_tool.specs.Answers.{printed};
ghost use Rattle.safl_tool.specs.Arguments.{RefusesArguments};
ghost use Rattle.safl_tool.specs.CommandTasks.{outcome};
ghost use Rattle.safl_tool.specs.Printed.{done_lines, outcome_lines};
ghost use Rattle.safl_tool.specs.Refusals.{RefusesBy};
ghost use Rattle.safl_tool.specs.Running.{GivesOutcome};

use crate::answer::Lines;
use crate::ready::ready_net;
use crate::refusal::{Refusal, push};
use safl_compiler::ordered;
use safl_net::Net;
use safl_order::Ordered;
use safl_run::run_until_done;
use safl_session::push_late;
use safl_sim::Done;
use safl_word::{NoMemory, Raw, push_decimal};
use std::alloc::Global;

/// The result of a circuit with these arguments, in at most `limit` cycles.
pub fn run_circuit<'a>(
    alloc: Global,
    net: Net,
    limit: u64,
    args: &[String],
) -> Result<Option<Done>, Refusal<'a>>
    requires whole { IsWhole net }
    requires acyclic { IsAcyclic net }
    ensures answer { IfOk result (GivesOutcome net (map string_bytes args.now) limit) }
    ensures refused { IfErr result (RefusesBy (RefusesArguments (argument_widths net.signals) (map string_bytes args.now))) }
{
    let ordered = ordered(alloc, net)?;
    run_net(alloc, ordered, limit, args)
}

/// The result of a net with these arguments, in at most `limit` cycles.
pub fn run_net<'a>(
    alloc: Global,
    ordered: Ordered,
    limit: u64,
    args: &[String],
) -> Result<Option<Done>, Refusal<'a>>
    requires { IsWhole ordered.net }
    ensures answer { IfOk result (GivesOutcome ordered.net (map string_bytes args.now) limit) }
    ensures refused { IfErr result (RefusesBy (RefusesArguments (argument_widths ordered.net.signals) (map string_bytes args.now))) }
{
    let mut ready = ready_net(alloc, ordered, args)?;
    Ok(run_until_done(alloc, &mut ready.sim, &ready.words, limit)?)
}

/// What is printed of the outcome of a run.
pub fn outcome(alloc: Global, limit: u64, done: Option<Done>) -> Result<Lines, NoMemory>
    ensures { IfOk result (λ l. printed l ≡ outcome limit done) }
{
    let mut text = Vec::new(alloc);
    let comes = push_outcome(&mut text, limit, done)?;
    Ok(Lines { comes, text })
}

/// Appends what is printed of the outcome of a run. Says whether there is a result.
pub fn push_outcome(text: &mut Vec<u8>, limit: u64, done: Option<Done>) -> Result<bool, NoMemory>
    ensures comes { IfOk result (λ comes. comes ≡ is_some done) }
    ensures lines { OnOk result (text.new.items ≡ text.old.items ++ outcome_lines limit done) }
{
    match done {
        Some(done) => {
            push_done(text, done)?;
            Ok(true)
        }
        None => {
            push_late(text, limit)?;
            Ok(false)
        }
    }
}

fn push_done(text: &mut Vec<u8>, done: Done) -> Result<(), NoMemory>
    ensures { OnOk result (text.new.items ≡ text.old.items ++ done_lines done.result.bits done.cycle) }
{
    push(text, b"result ")?;
    push_decimal(done.result.bits(), text)?;
    push(text, b"\ncycle ")?;
    push_decimal(Raw::from(done.cycle), text)?;
    push(text, b"\n")?;
    Ok(())
}
