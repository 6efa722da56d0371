//! Doing a command: finding the probes that it asks, reading its files, working out its answer, and giving the answer.

ghost use Rattle.std.specs.Prelude.{◌≡◌, IfOk, IfErr, None, Some, map};
ghost use Rattle.safl_command.specs.Commands.{shown_command};
ghost use Rattle.safl_probe.specs.Asked.{asked, Unbegun};
ghost use Rattle.safl_task.specs.Inputs.{shown_inputs, shown_contents};
ghost use Rattle.safl_task.specs.Tasks.{AreContents};
ghost use Rattle.safl_tool.specs.Answers.{Answers, traces_for};
ghost use Rattle.safl_tool.specs.Asking.{traces_given};
ghost use Rattle.safl_tool.specs.Changes.{AttendsOn, AttendsAskedOn, DoesOn, DoesAskedOn, SparesOn, SparesAskedOn};
ghost use Rattle.safl_tool.specs.CommandTasks.{command_task, traces_in};
ghost use Rattle.safl_tool.specs.Reading.{content_at};
ghost use Rattle.safl_tool.specs.Refusals.{Declines};
ghost use Rattle.safl_tool.specs.Tracing.{AreAskedFor};
ghost use Rattle.safl_tool.specs.Watched.{ShowsFor};

use crate::answer::{Answer, give, printed, replied, traced, written};
use crate::asking::asked_files;
use crate::bit_level::{aig_text, aigstat_lines};
use crate::build::{circuit_text, optimised_text};
use crate::check::check_lines;
use crate::generated::{bench_lines, gen_lines};
use crate::ready::ready_source;
use crate::refusal::Refusal;
use crate::report::report_lines;
use crate::reshape::{copy_text, unfold_text};
use crate::run_file::run_lines;
use crate::session::ready_session;
use crate::walk::walk_lines;
use safl_command::{Command, Traces};
use safl_io::{Shelf, Sink};
use safl_probe::Probe;
use safl_session::laws::session_law;
use safl_task::{Input, Status, read_inputs};
use std::alloc::{AllocError, Global};

/// Does what a command asks for.
pub fn perform<'a, S: Shelf, O: Sink>(
    alloc: Global,
    command: &'a Command,
    shelf: &mut S,
    out: &mut O,
    probes: &mut Vec<Box<dyn Probe>>,
) -> Result<Status, Refusal<'a>>
    requires { Unbegun state probes.old.items }
    ensures does { DoesOn (Some (shown_command command.now)) S.told shelf.old shelf.new O.told out.old out.new (λ p. state p) probes.old probes.new result }
    ensures spares { SparesOn (Some (shown_command command.now)) S.told shelf.old shelf.new O.told out.old out.new (λ p. state p) probes.old probes.new }
    ensures attends { AttendsOn (Some (shown_command command.now)) S.told shelf.old (λ p. state p) probes.old probes.new result }
{
    match asked_files(alloc, traces_of(command), probes) {
        Ok(Some(files)) => carry_out(alloc, command, &files, shelf, out, probes),
        Ok(None) => Err(Refusal::Usage),
        Err(AllocError) => Err(Refusal::NoMemory),
    }
}

// The files for the traces that a command asks for, if it can ask for any.
fn traces_of(command: &Command) -> Option<&Traces>
    ensures { traces_given result ≡ traces_in (shown_command command.now) }
{
    match command {
        Command::Sim { traces, .. } => Some(traces),
        _ => None,
    }
}

// Does what a command asks for. `files` has for each probe the file that it is asked to write.
fn carry_out<'a, S: Shelf, O: Sink>(
    alloc: Global,
    command: &'a Command,
    files: &[Option<String>],
    shelf: &mut S,
    out: &mut O,
    probes: &mut Vec<Box<dyn Probe>>,
) -> Result<Status, Refusal<'a>>
    requires { AreAskedFor (traces_in (shown_command command.now)) (asked files.now) (map (λ p. state p) probes.old.items) }
    ensures does { DoesAskedOn (shown_command command.now) files.now S.told shelf.old shelf.new O.told out.old out.new
        (λ p. state p) probes.old probes.new result }
    ensures spares { SparesAskedOn (shown_command command.now) files.now S.told shelf.old shelf.new O.told out.old out.new
        (λ p. state p) probes.old probes.new }
    ensures attends { AttendsAskedOn (shown_command command.now) files.now S.told shelf.old (λ p. state p) probes.old probes.new result }
{
    let inputs = inputs_of(alloc, command)?;
    let contents = match read_inputs(alloc, shelf, &inputs) {
        Ok(contents) => contents,
        Err(unread) => return Err(Refusal::of_unread(unread)),
    };
    let answer = answer_of(alloc, command, &contents)?;
    give(alloc, answer, files, shelf, out, probes)
}

// The files that a command reads, in order.
fn inputs_of(alloc: Global, command: &Command) -> Result<Vec<Input<'_>>, AllocError>
    ensures { IfOk result (λ inputs. shown_inputs inputs.items ≡ (command_task (shown_command command.now)).inputs) }
{
    let mut inputs = Vec::new(alloc);
    match command {
        Command::Check { input }
        | Command::Build { input, .. }
        | Command::Optimise { input, .. }
        | Command::Sim { input, .. }
        | Command::Walk { input, .. }
        | Command::Report { input }
        | Command::CopySite { input, .. }
        | Command::UnfoldSite { input, .. } => inputs.push(Input::source(input))?,
        Command::Run { input, .. } | Command::Aig { input, .. } => {
            inputs.push(Input::verilog(input))?
        }
        Command::Aigstat { input } => inputs.push(Input::aig(input))?,
        Command::Session { input, script, .. } => {
            inputs.push(Input::source(input))?;
            inputs.push(Input::script(script))?;
        }
        Command::Gen { .. } | Command::Bench { .. } => (),
    }
    Ok(inputs)
}

// The contents of the file at `place`. Empty if there is none.
fn content(contents: &[Vec<u8>], place: usize) -> &[u8]
    ensures { result.now ≡ content_at (shown_contents contents.now) place }
{
    match contents.get(place) {
        Some(bytes) => bytes.as_slice(),
        None => &[],
    }
}

// The answer of a command for the contents of its files, or why it refuses them.
fn answer_of<'a>(
    alloc: Global,
    command: &'a Command,
    contents: &[Vec<u8>],
) -> Result<Answer<'a>, Refusal<'a>>
    requires { AreContents None (command_task (shown_command command.now)).inputs (shown_contents contents.now) }
    ensures answers { IfOk result (Answers (command_task (shown_command command.now)) (shown_contents contents.now)) }
    ensures traces { IfOk result (λ a. traces_for a ≡ traces_in (shown_command command.now)) }
    ensures shows { IfOk result (ShowsFor (shown_command command.now) (shown_contents contents.now)) }
    ensures refused { IfErr result (Declines (command_task (shown_command command.now)) (shown_contents contents.now)) }
{
    let first = content(contents, 0);
    let second = content(contents, 1);
    match command {
        Command::Check { input } => printed(check_lines(alloc, input, first)),
        Command::Build { input, output } => written(output, circuit_text(alloc, input, first)),
        Command::Optimise { input, output } => {
            written(output, optimised_text(alloc, input, first))
        }
        Command::Sim {
            input,
            limit,
            traces,
            args,
        } => traced(ready_source(alloc, input, first, args), *limit, traces),
        Command::Walk { input, turns, args } => {
            printed(walk_lines(alloc, input, first, *turns, args))
        }
        Command::Run { input, limit, args } => {
            printed(run_lines(alloc, input, first, *limit, args))
        }
        Command::Report { input } => printed(report_lines(alloc, input, first)),
        Command::Gen { seed, count } => printed(gen_lines(alloc, *seed, *count)),
        Command::Bench { seed, count, limit } => {
            printed(bench_lines(alloc, *seed, *count, *limit))
        }
        Command::CopySite {
            input,
            output,
            site,
        } => written(output, copy_text(alloc, input, first, *site)),
        Command::UnfoldSite {
            input,
            output,
            site,
        } => written(output, unfold_text(alloc, input, first, *site)),
        Command::Session { input, limit, .. } => {
            session_law();
            replied(ready_session(alloc, input, first, second), *limit)
        }
        Command::Aig { input, output } => written(output, aig_text(alloc, input, first)),
        Command::Aigstat { input } => printed(aigstat_lines(alloc, input, first)),
    }
}
