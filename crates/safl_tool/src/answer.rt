//! The answers of commands, and how they are given.

ghost use Rattle.std.specs.Prelude.{◌≡◌, Ok, Err, MatchResult, OnOk, map};
ghost use Rattle.safl_io.specs.Shelf.{UsesNoStray};
ghost use Rattle.safl_probe.specs.Asked.{asked};
ghost use Rattle.safl_probe.specs.Stopping.{KeepsProbes};
ghost use Rattle.safl_tool.specs.Answers.{CanBeGiven, traces_for, GivesByPrinting, GivesByWriting};
ghost use Rattle.safl_tool.specs.Changes.{GivesOn, ShownOn};
ghost use Rattle.safl_tool.specs.Tracing.{AreAskedFor};

use crate::ready::Ready;
use crate::refusal::Refusal;
use crate::session::{ReadySession, converse};
use crate::tracing::{TracedRun, trace};
use safl_command::Traces;
use safl_io::{OutErr, Shelf, Sink, write_file};
use safl_probe::Probe;
use safl_task::{Status, status_if};
use std::alloc::Global;

/// A text to be printed. `comes` says whether it is the result of a run.
#[derive(Drop)]
pub struct Lines {
    pub comes: bool,
    pub text: Vec<u8>,
}

/// The answer of a command.
#[derive(Drop)]
pub enum Answer<'a> {
    /// Lines to be printed.
    Printed(Lines),
    /// A file to be written: its name and its bytes.
    File { name: &'a str, text: Vec<u8> },
    /// The replies to the calls of a session, each of at most `limit` cycles. Each is printed as it comes.
    Replies { opening: ReadySession, limit: u64 },
    /// A run with traces: what it gives is printed, and the traces are written to their files.
    Traced(TracedRun<'a>),
}

/// The answer that prints these lines, or their refusal.
pub fn printed<'a>(lines: Result<Lines, Refusal<'a>>) -> Result<Answer<'a>, Refusal<'a>>
    ensures { MatchResult lines.entry (λ l. result ≡ Ok (Answer.Printed l)) (λ r. result ≡ Err r) }
{
    Ok(Answer::Printed(lines?))
}

/// The answer that writes these bytes to the file `name`, or their refusal.
pub fn written<'a>(
    name: &'a str,
    text: Result<Vec<u8>, Refusal<'a>>,
) -> Result<Answer<'a>, Refusal<'a>>
    ensures { MatchResult text.entry (λ t. result ≡ Ok (Answer.File name.entry t)) (λ r. result ≡ Err r) }
{
    let text = text?;
    Ok(Answer::File { name, text })
}

/// The answer of a session, or its refusal.
pub fn replied<'a>(
    opening: Result<ReadySession, Refusal<'a>>,
    limit: u64,
) -> Result<Answer<'a>, Refusal<'a>>
    ensures { MatchResult opening.entry (λ o. result ≡ Ok (Answer.Replies o limit)) (λ r. result ≡ Err r) }
{
    let opening = opening?;
    Ok(Answer::Replies { opening, limit })
}

/// The answer of a run with traces, or its refusal.
pub fn traced<'a>(
    ready: Result<Ready, Refusal<'a>>,
    limit: u64,
    traces: &'a Traces,
) -> Result<Answer<'a>, Refusal<'a>>
    ensures { MatchResult ready.entry (λ d. result ≡ Ok (Answer.Traced (record { ready = d; limit = limit; traces = traces.entry }))) (λ r. result ≡ Err r) }
{
    let ready = ready?;
    Ok(Answer::Traced(TracedRun {
        ready,
        limit,
        traces,
    }))
}

/// Gives an answer. It prints lines, writes a file, prints each reply as it comes, or makes a run whose traces the
/// asked probes write, each to the file at its place, and prints the outcome. The status is `Ok` if a result came,
/// otherwise `NoResult`.
pub fn give<'a, S: Shelf, O: Sink>(
    alloc: Global,
    answer: Answer<'a>,
    files: &[Option<String>],
    shelf: &mut S,
    out: &mut O,
    probes: &mut Vec<Box<dyn Probe>>,
) -> Result<Status, Refusal<'a>>
    requires can { CanBeGiven answer }
    requires asked { AreAskedFor (traces_for answer) (asked files.now) (map (λ p. state p) probes.old.items) }
    ensures gives { GivesOn answer.entry files.now S.told shelf.old shelf.new O.told out.old out.new (λ p. state p) probes.old probes.new result }
    ensures told { OnOk result (ShownOn answer.entry files.now (λ p. state p) probes.old probes.new) }
    ensures same_strays { UsesNoStray (S.told shelf.old) (S.told shelf.new) }
    ensures probes { KeepsProbes (asked files.now) (λ p. state p) probes.old.items probes.new.items }
{
    match answer {
        Answer::Printed(lines) => print(out, lines),
        Answer::File { name, text } => write(shelf, name, text),
        Answer::Replies { opening, limit } => converse(alloc, opening, limit, out),
        Answer::Traced(run) => trace(alloc, run, files, shelf, out, probes),
    }
}

/// Prints lines. The status says whether a result came.
pub fn print<'a, O: Sink>(out: &mut O, lines: Lines) -> Result<Status, Refusal<'a>>
    ensures { GivesByPrinting (Answer.Printed lines) (O.told out.old) (O.told out.new) result }
{
    match out.put(&lines.text) {
        Ok(()) => Ok(status_if(lines.comes)),
        Err(OutErr::Failed) => Err(Refusal::Output),
        Err(OutErr::NoMemory) => Err(Refusal::NoMemory),
    }
}

// Writes a file.
fn write<'a, S: Shelf>(shelf: &mut S, name: &'a str, text: Vec<u8>) -> Result<Status, Refusal<'a>>
    ensures gives { GivesByWriting (Answer.File name.entry text) (S.told shelf.old) (S.told shelf.new) result }
    ensures same_strays { UsesNoStray (S.told shelf.old) (S.told shelf.new) }
{
    match write_file(shelf, name, &text) {
        Ok(()) => Ok(Status::Ok),
        Err(OutErr::Failed) => Err(Refusal::Write(name)),
        Err(OutErr::NoMemory) => Err(Refusal::NoMemory),
    }
}
