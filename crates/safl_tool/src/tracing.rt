//! Runs that probes watch.

ghost use Rattle.std.specs.Prelude.{◌<◌, IsSome, length, map, IfOk, IfErr, OnOk, OnErr};
ghost use Rattle.safl_io.specs.Shelf.{UsesNoStray};
ghost use Rattle.safl_run.specs.Calls.{IsOutcome};
ghost use Rattle.safl_probe.specs.Asked.{asked};
ghost use Rattle.safl_probe.specs.Growth.{Made, OldOrPart};
ghost use Rattle.safl_probe.specs.Stopping.{KeepsProbes};
ghost use Rattle.safl_command.specs.Traces.{shown_traces};
ghost use Rattle.safl_tool.specs.Answers.{CanRun, FilesGrow};
ghost use Rattle.safl_tool.specs.Changes.{GivesOn, ShownOn};
ghost use Rattle.safl_tool.specs.Refusals.{IsWriting, FailsToWatch};
ghost use Rattle.safl_tool.specs.Tracing.{AreAskedFor, file_at};
ghost use Rattle.safl_tool.specs.Watched.{ShowsRun};
ghost use Rattle.safl_tool.specs.declared.answer.Answer.{Answer};

use crate::answer::print;
use crate::asking::{file_of, kind_of_probe};
use crate::ready::Ready;
use crate::refusal::Refusal;
use crate::simulate::outcome;
use safl_command::Traces;
use safl_io::{Shelf, Sink};
use safl_probe::laws::end_law;
use safl_probe::{DriveErr, Probe, drive};
use safl_sim::Done;
use safl_task::Status;
use std::alloc::Global;

/// A run of at most `limit` cycles, and the files for its traces.
#[derive(Drop)]
pub struct TracedRun<'a> {
    pub ready: Ready,
    pub limit: u64,
    pub traces: &'a Traces,
}

/// Makes a run and prints its outcome. Each asked probe writes its trace to the file at its place.
pub fn trace<'a, S: Shelf, O: Sink>(
    alloc: Global,
    run: TracedRun<'a>,
    files: &[Option<String>],
    shelf: &mut S,
    out: &mut O,
    probes: &mut Vec<Box<dyn Probe>>,
) -> Result<Status, Refusal<'a>>
    requires can { CanRun run.ready }
    requires asked { AreAskedFor (shown_traces run.traces.now) (asked files.now) (map (λ p. state p) probes.old.items) }
    ensures gives { GivesOn (Answer.Traced run.entry) files.now S.told shelf.old shelf.new O.told out.old out.new (λ p. state p) probes.old probes.new result }
    ensures told { OnOk result (ShownOn (Answer.Traced run.entry) files.now (λ p. state p) probes.old probes.new) }
    ensures same_strays { UsesNoStray (S.told shelf.old) (S.told shelf.new) }
    ensures probes { KeepsProbes (asked files.now) (λ p. state p) probes.old.items probes.new.items }
{
    end_law();
    let limit = run.limit;
    let done = watch(alloc, run, files, shelf, probes)?;
    let lines = outcome(alloc, limit, done)?;
    print(out, lines)
}

// Makes a run. Each asked probe writes its trace to the file at its place.
fn watch<'a, S: Shelf>(
    alloc: Global,
    run: TracedRun<'a>,
    files: &[Option<String>],
    shelf: &mut S,
    probes: &mut Vec<Box<dyn Probe>>,
) -> Result<Option<Done>, Refusal<'a>>
    requires can { CanRun run.ready }
    requires asked { AreAskedFor (shown_traces run.traces.now) (asked files.now) (map (λ p. state p) probes.old.items) }
    ensures outcome { IfOk result (IsOutcome run.entry.ready.sim.net run.entry.ready.words.items run.entry.limit) }
    ensures traced { OnOk result (FilesGrow Made run.entry files.now (λ p. state p) probes.old.items (S.told shelf.old) (S.told shelf.new)) }
    ensures told { OnOk result (ShowsRun run.entry files.now (λ p. state p) probes.old.items probes.new.items (S.told shelf.old) (S.told shelf.new)) }
    ensures part { OnErr result (FilesGrow OldOrPart run.entry files.now (λ p. state p) probes.old.items (S.told shelf.old) (S.told shelf.new)) }
    ensures probes { KeepsProbes (asked files.now) (λ p. state p) probes.old.items probes.new.items }
    ensures refused { IfErr result (FailsToWatch files.now (λ p. state p) probes.old.items probes.new.items (S.told shelf.old) (S.told shelf.new)) }
    ensures strays { UsesNoStray (S.told shelf.old) (S.told shelf.new) }
{
    let TracedRun {
        ready,
        limit,
        traces,
    } = run;
    let mut ready = ready;
    match drive(
        alloc,
        &mut ready.sim,
        &ready.words,
        limit,
        probes,
        files,
        shelf,
    ) {
        Ok(done) => Ok(done),
        Err(DriveErr::Probe(kind)) => Err(Refusal::Probe(kind)),
        Err(DriveErr::Write(place)) => Err(unwritten(traces, probes, place)),
        Err(DriveErr::NoMemory) => Err(Refusal::NoMemory),
    }
}

// The refusal for the file of the probe at `place`, which was not written.
fn unwritten<'a>(traces: &'a Traces, probes: &[Box<dyn Probe>], place: u64) -> Refusal<'a>
    requires there { place < length probes.now }
    requires named { IsSome (file_at (shown_traces traces.now) (map (λ p. state p) probes.now) place) }
    ensures { IsWriting (file_at (shown_traces traces.now) (map (λ p. state p) probes.now) place) result }
{
    let kind = kind_of_probe(&probes[place as usize]);
    Refusal::Write(file_of(traces, kind).unwrap_or(""))
}
