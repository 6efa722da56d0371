//! A run until `done` is 1, which probes may watch.

ghost use Rattle.std.specs.Prelude.{◌≡◌, IfOk, IfErr, OnOk, OnErr};
ghost use Rattle.safl_run.specs.Calls.{IsOutcome};
ghost use Rattle.safl_probe.specs.Asked.{asked};
ghost use Rattle.safl_probe.specs.Growth.{OldOrPart};
ghost use Rattle.safl_probe.specs.Runs.{AllWait, BeginsRun, RunIsTraced, TracesGrow};
ghost use Rattle.safl_probe.specs.Stopping.{KeepsProbes, KeepsShelf, StopsRun};

use crate::drive_err::DriveErr;
use crate::moment::Moment;
use crate::probe::Probe;
use crate::room::make_room;
use crate::tell::tell_all;
use crate::watch::watch;
use safl_io::Shelf;
use safl_run::harness::{Harness, take_arguments};
use safl_sim::{Done, Sim};
use safl_word::Word;
use std::alloc::Global;

/// Simulates a net from reset until `done` is 1, for at most `limit` cycles, and returns the first such cycle. In cycle
/// 0 `start` is 1 and the other inputs have the arguments in order; later all inputs are 0.
///
/// A probe is asked if there is the name of a file at its place. For each asked probe, in order, the file is created
/// with the text of the probe's beginning. After each tick the text of each asked probe for that cycle is appended as
/// one piece, and at the end the texts of the end. An empty text is not appended. After an error each file holds a
/// prefix of its text.
pub fn drive<S: Shelf>(
    alloc: Global,
    sim: &mut Sim,
    args: &[Word],
    limit: u64,
    probes: &mut Vec<Box<dyn Probe>>,
    files: &[Option<String>],
    shelf: &mut S,
) -> Result<Option<Done>, DriveErr>
    requires begins { BeginsRun sim.old args.now }
    requires probes { AllWait files.now (λ p. state p) probes.old.items }
    ensures outcome { IfOk result (IsOutcome sim.old.net args.now limit) }
    ensures net { sim.new.net ≡ sim.old.net }

    // Of the run of `limit` cycles, each asked file holds the trace of the cycles up to the first with `done` at 1, and each
    // asked probe was begun, was shown them, and was ended. After an error the file is as it was, or holds a prefix of that.
    // All other files are as they were.
    ensures traced { OnOk result (RunIsTraced sim.old.net args.now limit files.now (λ p. state p) probes.old probes.new
        (S.told shelf.old) (S.told shelf.new)) }
    ensures part { OnErr result (TracesGrow OldOrPart sim.old.net args.now limit files.now (λ p. state p) probes.old.items
        (S.told shelf.old) (S.told shelf.new)) }

    // There are as many probes, of the same kinds in order, and none has fewer faults. Each that isn't asked is as it was.
    ensures probes { KeepsProbes (asked files.now) (λ p. state p) probes.old.items probes.new.items }
    ensures stopped { IfErr result (StopsRun files.now (λ p. state p) probes.old.items probes.new.items (S.told shelf.old) (S.told shelf.new)) }
    ensures shelf { KeepsShelf (S.told shelf.old) (S.told shelf.new) }
{
    let net = sim.net();
    let _ordered = sim.ordered().net();
    let mut harness = Harness::new(alloc, net)?;
    take_arguments(&mut harness, net, args);
    let mut room = make_room(alloc, sim)?;
    let probes = probes.as_mut_slice();
    tell_all(probes, files, Moment::Beginning, net, shelf, &mut room)?;
    let done = watch(sim, &harness, limit, probes, files, shelf, &mut room)?;
    tell_all(probes, files, Moment::End, sim.net(), shelf, &mut room)?;
    Ok(done)
}
