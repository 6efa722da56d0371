//! The loop of a run that probes watch.

ghost use Rattle.std.specs.Prelude.{◌≡◌, List, false, IfOk, IfErr};
ghost use Rattle.safl_io.specs.Shelf.{SameReads, UsesNoStray};
ghost use Rattle.safl_probe.specs.Rooms.{HasWidths};
ghost use Rattle.safl_probe.specs.Asked.{NoneAsked, asked};
ghost use Rattle.safl_probe.specs.Growth.{AllThere};
ghost use Rattle.safl_probe.specs.Stopping.{KeepsProbes};
ghost use Rattle.safl_word.specs.Words.{Word};
ghost use Rattle.safl_run.specs.Steps.{IsCalled};
ghost use Rattle.safl_probe.specs.Rounds.{AllReady, IsShown, ShowsPart};
ghost use Rattle.safl_probe.specs.declared.moment.Moment.TheVariants as moments;

use crate::drive_err::DriveErr;
use crate::probe::Probe;
use crate::room::Room;
use crate::show::show;
use safl_io::Shelf;
use safl_run::harness::{Harness, run_called, step};
use safl_sim::{Done, Sim};

/// Ticks until `done` is 1, at most `limit` times, and shows each cycle to the asked probes.
pub(crate) fn watch<S: Shelf>(
    sim: &mut Sim,
    harness: &Harness,
    limit: u64,
    probes: &mut [Box<dyn Probe>],
    files: &[Option<String>],
    shelf: &mut S,
    room: &mut Room,
) -> Result<Option<Done>, DriveErr>
    requires called { (args : List Word) × IsCalled sim.old.net args harness.now }
    requires ready { AllReady sim.old.net files.now (λ p. state p) probes.old }
    requires room { HasWidths sim.old.net room.old.frame.items }
    ensures watched { IfOk result (IsShown sim.old sim.new harness.now limit files.now (λ p. state p) probes.old probes.new
        (S.told shelf.old) (S.told shelf.new)) }
    ensures broken { IfErr result (ShowsPart sim.old harness.now limit files.now (λ p. state p) probes.old probes.new
        (S.told shelf.old) (S.told shelf.new)) }
    ensures net { sim.new.net ≡ sim.old.net }
    ensures probes { KeepsProbes (asked files.now) (λ p. state p) probes.old probes.new }
    ensures reads { SameReads (S.told shelf.old) (S.told shelf.new) }
    ensures strays { AllThere moments.End (asked files.now) (S.told shelf.old).holds → UsesNoStray (S.told shelf.old) (S.told shelf.new) }
{
    if !is_any_asked(files) {
        return Ok(run_called(sim, harness, limit));
    }
    'cycles: for cycle in 0..limit {
        let done = step(sim, harness, cycle);
        show(sim, cycle, probes, files, shelf, room)?;
        if done.is_some() {
            return Ok(done);
        }
    }
    Ok(None)
}

// Whether any probe is asked.
fn is_any_asked(files: &[Option<String>]) -> bool
    ensures { result ≡ false → NoneAsked (asked files.now) }
{
    for file in files {
        if file.is_some() {
            return true;
        }
    }
    false
}
