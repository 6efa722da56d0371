//! Showing a cycle to the asked probes.

ghost use Rattle.std.specs.Prelude.{IfErr, OnOk};
ghost use Rattle.safl_io.specs.Shelf.{SameReads, UsesNoStray};
ghost use Rattle.safl_probe.specs.Rooms.{CanFill, HasWidths};
ghost use Rattle.safl_probe.specs.Asked.{asked};
ghost use Rattle.safl_probe.specs.Growth.{AllThere};
ghost use Rattle.safl_probe.specs.Telling.{AllCanTell, AllShown, ShownPart};
ghost use Rattle.safl_probe.specs.Stopping.{KeepsProbes};
ghost use Rattle.safl_probe.specs.declared.moment.Moment.TheVariants as moments;

use crate::drive_err::DriveErr;
use crate::moment::Moment;
use crate::probe::Probe;
use crate::room::{Room, fill};
use crate::tell::tell_all;
use safl_io::Shelf;
use safl_sim::Sim;

/// Shows the values of a cycle to each asked probe, in order, and appends its text to its file.
pub(crate) fn show<S: Shelf>(
    sim: &Sim,
    cycle: u64,
    probes: &mut [Box<dyn Probe>],
    files: &[Option<String>],
    shelf: &mut S,
    room: &mut Room,
) -> Result<(), DriveErr>
    requires can { AllCanTell (moments.Frame cycle) sim.now.values files.now (λ p. state p) probes.old }
    requires room { CanFill sim.now room.old.frame.items }
    ensures shown { OnOk result (AllShown cycle sim.now files.now (λ p. state p) probes.old probes.new (S.told shelf.old) (S.told shelf.new)) }
    ensures part { IfErr result (ShownPart cycle sim.now files.now (λ p. state p) probes.old probes.new (S.told shelf.old) (S.told shelf.new)) }
    ensures probes { KeepsProbes (asked files.now) (λ p. state p) probes.old probes.new }
    ensures room { HasWidths sim.now.net room.new.frame.items }
    ensures reads { SameReads (S.told shelf.old) (S.told shelf.new) }
    ensures strays { AllThere moments.End (asked files.now) (S.told shelf.old).holds → UsesNoStray (S.told shelf.old) (S.told shelf.new) }
{
    fill(&mut room.frame, sim);
    tell_all(probes, files, Moment::Frame(cycle), sim.net(), shelf, room)
}
