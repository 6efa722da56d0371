//! Telling the asked probes of a moment of the run.

ghost use Rattle.std.specs.Prelude.{◌≡◌, [], IfErr, OnOk, OnErr, IsErrOf};
ghost use Rattle.safl_io.specs.Counts.{Rose};
ghost use Rattle.safl_io.specs.Shelf.{SameReads, UsesNoStray};
ghost use Rattle.safl_probe.specs.Probing.{SameProbe, Tells, HasFailed, TakesFrame, after_frame, cycle_text};
ghost use Rattle.safl_probe.specs.Asked.{asked};
ghost use Rattle.safl_probe.specs.Moments.{CanTell, text_at, state_at};
ghost use Rattle.safl_probe.specs.Growth.{Grown, GrownPart, IsThere, AllThere};
ghost use Rattle.safl_probe.specs.Telling.{WasTold, frame_in, AllCanTell, AllTold, ToldPart, GrowsAt};
ghost use Rattle.safl_probe.specs.Stopping.{Blames, KeepsProbes};

use crate::drive_err::{DriveErr, unprobed, unwritten};
use crate::files::{append, open};
use crate::moment::Moment;
use crate::probe::{Probe, ProbeErr};
use crate::room::Room;
use safl_io::Shelf;
use safl_net::Net;

/// Tells a probe of a moment. Its text is put into the room, and nowhere else.
pub(crate) fn tell(
    probe: &mut Box<dyn Probe>,
    moment: Moment,
    net: &Net,
    room: &mut Room,
) -> Result<(), ProbeErr>
    requires { CanTell moment (frame_in room.old) (state probe.old) }
    ensures text { OnOk result (room.new.text.items ≡ text_at moment net.now (frame_in room.old) (state probe.old)) }
    ensures tells { OnOk result (Tells (state_at moment net.now (frame_in room.old) (state probe.old)) (state probe.new)) }
    ensures same_probe { SameProbe (state probe.old) (state probe.new) }
    ensures failed { IsErrOf result ProbeErr.Failed → Rose (state probe.old).faults (state probe.new).faults }
    ensures stopped { OnErr result (HasFailed (state probe.new)) }
    ensures same_frame { room.new.frame ≡ room.old.frame }
{
    room.text.clear();
    match moment {
        Moment::Beginning => probe.begin(net, &mut room.text),
        Moment::Frame(t) => tell_frame(probe, t, room),
        Moment::End => probe.finish(&mut room.text),
    }
}

/// Tells a probe of the frame in the room. Its text is put into the empty room.
fn tell_frame(probe: &mut Box<dyn Probe>, t: u64, room: &mut Room) -> Result<(), ProbeErr>
    requires takes { TakesFrame t (frame_in room.old) (state probe.old) }
    requires empty { room.old.text.items ≡ [] }
    ensures text { OnOk result (room.new.text.items ≡ cycle_text (frame_in room.old) (state probe.old)) }
    ensures tells { OnOk result (Tells (after_frame (frame_in room.old) (state probe.old)) (state probe.new)) }
    ensures same_probe { SameProbe (state probe.old) (state probe.new) }
    ensures failed { IsErrOf result ProbeErr.Failed → Rose (state probe.old).faults (state probe.new).faults }
    ensures stopped { OnErr result (HasFailed (state probe.new)) }
    ensures same_frame { room.new.frame ≡ room.old.frame }
{
    probe.cycle(t, &room.frame, &mut room.text)
}

/// Tells a probe of a moment, and appends its text to the file `name`. At the beginning it creates the file.
pub(crate) fn tell_one<S: Shelf>(
    probe: &mut Box<dyn Probe>,
    name: &str,
    place: usize,
    moment: Moment,
    net: &Net,
    shelf: &mut S,
    room: &mut Room,
) -> Result<(), DriveErr>
    requires { CanTell moment (frame_in room.old) (state probe.old) }
    ensures grown { OnOk result (GrowsAt Grown moment net.now (frame_in room.old) name.now (state probe.old) (S.told shelf.old) (S.told shelf.new)) }
    ensures part { OnErr result (GrowsAt GrownPart moment net.now (frame_in room.old) name.now (state probe.old) (S.told shelf.old) (S.told shelf.new)) }
    ensures told { OnOk result (WasTold moment net.now (frame_in room.old) (state probe.old) (state probe.new) (S.told shelf.old) (S.told shelf.new)) }
    ensures same_probe { SameProbe (state probe.old) (state probe.new) }
    ensures same_frame { room.new.frame ≡ room.old.frame }
    ensures blames { IfErr result (λ why. Blames why place (state probe.old) (state probe.new) (S.told shelf.old) (S.told shelf.new)) }
    ensures reads { SameReads (S.told shelf.old) (S.told shelf.new) }
    ensures strays { IsThere moment name.now (S.told shelf.old).holds → UsesNoStray (S.told shelf.old) (S.told shelf.new) }
{
    open(moment, name, shelf).map_err(|why| unwritten(place, why))?;
    match tell(probe, moment, net, room) {
        Ok(()) => append(name, &room.text, shelf).map_err(|why| unwritten(place, why)),
        Err(why) => Err(unprobed(probe.kind(), why)),
    }
}

/// Tells each asked probe of a moment, in order.
pub(crate) fn tell_all<S: Shelf>(
    probes: &mut [Box<dyn Probe>],
    files: &[Option<String>],
    moment: Moment,
    net: &Net,
    shelf: &mut S,
    room: &mut Room,
) -> Result<(), DriveErr>
    requires { AllCanTell moment (frame_in room.old) files.now (λ p. state p) probes.old }
    ensures told { OnOk result (AllTold moment net.now (frame_in room.old) files.now (λ p. state p) probes.old probes.new
        (S.told shelf.old) (S.told shelf.new)) }
    ensures part { IfErr result (ToldPart moment net.now (frame_in room.old) files.now (λ p. state p) probes.old probes.new
        (S.told shelf.old) (S.told shelf.new)) }
    ensures probes { KeepsProbes (asked files.now) (λ p. state p) probes.old probes.new }
    ensures same_frame { room.new.frame ≡ room.old.frame }
    ensures reads { SameReads (S.told shelf.old) (S.told shelf.new) }
    ensures strays { AllThere moment (asked files.now) (S.told shelf.old).holds → UsesNoStray (S.told shelf.old) (S.told shelf.new) }
{
    'probes: for i in 0..probes.len() {
        if let Some(name) = &files[i] {
            tell_one(&mut probes[i], name, i, moment, net, shelf, room)?;
        }
    }
    Ok(())
}
