//! The trait of probes.
ghost use Rattle.std.specs.Prelude.{◌≡◌, OnOk, OnErr, IsErrOf};
ghost use Rattle.safl_io.specs.Counts.{Rose};
ghost use Rattle.safl_io.specs.Sink.{Sends, SendsPart};
ghost use Rattle.safl_probe.specs.Watching.{shown_frame};
ghost use Rattle.safl_probe.specs.Probing.{ProbeState, Tells, SameProbe, TakesFrame, IsWaiting, IsWatching, HasFailed, begun, after_frame, ended};
ghost use Rattle.safl_probe.specs.Probing.{begin_text, cycle_text, finish_text};
ghost use Rattle.safl_probe.specs.declared.probe.ProbeErr.TheVariants as why;

use crate::stage::Stage;
use safl_net::Net;
use safl_word::{NoMemory, Word};
use thiserror::Error;

/// Why a probe gave no text.
#[derive(Clone, Copy, Debug, PartialEq, Eq, Error)]
pub enum ProbeErr {
    /// The probe failed, and has counted the fault.
    #[error("the probe failed")]
    Failed,
    #[error("out of memory")]
    NoMemory,
}

impl From<NoMemory> for ProbeErr {
    ghost from_gives = { λ _ e. e ≡ why.NoMemory };

    fn from(_: NoMemory) -> Self {
        ProbeErr::NoMemory
    }
}

/// A probe watches a simulation and writes text: first that of the beginning, then that of each frame, then that of the
/// end.
///
/// A frame is the words of all signals in a cycle, in the order of their numbers. A call fails only if the probe counts
/// a fault, and a call that gives its text counts none. The count never falls, and may stand still at 2^64 - 1. After an
/// error a prefix of the text was appended, and the probe is used no more: it begins once, takes frames, and ends once,
/// and no call may follow an error or the end.
pub trait Probe: Drop {
    /// What the probe tells: its kind, how far it has come, what it watches, what it saw last, how many frames it was
    /// given, and its count of faults.
    ghost state: { Self → ProbeState };

    /// The kind: 1 is VCD, 2 is starts, 3 is toggles. Any other kind writes nothing.
    fn kind(&self) -> u8
        ensures { result ≡ (state self.now).kind };

    /// How far the probe has come.
    fn stage(&self) -> Stage
        ensures { result ≡ (state self.now).stage };

    /// Begins on a net, and appends the text of the beginning.
    fn begin(&mut self, net: &Net, out: &mut Vec<u8>) -> Result<(), ProbeErr>
        requires waiting { IsWaiting (state self.old) }
        ensures added { OnOk result (Sends (begin_text net.now (state self.old)) out.old.items out.new.items) }
        ensures part { OnErr result (SendsPart (begin_text net.now (state self.old)) out.old.items out.new.items) }
        ensures tells { OnOk result (Tells (begun net.now (state self.old)) (state self.new)) }
        ensures stopped { OnErr result (HasFailed (state self.new)) }
        ensures same_probe { SameProbe (state self.old) (state self.new) }
        ensures failed { IsErrOf result ProbeErr.Failed → Rose (state self.old).faults (state self.new).faults };

    /// Takes the frame of cycle `t`, and appends its text. `t` has to be the number of frames taken so far.
    fn cycle(&mut self, t: u64, frame: &[Word], out: &mut Vec<u8>) -> Result<(), ProbeErr>
        requires takes { TakesFrame t (shown_frame frame.now) (state self.old) }
        ensures added { OnOk result (Sends (cycle_text (shown_frame frame.now) (state self.old)) out.old.items out.new.items) }
        ensures part { OnErr result (SendsPart (cycle_text (shown_frame frame.now) (state self.old)) out.old.items out.new.items) }
        ensures tells { OnOk result (Tells (after_frame (shown_frame frame.now) (state self.old)) (state self.new)) }
        ensures stopped { OnErr result (HasFailed (state self.new)) }
        ensures same_probe { SameProbe (state self.old) (state self.new) }
        ensures failed { IsErrOf result ProbeErr.Failed → Rose (state self.old).faults (state self.new).faults };

    /// Appends the text of the end.
    fn finish(&mut self, out: &mut Vec<u8>) -> Result<(), ProbeErr>
        requires watching { IsWatching (state self.old) }
        ensures added { OnOk result (Sends (finish_text (state self.old)) out.old.items out.new.items) }
        ensures part { OnErr result (SendsPart (finish_text (state self.old)) out.old.items out.new.items) }
        ensures tells { OnOk result (Tells (ended (state self.old)) (state self.new)) }
        ensures stopped { OnErr result (HasFailed (state self.new)) }
        ensures same_probe { SameProbe (state self.old) (state self.new) }
        ensures failed { IsErrOf result ProbeErr.Failed → Rose (state self.old).faults (state self.new).faults };
}
