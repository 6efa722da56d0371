//! Sinks, to which text is sent.
ghost use Rattle.std.specs.Prelude.{◌≡◌, ◌≤◌, OnOk, OnErr, IsErrOf};
ghost use Rattle.safl_io.specs.Counts.{Rose};
ghost use Rattle.safl_io.specs.Told.{TellsOn};
ghost use Rattle.safl_io.specs.Sink.{SinkState, Sends, SendsPart};

use crate::fault::OutErr;

/// A sink of bytes.
///
/// A sink that tells what was sent goes on to tell it after every call. A call fails only if it counts a fault, and
/// one that succeeds counts none. The count never falls, and stays at 2^64 - 1 once it is there.
pub trait Sink {
    /// What the sink tells: how often sending failed, and what was sent so far if it tells that.
    ghost told: { Self → SinkState };

    /// Sends all the bytes. After an error a prefix of them was sent.
    fn put(&mut self, bytes: &[u8]) -> Result<(), OutErr>
        ensures sent { OnOk result (TellsOn (Sends bytes.now) (told self.old).sent (told self.new).sent) }
        ensures part { OnErr result (TellsOn (SendsPart bytes.now) (told self.old).sent (told self.new).sent) }
        ensures failed { IsErrOf result OutErr.Failed → Rose (told self.old).faults (told self.new).faults }
        ensures quiet { OnOk result ((told self.new).faults ≡ (told self.old).faults) }
        ensures faults_later { (told self.old).faults ≤ (told self.new).faults };
}
