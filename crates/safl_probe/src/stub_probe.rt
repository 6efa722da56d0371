//! A probe of which one call fails, for tests.

use crate::probe::{Probe, ProbeErr};
use crate::stage::Stage;
use crate::tracer::Tracer;
use safl_net::Net;
use safl_word::Word;
use std::alloc::Global;
use std::marker::Model;

/// A probe of any kind, with the texts of that kind, of which one call fails. That call counts a fault and appends
/// nothing.
#[derive(Drop)]
pub struct StubProbe {
    tracer: Tracer,
    fail_at: u64,
    calls: u64,
    faults: u64,
}

impl Model for StubProbe {
    ghost use Rattle.safl_probe.specs.Stubs.{Stub};

    ghost Value = { Stub };

    ghost view = { λ s. record { probe = record s.tracer { faults = s.faults }; fail_at = s.fail_at; calls = s.calls } };
}

impl StubProbe {
    ghost use Rattle.std.specs.Prelude.{◌≡◌, ◌↔◌, ◌≤◌, IsTrue};
    ghost use Rattle.std.specs.Bool.{OnFalse};
    ghost use Rattle.safl_io.specs.Counts.{Rose, raised};
    ghost use Rattle.safl_probe.specs.Probing.{fresh};
    ghost use Rattle.safl_probe.specs.Stubs.{Stub, FailsNext};

    /// A probe of this kind whose call number `fail_at` fails. All calls of `begin`, `cycle` and `finish` are counted,
    /// from 1.
    pub fn new(alloc: Global, kind: u8, fail_at: u64) -> StubProbe
        ensures { result ≡ record { probe = fresh kind; fail_at = fail_at; calls = 0 } }
    {
        StubProbe {
            tracer: Tracer::new(alloc, kind),
            fail_at,
            calls: 0,
            faults: 0,
        }
    }

    // Counts a call, and a fault if the call is to fail. Says whether it is to fail.
    fn next_fails(&mut self) -> bool
        ensures fails { IsTrue result ↔ FailsNext self.old }
        ensures calls { self.new.calls ≡ raised self.old.calls }
        ensures same { self.new ≡ record {
          probe = record self.old.probe { faults = self.new.probe.faults };
          fail_at = self.old.fail_at;
          calls = self.new.calls;
        } }
        ensures rose { IsTrue result → Rose self.old.probe.faults self.new.probe.faults }
        ensures quiet { OnFalse result (self.new.probe.faults ≡ self.old.probe.faults) }
        ensures later { self.old.probe.faults ≤ self.new.probe.faults }
    {
        self.calls = self.calls.saturating_add(1);
        if self.calls != self.fail_at {
            return false;
        }
        self.faults = self.faults.saturating_add(1);
        true
    }
}

impl Probe for StubProbe {
    ghost use Rattle.std.specs.Prelude.{◌↔◌, OnOk, OnErr, IsErrOf};
    ghost use Rattle.safl_io.specs.Counts.{Rose};
    ghost use Rattle.safl_io.specs.Sink.{Sends, SendsPart};
    ghost use Rattle.safl_probe.specs.Watching.{shown_frame};
    ghost use Rattle.safl_probe.specs.Probing.{Tells, SameProbe, TakesFrame, IsWaiting, IsWatching, HasFailed, begun, after_frame, ended, begin_text, cycle_text, finish_text};
    ghost use Rattle.safl_probe.specs.Stubs.{FailsNext, CountsCall};

    ghost state = { λ stub. stub.probe };

    fn kind(&self) -> u8 {
        self.tracer.kind()
    }

    fn stage(&self) -> Stage {
        self.tracer.stage()
    }

    fn begin(&mut self, net: &Net, out: &mut Vec<u8>) -> Result<(), ProbeErr>
        requires waiting { IsWaiting self.old.probe }
        ensures added { OnOk result (Sends (begin_text net.now self.old.probe) out.old.items out.new.items) }
        ensures part { OnErr result (SendsPart (begin_text net.now self.old.probe) out.old.items out.new.items) }
        ensures tells { OnOk result (Tells (begun net.now self.old.probe) self.new.probe) }
        ensures stopped { OnErr result (HasFailed self.new.probe) }
        ensures same_probe { SameProbe self.old.probe self.new.probe }
        ensures failed { IsErrOf result ProbeErr.Failed → Rose self.old.probe.faults self.new.probe.faults }
        ensures fails { IsErrOf result ProbeErr.Failed ↔ FailsNext self.old }
        ensures counts { CountsCall self.old self.new }
    {
        if self.next_fails() {
            self.tracer.stop();
            return Err(ProbeErr::Failed);
        }
        self.tracer.begin(net, out)?;
        Ok(())
    }

    fn cycle(&mut self, t: u64, frame: &[Word], out: &mut Vec<u8>) -> Result<(), ProbeErr>
        requires takes { TakesFrame t (shown_frame frame.now) self.old.probe }
        ensures added { OnOk result (Sends (cycle_text (shown_frame frame.now) self.old.probe) out.old.items out.new.items) }
        ensures part { OnErr result (SendsPart (cycle_text (shown_frame frame.now) self.old.probe) out.old.items out.new.items) }
        ensures tells { OnOk result (Tells (after_frame (shown_frame frame.now) self.old.probe) self.new.probe) }
        ensures stopped { OnErr result (HasFailed self.new.probe) }
        ensures same_probe { SameProbe self.old.probe self.new.probe }
        ensures failed { IsErrOf result ProbeErr.Failed → Rose self.old.probe.faults self.new.probe.faults }
        ensures fails { IsErrOf result ProbeErr.Failed ↔ FailsNext self.old }
        ensures counts { CountsCall self.old self.new }
    {
        if self.next_fails() {
            self.tracer.stop();
            return Err(ProbeErr::Failed);
        }
        self.tracer.cycle(t, frame, out)?;
        Ok(())
    }

    fn finish(&mut self, out: &mut Vec<u8>) -> Result<(), ProbeErr>
        requires watching { IsWatching self.old.probe }
        ensures added { OnOk result (Sends (finish_text self.old.probe) out.old.items out.new.items) }
        ensures part { OnErr result (SendsPart (finish_text self.old.probe) out.old.items out.new.items) }
        ensures tells { OnOk result (Tells (ended self.old.probe) self.new.probe) }
        ensures stopped { OnErr result (HasFailed self.new.probe) }
        ensures same_probe { SameProbe self.old.probe self.new.probe }
        ensures failed { IsErrOf result ProbeErr.Failed → Rose self.old.probe.faults self.new.probe.faults }
        ensures fails { IsErrOf result ProbeErr.Failed ↔ FailsNext self.old }
        ensures counts { CountsCall self.old self.new }
    {
        if self.next_fails() {
            self.tracer.stop();
            return Err(ProbeErr::Failed);
        }
        self.tracer.finish(out)?;
        Ok(())
    }
}
