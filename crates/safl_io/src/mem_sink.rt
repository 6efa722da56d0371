//! A sink in memory, for tests.
ghost use Rattle.std.specs.Prelude.{◌≡◌, ◌≤◌, [], OnOk, OnErr, IsErrOf};
ghost use Rattle.safl_io.specs.Sink.{Sends, SendsPart};
ghost use Rattle.safl_io.specs.Calls.{Fails, FailsWhere, CountsFault, called, no_calls, with_failing};
ghost use Rattle.safl_io.specs.MemSink.{SendsHalf};

use crate::calls::{CallPlan, raise};
use crate::fault::OutErr;
use crate::sink::Sink;
use safl_word::NoMemory;
use std::alloc::Global;
use std::marker::Model;

/// A sink in memory. It tells what was sent.
#[derive(Drop)]
pub struct MemSink {
    bytes: Vec<u8>,
    calls: CallPlan,
    faults: u64,
}

impl Model for MemSink {
    ghost use Rattle.safl_io.specs.MemSink.{Sent};

    ghost Value = { Sent };

    ghost view = { λ sink. record { bytes = sink.bytes.items; calls = sink.calls; faults = sink.faults } };
}

impl MemSink {
    /// A sink to which nothing was sent, without faults. No call is to fail.
    pub fn new(alloc: Global) -> Self
        ensures { result ≡ record { bytes = []; calls = no_calls; faults = 0 } }
    {
        MemSink {
            bytes: Vec::new(alloc),
            calls: CallPlan::new(alloc),
            faults: 0,
        }
    }

    /// Lets the call of this number fail. Only calls of the trait are counted, from 1.
    pub fn fail_call(&mut self, call: u64) -> Result<(), NoMemory>
        ensures listed { OnOk result (self.new ≡ record self.old { calls = with_failing call self.old.calls }) }
        ensures same { OnErr result (self.new ≡ self.old) }
    {
        self.calls.fail_call(call)?;
        Ok(())
    }

    /// What was sent. This is no call of the trait.
    pub fn bytes(&self) -> &[u8]
        ensures { result.now ≡ self.now.bytes }
    {
        &self.bytes
    }
}

impl Sink for MemSink {
    ghost use Rattle.std.specs.Prelude.{Some};

    ghost told = { λ sink. record { sent = Some sink.bytes; faults = sink.faults } };

    // It fails exactly on a listed call, out of memory aside, and counts one fault then and none else.
    fn put(&mut self, bytes: &[u8]) -> Result<(), OutErr>
        ensures fails { FailsWhere (Fails self.old.calls) result }
        ensures sent { OnOk result (Sends bytes.now self.old.bytes self.new.bytes) }
        ensures part { OnErr result (SendsPart bytes.now self.old.bytes self.new.bytes) }
        ensures half { IsErrOf result OutErr.Failed → SendsHalf bytes.now self.old.bytes self.new.bytes }
        ensures counts { CountsFault result self.old.faults self.new.faults }
        ensures faults_later { self.old.faults ≤ self.new.faults }
        ensures called { self.new.calls ≡ called self.old.calls }
    {
        if self.calls.next_fails() {
            self.bytes.extend_from_slice(&bytes[..bytes.len() / 2])?;
            self.faults = raise(self.faults);
            return Err(OutErr::Failed);
        }
        self.bytes.extend_from_slice(bytes)?;
        Ok(())
    }
}
