//! A probe of any kind, which fails only if out of memory.

use crate::entry::{Entry, Spot};
use crate::kind::kind_of;
use crate::look::{entries_of, spots_of};
use crate::stage::Stage;
use crate::texts::{send_closing, send_frame, send_opening};
use safl_net::Net;
use safl_word::{NoMemory, Word};
use std::alloc::Global;
use std::marker::Model;

#[derive(Drop)]
pub(crate) struct Tracer {
    alloc: Global,
    kind: u8,
    stage: Stage,
    signals: u32,
    entries: Vec<Entry>,
    spots: Vec<Spot>,
    turn: u64,
    text: Vec<u8>,
}

impl Model for Tracer {
    ghost use Rattle.safl_probe.specs.Probing.{ProbeState};

    ghost Value = { ProbeState };

    ghost use Rattle.safl_probe.specs.Entries.{told_of};

    ghost view = { λ t. told_of t.kind t.stage t.signals t.entries.items t.spots.items t.turn };
}

impl Tracer {
    ghost use Rattle.std.specs.Prelude.{◌≡◌, ◌++◌, OnOk, OnErr};
    ghost use Rattle.safl_probe.specs.Watching.{shown_frame};
    ghost use Rattle.safl_probe.specs.Probing.{fresh, begun, after_frame, ended, TakesFrame, HasFailed, begin_text, cycle_text, finish_text};

    pub(crate) fn new(alloc: Global, kind: u8) -> Self
        ensures { result ≡ fresh kind }
    {
        Tracer {
            alloc,
            kind,
            stage: Stage::Waiting,
            signals: 0,
            entries: Vec::new(alloc),
            spots: Vec::new(alloc),
            turn: 0,
            text: Vec::new(alloc),
        }
    }

    pub(crate) fn kind(&self) -> u8
        ensures { result ≡ self.now.kind }
    {
        self.kind
    }

    pub(crate) fn stage(&self) -> Stage
        ensures { result ≡ self.now.stage }
    {
        self.stage
    }

    pub(crate) fn begin(&mut self, net: &Net, out: &mut Vec<u8>) -> Result<(), NoMemory>
        ensures added { OnOk result (out.new.items ≡ out.old.items ++ begin_text net.now self.old) }
        ensures same { OnErr result (out.new.items ≡ out.old.items) }
        ensures told { OnOk result (self.new ≡ begun net.now self.old) }
        ensures stopped { OnErr result (HasFailed self.new) }
        ensures kind { self.new.kind ≡ self.old.kind }
    {
        self.stage = Stage::Failed;
        let kind = kind_of(self.kind);
        let entries = entries_of(self.alloc, kind, net)?;
        let spots = spots_of(self.alloc, &entries)?;
        send_opening(&mut self.text, kind, &entries, out)?;
        self.stage = Stage::Watching;
        self.signals = net.signals();
        self.entries = entries;
        self.spots = spots;
        self.turn = 0;
        Ok(())
    }

    pub(crate) fn cycle(
        &mut self,
        t: u64,
        frame: &[Word],
        out: &mut Vec<u8>,
    ) -> Result<(), NoMemory>
        requires { TakesFrame t (shown_frame frame.now) self.old }
        ensures added { OnOk result (out.new.items ≡ out.old.items ++ cycle_text (shown_frame frame.now) self.old) }
        ensures same { OnErr result (out.new.items ≡ out.old.items) }
        ensures told { OnOk result (self.new ≡ after_frame (shown_frame frame.now) self.old) }
        ensures stopped { OnErr result (HasFailed self.new) }
        ensures kind { self.new.kind ≡ self.old.kind }
    {
        self.stage = Stage::Failed;
        send_frame(
            &mut self.text,
            kind_of(self.kind),
            t,
            &self.entries,
            &mut self.spots,
            frame,
            out,
        )?;
        self.stage = Stage::Watching;
        self.turn = t + 1;
        Ok(())
    }

    pub(crate) fn finish(&mut self, out: &mut Vec<u8>) -> Result<(), NoMemory>
        ensures added { OnOk result (out.new.items ≡ out.old.items ++ finish_text self.old) }
        ensures same { OnErr result (out.new.items ≡ out.old.items) }
        ensures told { OnOk result (self.new ≡ ended self.old) }
        ensures stopped { OnErr result (HasFailed self.new) }
        ensures kind { self.new.kind ≡ self.old.kind }
    {
        self.stage = Stage::Failed;
        send_closing(&mut self.text, kind_of(self.kind), self.turn, out)?;
        self.stage = Stage::Ended;
        Ok(())
    }

    /// Fails.
    pub(crate) fn stop(&mut self)
        ensures stopped { HasFailed self.new }
        ensures kind { self.new.kind ≡ self.old.kind }
    {
        self.stage = Stage::Failed;
    }
}
