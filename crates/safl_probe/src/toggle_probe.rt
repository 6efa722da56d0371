//! The probe of toggles.

use crate::probe::{Probe, ProbeErr};
use crate::stage::Stage;
use crate::tracer::Tracer;
use safl_net::Net;
use safl_word::Word;
use std::alloc::Global;
use std::marker::Model;

/// The probe of the register bits that change. It fails only if out of memory; its count of faults stays 0.
#[derive(Drop)]
pub struct ToggleProbe {
    tracer: Tracer,
}

impl Model for ToggleProbe {
    ghost use Rattle.safl_probe.specs.Probing.{ProbeState};

    ghost Value = { ProbeState };

    ghost view = { λ p. p.tracer };
}

impl ToggleProbe {
    ghost use Rattle.std.specs.Prelude.{◌≡◌};
    ghost use Rattle.safl_probe.specs.Probing.{fresh};

    pub fn new(alloc: Global) -> Self
        ensures { result ≡ fresh 3 }
    {
        ToggleProbe {
            tracer: Tracer::new(alloc, 3),
        }
    }
}

impl Probe for ToggleProbe {
    ghost state = { λ told. record told { faults = 0 } };

    fn kind(&self) -> u8 {
        self.tracer.kind()
    }

    fn stage(&self) -> Stage {
        self.tracer.stage()
    }

    fn begin(&mut self, net: &Net, out: &mut Vec<u8>) -> Result<(), ProbeErr> {
        self.tracer.begin(net, out)?;
        Ok(())
    }

    fn cycle(&mut self, t: u64, frame: &[Word], out: &mut Vec<u8>) -> Result<(), ProbeErr> {
        self.tracer.cycle(t, frame, out)?;
        Ok(())
    }

    fn finish(&mut self, out: &mut Vec<u8>) -> Result<(), ProbeErr> {
        self.tracer.finish(out)?;
        Ok(())
    }
}
