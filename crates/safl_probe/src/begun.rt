//! Whether probes have begun.

ghost use Rattle.std.specs.Prelude.{◌↔◌, IsTrue};
ghost use Rattle.safl_probe.specs.Probing.{IsWaiting};
ghost use Rattle.safl_probe.specs.Asked.{Unbegun};

use crate::probe::Probe;
use crate::stage::Stage;

/// Whether no probe has begun.
pub fn none_begun(probes: &[Box<dyn Probe>]) -> bool
    ensures { IsTrue result ↔ Unbegun state probes.now }
{
    'probes: for i in 0..probes.len() {
        if !is_waiting(&probes[i]) {
            return false;
        }
    }
    true
}

fn is_waiting(probe: &Box<dyn Probe>) -> bool
    ensures { IsTrue result ↔ IsWaiting (state probe.now) }
{
    match probe.stage() {
        Stage::Waiting => true,
        Stage::Watching | Stage::Ended | Stage::Failed => false,
    }
}
