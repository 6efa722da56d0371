//! Runners, which call a net again and again.

use crate::harness::{Harness, call};
use safl_sim::{Done, Sim};
use safl_word::Word;
use std::alloc::Global;
use std::marker::Model;

/// A simulator whose net is called again and again.
#[derive(Drop)]
pub struct Runner {
    sim: Sim,
    harness: Harness,
}

impl Model for Runner {
    ghost use Rattle.safl_run.specs.Runners.{Running};

    ghost Value = { Running };

    ghost use Rattle.safl_run.specs.Runners.{IsHarness};

    ghost view = { λ r. record { net = r.sim.net; state = r.sim.state } };

    ghost invariant = { λ r. IsHarness r.sim.net r.harness };
}

impl Runner {
    ghost use Rattle.std.specs.Prelude.{◌≡◌, IfOk, IfErr, slice_index};
    ghost use Rattle.safl_net.specs.Whole.{IsWhole};
    ghost use Rattle.safl_net.specs.Arguments.{AreArguments};
    ghost use Rattle.safl_run.specs.Calls.{Answers};

    /// A runner of a net, from the state of its simulator. All memory that calls need is taken here. The error is out
    /// of memory, and hands the simulator back.
    pub fn new(alloc: Global, sim: Sim) -> Result<Runner, Sim>
        requires { IsWhole sim.net }
        ensures made { IfOk result (λ r. r ≡ record { net = sim.net; state = sim.state }) }
        ensures refused { IfErr result (λ s. s ≡ sim) }
    {
        let Ok(harness) = Harness::new(alloc, sim.net()) else {
            return Err(sim);
        };
        Ok(Runner { sim, harness })
    }

    /// Calls the net: in cycle 0 `start` is 1 and the other inputs have the arguments in order; later all inputs are 0.
    /// The result is that of the first cycle in which `done` is 1; the next call goes on from the state after it. None
    /// if `done` is 0 in all cycles below `limit`.
    pub fn call(&mut self, args: &[Word], limit: u64) -> Option<Done>
        requires { AreArguments self.old.net args.now }
        ensures answers { Answers self.old.net limit (slice_index self.old.state) args.now result (slice_index self.new.state) }
        ensures net { self.new.net ≡ self.old.net }
    {
        call(&mut self.sim, &mut self.harness, args, limit)
    }
}
