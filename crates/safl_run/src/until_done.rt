//! Runs from reset until `done` is 1.

ghost use Rattle.std.specs.Prelude.{◌≡◌, IfOk, OnErr};
ghost use Rattle.safl_net.specs.Whole.{IsWhole};
ghost use Rattle.safl_sim.specs.Places.{resets};
ghost use Rattle.safl_net.specs.Arguments.{AreArguments};
ghost use Rattle.safl_run.specs.Calls.{IsOutcome};

use crate::harness::{Harness, call};
use safl_sim::{Done, Sim};
use safl_word::{NoMemory, Word};
use std::alloc::Global;

/// Simulates a net from reset until `done` is 1, for at most `limit` cycles, and returns the first such cycle. In cycle
/// 0 `start` is 1 and the other inputs have the arguments in order; later all inputs are 0. Only the room for the words
/// of the inputs takes memory; if there is none, the simulator is as it was.
pub fn run_until_done(
    alloc: Global,
    sim: &mut Sim,
    args: &[Word],
    limit: u64,
) -> Result<Option<Done>, NoMemory>
    requires whole { IsWhole sim.old.net }
    requires fresh { sim.old.state ≡ resets sim.old.net }
    requires arguments { AreArguments sim.old.net args.now }
    ensures outcome { IfOk result (IsOutcome sim.old.net args.now limit) }
    ensures net { sim.new.net ≡ sim.old.net }
    ensures refused { OnErr result (sim.new ≡ sim.old) }
{
    let _net = sim.ordered().net();
    let mut harness = Harness::new(alloc, sim.net())?;
    Ok(call(sim, &mut harness, args, limit))
}
