//! The harness of a net that is called: the words of its inputs, the signals that are watched, and the loop of a call.

ghost use Rattle.std.specs.Prelude.{◌≡◌, ◌<◌, List, length, IfOk, slice_index};
ghost use Rattle.safl_word.specs.Words.{Word};
ghost use Rattle.safl_net.specs.Whole.{IsWhole};
ghost use Rattle.safl_net.specs.Arguments.{AreArguments};
ghost use Rattle.safl_sim.specs.Places.{AreInputs, HasWords};
ghost use Rattle.safl_sim.specs.Simulation.{Ticks};
ghost use Rattle.safl_sim.specs.Ticks.{words_of};
ghost use Rattle.safl_run.specs.Runners.{IsHarness};
ghost use Rattle.safl_run.specs.Steps.{IsCalled, IsAnswered, GoesOn};
ghost use Rattle.safl_run.specs.Calls.{Answers};

use crate::input_words::{Room, put_arguments, signal_of};
use safl_net::{Net, Sig};
use safl_sim::{Done, Sim};
use safl_word::{NoMemory, Word};
use std::alloc::Global;

/// The room for the words of the inputs, and the signals of `done` and `result`.
#[derive(Drop)]
pub struct Harness {
    pub room: Room,
    pub done: Sig,
    pub result: Sig,
}

impl Harness {
    /// The harness of a net. All memory that calls need is taken here.
    pub fn new(alloc: Global, net: &Net) -> Result<Harness, NoMemory>
        requires { IsWhole net.now }
        ensures { IfOk result (λ h. IsHarness net.now h) }
    {
        Ok(Harness {
            room: Room::new(alloc, net)?,
            done: signal_of(net, "done"),
            result: signal_of(net, "result"),
        })
    }
}

/// Calls a net: in cycle 0 `start` is 1 and the other inputs have the arguments in order; later all inputs are 0. The
/// result is that of the first cycle in which `done` is 1, or None if `done` is 0 in all cycles below `limit`.
pub fn call(sim: &mut Sim, harness: &mut Harness, args: &[Word], limit: u64) -> Option<Done>
    requires harness { IsHarness sim.old.net harness.old }
    requires arguments { AreArguments sim.old.net args.now }
    ensures answers { Answers sim.old.net limit (slice_index sim.old.state) args.now result (slice_index sim.new.state) }
    ensures net { sim.new.net ≡ sim.old.net }
    ensures harness { IsHarness sim.old.net harness.new }
{
    take_arguments(harness, sim.net(), args);
    run_called(sim, harness, limit)
}

/// Runs the call whose words the harness has. The result is that of the first cycle in which `done` is 1, or None if
/// `done` is 0 in all cycles below `limit`.
// Never inlined: the loop's variables stay in registers, which they do not in a large caller.
#[inline(never)]
pub fn run_called(sim: &mut Sim, harness: &Harness, limit: u64) -> Option<Done>
    requires { (args : List Word) × IsCalled sim.old.net args harness.now }
    ensures answers { IsAnswered sim.old sim.new harness.now limit result }
    ensures net { sim.new.net ≡ sim.old.net }
{
    'cycles: for cycle in 0..limit {
        let done = step(sim, harness, cycle);
        if done.is_some() {
            return done;
        }
    }
    None
}

/// Puts the words of a call with these arguments into the harness.
pub fn take_arguments(harness: &mut Harness, net: &Net, args: &[Word])
    requires harness { IsHarness net.now harness.old }
    requires arguments { AreArguments net.now args.now }
    ensures { IsCalled net.now args.now harness.new }
{
    put_arguments(&mut harness.room.first, harness.room.start, args);
}

/// Runs a cycle of the call. Returns the result if `done` is 1 in it.
#[inline(always)]
pub fn step(sim: &mut Sim, harness: &Harness, cycle: u64) -> Option<Done>
    requires called { (args : List Word) × IsCalled sim.old.net args harness.now }
    requires given { 1 < cycle → HasWords sim.old.net sim.old.values harness.now.room.later.items }
    ensures goes { GoesOn sim.old sim.new harness.now cycle result }
    ensures given { 0 < cycle → HasWords sim.new.net sim.new.values harness.now.room.later.items }
    ensures full { length sim.new.values ≡ length sim.new.net.signals }
    ensures net { sim.new.net ≡ sim.old.net }
{
    tick(sim, cycle, &harness.room.first, &harness.room.later);
    if sim.is_on(harness.done) {
        Some(Done {
            cycle,
            result: sim.value(harness.result),
        })
    } else {
        None
    }
}

// Ticks with the words of a cycle. From cycle 2 on the inputs have their words already; that is tested first, since most
// cycles are such ones.
#[inline(always)]
fn tick(sim: &mut Sim, cycle: u64, first: &[Word], later: &[Word])
    requires first { AreInputs sim.old.net first.now }
    requires later { AreInputs sim.old.net later.now }
    requires given { 1 < cycle → HasWords sim.old.net sim.old.values later.now }
    ensures { Ticks sim.old sim.new (words_of cycle first.now later.now) }
{
    if cycle > 1 {
        sim.tick_again();
    } else if cycle == 1 {
        sim.tick(later);
    } else {
        sim.tick(first);
    }
}
