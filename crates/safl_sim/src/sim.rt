//! A simulator.

use crate::marks::Marks;
use crate::parts::Parts;
use crate::phases::{Pace, cycle, proceed};
use crate::plan::Plan;
use safl_net::{Net, Sig};
use safl_order::Ordered;
use safl_word::{Numbers, Raw, Word};
use std::alloc::Global;
use std::marker::Model;

// After a tick that counts the marked steps, this many ticks evaluate all steps, or the marked ones without counting.
const TICKS_A_COUNT: u8 = 15;

// In the first tick all steps are marked in any net, so the second tick is the first that counts.
const FIRST: Turns = Turns {
    pace: Pace::Marked,
    more: 0,
};

// The pace of the next tick, and how many more ticks have the same pace.
#[derive(Clone, Copy)]
struct Turns {
    pace: Pace,
    more: u8,
}

/// A simulator of a net: steps in an order of evaluation, and the number of each signal.
#[derive(Drop)]
pub struct Sim {
    ordered: Ordered,
    plan: Plan,
    marks: Marks,
    waiting: Marks,
    turns: Turns,
    // For each register, its state.
    state: Vec<Raw>,
    values: Numbers,
}

impl Model for Sim {
    ghost use Rattle.safl_sim.specs.Simulation.{Simulation};

    ghost Value = { Simulation };

    ghost use Rattle.safl_sim.specs.Cycles.{state_of, KeepsStates};

    ghost view = { λ s. record { net = s.ordered.net; state = state_of s.ordered s.plan s.state.items; values = s.values } };

    ghost invariant = { λ s. KeepsStates s.ordered s.plan s.marks s.waiting s.state.items s.values };
}

impl Sim {
    ghost use Rattle.std.specs.Prelude.{◌≡◌, ◌↔◌, ◌<◌, List, length, slice_index, IsTrue, IfOk, IfErr};
    ghost use Rattle.safl_word.specs.Words.{Word};
    ghost use Rattle.safl_net.specs.Netlist.{width_of};
    ghost use Rattle.safl_sim.specs.Places.{AreInputs, HasWords, resets};
    ghost use Rattle.safl_sim.specs.Simulation.{Ticks};

    /// The simulator of a net at reset. The error is out of memory; no other call takes memory.
    pub fn new(alloc: Global, ordered: Ordered) -> Result<Sim, Ordered>
        ensures made { IfOk result (λ s. s ≡ record { net = ordered.net; state = resets ordered.net; values = resets ordered.net }) }
        ensures refused { IfErr result (λ o. o ≡ ordered) }
    {
        match Parts::new(alloc, &ordered) {
            Ok(parts) => Ok(Sim {
                ordered,
                plan: parts.plan,
                marks: parts.marks,
                waiting: parts.waiting,
                turns: FIRST,
                state: parts.state,
                values: parts.values,
            }),
            Err(_) => Err(ordered),
        }
    }

    /// The net.
    pub fn net(&self) -> &Net
        ensures { result.now ≡ self.now.net }
    {
        self.ordered.net()
    }

    /// The net with its order of evaluation, which shows that it has no loops.
    pub fn ordered(&self) -> &Ordered
        ensures { result.now.net ≡ self.now.net }
    {
        &self.ordered
    }

    /// The word of a signal in the last cycle. Before the first tick it is a register's word at reset, and 0 for other
    /// signals.
    pub fn value(&self, s: Sig) -> Word
        requires { s.0 < length self.now.net.signals }
        ensures { result ≡ record { width = width_of self.now.net s.0; bits = slice_index self.now.values s.0 } }
    {
        Word::from_parts(self.ordered.net().width(s), self.values.get(s.0 as usize))
    }

    /// Whether a signal of one bit is 1 in the last cycle.
    #[inline(always)]
    pub fn is_on(&self, s: Sig) -> bool
        requires known { s.0 < length self.now.net.signals }
        requires bit { width_of self.now.net s.0 ≡ 1 }
        ensures on { IsTrue result ↔ (slice_index self.now.values s.0 ≡ 1) }
        ensures off { slice_index self.now.values s.0 < 2 }
    {
        self.values.is_one(s.0 as usize)
    }

    /// Runs a cycle. `inputs` has a word for each input, in order. The values become the one valuation that fits the
    /// register state and these words, and the register state becomes the next one.
    pub fn tick(&mut self, inputs: &[Word])
        requires { AreInputs self.old.net inputs.now }
        ensures { Ticks self.old self.new inputs.now }
    {
        let count = cycle(
            &mut self.values,
            &mut self.state,
            &mut self.marks,
            &mut self.waiting,
            &self.plan,
            inputs,
            self.turns.pace,
        );
        self.turns = next_turns(self.turns, count, self.plan.steps.len());
    }

    /// Runs a cycle in which the inputs keep their words.
    // Never inlined, so that where its code lies does not depend on its caller: speed depends on that. The loops over
    // steps are not in it but in `run_steps`, which `tick` calls too.
    #[inline(never)]
    pub fn tick_again(&mut self)
        ensures { (words : List Word) → HasWords self.old.net self.old.values words → Ticks self.old self.new words }
    {
        let count = proceed(
            &mut self.values,
            &mut self.state,
            &mut self.marks,
            &mut self.waiting,
            &self.plan,
            self.turns.pace,
        );
        self.turns = next_turns(self.turns, count, self.plan.steps.len());
    }
}

// The pace of the tick after these turns. If most steps are marked, looking for marks takes longer than it saves, so
// all steps are evaluated. Counting takes time too, so only one tick in sixteen counts. This matters only for speed.
fn next_turns(turns: Turns, marked: usize, steps: usize) -> Turns {
    if turns.more > 0 {
        return Turns {
            pace: turns.pace,
            more: turns.more - 1,
        };
    }
    let (pace, more) = match turns.pace {
        Pace::Counted if marked > steps / 4 * 3 => (Pace::All, TICKS_A_COUNT - 1),
        Pace::Counted => (Pace::Marked, TICKS_A_COUNT - 1),
        _ => (Pace::Counted, 0),
    };
    Turns { pace, more }
}
