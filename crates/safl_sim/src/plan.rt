//! The plan of a simulation: the parts of a simulator that never change.

ghost use Rattle.safl_sim.specs.Nears.{AreNear, AreGrouped};
ghost use Rattle.std.specs.Prelude.{◌≡◌, length};
ghost use Rattle.safl_sim.specs.Guards.{AreGuards, AreGuards-prop};

use crate::step::{Group, Guard, Register, Step};
use safl_net::Sig;

/// The plan of a simulation: the steps, in an order of evaluation, with the masks of their near readers; the inputs;
/// the registers, with the groups of their near readers; and the readers of each place.
///
/// The readers of place `p` are `readers[starts[p]..starts[p + 1]]`, by the numbers of their marks: steps with the
/// place as an operand, and registers with it as their next signal. Each reader has a guard.
#[derive(Drop)]
pub struct Plan {
    pub steps: Vec<Step>,
    pub masks: Vec<u64>,
    pub inputs: Vec<Sig>,
    pub registers: Vec<Register>,
    pub groups: Vec<Group>,
    pub starts: Vec<u32>,
    pub readers: Vec<u32>,
    pub guards: Vec<Guard>,
    pub ghost near: { AreNear starts.items readers.items steps.items masks.items },
    pub ghost grouped: { AreGrouped starts.items readers.items registers.items groups.items },
    pub ghost guard_for_each: { length guards.items ≡ length readers.items },
    pub ghost guarded: { AreGuards steps.items starts.items readers.items guards.items } by { AreGuards-prop steps.items starts.items
        readers.items guards.items },
}
