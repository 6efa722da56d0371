//! Nets with all operations, and their runs.

ghost use Rattle.std.specs.Prelude.{◌+◌, ◌*◌, ◌<◌, ◌≤◌, length, IfOk, OnOk};
ghost use Rattle.safl_word.specs.Limits.{count_max, width_max};
ghost use Rattle.safl_net.specs.Names.{IsTidy};
ghost use Rattle.safl_net.specs.Growth.{Grows};
ghost use Rattle.safl_bench.specs.WideNets.{Has, TakesOne};

use crate::turns::{Ends, TURN_MAX, spread, turn};
use safl_net::{Net, Sig};
use safl_order::order;
use safl_sim::Sim;
use safl_word::{NoMemory, Raw};
use std::alloc::Global;

/// The number of wires of a net, and the exclusive or of the words of its last wire.
#[derive(Clone, Copy)]
pub struct Shown {
    pub wires: u32,
    pub bits: Raw,
}

// Adds `turns` turns. The result is the last wire.
fn chain(net: &mut Net, width: u8, input: Sig, turns: u32) -> Result<Sig, NoMemory>
    requires wide { 8 ≤ width }
    requires most { width ≤ width_max }
    requires tidy { IsTidy net.old }
    requires has { Has net.old width input }
    requires room { length net.old.signals + TURN_MAX * turns < count_max }
    ensures grows { OnOk result (Grows net.old net.new) }
    ensures has { IfOk result (Has net.new width) }
{
    let mut ends = Ends {
        last: input,
        other: input,
    };
    'turns: for i in 0..turns {
        ends = turn(net, width, i, input, ends)?;
    }
    Ok(ends.last)
}

// A net with one input and `turns` turns, and its last wire.
fn mixed(alloc: Global, width: u8, turns: u32) -> Result<(Net, Sig), NoMemory>
    requires wide { 8 ≤ width }
    requires most { width ≤ width_max }
    requires few { turns < 700000000 }
    ensures takes { IfOk result (λ r. TakesOne r.0 width) }
    ensures last { IfOk result (λ r. r.1.0 < length r.0.signals) }
{
    let mut net = Net::new(alloc);
    let Ok(input) = net.input("x", width) else {
        return Err(NoMemory);
    };
    let last = chain(&mut net, width, input, turns)?;
    Ok((net, last))
}

/// Runs a net of `turns` turns for `ticks` cycles, or only makes it. Widths are from 8 to 128 bits.
pub fn run(alloc: Global, width: u8, turns: u32, ticks: Option<u32>) -> Result<Shown, NoMemory>
    requires wide { 8 ≤ width }
    requires most { width ≤ width_max }
    requires few { turns < 700000000 }
{
    let (net, last) = mixed(alloc, width, turns)?;
    let wires = net.signals().saturating_sub(1);
    let Some(ticks) = ticks else {
        return Ok(Shown { wires, bits: 0 });
    };
    let Ok(ordered) = order(alloc, net) else {
        return Err(NoMemory);
    };
    let Ok(mut sim) = Sim::new(alloc, ordered) else {
        return Err(NoMemory);
    };
    let mut bits = 0;
    'ticks: for i in 0..ticks {
        sim.tick(&[spread(width, i)]);
        bits ^= sim.value(last).bits();
    }
    Ok(Shown { wires, bits })
}
