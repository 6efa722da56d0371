//! Runs nets of many wires, with all operators, for some cycles, and prints the words of their last wires.
//!
//! There are three nets; a number from 1 to 3 runs only that one. With the word `net` the nets are made but not run.
//! With `sim` their simulators are made too. So the differences of the times are those of ordering a net and of making
//! its simulator.

ghost use Rattle.std.specs.Prelude.{◌<◌, ◌≤◌};
ghost use Rattle.safl_word.specs.Limits.{width_max};

use crate::wide_nets;
use std::io;

/// What the words ask for: one net or all, and how far to go.
#[derive(Clone, Copy)]
struct Wanted {
    number: Option<u8>,
    stage: Stage,
}

#[derive(Clone, Copy)]
enum Stage {
    Net,
    Simulator,
    Cycles,
}

/// Runs the nets that the words ask for.
pub fn run(rt: &HostRuntime, words: &[String]) -> io::Result<()> {
    let wanted = wanted_by(words);
    if is_wanted(wanted, 1) {
        show(rt, 64, 2_000, ticks(wanted, 20_000))?;
    }
    if is_wanted(wanted, 2) {
        show(rt, 128, 2_000, ticks(wanted, 20_000))?;
    }
    if is_wanted(wanted, 3) {
        show(rt, 64, 200_000, ticks(wanted, 100))?;
    }
    Ok(())
}

fn wanted_by(words: &[String]) -> Wanted {
    let mut wanted = Wanted {
        number: None,
        stage: Stage::Cycles,
    };
    for word in words {
        match word.as_str() {
            "1" => wanted.number = Some(1),
            "2" => wanted.number = Some(2),
            "3" => wanted.number = Some(3),
            "net" => wanted.stage = Stage::Net,
            "sim" => wanted.stage = Stage::Simulator,
            _ => {}
        }
    }
    wanted
}

fn is_wanted(wanted: Wanted, number: u8) -> bool {
    match wanted.number {
        Some(k) => k == number,
        None => true,
    }
}

// For how many cycles a net is run that has a simulator.
fn ticks(wanted: Wanted, count: u32) -> Option<u32> {
    match wanted.stage {
        Stage::Net => None,
        Stage::Simulator => Some(0),
        Stage::Cycles => Some(count),
    }
}

// Runs a net of `turns` turns for `ticks` cycles, or only makes it.
fn show(rt: &HostRuntime, width: u8, turns: u32, ticks: Option<u32>) -> io::Result<()>
    requires wide { 8 ≤ width }
    requires most { width ≤ width_max }
    requires few { turns < 700000000 }
{
    let Ok(shown) = wide_nets::run(rt.alloc(), width, turns, ticks) else {
        return println!(rt; "out of memory");
    };
    let wires = shown.wires;
    let ticks = ticks.unwrap_or(0);
    let steps = u64::from(wires) * u64::from(ticks);
    let bits = shown.bits;
    println!(rt; "{wires} wires of {width} bits, {ticks} cycles, {steps} steps: {bits}")
}
