//! Makes a random net of many wires, orders it, optimises it, and prints how many signals it has before and after.
//!
//! The words are the number of wires and a seed. With a third word it stops after the order, so the difference of the
//! two times is that of optimising.

use crate::random_nets::{WIRES_MAX, ordered};
use safl_opt::optimise;
use safl_word::decimal;
use std::io;

const WIRES: u64 = 1_000;

const SEED: u64 = 1;

/// Optimises the net that the words ask for.
pub fn run(rt: &HostRuntime, words: &[String]) -> io::Result<()> {
    let wires = number_at(words, 0).unwrap_or(WIRES);
    let seed = number_at(words, 1).unwrap_or(SEED);
    let most = wires.min(u64::from(WIRES_MAX)) as u32;
    let Ok(ordered) = ordered(rt.alloc(), most, (seed % 4_294_967_296) as u32) else {
        return println!(rt; "out of memory");
    };
    println!(rt; "signals {}", ordered.net().signals())?;
    if words.len() > 2 {
        return Ok(());
    }
    match optimise(rt.alloc(), ordered) {
        Ok(net) => println!(rt; "smaller {}", net.signals()),
        Err(_) => println!(rt; "out of memory"),
    }
}

// The number that the word at `place` spells.
fn number_at(words: &[String], place: usize) -> Option<u64> {
    decimal(words.get(place)?.as_bytes())
}
