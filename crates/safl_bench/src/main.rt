//! Benchmarks of the libraries.
//!
//! The first word of the command line picks one: `sim` runs large nets, `opt` optimises a large net, `plan` plans a
//! source with many call sites. The other words are that benchmark's own. Without words all three are done.
#![tactic(auto)]

mod many_sites;
mod optimiser;
mod planner;
mod random_nets;
mod simulator;
mod turns;
mod wide_nets;

use std::{env, io};

fn main(rt: HostRuntime) -> io::Result<()> {
    let words = words(&rt)?;
    match words.as_slice() {
        [] => run_all(&rt),
        [first, rest @ ..] => run_one(&rt, first, rest),
    }
}

// The words of the command line after the program's name.
fn words(rt: &HostRuntime) -> io::Result<Vec<String>> {
    let mut words = Vec::new(rt.alloc());
    for word in env::args(rt)?.skip(1) {
        words.push(word)?;
    }
    Ok(words)
}

fn run_all(rt: &HostRuntime) -> io::Result<()> {
    simulator::run(rt, &[])?;
    optimiser::run(rt, &[])?;
    planner::run(rt, &[])
}

fn run_one(rt: &HostRuntime, name: &str, words: &[String]) -> io::Result<()> {
    match name {
        "sim" => simulator::run(rt, words),
        "opt" => optimiser::run(rt, words),
        "plan" => planner::run(rt, words),
        _ => println!(rt;
            "usage: safl_bench [sim [1 | 2 | 3] [net | sim] | opt [WIRES SEED [order]] | plan [check]]"
        ),
    }
}
