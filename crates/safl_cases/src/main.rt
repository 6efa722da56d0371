//! Runs the case files that the command line names, and prints how many cases of each agree, and what differs.
#![tactic(auto)]

mod bench;
mod calls;
mod entries;
mod failing;
mod folder;
mod netlists;
mod plans;
mod shelves;
mod tables;
mod tally;
mod texts;

use crate::bench::run_entries;
use crate::entries::entries;
use crate::tally::Tally;
use safl_io::{DirShelf, StdSink, read_file};
use safl_word::NoMemory;
use std::process::ExitCode;
use std::{env, io};

// The greatest length of a case file in bytes.
const CASES_MAX: u64 = 1_048_576;

fn main(rt: HostRuntime) -> io::Result<ExitCode> {
    let mut all: usize = 0;
    let mut differing: usize = 0;
    for name in env::args(&rt)?.skip(1) {
        let Some(tally) = run_file(&rt, name.as_str()) else {
            println!(rt; "{name}: cannot be read")?;
            return Ok(ExitCode::from(2));
        };
        let (tried, differ) = (tally.tried, tally.differing);
        all = all.saturating_add(tried);
        differing = differing.saturating_add(differ);
        println!(rt; "{name}: {tried} cases, {differ} differ")?;
        rt.print(tally.report.as_str())?;
    }
    println!(rt; "all: {all} cases, {differing} differ")?;
    Ok(ExitCode::from(if differing == 0 { 0 } else { 1 }))
}

// Runs a case file. None if it cannot be read, or if memory runs out.
fn run_file(rt: &HostRuntime, name: &str) -> Option<Tally> {
    let bytes = read_file(rt.alloc(), &mut DirShelf::new(rt), name, CASES_MAX).ok()?;
    let text = str::from_utf8(&bytes).ok()?;
    run_text(rt, text).ok()
}

fn run_text(rt: &HostRuntime, text: &str) -> Result<Tally, NoMemory> {
    let found = entries(rt.alloc(), text)?;
    let mut tally = Tally::new(rt.alloc());
    run_entries(rt, &found, &mut tally)?;
    Ok(tally)
}
