//! Calls of the program over a shelf, with sinks in memory.

use crate::texts::{Wanted, prints};
use safl_io::{MemSink, Shelf, Sink};
use safl_probe::{Probe, StartsProbe, StubProbe, ToggleProbe, VcdProbe, none_begun};
use safl_tool::run;
use safl_word::NoMemory;
use std::alloc::Global;

/// How a call ended: its status, what it printed, and what it sent to standard error.
#[derive(Drop)]
pub struct Ended {
    pub status: u8,
    pub out: MemSink,
    pub err: MemSink,
}

impl Ended {
    /// Whether the call ended as wanted: the right one of the two sinks got the wanted text, and the other one nothing.
    pub fn agrees(&self, wanted: &Wanted) -> bool {
        let (told, silent) = if prints(self.status) {
            (&self.out, &self.err)
        } else {
            (&self.err, &self.out)
        };
        self.status == wanted.status && silent.bytes().is_empty() && wanted.fits(told.bytes())
    }

    /// Whether another call ended in the same way.
    pub fn is_same(&self, other: &Ended) -> bool {
        self.status == other.status
            && self.out.bytes() == other.out.bytes()
            && self.err.bytes() == other.err.bytes()
    }
}

/// The probes that a call is given unless a case says otherwise: one of each kind.
pub const EACH_KIND: &str = "vcd starts toggles";

/// Calls the program and returns its status. `words` and `probes` are separated by spaces; the word `""` is empty. A
/// probe is written as its kind; a kind with `:N` is a stub of that kind whose Nth call fails.
pub fn run_words<S: Shelf, O: Sink, E: Sink>(
    alloc: Global,
    words: &str,
    given: &str,
    shelf: &mut S,
    out: &mut O,
    err: &mut E,
) -> Result<u8, NoMemory> {
    let mut owned = Vec::new(alloc);
    for word in words.split_whitespace() {
        let word = if word == "\"\"" { "" } else { word };
        owned.push(String::from_str(alloc, word)?)?;
    }
    let mut probes: Vec<Box<dyn Probe>> = Vec::new(alloc);
    for probe in given.split_whitespace() {
        match (probe, probe.split_once(':')) {
            ("vcd", _) => probes.push(Box::new(alloc, VcdProbe::new(alloc))?)?,
            ("starts", _) => probes.push(Box::new(alloc, StartsProbe::new(alloc))?)?,
            ("toggles", _) => probes.push(Box::new(alloc, ToggleProbe::new(alloc))?)?,
            (_, Some((kind, number))) => {
                let fail_at = number.parse::<u64>().unwrap_or(0);
                probes.push(Box::new(alloc, StubProbe::new(alloc, kind_of(kind), fail_at))?)?;
            }
            _ => {}
        }
    }
    // All probes are new, so this never happens.
    if !none_begun(&probes) {
        return Err(NoMemory);
    }
    Ok(run(alloc, &owned, shelf, out, err, &mut probes) as u8)
}

// The number of a kind of traces, or 0 if there is no such kind.
fn kind_of(kind: &str) -> u8 {
    match kind {
        "vcd" => 1,
        "starts" => 2,
        "toggles" => 3,
        _ => 0,
    }
}

/// Calls the program with these words and probes over sinks in memory.
pub fn call<S: Shelf>(
    alloc: Global,
    words: &str,
    given: &str,
    shelf: &mut S,
    mut out: MemSink,
    mut err: MemSink,
) -> Result<Ended, NoMemory> {
    let status = run_words(alloc, words, given, shelf, &mut out, &mut err)?;
    Ok(Ended { status, out, err })
}

/// Calls the program with one probe of each kind, over sinks that do not fail.
pub fn plain_call<S: Shelf>(alloc: Global, words: &str, shelf: &mut S) -> Result<Ended, NoMemory> {
    let (out, err) = (MemSink::new(alloc), MemSink::new(alloc));
    call(alloc, words, EACH_KIND, shelf, out, err)
}
