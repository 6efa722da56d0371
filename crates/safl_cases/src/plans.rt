//! The plan of a source, as far as its built file shows it.

use crate::calls::plain_call;
use crate::texts::bytes_of;
use safl_io::MemShelf;
use safl_word::NoMemory;
use std::alloc::Global;

/// The plan that a built file shows: the sites that have an arbiter's wire, those that have a kept word, and the
/// numbers of registers and of their bits. The words `build` write the file `v` from the source `p`.
pub fn plan_of(alloc: Global, build: &str, source: &str) -> Result<String, NoMemory> {
    let mut shelf = MemShelf::new(alloc);
    shelf.add("p", &bytes_of(alloc, source, 0)?)?;
    let _built = plain_call(alloc, build, &mut shelf)?;
    let text = str::from_utf8(shelf.file("v").unwrap_or(b"")).unwrap_or("");
    let mut told = String::new(alloc);
    told.push_str("arb")?;
    push_sites(&mut told, text, "  wire [0:0] arb$")?;
    told.push_str(", keep")?;
    push_kept(&mut told, text)?;
    let (registers, bits) = registers_of(text);
    told.push_str(format!(in alloc; ", {registers} registers of {bits} bits")?.as_str())?;
    Ok(told)
}

// Appends the numbers at the end of those lines of a text that begin with `start`.
fn push_sites(told: &mut String, text: &str, start: &str) -> Result<(), NoMemory> {
    for line in text.lines() {
        if let Some(rest) = line.strip_prefix(start) {
            told.push_str(" ")?;
            told.push_str(rest.strip_suffix(";").unwrap_or(rest))?;
        }
    }
    Ok(())
}

fn push_kept(told: &mut String, text: &str) -> Result<(), NoMemory> {
    for line in text.lines() {
        let Some(rest) = line.strip_prefix("  reg [") else {
            continue;
        };
        if let Some((_, site)) = rest.split_once(":0] keep$") {
            told.push_str(" ")?;
            told.push_str(site.strip_suffix(";").unwrap_or(site))?;
        }
    }
    Ok(())
}

// The number of registers of a text, and the number of their bits.
fn registers_of(text: &str) -> (usize, usize) {
    let mut registers: usize = 0;
    let mut bits: usize = 0;
    for line in text.lines() {
        let Some(rest) = line.strip_prefix("  reg [") else {
            continue;
        };
        let high = rest.split_once(':').map(|parts| parts.0).unwrap_or("");
        registers = registers.saturating_add(1);
        bits = bits
            .saturating_add(high.parse::<usize>().unwrap_or(0))
            .saturating_add(1);
    }
    (registers, bits)
}
