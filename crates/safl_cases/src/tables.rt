//! Tables, in which each row is a case.

use crate::calls::{Ended, plain_call};
use crate::entries::Entry;
use crate::plans::plan_of;
use crate::shelves::{changed, spread};
use crate::tally::Tally;
use crate::texts::{Wanted, bytes_of};
use safl_io::MemShelf;
use safl_word::NoMemory;
use std::alloc::Global;

/// What the rows of a table are.
#[derive(Clone, Copy)]
pub enum Rows<'a> {
    /// Sources, each of which is written to this file. `with` and arguments may follow.
    Sources(&'a str),
    /// Changes of this file.
    Changes(&'a str),
    /// Words that follow the words of the table. The calls use the case's own shelf.
    Words,
    /// Sources. Each is simulated; built and run, with and without `--opt`; and run from the built file spread out. All
    /// have to end in the same way.
    Circuits,
    /// Sources. Each is built with and without `--opt`, and both files have to show the same plan.
    Plans,
}

/// Runs the rows of a table. Rows of words are calls on this shelf, one after the other; every other row has a shelf of
/// its own.
pub fn run_rows(
    alloc: Global,
    shelf: &mut MemShelf,
    rows: Rows<'_>,
    words: &str,
    entry: &Entry<'_>,
    tally: &mut Tally,
) -> Result<(), NoMemory> {
    for (place, row) in entry.body.iter().enumerate() {
        let number = entry.number.saturating_add(place).saturating_add(1);
        let (left, right) = row.rsplit_once(" -> ").unwrap_or((*row, ""));
        match rows {
            Rows::Plans => compare_plans(alloc, left, right, number, tally)?,
            Rows::Circuits => run_circuit(alloc, words, left, right, number, tally)?,
            _ => {
                let wanted = Wanted::of_row(alloc, right)?;
                let ended = run_row(alloc, shelf, rows, words, left)?;
                tally.count_call(number, ended.agrees(&wanted), &ended)?;
            }
        }
    }
    Ok(())
}

fn compare_plans(
    alloc: Global,
    source: &str,
    wanted: &str,
    number: usize,
    tally: &mut Tally,
) -> Result<(), NoMemory> {
    for build in ["build p v", "build p v --opt"] {
        let told = plan_of(alloc, build, source)?;
        tally.count(number, told.as_str() == wanted, told.as_str())?;
    }
    Ok(())
}

// Makes the call of a row of sources, changes or words.
fn run_row(
    alloc: Global,
    shelf: &mut MemShelf,
    rows: Rows<'_>,
    words: &str,
    left: &str,
) -> Result<Ended, NoMemory> {
    let mut own = MemShelf::new(alloc);
    match rows {
        Rows::Sources(name) => {
            let (source, args) = left.rsplit_once(" with ").unwrap_or((left, ""));
            own.add(name, &bytes_of(alloc, source, 0)?)?;
            let words = format!(in alloc; "{words} {args}")?;
            plain_call(alloc, words.as_str(), &mut own)
        }
        Rows::Changes(name) => {
            let text = shelf.file(name).unwrap_or(b"");
            let text = changed(alloc, text, left)?;
            own.add(name, &text.unwrap_or(Vec::new(alloc)))?;
            plain_call(alloc, words, &mut own)
        }
        _ => {
            let words = format!(in alloc; "{words} {left}")?;
            plain_call(alloc, words.as_str(), shelf)
        }
    }
}

// Simulates the source of a row, builds it with and without `--opt`, runs both files, and runs the plain one spread
// out.
fn run_circuit(
    alloc: Global,
    words: &str,
    left: &str,
    right: &str,
    number: usize,
    tally: &mut Tally,
) -> Result<(), NoMemory> {
    let (source, args) = left.rsplit_once(" with ").unwrap_or((left, ""));
    let wanted = Wanted::of_row(alloc, right)?;
    let mut shelf = MemShelf::new(alloc);
    shelf.add("p", &bytes_of(alloc, source, 0)?)?;
    for build in ["build p v", "build p o --opt"] {
        let built = plain_call(alloc, build, &mut shelf)?;
        tally.count_call(number, built.agrees(&Wanted::of_row(alloc, "0")?), &built)?;
    }
    let text = spread(alloc, shelf.file("v").unwrap_or(b""))?;
    shelf.add("w", &text)?;
    for command in ["sim p", "run v", "run w", "run o"] {
        let words = format!(in alloc; "{command} {words} {args}")?;
        let ended = plain_call(alloc, words.as_str(), &mut shelf)?;
        tally.count_call(number, ended.agrees(&wanted), &ended)?;
    }
    Ok(())
}
