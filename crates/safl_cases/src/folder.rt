//! Calls over the system's files, compared with the same calls over files in memory.

use crate::calls::{EACH_KIND, plain_call, run_words};
use crate::entries::Entry;
use crate::shelves::{Placed, shelf_of};
use crate::tally::Tally;
use safl_io::{DirShelf, MemShelf, StdSink, read_file, write_file};
use safl_word::NoMemory;

// The greatest length in bytes of a file that is compared.
const FILE_MAX: u64 = 1_048_576;

/// Writes the files to the current folder, makes the calls of the rows both there and over files in memory, and counts
/// those that end in the same way. A row of one word compares the file of that name.
pub fn compare_with_folder(
    rt: &HostRuntime,
    placed: &[Placed],
    entry: &Entry<'_>,
    tally: &mut Tally,
) -> Result<(), NoMemory> {
    let alloc = rt.alloc();
    let mut memory = shelf_of(alloc, placed)?;
    let mut folder = DirShelf::new(rt);
    for file in placed {
        let written = write_file(&mut folder, file.name.as_str(), &file.bytes);
        tally.count(entry.number, written == Ok(()), "a file is not written")?;
    }
    for (place, row) in entry.body.iter().enumerate() {
        let number = entry.number.saturating_add(place).saturating_add(1);
        match row.strip_prefix("file ") {
            Some(name) => {
                let agrees = is_same_file(rt, &memory, name);
                tally.count(number, agrees, "the file is another one")?;
            }
            None => {
                let wanted = plain_call(alloc, row, &mut memory)?;
                let ended = plain_call(alloc, row, &mut folder)?;
                tally.count_call(number, ended.is_same(&wanted), &ended)?;
            }
        }
    }
    Ok(())
}

fn is_same_file(rt: &HostRuntime, memory: &MemShelf, name: &str) -> bool {
    let mut folder = DirShelf::new(rt);
    match (
        memory.file(name),
        read_file(rt.alloc(), &mut folder, name, FILE_MAX),
    ) {
        (Some(wanted), Ok(found)) => found.as_slice() == wanted,
        (None, Err(_)) => true,
        _ => false,
    }
}

/// Makes the calls of the rows over the files of the current folder. What they print on either stream goes to standard
/// output.
pub fn show_calls(rt: &HostRuntime, rows: &[&str]) -> Result<(), NoMemory> {
    let mut shelf = DirShelf::new(rt);
    let mut out = StdSink::new(rt.stdout());
    let mut err = StdSink::new(rt.stdout());
    for row in rows {
        let _status = run_words(rt.alloc(), row, EACH_KIND, &mut shelf, &mut out, &mut err)?;
    }
    Ok(())
}
