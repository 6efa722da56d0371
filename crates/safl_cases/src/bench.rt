//! Runs the entries of a case file, one after the other.

use crate::calls::{EACH_KIND, call, plain_call};
use crate::entries::Entry;
use crate::failing::{Failing, fail_in_turn};
use crate::folder::{compare_with_folder, show_calls};
use crate::netlists::{is_lean, is_text_of_net};
use crate::shelves::{Placed, joined, repeated, split_at_piece, spread};
use crate::tables::{Rows, run_rows};
use crate::tally::Tally;
use crate::texts::{Wanted, bytes_of};
use safl_io::{MemShelf, MemSink};
use safl_word::NoMemory;
use std::alloc::Global;

/// A case: the files that it places, its shelf, its probes, and which calls of the sinks fail in the next call of the
/// program.
#[derive(Drop)]
struct Case<'a> {
    placed: Vec<Placed>,
    shelf: MemShelf,
    probes: &'a str,
    out: MemSink,
    err: MemSink,
}

impl Case<'_> {
    fn new(alloc: Global) -> Self {
        Case {
            placed: Vec::new(alloc),
            shelf: MemShelf::new(alloc),
            probes: EACH_KIND,
            out: MemSink::new(alloc),
            err: MemSink::new(alloc),
        }
    }
}

/// Does what the entries say, and counts which of them agree.
pub fn run_entries(
    rt: &HostRuntime,
    entries: &[Entry<'_>],
    tally: &mut Tally,
) -> Result<(), NoMemory> {
    let alloc = rt.alloc();
    let mut case = Case::new(alloc);
    for entry in entries {
        let (word, rest) = entry.head.split_once(' ').unwrap_or((entry.head, ""));
        match word {
            "#" => case = Case::new(alloc),
            "file" => place_file(alloc, &mut case, rest, entry)?,
            "pieces" => place(alloc, &mut case, rest, &repeated(alloc, &entry.body)?)?,
            "spread" | "cut" => make_file(alloc, &mut case, word == "spread", rest)?,
            "printed" => place_printed(alloc, &mut case, rest)?,
            "fail" => fail(&mut case, rest)?,
            "probes" => case.probes = rest,
            "safl" => run_call(alloc, &mut case, rest, entry, tally)?,
            "folder" => compare_with_folder(rt, &case.placed, entry, tally)?,
            "shown" => show_calls(rt, &entry.body)?,
            "failing" => run_failing(alloc, &case, rest, entry, tally)?,
            "begins" | "ends" | "holds" | "is" | "part" | "none" | "text" | "lean" => {
                let agrees = stands(alloc, &case.shelf, word, rest, &entry.body)?;
                tally.count(entry.number, agrees, entry.head)?;
            }
            _ => run_table(alloc, &mut case, word, rest, entry, tally)?,
        }
    }
    Ok(())
}

fn place_file(
    alloc: Global,
    case: &mut Case<'_>,
    rest: &str,
    entry: &Entry<'_>,
) -> Result<(), NoMemory> {
    match rest.strip_suffix(" open") {
        Some(name) => place(alloc, case, name, &joined(alloc, &entry.body, false)?),
        None => place(alloc, case, rest, &joined(alloc, &entry.body, true)?),
    }
}

fn place(alloc: Global, case: &mut Case<'_>, name: &str, bytes: &[u8]) -> Result<(), NoMemory> {
    case.shelf.add(name, bytes)?;
    case.placed.push(Placed {
        name: String::from_str(alloc, name)?,
        bytes: Vec::from_slice(alloc, bytes)?,
    })?;
    Ok(())
}

// Entry `A by WORDS`: places file A with what this call of the program prints.
fn place_printed(alloc: Global, case: &mut Case<'_>, rest: &str) -> Result<(), NoMemory> {
    let (name, words) = rest.split_once(" by ").unwrap_or((rest, ""));
    let ended = plain_call(alloc, words, &mut case.shelf)?;
    place(alloc, case, name, ended.out.bytes())
}

// Entry `A as B`: makes file B of A, spread out. Entry `A as B after PIECE`: B is the part of A up to the end of this
// piece.
fn make_file(
    alloc: Global,
    case: &mut Case<'_>,
    spreads: bool,
    rest: &str,
) -> Result<(), NoMemory> {
    let (from, rest) = rest.split_once(" as ").unwrap_or((rest, ""));
    let text = case.shelf.file(from).unwrap_or(b"");
    if spreads {
        let made = spread(alloc, text)?;
        return place(alloc, case, rest, &made);
    }
    let (to, piece) = rest.split_once(" after ").unwrap_or((rest, ""));
    let piece = bytes_of(alloc, piece, 0)?;
    let (before, _) = split_at_piece(text, &piece).unwrap_or((text, b""));
    let mut made = Vec::from_slice(alloc, before)?;
    made.extend_from_slice(&piece)?;
    place(alloc, case, to, &made)
}

// Entries `shelf N`, `out N` and `err N`: the Nth call of the shelf or of this sink fails.
fn fail(case: &mut Case<'_>, rest: &str) -> Result<(), NoMemory> {
    let (what, number) = rest.split_once(' ').unwrap_or((rest, ""));
    let number = number.parse::<u64>().unwrap_or(0);
    match what {
        "shelf" => case.shelf.fail_call(number),
        "out" => case.out.fail_call(number),
        _ => case.err.fail_call(number),
    }
}

fn run_call(
    alloc: Global,
    case: &mut Case<'_>,
    rest: &str,
    entry: &Entry<'_>,
    tally: &mut Tally,
) -> Result<(), NoMemory> {
    let (words, status) = rest.rsplit_once(" -> ").unwrap_or((rest, ""));
    let wanted = Wanted::of_lines(alloc, status, &entry.body)?;
    let out = std::mem::replace(&mut case.out, MemSink::new(alloc));
    let err = std::mem::replace(&mut case.err, MemSink::new(alloc));
    let ended = call(alloc, words, case.probes, &mut case.shelf, out, err)?;
    tally.count_call(entry.number, ended.agrees(&wanted), &ended)
}

// Whether a file is as an entry says: that it begins with the lines, ends with them, holds each of them or consists of
// them; begins with as many bytes of another file; does not exist; or reads as a netlist, which is lean or of which it
// is the text.
fn stands(
    alloc: Global,
    shelf: &MemShelf,
    word: &str,
    rest: &str,
    lines: &[&str],
) -> Result<bool, NoMemory> {
    if word == "none" {
        return Ok(shelf.file(rest).is_none());
    }
    if word == "part" {
        return Ok(is_part(shelf, rest));
    }
    let text = shelf.file(rest).unwrap_or(b"");
    let wanted = joined(alloc, lines, true)?;
    Ok(match word {
        "text" => is_text_of_net(alloc, text),
        "lean" => is_lean(alloc, text),
        "begins" => text.starts_with(&wanted),
        "ends" => text.ends_with(&wanted),
        "is" => text == wanted.as_slice(),
        _ => holds_lines(text, lines),
    })
}

fn holds_lines(text: &[u8], lines: &[&str]) -> bool {
    let text = str::from_utf8(text).unwrap_or("");
    lines
        .iter()
        .all(|line| text.lines().any(|other| other == *line))
}

// Entry `A of B N`: whether A is the first N bytes of B.
fn is_part(shelf: &MemShelf, rest: &str) -> bool {
    let (names, count) = rest.rsplit_once(' ').unwrap_or((rest, ""));
    let (part, whole) = names.split_once(" of ").unwrap_or((names, ""));
    let count = count.parse::<usize>().unwrap_or(0);
    match (shelf.file(part), shelf.file(whole)) {
        (Some(part), Some(whole)) => part.len() == count && whole.starts_with(part),
        _ => false,
    }
}

fn run_failing(
    alloc: Global,
    case: &Case<'_>,
    rest: &str,
    entry: &Entry<'_>,
    tally: &mut Tally,
) -> Result<(), NoMemory> {
    let (what, words) = rest.split_once(": ").unwrap_or((rest, ""));
    let failing = match what {
        "shelf" => Failing::Shelf,
        "out" => Failing::Out,
        "err" => Failing::Err,
        "vcd" | "starts" | "toggles" => Failing::Probe(what),
        _ => return tally.count(entry.number, false, "no such entry"),
    };
    fail_in_turn(alloc, &case.placed, failing, words, entry, tally)
}

// Runs a table, `KIND NAME: WORDS` or `KIND: WORDS`.
fn run_table(
    alloc: Global,
    case: &mut Case<'_>,
    word: &str,
    rest: &str,
    entry: &Entry<'_>,
    tally: &mut Tally,
) -> Result<(), NoMemory> {
    let (name, words) = match word.strip_suffix(':') {
        Some(_) => ("", rest),
        None => rest.split_once(':').unwrap_or((rest, "")),
    };
    let rows = match word {
        "sources" => Rows::Sources(name),
        "changes" => Rows::Changes(name),
        "words:" => Rows::Words,
        "circuits:" => Rows::Circuits,
        "plans:" => Rows::Plans,
        _ => return tally.count(entry.number, false, "no such entry"),
    };
    run_rows(
        alloc,
        &mut case.shelf,
        rows,
        words.trim_start(),
        entry,
        tally,
    )
}
