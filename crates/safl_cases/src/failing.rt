//! Calls of the program in which each call of its shelf, of a sink or of a probe fails in turn.

use crate::calls::{EACH_KIND, Ended, call, plain_call};
use crate::entries::Entry;
use crate::shelves::{Placed, shelf_of};
use crate::tally::Tally;
use crate::texts::Wanted;
use safl_io::{MemShelf, MemSink};
use safl_word::NoMemory;
use std::alloc::Global;

/// What fails: the shelf, a sink, or a probe.
#[derive(Clone, Copy)]
pub enum Failing<'a> {
    Shelf,
    Out,
    Err,
    /// The probe of this kind.
    Probe(&'a str),
}

// How many calls may fail in turn, at most.
const CALLS_MAX: u64 = 10_000;

// A call of the program that is tried: what fails in it, its words, the files of its shelf, and how it ends
// undisturbed, with the shelf afterwards.
#[derive(Drop)]
struct Trial<'a> {
    failing: Failing<'a>,
    words: &'a str,
    placed: &'a [Placed],
    whole: Ended,
    left: MemShelf,
}

// How a call of the program ended in which something failed, and the shelf afterwards.
#[derive(Drop)]
struct Disturbed {
    ended: Ended,
    shelf: MemShelf,
}

/// Makes call 1, 2, 3 and so on fail, each on a new shelf with these files, until nothing fails. The rows say how these
/// calls of the program end. After each, the same call of the program on the same shelf must end as an undisturbed one
/// does.
pub fn fail_in_turn(
    alloc: Global,
    placed: &[Placed],
    failing: Failing<'_>,
    words: &str,
    entry: &Entry<'_>,
    tally: &mut Tally,
) -> Result<(), NoMemory> {
    let mut left = shelf_of(alloc, placed)?;
    let whole = plain_call(alloc, words, &mut left)?;
    let trial = Trial {
        failing,
        words,
        placed,
        whole,
        left,
    };
    for number in 1..CALLS_MAX {
        let mut disturbed = disturb(alloc, &trial, number)?;
        let is_over = disturbed.ended.is_same(&trial.whole);
        let row = row_of(&entry.body, number, is_over);
        let agrees = judge(alloc, &trial, &disturbed, row, is_over)?;
        tally.count_call(entry.number, agrees, &disturbed.ended)?;
        if is_over {
            return Ok(());
        }
        let again = plain_call(alloc, words, &mut disturbed.shelf)?;
        let agrees = again.is_same(&trial.whole) && has_same_files(&trial, &disturbed.shelf);
        tally.count_call(entry.number, agrees, &again)?;
    }
    tally.count(entry.number, false, "something fails at each call")
}

fn disturb(alloc: Global, trial: &Trial<'_>, number: u64) -> Result<Disturbed, NoMemory> {
    let mut shelf = shelf_of(alloc, trial.placed)?;
    let (mut out, mut err) = (MemSink::new(alloc), MemSink::new(alloc));
    let mut probes = String::from_str(alloc, EACH_KIND)?;
    match trial.failing {
        Failing::Shelf => shelf.fail_call(number)?,
        Failing::Out => out.fail_call(number)?,
        Failing::Err => err.fail_call(number)?,
        Failing::Probe(kind) => probes = with_stub(alloc, kind, number)?,
    }
    let ended = call(alloc, trial.words, probes.as_str(), &mut shelf, out, err)?;
    Ok(Disturbed { ended, shelf })
}

// One probe of each kind. In place of the probe of kind `kind` stands a stub whose call `number` fails.
fn with_stub(alloc: Global, kind: &str, number: u64) -> Result<String, NoMemory> {
    let (before, after) = EACH_KIND.split_once(kind).unwrap_or((EACH_KIND, ""));
    Ok(format!(in alloc; "{before}{kind}:{number}{after}")?)
}

// The row for a call number: the row in whose list it stands, or else the row of `more`. If nothing failed, the row of
// `end`.
fn row_of<'a>(rows: &[&'a str], number: u64, is_over: bool) -> &'a str {
    for row in rows {
        let (which, right) = row.split_once(" -> ").unwrap_or((*row, ""));
        let is_meant = if is_over {
            which == "end"
        } else {
            which == "more"
                || which
                    .split(' ')
                    .any(|word| word.parse::<u64>() == Ok(number))
        };
        if is_meant {
            return right;
        }
    }
    ""
}

// Whether a call ended as its row says. A row has a status and a line, and after `; ` the state of the files that the
// call writes.
fn judge(
    alloc: Global,
    trial: &Trial<'_>,
    disturbed: &Disturbed,
    row: &str,
    is_over: bool,
) -> Result<bool, NoMemory> {
    let (row, state) = row.split_once("; ").unwrap_or((row, ""));
    let wanted = Wanted::of_row(alloc, row)?;
    let ended = &disturbed.ended;
    if is_over {
        return Ok(ended.agrees(&wanted) && has_state(trial, &disturbed.shelf, state));
    }
    let told = ended.err.bytes();
    let fits = match trial.failing {
        Failing::Err => is_cut(told, trial.whole.err.bytes()),
        _ => wanted.fits(told),
    };
    let out = ended.out.bytes();
    let begins = match trial.failing {
        Failing::Out => is_cut(out, trial.whole.out.bytes()),
        _ => out.is_empty(),
    };
    Ok(ended.status == wanted.status && fits && begins && has_state(trial, &disturbed.shelf, state))
}

// Whether these bytes are a prefix of the others, and not all of them.
fn is_cut(bytes: &[u8], whole: &[u8]) -> bool {
    bytes.len() < whole.len() && whole.starts_with(bytes)
}

// Whether the files that the call writes are in this state. `none`: no file is there. `before`: all are as before.
// `whole`: all have their whole texts. `cut`: each is as before or has a prefix of its text, some have changed, and
// some are not whole. All other files that the call names must be as before.
fn has_state(trial: &Trial<'_>, shelf: &MemShelf, state: &str) -> bool {
    let mut are_missing = true;
    let mut are_before = true;
    let mut are_prefixes = true;
    let mut are_whole = true;
    for name in trial.words.split_whitespace() {
        let (before, now, whole) = (
            text_before(trial, name),
            shelf.file(name),
            trial.left.file(name),
        );
        if before == whole {
            if now != before {
                return false;
            }
        } else {
            are_missing = are_missing && now.is_none();
            are_before = are_before && now == before;
            are_prefixes = are_prefixes && (now == before || is_prefix(now, whole));
            are_whole = are_whole && now == whole;
        }
    }
    match state {
        "before" => are_before,
        "cut" => are_prefixes && !are_before && !are_whole,
        "whole" => are_whole && !are_before,
        _ => are_missing,
    }
}

// The bytes of a file before the call.
fn text_before<'a>(trial: &Trial<'a>, name: &str) -> Option<&'a [u8]> {
    let file = trial.placed.iter().find(|file| file.name.as_str() == name)?;
    Some(&file.bytes)
}

fn is_prefix(now: Option<&[u8]>, whole: Option<&[u8]>) -> bool {
    match (now, whole) {
        (Some(now), Some(whole)) => whole.starts_with(now),
        _ => false,
    }
}

fn has_same_files(trial: &Trial<'_>, shelf: &MemShelf) -> bool {
    trial
        .words
        .split_whitespace()
        .all(|name| trial.left.file(name) == shelf.file(name))
}
