//! The files of a case, and how files are made of other files.

use crate::texts::bytes_of;
use safl_io::MemShelf;
use safl_word::NoMemory;
use std::alloc::Global;

/// A file that a case places on the shelf.
#[derive(Drop)]
pub struct Placed {
    pub name: String,
    pub bytes: Vec<u8>,
}

/// A new shelf with these files.
pub fn shelf_of(alloc: Global, files: &[Placed]) -> Result<MemShelf, NoMemory> {
    let mut shelf = MemShelf::new(alloc);
    for file in files {
        shelf.add(file.name.as_str(), &file.bytes)?;
    }
    Ok(shelf)
}

/// The lines joined by line feeds, with one after the last line too if `is_ended`.
pub fn joined(alloc: Global, lines: &[&str], is_ended: bool) -> Result<Vec<u8>, NoMemory> {
    let mut bytes = Vec::new(alloc);
    for (place, line) in lines.iter().enumerate() {
        if place > 0 {
            bytes.push(b'\n')?;
        }
        bytes.extend_from_slice(line.as_bytes())?;
    }
    if is_ended {
        bytes.push(b'\n')?;
    }
    Ok(bytes)
}

/// The pieces of the rows, one after the other. Each row has a number and a piece, which is repeated that many times.
pub fn repeated(alloc: Global, rows: &[&str]) -> Result<Vec<u8>, NoMemory> {
    let mut bytes = Vec::new(alloc);
    for row in rows {
        let (count, piece) = row.split_once(' ').unwrap_or(("0", ""));
        let count = count.parse::<usize>().unwrap_or(0);
        if !piece.contains("\\#") {
            repeat(alloc, &mut bytes, count, &bytes_of(alloc, piece, 0)?)?;
            continue;
        }
        for number in 0..count {
            bytes.extend_from_slice(&bytes_of(alloc, piece, number)?)?;
        }
    }
    Ok(bytes)
}

// Appends `count` copies of a piece. It appends a thousand at a time as long as it can, so that long texts are made
// fast.
fn repeat(alloc: Global, bytes: &mut Vec<u8>, count: usize, piece: &[u8]) -> Result<(), NoMemory> {
    let mut block = Vec::new(alloc);
    if count >= 1000 {
        add(&mut block, 1000, piece)?;
    }
    add(bytes, count / 1000, &block)?;
    add(bytes, count % 1000, piece)
}

fn add(bytes: &mut Vec<u8>, count: usize, piece: &[u8]) -> Result<(), NoMemory> {
    for _ in 0..count {
        bytes.extend_from_slice(piece)?;
    }
    Ok(())
}

/// The text with two line feeds and a comment in place of each run of blanks.
pub fn spread(alloc: Global, text: &[u8]) -> Result<Vec<u8>, NoMemory> {
    let mut out = Vec::new(alloc);
    let mut was_blank = false;
    for byte in text {
        let is_blank = *byte == b' ' || *byte == b'\n';
        if !is_blank {
            if was_blank {
                out.extend_from_slice(b"\n\n/* x */")?;
            }
            out.push(*byte)?;
        }
        was_blank = is_blank;
    }
    Ok(out)
}

/// The parts of a text before and after the first occurrence of a piece.
pub fn split_at_piece<'a>(text: &'a [u8], piece: &[u8]) -> Option<(&'a [u8], &'a [u8])> {
    let place = text
        .windows(piece.len().max(1))
        .position(|part| part == piece)?;
    let (before, rest) = text.split_at_checked(place)?;
    let (_, after) = rest.split_at_checked(piece.len())?;
    Some((before, after))
}

/// The text after some changes `OLD => NEW`, separated by ` ;; `: in each, the first OLD becomes NEW. None if one of
/// them does not occur.
pub fn changed(alloc: Global, text: &[u8], changes: &str) -> Result<Option<Vec<u8>>, NoMemory> {
    let mut now = Vec::from_slice(alloc, text)?;
    for change in changes.split(" ;; ") {
        let Some((old, new)) = change.split_once(" => ") else {
            return Ok(None);
        };
        let (old, new) = (bytes_of(alloc, old, 0)?, bytes_of(alloc, new, 0)?);
        let Some((before, after)) = split_at_piece(&now, &old) else {
            return Ok(None);
        };
        let mut next = Vec::from_slice(alloc, before)?;
        next.extend_from_slice(&new)?;
        next.extend_from_slice(after)?;
        now = next;
    }
    Ok(Some(now))
}
