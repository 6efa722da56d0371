//! Texts in the lines of a case file, and how a call is wanted to end.

use safl_word::{NoMemory, numeral};
use std::alloc::Global;

/// How a call is wanted to end: its status, and what it prints. If the status is that of a refusal, the text goes to
/// standard error.
#[derive(Drop)]
pub struct Wanted {
    pub status: u8,
    pub text: String,
}

impl Wanted {
    /// Reads a row: a status, then after a space the printed lines, separated by `, `, or the line of a refusal.
    pub fn of_row(alloc: Global, row: &str) -> Result<Wanted, NoMemory> {
        let (number, rest) = row.split_once(' ').unwrap_or((row, ""));
        let status = status_of(number);
        let mut text = String::new(alloc);
        if prints(status) {
            for line in rest.split(", ") {
                push_line(&mut text, line)?;
            }
        } else {
            push_line(&mut text, rest)?;
        }
        Ok(Wanted { status, text })
    }

    /// The wanted end with this status and these lines.
    pub fn of_lines(alloc: Global, number: &str, lines: &[&str]) -> Result<Wanted, NoMemory> {
        let mut text = String::new(alloc);
        for line in lines {
            push_line(&mut text, line)?;
        }
        Ok(Wanted {
            status: status_of(number),
            text,
        })
    }

    /// Whether these bytes are the wanted text. If that ends with ` ..`, they only have to begin with it.
    pub fn fits(&self, got: &[u8]) -> bool {
        match self.text.as_str().strip_suffix(" ..\n") {
            Some(start) => got.starts_with(start.as_bytes()),
            None => got == self.text.as_bytes(),
        }
    }
}

/// Whether a call with this status prints to standard output, and nothing to standard error.
pub fn prints(status: u8) -> bool {
    status == 0 || status == 6
}

// The status that a text spells. If it is no number, a status that no call has.
fn status_of(number: &str) -> u8 {
    number.parse::<u8>().unwrap_or(255)
}

fn push_line(text: &mut String, line: &str) -> Result<(), NoMemory> {
    if !line.is_empty() {
        text.push_str(line)?;
        text.push_str("\n")?;
    }
    Ok(())
}

/// The bytes that a piece of a line stands for: all of it, or what is between its double quotes. `\n`, `\t`
/// and `\r` stand for these bytes, `\x` and two hexadecimal digits for any byte, and `\#` for `number`.
pub fn bytes_of(alloc: Global, piece: &str, number: usize) -> Result<Vec<u8>, NoMemory> {
    let inner = piece
        .strip_prefix('"')
        .and_then(|rest| rest.strip_suffix('"'))
        .unwrap_or(piece);
    let mut bytes = Vec::new(alloc);
    for (place, part) in inner.split('\\').enumerate() {
        if place == 0 {
            bytes.extend_from_slice(part.as_bytes())?;
        } else {
            push_escaped(alloc, &mut bytes, part, number)?;
        }
    }
    Ok(bytes)
}

// Appends the bytes that the characters after a `\` stand for.
fn push_escaped(
    alloc: Global,
    bytes: &mut Vec<u8>,
    part: &str,
    number: usize,
) -> Result<(), NoMemory> {
    match part.as_bytes() {
        [b'n', rest @ ..] => push_both(bytes, b"\n", rest),
        [b't', rest @ ..] => push_both(bytes, b"\t", rest),
        [b'r', rest @ ..] => push_both(bytes, b"\r", rest),
        [b'#', rest @ ..] => { push_both(bytes, format!(in alloc; "{number}")?.as_bytes(), rest) }
        [b'x', high, low, rest @ ..] => {
            let byte = numeral(16, 128, &[*high, *low]).unwrap_or(0);
            push_both(bytes, &[u8::try_from(byte).unwrap_or(0)], rest)
        }
        rest => push_both(bytes, b"\\", rest),
    }
}

fn push_both(bytes: &mut Vec<u8>, first: &[u8], rest: &[u8]) -> Result<(), NoMemory> {
    bytes.extend_from_slice(first)?;
    bytes.extend_from_slice(rest)?;
    Ok(())
}
