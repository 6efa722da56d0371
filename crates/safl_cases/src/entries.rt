//! The entries of a case file.

use std::alloc::{AllocError, Global};

/// An entry: a line that begins at the margin, its number from 1, and the lines below it that are indented by four
/// spaces, without that indent.
#[derive(Drop)]
pub struct Entry<'a> {
    pub number: usize,
    pub head: &'a str,
    pub body: Vec<&'a str>,
}

/// The entries of a text. Blank lines and lines that begin with `//` are skipped.
pub fn entries(alloc: Global, text: &str) -> Result<Vec<Entry<'_>>, AllocError> {
    let mut found: Vec<Entry<'_>> = Vec::new(alloc);
    for (number, line) in text.lines().enumerate() {
        match line.strip_prefix("    ") {
            Some(inner) => {
                if let Some(entry) = found.last_mut() {
                    entry.body.push(inner)?;
                }
            }
            None if line.is_empty() || line.starts_with("//") => {}
            None => found.push(Entry {
                number: number.saturating_add(1),
                head: line,
                body: Vec::new(alloc),
            })?,
        }
    }
    Ok(found)
}
