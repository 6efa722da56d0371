//! Files of the system that stay open from one call of a shelf to the next.
ghost use Rattle.std.specs.Prelude.{◌≤◌, length, IfOk};

use crate::transfer::{read_once, write_whole};
use arrayvec::ArrayString;
use std::alloc::{AllocError, Allocator};
use std::fs::{OpenFile, OpenOptions};
use std::io::{ErrorKind, Seek, SeekFrom};
use std::rt::Files;
use std::{fs, io};

// The length in bytes of the longest path that the system opens.
const PATH_MAX: usize = 4095;

// How many written files stay open, at most.
const WRITTEN_MAX: usize = 8;

/// The file that is being read.
#[derive(Drop)]
pub(crate) struct ReadFile<F> {
    // Held in the value itself, so that no read takes memory.
    name: ArrayString<PATH_MAX>,
    file: F,
    at: u64,
}

/// A file that was created or appended to.
#[derive(Drop)]
pub(crate) struct WrittenFile<F, A: Allocator> {
    name: String<A>,
    file: F,
}

pub(crate) type WrittenFiles<R> = Vec<
    WrittenFile<<R as Files>::File, <R as Alloc>::A>,
    <R as Alloc>::A,
>;

/// Goes on with the file that is being read if this is its name and its next byte is the one at `at`; otherwise opens
/// the file of this name. The file stays open until a read finds its end or fails.
pub(crate) fn read_on<R: Files>(
    rt: &R,
    reading: &mut Option<ReadFile<R::File>>,
    name: &str,
    at: u64,
    buf: &mut [u8],
) -> io::Result<usize>
    ensures within { IfOk result (λ count. count ≤ length buf.old) }
{
    let mut open = match reading.take() {
        Some(open) if open.at == at && open.name.as_str() == name => open,
        _ => open_at(rt, name, at)?,
    };
    let count = read_once(&mut open.file, buf)?;
    if count > 0 || buf.is_empty() {
        open.at = at.saturating_add(count as u64);
        *reading = Some(open);
    }
    Ok(count)
}

/// Closes the file that is being read if this is its name.
pub(crate) fn stop_reading<F: Drop>(reading: &mut Option<ReadFile<F>>, name: &str) {
    if matches!(reading, Some(open) if open.name.as_str() == name) {
        *reading = None;
    }
}

// Opens a file for reading from `at` on. At 0 it does not seek, since a pipe cannot.
fn open_at<R: Files>(rt: &R, name: &str, at: u64) -> io::Result<ReadFile<R::File>> {
    let Ok(own_name) = ArrayString::from(name) else {
        return Err(io::Error::from(ErrorKind::InvalidInput));
    };
    let mut file = fs::open(rt, name)?;
    if at > 0 {
        file.seek(SeekFrom::Start(at))?;
    }
    Ok(ReadFile {
        name: own_name,
        file,
        at,
    })
}

/// Opens a new file, or an old one with its contents removed, for writing at its end. Only a file with a length of its
/// own is cut: a pipe or a terminal is taken as it is.
pub(crate) fn open_empty<R: Files>(rt: &R, name: &str) -> io::Result<R::File> {
    let file = OpenOptions::new().append(true).create(true).open(rt, name)?;
    if file.metadata()?.is_file() {
        file.set_len(0)?;
    }
    Ok(file)
}

/// Writes at the end of a file. The file stays open if there is memory to note it.
pub(crate) fn append_to_file<R: Files + Alloc>(
    rt: &R,
    written: &mut WrittenFiles<R>,
    name: &str,
    bytes: &[u8],
) -> io::Result<()> {
    if let Some(open) = written.iter_mut().find(|open| open.name.as_str() == name) {
        return write_whole(&mut open.file, bytes);
    }
    let mut file = OpenOptions::new().append(true).open(rt, name)?;
    write_whole(&mut file, bytes)?;
    let _ = keep(rt, written, name, file);
    Ok(())
}

/// Keeps a written file open, in place of the oldest one if there are as many as allowed.
pub(crate) fn keep<R: Files + Alloc>(
    rt: &R,
    written: &mut WrittenFiles<R>,
    name: &str,
    file: R::File,
) -> Result<(), AllocError> {
    let name = String::from_str(rt.alloc(), name)?;
    if written.len() >= WRITTEN_MAX {
        written.remove(0);
    }
    written.push(WrittenFile { name, file })?;
    Ok(())
}

/// Closes the written file of this name.
pub(crate) fn forget<F: Drop, A: Allocator>(written: &mut Vec<WrittenFile<F, A>, A>, name: &str) {
    written.retain(|open| open.name.as_str() != name);
}
