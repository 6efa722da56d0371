//! Reading bytes from the system and writing them to it.
ghost use Rattle.std.specs.Prelude.{◌≤◌, length, IfOk};

use std::io;
use std::io::{ErrorKind, Read, Write};

/// Reads once, and again if a signal interrupted the read.
pub(crate) fn read_once<F: Read>(file: &mut F, buf: &mut [u8]) -> io::Result<usize>
    ensures within { IfOk result (λ count. count ≤ length buf.old) }
{
    for _ in 0..u64::MAX {
        match file.read(buf) {
            Err(error) if error.kind() == ErrorKind::Interrupted => {}
            ended => return ended,
        }
    }
    Err(io::Error::from(ErrorKind::Interrupted))
}

/// Writes all the bytes. A write that takes no byte of a piece that is not empty is an error.
pub(crate) fn write_whole<W: Write>(w: &mut W, bytes: &[u8]) -> io::Result<()> {
    let mut rest = bytes;
    while !rest.is_empty() {
        let count = write_once(w, rest)?;
        if count == 0 {
            return Err(io::Error::from(ErrorKind::WriteZero));
        }
        rest = &rest[count..];
    }
    w.flush()
}

// Writes once, and again if a signal interrupted the write.
fn write_once<W: Write>(w: &mut W, bytes: &[u8]) -> io::Result<usize>
    ensures within { IfOk result (λ count. count ≤ length bytes.now) }
{
    for _ in 0..u64::MAX {
        match w.write(bytes) {
            Err(error) if error.kind() == ErrorKind::Interrupted => {}
            ended => return ended,
        }
    }
    Err(io::Error::from(ErrorKind::Interrupted))
}
