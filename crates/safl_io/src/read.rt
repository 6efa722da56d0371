//! Reading whole files from a shelf.
ghost use Rattle.std.specs.Prelude.{◌≡◌, ◌≤◌, ◌<◌, ◌+◌, length, IfOk, IfSome, OnOk, IsErrOf};
ghost use Rattle.safl_io.specs.Counts.{Rose};
ghost use Rattle.safl_io.specs.Shelf.{IsStray, SameFiles};
ghost use Rattle.safl_io.specs.Reading.{HasFile, HasLonger, IsReadSoFar, IsReadToEnd};
ghost use Rattle.safl_io.specs.declared.read.ReadErr.TheVariants as why;

use crate::fault::Failed;
use crate::shelf::Shelf;
use std::alloc::{AllocError, Global};

// How many bytes are asked for at a time.
const PIECE: usize = 65_536;

/// Why a file could not be read.
#[derive(Clone, Copy, Debug, PartialEq, Eq)]
pub enum ReadErr {
    /// The shelf failed, and has counted the fault.
    Failed,
    /// The file has more bytes than the limit.
    TooLong,
    NoMemory,
}

impl From<Failed> for ReadErr {
    ghost from_gives = { λ _ e. e ≡ why.Failed };

    fn from(_: Failed) -> Self {
        ReadErr::Failed
    }
}

impl From<AllocError> for ReadErr {
    ghost from_gives = { λ _ e. e ≡ why.NoMemory };

    fn from(_: AllocError) -> Self {
        ReadErr::NoMemory
    }
}

/// Reads a file of at most `limit` bytes.
pub fn read_file<S: Shelf>(
    alloc: Global,
    shelf: &mut S,
    name: &str,
    limit: u64,
) -> Result<Vec<u8>, ReadErr>
    ensures read { IfOk result (λ text. IfSome (S.told shelf.old).holds (HasFile name.now text.items)) }
    ensures within { IfOk result (λ text. length text.items ≤ limit) }
    ensures too_long { IsErrOf result ReadErr.TooLong → IfSome (S.told shelf.old).holds (HasLonger name.now limit) }
    ensures failed { IsErrOf result ReadErr.Failed → Rose (S.told shelf.old).read_faults (S.told shelf.new).read_faults }
    ensures quiet { OnOk result ((S.told shelf.new).read_faults ≡ (S.told shelf.old).read_faults) }
    ensures same_files { SameFiles (S.told shelf.old) (S.told shelf.new) }
    ensures same_strays { ¬ IsStray (S.told shelf.old).holds name.now → (S.told shelf.new).strays ≡ (S.told shelf.old).strays }
{
    let mut text = Vec::new(alloc);
    let mut buffer = zeros(alloc, PIECE)?;
    while text.len() as u64 <= limit {
        let wanted = (limit - text.len() as u64).min(PIECE as u64 - 1) as usize + 1;
        let count = read_more(shelf, name, &mut text, &mut buffer[..wanted])?;
        if count == 0 {
            return Ok(text);
        }
    }
    Err(ReadErr::TooLong)
}

fn zeros(alloc: Global, count: usize) -> Result<Vec<u8>, AllocError>
    ensures { IfOk result (λ bytes. length bytes.items ≡ count) }
{
    vec![in alloc; 0u8; count]
}

// Reads the next bytes of a file and appends them to `text`, which has those before them.
fn read_more<S: Shelf>(
    shelf: &mut S,
    name: &str,
    text: &mut Vec<u8>,
    buffer: &mut [u8],
) -> Result<usize, ReadErr>
    requires { 0 < length buffer.old }
    ensures longer { IfOk result (λ count. length text.new.items ≡ length text.old.items + count) }
    ensures more { OnOk result (IsReadSoFar (S.told shelf.old).holds name.now text.old.items →
        IsReadSoFar (S.told shelf.old).holds name.now text.new.items) }
    ensures end { IfOk result (IsReadToEnd (S.told shelf.old).holds name.now text.old.items text.new.items) }
    ensures not_too_long { IsErrOf result ReadErr.TooLong → ⊥ }
    ensures failed { IsErrOf result ReadErr.Failed → Rose (S.told shelf.old).read_faults (S.told shelf.new).read_faults }
    ensures quiet { OnOk result ((S.told shelf.new).read_faults ≡ (S.told shelf.old).read_faults) }
    ensures same_files { SameFiles (S.told shelf.old) (S.told shelf.new) }
    ensures same_strays { ¬ IsStray (S.told shelf.old).holds name.now → (S.told shelf.new).strays ≡ (S.told shelf.old).strays }
{
    let count = shelf.read_at(name, text.len() as u64, buffer)?;
    text.extend_from_slice(&buffer[..count])?;
    Ok(count)
}
