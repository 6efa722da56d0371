//! Writing whole files to a shelf.
ghost use Rattle.std.specs.Prelude.{◌≡◌, OnOk, OnErr, IsErrOf};
ghost use Rattle.safl_io.specs.Counts.{Rose};
ghost use Rattle.safl_io.specs.Told.{TellsOn};
ghost use Rattle.safl_io.specs.Shelf.{Leaves, LeavesOldOrPart, SameReads, UsesNoStray};

use crate::fault::OutErr;
use crate::shelf::Shelf;

// How many bytes are appended at a time.
const PIECE: usize = 1024;

/// Writes a file with exactly these bytes, in place of an old one of that name: creates it, and appends pieces of 1,024
/// bytes, of which the last may be shorter. After an error the old file is there, or one with a prefix of the bytes.
/// Other files stay as they were.
pub fn write_file<S: Shelf>(shelf: &mut S, name: &str, bytes: &[u8]) -> Result<(), OutErr>
    ensures written { OnOk result (TellsOn (Leaves name.now bytes.now) (S.told shelf.old).holds (S.told shelf.new).holds) }
    ensures not_written { OnErr result (TellsOn (LeavesOldOrPart name.now bytes.now) (S.told shelf.old).holds (S.told shelf.new).holds) }
    ensures failed { IsErrOf result OutErr.Failed → Rose (S.told shelf.old).write_faults (S.told shelf.new).write_faults }
    ensures quiet { OnOk result ((S.told shelf.new).write_faults ≡ (S.told shelf.old).write_faults) }
    ensures same_reads { SameReads (S.told shelf.old) (S.told shelf.new) }

    // On a shelf that tells what it holds, no missing file is read or appended to.
    ensures same_strays { UsesNoStray (S.told shelf.old) (S.told shelf.new) }
{
    shelf.create(name)?;
    let mut at = 0;
    while at < bytes.len() {
        let end = at + (bytes.len() - at).min(PIECE);
        shelf.append(name, &bytes[at..end])?;
        at = end;
    }
    Ok(())
}
