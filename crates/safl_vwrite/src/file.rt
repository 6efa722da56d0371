//! Writing the text of a net to a file.

ghost use Rattle.std.specs.Prelude.{◌≡◌, ◌≤◌, OnOk, OnErr, OnSome, IsErrOf};
ghost use Rattle.safl_io.specs.Counts.{Rose};
ghost use Rattle.safl_io.specs.Told.{TellsOn};
ghost use Rattle.safl_io.specs.Shelf.{Leaves, LeavesOldOrPart};
ghost use Rattle.safl_net.specs.Written.{written};
ghost use Rattle.safl_vwrite.specs.Torn.{LeavesOldOrTorn};

use crate::text::text_of;
use safl_io::{OutErr, Shelf, write_file};
use safl_net::Net;
use std::alloc::Global;

/// Why a net was not written.
#[derive(Clone, Copy, Debug, PartialEq, Eq, thiserror::Error)]
pub enum WriteErr {
    /// The shelf failed, and has counted the fault.
    #[error("writing failed")]
    Failed,
    #[error("out of memory")]
    NoMemory,
}

/// Writes the Verilog text of a net to a file, in place of an old one of that name. It creates the file and appends
/// pieces of 1,024 bytes, of which the last may be shorter.
pub fn write_net<S: Shelf>(
    alloc: Global,
    net: &Net,
    shelf: &mut S,
    name: &str,
) -> Result<(), WriteErr>
    ensures written { OnOk result (TellsOn (Leaves name.now (written net.now)) (S.told shelf.old).holds (S.told shelf.new).holds) }
    ensures failed { IsErrOf result WriteErr.Failed → Rose (S.told shelf.old).write_faults (S.told shelf.new).write_faults }

    // After an error the old file is there, or one with a prefix of the text. Such a prefix reads as no netlist, unless
    // it is the whole text, with or without its last line feed.
    ensures not_written { OnErr result (TellsOn (LeavesOldOrPart name.now (written net.now)) (S.told shelf.old).holds (S.told shelf.new).holds) }
    ensures torn { OnErr result (TellsOn (LeavesOldOrTorn name.now net.now) (S.told shelf.old).holds (S.told shelf.new).holds) }

    ensures same_reads { (S.told shelf.new).read_faults ≡ (S.told shelf.old).read_faults }
    ensures writes_later { (S.told shelf.old).write_faults ≤ (S.told shelf.new).write_faults }

    // On a shelf that tells what it holds, no missing file is read or appended to.
    ensures same_strays { OnSome (S.told shelf.old).holds ((S.told shelf.new).strays ≡ (S.told shelf.old).strays) }
    ensures strays_later { (S.told shelf.old).strays ≤ (S.told shelf.new).strays }
{
    let text = match text_of(alloc, net) {
        Ok(text) => text,
        Err(_) => return Err(WriteErr::NoMemory),
    };
    match write_file(shelf, name, &text) {
        Ok(()) => Ok(()),
        Err(OutErr::Failed) => Err(WriteErr::Failed),
        Err(OutErr::NoMemory) => Err(WriteErr::NoMemory),
    }
}
