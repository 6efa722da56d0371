//! The files that a command reads.

ghost use Rattle.std.specs.Prelude.{◌≡◌, ◌≤◌, length, IfOk, IfErr, IfSome, OnOk};
ghost use Rattle.safl_io.specs.Reading.{HasFile};
ghost use Rattle.safl_io.specs.Shelf.{UsesNoStray};
ghost use Rattle.safl_task.specs.Inputs.{shown_input, shown_inputs, shown_contents, file_within};
ghost use Rattle.safl_task.specs.Limits.{script_max, verilog_max, aig_max};
ghost use Rattle.safl_word.specs.Limits.{source_max};
ghost use Rattle.safl_task.specs.Inputs.{AreUnread, IsUnreadAt, OnlyReads};
ghost use Rattle.safl_task.specs.Tasks.{OfFile, AreContents, SameStraysWith};

use safl_io::{ReadErr, Shelf, read_file};
use safl_word::limits::SOURCE_MAX;
use std::alloc::Global;

/// The greatest length of a script in bytes.
pub const SCRIPT_MAX: u64 = 1_048_576;

/// The greatest length of a Verilog file in bytes.
const VERILOG_MAX: u64 = 67_108_864;

/// The greatest length of an AIGER file in bytes.
const AIG_MAX: u64 = 536_870_912;

/// A file that a command reads, and its greatest length in bytes.
#[derive(Clone, Copy)]
pub struct Input<'a> {
    pub name: &'a str,
    pub limit: u64,
}

impl<'a> Input<'a> {
    /// A file with a source.
    pub fn source(name: &'a str) -> Self
        ensures { shown_input result ≡ file_within name.now source_max }
    {
        Input {
            name,
            limit: SOURCE_MAX as u64,
        }
    }

    /// A file with a script.
    pub fn script(name: &'a str) -> Self
        ensures { shown_input result ≡ file_within name.now script_max }
    {
        Input {
            name,
            limit: SCRIPT_MAX,
        }
    }

    /// A file with a Verilog text.
    pub fn verilog(name: &'a str) -> Self
        ensures { shown_input result ≡ file_within name.now verilog_max }
    {
        Input {
            name,
            limit: VERILOG_MAX,
        }
    }

    /// A file with an AIGER text.
    pub fn aig(name: &'a str) -> Self
        ensures { shown_input result ≡ file_within name.now aig_max }
    {
        Input {
            name,
            limit: AIG_MAX,
        }
    }
}

/// Why a file was not read.
#[derive(Clone, Copy)]
pub enum Unread<'a> {
    /// The file of this name could not be read.
    Failed(&'a str),
    /// The file of this name is longer than this limit.
    TooLong(&'a str, u64),
    NoMemory,
}

/// The bytes of the files, each within its limit. They are read in order, and reading ends at the first file that
/// cannot be read.
pub fn read_inputs<'a, S: Shelf>(
    alloc: Global,
    shelf: &mut S,
    inputs: &[Input<'a>],
) -> Result<Vec<Vec<u8>>, Unread<'a>>
    ensures read { IfOk result (λ contents. AreContents (S.told shelf.old).holds (shown_inputs inputs.now) (shown_contents contents.items)) }
    ensures refused { IfErr result (AreUnread (shown_inputs inputs.now) (S.told shelf.old) (S.told shelf.new)) }
    ensures quiet { OnOk result ((S.told shelf.new).read_faults ≡ (S.told shelf.old).read_faults) }
    ensures only_reads { OnlyReads (S.told shelf.old) (S.told shelf.new) }
    // On a shelf that tells what it holds, and holds all these files, no missing file is read.
    ensures no_stray { SameStraysWith (shown_inputs inputs.now) (S.told shelf.old) (S.told shelf.new) }
{
    let mut contents = Vec::new(alloc);
    'inputs: for i in 0..inputs.len() {
        let bytes = match read_input(alloc, shelf, inputs[i]) {
            Ok(bytes) => bytes,
            Err(unread) => return Err(unread),
        };
        let Ok(()) = contents.push(bytes) else {
            return Err(Unread::NoMemory);
        };
    }
    Ok(contents)
}

fn read_input<'a, S: Shelf>(
    alloc: Global,
    shelf: &mut S,
    input: Input<'a>,
) -> Result<Vec<u8>, Unread<'a>>
    ensures read { IfOk result (λ bytes. IfSome (S.told shelf.old).holds (HasFile input.entry.name.now bytes.items)) }
    ensures small { IfOk result (λ bytes. length bytes.items ≤ input.entry.limit) }
    ensures refused { IfErr result (IsUnreadAt (shown_input input.entry) (S.told shelf.old) (S.told shelf.new)) }
    ensures quiet { OnOk result ((S.told shelf.new).read_faults ≡ (S.told shelf.old).read_faults) }
    ensures only_reads { OnlyReads (S.told shelf.old) (S.told shelf.new) }
    ensures no_stray { OfFile (S.told shelf.old).holds input.entry.name.now (λ bytes. Unit {0}) → UsesNoStray (S.told shelf.old) (S.told shelf.new) }
{
    match read_file(alloc, shelf, input.name, input.limit) {
        Ok(bytes) => Ok(bytes),
        Err(ReadErr::Failed) => Err(Unread::Failed(input.name)),
        Err(ReadErr::TooLong) => Err(Unread::TooLong(input.name, input.limit)),
        Err(ReadErr::NoMemory) => Err(Unread::NoMemory),
    }
}
