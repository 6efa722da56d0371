//! Named files, as the compiler reads and writes them.
ghost use Rattle.std.specs.Prelude.{◌≡◌, ◌≤◌, [], length, IfOk, IfSome, OnOk, OnErr, IsErrOf};
ghost use Rattle.safl_io.specs.Counts.{Rose};
ghost use Rattle.safl_io.specs.Told.{TellsOn};
ghost use Rattle.safl_io.specs.Shelf.{ShelfState, Leaves, LeavesOldOrEmpty, Appends, AppendsPart, ReadsFile, IsStray, CountsStray, SameFiles, SameReads};

use crate::fault::{Failed, OutErr};

/// A shelf of named files.
///
/// A shelf that tells what it holds goes on to tell it after every call. A call fails only if it counts a fault, and
/// one that succeeds counts none. A count never falls, and stays at 2^64 - 1 once it is there.
pub trait Shelf {
    /// What the shelf tells: its counts, and the names and bytes of its files if it tells them.
    ghost told: { Self → ShelfState };

    /// Reads bytes of a file from offset `at` on to the beginning of `buf`. Returns how many. If `buf` is not empty,
    /// this is 0 only at or past the file's end.
    fn read_at(&mut self, name: &str, at: u64, buf: &mut [u8]) -> Result<usize, Failed>
        ensures within { IfOk result (λ count. count ≤ length buf.old) }
        ensures read { IfOk result (λ count. IfSome (told self.old).holds (ReadsFile name.now at count buf.new)) }
        ensures failed { OnErr result (Rose (told self.old).read_faults (told self.new).read_faults) }
        ensures quiet { OnOk result ((told self.new).read_faults ≡ (told self.old).read_faults) }
        ensures same_files { SameFiles (told self.old) (told self.new) }
        ensures stray { CountsStray (told self.old).holds name.now (told self.old).strays (told self.new).strays };

    /// Makes an empty file, in place of an old one of that name. After an error the old file or an empty one is there.
    /// Other files stay as they were.
    fn create(&mut self, name: &str) -> Result<(), OutErr>
        ensures created { OnOk result (TellsOn (Leaves name.now []) (told self.old).holds (told self.new).holds) }
        ensures not_created { OnErr result (TellsOn (LeavesOldOrEmpty name.now) (told self.old).holds (told self.new).holds) }
        ensures failed { IsErrOf result OutErr.Failed → Rose (told self.old).write_faults (told self.new).write_faults }
        ensures quiet { OnOk result ((told self.new).write_faults ≡ (told self.old).write_faults) }
        ensures same_reads { SameReads (told self.old) (told self.new) }
        ensures same_strays { (told self.new).strays ≡ (told self.old).strays };

    /// Appends bytes to a file. After an error the file has its old bytes and a prefix of the new ones. Other files
    /// stay as they were.
    fn append(&mut self, name: &str, bytes: &[u8]) -> Result<(), OutErr>
        ensures appended { OnOk result (TellsOn (Appends name.now bytes.now) (told self.old).holds (told self.new).holds) }
        ensures not_appended { OnErr result (TellsOn (AppendsPart name.now bytes.now) (told self.old).holds (told self.new).holds) }
        ensures failed { IsErrOf result OutErr.Failed → Rose (told self.old).write_faults (told self.new).write_faults }
        ensures quiet { OnOk result ((told self.new).write_faults ≡ (told self.old).write_faults) }
        ensures missing { IsStray (told self.old).holds name.now → Rose (told self.old).write_faults (told self.new).write_faults }
        ensures same_reads { SameReads (told self.old) (told self.new) }
        ensures stray { CountsStray (told self.old).holds name.now (told self.old).strays (told self.new).strays };
}
