//! A shelf over the system's files.
ghost use Rattle.std.specs.Prelude.{◌≡◌};

use crate::calls::raise;
use crate::fault::{Failed, OutErr};
use crate::opened::{
    ReadFile, WrittenFiles, append_to_file, forget, keep, open_empty, read_on, stop_reading,
};
use crate::shelf::Shelf;
use std::marker::Model;
use std::rt::Files;

/// A shelf over the system's files. A name is a path, which the system resolves from the current folder. The shelf
/// tells nothing of what it holds. Each error that the system reports is a counted fault.
///
/// A file is opened once for reads that follow one another, so they all read one file, which may be a pipe. It is
/// closed after its end was read, when a read fails or begins elsewhere, or when its name is created anew.
///
/// Up to 8 files that were created or appended to stay open, each until its name is created anew, an append to it
/// fails, or the shelf is dropped. All bytes are passed to the system at once, so a read sees them.
#[derive(Drop)]
pub struct DirShelf<'a, R: Files + Alloc> {
    rt: &'a R,
    reading: Option<ReadFile<R::File>>,
    written: WrittenFiles<R>,
    read_faults: u64,
    write_faults: u64,
}

impl<'a, R: Files + Alloc> Model for DirShelf<'a, R> {
    ghost use Rattle.safl_io.specs.Adapters.{FaultCounts};

    ghost Value = { FaultCounts };

    ghost view = { λ shelf. record { reads = shelf.read_faults; writes = shelf.write_faults } };
}

impl<'a, R: Files + Alloc> DirShelf<'a, R> {
    /// A shelf over the runtime's files, without faults.
    pub fn new(rt: &'a R) -> Self
        ensures no_faults { result ≡ record { reads = 0; writes = 0 } }
    {
        DirShelf {
            rt,
            reading: None,
            written: Vec::new(rt.alloc()),
            read_faults: 0,
            write_faults: 0,
        }
    }
}

impl<'a, R: Files + Alloc> Shelf for DirShelf<'a, R> {
    ghost use Rattle.std.specs.Prelude.{None};

    ghost told = { λ counts. record { holds = None; read_faults = counts.reads; write_faults = counts.writes; strays = 0 } };

    fn read_at(&mut self, name: &str, at: u64, buf: &mut [u8]) -> Result<usize, Failed> {
        match read_on(self.rt, &mut self.reading, name, at, buf) {
            Ok(count) => Ok(count),
            Err(_) => {
                self.read_faults = raise(self.read_faults);
                Err(Failed)
            }
        }
    }

    fn create(&mut self, name: &str) -> Result<(), OutErr> {
        stop_reading(&mut self.reading, name);
        forget(&mut self.written, name);
        match open_empty(self.rt, name) {
            Ok(file) => {
                keep(self.rt, &mut self.written, name, file)?;
                Ok(())
            }
            Err(_) => {
                self.write_faults = raise(self.write_faults);
                Err(OutErr::Failed)
            }
        }
    }

    fn append(&mut self, name: &str, bytes: &[u8]) -> Result<(), OutErr> {
        match append_to_file(self.rt, &mut self.written, name, bytes) {
            Ok(()) => Ok(()),
            Err(_) => {
                forget(&mut self.written, name);
                self.write_faults = raise(self.write_faults);
                Err(OutErr::Failed)
            }
        }
    }
}
