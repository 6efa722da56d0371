//! A shelf in memory, for tests.
ghost use Rattle.std.specs.Prelude.{◌≡◌, ◌≤◌, ◌-◌, ◌↔◌, [], length, min, Some, IfOk, IfSome, OnOk, OnErr, IsErr, IsErrOf};
ghost use Rattle.std.specs.Option.{option_copied};
ghost use Rattle.safl_io.specs.Counts.{Rose, raised};
ghost use Rattle.safl_io.specs.Shelf.{file_of, Leaves, Appends, AppendsPart, ReadsFile, ReadsFrom, IsStray, CountsStray, SameFiles, SameReads};
ghost use Rattle.safl_io.specs.Calls.{Fails, FailsWhere, CountsFault, called, no_calls, with_failing};
ghost use Rattle.safl_io.specs.MemShelf.{FailsAt, AppendsHalf, told_by};

use crate::calls::{CallPlan, raise};
use crate::fault::{Failed, OutErr};
use crate::shelf::Shelf;
use crate::stored::StoredFiles;
use safl_word::NoMemory;
use std::alloc::{AllocError, Global};
use std::marker::Model;

/// A shelf in memory. It tells what it holds.
#[derive(Drop)]
pub struct MemShelf {
    files: StoredFiles,
    calls: CallPlan,
    read_faults: u64,
    write_faults: u64,
    strays: u64,
}

impl Model for MemShelf {
    ghost use Rattle.safl_io.specs.MemShelf.{Memory};

    ghost Value = { Memory };

    ghost view = { λ shelf. record {
      files = shelf.files;
      calls = shelf.calls;
      read_faults = shelf.read_faults;
      write_faults = shelf.write_faults;
      strays = shelf.strays;
    } };
}

impl MemShelf {
    /// A shelf without files and faults. No call is to fail.
    pub fn new(alloc: Global) -> Self
        ensures { result ≡ record {
          files = [];
          calls = no_calls;
          read_faults = 0;
          write_faults = 0;
          strays = 0;
        } }
    {
        MemShelf {
            files: StoredFiles::new(alloc),
            calls: CallPlan::new(alloc),
            read_faults: 0,
            write_faults: 0,
            strays: 0,
        }
    }

    /// Adds a file, in place of an old one of that name.
    pub fn add(&mut self, name: &str, bytes: &[u8]) -> Result<(), NoMemory>
        ensures added { OnOk result (Leaves name.now bytes.now self.old.files self.new.files) }
        ensures rest { self.new ≡ record self.old { files = self.new.files } }
        ensures same { OnErr result (self.new ≡ self.old) }
    {
        self.files.put(name, bytes)?;
        Ok(())
    }

    /// Lets the call of this number fail. Only calls of the trait are counted, from 1.
    pub fn fail_call(&mut self, call: u64) -> Result<(), NoMemory>
        ensures listed { OnOk result (self.new ≡ record self.old { calls = with_failing call self.old.calls }) }
        ensures same { OnErr result (self.new ≡ self.old) }
    {
        self.calls.fail_call(call)?;
        Ok(())
    }

    /// The bytes of the file of this name, if there is one. This is no call of the trait.
    pub fn file(&self, name: &str) -> Option<&[u8]>
        ensures { option_copied result ≡ file_of self.now.files name.now }
    {
        self.files.file(name)
    }
}

impl Shelf for MemShelf {
    ghost told = { told_by };

    // It fails exactly on a listed call or a missing name, counts one fault then and none else, and reads as much as there
    // is room for.
    fn read_at(&mut self, name: &str, at: u64, buf: &mut [u8]) -> Result<usize, Failed>
        ensures fails { IsErr result ↔ FailsAt self.old name.now }
        ensures read { IfOk result (λ count. ReadsFile name.now at count buf.new self.old.files) }
        ensures all { IfOk result (λ count. IfSome (file_of self.old.files name.now) (λ file.
            count ≡ min (length buf.old) (length file - at))) }
        ensures within { IfOk result (λ count. count ≤ length buf.old) }
        ensures counts { OnErr result (self.new.read_faults ≡ raised self.old.read_faults) }
        ensures quiet { OnOk result (self.new.read_faults ≡ self.old.read_faults) }
        ensures same_files { SameFiles (told_by self.old) (told_by self.new) }
        ensures stray { CountsStray (Some self.old.files) name.now self.old.strays self.new.strays }
        ensures called { self.new.calls ≡ called self.old.calls }
    {
        let fails = self.calls.next_fails();
        match self.files.file(name) {
            None => {
                self.strays = raise(self.strays);
                self.read_faults = raise(self.read_faults);
                Err(Failed)
            }
            Some(_) if fails => {
                self.read_faults = raise(self.read_faults);
                Err(Failed)
            }
            Some(file) => Ok(copy_from(file, at, buf)),
        }
    }

    // It fails exactly on a listed call, and counts one fault then and none else.
    fn create(&mut self, name: &str) -> Result<(), OutErr>
        ensures fails { IsErrOf result OutErr.Failed ↔ Fails self.old.calls }
        ensures created { OnOk result (Leaves name.now [] self.old.files self.new.files) }
        ensures not_created { OnErr result (self.new.files ≡ self.old.files) }
        ensures counts { CountsFault result self.old.write_faults self.new.write_faults }
        ensures same_reads { SameReads (told_by self.old) (told_by self.new) }
        ensures same_strays { self.new.strays ≡ self.old.strays }
        ensures called { self.new.calls ≡ called self.old.calls }
    {
        if self.calls.next_fails() {
            self.write_faults = raise(self.write_faults);
            return Err(OutErr::Failed);
        }
        self.files.put(name, &[])?;
        Ok(())
    }

    // It fails exactly on a listed call or a missing name, out of memory aside, and counts one fault then and none else.
    fn append(&mut self, name: &str, bytes: &[u8]) -> Result<(), OutErr>
        ensures fails { FailsWhere (FailsAt self.old name.now) result }
        ensures appended { OnOk result (Appends name.now bytes.now self.old.files self.new.files) }
        ensures not_appended { OnErr result (AppendsPart name.now bytes.now self.old.files self.new.files) }
        ensures half { IsErrOf result OutErr.Failed →
            AppendsHalf name.now bytes.now self.old.files self.new.files }
        ensures counts { CountsFault result self.old.write_faults self.new.write_faults }
        ensures missing { IsStray (Some self.old.files) name.now →
            Rose self.old.write_faults self.new.write_faults }
        ensures same_reads { SameReads (told_by self.old) (told_by self.new) }
        ensures stray { CountsStray (Some self.old.files) name.now self.old.strays self.new.strays }
        ensures called { self.new.calls ≡ called self.old.calls }
    {
        let fails = self.calls.next_fails();
        if self.files.file(name).is_none() {
            self.strays = raise(self.strays);
            self.write_faults = raise(self.write_faults);
            return Err(OutErr::Failed);
        }
        if fails {
            self.files.append(name, &bytes[..bytes.len() / 2])?;
            self.write_faults = raise(self.write_faults);
            return Err(OutErr::Failed);
        }
        self.files.append(name, bytes)?;
        Ok(())
    }
}

// Copies the bytes of a file from an offset on to the beginning of a buffer. Returns how many.
fn copy_from(file: &[u8], at: u64, buf: &mut [u8]) -> usize
    ensures all { result ≡ min (length buf.old) (length file.now - at) }
    ensures read { ReadsFrom at result buf.new file.now }
{
    let start = at.min(file.len() as u64) as usize;
    let rest = &file[start..];
    let count = buf.len().min(rest.len());
    buf[..count].copy_from_slice(&rest[..count]);
    count
}
