//! Files in memory, in the order in which they were made.
ghost use Rattle.std.specs.Prelude.{◌≡◌, [], OnOk, OnErr, IsSome, IsNone, IfSome, IfNone};
ghost use Rattle.std.specs.Option.{option_copied};
ghost use Rattle.safl_io.specs.Shelf.{file_of, Leaves, Appends};
ghost use Rattle.safl_io.specs.Stored.{pairs_of, IsPlace};

use std::alloc::{AllocError, Global};
use std::marker::Model;

#[derive(Drop)]
pub(crate) struct StoredFile {
    name: String,
    bytes: Vec<u8>,
}

#[derive(Drop)]
pub(crate) struct StoredFiles {
    alloc: Global,
    files: Vec<StoredFile>,
}

impl Model for StoredFiles {
    ghost use Rattle.safl_io.specs.Shelf.{Files};

    ghost Value = { Files };

    ghost use Rattle.safl_io.specs.Stored.{pairs_of};

    ghost view = { λ stored. pairs_of stored.files.items };
}

impl StoredFiles {
    pub(crate) fn new(alloc: Global) -> Self
        ensures { result ≡ [] }
    {
        StoredFiles {
            alloc,
            files: Vec::new(alloc),
        }
    }

    pub(crate) fn file(&self, name: &str) -> Option<&[u8]>
        ensures { option_copied result ≡ file_of self.now name.now }
    {
        match place_of(&self.files, name) {
            Some(place) => Some(&self.files[place].bytes),
            None => None,
        }
    }

    /// Puts a file into the list, in place of an old one of that name.
    pub(crate) fn put(&mut self, name: &str, bytes: &[u8]) -> Result<(), AllocError>
        ensures put { OnOk result (Leaves name.now bytes.now self.old self.new) }
        ensures same { OnErr result (self.new ≡ self.old) }
    {
        let file = StoredFile {
            name: String::from_str(self.alloc, name)?,
            bytes: Vec::from_slice(self.alloc, bytes)?,
        };
        match place_of(&self.files, name) {
            Some(place) => self.files[place] = file,
            None => self.files.push(file)?,
        }
        Ok(())
    }

    /// Appends bytes to a file that is there.
    pub(crate) fn append(&mut self, name: &str, bytes: &[u8]) -> Result<(), AllocError>
        requires { IsSome (file_of self.old name.now) }
        ensures appended { OnOk result (Appends name.now bytes.now self.old self.new) }
        ensures same { OnErr result (self.new ≡ self.old) }
    {
        let place = place_of(&self.files, name).unwrap();
        self.files[place].bytes.extend_from_slice(bytes)?;
        Ok(())
    }
}

fn place_of(files: &[StoredFile], name: &str) -> Option<usize>
    ensures found { IfSome result (IsPlace files.now name.now) }
    ensures none { IfNone result (IsNone (file_of (pairs_of files.now) name.now)) }
{
    for (place, file) in files.iter().enumerate() {
        if file.name.as_str() == name {
            return Some(place);
        }
    }
    None
}
