//! Files of a system that interrupts every second call, and reads and writes one byte at a time.

use std::alloc::Allocator;
use std::cell::Cell;
use std::fs::{Metadata, OpenFile, OpenOptions};
use std::io;
use std::io::{ErrorKind, Read, Seek, SeekFrom, Write};
use std::rt::Files;

/// The length of a file in bytes. Its bytes are 0, 1, 2 and so on.
pub const LENGTH: u64 = 7;

/// What the system was asked for.
#[derive(Drop)]
pub struct Asked {
    pub opened: Cell<u32>,
    pub cut: Cell<u32>,
    // the bytes that were written, as decimal digits of one number
    pub taken: Cell<u64>,
}

impl Asked {
    pub fn nothing() -> Self {
        Asked {
            opened: Cell::new(0),
            cut: Cell::new(0),
            taken: Cell::new(0),
        }
    }
}

/// A system in which each name but `none` has a file of its own. The file `pipe` cannot seek and has no length.
#[derive(Drop)]
pub struct SlowSystem<'a> {
    pub asked: &'a Asked,
}

#[derive(Drop)]
pub struct SlowFile<'a> {
    asked: &'a Asked,
    is_pipe: bool,
    at: u64,
    is_interrupted: bool,
}

#[derive(Drop)]
pub struct NoFolder;

impl Read for NoFolder {
    fn read(&mut self, _buf: &mut [u8]) -> io::Result<usize> {
        Ok(0)
    }
}

impl<'a> SlowFile<'a> {
    // Whether this call is interrupted. The first call is, the third, and so on.
    fn interrupts(&mut self) -> bool {
        self.is_interrupted = !self.is_interrupted;
        self.is_interrupted
    }
}

impl<'a> Read for SlowFile<'a> {
    fn read(&mut self, buf: &mut [u8]) -> io::Result<usize> {
        if self.interrupts() {
            return Err(io::Error::from(ErrorKind::Interrupted));
        }
        if self.at >= LENGTH {
            return Ok(0);
        }
        match buf.first_mut() {
            Some(place) => {
                *place = self.at as u8;
                self.at += 1;
                Ok(1)
            }
            None => Ok(0),
        }
    }
}

impl<'a> Write for SlowFile<'a> {
    fn write(&mut self, buf: &[u8]) -> io::Result<usize> {
        if self.interrupts() {
            return Err(io::Error::from(ErrorKind::Interrupted));
        }
        match buf.first() {
            Some(byte) => {
                let taken = self.asked.taken.get().wrapping_mul(10);
                self.asked.taken.set(taken.wrapping_add(*byte as u64));
                Ok(1)
            }
            None => Ok(0),
        }
    }

    fn flush(&mut self) -> io::Result<()> {
        Ok(())
    }
}

impl<'a> Seek for SlowFile<'a> {
    fn seek(&mut self, to: SeekFrom) -> io::Result<u64> {
        match to {
            SeekFrom::Start(at) if !self.is_pipe => {
                self.at = at;
                Ok(at)
            }
            _ => Err(io::Error::from(ErrorKind::NotSeekable)),
        }
    }
}

impl<'a> OpenFile for SlowFile<'a> {
    fn metadata(&self) -> io::Result<Metadata> {
        if self.is_pipe {
            return Ok(Metadata::of_dir());
        }
        Ok(Metadata::of_file(LENGTH))
    }

    fn set_len(&self, size: u64) -> io::Result<()> {
        if self.is_pipe || size > 0 {
            return Err(io::Error::from(ErrorKind::InvalidInput));
        }
        self.asked.cut.set(self.asked.cut.get().wrapping_add(1));
        Ok(())
    }

    fn sync_all(&self) -> io::Result<()> {
        Ok(())
    }

    fn sync_data(&self) -> io::Result<()> {
        Ok(())
    }
}

fn unsupported<T>() -> io::Result<T> {
    Err(io::Error::from(ErrorKind::Unsupported))
}

impl<'a> Files for SlowSystem<'a> {
    type File = SlowFile<'a>;

    type Dir = NoFolder;

    fn open_file(&self, how: &OpenOptions, path: &str) -> io::Result<SlowFile<'a>> {
        how.check()?;
        if path == "none" {
            return Err(io::Error::from(ErrorKind::NotFound));
        }
        self.asked
            .opened
            .set(self.asked.opened.get().wrapping_add(1));
        Ok(SlowFile {
            asked: self.asked,
            is_pipe: path == "pipe",
            at: 0,
            is_interrupted: false,
        })
    }

    fn open_dir(&self, _path: &str) -> io::Result<NoFolder> {
        unsupported()
    }

    fn metadata(&self, _path: &str) -> io::Result<Metadata> {
        unsupported()
    }

    fn symlink_metadata(&self, _path: &str) -> io::Result<Metadata> {
        unsupported()
    }

    fn copy(&self, _from: &str, _to: &str) -> io::Result<u64> {
        unsupported()
    }

    fn rename(&self, _from: &str, _to: &str) -> io::Result<()> {
        unsupported()
    }

    fn remove_file(&self, _path: &str) -> io::Result<()> {
        unsupported()
    }

    fn create_dir(&self, _path: &str) -> io::Result<()> {
        unsupported()
    }

    fn remove_dir(&self, _path: &str) -> io::Result<()> {
        unsupported()
    }

    fn remove_dir_all<B: Allocator>(&self, _alloc: B, _path: &str) -> io::Result<()> {
        unsupported()
    }
}
