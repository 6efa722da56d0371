//! A sink over a writer of the system.
ghost use Rattle.std.specs.Prelude.{◌≡◌, ℕ};

use crate::calls::raise;
use crate::fault::OutErr;
use crate::sink::Sink;
use crate::transfer::write_whole;
use std::io::Write;
use std::marker::Model;

/// A sink over a writer. It tells nothing of what was sent. Each error of the writer is a counted fault, and so is a
/// write that takes no byte of a piece that is not empty.
#[derive(Drop)]
pub struct StdSink<W: Write + Drop> {
    writer: W,
    faults: u64,
}

impl<W: Write + Drop> Model for StdSink<W> {
    ghost Value = { ℕ };

    ghost view = { λ sink. sink.faults };
}

impl<W: Write + Drop> StdSink<W> {
    /// A sink over the writer, without faults.
    pub fn new(w: W) -> Self
        ensures no_faults { result ≡ 0 }
    {
        StdSink {
            writer: w,
            faults: 0,
        }
    }
}

impl<W: Write + Drop> Sink for StdSink<W> {
    ghost use Rattle.std.specs.Prelude.{None};

    ghost told = { λ count. record { sent = None; faults = count } };

    fn put(&mut self, bytes: &[u8]) -> Result<(), OutErr> {
        match write_whole(&mut self.writer, bytes) {
            Ok(()) => Ok(()),
            Err(_) => {
                self.faults = raise(self.faults);
                Err(OutErr::Failed)
            }
        }
    }
}
