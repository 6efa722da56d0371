//! A sink over a writer that takes few bytes at a time.

use safl_io::{OutErr, Sink, StdSink};
use std::io;
use std::io::Write;
use std::test::Fail;

// A writer that takes two bytes at a time, and none after six.
#[derive(Drop)]
struct Slow<'a> {
    taken: &'a mut Vec<u8>,
}

impl<'a> Write for Slow<'a> {
    fn write(&mut self, buf: &[u8]) -> io::Result<usize> {
        let room = 6usize.saturating_sub(self.taken.len());
        let count = buf.len().min(2).min(room);
        self.taken.extend_from_slice(&buf[..count])?;
        Ok(count)
    }

    fn flush(&mut self) -> io::Result<()> {
        Ok(())
    }
}

#[test]
fn a_writer_that_takes_little(rt: HostRuntime) -> Result<(), Fail> {
    let mut taken = Vec::new(rt.alloc());
    let mut sink = StdSink::new(Slow { taken: &mut taken });
    assert_eq!(rt; sink.put(b"hello"), Ok(()));
    assert_eq!(rt; sink.put(b""), Ok(()));
    assert_eq!(rt; sink.put(b"abc"), Err(OutErr::Failed));
    assert_eq!(rt; taken.as_slice(), b"helloa".as_slice());
    Ok(())
}
