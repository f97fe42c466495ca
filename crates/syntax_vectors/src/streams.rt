//! Readers and writers over memory that go in small steps and fail.
use std::io::{self, ErrorKind, Read, Write};

/// Gives some bytes, at most `step` at a time. One read fails, and a reader that then reads on gets
/// the bytes that are left. It counts its reads, those at its end too.
#[derive(Drop)]
pub struct Source<'a> {
    rest: &'a [u8],
    step: usize,
    fails_at: usize,
    reads: usize,
}

impl<'a> Source<'a> {
    /// The read that fails has the number `fails_at`, from 0 on.
    pub fn new(bytes: &'a [u8], step: usize, fails_at: usize) -> Self {
        Source {
            rest: bytes,
            step,
            fails_at,
            reads: 0,
        }
    }

    /// How many reads were made.
    pub fn reads(&self) -> usize {
        self.reads
    }
}

impl Read for Source<'_> {
    // The next bytes, or the one failure.
    fn read(&mut self, buf: &mut [u8]) -> io::Result<usize> {
        let number = self.reads;
        self.reads = number.saturating_add(1);
        if number == self.fails_at {
            return Err(io::Error::from(ErrorKind::Other));
        }
        let count = self.step.min(self.rest.len()).min(buf.len());
        let (front, rest) = self.rest.split_at(count);
        buf[..count].copy_from_slice(front);
        self.rest = rest;
        Ok(count)
    }
}

/// Takes bytes, at most `step` at a time, and fails after a number of writes.
#[derive(Drop)]
pub struct Sink {
    written: Vec<u8>,
    step: usize,
    writes: usize,
}

impl Sink {
    /// What is written goes after the bytes of `written`.
    pub fn new(written: Vec<u8>, step: usize, writes: usize) -> Self {
        Sink {
            written,
            step,
            writes,
        }
    }

    /// What was written.
    pub fn bytes(&self) -> &[u8] {
        self.written.as_slice()
    }
}

impl Write for Sink {
    // Takes a prefix of the bytes, or fails.
    fn write(&mut self, buf: &[u8]) -> io::Result<usize> {
        if self.writes == 0 {
            return Err(io::Error::from(ErrorKind::Other));
        }
        self.writes -= 1;
        let count = self.step.min(buf.len());
        if self.written.extend_from_slice(&buf[..count]).is_err() {
            return Err(io::Error::from(ErrorKind::OutOfMemory));
        }
        Ok(count)
    }

    // Nothing waits to be written.
    fn flush(&mut self) -> io::Result<()> {
        Ok(())
    }
}
