use std::alloc::{AllocError, Global};
use std::io::{self, ErrorKind, Read, Write};

/// A reader that gives at most `step` bytes at a time, and then its end or an error.
#[derive(Drop)]
pub struct FakeReader<'a> {
    rest: &'a [u8],
    step: usize,
    fails: bool,
}

impl<'a> FakeReader<'a> {
    pub fn new(bytes: &'a [u8], step: usize, fails: bool) -> FakeReader<'a> {
        FakeReader {
            rest: bytes,
            step,
            fails,
        }
    }
}

impl Read for FakeReader<'_> {
    fn read(&mut self, buf: &mut [u8]) -> io::Result<usize> {
        if self.rest.is_empty() && self.fails {
            return Err(io::Error::from(ErrorKind::Other));
        }
        let count = self.step.min(buf.len()).min(self.rest.len());
        let (given, rest) = self.rest.split_at(count);
        buf[..count].copy_from_slice(given);
        self.rest = rest;
        Ok(count)
    }
}

/// A writer that takes at most `step` bytes at a time, and no more once it has `room` of them.
pub struct FakeWriter {
    taken: Vec<u8>,
    step: usize,
    room: usize,
    writes: usize,
}

// Written out, it is proved once, and not again in each function that lets such a value go.
impl Drop for FakeWriter {
    fn drop(self) {
        let FakeWriter {
            taken: _,
            step: _,
            room: _,
            writes: _,
        } = self;
    }
}

impl FakeWriter {
    pub fn new(alloc: Global, step: usize, room: usize) -> FakeWriter {
        FakeWriter {
            taken: Vec::new(alloc),
            step,
            room,
            writes: 0,
        }
    }

    /// The same, with the memory for its room taken before.
    pub fn reserved(alloc: Global, step: usize, room: usize) -> Result<FakeWriter, AllocError> {
        Ok(FakeWriter {
            taken: Vec::with_capacity(alloc, room)?,
            step,
            room,
            writes: 0,
        })
    }

    /// What was written.
    pub fn taken(&self) -> &[u8] {
        &self.taken
    }

    /// How many writes there were.
    pub fn writes(&self) -> usize {
        self.writes
    }
}

impl Write for FakeWriter {
    fn write(&mut self, buf: &[u8]) -> io::Result<usize> {
        self.writes = self.writes.saturating_add(1);
        let left = self.room.saturating_sub(self.taken.len());
        if left == 0 {
            return Err(io::Error::from(ErrorKind::Other));
        }
        let count = self.step.min(left).min(buf.len());
        match self.taken.extend_from_slice(&buf[..count]) {
            Ok(()) => Ok(count),
            Err(_) => Err(io::Error::from(ErrorKind::OutOfMemory)),
        }
    }

    fn flush(&mut self) -> io::Result<()> {
        Ok(())
    }
}
