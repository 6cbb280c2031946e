use crate::fakes::{FakeReader, FakeWriter};
use std::io::{self, ErrorKind, Read, Write};

/// A stream of which one call fails, and those after it work again.
pub struct FailsOnce<S> {
    pub stream: S,
    before: usize,
    failed: bool,
    calls_after: usize,
}

// Written out, it is proved once, and not again in each function that lets such a value go.
impl<S: Drop> Drop for FailsOnce<S> {
    fn drop(self) {
        let FailsOnce {
            stream: _,
            before: _,
            failed: _,
            calls_after: _,
        } = self;
    }
}

impl<S> FailsOnce<S> {
    /// The same stream, whose next call fails after this many that work.
    pub fn new(stream: S, before: usize) -> FailsOnce<S> {
        FailsOnce {
            stream,
            before,
            failed: false,
            calls_after: 0,
        }
    }

    /// Whether the call that fails was made.
    pub fn failed(&self) -> bool {
        self.failed
    }

    /// How many calls came after it.
    pub fn calls_after(&self) -> usize {
        self.calls_after
    }

    // Whether this call fails.
    fn is_now(&mut self) -> bool {
        if self.failed {
            self.calls_after = self.calls_after.saturating_add(1);
            return false;
        }
        self.failed = self.before == 0;
        self.before = self.before.saturating_sub(1);
        self.failed
    }
}

impl Read for FailsOnce<FakeReader<'_>> {
    fn read(&mut self, buf: &mut [u8]) -> io::Result<usize> {
        if self.is_now() {
            return Err(io::Error::from(ErrorKind::Other));
        }
        self.stream.read(buf)
    }
}

impl Write for FailsOnce<FakeWriter> {
    fn write(&mut self, buf: &[u8]) -> io::Result<usize> {
        if self.is_now() {
            return Err(io::Error::from(ErrorKind::Other));
        }
        self.stream.write(buf)
    }

    fn flush(&mut self) -> io::Result<()> {
        self.stream.flush()
    }
}
