use crate::fakes::{FakeReader, FakeWriter};
use std::io::{self, ErrorKind, Read, Write};

/// A stream of which every other call is interrupted, the first among them.
pub struct Interrupted<S> {
    pub stream: S,
    is_done: bool,
}

// Written out, it is proved once, and not again in each function that lets such a value go.
impl<S: Drop> Drop for Interrupted<S> {
    fn drop(self) {
        let Interrupted {
            stream: _,
            is_done: _,
        } = self;
    }
}

impl<S> Interrupted<S> {
    /// The same stream, with interruptions.
    pub fn new(stream: S) -> Interrupted<S> {
        Interrupted {
            stream,
            is_done: false,
        }
    }

    // Whether this call is interrupted.
    fn is_now(&mut self) -> bool {
        let now = !self.is_done;
        self.is_done = now;
        now
    }
}

impl Read for Interrupted<FakeReader<'_>> {
    fn read(&mut self, buf: &mut [u8]) -> io::Result<usize> {
        if self.is_now() {
            return Err(io::Error::from(ErrorKind::Interrupted));
        }
        self.stream.read(buf)
    }
}

impl Write for Interrupted<FakeWriter> {
    fn write(&mut self, buf: &[u8]) -> io::Result<usize> {
        if self.is_now() {
            return Err(io::Error::from(ErrorKind::Interrupted));
        }
        self.stream.write(buf)
    }

    fn flush(&mut self) -> io::Result<()> {
        self.stream.flush()
    }
}
