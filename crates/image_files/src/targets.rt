//! Where the bytes of an image go to: a file, a block device or a stream.

use crate::fresh::FreshFile;
use crate::told::FileLines;
use image_model::BLOCK_BYTES;
use image_transfer::{Target, TargetFault};
use std::fmt::Display;
use std::fs::OpenFile;
use std::io::{self, Write};
use std::os::unix::fs::FileExt;

// How many bytes of zeroes are written at once.
const ZERO_BYTES: u64 = 65_536;

static ZEROES: [u8; 65_536] = [0; 65_536];

/// A file or a block device, which gets bytes from its first one on. In a file blocks of zeroes are holes.
#[derive(Drop)]
pub struct FileTarget<'a, L: FileLines + Drop> {
    file: FreshFile,
    path: &'a str,
    lines: L,
    // Whether a fault is told.
    tells: bool,
    offset: u64,
}

impl<'a, L: FileLines + Drop> FileTarget<'a, L> {
    pub fn new(lines: L, file: FreshFile, path: &'a str, tells: bool) -> FileTarget<'a, L> {
        FileTarget {
            file,
            path,
            lines,
            tells,
            offset: 0,
        }
    }

    /// Makes stable what it was given. A file has its full length then.
    pub fn finish(&self) -> Result<(), TargetFault> {
        match self.finish_file() {
            Ok(()) => Ok(()),
            Err(error) => Err(self.fault(error)),
        }
    }

    fn finish_file(&self) -> io::Result<()> {
        self.file.make_ready()?;
        OpenFile::sync_all(&self.file)
    }

    fn fault<T: Display + Drop>(&self, why: T) -> TargetFault {
        if self.tells {
            let path = self.path;
            let offset = self.offset;
            self.lines
                .tell_line(format_args!("{path}: write at {offset}: {why}"));
        }
        TargetFault
    }

    // Writes bytes at the offset.
    fn put(&mut self, bytes: &[u8]) -> Result<(), TargetFault> {
        match self.file.write_all_at(bytes, self.offset) {
            Ok(()) => {
                self.offset = self.offset.saturating_add(bytes.len() as u64);
                Ok(())
            }
            Err(error) => Err(self.fault(error)),
        }
    }
}

impl<'a, L: FileLines + Drop> Target for FileTarget<'a, L> {
    // Nothing is claimed of what a file keeps.
    ghost byte = { λ target place. 0 };

    ghost count = { λ target. 0 };

    ghost honest = { λ target. ⊥ };

    fn write(&mut self, bytes: &[u8]) -> Result<(), TargetFault> {
        self.put(bytes)
    }

    fn write_zeroes(&mut self, blocks: u64) -> Result<(), TargetFault> {
        if self.file.reads_as_zero() {
            self.offset = self
                .offset
                .saturating_add(blocks.saturating_mul(BLOCK_BYTES));
            return Ok(());
        }
        let mut left = blocks.saturating_mul(BLOCK_BYTES);
        while left > 0 {
            let count = left.min(ZERO_BYTES);
            self.put(ZEROES.get(..count as usize).unwrap_or(&[]))?;
            left -= count;
        }
        Ok(())
    }
}

/// A stream.
#[derive(Drop)]
pub struct StreamTarget<O: Write + Drop, L: FileLines + Drop> {
    output: O,
    lines: L,
    tells: bool,
}

impl<O: Write + Drop, L: FileLines + Drop> StreamTarget<O, L> {
    pub fn new(lines: L, output: O, tells: bool) -> StreamTarget<O, L> {
        StreamTarget {
            output,
            lines,
            tells,
        }
    }

    /// Writes what is held of what it was given.
    pub fn finish(&mut self) -> Result<(), TargetFault> {
        match self.output.flush() {
            Ok(()) => Ok(()),
            Err(error) => Err(self.fault(error)),
        }
    }

    fn fault<T: Display + Drop>(&self, why: T) -> TargetFault {
        if self.tells {
            self.lines.tell_line(format_args!("standard output: {why}"));
        }
        TargetFault
    }

    fn put(&mut self, bytes: &[u8]) -> Result<(), TargetFault> {
        match self.output.write_all(bytes) {
            Ok(()) => Ok(()),
            Err(error) => Err(self.fault(error)),
        }
    }
}

impl<O: Write + Drop, L: FileLines + Drop> Target for StreamTarget<O, L> {
    // Nothing is claimed of what becomes of a stream's bytes.
    ghost byte = { λ target place. 0 };

    ghost count = { λ target. 0 };

    ghost honest = { λ target. ⊥ };

    fn write(&mut self, bytes: &[u8]) -> Result<(), TargetFault> {
        self.put(bytes)
    }

    fn write_zeroes(&mut self, blocks: u64) -> Result<(), TargetFault> {
        let mut left = blocks.saturating_mul(BLOCK_BYTES);
        while left > 0 {
            let count = left.min(ZERO_BYTES);
            self.put(ZEROES.get(..count as usize).unwrap_or(&[]))?;
            left -= count;
        }
        Ok(())
    }
}
