//! Where the bytes of a new image come from: a file, a block device or a stream.
ghost use Rattle.std.specs.Prelude.{◌≡◌, ◌≤◌, IfOk};

use crate::told::FileLines;
use image_model::BLOCK_BYTES;
use image_transfer::{Source, SourceFault};
use std::fs::{File, OpenFile};
use std::io::{self, ErrorKind, Read};
use std::os::fd::AsRawFd;
use std::os::unix::fs::FileExt;

// What the system calls seeking to the next data, and to the next hole.
const SEEK_DATA: i32 = 3;

const SEEK_HOLE: i32 = 4;

// The proofs alone use its value, by which they tell what a source gave: see `specs/Sources.antt`.
enum Seal {
    Whole,
}

/// The bytes of a file or a block device, in their order. The first call of it that fails is told.
///
/// If the system tells where a file has holes, they are passed over. A file that gets shorter while it is read is a fault.
#[derive(Drop)]
pub struct FileSource<'a, L: FileLines + Drop> {
    file: File,
    path: &'a str,
    lines: L,
    // Whether a fault is told.
    tells: bool,
    size: u64,
    // The next block.
    block: u64,
    // Whether the system tells of holes.
    has_holes: bool,
    // Up to which byte it is known that there are data.
    data_end: u64,
}

impl<'a, L: FileLines + Drop> FileSource<'a, L> {
    /// Of a file with this many bytes.
    pub fn new(lines: L, file: File, path: &'a str, size: u64, tells: bool) -> FileSource<'a, L>
        ensures { ⟦<FileSource<'a, L> as Source>⟧.block result ≡ 0 }
    {
        let has_holes = libc::lseek(file.as_raw_fd(), 0, SEEK_HOLE) >= 0;
        FileSource {
            file,
            path,
            lines,
            tells,
            size,
            block: 0,
            has_holes,
            data_end: 0,
        }
    }

    // The next byte from `offset` on that isn't in a hole; the size if all others are.
    fn next_data(&self, offset: u64) -> Result<u64, SourceFault> {
        let from = i64::try_from(offset).unwrap_or(i64::MAX);
        let found = libc::lseek(self.file.as_raw_fd(), from, SEEK_DATA);
        if found >= 0 {
            return Ok(found as u64);
        }
        // Nothing but a hole is left, or the file ends before.
        match OpenFile::metadata(&self.file) {
            Ok(metadata) if metadata.len() >= self.size => Ok(self.size),
            Ok(_) => Err(self.fault(offset, "it got shorter")),
            Err(error) => Err(self.fault(offset, error)),
        }
    }

    // How many of the next blocks, at most `most`, are known to be zeroes.
    fn known_zeroes(&mut self, most: u64) -> Result<u64, SourceFault>
        ensures within { IfOk result (λ count. count ≤ most) }
        ensures file { self.new.file ≡ self.old.file }
        ensures block { self.new.block ≡ self.old.block }
    {
        let offset = self.block.saturating_mul(BLOCK_BYTES);
        if offset >= self.size {
            return Ok(most);
        }
        if !self.has_holes || offset < self.data_end {
            return Ok(0);
        }
        let data = self.next_data(offset)?;
        let count = if data >= self.size {
            most
        } else {
            (data.saturating_sub(offset) / BLOCK_BYTES).min(most)
        };
        if count < most {
            self.data_end = self.next_hole(data);
        }
        Ok(count)
    }

    // Reads the next blocks; what is behind the end is zero.
    fn read_blocks(&self, into: &mut [u8]) -> Result<(), SourceFault> {
        let offset = self.block.saturating_mul(BLOCK_BYTES);
        let count = self.size.saturating_sub(offset).min(into.len() as u64) as usize;
        let (head, rest) = into.split_at_mut(count);
        rest.fill(0);
        match self.file.read_exact_at(head, offset) {
            Ok(()) => Ok(()),
            Err(error) if error.kind() == ErrorKind::UnexpectedEof => {
                Err(self.fault(offset, "it got shorter"))
            }
            Err(error) => Err(self.fault(offset, error)),
        }
    }

    // The next byte from `offset` on that is in a hole, or ends the file.
    fn next_hole(&self, offset: u64) -> u64 {
        let from = i64::try_from(offset).unwrap_or(i64::MAX);
        libc::lseek(self.file.as_raw_fd(), from, SEEK_HOLE).max(0) as u64
    }

    // Tells why it can't be read.
    fn fault<T: std::fmt::Display + Drop>(&self, offset: u64, why: T) -> SourceFault {
        if self.tells {
            let path = self.path;
            self.lines
                .tell_line(format_args!("{path}: read at {offset}: {why}"));
        }
        SourceFault
    }
}

impl<'a, L: FileLines + Drop> Source for FileSource<'a, L> {
    ghost use Rattle.image_files.specs.Sources.{ReadsAsIs, bytes_of};
    ghost use Rattle.image_files.specs.declared.sources.Seal.{Seal};

    ghost byte = { λ source. bytes_of source.file };

    ghost block = { λ source. source.block };

    // That the file reads as it is, which is a premise.
    ghost honest = { λ source. ReadsAsIs Seal source.file };

    fn pass_zeroes(&mut self, most: u64) -> Result<u64, SourceFault> {
        let passed = self.known_zeroes(most)?;
        self.block += passed;
        Ok(passed)
    }

    fn read(&mut self, into: &mut [u8]) -> Result<(), SourceFault> {
        self.read_blocks(into)?;
        self.block += into.len() as u64 / BLOCK_BYTES;
        Ok(())
    }
}

// Reads bytes until the buffer is full or the stream ends, and answers how many.
fn read_some<I: Read>(input: &mut I, into: &mut [u8]) -> io::Result<usize> {
    let mut count = 0;
    for _ in 0..u64::MAX {
        if count >= into.len() {
            break;
        }
        match input.read(&mut into[count..]) {
            Ok(0) => break,
            Ok(more) => count = count.saturating_add(more).min(into.len()),
            Err(error) if error.kind() == ErrorKind::Interrupted => {}
            Err(error) => return Err(error),
        }
    }
    Ok(count)
}

/// The bytes of a stream, of which there may be at most so many.
#[derive(Drop)]
pub struct StreamSource<I: Read + Drop, L: FileLines + Drop> {
    input: I,
    lines: L,
    tells: bool,
    // How many bytes may still come.
    left: u64,
    is_over: bool,
    block: u64,
}

impl<I: Read + Drop, L: FileLines + Drop> StreamSource<I, L> {
    /// Of a stream that has at most `size` bytes.
    pub fn new(lines: L, input: I, size: u64, tells: bool) -> StreamSource<I, L>
        ensures { ⟦<StreamSource<I, L> as Source>⟧.block result ≡ 0 }
    {
        StreamSource {
            input,
            lines,
            tells,
            left: size,
            is_over: false,
            block: 0,
        }
    }

    // Reads the next blocks; what is behind the stream's end is zero.
    fn read_blocks(&mut self, into: &mut [u8]) -> Result<(), SourceFault>
        ensures block { self.new.block ≡ self.old.block }
    {
        let asked = self.left.min(into.len() as u64) as usize;
        let (head, rest) = into.split_at_mut(asked);
        rest.fill(0);
        let count = match read_some(&mut self.input, head) {
            Ok(count) => count.min(asked),
            Err(error) => return Err(self.fault(error)),
        };
        head[count..].fill(0);
        self.note(count, asked)
    }

    fn fault<T: std::fmt::Display + Drop>(&self, why: T) -> SourceFault {
        if self.tells {
            self.lines.tell_line(format_args!("standard input: {why}"));
        }
        SourceFault
    }

    // Notes that so many of the bytes that were asked for have come. Once all have come that may, another one is a fault.
    fn note(&mut self, count: usize, asked: usize) -> Result<(), SourceFault>
        ensures block { self.new.block ≡ self.old.block }
    {
        self.left = self.left.saturating_sub(count as u64);
        if count < asked {
            self.is_over = true;
        } else if self.left == 0 {
            self.is_over = true;
            let mut more = [0; 1];
            match read_some(&mut self.input, &mut more) {
                Ok(0) => {}
                Ok(_) => return Err(self.fault("it has more bytes than the image")),
                Err(error) => return Err(self.fault(error)),
            }
        }
        Ok(())
    }
}

impl<I: Read + Drop, L: FileLines + Drop> Source for StreamSource<I, L> {
    ghost use Rattle.image_files.specs.Sources.{ReadsAsIs, bytes_of};
    ghost use Rattle.image_files.specs.declared.sources.Seal.{Seal};

    // (A program reads one stream, its standard input.)
    ghost byte = { λ source. bytes_of (tt {0}) };

    ghost block = { λ source. source.block };

    // That the stream's bytes are read as they come, which is a premise.
    ghost honest = { λ source. ReadsAsIs Seal (tt {0}) };

    fn pass_zeroes(&mut self, most: u64) -> Result<u64, SourceFault> {
        let passed = if self.is_over { most } else { 0 };
        self.block += passed;
        Ok(passed)
    }

    fn read(&mut self, into: &mut [u8]) -> Result<(), SourceFault> {
        self.read_blocks(into)?;
        self.block += into.len() as u64 / BLOCK_BYTES;
        Ok(())
    }
}
