use crate::copying::CopyProgress;
use crate::noted::{FRONT_BYTES, HeaderSlots};
use crate::writing_out::{begin_writing, begin_writing_pieces};
use disk_model::MAX_PIECE;
use image_model::Geometry;
use std::cell::Cell;
use std::fmt::Display;
use std::fs::{Metadata, OpenFile};
use std::io::{self, ErrorKind};
use std::os::fd::AsRawFd;
use std::os::unix::fs::FileExt;

/// Takes the lines about a file.
pub trait FileLines {
    /// Tells a line, with `nbdj: ` before it. If it can't be written, it is lost.
    fn tell_line<T: Display + Drop>(&self, line: T);
}

/// Standard error, whose reader is waited for.
impl FileLines for HostRuntime {
    fn tell_line<T: Display + Drop>(&self, line: T) {
        let _ = eprintln!(self; "nbdj: {line}");
    }
}

/// A device's file of which the first call that fails is told, with what was tried and why it failed.
///
/// A write into the header slots of an image fails if they aren't as this process has found or left them: something else has written
/// to the image. After a write of blocks the system begins to write them to the disk, and so it does with the pieces of a long group or map
/// while the rest is still written.
#[derive(Drop)]
pub struct ToldFile<'a, F: FileExt + OpenFile + AsRawFd + Drop, L: FileLines + Drop> {
    file: F,
    path: &'a str,
    lines: L,
    // Whether a call that fails is still to be told.
    tells: Cell<bool>,
    // Whether a write that its disk has no space for is tried again, and so isn't told.
    retries_full: bool,
    // Whether it holds an image, with commands that a FLUSH may have confirmed.
    holds_image: bool,
    // What stands in the header slots of an image; none of any other file.
    slots: Cell<Option<HeaderSlots>>,
    // By which it tells how far an opening is.
    copying: Option<CopyProgress>,
}

// What is told of an image on a full disk.
const FULL: &str = "no space left on device: free some and start again; nothing durable is lost";

// What is told where the header slots aren't as they were left.
const OVERWRITTEN: &str =
    "the header isn't the one this process wrote last: something else has written to this image";

impl<'a, F: FileExt + OpenFile + AsRawFd + Drop, L: FileLines + Drop> ToldFile<'a, F, L> {
    /// The file at this path. Its faults are told if `tells` is set; `holds_image` says whether it holds an image already.
    pub fn new(
        lines: L,
        file: F,
        path: &'a str,
        tells: bool,
        holds_image: bool,
    ) -> ToldFile<'a, F, L> {
        // What can't be read now can't be read at the opening either.
        let slots = if holds_image {
            HeaderSlots::read(&file).ok()
        } else {
            None
        };
        ToldFile {
            file,
            path,
            lines,
            tells: Cell::new(tells),
            retries_full: false,
            holds_image,
            slots: Cell::new(slots),
            copying: None,
        }
    }

    /// The same file, whose lines go elsewhere from now on.
    pub fn tell_by<M: FileLines + Drop>(self, lines: M) -> ToldFile<'a, F, M> {
        let ToldFile {
            file,
            path,
            lines: _,
            tells,
            retries_full,
            holds_image,
            slots,
            copying,
        } = self;
        ToldFile {
            file,
            path,
            lines,
            tells,
            retries_full,
            holds_image,
            slots,
            copying,
        }
    }

    /// The same file, of which it isn't told that its disk has no space for a write: the caller tries that again.
    pub fn with_full_retried(self) -> ToldFile<'a, F, L> {
        ToldFile {
            retries_full: true,
            ..self
        }
    }

    // Looks before a write whether the header slots are as they were left, if it goes there.
    fn look_before(&self, offset: u64) -> io::Result<()> {
        if offset >= FRONT_BYTES as u64 {
            return Ok(());
        }
        let Some(left) = self.slots.get() else {
            return Ok(());
        };
        let found = match HeaderSlots::read(&self.file) {
            Ok(found) => found,
            Err(error) => {
                self.tell_of("read", FRONT_BYTES, 0, &error);
                return Err(error);
            }
        };
        if found != left {
            self.tells.set(false);
            let path = self.path;
            self.lines.tell_line(format_args!("{path}: {OVERWRITTEN}"));
            return Err(io::Error::from(ErrorKind::InvalidData));
        }
        Ok(())
    }

    // Notes what was written, if it went into the header slots.
    fn note(&self, offset: u64, bytes: &[u8]) {
        if offset >= FRONT_BYTES as u64 {
            return;
        }
        if let Some(mut slots) = self.slots.get() {
            slots.note(offset, bytes);
            self.slots.set(Some(slots));
        }
    }

    /// Has it tell how far an opening of an image of this geometry is, if that copies for long. From then on the system begins to write what
    /// is written.
    pub fn tell_copying(&mut self, rt: &HostRuntime, geometry: &Geometry) {
        self.copying = Some(CopyProgress::new(rt, geometry));
    }

    // Tells of the first call that failed.
    fn tell<T: Display + Drop>(&self, call: T, error: &io::Error) {
        if self.tells.replace(false) {
            let path = self.path;
            self.lines
                .tell_line(format_args!("{path}: {call}: {error}"));
            if self.holds_image && error.kind() == ErrorKind::StorageFull {
                self.lines.tell_line(FULL);
            }
        }
    }

    fn tell_of(&self, call: &str, bytes: usize, offset: u64, error: &io::Error) {
        self.tell(format_args!("{call} of {bytes} bytes at {offset}"), error);
    }
}

/// Whether a write has failed for want of space alone.
pub fn is_full(error: &io::Error) -> bool {
    matches!(
        error.kind(),
        ErrorKind::StorageFull | ErrorKind::QuotaExceeded
    )
}

impl<'a, F: FileExt + OpenFile + AsRawFd + Drop, L: FileLines + Drop> FileExt
    for ToldFile<'a, F, L> {
    fn read_at(&self, buf: &mut [u8], offset: u64) -> io::Result<usize> {
        let wanted = buf.len();
        let read = self.file.read_at(buf, offset);
        match (&read, &self.copying) {
            (Err(error), _) => self.tell_of("read", wanted, offset, error),
            (Ok(count), Some(copying)) => copying.note_read(offset, *count),
            (Ok(_), None) => {}
        }
        read
    }

    fn write_at(&self, buf: &[u8], offset: u64) -> io::Result<usize> {
        self.look_before(offset)?;
        let written = self.file.write_at(buf, offset);
        match &written {
            Ok(count) => {
                self.note(offset, &buf[..*count]);
                if let Some(copying) = &self.copying {
                    copying.note_write(offset, *count);
                    if copying.is_in_data(offset) {
                        begin_writing(&self.file, offset, *count);
                    } else if *count == MAX_PIECE {
                        begin_writing_pieces(&self.file, offset);
                    }
                }
            }
            Err(error) if self.retries_full && is_full(error) => {}
            Err(error) => self.tell_of("write", buf.len(), offset, error),
        }
        written
    }
}

impl<'a, F: FileExt + OpenFile + AsRawFd + Drop, L: FileLines + Drop> OpenFile
    for ToldFile<'a, F, L> {
    fn metadata(&self) -> io::Result<Metadata> {
        self.file.metadata()
    }

    fn set_len(&self, size: u64) -> io::Result<()> {
        self.file.set_len(size)
    }

    fn sync_all(&self) -> io::Result<()> {
        self.file.sync_all()
    }

    fn sync_data(&self) -> io::Result<()> {
        let synced = self.file.sync_data();
        if let Err(error) = &synced {
            self.tell("sync", error);
        }
        synced
    }
}
