use crate::devices::Locks;
use crate::files::{Place, Wanted};
use crate::filling::fill;
use crate::progress::{Progress, Work};
use std::cell::Cell;
use std::fs::{File, Metadata, OpenFile};
use std::io;
use std::os::fd::{AsRawFd, RawFd};
use std::os::unix::fs::{FileExt, MetadataExt};

// The unit in which the system tells how much of a file is allocated.
const SECTOR_BYTES: u64 = 512;

/// A file that is emptied, gets its full length, and has its first bytes allocated, all stable, at the first write or sync of its data. A
/// caller that gives up before that has lost nothing of what the file held. For the disk model the file is empty from the start, and
/// this isn't stable before that sync. A block device is written as it is; if all of it is to be allocated, it is filled with zeroes.
#[derive(Drop)]
pub struct FreshFile {
    rt: HostRuntime,
    file: File,
    wanted: Wanted,
    place: Place,
    is_new: bool,
    is_ready: Cell<bool>,
    _locks: Locks,
}

impl FreshFile {
    pub(crate) fn new(
        rt: &HostRuntime,
        file: File,
        wanted: Wanted,
        place: Place,
        locks: Locks,
    ) -> FreshFile {
        FreshFile {
            rt: *rt,
            file,
            wanted,
            place,
            is_new: false,
            is_ready: Cell::new(false),
            _locks: locks,
        }
    }

    pub(crate) fn told_new(self, is_new: bool) -> FreshFile {
        FreshFile { is_new, ..self }
    }

    /// Whether there was no file at its path.
    pub fn is_new(&self) -> bool {
        self.is_new
    }

    /// Whether it is a file, all of which reads as zero until it is written.
    pub(crate) fn reads_as_zero(&self) -> bool {
        self.place == Place::File
    }

    /// Empties it, and gives it its full length, if it wasn't written yet.
    pub(crate) fn make_ready(&self) -> io::Result<()> {
        if !self.is_ready.get() {
            match self.place {
                Place::File => self.make_file_ready()?,
                Place::BlockDevice if self.fills_all() => self.allocate()?,
                Place::BlockDevice => {}
            }
            self.is_ready.set(true);
        }
        Ok(())
    }

    fn fills_all(&self) -> bool {
        self.wanted.allocated == self.wanted.size
    }

    // A file for which there is no room is as long as it was, or else empty.
    fn make_file_ready(&self) -> io::Result<()> {
        self.try_room()?;
        OpenFile::set_len(&self.file, 0)?;
        OpenFile::set_len(&self.file, self.wanted.size)?;
        let allocated = self.allocate();
        if allocated.is_err() {
            // What was written takes room that others want.
            OpenFile::set_len(&self.file, 0)?;
        }
        allocated
    }

    fn allocate(&self) -> io::Result<()> {
        let progress = if self.fills_all() {
            Progress::new(&self.rt, Work::Fill)
        } else {
            Progress::silent(&self.rt)
        };
        fill(&self.file, 0, self.wanted.allocated, &progress)?;
        OpenFile::sync_all(&self.file)
    }

    // Whether there is room shows before anything is lost: as many zeroes as blocks are missing are written after the end, and taken
    // away again.
    fn try_room(&self) -> io::Result<()> {
        let metadata = OpenFile::metadata(&self.file)?;
        let present = metadata.blocks().saturating_mul(SECTOR_BYTES);
        let missing = self.wanted.allocated.saturating_sub(present);
        if metadata.len() == 0 || missing == 0 {
            return Ok(());
        }
        let silent = Progress::silent(&self.rt);
        // (no sync: what was only cached goes at once)
        let tried = fill(&self.file, metadata.len(), missing, &silent);
        OpenFile::set_len(&self.file, metadata.len())?;
        tried
    }
}

impl FileExt for FreshFile {
    fn read_at(&self, buf: &mut [u8], offset: u64) -> io::Result<usize> {
        self.file.read_at(buf, offset)
    }

    fn write_at(&self, buf: &[u8], offset: u64) -> io::Result<usize> {
        self.make_ready()?;
        self.file.write_at(buf, offset)
    }
}

impl OpenFile for FreshFile {
    fn metadata(&self) -> io::Result<Metadata> {
        OpenFile::metadata(&self.file)
    }

    fn set_len(&self, size: u64) -> io::Result<()> {
        OpenFile::set_len(&self.file, size)
    }

    fn sync_all(&self) -> io::Result<()> {
        OpenFile::sync_all(&self.file)
    }

    fn sync_data(&self) -> io::Result<()> {
        self.make_ready()?;
        OpenFile::sync_data(&self.file)
    }
}

impl AsRawFd for FreshFile {
    fn as_raw_fd(&self) -> RawFd {
        self.file.as_raw_fd()
    }
}
