ghost use Rattle.std.specs.Io.{WritesAtMost};

use crate::device_watch::DeviceWatch;
use crate::full_disk::SpaceWait;
use crate::meter::micros_of;
use crate::opening_tally::OpeningTally;
use crate::server_log::ServerLog;
use image_files::is_full;
use metrics::WorkTally;
use std::fs::{Metadata, OpenFile};
use std::io;
use std::os::unix::fs::FileExt;
use std::rt::Clock;
use std::sync::Wait;
use std::time::Instant;

/// A device's file whose calls are watched if there is a watch, and whose syncs are counted and timed if there is a tally for them. A
/// call that takes too long fails, and so does each one that ends after the device has failed by another handle.
///
/// A write that the disk has no space for is tried again until there is some, if it isn't to be a fault: each try is a call of its own. What
/// such a write is to replace counts until it has returned.
#[derive(Drop)]
pub struct WatchedFile<'a, F: FileExt + OpenFile + Drop, R: Wait + Clock> {
    pub file: F,
    pub rt: &'a R,
    pub watch: Option<&'a DeviceWatch>,
    pub syncs: Option<&'a WorkTally>,
    /// Which counts how far the opening of the image is, if it is told.
    pub opening: Option<&'a OpeningTally>,
    /// By which it is told that a write waits for space on the disk; None where that is a fault.
    pub full: Option<ServerLog<'a, R>>,
}

impl<'a, F: FileExt + OpenFile + Drop, R: Wait + Clock> WatchedFile<'a, F, R> {
    // Writes once, as a call that is watched.
    fn write_watched(&self, buf: &[u8], offset: u64) -> io::Result<usize>
        ensures { WritesAtMost result buf.now }
    {
        let Some(watch) = self.watch else {
            return self.file.write_at(buf, offset);
        };
        let place = watch.begin(self.rt)?;
        let written = self.file.write_at(buf, offset);
        watch.end(self.rt, place)?;
        written
    }

    // Syncs the data, as a call that is watched.
    fn sync_watched(&self) -> io::Result<()> {
        let Some(watch) = self.watch else {
            return self.file.sync_data();
        };
        let _sole = watch.lock_syncs(self.rt);
        let place = watch.begin(self.rt)?;
        let synced = self.file.sync_data();
        watch.end(self.rt, place)?;
        synced
    }

    // Counts what was read, or written, while the image is opened.
    fn note_read(&self, offset: u64, read: &io::Result<usize>) {
        if let (Ok(count), Some(opening)) = (read, self.opening) {
            opening.note_read(self.rt, offset, *count);
        }
    }

    fn note_write(&self, offset: u64, written: &io::Result<usize>) {
        if let (Ok(count), Some(opening)) = (written, self.opening) {
            opening.note_write(self.rt, offset, *count);
        }
    }
}

// Whether the disk had no space for what was to be written.
fn found_no_space(written: &io::Result<usize>) -> bool {
    match written {
        Ok(_) => false,
        Err(error) => is_full(error),
    }
}

impl<'a, F: FileExt + OpenFile + Drop, R: Wait + Clock> FileExt for WatchedFile<'a, F, R> {
    fn read_at(&self, buf: &mut [u8], offset: u64) -> io::Result<usize> {
        let Some(watch) = self.watch else {
            let read = self.file.read_at(buf, offset);
            self.note_read(offset, &read);
            return read;
        };
        let place = watch.begin(self.rt)?;
        let read = self.file.read_at(buf, offset);
        watch.end(self.rt, place)?;
        self.note_read(offset, &read);
        read
    }

    fn write_at(&self, buf: &[u8], offset: u64) -> io::Result<usize> {
        let Some(log) = &self.full else {
            let written = self.write_watched(buf, offset);
            self.note_write(offset, &written);
            return written;
        };
        let mut wait = SpaceWait::new();
        for _ in self.rt.forever() {
            let written = self.write_watched(buf, offset);
            if !found_no_space(&written) {
                wait.finish(log);
                self.note_write(offset, &written);
                return written;
            }
            wait.wait(log);
        }
        unreachable!()
    }
}

impl<'a, F: FileExt + OpenFile + Drop, R: Wait + Clock> OpenFile for WatchedFile<'a, F, R> {
    fn metadata(&self) -> io::Result<Metadata> {
        self.file.metadata()
    }

    fn set_len(&self, size: u64) -> io::Result<()> {
        self.file.set_len(size)
    }

    fn sync_all(&self) -> io::Result<()> {
        self.file.sync_all()
    }

    fn sync_data(&self) -> io::Result<()> {
        let Some(syncs) = self.syncs else {
            return self.sync_watched();
        };
        let began = Instant::now(self.rt);
        let synced = self.sync_watched();
        if let Ok(began) = began {
            if let Ok(took) = began.elapsed(self.rt) {
                syncs.note(1, 0, micros_of(took));
            }
        }
        synced
    }
}
