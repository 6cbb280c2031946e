//! What looks after a device while nobody asks for it.

use crate::device_watch::DeviceWatch;
use server::Watched;
use std::fs::{File, OpenFile, TryLockError};
use std::io::{self, ErrorKind};
use std::rt::Clock;
use std::sync::Wait;
use std::time::Duration;

/// A handle by which the lock of a device is checked. It has the file and the lock in common with the keeper's handle.
#[derive(Drop)]
pub struct LockGuard<'a> {
    pub file: File,
    pub watch: &'a DeviceWatch,
    /// How long it is from one check to the next; None where there is none.
    pub interval: Option<Duration>,
}

impl<'a> LockGuard<'a> {
    /// Checks the lock again and again until the server ends. If that is refused the device has failed; why.
    pub fn check_on<R: Wait + Clock, W: Watched>(&self, rt: &R, watched: &W) -> io::Result<()> {
        let Some(interval) = self.interval else {
            return Ok(());
        };
        for _ in rt.forever() {
            if !self.watch.rest(rt, interval) {
                return Ok(());
            }
            if let Err(error) = self.check(rt) {
                watched.fail();
                return Err(error);
            }
        }
        unreachable!()
    }

    /// Cuts all connections if a call of the device takes too long before the server ends.
    pub fn cut_when_late<R: Wait, W: Watched>(&self, rt: &R, watched: &W) {
        self.watch.add_task(rt);
        if self.watch.is_late_before_end(rt) {
            watched.cut_off();
        }
        self.watch.finish_task(rt);
    }

    // Takes the lock again, and syncs the device. If either is refused the device has failed.
    fn check<R: Wait + Clock>(&self, rt: &R) -> io::Result<()> {
        let _sole = self.watch.lock_syncs(rt);
        let place = self.watch.begin(rt)?;
        let checked = self.lock_and_sync();
        let ended = self.watch.end(rt, place);
        if checked.is_err() {
            self.watch.fail(rt);
        }
        checked?;
        ended
    }

    fn lock_and_sync(&self) -> io::Result<()> {
        match self.file.try_lock() {
            Ok(()) => OpenFile::sync_data(&self.file),
            Err(TryLockError::WouldBlock) => Err(io::Error::from(ErrorKind::WouldBlock)),
            Err(TryLockError::Error(error)) => Err(error),
        }
    }
}
