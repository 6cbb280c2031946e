//! The opening of a device's file, which may wait for the lock.

use crate::device_watch::DeviceWatch;
use crate::lock_guard::LockGuard;
use crate::teller::Teller;
use image_files::{FileFault, Holder, Opened, open};
use server::read_to_end_of;
use std::alloc::{AllocError, Global};
use std::io::Read;
use std::rt::Clock;
use std::sync::{Arc, Condvar, CondvarTimeouts, Mutex, Wait};
use std::thread::{self, Threads};
use std::time::Duration;

// The milliseconds from one try for the lock to the next.
const PAUSE: u64 = 500;

/// How a device's file is opened.
#[derive(Clone, Copy)]
pub struct Opening<'a, R> {
    pub rt: &'a HostRuntime,
    pub threads: &'a R,
    pub teller: Teller,
    pub path: &'a str,
    /// Whether it waits while another process has locked the file.
    pub waits_for_lock: bool,
    /// Whether it waits no longer than until standard input ends.
    pub until_eof: bool,
    pub watch: Option<&'a DeviceWatch>,
}

impl<'a, R: Threads + Wait + Clock + Copy + Send + Sync + Drop + 'static> Opening<'a, R> {
    /// Opens the file, which nothing else works on then; None if standard input ends before its lock is free. Each try for the lock opens
    /// the file anew, so that its length and what it holds are those after the other process.
    pub fn open(&self) -> Result<Option<Opened>, FileFault> {
        match self.open_watched() {
            Err(FileFault::InUse(Holder::Process)) if self.waits_for_lock => self.wait(),
            found => Ok(Some(found?)),
        }
    }

    // Tries again and again.
    fn wait(&self) -> Result<Option<Opened>, FileFault> {
        self.teller.tell_wait(self.path);
        let input = if self.until_eof {
            Some(InputEnd::start(self.rt, self.threads)?)
        } else {
            None
        };
        for _ in self.threads.forever() {
            match &input {
                Some(input) => {
                    if input.pause(self.threads) {
                        return Ok(None);
                    }
                }
                None => thread::sleep(self.threads, Duration::from_millis(PAUSE)),
            }
            match self.open_watched() {
                Err(FileFault::InUse(Holder::Process)) => {}
                found => return Ok(Some(found?)),
            }
        }
        unreachable!()
    }

    // Opens the file, and tells why it can't be an image, as one call of the device that is watched.
    fn open_watched(&self) -> Result<Opened, FileFault> {
        let Some(watch) = self.watch else {
            return self.open_told();
        };
        let place = watch.begin(self.threads)?;
        let opened = self.open_told();
        watch.end(self.threads, place)?;
        opened
    }

    fn open_told(&self) -> Result<Opened, FileFault> {
        let opened = open(self.rt, self.path)?;
        Ok(self.teller.tell_header(self.path, opened))
    }

    /// What guards the device that was opened, where it is watched.
    pub fn guard_of(
        &self,
        opened: &Opened,
        interval: Option<Duration>,
    ) -> Result<Option<LockGuard<'a>>, FileFault> {
        let Some(watch) = self.watch else {
            return Ok(None);
        };
        match opened.file.try_clone() {
            Ok(file) => Ok(Some(LockGuard {
                file,
                watch,
                interval,
            })),
            Err(error) => Err(FileFault::Unlocked(error)),
        }
    }
}

// Whether standard input has ended.
#[derive(Drop)]
struct InputEnd {
    is_ended: Mutex<bool>,
    changed: Condvar,
}

impl InputEnd {
    // Starts the thread that finds out, for which nobody waits.
    fn start<R>(host: &HostRuntime, rt: &R) -> Result<Arc<InputEnd, Global>, AllocError>
    where
        R: Threads + Wait + Copy + Send + Drop + 'static,
    {
        let made = Arc::new(
            host.alloc(),
            InputEnd {
                is_ended: Mutex::new(false),
                changed: Condvar::new(),
            },
        )?;
        let (own, its, input) = (*rt, Arc::try_clone(&made)?, host.stdin());
        match thread::spawn(rt, move || its.read_on(&own, input)) {
            Ok(_) => Ok(made),
            Err(_) => Err(AllocError),
        }
    }

    fn read_on<R: Wait, I: Read + Drop>(&self, rt: &R, input: I) {
        read_to_end_of(rt, input);
        *self.is_ended.lock(rt) = true;
        self.changed.notify_all();
    }

    // Waits until the next try is due; whether the input has ended before.
    fn pause<R: Wait + Clock>(&self, rt: &R) -> bool {
        let is_open = |is_ended: &mut bool| !*is_ended;
        let pause = Duration::from_millis(PAUSE);
        let is_ended = self.is_ended.lock(rt);
        let (is_ended, _) = self
            .changed
            .wait_timeout_while(rt, is_ended, pause, is_open);
        *is_ended
    }
}
