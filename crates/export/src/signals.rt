//! What the threads of an export tell one another.

use std::sync::atomic::{AtomicBool, AtomicU64, Ordering};
use std::sync::{Condvar, Mutex};

/// Where threads wait, and are told to look again.
pub(crate) struct Signals {
    /// Told after each publish, each clean and the stop, when a checkpoint has nothing to copy, and when requests are to wait for memory no
    /// longer.
    pub progress: Condvar,
    /// Told where the flusher has work.
    pub work: Condvar,
    /// Told where the checkpointer has.
    pub checkpoint_due: Condvar,
    // Whether writers are to be slowed down. It saves them the order's lock if they aren't.
    slows_writers: AtomicBool,
    // How many READs have found blocks missing.
    misses: AtomicU64,
    /// Held while a thread waits for the keeper's lock. A thread that lets that lock go and wants it again at once then comes after those
    /// that wait for it.
    pub turn: Mutex<()>,
}

impl Drop for Signals {
    fn drop(self) {
        let Signals {
            progress: _,
            work: _,
            checkpoint_due: _,
            slows_writers: _,
            misses: _,
            turn: _,
        } = self;
    }
}

impl Signals {
    pub(crate) fn new() -> Signals {
        Signals {
            progress: Condvar::new(),
            work: Condvar::new(),
            checkpoint_due: Condvar::new(),
            slows_writers: AtomicBool::new(false),
            misses: AtomicU64::new(0),
            turn: Mutex::new(()),
        }
    }

    /// Notes whether writers are to be slowed down.
    pub(crate) fn note_slows_writers(&self, slows_writers: bool) {
        if self.slows_writers() != slows_writers {
            self.slows_writers.store(slows_writers, Ordering::SeqCst);
        }
    }

    /// Whether writers are to be slowed down, as it was last noted.
    pub(crate) fn slows_writers(&self) -> bool {
        self.slows_writers.load(Ordering::SeqCst)
    }

    /// Notes that a READ has found blocks missing.
    pub(crate) fn note_miss(&self) {
        self.misses.fetch_add(1, Ordering::SeqCst);
    }

    /// How many READs have found blocks missing.
    pub(crate) fn misses(&self) -> u64 {
        self.misses.load(Ordering::SeqCst)
    }

    /// Tells the flusher and the checkpointer to look for work.
    pub(crate) fn notify(&self, flusher: bool, checkpointer: bool) {
        if flusher {
            self.work.notify_one();
        }
        if checkpointer {
            self.checkpoint_due.notify_one();
        }
    }

    /// Tells all threads to look again: a call of the device has failed.
    pub(crate) fn notify_all(&self) {
        self.progress.notify_all();
        self.work.notify_all();
        self.checkpoint_due.notify_all();
    }
}
