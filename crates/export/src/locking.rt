use crate::export::Export;
use crate::name::ExportName;
use crate::second_handle::ReadUnlocked;
use crate::storage_engine::StorageEngine;
use crossbeam_utils::Backoff;
use disk_model::Disk;
use marks::Trust;
use std::sync::{Mutex, MutexGuard, Wait};

/// How often a thread tries to take a lock before it sleeps. After each of the first seven times it executes 1, 2, 4, .. 64 pause
/// instructions; after each later one it lets other threads run.
const MOST_TRIES: u32 = 18;

/// Takes a lock whose critical sections are short. While another thread has it, it tries again for some microseconds before it sleeps,
/// because waking a thread costs more than most of these sections.
pub(crate) fn lock_patiently<'a, R: Wait, T>(rt: &R, mutex: &'a Mutex<T>) -> MutexGuard<'a, T> {
    let backoff = Backoff::new();
    for _ in 0..MOST_TRIES {
        if let Some(guard) = mutex.try_lock() {
            return guard;
        }
        backoff.snooze();
    }
    mutex.lock(rt)
}

impl<B: ExportName, D: Disk, H: ReadUnlocked, T: Trust> Export<B, D, H, T> {
    /// Takes the keeper lock. A thread that gives it back and wants it again at once comes after those that wait for it.
    pub(crate) fn lock_engine<R: Wait>(&self, rt: &R) -> MutexGuard<'_, StorageEngine<B, D>> {
        let turn = self.signals.turn.lock(rt);
        let engine = self.engine.lock(rt);
        drop(turn);
        engine
    }
}
