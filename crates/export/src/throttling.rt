//! Writers are slowed down where they fill the frames faster than the journal is copied into the image. Without that they would run
//! into the last frame at full speed, and all wait until an area is copied.

use crate::export::Export;
use crate::name::ExportName;
use crate::second_handle::ReadUnlocked;
use disk_model::Disk;
use image_model::BLOCK_BYTES;
use marks::Trust;
use std::rt::Clock;
use std::sync::{CondvarTimeouts, Wait};
use std::time::{Duration, Instant};

/// The microseconds by which a client is slowed down for a write of one block if 15 of 16 frames are dirty. It is nothing up to 14 of 16,
/// and grows without end towards the last frame.
const MICROS: u64 = 300;

/// A write of this many blocks more is slowed down by as much again: blocks side by side are copied together.
const BLOCKS_TOGETHER: u64 = 16;

/// A client waits once the delays of all clients sum up to these microseconds.
const LEAST_WAIT: u64 = 1_000;

/// The most microseconds that a client waits at once.
const MOST_WAIT: u64 = 10_000;

/// The microseconds by which clients are still to be slowed down.
#[derive(Clone, Copy)]
pub(crate) struct Throttle {
    due: u64,
}

impl Throttle {
    pub(crate) fn new() -> Throttle {
        Throttle { due: 0 }
    }

    /// Notes that blocks were written, while this many of the frames are dirty; for how many microseconds their client waits.
    pub(crate) fn note(&mut self, blocks: u64, dirty: u64, frames: u64) -> u64 {
        let above = eighths_above(dirty, frames);
        if above == 0 {
            self.due = 0;
            return 0;
        }
        let left = frames.saturating_sub(above);
        let cost = MICROS
            .saturating_mul((blocks / BLOCKS_TOGETHER).saturating_add(1))
            .saturating_mul(above);
        self.due = self
            .due
            .saturating_add(cost.checked_div(left).unwrap_or(MOST_WAIT));
        if self.due < LEAST_WAIT {
            return 0;
        }
        let wait = self.due.min(MOST_WAIT);
        self.due = 0;
        wait
    }
}

/// By how many frames more than seven eighths of them are dirty, times eight.
pub(crate) fn eighths_above(dirty: u64, frames: u64) -> u64 {
    dirty
        .saturating_mul(8)
        .saturating_sub(frames.saturating_mul(7))
}

impl<B: ExportName, D: Disk, H: ReadUnlocked, T: Trust> Export<B, D, H, T> {
    /// Has a client wait that has written this many bytes, for 10 ms at most, if more than seven eighths of the frames are dirty;
    /// for how long it did, where that can be told. The write was accepted after `began`, where that is known.
    pub fn throttle<R: Wait + Clock>(
        &self,
        rt: &R,
        bytes: u32,
        began: Option<Instant>,
    ) -> Option<Duration> {
        if began.is_none() && !self.signals.slows_writers() {
            return None;
        }
        let blocks = u64::from(bytes).saturating_add(BLOCK_BYTES - 1) / BLOCK_BYTES;
        let mut queue = self.queue.lock(rt);
        if let Some(began) = began {
            queue.note_pending(began);
        }
        let micros = queue.throttle(blocks);
        if micros == 0 {
            return None;
        }
        let start = Instant::now(rt).ok();
        // Each publish or clean ends it early.
        let woken = self
            .signals
            .progress
            .wait_timeout(rt, queue, Duration::from_micros(micros));
        drop(woken);
        start?.elapsed(rt).ok()
    }
}
