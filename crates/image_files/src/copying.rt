//! How far an opening is that copies the journal into the image.

use crate::progress::{Progress, Work};
use image_model::{BLOCK_BYTES, Geometry};
use std::cell::Cell;

// The place where the first area begins.
const JOURNAL_FROM: u64 = 8_192;

const MIB: u64 = 1_048_576;

/// Tells how far an opening is, by the reads and writes of its file.
///
/// An opening reads the journal before it copies any block, so what was read of it bounds what is copied. A header ends a checkpoint. The first
/// group that is added to the journal ends the opening, and nothing is told from then on.
#[derive(Drop)]
pub(crate) struct CopyProgress {
    rt: HostRuntime,
    journal_end: u64,
    data_from: u64,
    // The bytes of the journal that were read.
    found: Cell<u64>,
    // The bytes of blocks that were written.
    copied: Cell<u64>,
    is_over: Cell<bool>,
    progress: Cell<Option<Progress>>,
}

impl CopyProgress {
    /// Of the opening of an image of this geometry.
    pub(crate) fn new(rt: &HostRuntime, geometry: &Geometry) -> CopyProgress {
        let data = geometry.blocks.saturating_mul(BLOCK_BYTES);
        let maps = geometry.map_bytes().saturating_mul(2);
        let data_from = geometry.device_bytes().saturating_sub(data);
        CopyProgress {
            rt: *rt,
            journal_end: data_from.saturating_sub(maps),
            data_from,
            found: Cell::new(0),
            copied: Cell::new(0),
            is_over: Cell::new(false),
            progress: Cell::new(None),
        }
    }

    fn is_in_journal(&self, offset: u64) -> bool {
        (JOURNAL_FROM..self.journal_end).contains(&offset)
    }

    /// Whether the blocks of the image stand there.
    pub(crate) fn is_in_data(&self, offset: u64) -> bool {
        offset >= self.data_from
    }

    /// Notes that bytes were read.
    pub(crate) fn note_read(&self, offset: u64, bytes: usize) {
        if self.copied.get() == 0 && self.is_in_journal(offset) {
            self.found
                .set(self.found.get().saturating_add(bytes as u64));
        }
    }

    /// Notes that bytes were written.
    pub(crate) fn note_write(&self, offset: u64, bytes: usize) {
        if self.is_over.get() {
            return;
        }
        if self.is_in_data(offset) {
            self.note_copy(bytes);
        } else if offset < JOURNAL_FROM {
            self.finish();
        } else if self.is_in_journal(offset) && bytes > 1 {
            self.is_over.set(true);
        }
    }

    fn note_copy(&self, bytes: usize) {
        let copied = self.copied.get().saturating_add(bytes as u64);
        self.copied.set(copied);
        let progress = match self.progress.take() {
            Some(progress) => progress,
            None => Progress::new(&self.rt, Work::Copy),
        };
        progress.show(copied / MIB, self.found.get().max(copied).div_ceil(MIB));
        self.progress.set(Some(progress));
    }

    // Ends the bar, if there is one.
    fn finish(&self) {
        if let Some(progress) = self.progress.take() {
            if progress.is_told() {
                progress.finish(self.copied.get().div_ceil(MIB));
            }
        }
    }
}
