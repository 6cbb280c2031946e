//! How far the opening of an image is, by the calls of its file.

use header_slots::Header;
use image_model::BLOCK_BYTES;
use metrics::OpeningFigures;
use std::sync::atomic::{AtomicBool, Ordering};
use std::sync::{Mutex, Wait};

// Where the first area of the journal begins.
const JOURNAL_FROM: u64 = 8_192;

/// What an opening has scanned of the journal, and what it has copied into the image.
///
/// It scans the areas in use one after another, and skips most of the data of long writes. So its place in each area counts, and not how many
/// bytes it has read. It writes nothing before the scan is over. Each block of the journal is copied once at most, so what was scanned bounds
/// what is copied.
#[derive(Drop)]
pub struct OpeningTally {
    area_bytes: u64,
    in_use_bytes: u64,
    journal_end: u64,
    data_from: u64,
    progress: Mutex<Progress>,
    is_over: AtomicBool,
}

#[derive(Clone, Copy)]
struct Progress {
    // The area that is scanned, how far it is, and how far those before it were.
    area: u64,
    reached: u64,
    before: u64,
    copied: u64,
    // Whether something was written, which ends the scan.
    has_written: bool,
}

impl OpeningTally {
    /// For an image with this header in force. Without a header the opening is refused before it has done anything.
    pub fn new(header: Option<Header>) -> OpeningTally {
        let progress = Mutex::new(Progress {
            area: 0,
            reached: 0,
            before: 0,
            copied: 0,
            has_written: false,
        });
        let Some(header) = header else {
            return OpeningTally {
                area_bytes: 0,
                in_use_bytes: 0,
                journal_end: 0,
                data_from: u64::MAX,
                progress,
                is_over: AtomicBool::new(false),
            };
        };
        let geometry = header.geometry;
        let area_bytes = u64::from(geometry.area_size());
        let in_use = u64::from(header.before_last).saturating_add(1);
        let areas = area_bytes.saturating_mul(u64::from(geometry.areas()));
        let data = geometry.blocks.saturating_mul(BLOCK_BYTES);
        OpeningTally {
            area_bytes,
            in_use_bytes: area_bytes.saturating_mul(in_use),
            journal_end: JOURNAL_FROM.saturating_add(areas),
            data_from: geometry.device_bytes().saturating_sub(data),
            progress,
            is_over: AtomicBool::new(false),
        }
    }

    /// Notes that the opening has ended. Nothing is counted from then on.
    pub fn finish(&self) {
        self.is_over.store(true, Ordering::SeqCst);
    }

    /// Whether the opening has ended.
    pub fn is_over(&self) -> bool {
        self.is_over.load(Ordering::SeqCst)
    }

    /// Notes that bytes of the file were read.
    pub fn note_read<R: Wait>(&self, rt: &R, offset: u64, bytes: usize) {
        if self.is_over() || offset >= self.journal_end {
            return;
        }
        let Some(place) = offset.checked_sub(JOURNAL_FROM) else {
            return;
        };
        let area = place.checked_div(self.area_bytes).unwrap_or(0);
        let from = area.saturating_mul(self.area_bytes);
        let reached = place.saturating_sub(from).saturating_add(bytes as u64);
        let mut progress = self.progress.lock(rt);
        if progress.has_written {
            return;
        }
        if progress.area != area {
            progress.before = progress.before.saturating_add(progress.reached);
            progress.reached = 0;
            progress.area = area;
        }
        progress.reached = progress.reached.max(reached);
    }

    /// Notes that bytes of the file were written.
    pub fn note_write<R: Wait>(&self, rt: &R, offset: u64, bytes: usize) {
        if self.is_over() {
            return;
        }
        let mut progress = self.progress.lock(rt);
        progress.has_written = true;
        if offset >= self.data_from {
            progress.copied = progress.copied.saturating_add(bytes as u64);
        }
    }

    /// What is done, and how much is left at most.
    pub fn figures<R: Wait>(&self, rt: &R) -> OpeningFigures {
        let is_over = self.is_over();
        let progress = *self.progress.lock(rt);
        let scanned = progress.before.saturating_add(progress.reached);
        let unscanned = if is_over || progress.has_written {
            0
        } else {
            self.in_use_bytes.saturating_sub(scanned)
        };
        let uncopied = if is_over {
            0
        } else {
            scanned
                .saturating_add(unscanned)
                .saturating_sub(progress.copied)
        };
        OpeningFigures {
            is_opening: !is_over,
            scanned_bytes: scanned,
            unscanned_bytes: unscanned,
            copied_bytes: progress.copied,
            uncopied_bytes: uncopied,
        }
    }
}
