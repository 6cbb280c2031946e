//! The figures of an export while it works.
ghost use Rattle.std.specs.Prelude.{◌≡◌, ◌≤◌};
ghost use mathlib.Core.List.{IsPrefix};

use crate::export::Export;
use crate::name::ExportName;
use crate::retired::LastPass;
use crate::second_handle::ReadUnlocked;
use crate::storage_engine::JournalUse;
use disk_model::Disk;
use marks::Trust;
use std::rt::Clock;
use std::sync::Wait;
use std::time::{Duration, Instant};

/// The figures of an export at one moment.
#[derive(Clone, Copy)]
pub struct ExportFigures {
    /// The number of the last command that the image holds without the journal.
    pub base: u64,
    /// The number of the last command that was accepted.
    pub accepted: u64,
    /// The number of the last command that is stored with all before it.
    pub durable: u64,
    /// How many commands were accepted and aren't durable: a power cut may take them.
    pub pending_commands: u64,
    /// Their bytes in the journal.
    pub pending_bytes: u64,
    /// The oldest of them is at most this old; zero where none is pending.
    pub pending_age: Duration,
    /// Frames with blocks that were written and aren't copied into the image.
    pub dirty_frames: u64,
    /// Frames with blocks as the image has them.
    pub clean_frames: u64,
    pub free_frames: u64,
    /// How many areas the journal has.
    pub journal_areas: u64,
    /// Areas with groups that aren't copied into the image.
    pub journal_areas_in_use: u64,
    /// The bytes that can't be used before an area was copied, and those that can.
    pub journal_used_bytes: u64,
    pub journal_free_bytes: u64,
}

/// What the order's lock holds of these figures.
#[derive(Clone, Copy)]
pub(crate) struct QueueFigures {
    pub base: u64,
    pub pending_commands: u64,
    pub pending_bytes: u64,
    pub oldest: Option<Instant>,
    pub dirty_frames: u64,
    pub clean_frames: u64,
    pub free_frames: u64,
    pub journal: JournalUse,
}

/// What the threads of an export note for its figures alone.
#[derive(Clone, Copy)]
pub(crate) struct Notes {
    journal: JournalUse,
    // No pending command was accepted before this moment.
    oldest: Option<Instant>,
    // When the last group was sealed: what is pending once that is stored was accepted later.
    sealed: Option<Instant>,
}

impl Notes {
    pub(crate) fn new(journal: JournalUse) -> Notes {
        Notes {
            journal,
            oldest: None,
            sealed: None,
        }
    }

    pub(crate) fn note_pending(&mut self, began: Instant) {
        if self.oldest.is_none() {
            self.oldest = Some(began);
        }
    }

    pub(crate) fn seal(&mut self, now: Option<Instant>) {
        self.sealed = now;
    }

    pub(crate) fn publish(&mut self, is_pending: bool) {
        self.oldest = if is_pending { self.sealed } else { None };
    }

    pub(crate) fn note_journal(&mut self, journal: JournalUse) {
        self.journal = journal;
    }

    pub(crate) fn oldest(&self) -> Option<Instant> {
        self.oldest
    }

    pub(crate) fn journal(&self) -> JournalUse {
        self.journal
    }
}

impl<B: ExportName, D: Disk, H: ReadUnlocked, T: Trust> Export<B, D, H, T> {
    /// The figures of this moment. It takes the order's lock for as long as it copies them, and waits for no call of the device.
    ///
    /// The accepted and the durable number are those of the board, as a FLUSH sees them, so the pass learns that they were reached.
    pub fn figures<R: Wait + Clock>(&self, rt: &R, last: &mut LastPass<B>) -> ExportFigures
        ensures accepted { result.accepted ≡ last.new.pass.accepted }
        ensures durable { result.durable ≡ last.new.pass.durable }
        ensures later { last.old.pass.durable ≤ last.new.pass.durable }
        ensures knew { IsPrefix last.old.pass.history last.new.pass.history }
        ensures own { last.new.pass.own ≡ last.old.pass.own }
        ensures roster { last.new.roster ≡ last.old.roster }
    {
        let told = self.queue.lock(rt).figures();
        let durable = self.board.look_durable(&mut last.pass);
        let accepted = self.board.look_accepted(&mut last.pass);
        let journal = told.journal;
        let waiting = u64::from(journal.waiting);
        let used = waiting
            .saturating_mul(journal.area_bytes)
            .saturating_add(journal.last_used);
        let all = u64::from(journal.areas).saturating_mul(journal.area_bytes);
        ExportFigures {
            base: told.base,
            accepted,
            durable,
            pending_commands: told.pending_commands,
            pending_bytes: told.pending_bytes,
            pending_age: age_of(rt, told.oldest),
            dirty_frames: told.dirty_frames,
            clean_frames: told.clean_frames,
            free_frames: told.free_frames,
            journal_areas: u64::from(journal.areas),
            journal_areas_in_use: waiting + u64::from(journal.last_used > 0),
            journal_used_bytes: used,
            journal_free_bytes: all.saturating_sub(used),
        }
    }

    /// A write command was accepted after this moment, and wasn't waited for.
    pub fn note_pending<R: Wait>(&self, rt: &R, began: Instant) {
        self.queue.lock(rt).note_pending(began);
    }
}

// The time since a moment; none where there was no such moment, or it can't be told.
fn age_of<R: Clock>(rt: &R, since: Option<Instant>) -> Duration {
    match since {
        Some(since) => since.elapsed(rt).unwrap_or(Duration::ZERO),
        None => Duration::ZERO,
    }
}
