//! What `serve` counts for its figures.

use crate::opening_tally::OpeningTally;
use export::{ExportFigures, WaitReason};
use header_slots::Header;
use metrics::{
    Command, Counter, Failure, Figures, FrameFigures, JournalFigures, NumberFigures,
    PendingFigures, RequestFigures, RequestTally, WaitFigures, WorkTally,
};
use nbd_wire::{BLOCK_STATUS, Errno, FLUSH, READ, RequestHead, TRIM, WRITE, WRITE_ZEROES};
use std::alloc::{AllocError, Global};
use std::fmt::Display;
use std::rt::Clock;
use std::sync::atomic::{AtomicU64, Ordering};
use std::sync::{Mutex, Wait};
use std::time::{Duration, Instant};

/// Each client counts in one of these tallies, so that clients seldom wait for one another's counts.
const TALLIES: usize = 16;

/// The counts of a server.
#[derive(Drop)]
pub struct Meter {
    started: Option<Instant>,
    /// How far the opening of the image is.
    pub opening: OpeningTally,
    requests: Vec<RequestTally>,
    /// Requests that were read.
    pub begun: Counter,
    pub came: Counter,
    pub left: Counter,
    pub groups: WorkTally,
    pub syncs: WorkTally,
    pub checkpoints: WorkTally,
    delays: WorkTally,
    journal_waits: WorkTally,
    frame_waits: WorkTally,
    loss_byte_waits: WorkTally,
    loss_second_waits: WorkTally,
    /// Writes of the device that have waited for space on its disk, and how many wait now.
    pub space_waits: WorkTally,
    waiting_for_space: AtomicU64,
    pub shortages: Counter,
    failure: Mutex<Option<Failed>>,
}

// The first call of the device that failed.
#[derive(Drop)]
struct Failed {
    cause: String,
    at: Option<Instant>,
}

/// The microseconds of a time.
pub fn micros_of(time: Duration) -> u64 {
    u64::try_from(time.as_micros()).unwrap_or(u64::MAX)
}

impl Meter {
    /// Nothing is counted yet. The image has this header in force.
    pub fn new<R: Clock>(
        alloc: Global,
        rt: &R,
        header: Option<Header>,
    ) -> Result<Meter, AllocError> {
        let mut requests = Vec::with_capacity(alloc, TALLIES)?;
        for _ in 0..TALLIES {
            requests.push(RequestTally::new(alloc)?)?;
        }
        Ok(Meter {
            started: Instant::now(rt).ok(),
            opening: OpeningTally::new(header),
            requests,
            begun: Counter::new(),
            came: Counter::new(),
            left: Counter::new(),
            groups: WorkTally::new(),
            syncs: WorkTally::new(),
            checkpoints: WorkTally::new(),
            delays: WorkTally::new(),
            journal_waits: WorkTally::new(),
            frame_waits: WorkTally::new(),
            loss_byte_waits: WorkTally::new(),
            loss_second_waits: WorkTally::new(),
            space_waits: WorkTally::new(),
            waiting_for_space: AtomicU64::new(0),
            shortages: Counter::new(),
            failure: Mutex::new(None),
        })
    }

    /// Counts a wait of a write before it was accepted.
    pub fn note_wait(&self, reason: WaitReason, took: Duration) {
        let tally = match reason {
            WaitReason::Journal => &self.journal_waits,
            WaitReason::Frames => &self.frame_waits,
            WaitReason::LossBytes => &self.loss_byte_waits,
            WaitReason::LossSeconds => &self.loss_second_waits,
        };
        tally.note(1, 0, micros_of(took));
    }

    /// A write of the device begins to wait for space on its disk, or has ended such a wait.
    pub fn begin_space_wait(&self) {
        self.waiting_for_space.fetch_add(1, Ordering::Relaxed);
    }

    pub fn end_space_wait(&self, took: Duration) {
        self.waiting_for_space.fetch_sub(1, Ordering::Relaxed);
        self.space_waits.note(1, 0, micros_of(took));
    }

    /// Whether a write of the device waits for space on its disk.
    pub fn waits_for_space(&self) -> bool {
        self.waiting_for_space.load(Ordering::Relaxed) > 0
    }

    /// Notes the first call of the device that failed, and why.
    pub fn note_failure<R: Wait + Clock, T: Display + Drop>(
        &self,
        alloc: Global,
        rt: &R,
        cause: T,
    ) {
        let mut failure = self.failure.lock(rt);
        if failure.is_none() {
            let cause = match format!(in alloc; "{cause}") {
                Ok(cause) => cause,
                Err(_) => String::new(alloc),
            };
            *failure = Some(Failed {
                cause,
                at: Instant::now(rt).ok(),
            });
        }
    }

    /// Why the first call of the device failed, and how long ago; None while none has.
    pub fn failure<R: Wait + Clock>(
        &self,
        alloc: Global,
        rt: &R,
    ) -> Result<Option<(String, u64)>, AllocError> {
        match &*self.failure.lock(rt) {
            Some(failed) => {
                let cause = String::from_str(alloc, failed.cause.as_str())?;
                Ok(Some((cause, micros_since(rt, failed.at))))
            }
            None => Ok(None),
        }
    }

    /// Counts a request of a client that has its answer.
    pub fn note_served(
        &self,
        client: u64,
        head: &RequestHead,
        refused: Option<Errno>,
        took: Duration,
        delay: Option<Duration>,
    ) {
        let place = (client % TALLIES as u64) as usize;
        if let Some(tally) = self.requests.get(place) {
            let bytes = match head.kind {
                FLUSH => 0,
                _ => u64::from(head.length),
            };
            tally.note(
                command_of(head.kind),
                bytes,
                failure_of(refused),
                micros_of(took),
            );
        }
        if let Some(delay) = delay {
            self.delays.note(1, 0, micros_of(delay));
        }
    }

    /// All figures, with those of an export. `failed` is the time since a call of the device has failed, if one has: what is pending then
    /// is older than that.
    pub fn figures<R: Wait + Clock>(
        &self,
        rt: &R,
        export: &ExportFigures,
        failed: Option<u64>,
    ) -> Figures {
        let mut requests = RequestFigures::NONE;
        for tally in self.requests.iter() {
            tally.add_to(&mut requests);
        }
        let came = self.came.get();
        let known_age = micros_of(export.pending_age);
        let age = match failed {
            Some(since) if export.pending_commands > 0 => known_age.max(since),
            _ => known_age,
        };
        let throttle = self.delays.figures();
        Figures {
            has_failed: failed.is_some(),
            waits_for_space: self.waits_for_space(),
            space_waits: self.space_waits.figures(),
            waits: WaitFigures {
                journal: self.journal_waits.figures(),
                frames: self.frame_waits.figures(),
                loss_bytes: self.loss_byte_waits.figures(),
                loss_seconds: self.loss_second_waits.figures(),
                throttle,
            },
            uptime_micros: self.uptime_micros(rt),
            opening: self.opening.figures(rt),
            clients: came.saturating_sub(self.left.get()),
            clients_total: came,
            // (Those that have their answers were counted before.)
            in_progress: self.begun.get().saturating_sub(requests.count()),
            requests,
            pending: PendingFigures {
                commands: export.pending_commands,
                bytes: export.pending_bytes,
                oldest_micros: age,
            },
            groups: self.groups.figures(),
            syncs: self.syncs.figures(),
            journal: JournalFigures {
                areas: export.journal_areas,
                areas_in_use: export.journal_areas_in_use,
                used_bytes: export.journal_used_bytes,
                free_bytes: export.journal_free_bytes,
            },
            frames: FrameFigures {
                dirty: export.dirty_frames,
                clean: export.clean_frames,
                free: export.free_frames,
            },
            checkpoints: self.checkpoints.figures(),
            delays: throttle,
            refused_allocations: self.shortages.get(),
            numbers: NumberFigures {
                base: export.base,
                accepted: export.accepted,
                durable: export.durable,
            },
        }
    }

    /// The time since the start.
    pub fn uptime_micros<R: Clock>(&self, rt: &R) -> u64 {
        micros_since(rt, self.started)
    }
}

// The microseconds since a moment; 0 where there is none.
fn micros_since<R: Clock>(rt: &R, moment: Option<Instant>) -> u64 {
    match moment {
        Some(moment) => micros_of(moment.elapsed(rt).unwrap_or(Duration::ZERO)),
        None => 0,
    }
}

fn command_of(kind: u16) -> Command {
    match kind {
        READ => Command::Read,
        WRITE => Command::Write,
        FLUSH => Command::Flush,
        TRIM => Command::Trim,
        WRITE_ZEROES => Command::WriteZeroes,
        BLOCK_STATUS => Command::BlockStatus,
        _ => Command::Other,
    }
}

fn failure_of(refused: Option<Errno>) -> Option<Failure> {
    Some(match refused? {
        Errno::Io => Failure::Io,
        Errno::NoMemory => Failure::NoMemory,
        Errno::Invalid => Failure::Invalid,
        Errno::NoSpace => Failure::NoSpace,
    })
}
