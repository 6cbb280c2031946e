use crate::export::Export;
use crate::name::ExportName;
use crate::second_handle::ReadUnlocked;
use crate::shortage::Retries;
use crate::storage_engine::{CopyStep, StepLength, StorageEngine};
use crate::sync_points::{Point, SyncPoints};
use checkpoint::KeeperFault;
use disk_model::Disk;
use marks::Trust;
use std::rt::Clock;
use std::sync::Wait;
use std::thread;
use std::time::{Duration, Instant};

// What came of a hold of the keeper's lock.
#[derive(Clone, Copy)]
enum StepOutcome {
    // Another area was taken into use.
    Rotated,
    // A part of the first area was copied.
    Copied(CopyStep),
    // There is nothing to copy.
    Idle,
    // Memory was refused, and the step is taken again later.
    NoMemory,
    // No further step can be taken, of this checkpoint or of another.
    Ended,
}

/// The time since then, where it can be told.
pub(crate) fn time_since<R: Clock>(rt: &R, began: Option<Instant>) -> Option<Duration> {
    began?.elapsed(rt).ok()
}

// How far a checkpoint is.
#[derive(Drop)]
struct CopyState {
    // Whether one has begun.
    is_copying: bool,
    // Since when the first area is copied, and how many of its blocks are.
    began: Option<Instant>,
    blocks: u64,
    // How its next step was refused memory.
    retries: Retries,
}

impl CopyState {
    // The copy of an area begins.
    fn begin<R: Clock>(&mut self, rt: &R) {
        self.is_copying = true;
        self.began = Instant::now(rt).ok();
        self.blocks = 0;
    }

    // The first area is copied, and this many still wait.
    fn end_area<R: Clock, G: SyncPoints>(&mut self, rt: &R, points: &mut G, waiting: u8) {
        if let Some(took) = time_since(rt, self.began) {
            points.reach(Point::Copied {
                blocks: self.blocks,
                took,
            });
        }
        if waiting == 0 {
            self.is_copying = false;
        } else {
            self.begin(rt);
        }
    }
}

impl<B: ExportName, D: Disk, H: ReadUnlocked, T: Trust> Export<B, D, H, T> {
    /// Copies the journal into the image, step by step, before it is full or no frame is left. Each step is one critical section of
    /// the keeper lock, and groups may be stored between two steps.
    ///
    /// It ends after the flusher, once what waits to be copied is copied, so it is started after a flusher was. It also ends when a
    /// call of the device has failed, and when no greater generation of a header is left; then writes that need space block forever.
    /// If memory runs out it tries again, as the flusher does.
    pub fn checkpointer<R: Wait + Clock, G: SyncPoints>(&self, rt: &R, points: &mut G) {
        let mut state = CopyState {
            is_copying: false,
            began: None,
            blocks: 0,
            retries: Retries::new(),
        };
        for _ in rt.forever() {
            let goes_on = if state.is_copying {
                self.checkpoint(rt, points, &mut state)
            } else {
                self.wait_for_checkpoint(rt, &mut state)
            };
            if !goes_on {
                return;
            }
        }
    }

    // Begins a checkpoint where one is due, else waits for a while; not where there will be none.
    fn wait_for_checkpoint<R: Wait + Clock>(&self, rt: &R, state: &mut CopyState) -> bool {
        let queue = self.queue.lock(rt);
        if queue.is_stopped() || queue.flusher_ended() {
            return false;
        }
        if queue.is_checkpoint_due() {
            drop(queue);
            state.begin(rt);
        } else {
            let _woken = self.signals.checkpoint_due.wait(rt, queue);
        }
        true
    }

    // Takes a step of a checkpoint, which takes an area into use, and copies the one before it and those that come to wait
    // meanwhile; whether there may be another step or checkpoint.
    fn checkpoint<R: Wait + Clock, G: SyncPoints>(
        &self,
        rt: &R,
        points: &mut G,
        state: &mut CopyState,
    ) -> bool {
        points.reach(Point::Step);
        let mut engine = self.lock_engine(rt);
        let queue = self.queue.lock(rt);
        let is_full = queue.is_full();
        let (length, yields) = queue.copy_pace(is_full || engine.is_short());
        drop(queue);
        let step_outcome = self.take_step(rt, &mut engine, is_full, length);
        drop(engine);
        if yields {
            // This thread seldom waits, so those that wake on its processor could wait for milliseconds.
            thread::yield_now();
        }
        if !matches!(step_outcome, StepOutcome::NoMemory) && !state.retries.has_no_refusal() {
            state.retries = Retries::new();
            self.queue.lock(rt).set_cannot_copy(false);
        }
        match step_outcome {
            StepOutcome::Rotated => {}
            StepOutcome::Copied(CopyStep::Blocks(more)) => {
                state.blocks = state.blocks.saturating_add(more);
            }
            StepOutcome::Copied(CopyStep::AreaEnded { waiting }) => state.end_area(
                rt, points, waiting,
            ),
            StepOutcome::Idle => state.is_copying = false,
            StepOutcome::NoMemory => return self.wait_to_copy(rt, points, &mut state.retries),
            StepOutcome::Ended => return false,
        }
        true
    }

    // Waits for memory for the next step; whether that step is to be taken. After a long wait no request waits for room any more.
    fn wait_to_copy<R: Wait + Clock, G: SyncPoints>(
        &self,
        rt: &R,
        points: &mut G,
        retries: &mut Retries,
    ) -> bool {
        if retries.has_no_refusal() {
            points.reach(Point::NoMemory);
        }
        retries.wait(rt);
        if !retries.is_long() {
            return true;
        }
        let mut queue = self.queue.lock(rt);
        queue.set_cannot_copy(true);
        self.signals.progress.notify_all();
        !(queue.flusher_ended() && (queue.is_stopped() || retries.is_hopeless()))
    }

    // Takes the first step that there is, under the keeper's lock. Another area is taken into use where none waits to be copied, and
    // where the last one is nearly full and one is free: no write waits for a copy then. Otherwise the first that waits is copied.
    fn take_step<R: Wait>(
        &self,
        rt: &R,
        engine: &mut StorageEngine<B, D>,
        is_full: bool,
        length: StepLength,
    ) -> StepOutcome {
        let is_first = engine.waiting() == 0;
        if is_first || is_full || engine.is_nearly_full() {
            match engine.rotate() {
                Ok(()) => {
                    // What didn't fit the last one is stored at once.
                    let mut queue = self.queue.lock(rt);
                    queue.note_next_area();
                    queue.note_journal(engine.journal_use());
                    drop(queue);
                    self.signals.work.notify_one();
                    return StepOutcome::Rotated;
                }
                // All are in use, or there is no memory for it now: the copy goes on, which frees some.
                Err(KeeperFault::NotNow | KeeperFault::NoMemory) if !is_first => {}
                Err(KeeperFault::NotNow) => {
                    // Nothing was stored since the last one.
                    self.queue.lock(rt).clear_checkpoint_request();
                    self.signals.progress.notify_all();
                    return StepOutcome::Idle;
                }
                Err(fault) => return self.refused(rt, fault),
            }
        }
        self.copy_on(rt, engine, length)
    }

    // Copies a part of the first area. When its checkpoint ends, its blocks are made clean in the same critical section: the order knows of a base
    // before there is another one.
    fn copy_on<R: Wait>(
        &self,
        rt: &R,
        engine: &mut StorageEngine<B, D>,
        length: StepLength,
    ) -> StepOutcome {
        let step = match engine.copy_on(&self.board, length) {
            Ok(step) => step,
            Err(fault) => return self.refused(rt, fault),
        };
        if let CopyStep::AreaEnded { waiting: _ } = step {
            let mut queue = self.queue.lock(rt);
            queue.clean(&self.board, &mut engine.shared);
            queue.note_journal(engine.journal_use());
            drop(queue);
            self.signals.progress.notify_all();
            self.signals.notify(true, true);
        }
        StepOutcome::Copied(step)
    }

    // What comes of a step that was refused.
    fn refused<R: Wait>(&self, rt: &R, fault: KeeperFault) -> StepOutcome {
        match fault {
            KeeperFault::NoMemory => StepOutcome::NoMemory,
            KeeperFault::NumbersFull => StepOutcome::Ended,
            _ => {
                self.fail(rt);
                StepOutcome::Ended
            }
        }
    }
}
