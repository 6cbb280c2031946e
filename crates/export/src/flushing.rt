use crate::checkpointing::time_since;
use crate::commit_queue::CommitQueue;
use crate::export::Export;
use crate::gathering::Pace;
use crate::name::ExportName;
use crate::second_handle::ReadUnlocked;
use crate::shortage::Retries;
use crate::storage_engine::{StorageEngine, StoredGroup};
use crate::sync_points::{Point, SyncPoints};
use disk_model::Disk;
use marks::Trust;
use shared_store::{SealedGroup, Unstored};
use std::rt::Clock;
use std::sync::{MutexGuard, Wait};
use std::time::{Duration, Instant};

/// After how many seconds the memory that is kept for further requests is freed.
pub(crate) const KEPT_SECONDS: u64 = 10;

// What came of a step of the flusher.
enum FlusherStep<B: ExportName> {
    // A group was stored, is pending again, or a call of the device failed.
    Done,
    // There was nothing to store for a while.
    Waited,
    // Memory was refused. A group that was sealed stays in hand.
    NoMemory(Option<SealedGroup<B>>),
    // There will be no other group.
    Ended,
}

impl<B: ExportName, D: Disk, H: ReadUnlocked, T: Trust> Export<B, D, H, T> {
    /// Stores a group of commands when a request waits for one, when much is pending, when a command had no room,
    /// when one was pending for as long as `store_within` says, and once all passes have left. It ends when all have left and
    /// nothing is pending, or when a call of the device has failed.
    ///
    /// If memory runs out it tries again, with longer and longer waits of up to a second. After one second of that, requests that
    /// wait for room get ENOMEM and those that wait to be stored get EIO, until a step succeeds. After ten seconds, if all passes
    /// have left, it ends, and the pending commands are lost.
    ///
    /// A thread that waits alone stores the next group itself, if nothing else calls the flusher. If storing a group takes long and
    /// more requests are likely to wait for the same one, it is sealed a little later.
    ///
    /// Every ten seconds it frees the buffers that are kept for later requests.
    pub fn flusher<R: Wait + Clock, G: SyncPoints>(&self, rt: &R, points: &mut G) {
        self.store_groups(rt, points);
        self.queue.lock(rt).end();
        self.signals.checkpoint_due.notify_all();
    }

    // Stores one group after another, until there will be no other.
    fn store_groups<R: Wait + Clock, G: SyncPoints>(&self, rt: &R, points: &mut G) {
        let mut pace = Pace::new();
        let mut retries = Retries::new();
        let mut in_hand = None;
        let mut freed = Instant::now(rt).ok();
        for _ in rt.forever() {
            self.free_kept(rt, &mut freed);
            let step = match in_hand {
                Some(group) => {
                    let engine = self.lock_engine(rt);
                    self.store_next(rt, points, &mut pace, engine, group)
                }
                None => self.next_group(rt, points, &mut pace),
            };
            let Some(next) = self.after_step(rt, points, &mut retries, step) else {
                return;
            };
            in_hand = next;
        }
        unreachable!()
    }

    // Frees the memory that is kept for further requests, if the last time was long ago.
    fn free_kept<R: Wait + Clock>(&self, rt: &R, freed: &mut Option<Instant>) {
        match time_since(rt, *freed) {
            Some(past) if past >= Duration::from_secs(KEPT_SECONDS) => {
                *freed = Instant::now(rt).ok();
                let kept = self.buffers.lock(rt).take_all();
                kept.free();
                self.lock_engine(rt).free_memory();
            }
            _ => {}
        }
    }

    // The group that is in hand after a step; None where there will be no other step.
    fn after_step<R: Wait + Clock, G: SyncPoints>(
        &self,
        rt: &R,
        points: &mut G,
        retries: &mut Retries,
        step: FlusherStep<B>,
    ) -> Option<Option<SealedGroup<B>>> {
        match step {
            FlusherStep::Waited => Some(None),
            FlusherStep::Ended => None,
            FlusherStep::Done => {
                if !retries.has_no_refusal() {
                    *retries = Retries::new();
                    self.queue.lock(rt).set_cannot_store(false);
                }
                Some(None)
            }
            FlusherStep::NoMemory(back) => {
                if retries.has_no_refusal() {
                    points.reach(Point::NoMemory);
                }
                retries.wait(rt);
                if retries.is_long() && self.gives_up(rt, retries) {
                    if let Some(group) = back {
                        group.discard();
                    }
                    return None;
                }
                Some(back)
            }
        }
    }

    // No request waits any more for what can't be stored; whether the flusher doesn't either.
    fn gives_up<R: Wait>(&self, rt: &R, retries: &Retries) -> bool {
        let mut queue = self.queue.lock(rt);
        queue.set_cannot_store(true);
        self.signals.progress.notify_all();
        queue.is_stopped() || (queue.have_all_left() && retries.is_hopeless())
    }

    // Stores the next group if one is due; otherwise it waits for a while.
    fn next_group<R: Wait + Clock, G: SyncPoints>(
        &self,
        rt: &R,
        points: &mut G,
        pace: &mut Pace,
    ) -> FlusherStep<B> {
        let mut queue = self.queue.lock(rt);
        if queue.is_stopped() || queue.is_done() {
            return FlusherStep::Ended;
        }
        if !queue.needs_flusher() {
            self.wait_for_work(rt, queue);
            return FlusherStep::Waited;
        }
        if let Some(left) = time_to_gather(rt, &*queue, pace) {
            let _woken = self.signals.work.wait_timeout(rt, queue, left);
            return FlusherStep::Waited;
        }
        drop(queue);
        self.seal_and_store(rt, points, pace)
    }

    // Seals the next group and stores it, if one is still due. It is sealed under the keeper lock, so it also has what was accepted while
    // this thread waited for that lock.
    fn seal_and_store<R: Wait + Clock, G: SyncPoints>(
        &self,
        rt: &R,
        points: &mut G,
        pace: &mut Pace,
    ) -> FlusherStep<B> {
        let engine = self.lock_engine(rt);
        let mut queue = self.queue.lock(rt);
        if queue.is_stopped() || !queue.needs_flusher() {
            return FlusherStep::Waited;
        }
        let sealed = queue.seal(&self.board, Instant::now(rt).ok());
        drop(queue);
        match sealed {
            Ok(Some(group)) => {
                pace.seal();
                self.store_next(rt, points, pace, engine, group)
            }
            Ok(None) | Err(_) => FlusherStep::NoMemory(None),
        }
    }

    // Stores a group that the flusher has sealed.
    fn store_next<R: Wait + Clock, G: SyncPoints>(
        &self,
        rt: &R,
        points: &mut G,
        pace: &mut Pace,
        engine: MutexGuard<'_, StorageEngine<B, D>>,
        group: SealedGroup<B>,
    ) -> FlusherStep<B> {
        let begin = Instant::now(rt).ok();
        match self.store_group(rt, points, engine, group) {
            Ok(()) => {
                pace.note(rt, begin);
                FlusherStep::Done
            }
            Err(group) => FlusherStep::NoMemory(Some(group)),
        }
    }

    /// Seals the next group if the waiting thread that asks is to store it. Otherwise None, and the flusher is called unless a group is
    /// being stored.
    pub(crate) fn seal_for_waiter<R: Wait + Clock>(
        &self,
        rt: &R,
        queue: &mut CommitQueue<B>,
    ) -> Option<SealedGroup<B>> {
        if queue.is_storing() {
            return None;
        }
        if queue.may_waiter_store() {
            match queue.seal(&self.board, Instant::now(rt).ok()) {
                Ok(Some(group)) => return Some(group),
                Ok(None) | Err(_) => {}
            }
        }
        queue.call_flusher();
        self.signals.work.notify_one();
        None
    }

    /// Stores a group that a waiting thread has sealed. If memory is refused the flusher tries again.
    pub(crate) fn store_for_waiter<R: Wait + Clock, G: SyncPoints>(
        &self,
        rt: &R,
        points: &mut G,
        group: SealedGroup<B>,
    ) {
        let engine = self.lock_engine(rt);
        match self.store_group(rt, points, engine, group) {
            Ok(()) => {}
            Err(group) => {
                self.queue.lock(rt).put_back(&self.board, group);
                self.signals.work.notify_one();
            }
        }
    }

    // Stores a group under the keeper lock, makes it pending again if the area is full, or fails. It comes back if memory is refused.
    // Those who wait are told once the lock is free.
    fn store_group<R: Wait + Clock, G: SyncPoints>(
        &self,
        rt: &R,
        points: &mut G,
        engine: MutexGuard<'_, StorageEngine<B, D>>,
        group: SealedGroup<B>,
    ) -> Result<(), SealedGroup<B>> {
        let mut engine = engine;
        let begin = Instant::now(rt).ok();
        points.reach(Point::Append);
        match engine.append(&self.board, group) {
            Ok(stored) => {
                tell_stored(points, stored, time_since(rt, begin));
                let (is_due, wanted) = self.publish(rt, &mut engine);
                let commands = engine.take_stored();
                drop(engine);
                self.signals.progress.notify_all();
                self.signals.notify(is_due, wanted);
                self.buffers.lock(rt).put_commands(commands);
                Ok(())
            }
            Err(Unstored::NoMemory(group)) => Err(group),
            Err(Unstored::AreaFull(group)) => {
                // It is pending again, and is stored once another area is in use.
                self.queue.lock(rt).put_back_as_full(&self.board, group);
                self.signals.notify(false, true);
                Ok(())
            }
            Err(Unstored::Failed) => {
                self.fail(rt);
                Ok(())
            }
        }
    }

    // Makes durable what is stored; whether the flusher and the checkpointer have work then.
    fn publish<R: Wait>(&self, rt: &R, engine: &mut StorageEngine<B, D>) -> (bool, bool) {
        let mut queue = self.queue.lock(rt);
        let wanted = queue.publish(&self.board, engine);
        (queue.needs_flusher(), wanted)
    }

    /// A call of the device has failed, by whichever handle: requests are refused from now on.
    pub fn fail<R: Wait>(&self, rt: &R) {
        self.queue.lock(rt).stop();
        self.signals.notify_all();
    }
}

// Tells of a group that was stored, where its time can be told.
fn tell_stored<G: SyncPoints>(points: &mut G, stored: StoredGroup, took: Option<Duration>) {
    if let Some(took) = took {
        points.reach(Point::Stored {
            commands: stored.commands,
            bytes: stored.bytes,
            took,
        });
    }
}

// How long the next group is to be gathered still; none where it is sealed now.
fn time_to_gather<B: ExportName, R: Clock>(
    rt: &R,
    queue: &CommitQueue<B>,
    pace: &mut Pace,
) -> Option<Duration> {
    if !queue.is_worth_gathering() {
        return None;
    }
    pace.left(rt)
}
