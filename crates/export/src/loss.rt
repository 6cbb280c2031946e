//! The limit on answered writes that a power cut may take: a write waits while more than that is pending.

use crate::export::Export;
use crate::name::ExportName;
use crate::second_handle::ReadUnlocked;
use crate::sync_points::SyncPoints;
use crate::waits::{WaitReason, reach_waited};
use disk_model::Disk;
use marks::Trust;
use std::rt::Clock;
use std::sync::Wait;
use std::time::{Duration, Instant};

impl<B: ExportName, D: Disk, H: ReadUnlocked, T: Trust> Export<B, D, H, T> {
    /// Has the flusher store what is pending, and waits, while the oldest pending command is older than this. It doesn't wait after a
    /// device fault, or if memory for storing is refused for long. No contract speaks of it: it costs time alone.
    pub fn wait_while_older<R: Wait + Clock, G: SyncPoints>(
        &self,
        rt: &R,
        points: &mut G,
        limit: Duration,
    ) {
        let mut queue = self.queue.lock(rt);
        let mut began = None;
        for _ in rt.forever() {
            if queue.is_stopped() || queue.cannot_store() || !queue.is_older_than(rt, limit) {
                drop(queue);
                reach_waited(rt, points, WaitReason::LossSeconds, began);
                return;
            }
            if began.is_none() {
                began = Instant::now(rt).ok();
            }
            queue.want_pending();
            self.signals.work.notify_one();
            queue = self.signals.progress.wait(rt, queue);
        }
        unreachable!()
    }
}
