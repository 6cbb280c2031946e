//! Why a write waits before it is accepted, and for how long.

use crate::commit_queue::CommitQueue;
use crate::export::Export;
use crate::name::ExportName;
use crate::second_handle::ReadUnlocked;
use crate::sync_points::{Point, SyncPoints};
use disk_model::Disk;
use marks::Trust;
use std::rt::Clock;
use std::sync::{MutexGuard, Wait};
use std::time::Instant;

/// Why a write waits before it is accepted.
#[derive(Clone, Copy, PartialEq, Eq)]
pub enum WaitReason {
    /// The next group doesn't fit the journal until an area of it is copied.
    Journal,
    /// Too few frames hold no block that is still to be copied.
    Frames,
    /// As many bytes are pending as may be.
    LossBytes,
    /// A command has been pending for longer than it may be.
    LossSeconds,
}

/// Reaches the point after a wait that began then.
pub(crate) fn reach_waited<R: Clock, G: SyncPoints>(
    rt: &R,
    points: &mut G,
    reason: WaitReason,
    began: Option<Instant>,
) {
    if let Some(began) = began {
        if let Ok(took) = began.elapsed(rt) {
            points.reach(Point::Waited { reason, took });
        }
    }
}

impl<B: ExportName, D: Disk, H: ReadUnlocked, T: Trust> Export<B, D, H, T> {
    /// Gives the order's lock back, and waits until something was stored or copied. No lock is held when it reaches the point after that.
    pub(crate) fn wait_for_room<R: Wait + Clock, G: SyncPoints>(
        &self,
        rt: &R,
        points: &mut G,
        queue: MutexGuard<'_, CommitQueue<B>>,
        reason: WaitReason,
    ) {
        let began = Instant::now(rt).ok();
        let woken = self.signals.progress.wait(rt, queue);
        drop(woken);
        reach_waited(rt, points, reason, began);
    }
}
