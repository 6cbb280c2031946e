//! Commands that are stored though no request waits for them: at the end of a session, when an operator asks for it, and once they
//! have been pending for a while.
ghost use Rattle.std.specs.Prelude.{◌≡◌, ◌≤◌, IfSome};
ghost use mathlib.Core.List.{IsPrefix};
ghost use Rattle.export.specs.Submits.{IsFlushAnswered};
ghost use Rattle.marks.specs.Known.{known};

use crate::client_pass::ClientPass;
use crate::commit_queue::CommitQueue;
use crate::export::Export;
use crate::flushing::KEPT_SECONDS;
use crate::name::ExportName;
use crate::retired::RetiredPass;
use crate::second_handle::ReadUnlocked;
use crate::sync_points::SyncPoints;
use disk_model::Disk;
use marks::Trust;
use nbd_wire::Answer;
use std::rt::Clock;
use std::sync::{CondvarTimeouts, MutexGuard, Wait};
use std::time::{Duration, Instant};

/// How long a command may be pending though nobody waits for it.
#[derive(Drop)]
pub(crate) struct FlushInterval {
    // None for as long as it likes.
    limit: Option<Duration>,
    // When the flusher first saw what is pending.
    since: Option<Instant>,
    // Whether the flusher waits to be told of the first command that is pending.
    awaits_first: bool,
}

impl FlushInterval {
    pub(crate) fn endless() -> FlushInterval {
        FlushInterval {
            limit: None,
            since: None,
            awaits_first: false,
        }
    }

    /// Whether the flusher waits for a first command. If so, the caller wakes it.
    pub(crate) fn take_awaits_first(&mut self) -> bool {
        let awaits = self.awaits_first;
        self.awaits_first = false;
        awaits
    }

    // How long what is pending may still wait; none where its time is over, or can't be told.
    fn left<R: Clock>(&mut self, rt: &R, limit: Duration) -> Option<Duration> {
        let since = match self.since {
            Some(since) => since,
            None => Instant::now(rt).ok()?,
        };
        self.since = Some(since);
        let left = limit.checked_sub(since.elapsed(rt).ok()?)?;
        if left.is_zero() {
            return None;
        }
        Some(left)
    }
}

impl<B: ExportName, D: Disk, H: ReadUnlocked, T: Trust> Export<B, D, H, T> {
    /// Has the flusher store what has been pending for so long, though nobody waits for it.
    pub fn store_within<R: Wait>(&self, rt: &R, limit: Duration) {
        self.queue.lock(rt).interval().limit = Some(limit);
    }

    /// Asks for what was accepted by now, as a FLUSH does, and waits until that is durable (Done), or never will be (EIO). The contract
    /// covers only what its pass knew before.
    pub fn flush<R: Wait + Clock, G: SyncPoints>(
        &self,
        rt: &R,
        points: &mut G,
        pass: &mut ClientPass<B>,
    ) -> Answer
        ensures flushed { IsFlushAnswered pass.old pass.new result }
        ensures client { pass.new.client ≡ pass.old.client }
    {
        let last = self.board.look_accepted(&mut pass.pass);
        self.wait_for(rt, points, &mut pass.pass, last)
    }

    /// Has all that is accepted by now stored, and waits until it is; the number of the last of it. None if it never will be.
    pub fn store_accepted<R: Wait + Clock, G: SyncPoints>(
        &self,
        rt: &R,
        points: &mut G,
        pass: &mut RetiredPass<B>,
    ) -> Option<u64>
        ensures stored { IfSome result (λ number. (known pass.old ≤ number) × (number ≤ pass.new.durable)) }
        ensures knew { IsPrefix pass.old.history pass.new.history }
        ensures lasts { pass.old.durable ≤ pass.new.durable }
        ensures own { pass.new.own ≡ pass.old.own }
        ensures client { pass.new.client ≡ pass.old.client }
    {
        let accepted = self.board.look_accepted(&mut pass.pass);
        match self.wait_for(rt, points, &mut pass.pass, accepted) {
            Answer::Done => Some(accepted),
            _answer => None,
        }
    }

    // Waits for the flusher's next work, which comes to be where what is pending has waited for long enough.
    pub(crate) fn wait_for_work<R: Wait + Clock>(
        &self,
        rt: &R,
        queue: MutexGuard<'_, CommitQueue<B>>,
    ) {
        let mut queue = queue;
        let is_pending = queue.is_pending();
        let interval = queue.interval();
        let left = match interval.limit {
            None => None,
            Some(_) if !is_pending => {
                interval.since = None;
                interval.awaits_first = true;
                None
            }
            Some(limit) => match interval.left(rt, limit) {
                Some(left) => Some(left),
                None => {
                    interval.since = None;
                    queue.want_pending();
                    return;
                }
            },
        };
        let most = Duration::from_secs(KEPT_SECONDS);
        match left {
            Some(left) => {
                let _woken = self.signals.work.wait_timeout(rt, queue, left.min(most));
            }
            None => {
                let _woken = self.signals.work.wait_timeout(rt, queue, most);
            }
        }
    }
}
