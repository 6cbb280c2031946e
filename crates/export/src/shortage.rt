//! What flusher and checkpointer do if memory runs out.

use std::rt::Clock;
use std::thread;
use std::time::Duration;

/// The milliseconds after which a step that was refused memory is tried again; each time after twice as many, up to the most.
const LEAST_WAIT: u64 = 10;

const MOST_WAIT: u64 = 1_000;

/// The milliseconds of waiting for memory after which no request waits for the step any more.
const PATIENCE: u64 = 1_000;

/// The milliseconds of waiting for memory after which a server that ends gives up the step.
const LAST_PATIENCE: u64 = 10_000;

/// For how long a step has been refused memory, again and again.
#[derive(Clone, Copy)]
pub(crate) struct Retries {
    next: u64,
    waited: u64,
}

impl Retries {
    pub(crate) fn new() -> Retries {
        Retries {
            next: LEAST_WAIT,
            waited: 0,
        }
    }

    /// Whether the step hasn't been refused since one was last taken.
    pub(crate) fn has_no_refusal(&self) -> bool {
        self.waited == 0
    }

    /// Whether no request is to wait for the step any more.
    pub(crate) fn is_long(&self) -> bool {
        self.waited >= PATIENCE
    }

    /// Whether a server that ends gives up the step.
    pub(crate) fn is_hopeless(&self) -> bool {
        self.waited >= LAST_PATIENCE
    }

    /// Waits before the step is taken again. No lock is held meanwhile, so others may free memory.
    pub(crate) fn wait<R: Clock>(&mut self, rt: &R) {
        let left = PATIENCE.saturating_sub(self.waited);
        let wait = if left == 0 {
            self.next
        } else {
            self.next.min(left)
        };
        thread::sleep(rt, Duration::from_millis(wait));
        self.next = self.next.saturating_mul(2).min(MOST_WAIT);
        self.waited = self.waited.saturating_add(wait);
    }
}
