//! Group commit: how the flusher waits for more requests to share a group.

use std::rt::Clock;
use std::time::{Duration, Instant};

/// Groups aren't gathered where storing one took fewer microseconds.
const LEAST_APPEND: u64 = 100;

/// A group is gathered for a quarter of the time that the last one took to be stored, and for no more milliseconds than these.
const MOST_GATHERED: u64 = 25;

/// The count of threads that wait until a number is durable.
#[derive(Clone, Copy)]
pub(crate) struct Waiters {
    // Those whose number is in a group, and those whose number isn't yet.
    sealed: usize,
    unsealed: usize,
    // How many threads the next group may have: those that waited when the last one was stored.
    expected: usize,
}

impl Waiters {
    pub(crate) fn new() -> Waiters {
        Waiters {
            sealed: 0,
            unsealed: 0,
            expected: 0,
        }
    }

    /// Somebody begins to wait.
    pub(crate) fn join(&mut self, is_sealed: bool) {
        let part = if is_sealed {
            &mut self.sealed
        } else {
            &mut self.unsealed
        };
        *part = part.saturating_add(1);
    }

    /// All that is pending went into a group.
    pub(crate) fn seal(&mut self) {
        self.sealed = self.sealed.saturating_add(self.unsealed);
        self.unsealed = 0;
    }

    /// The group came back.
    pub(crate) fn put_back(&mut self) {
        self.unsealed = self.unsealed.saturating_add(self.sealed);
        self.sealed = 0;
    }

    /// The group was stored: the threads that waited for it go on, and may soon wait for the next one, as the others already do.
    pub(crate) fn publish(&mut self) {
        self.expected = self.sealed.saturating_add(self.unsealed);
        self.sealed = 0;
    }

    /// Whether one thread waits for the next group, and no other one is expected to.
    pub(crate) fn is_alone(&self) -> bool {
        self.unsealed == 1 && self.expected <= 1
    }

    /// Whether a thread waits, or one waited for the last group.
    pub(crate) fn waited_lately(&self) -> bool {
        self.sealed > 0 || self.unsealed > 0 || self.expected > 0
    }

    /// Whether fewer wait for the next group than are expected.
    pub(crate) fn expects_more(&self) -> bool {
        self.unsealed < self.expected
    }
}

/// How long the last group took to be stored, and since when the next one is gathered.
#[derive(Clone, Copy)]
pub(crate) struct Pace {
    last: Duration,
    since: Option<Instant>,
}

impl Pace {
    pub(crate) fn new() -> Pace {
        Pace {
            last: Duration::ZERO,
            since: None,
        }
    }

    /// How much longer the next group is gathered; none where it isn't any more, or the clock can't be read.
    pub(crate) fn left<R: Clock>(&mut self, rt: &R) -> Option<Duration> {
        if self.last < Duration::from_micros(LEAST_APPEND) {
            return None;
        }
        let since = match self.since {
            Some(since) => since,
            None => Instant::now(rt).ok()?,
        };
        self.since = Some(since);
        let limit = (self.last / 4).min(Duration::from_millis(MOST_GATHERED));
        let left = limit.saturating_sub(since.elapsed(rt).ok()?);
        if left.is_zero() { None } else { Some(left) }
    }

    /// The group is gathered.
    pub(crate) fn seal(&mut self) {
        self.since = None;
    }

    /// The group was stored, since this moment.
    pub(crate) fn note<R: Clock>(&mut self, rt: &R, begin: Option<Instant>) {
        self.last = match begin {
            Some(begin) => begin.elapsed(rt).unwrap_or(Duration::ZERO),
            None => Duration::ZERO,
        };
    }
}
