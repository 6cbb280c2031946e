//! How far a long work is.

use std::cell::Cell;
use std::fmt::{self, Display, Formatter};
use std::io::IsTerminal;
use std::time::{Duration, Instant};

// Milliseconds from one look of the bar to the next.
const BAR_GAP: u64 = 100;

// Milliseconds from one line to the next.
const LINE_GAP: u64 = 5_000;

// Milliseconds within which a copy or a transfer is short.
const SHORT: u64 = 1_000;

// The characters of the bar.
const WIDTH: u64 = 30;

/// What a work does to the MiB that it is counted in.
#[derive(Clone, Copy)]
pub(crate) enum Work {
    /// It writes them all.
    Fill,
    /// It copies some of them.
    Copy,
    /// It reads them all, and writes those that aren't zero.
    Transfer,
}

/// Tells on standard error how far a long work is: on a terminal by a bar, elsewhere by a line every five seconds.
#[derive(Drop)]
pub(crate) struct Progress {
    rt: HostRuntime,
    work: Work,
    is_terminal: bool,
    // When the work began; None if nothing is told of it.
    start: Option<Instant>,
    // When it was last told how far it is.
    told: Cell<Option<Instant>>,
}

impl Progress {
    /// Of a work that begins now.
    pub(crate) fn new(rt: &HostRuntime, work: Work) -> Progress {
        let start = Instant::now(rt).ok();
        Progress {
            rt: *rt,
            work,
            is_terminal: rt.stderr().is_terminal(),
            start,
            told: Cell::new(start),
        }
    }

    /// Of a work of which nothing is told.
    pub(crate) fn silent(rt: &HostRuntime) -> Progress {
        Progress {
            rt: *rt,
            work: Work::Fill,
            is_terminal: false,
            start: None,
            told: Cell::new(None),
        }
    }

    /// Whether it has been told how far the work is.
    pub(crate) fn is_told(&self) -> bool {
        self.told.get() != self.start
    }

    /// Tells that `done` of `count` MiB are done, if that is due.
    pub(crate) fn show(&self, done: u64, count: u64) {
        let Some(told) = self.told.get() else {
            return;
        };
        if told.elapsed(&self.rt).unwrap_or(Duration::ZERO) >= Duration::from_millis(self.gap()) {
            self.told.set(Instant::now(&self.rt).ok());
            self.tell(done, count);
        }
    }

    // The milliseconds from one look or line to the next. Of a copy or a transfer that takes less than a second no bar is shown.
    fn gap(&self) -> u64 {
        match self.work {
            _ if !self.is_terminal => LINE_GAP,
            Work::Copy | Work::Transfer if !self.is_told() => SHORT,
            _ => BAR_GAP,
        }
    }

    /// Ends the bar: all is done.
    pub(crate) fn finish(&self, count: u64) {
        if self.is_terminal {
            self.tell(count, count);
            let _ = eprintln!(self.rt;);
        }
    }

    fn tell(&self, done: u64, count: u64) {
        let Some(start) = self.start else {
            return;
        };
        let state = State {
            work: self.work,
            done,
            count,
            millis: start
                .elapsed(&self.rt)
                .unwrap_or(Duration::ZERO)
                .as_millis()
                .min(u128::from(u64::MAX)) as u64,
        };
        // If it can't be written, nobody looks.
        let _ = if self.is_terminal {
            eprint!(self.rt; "\rnbdj: [{}] {state} ", Bar { done, count })
        } else {
            eprintln!(self.rt; "nbdj: {state}")
        };
    }
}

// How far a work is, how fast it went, and how long it takes at this rate.
#[derive(Drop)]
struct State {
    work: Work,
    done: u64,
    count: u64,
    millis: u64,
}

impl Display for State {
    fn fmt<W: fmt::Write>(&self, f: &mut Formatter<W>) -> fmt::Result {
        let State {
            work,
            done,
            count,
            millis,
        } = self;
        let rate = done.saturating_mul(1_000).checked_div(*millis).unwrap_or(0);
        match work {
            Work::Fill => write!(f, "{done} of {count} MiB written, {rate} MiB/s")?,
            Work::Copy => write!(f, "{done} of at most {count} MiB copied, {rate} MiB/s")?,
            Work::Transfer => write!(f, "{done} of {count} MiB copied, {rate} MiB/s")?,
        }
        match millis
            .saturating_mul(count.saturating_sub(*done))
            .checked_div(*done)
        {
            Some(left) => match work {
                Work::Fill | Work::Transfer => write!(f, ", {} s left", left.div_ceil(1_000)),
                Work::Copy => write!(f, ", at most {} s left", left.div_ceil(1_000)),
            },
            None => Ok(()),
        }
    }
}

#[derive(Drop)]
struct Bar {
    done: u64,
    count: u64,
}

impl Display for Bar {
    fn fmt<W: fmt::Write>(&self, f: &mut Formatter<W>) -> fmt::Result {
        let full = self
            .done
            .saturating_mul(WIDTH)
            .checked_div(self.count)
            .unwrap_or(WIDTH);
        for place in 0..WIDTH {
            f.write_str(if place < full { "#" } else { "." })?;
        }
        Ok(())
    }
}
