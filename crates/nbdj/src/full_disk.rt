//! Writes of the device for which its disk has no space, and which are tried again until there is some.

use crate::server_log::{Seconds, ServerLog};
use std::rt::Clock;
use std::sync::Wait;
use std::thread;
use std::time::{Duration, Instant};

// The milliseconds from the first try to the second. Each pause is twice the one before it, up to the longest.
const FIRST_PAUSE: u64 = 10;

const LONGEST_PAUSE: u64 = 1_000;

// The seconds from one line about a wait to the next.
const LINE_GAP: u64 = 60;

/// A wait of one write.
#[derive(Drop)]
pub struct SpaceWait {
    began: Option<Instant>,
    told: Option<Instant>,
    // The milliseconds of the next pause; 0 before the first.
    pause: u64,
}

impl SpaceWait {
    /// Nothing is waited for yet.
    pub fn new() -> SpaceWait {
        SpaceWait {
            began: None,
            told: None,
            pause: 0,
        }
    }

    /// Waits a little. It is told at the first time, and then once a minute.
    pub fn wait<R: Wait + Clock>(&mut self, log: &ServerLog<'_, R>) {
        let rt = log.threads();
        let path = log.path();
        if self.pause == 0 {
            self.began = Instant::now(rt).ok();
            self.told = self.began;
            log.begin_space_wait();
            log.say(format_args!(
                "{path}: no space left on device: what is copied waits until some is freed; nothing durable is lost"
            ));
        } else if time_since(rt, self.told) >= Duration::from_secs(LINE_GAP) {
            self.told = Instant::now(rt).ok();
            let waited = Seconds(time_since(rt, self.began));
            log.say(format_args!("{path}: no space left on device, for {waited} by now"));
        }
        self.pause = self
            .pause
            .saturating_mul(2)
            .clamp(FIRST_PAUSE, LONGEST_PAUSE);
        thread::sleep(rt, Duration::from_millis(self.pause));
    }

    /// The write is over; tells so if it has waited.
    pub fn finish<R: Wait + Clock>(&self, log: &ServerLog<'_, R>) {
        if self.pause == 0 {
            return;
        }
        let waited = time_since(log.threads(), self.began);
        log.end_space_wait(waited);
        let path = log.path();
        log.say(format_args!("{path}: goes on after {} without space", Seconds(waited)));
    }
}

// The time since a moment; none where there is none.
fn time_since<R: Clock>(rt: &R, moment: Option<Instant>) -> Duration {
    match moment {
        Some(moment) => moment.elapsed(rt).unwrap_or(Duration::ZERO),
        None => Duration::ZERO,
    }
}
