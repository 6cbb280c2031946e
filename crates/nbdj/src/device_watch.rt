//! What watches the calls of a device: how long each one takes, and whether the device has failed by another handle than the keeper's.

use std::io::{self, ErrorKind};
use std::rt::Clock;
use std::sync::{Condvar, CondvarTimeouts, Mutex, MutexGuard, Wait};
use std::time::{Duration, Instant};

/// The most calls that go on at a time: one for each of 16 workers, the flusher, the checkpointer, the guard and the opening, and some
/// to spare.
const MOST_CALLS: usize = 32;

/// The seconds for which the program waits at its end until it is told, and the connections are cut.
const LAST_WAIT: u64 = 1;

// What is known of the calls.
#[derive(Drop)]
struct Calls {
    // When each call began that goes on.
    began: [Option<Instant>; MOST_CALLS],
    // Whether a call has failed or has taken too long: no other one is made.
    has_failed: bool,
    // Whether one has taken too long.
    is_late: bool,
    // Whether the server ends.
    is_over: bool,
    // How many still do something before the program may end.
    last_tasks: u32,
    // The exit status, once there is one.
    status: Option<u8>,
}

impl Calls {
    // How long the oldest call may go on; all of the limit where there is none.
    fn time_left<R: Clock>(&self, rt: &R, limit: Duration) -> Duration {
        let mut left = limit;
        for began in self.began.iter() {
            if let Some(began) = began {
                let took = began.elapsed(rt).unwrap_or(Duration::ZERO);
                let its = limit.saturating_sub(took);
                if its < left {
                    left = its;
                }
            }
        }
        left
    }

    // A place for a call that begins now.
    fn take_place<R: Clock>(&mut self, rt: &R) -> Option<usize> {
        let place = self.began.iter().position(|began| began.is_none())?;
        let now = Instant::now(rt).ok()?;
        if let Some(began) = self.began.get_mut(place) {
            *began = Some(now);
        }
        Some(place)
    }

    // The call at this place is over; when it began.
    fn give_back(&mut self, place: usize) -> Option<Instant> {
        self.began.get_mut(place)?.take()
    }
}

/// The calls of a device that go on, and how long each may take.
#[derive(Drop)]
pub struct DeviceWatch {
    limit: Option<Duration>,
    calls: Mutex<Calls>,
    changed: Condvar,
    syncs: Mutex<()>,
}

impl DeviceWatch {
    /// No call goes on; each may take so long, or as long as it likes.
    pub fn new(limit: Option<Duration>) -> DeviceWatch {
        DeviceWatch {
            limit,
            calls: Mutex::new(Calls {
                began: [None; MOST_CALLS],
                has_failed: false,
                is_late: false,
                is_over: false,
                last_tasks: 0,
                status: None,
            }),
            changed: Condvar::new(),
            syncs: Mutex::new(()),
        }
    }

    /// A call begins, at this place. There is none once the device has failed.
    pub fn begin<R: Wait + Clock>(&self, rt: &R) -> io::Result<Option<usize>> {
        let mut calls = self.calls.lock(rt);
        if calls.has_failed {
            return Err(io::Error::from(ErrorKind::TimedOut));
        }
        Ok(calls.take_place(rt))
    }

    /// The call is over. It counts as failed if it has taken too long, or the device has failed meanwhile.
    pub fn end<R: Wait + Clock>(&self, rt: &R, place: Option<usize>) -> io::Result<()> {
        let mut calls = self.calls.lock(rt);
        let began = match place {
            Some(place) => calls.give_back(place),
            None => None,
        };
        if let (Some(began), Some(limit)) = (began, self.limit) {
            if began.elapsed(rt).unwrap_or(Duration::ZERO) > limit {
                calls.is_late = true;
                calls.has_failed = true;
                self.changed.notify_all();
            }
        }
        if calls.has_failed {
            return Err(io::Error::from(ErrorKind::TimedOut));
        }
        Ok(())
    }

    /// Holds off all other syncs. The system tells of a write that failed once for all handles of a file: if it tells the guard, no
    /// sync of the keeper may succeed before the device has failed.
    pub fn lock_syncs<R: Wait>(&self, rt: &R) -> MutexGuard<'_, ()> {
        self.syncs.lock(rt)
    }

    /// The device has failed: no other call is made.
    pub fn fail<R: Wait>(&self, rt: &R) {
        self.calls.lock(rt).has_failed = true;
    }

    /// Waits for so long; whether nothing came before: neither the end of the server nor a call that took too long.
    pub fn rest<R: Wait + Clock>(&self, rt: &R, time: Duration) -> bool {
        let goes_on = |calls: &mut Calls| !calls.is_over && !calls.is_late;
        let calls = self.calls.lock(rt);
        let (calls, _) = self.changed.wait_timeout_while(rt, calls, time, goes_on);
        !calls.is_over && !calls.is_late
    }

    /// Waits until the server ends or a call has taken too long; whether one has.
    pub fn is_late_before_end<R: Wait>(&self, rt: &R) -> bool {
        let goes_on = |calls: &mut Calls| !calls.is_over && !calls.is_late;
        let calls = self.changed.wait_while(rt, self.calls.lock(rt), goes_on);
        calls.is_late
    }

    /// The server ends.
    pub fn end_guards<R: Wait>(&self, rt: &R) {
        self.calls.lock(rt).is_over = true;
        self.changed.notify_all();
    }

    /// Something is to be done before the program ends, if a call takes too long.
    pub fn add_task<R: Wait>(&self, rt: &R) {
        let mut calls = self.calls.lock(rt);
        calls.last_tasks = calls.last_tasks.saturating_add(1);
    }

    /// It is done.
    pub fn finish_task<R: Wait>(&self, rt: &R) {
        let mut calls = self.calls.lock(rt);
        calls.last_tasks = calls.last_tasks.saturating_sub(1);
        self.changed.notify_all();
    }

    /// The program ends with this status.
    pub fn finish<R: Wait>(&self, rt: &R, status: u8) {
        self.calls.lock(rt).status = Some(status);
        self.changed.notify_all();
    }

    /// Waits for the status with which the program ends; None once a call has taken too long.
    pub fn wait<R: Wait + Clock>(&self, rt: &R) -> Option<u8> {
        let mut calls = self.calls.lock(rt);
        for _ in rt.forever() {
            if calls.status.is_some() || calls.is_late {
                break;
            }
            calls = match self.limit {
                None => self.changed.wait(rt, calls),
                Some(limit) => {
                    let left = calls.time_left(rt, limit);
                    if left.is_zero() {
                        calls.is_late = true;
                        calls.has_failed = true;
                        self.changed.notify_all();
                        break;
                    }
                    self.changed.wait_timeout(rt, calls, left).0
                }
            };
        }
        calls.status
    }

    /// Waits for a second at most until all is done that is to be done before the program ends.
    pub fn wait_for_tasks<R: Wait + Clock>(&self, rt: &R) {
        let has_tasks = |calls: &mut Calls| calls.last_tasks > 0;
        let calls = self.calls.lock(rt);
        let _done = self
            .changed
            .wait_timeout_while(rt, calls, Duration::from_secs(LAST_WAIT), has_tasks);
    }
}
