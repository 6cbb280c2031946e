ghost use Rattle.std.specs.Prelude.{◌≡◌, ◌<◌, ◌≤◌, ◌↔◌, IsTrue, MatchOption};
ghost use Rattle.front_end.specs.Times.{IsLimit};

use crate::limits::{LEAST_FRAMES, LEAST_LOSS_BYTES, MOST_FRAMES, MOST_LOSS_BYTES};
use export_model::Mode;
use std::time::Duration;

/// The most clients that are served at a time.
pub const MOST_WORKERS: u64 = 16;

/// The most requests of one client that are in progress at a time.
pub const MOST_IN_FLIGHT: u64 = 16;

/// What a server does once a call of the device has failed: what was waited for is answered EIO either way.
#[derive(Clone, Copy, PartialEq, Eq)]
pub enum OnFault {
    /// It ends its sessions and itself.
    Exit,
    /// It stays, and answers each request with EIO.
    Stay,
}

/// What a server does if the disk under a file with holes is full.
#[derive(Clone, Copy, PartialEq, Eq)]
pub enum OnFull {
    /// A copy into a hole is tried again until there is space.
    Wait,
    /// It is a fault of the device.
    Stop,
}

/// What becomes of a client while each worker has one.
#[derive(Clone, Copy, PartialEq, Eq)]
pub enum WhenFull {
    /// It waits for a worker.
    Wait,
    /// Its connection is closed at once.
    Refuse,
}

/// How many sessions a server has, and how long it waits in them.
#[derive(Clone, Copy)]
pub struct Limits {
    /// The sessions after which the server ends; 0 for no end.
    pub sessions: u64,
    /// The seconds for which a client may be silent before its handshake is over: at least 1.
    pub handshake_seconds: u64,
    /// The seconds for which it may be silent afterwards; 0 for no end.
    pub idle_seconds: u64,
    /// The seconds after which a TCP client whose host doesn't answer is dropped; 0 for no end.
    pub keepalive_seconds: u64,
    /// The milliseconds after which pending writes are stored, though nobody waits for them; 0 for no end.
    pub flush_millis: u64,
    /// The most bytes of commands that are pending: 2,097,152 to 67,108,864.
    pub loss_bytes: u64,
    /// The milliseconds for which a command may be pending; a write waits while one is pending for longer. 0 for no end.
    pub loss_millis: u64,
    /// The milliseconds that a call of the device may take; a longer one ends the server. 0 for no end.
    pub device_millis: u64,
    /// The milliseconds from one check of the lock to the next, which takes the lock again and syncs the device; 0 for never.
    pub check_millis: u64,
}

impl Limits {
    /// How long a handshake may take.
    pub fn handshake(&self) -> Option<Duration>
        ensures { IsLimit self.now.handshake_seconds 1000000000 result }
    {
        seconds(self.handshake_seconds)
    }

    /// How long a client may say nothing; none for no end.
    pub fn idle(&self) -> Option<Duration>
        ensures { IsLimit self.now.idle_seconds 1000000000 result }
    {
        seconds(self.idle_seconds)
    }

    /// After how long a TCP client whose host doesn't answer is dropped; none for no end.
    pub fn keepalive(&self) -> Option<Duration>
        ensures { IsLimit self.now.keepalive_seconds 1000000000 result }
    {
        seconds(self.keepalive_seconds)
    }

    /// How long what is pending may wait; none for no end.
    pub fn pending(&self) -> Option<Duration>
        ensures { IsLimit self.now.flush_millis 1000000 result }
    {
        millis(self.flush_millis)
    }

    /// How old a pending command may be when a write is accepted; none for no end.
    pub fn loss_age(&self) -> Option<Duration>
        ensures { IsLimit self.now.loss_millis 1000000 result }
    {
        millis(self.loss_millis)
    }

    // Whether the bytes that may be pending are within their bounds.
    fn has_loss_bytes(&self) -> bool
        ensures { IsTrue result ↔ ((2097152 ≤ self.now.loss_bytes) × (self.now.loss_bytes ≤ 67108864)) }
    {
        self.loss_bytes >= LEAST_LOSS_BYTES && self.loss_bytes <= MOST_LOSS_BYTES
    }

    /// How long a call of the device may take; none for no end.
    pub fn device(&self) -> Option<Duration>
        ensures { IsLimit self.now.device_millis 1000000 result }
    {
        millis(self.device_millis)
    }

    /// How long it is from one lock check to the next; none where there is none.
    pub fn check(&self) -> Option<Duration>
        ensures { IsLimit self.now.check_millis 1000000 result }
    {
        millis(self.check_millis)
    }
}

// This many milliseconds; None for 0.
fn millis(count: u64) -> Option<Duration>
    ensures { IsLimit count 1000000 result }
{
    if count == 0 {
        return None;
    }
    Some(Duration::from_millis(count))
}

// This many seconds; None for 0.
fn seconds(count: u64) -> Option<Duration>
    ensures { IsLimit count 1000000000 result }
{
    if count == 0 {
        return None;
    }
    Some(Duration::from_secs(count))
}

/// How an image is served.
#[derive(Clone, Copy)]
pub struct ServeOptions {
    /// Blocks that may be written and not yet copied into the image: 512 to 65,536.
    pub frames: u32,
    /// When a write command is answered.
    pub mode: Mode,
    /// How many clients are served at a time: 1 to 16.
    pub workers: u32,
    /// How many requests of each client may be in progress at a time: 1 to 16. With 1 they are served and answered in their order.
    pub in_flight: u32,
    pub limits: Limits,
    pub on_fault: OnFault,
    pub when_full: WhenFull,
    /// Whether the server ends once its standard input does.
    pub until_eof: bool,
    ghost frames_few: { frames ≤ 65536 },
    ghost some_workers: { 0 < workers },
    ghost workers_few: { workers ≤ 16 },
    ghost some_in_flight: { 0 < in_flight },
    ghost few_in_flight: { in_flight ≤ 16 },
}

impl ServeOptions {
    /// These options; none where the frames aren't 512 to 65,536, the workers or the requests in progress aren't 1 to
    /// 16, no second is left for a handshake, or the bytes that may be pending aren't 2,097,152 to 67,108,864.
    pub fn new(
        frames: u64,
        mode: Mode,
        workers: u64,
        in_flight: u64,
        limits: Limits,
        on_fault: OnFault,
        when_full: WhenFull,
        until_eof: bool,
    ) -> Option<ServeOptions>
        ensures { MatchOption result
            ((512 ≤ frames) × (frames ≤ 65536) × (0 < workers) × (workers ≤ 16) × (0 < in_flight) × (in_flight ≤ 16) × (0 < limits.handshake_seconds)
            × (2097152 ≤ limits.loss_bytes) × (limits.loss_bytes ≤ 67108864) → ⊥)
            (λ options. (512 ≤ frames) × (0 < limits.handshake_seconds) × (2097152 ≤ limits.loss_bytes) × (limits.loss_bytes ≤ 67108864) × (options.frames ≡ frames) × (options.mode ≡ mode) × (options.workers ≡ workers) × (options.in_flight ≡ in_flight)
            × (options.limits ≡ limits) × (options.on_fault ≡ on_fault) × (options.when_full ≡ when_full) × (options.until_eof ≡ until_eof)) }
    {
        if !(LEAST_FRAMES..=MOST_FRAMES).contains(&frames) {
            return None;
        }
        if !(1..=MOST_WORKERS).contains(&workers) || limits.handshake_seconds == 0 {
            return None;
        }
        if !(1..=MOST_IN_FLIGHT).contains(&in_flight) {
            return None;
        }
        if !limits.has_loss_bytes() {
            return None;
        }
        Some(ServeOptions {
            frames: frames as u32,
            mode,
            workers: workers as u32,
            in_flight: in_flight as u32,
            limits,
            on_fault,
            when_full,
            until_eof,
        })
    }
}
