//! Two clients of one server: a group of one is held on its way to the device, and the other's WRITE is answered meanwhile.

use crate::client::Client;
use bitflags::Flags;
use checkpoint::Keeper;
use disk_model::SimDisk;
use export::{OpenDevice, Point, SyncPoints};
use export_model::Mode;
use front_end::{Limits, OnFault, Refusal, ServeOptions, WhenFull};
use image_model::Geometry;
use nbd_wire::CommandFlags;
use negotiation::OfferedName;
use server::{Event, Listener, Watch, Watched, serve};
use std::alloc::{AllocError, Global};
use std::io::{self, ErrorKind};
use std::net::{Ipv4Addr, SocketAddr, TcpListener, TcpStream};
use std::os::unix::net::UnixStream;
use std::rt::Clock;
use std::sync::Wait;
use std::sync::atomic::{AtomicBool, AtomicU64, Ordering};
use std::thread::{self, Threads};
use std::time::Duration;

// For this many turns of a millisecond a group is held, and waited for.
const TURNS: u64 = 10_000;

/// What the threads of a server have come to.
#[derive(Drop)]
pub struct Seen {
    /// Whether a group has been held.
    pub is_held: AtomicBool,
    /// Whether a reply was written while it was held.
    pub is_overtaken: AtomicBool,
    /// How many times replies were written.
    pub answers: AtomicU64,
}

/// Holds the first group that is to be stored until a reply was written.
pub struct Gate<'a, R: Clock> {
    pub rt: &'a R,
    pub seen: &'a Seen,
}

impl<'a, R: Clock> Clone for Gate<'a, R> {
    fn clone(&self) -> Result<Gate<'a, R>, AllocError> {
        Ok(*self)
    }
}

impl<'a, R: Clock> Copy for Gate<'a, R> {}

impl<'a, R: Clock> SyncPoints for Gate<'a, R> {
    fn reach(&mut self, at: Point) {
        match at {
            Point::Append => self.hold(),
            Point::Answered => {
                self.seen.answers.fetch_add(1, Ordering::SeqCst);
            }
            _ => {}
        }
    }
}

impl<'a, R: Clock> Watch for Gate<'a, R> {
    fn announce(&self) -> io::Result<()> {
        Ok(())
    }

    fn note(&self, _event: Event<'_>) {}

    fn is_timed(&self) -> bool {
        false
    }

    fn answerers(&self) -> u32 {
        0
    }

    fn answer<W: Watched>(&self, _watched: &W) {}

    fn guards(&self) -> u32 {
        0
    }

    fn guard<W: Watched>(&self, _at: u32, _watched: &W) {}

    fn end_answers(&self) {}
}

impl<'a, R: Clock> Gate<'a, R> {
    fn hold(&self) {
        if self.seen.is_held.load(Ordering::SeqCst) {
            return;
        }
        let before = self.seen.answers.load(Ordering::SeqCst);
        self.seen.is_held.store(true, Ordering::SeqCst);
        for _ in 0..TURNS {
            if self.seen.answers.load(Ordering::SeqCst) != before {
                self.seen.is_overtaken.store(true, Ordering::SeqCst);
                return;
            }
            thread::sleep(self.rt, Duration::from_millis(1));
        }
    }
}

// Waits until a group is held.
fn wait_for(rt: &HostRuntime, flag: &AtomicBool) -> io::Result<()> {
    for _ in 0..TURNS {
        if flag.load(Ordering::SeqCst) {
            return Ok(());
        }
        thread::sleep(rt, Duration::from_millis(1));
    }
    Err(io::Error::from(ErrorKind::TimedOut))
}

// One client's FUA WRITE is held, and another's WRITE is answered meanwhile.
fn write_beside_a_held_one(rt: &HostRuntime, port: u16, seen: &Seen) -> io::Result<()> {
    let mut one = Client::connect(rt, port)?;
    one.send_write(1, 0x41, CommandFlags::FUA.bits())?;
    wait_for(rt, &seen.is_held)?;
    let mut other = Client::connect(rt, port)?;
    other.send_write(2, 0x42, 0)?;
    other.expect_done(2)?;
    one.expect_done(1)?;
    one.disconnect()?;
    other.disconnect()
}

/// A device over holes.
pub fn formatted(alloc: Global) -> Option<SimDisk> {
    let geometry = Geometry::new(64, 2_097_152)?;
    let mut disk = SimDisk::new(alloc, geometry.device_bytes()).ok()?;
    Keeper::format(alloc, &mut disk, geometry).ok()?;
    Some(disk)
}

/// Two workers, until as many sessions have ended.
pub fn options(sessions: u64) -> Option<ServeOptions> {
    let limits = Limits {
        sessions,
        handshake_seconds: 5,
        idle_seconds: 0,
        keepalive_seconds: 0,
        flush_millis: 0,
        loss_bytes: 67_108_864,
        loss_millis: 0,
        device_millis: 0,
        check_millis: 0,
    };
    ServeOptions::new(
        512,
        Mode::Writeback,
        2,
        1,
        limits,
        OnFault::Stay,
        WhenFull::Wait,
        false,
    )
}

// What a run came to: what the clients met, and what the server and its device did.
#[derive(Drop)]
struct Ran {
    clients: io::Result<()>,
    outcome: Result<(), Refusal>,
    disk: SimDisk,
}

// Has the clients served by two workers until two sessions have ended.
fn run<R: Threads + Wait + Clock + Copy + Send + Sync + Drop + 'static>(
    rt: &HostRuntime,
    threads: &R,
    seen: &Seen,
) -> Option<Ran> {
    let alloc = rt.alloc();
    let socket = TcpListener::bind(rt, SocketAddr::from((Ipv4Addr::LOCALHOST, 0))).ok()?;
    let port = socket.local_addr().ok()?.port();
    let options = options(2)?;
    let device = OpenDevice::<SimDisk, ()>::open(alloc, formatted(alloc)?, None).ok()?;
    let listeners = Vec::from_array(alloc, [Listener::from(socket)]).ok()?;
    // (the server's input doesn't end before it does)
    let (_ending, input) = UnixStream::pair(rt).ok()?;
    let gate = Gate { rt: threads, seen };
    let name = OfferedName::new(b"")?;
    thread::scope(thread::scope_env(), threads, move |scope| {
        let Ok(server) = scope.spawn(move || serve(
            threads, alloc, device, listeners, input, options, name, gate,
        )) else {
            return None;
        };
        let clients = write_beside_a_held_one(rt, port, seen);
        // If a client gave up the server still waits for its sessions.
        for _ in 0..2 {
            let _ = TcpStream::connect(rt, SocketAddr::from((Ipv4Addr::LOCALHOST, port)));
        }
        let (outcome, disk) = server.join(threads);
        Some(Ran {
            clients,
            outcome,
            disk,
        })
    })
}

// Whether an opened device's image has a block of one byte over and over.
fn has_block(keeper: &mut Keeper<SimDisk>, block: u64, byte: u8) -> bool {
    let mut into = [0; 4096];
    if block >= keeper.geometry().blocks || keeper.read_base(block, &mut into).is_err() {
        return false;
    }
    into == [byte; 4096]
}

#[test]
fn write_is_answered_while_a_sync_is_held(rt: HostRuntime) {
    let seen = Seen {
        is_held: AtomicBool::new(false),
        is_overtaken: AtomicBool::new(false),
        answers: AtomicU64::new(0),
    };
    let ran = run(&rt, &rt, &seen).expect(&rt, "a server");
    assert!(rt; ran.clients.is_ok());
    assert!(rt; ran.outcome.is_ok());
    assert!(rt; seen.is_overtaken.load(Ordering::SeqCst));
    let mut keeper = Keeper::open(rt.alloc(), ran.disk)
        .ok()
        .expect(&rt, "an image");
    assert_eq!(rt; keeper.count(), 2);
    assert!(rt; has_block(&mut keeper, 1, 0x41));
    assert!(rt; has_block(&mut keeper, 2, 0x42));
}
