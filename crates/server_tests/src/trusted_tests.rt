//! A server over a device and a second handle for which all is proved that the contract of `serve` has as a premise. So
//! what that contract says holds here without any.
ghost use Rattle.std.specs.Prelude.{IfSome};
ghost use Rattle.server_tests.specs.Trusted.{KeepsTrustedLog};

use crate::client::Client;
use crate::loopback_tests::{Gate, Seen, formatted, options};
use crate::snapshot::open_with_snapshot;
use disk_model::SimDisk;
use export::SyncPoints;
use front_end::{Refusal, ServeOptions};
use negotiation::OfferedName;
use server::{Listener, Watch, serve};
use std::alloc::Global;
use std::io::{self, Read};
use std::net::{Ipv4Addr, SocketAddr, TcpListener, TcpStream};
use std::os::unix::net::UnixStream;
use std::rt::Clock;
use std::sync::Wait;
use std::sync::atomic::{AtomicBool, AtomicU64, Ordering};
use std::thread::{self, Threads};

// Serves a simulated device, of which blocks that aren't in memory are read without locks.
fn serve_trusted<R, I, G>(
    rt: &R,
    alloc: Global,
    disk: SimDisk,
    served: &AtomicU64,
    listeners: Vec<Listener>,
    input: I,
    options: ServeOptions,
    name: OfferedName<'_>,
    watch: G,
) -> Option<(Result<(), Refusal>, SimDisk)>
where
    R: Threads + Wait + Clock + Copy + Send + Sync + Drop + 'static,
    I: Read + Send + Drop + 'static,
    G: SyncPoints + Watch + Copy + Send + Sync,
    ensures { IfSome result (λ ended. KeepsTrustedLog options.mode ended.0 ended.1) }
{
    let device = open_with_snapshot(alloc, disk, served)?;
    Some(serve(rt, alloc, device, listeners, input, options, name, watch))
}

// What a life of a server came to: what its client met, and what the server and its device did.
#[derive(Drop)]
struct Life {
    client: io::Result<()>,
    outcome: Result<(), Refusal>,
    disk: SimDisk,
}

fn write_blocks(rt: &HostRuntime, port: u16) -> io::Result<()> {
    let mut client = Client::connect(rt, port)?;
    client.send_write(1, 0x41, 0)?;
    client.expect_done(1)?;
    client.send_write(2, 0x42, 0)?;
    client.expect_done(2)?;
    client.disconnect()
}

fn read_blocks(rt: &HostRuntime, port: u16) -> io::Result<()> {
    let mut client = Client::connect(rt, port)?;
    client.expect_block(1, 0x41)?;
    client.expect_block(2, 0x42)?;
    client.disconnect()
}

// Has one client served.
fn live<'s, R: Threads + Wait + Clock + Copy + Send + Sync + Drop + 'static>(
    rt: &HostRuntime,
    threads: &'s R,
    disk: SimDisk,
    served: &'s AtomicU64,
    seen: &'s Seen,
    is_first: bool,
) -> Option<Life> {
    let alloc = rt.alloc();
    let socket = TcpListener::bind(rt, SocketAddr::from((Ipv4Addr::LOCALHOST, 0))).ok()?;
    let port = socket.local_addr().ok()?.port();
    let options = options(1)?;
    let listeners = Vec::from_array(alloc, [Listener::from(socket)]).ok()?;
    // (the server's input doesn't end before it does)
    let (_ending, input) = UnixStream::pair(rt).ok()?;
    let gate = Gate { rt: threads, seen };
    let name = OfferedName::new(b"")?;
    thread::scope(thread::scope_env(), threads, move |scope| {
        let Ok(server) = scope.spawn(move || serve_trusted(
            threads, alloc, disk, served, listeners, input, options, name, gate,
        )) else {
            return None;
        };
        let client = if is_first {
            write_blocks(rt, port)
        } else {
            read_blocks(rt, port)
        };
        // If the client gave up the server still waits for its session.
        let _ = TcpStream::connect(rt, SocketAddr::from((Ipv4Addr::LOCALHOST, port)));
        let (outcome, disk) = server.join(threads)?;
        Some(Life {
            client,
            outcome,
            disk,
        })
    })
}

#[test]
fn reads_without_locks_are_right(rt: HostRuntime) {
    let served = AtomicU64::new(0);
    // (no group is held)
    let seen = Seen {
        is_held: AtomicBool::new(true),
        is_overtaken: AtomicBool::new(false),
        answers: AtomicU64::new(0),
    };
    let disk = formatted(rt.alloc()).expect(&rt, "a device");
    let first = live(&rt, &rt, disk, &served, &seen, true).expect(&rt, "a server");
    assert!(rt; first.client.is_ok());
    assert!(rt; first.outcome.is_ok());
    let second = live(&rt, &rt, first.disk, &served, &seen, false).expect(&rt, "a server");
    assert!(rt; second.client.is_ok());
    assert!(rt; second.outcome.is_ok());
    // Each block was read without locks.
    assert_eq!(rt; served.load(Ordering::SeqCst), 2);
}
