ghost use Rattle.std.specs.Io.{ReadsAtMost};

use crate::asked::hear;
use crate::client_registry::ClientRegistry;
use export::{Point, SyncPoints};
use libc::net;
use std::alloc::Global;
use std::cell::Cell;
use std::fmt::{self, Display, Formatter};
use std::io::{self, ErrorKind, IoSlice, Read, Write};
use std::net::{Shutdown, TcpStream};
use std::os::fd::AsRawFd;
use std::os::unix::net::UnixStream;
use std::sync::atomic::{AtomicU32, Ordering};
use std::time::Duration;

// How often a host that has gone silent is asked before its client is dropped.
const MOST_PROBES: u64 = 4;

// The longest time that the system takes, in seconds.
const LONGEST_SILENCE: u64 = 32_767;

/// The socket of a client.
#[derive(Drop)]
pub enum Client {
    Tcp(TcpStream),
    Unix(UnixStream),
}

impl Display for Client {
    fn fmt<W: fmt::Write>(&self, f: &mut Formatter<W>) -> fmt::Result {
        match self {
            Client::Tcp(stream) => match stream.peer_addr() {
                Ok(address) => write!(f, "{address}"),
                Err(_) => f.write_str("an address that can't be told"),
            },
            Client::Unix(_) => f.write_str("the Unix socket"),
        }
    }
}

impl Client {
    /// How long a read waits for a first byte, and a write until one is taken; None for no end.
    pub(crate) fn limit_wait(&self, limit: Option<Duration>) -> io::Result<()> {
        match self {
            Client::Tcp(stream) => {
                stream.set_read_timeout(limit)?;
                stream.set_write_timeout(limit)
            }
            Client::Unix(stream) => {
                stream.set_read_timeout(limit)?;
                stream.set_write_timeout(limit)
            }
        }
    }

    /// Has the system drop a TCP client whose host hasn't answered for so long, or which has taken no reply for so long. If the system
    /// refuses, a client that has vanished stays.
    pub(crate) fn drop_if_silent(&self, limit: Duration) {
        let Client::Tcp(stream) = self else {
            return;
        };
        let seconds = limit.as_secs().clamp(1, LONGEST_SILENCE);
        let probes = seconds.saturating_sub(1).clamp(1, MOST_PROBES);
        let between = (seconds / (2 * MOST_PROBES)).max(1);
        let before = seconds.saturating_sub(probes * between).max(1);
        let socket = stream.as_raw_fd();
        let (probes, between, before) = (value_of(probes), value_of(between), value_of(before));
        let (millis, on) = (value_of(seconds * 1_000), value_of(1));
        let _ = unsafe { net::setsockopt(socket, net::IPPROTO_TCP, net::TCP_KEEPCNT, &probes, 4) };
        let _ = unsafe {
            net::setsockopt(socket, net::IPPROTO_TCP, net::TCP_KEEPINTVL, &between, 4)
        };
        let _ = unsafe { net::setsockopt(socket, net::IPPROTO_TCP, net::TCP_KEEPIDLE, &before, 4) };
        let _ = unsafe {
            net::setsockopt(socket, net::IPPROTO_TCP, net::TCP_USER_TIMEOUT, &millis, 4)
        };
        let _ = unsafe { net::setsockopt(socket, net::SOL_SOCKET, net::SO_KEEPALIVE, &on, 4) };
    }

    // Sends what it takes of this piece.
    fn send(&self, piece: &[u8]) -> io::Result<usize> {
        match self {
            Client::Tcp(stream) => {
                let mut stream = stream;
                stream.write(piece)
            }
            Client::Unix(stream) => {
                let mut stream = stream;
                stream.write(piece)
            }
        }
    }

    // Sends what it takes of these two pieces, by one call. (A call for one piece costs less.)
    fn send_both<'b>(&self, first: &'b [u8], second: &'b [u8]) -> io::Result<usize> {
        let pieces = [IoSlice::new(first), IoSlice::new(second)];
        match self {
            Client::Tcp(stream) => stream.write_vectored(&pieces),
            Client::Unix(stream) => stream.write_vectored(&pieces),
        }
    }

    /// Ends its input, its output or both. A read that waits finds the end, and a thread that waits at a listener that is shut wakes.
    pub(crate) fn shut_down(&self, how: Shutdown) {
        // If it fails the client has gone.
        let _ = match self {
            Client::Tcp(stream) => stream.shutdown(how),
            Client::Unix(stream) => stream.shutdown(how),
        };
    }
}

// A number as the value of a socket's option.
fn value_of(number: u64) -> [u8; 16] {
    let mut value = [0; 16];
    let number = u32::try_from(number).unwrap_or(u32::MAX);
    value[..4].copy_from_slice(&number.to_ne_bytes());
    value
}

/// What a client sends, until its session is ended.
#[derive(Drop)]
pub(crate) struct Input<'a> {
    pub client: &'a Client,
    pub registry: &'a ClientRegistry,
    /// How many requests of the client wait while it may be silent.
    pub waiting_count: &'a AtomicU32,
    /// Whether the handshake is over.
    pub is_replying: &'a Cell<bool>,
    /// What it has sent in the handshake, up to some length.
    pub heard: Vec<u8>,
}

impl<'a> Input<'a> {
    /// The same, after the handshake.
    pub(crate) fn for_requests(&self, alloc: Global) -> Input<'a> {
        Input {
            client: self.client,
            registry: self.registry,
            waiting_count: self.waiting_count,
            is_replying: self.is_replying,
            heard: Vec::new(alloc),
        }
    }

    // Reads once.
    fn receive(&mut self, buf: &mut [u8]) -> io::Result<usize>
        ensures { ReadsAtMost result buf.new }
    {
        let count = match self.client {
            Client::Tcp(stream) => {
                let mut stream = stream;
                stream.read(buf)?
            }
            Client::Unix(stream) => {
                let mut stream = stream;
                stream.read(buf)?
            }
        };
        if !self.is_replying.get() {
            hear(&mut self.heard, buf.get(..count).unwrap_or(&[]));
        }
        Ok(count)
    }
}

impl<'a> Read for Input<'a> {
    fn read(&mut self, buf: &mut [u8]) -> io::Result<usize> {
        for _ in 0..u64::MAX {
            if self.registry.is_closed() {
                return Ok(0);
            }
            match self.receive(buf) {
                // A client that waits for a reply may be silent.
                Err(error) if is_timeout(&error) && self.waiting_count.load(Ordering::SeqCst) > 0 =>
                    {}
                received => return received,
            }
        }
        Ok(0)
    }
}

// Whether nothing has come in time.
fn is_timeout(error: &io::Error) -> bool {
    matches!(error.kind(), ErrorKind::WouldBlock | ErrorKind::TimedOut)
}

// The most bytes that are held: the head of a reply, and short replies before it.
const MOST_HELD: usize = 1_024;

/// What a client is sent. A short piece is held until it is handed on, or until the next piece, with which it goes out by one call: so
/// the client of a long READ wakes once for its reply, and not once for the head and once for the data.
#[derive(Drop)]
pub(crate) struct Output<'a> {
    client: &'a Client,
    held: Vec<u8>,
    // How many of the bytes that are held have been sent.
    sent: usize,
}

impl<'a> Output<'a> {
    /// Without memory nothing is held.
    pub(crate) fn new(alloc: Global, client: &'a Client) -> Output<'a> {
        let held = match Vec::with_capacity(alloc, MOST_HELD) {
            Ok(held) => held,
            Err(_) => Vec::new(alloc),
        };
        Output {
            client,
            held,
            sent: 0,
        }
    }

    // What is held and wasn't sent yet.
    fn waiting(&self) -> &[u8] {
        self.held.get(self.sent..).unwrap_or(&[])
    }

    // Notes that this many bytes of what is held are sent.
    fn note_sent(&mut self, count: usize) {
        self.sent = self.sent.saturating_add(count);
        if self.sent >= self.held.len() {
            self.held.clear();
            self.sent = 0;
        }
    }
}

impl<'a> Write for Output<'a> {
    fn write(&mut self, buf: &[u8]) -> io::Result<usize> {
        if self.held.is_empty() && buf.len() <= MOST_HELD && self.held.capacity() >= MOST_HELD {
            self.held.extend_from_slice(buf)?;
            return Ok(buf.len());
        }
        // (Each call sends one byte at least.)
        for _ in 0..MOST_HELD {
            let waiting = self.waiting().len();
            if waiting == 0 {
                break;
            }
            let count = self.client.send_both(self.waiting(), buf)?;
            if count == 0 {
                return Ok(0);
            }
            self.note_sent(count.min(waiting));
            if count > waiting {
                return Ok((count - waiting).min(buf.len()));
            }
        }
        let count = self.client.send(buf)?;
        Ok(count.min(buf.len()))
    }

    fn flush(&mut self) -> io::Result<()> {
        for _ in 0..=MOST_HELD {
            if self.waiting().is_empty() {
                return Ok(());
            }
            let count = self.client.send(self.waiting())?;
            if count == 0 {
                break;
            }
            self.note_sent(count);
        }
        Err(io::Error::from(ErrorKind::WriteZero))
    }
}

/// What is written to `inner`. Its sync point is reached after each write of replies.
#[derive(Drop)]
pub(crate) struct WatchedOutput<'a, W: Write + Drop, G: SyncPoints + Drop> {
    pub inner: W,
    pub is_replying: &'a Cell<bool>,
    pub points: G,
}

impl<'a, W: Write + Drop, G: SyncPoints + Drop> Write for WatchedOutput<'a, W, G> {
    ghost contents = { λ output. W.contents output.inner };

    fn write(&mut self, buf: &[u8]) -> io::Result<usize> {
        let count = self.inner.write(buf)?;
        if self.is_replying.get() {
            self.points.reach(Point::Answered);
        }
        Ok(count)
    }

    fn flush(&mut self) -> io::Result<()> {
        self.inner.flush()
    }
}
