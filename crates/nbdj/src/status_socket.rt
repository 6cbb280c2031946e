//! The Unix socket at which `serve --status` tells its figures over HTTP.

use crate::meter::Meter;
use metrics::{
    Figures, MOST_REQUEST_BYTES, Route, Setup, head_of, is_head, metrics_text,
    opening_metrics_text, opening_status_text, response, route_of, status_text,
};
use server::Watched;
use std::alloc::{AllocError, Global};
use std::fmt::Display;
use std::io::{self, ErrorKind, Read, Write};
use std::net::Shutdown;
use std::os::fd::OwnedFd;
use std::os::unix::net::{UnixListener, UnixStream};
use std::rt::Clock;
use std::sync::atomic::{AtomicBool, Ordering};
use std::sync::{Mutex, Wait};
use std::thread;
use std::time::{Duration, Instant};

/// How many clients are answered at a time; further ones wait.
pub const ANSWERERS: u32 = 4;

// A request has come after this many milliseconds, or isn't answered; and its response is taken within as many.
const PATIENCE: u64 = 2_000;

// The milliseconds from one try to the next where no client could be accepted.
const PAUSE: u64 = 50;

// The milliseconds for which the thread that answers while the image is opened waits for a client, or for its request, until it sees whether
// the opening is over.
const TURN: u64 = 4;

// The content type of Prometheus' text format.
const METRICS_TYPE: &str = "text/plain; version=0.0.4; charset=utf-8";

/// The status of a response where another client has asked for the same, or the image isn't open yet.
pub const BUSY: &str = "409 Conflict";

/// The socket, and what is told there.
#[derive(Drop)]
pub struct StatusSocket<'a> {
    alloc: Global,
    listener: UnixListener,
    // The socket of the listener, by which those who wait at it are told of the end.
    wake: UnixStream,
    is_ended: AtomicBool,
    is_storing: AtomicBool,
    // A client whose request had not come when the opening of the image was over.
    early: Mutex<Option<Caller>>,
    setup: Setup<'a>,
    pub meter: &'a Meter,
}

// A client, and as much of its request as has come.
#[derive(Drop)]
struct Caller {
    stream: UnixStream,
    came: Instant,
    head: [u8; MOST_REQUEST_BYTES],
    length: usize,
}

// What a client asks for, and whether it wants the head of the response alone.
#[derive(Clone, Copy)]
struct Asked {
    route: Route,
    is_head: bool,
}

impl<'a> StatusSocket<'a> {
    /// Tells the figures of a server that runs so, at a socket that listens.
    pub fn new(
        alloc: Global,
        listener: UnixListener,
        setup: Setup<'a>,
        meter: &'a Meter,
    ) -> io::Result<StatusSocket<'a>> {
        let wake = UnixStream::from(OwnedFd::from(listener.try_clone()?));
        Ok(StatusSocket {
            alloc,
            listener,
            wake,
            is_ended: AtomicBool::new(false),
            is_storing: AtomicBool::new(false),
            early: Mutex::new(None),
            setup,
            meter,
        })
    }

    /// Notes the first call of the device that failed, and why.
    pub fn note_failure<R: Wait + Clock, T: Display + Drop>(&self, rt: &R, cause: T) {
        self.meter.note_failure(self.alloc, rt, cause);
    }

    /// Makes the listener non-blocking for `answer_opening`; whether that worked.
    pub fn begin_opening(&self) -> bool {
        self.listener.set_nonblocking(true).is_ok()
    }

    /// Makes the listener blocking again for `answer`, once `answer_opening` has returned.
    pub fn end_opening(&self) {
        // If it fails, `answer` looks for clients every 50 ms.
        let _ = self.listener.set_nonblocking(false);
    }

    /// Answers one client after another until the opening of the image is over. If the request of the last one hasn't come by then, `answer`
    /// goes on with that client.
    pub fn answer_opening<R: Wait + Clock>(&self, rt: &R) {
        for _ in rt.forever() {
            if self.meter.opening.is_over() {
                return;
            }
            match self.listener.accept() {
                Ok((stream, _)) => {
                    let _ = self.answer_early(rt, stream);
                }
                Err(_) => thread::sleep(rt, Duration::from_millis(TURN)),
            }
        }
    }

    // Reads the request of a client that came while the image is opened, and answers it, unless the opening is over before.
    fn answer_early<R: Wait + Clock>(&self, rt: &R, stream: UnixStream) -> io::Result<()> {
        let mut caller = Caller::new(rt, stream)?;
        for _ in rt.forever() {
            if self.meter.opening.is_over() {
                *self.early.lock(rt) = Some(caller);
                return Ok(());
            }
            if let Some(asked) = caller.read_for(rt, Duration::from_millis(TURN))? {
                let text = self.opening_text_of(rt, asked.route);
                return caller.send(asked, text);
            }
        }
        Ok(())
    }

    /// Answers one client after another until the end.
    pub fn answer<R: Wait + Clock, W: Watched>(&self, rt: &R, watched: &W) {
        let early = self.early.lock(rt).take();
        if let Some(caller) = early {
            let _ = self.answer_one(rt, caller, watched);
        }
        for _ in rt.forever() {
            let accepted = self.listener.accept();
            if self.is_ended.load(Ordering::SeqCst) {
                return;
            }
            match accepted {
                // A client that has gone needs no answer.
                Ok((stream, _)) => {
                    let _ = self.answer_next(rt, stream, watched);
                }
                Err(_) => thread::sleep(rt, Duration::from_millis(PAUSE)),
            }
        }
    }

    /// Ends all answers.
    pub fn end(&self) {
        self.is_ended.store(true, Ordering::SeqCst);
        // If it fails nobody waits there.
        let _ = self.wake.shutdown(Shutdown::Both);
    }

    fn answer_next<R: Wait + Clock, W: Watched>(
        &self,
        rt: &R,
        stream: UnixStream,
        watched: &W,
    ) -> io::Result<()> {
        let caller = Caller::new(rt, stream)?;
        self.answer_one(rt, caller, watched)
    }

    // Reads a client's request and answers it.
    fn answer_one<R: Wait + Clock, W: Watched>(
        &self,
        rt: &R,
        caller: Caller,
        watched: &W,
    ) -> io::Result<()> {
        let mut caller = caller;
        let Some(asked) = caller.read_request(rt)? else {
            return Ok(());
        };
        let text = self.text_of(rt, asked.route, watched);
        caller.send(asked, text)
    }

    // The response to a request.
    fn text_of<R: Wait + Clock, W: Watched>(
        &self,
        rt: &R,
        route: Route,
        watched: &W,
    ) -> Result<String, AllocError> {
        let alloc = self.alloc;
        match route {
            Route::Metrics => {
                let (figures, failure) = self.figures(rt, watched)?;
                let body = metrics_text(alloc, &self.setup, &failure, &figures)?;
                response(alloc, "200 OK", METRICS_TYPE, &body)
            }
            Route::Status => {
                let (figures, failure) = self.figures(rt, watched)?;
                let body = status_text(alloc, &self.setup, &failure, &figures)?;
                response(alloc, "200 OK", "application/json", &body)
            }
            Route::Store => self.store(watched),
            _ => refusal_of(alloc, route),
        }
    }

    // The response to a request that comes while the image is opened.
    fn opening_text_of<R: Wait + Clock>(&self, rt: &R, route: Route) -> Result<String, AllocError> {
        let (alloc, setup) = (self.alloc, &self.setup);
        let uptime = self.meter.uptime_micros(rt);
        let opening = self.meter.opening.figures(rt);
        let waits = self.meter.waits_for_space();
        match route {
            Route::Metrics => {
                let body = opening_metrics_text(alloc, setup, uptime, &opening, waits)?;
                response(alloc, "200 OK", METRICS_TYPE, &body)
            }
            Route::Status => {
                let body = opening_status_text(alloc, setup, uptime, &opening, waits)?;
                response(alloc, "200 OK", "application/json", &body)
            }
            // `nbdj status --store` then tries again.
            Route::Store => plain(alloc, BUSY, "the image is being opened\n"),
            _ => refusal_of(alloc, route),
        }
    }

    // All figures, and why a call of the device has failed.
    fn figures<R: Wait + Clock, W: Watched>(
        &self,
        rt: &R,
        watched: &W,
    ) -> Result<(Figures, String), AllocError> {
        let (cause, since) = match self.meter.failure(self.alloc, rt)? {
            Some((cause, since)) => (cause, Some(since)),
            None => (String::new(self.alloc), None),
        };
        Ok((self.meter.figures(rt, &watched.figures(), since), cause))
    }

    // Has all stored that is accepted by now, and answers once it is. One client at a time may wait for that, so that others get figures.
    fn store<W: Watched>(&self, watched: &W) -> Result<String, AllocError> {
        let alloc = self.alloc;
        if self.is_storing.swap(true, Ordering::SeqCst) {
            return plain(alloc, BUSY, "another client waits for this\n");
        }
        let stored = watched.store();
        self.is_storing.store(false, Ordering::SeqCst);
        match stored {
            Some(number) => {
                let body = format!(in alloc; "{number}\n")?;
                plain(alloc, "200 OK", &body)
            }
            None => plain(
                alloc,
                "503 Service Unavailable",
                "the device has failed, or memory is refused\n",
            ),
        }
    }
}

fn plain(alloc: Global, status: &str, body: &str) -> Result<String, AllocError> {
    response(alloc, status, "text/plain; charset=utf-8", body)
}

// The response to a request that names nothing, or is none.
fn refusal_of(alloc: Global, route: Route) -> Result<String, AllocError> {
    match route {
        Route::Unknown => plain(
            alloc,
            "404 Not Found",
            "/metrics, /status and /store are here\n",
        ),
        Route::BadMethod => plain(
            alloc,
            "405 Method Not Allowed",
            "GET /metrics, GET /status and POST /store are answered\n",
        ),
        Route::Malformed => plain(alloc, "400 Bad Request", "not a request of HTTP/1.1\n"),
        _ => plain(
            alloc,
            "431 Request Header Fields Too Large",
            "a request has at most 4096 bytes and 32 fields\n",
        ),
    }
}

impl Caller {
    // A client that has come now.
    fn new<R: Clock>(rt: &R, stream: UnixStream) -> io::Result<Caller> {
        Ok(Caller {
            stream,
            came: Instant::now(rt)?,
            head: [0; MOST_REQUEST_BYTES],
            length: 0,
        })
    }

    // What it asks for; none where it has gone or takes too long to say.
    fn read_request<R: Clock>(&mut self, rt: &R) -> io::Result<Option<Asked>> {
        for _ in 0..MOST_REQUEST_BYTES {
            if let Some(asked) = self.read_for(rt, Duration::from_millis(PATIENCE))? {
                return Ok(Some(asked));
            }
        }
        Ok(None)
    }

    // Waits so long for more of its request; what it asks for, once all of that has come. An error where it has gone or takes too long.
    fn read_for<R: Clock>(&mut self, rt: &R, time: Duration) -> io::Result<Option<Asked>> {
        let patience = Duration::from_millis(PATIENCE);
        let left = match patience.checked_sub(self.came.elapsed(rt)?) {
            Some(left) if !left.is_zero() => left,
            _ => return Err(io::Error::from(ErrorKind::TimedOut)),
        };
        self.stream.set_read_timeout(Some(left.min(time)))?;
        let Some(room) = self.head.get_mut(self.length..) else {
            return Err(io::Error::from(ErrorKind::InvalidData));
        };
        let mut input = &self.stream;
        match input.read(room) {
            Ok(0) => return Err(io::Error::from(ErrorKind::UnexpectedEof)),
            Ok(count) => self.length = self.length.saturating_add(count),
            Err(error) if is_passing(&error) => return Ok(None),
            Err(error) => return Err(error),
        }
        let came = self.head.get(..self.length).unwrap_or(&[]);
        let Some(route) = route_of(came) else {
            return Ok(None);
        };
        Ok(Some(Asked {
            route,
            is_head: is_head(came),
        }))
    }

    // Sends it the response that was made, if there was memory for that.
    fn send(&self, asked: Asked, text: Result<String, AllocError>) -> io::Result<()> {
        let Ok(text) = text else {
            return Err(io::Error::from(ErrorKind::OutOfMemory));
        };
        let text = if asked.is_head {
            head_of(&text)
        } else {
            text.as_str()
        };
        self.stream
            .set_write_timeout(Some(Duration::from_millis(PATIENCE)))?;
        let mut output = &self.stream;
        output.write_all(text.as_bytes())
    }
}

// Whether more may come after this error of a read.
fn is_passing(error: &io::Error) -> bool {
    matches!(
        error.kind(),
        ErrorKind::Interrupted | ErrorKind::WouldBlock | ErrorKind::TimedOut
    )
}
