//! What `serve` tells on standard error while it works. A thread of its own writes it, so that no other thread waits for a reader.

use crate::lock_guard::LockGuard;
use crate::meter::micros_of;
use crate::notify::notify;
use crate::status_socket::{ANSWERERS, StatusSocket};
use export::{Point, SyncPoints};
use front_end::WhenFull;
use image_files::FileLines;
use nbd_wire::SessionFlags;
use negotiation::End;
use server::{Event, Traffic, Watch, Watched};
use std::alloc::{AllocError, Global};
use std::fmt::{self, Display, Formatter};
use std::io::{self, Write};
use std::mem;
use std::rt::Clock;
use std::sync::{Arc, Condvar, CondvarTimeouts, Mutex, Wait};
use std::thread::{self, Threads};
use std::time::{Duration, Instant};

/// The most bytes of lines that wait to be written.
const MOST_WAITING: usize = 65_536;

/// The most bytes of a line.
const LONGEST_LINE: usize = 4_608;

/// One thread cuts the connections if a call of the device takes too long, and one checks the lock.
const GUARDS: u32 = 2;

/// The seconds for which the program waits at its end until all lines are written.
const LAST_WAIT: u64 = 1;

/// What a line is about.
#[derive(Clone, Copy, PartialEq, Eq)]
pub enum Topic {
    Started,
    Ended,
    Misnamed,
    Recovered,
    Came,
    Full,
    Agreed,
    Left,
    Copied,
    Unread,
    NoMemory,
    Unaccepted,
    Unlocked,
}

const TOPICS: usize = 13;

impl Topic {
    fn place(self) -> usize {
        match self {
            Topic::Recovered => 0,
            Topic::Came => 1,
            Topic::Full => 2,
            Topic::Agreed => 3,
            Topic::Left => 4,
            Topic::Copied => 5,
            Topic::Unread => 6,
            Topic::NoMemory => 7,
            Topic::Unaccepted => 8,
            Topic::Unlocked => 9,
            Topic::Started => 10,
            Topic::Ended => 11,
            Topic::Misnamed => 12,
        }
    }

    // The seconds from one line to the next.
    fn gap(self) -> u64 {
        match self {
            Topic::Full | Topic::Unread | Topic::NoMemory | Topic::Unaccepted | Topic::Unlocked =>
                60,
            _ => 1,
        }
    }

    // Whether it is told though nobody has asked for `--verbose`: something is amiss.
    fn is_urgent(self) -> bool {
        matches!(
            self,
            Topic::Full | Topic::Unread | Topic::NoMemory | Topic::Unaccepted | Topic::Unlocked
        )
    }
}

// Lines that wait to be written.
#[derive(Drop)]
struct Lines {
    waiting: Vec<u8>,
    // Whether others were taken out and aren't written yet.
    is_writing: bool,
    // How many lines were left out since that was last told.
    left_out: u64,
    // When a line of each topic was last told.
    last: [Option<Instant>; TOPICS],
}

impl Lines {
    // Adds a line; one for which there is no room is left out, and counted.
    fn add<T: Display + Drop>(&mut self, text: T) {
        if !self.has_added(text) {
            self.left_out = self.left_out.saturating_add(1);
        }
    }

    // Adds a line, cut to the longest, if there is room for it; whether there was.
    fn has_added<T: Display + Drop>(&mut self, text: T) -> bool {
        let mut line = [0; LONGEST_LINE];
        let mut room = line.as_mut_slice();
        // (A text that is longer than the room fails, once the room is full.)
        let _ = write!(room, "nbdj: {text}");
        let length = LONGEST_LINE.saturating_sub(room.len());
        self.has_added_bytes(line.get(..length).unwrap_or(&[]))
    }

    fn has_added_bytes(&mut self, line: &[u8]) -> bool {
        if self.waiting.len().saturating_add(line.len()) >= MOST_WAITING {
            return false;
        }
        self.waiting.extend_from_slice(line).is_ok() && self.waiting.push(b'\n').is_ok()
    }

    // Tells how many lines were left out, if any were.
    fn tell_left_out(&mut self, path: &str) {
        let count = self.left_out;
        if count > 0 && self.has_added(format_args!("{path}: {count} lines left out")) {
            self.left_out = 0;
        }
    }

    // Whether a line of this topic may be told: its gap has passed since the last one. It then counts as told.
    fn is_due<R: Clock>(&mut self, rt: &R, topic: Topic) -> bool {
        let Some(last) = self.last.get_mut(topic.place()) else {
            return false;
        };
        if let Some(since) = *last {
            let gap = Duration::from_secs(topic.gap());
            if since.elapsed(rt).unwrap_or(Duration::ZERO) < gap {
                return false;
            }
        }
        *last = Instant::now(rt).ok();
        true
    }
}

/// The lines, and the thread that writes them.
#[derive(Drop)]
pub struct LogLines {
    lines: Mutex<Lines>,
    // Told when a line is added, and when all are written.
    added: Condvar,
    written: Condvar,
}

impl LogLines {
    /// Starts the thread, which nobody waits for: it may wait for a reader for ever.
    pub fn start<R>(host: &HostRuntime, rt: &R) -> Result<Arc<LogLines, Global>, AllocError>
    where
        R: Threads + Wait + Clock + Copy + Send + Drop + 'static,
    {
        let alloc = host.alloc();
        let lines = Lines {
            waiting: Vec::with_capacity(alloc, MOST_WAITING)?,
            is_writing: false,
            left_out: 0,
            last: [None; TOPICS],
        };
        let made = Arc::new(
            alloc,
            LogLines {
                lines: Mutex::new(lines),
                added: Condvar::new(),
                written: Condvar::new(),
            },
        )?;
        let taken = Vec::with_capacity(alloc, MOST_WAITING)?;
        let (own, its, host) = (*rt, Arc::try_clone(&made)?, *host);
        match thread::spawn(rt, move || its.write_on(&own, host, taken)) {
            Ok(_) => Ok(made),
            Err(_) => Err(AllocError),
        }
    }

    // Writes lines as they come. `taken` has room for them.
    fn write_on<R: Wait>(&self, rt: &R, host: HostRuntime, taken: Vec<u8>) {
        let mut taken = taken;
        let mut errors = host.stderr();
        for _ in rt.forever() {
            let mut lines = self.lines.lock(rt);
            if lines.waiting.is_empty() {
                lines.is_writing = false;
                self.written.notify_all();
                let _woken = self.added.wait(rt, lines);
                continue;
            }
            mem::swap(&mut lines.waiting, &mut taken);
            lines.is_writing = true;
            drop(lines);
            // If it can't be written nobody listens.
            let _ = errors.write_all(&taken);
            taken.clear();
        }
    }
}

/// By which a server tells what happens in it.
#[derive(Clone, Copy)]
pub struct ServerLog<'a, R> {
    rt: &'a R,
    lines: &'a LogLines,
    path: &'a str,
    is_verbose: bool,
    // The socket at which figures are told; they are counted only if there is one.
    status: Option<&'a StatusSocket<'a>>,
}

impl<'a, R: Wait + Clock> ServerLog<'a, R> {
    /// For the image at this path; no figures are counted.
    pub fn new(
        rt: &'a R,
        lines: &'a LogLines,
        path: &'a str,
        is_verbose: bool,
    ) -> ServerLog<'a, R> {
        ServerLog {
            rt,
            lines,
            path,
            is_verbose,
            status: None,
        }
    }

    /// The same log, which also counts the figures that are told at this socket.
    pub fn with_status(self, status: &'a StatusSocket<'a>) -> ServerLog<'a, R> {
        ServerLog {
            status: Some(status),
            ..self
        }
    }

    /// The threads of the server.
    pub fn threads(&self) -> &'a R {
        self.rt
    }

    /// The socket at which figures are told, if they are.
    pub fn status(&self) -> Option<&'a StatusSocket<'a>> {
        self.status
    }

    /// The path of the image.
    pub fn path(&self) -> &'a str {
        self.path
    }

    /// Whether all is told that happens.
    pub fn is_verbose(&self) -> bool {
        self.is_verbose
    }

    /// Tells a line, and never waits for a reader. A line that comes too soon after another one of its topic, or for which there is no
    /// room, is left out, and counted.
    pub fn tell<T: Display + Drop>(&self, topic: Topic, text: T) {
        if !self.is_verbose && !topic.is_urgent() {
            return;
        }
        let mut lines = self.lines.lines.lock(self.rt);
        if lines.is_due(self.rt, topic) {
            lines.tell_left_out(self.path);
            let path = self.path;
            lines.add(format_args!("{path}: {text}"));
        } else {
            lines.left_out = lines.left_out.saturating_add(1);
        }
        drop(lines);
        self.lines.added.notify_one();
    }

    /// Tells how many lines were left out, and then the last line, if there is one. Waits for a second at most until all are written.
    pub fn finish(&self, last: &[u8]) {
        let mut lines = self.lines.lines.lock(self.rt);
        lines.tell_left_out(self.path);
        if !last.is_empty() {
            // With no room for it, the exit status alone tells.
            let _ = lines.has_added_bytes(last);
        }
        self.lines.added.notify_one();
        let is_unwritten = |lines: &mut Lines| lines.is_writing || !lines.waiting.is_empty();
        let _written = self.lines.written.wait_timeout_while(
            self.rt,
            lines,
            Duration::from_secs(LAST_WAIT),
            is_unwritten,
        );
    }

    /// Tells how many commands an opening has recovered.
    pub fn tell_recovery(&self, commands: u64, took: Duration) {
        self.tell(
            Topic::Recovered,
            format_args!("recovered {commands} commands in {}", Seconds(took)),
        );
    }

    /// Tells a line, however many came before it; of one for which there is no room it is told that it was left out.
    pub fn say<T: Display + Drop>(&self, line: T) {
        self.lines.lines.lock(self.rt).add(line);
        self.lines.added.notify_one();
    }

    /// A write of the device begins to wait for space on its disk, or has ended such a wait.
    pub fn begin_space_wait(&self) {
        if let Some(status) = self.status {
            status.meter.begin_space_wait();
        }
    }

    pub fn end_space_wait(&self, took: Duration) {
        if let Some(status) = self.status {
            status.meter.end_space_wait(took);
        }
    }

    // Counts that a call of the device has failed.
    fn count_failure<T: Display + Drop>(&self, cause: T) {
        if let Some(status) = self.status {
            status.note_failure(self.rt, cause);
        }
    }

    // Counts what a thread of the export has done.
    fn count_point(&self, at: Point) {
        let Some(status) = self.status else {
            return;
        };
        match at {
            Point::Stored {
                commands,
                bytes,
                took,
            } => status.meter.groups.note(commands, bytes, micros_of(took)),
            Point::Copied { blocks, took } => {
                status.meter.checkpoints.note(blocks, 0, micros_of(took));
            }
            Point::NoMemory => status.meter.shortages.add(1),
            Point::Waited { reason, took } => status.meter.note_wait(reason, took),
            Point::Append | Point::Step | Point::Answered => {}
        }
    }

    // Counts what has happened to a client.
    fn count_event(&self, event: &Event<'_>) {
        let Some(status) = self.status else {
            return;
        };
        match event {
            Event::Came { .. } => status.meter.came.add(1),
            Event::Left { .. } => status.meter.left.add(1),
            Event::Begun => status.meter.begun.add(1),
            Event::Served {
                client,
                head,
                refused,
                took,
                delay,
            } => status
                .meter
                .note_served(*client, head, *refused, *took, *delay),
            _ => {}
        }
    }

    fn tell_end(&self, client: u64, end: Result<(), End>, traffic: Traffic) {
        let Traffic {
            requests,
            bytes_read,
            bytes_written,
            most_in_progress,
        } = traffic;
        let way = way_out(end);
        if most_in_progress > 1 {
            self.tell(
                Topic::Left,
                format_args!(
                    "client {client} {way} after {requests} requests, at most {most_in_progress} in progress, {bytes_read} bytes read and {bytes_written} written"
                ),
            );
            return;
        }
        self.tell(
            Topic::Left,
            format_args!(
                "client {client} {way} after {requests} requests, {bytes_read} bytes read and {bytes_written} written"
            ),
        );
    }
}

/// Lines about a call of the device that failed; none is held back.
impl<'a, R: Wait + Clock> FileLines for ServerLog<'a, R> {
    fn tell_line<T: Display + Drop>(&self, line: T) {
        self.count_failure(format_args!("{line}"));
        self.say(line);
    }
}

/// What a server is watched by: its log, and what is printed on standard output once clients are served.
#[derive(Clone, Copy)]
pub struct ServerWatch<'a, 'b, R> {
    pub host: HostRuntime,
    pub log: ServerLog<'a, R>,
    pub announcement: &'b str,
    /// The name of the export.
    pub name: &'b [u8],
    pub guard: Option<&'b LockGuard<'b>>,
}

// It holds no thread.
impl<'a, 'b, R: Wait + Clock> SyncPoints for ServerWatch<'a, 'b, R> {
    fn reach(&mut self, at: Point) {
        self.log.count_point(at);
        match at {
            Point::Copied { blocks, took } => self.log.tell(
                Topic::Copied,
                format_args!("checkpoint of {blocks} blocks in {}", Seconds(took)),
            ),
            Point::NoMemory => self.log.tell(
                Topic::NoMemory,
                "no memory to store what was written, which is tried again",
            ),
            Point::Stored { .. }
            | Point::Append
            | Point::Step
            | Point::Waited { .. }
            | Point::Answered => {}
        }
    }
}

impl<'a, 'b, R: Wait + Clock> Watch for ServerWatch<'a, 'b, R> {
    fn announce(&self) -> io::Result<()> {
        let mut output = io::writer(&self.host);
        output.write_all(self.announcement.as_bytes())?;
        output.flush()?;
        notify(&self.host, "READY=1\nSTATUS=clients are served\n");
        Ok(())
    }

    fn note(&self, event: Event<'_>) {
        self.log.count_event(&event);
        match event {
            Event::Came { client, from } => {
                self.log.tell(
                    Topic::Came,
                    format_args!("client {client} came from {from}"),
                );
            }
            Event::Full { workers, when_full } => {
                let way = match when_full {
                    WhenFull::Wait => "wait",
                    WhenFull::Refuse => "are refused",
                };
                self.log.tell(
                    Topic::Full,
                    format_args!("all {workers} workers have a client, and further ones {way}"),
                );
            }
            Event::Unaccepted { error } => {
                self.log.tell(
                    Topic::Unaccepted,
                    format_args!("a client can't be accepted: {error}"),
                );
            }
            Event::Unagreed { name, .. } if name == self.name => {}
            Event::Unagreed { client, name } => {
                self.log.tell(
                    Topic::Misnamed,
                    format_args!("client {client} asked for another export, '{}'", Name(name)),
                );
            }
            Event::Agreed { client, flags } => {
                self.log.tell(
                    Topic::Agreed,
                    format_args!("client {client} agreed on {}", agreed(flags)),
                );
            }
            Event::Begun | Event::Served { .. } => {}
            Event::Left {
                client,
                end,
                traffic,
            } => self.log.tell_end(client, end, traffic),
        }
    }

    fn is_timed(&self) -> bool {
        self.log.status.is_some()
    }

    fn answerers(&self) -> u32 {
        match self.log.status {
            Some(_) => ANSWERERS,
            None => 0,
        }
    }

    fn answer<W: Watched>(&self, watched: &W) {
        if let Some(status) = self.log.status {
            status.answer(self.log.rt, watched);
        }
    }

    fn guards(&self) -> u32 {
        match self.guard {
            Some(_) => GUARDS,
            None => 0,
        }
    }

    fn guard<W: Watched>(&self, at: u32, watched: &W) {
        let Some(guard) = self.guard else {
            return;
        };
        if at == 0 {
            guard.cut_when_late(self.log.rt, watched);
        } else if let Err(error) = guard.check_on(self.log.rt, watched) {
            self.log.count_failure(format_args!("lock check: {error}"));
            self.log
                .tell(Topic::Unlocked, format_args!("lock check: {error}"));
        }
    }

    fn end_answers(&self) {
        notify(
            &self.host,
            "STOPPING=1\nSTATUS=no client is served any more\n",
        );
        if let Some(status) = self.log.status {
            status.end();
        }
        if let Some(guard) = self.guard {
            guard.watch.end_guards(self.log.rt);
        }
    }
}

// A name as a client has sent it, with a question mark for each byte that isn't of a plain letter, digit or sign.
#[derive(Clone, Copy)]
struct Name<'a>(&'a [u8]);

impl Display for Name<'_> {
    fn fmt<W: fmt::Write>(&self, f: &mut Formatter<W>) -> fmt::Result {
        for byte in self.0 {
            let letter = if byte.is_ascii_graphic() || *byte == b' ' {
                *byte
            } else {
                b'?'
            };
            write!(f, "{}", letter as char)?;
        }
        Ok(())
    }
}

fn agreed(flags: SessionFlags) -> &'static str {
    match (flags.structured, flags.context) {
        (true, true) => "structured replies and base:allocation",
        (true, false) => "structured replies",
        (false, _) => "simple replies",
    }
}

fn way_out(end: Result<(), End>) -> &'static str {
    match end {
        Ok(()) => "left",
        Err(End::PeerClosed) => "was gone, or its session ended from here,",
        Err(End::ProtocolEnd) => "was let go for what it sent",
        Err(End::IoFault) => "was cut off, or silent for too long,",
        Err(End::NoMemory) => "was let go for want of memory",
    }
}

// Seconds with three digits after the point.
#[derive(Drop)]
pub struct Seconds(pub Duration);

impl Display for Seconds {
    fn fmt<W: fmt::Write>(&self, f: &mut Formatter<W>) -> fmt::Result {
        write!(f, "{}.{:03} s", self.0.as_secs(), self.0.subsec_millis())
    }
}
