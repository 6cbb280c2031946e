//! A connection with several requests in progress. Its worker reads requests and begins them. Those that wait until something is stored
//! go to a second thread, which waits for them and writes their replies.
ghost use Rattle.std.specs.Prelude.{◌≡◌, ◌⊎◌, ◌++◌, [], true, OnErr, OnOk};
ghost use Rattle.nbd_wire.specs.Reply.{simple_text};
ghost use Rattle.nbd_wire.specs.declared.error.Errno.TheVariants as Errno;
ghost use Rattle.nbd_wire.specs.declared.message.Answer.{Answer};
ghost use Rattle.nbd_wire.specs.declared.message.Answer.TheVariants as Answer;

use crate::client::{Client, Input, Output};
use crate::name::ServerName;
use crate::request_handler::{RequestHandler, note_served};
use crate::session_pass::{SessionPass, WaitingSessionPass};
use crate::watch::Watch;
use disk_model::Disk;
use export::{Export, Point, ReadUnlocked, SyncPoints};
use marks::Trust;
use nbd_wire::{
    Answer, DataBuffers, Reply, Request, RequestHead, SessionFlags, StreamFault,
    encode_simple_reply, write_unflushed, write_whole,
};
use negotiation::{End, ServeInFlight, SharedOutput, Transmission};
use std::alloc::{AllocError, Global};
use std::cell::Cell;
use std::collections::VecDeque;
use std::net::Shutdown;
use std::rt::Clock;
use std::sync::atomic::{AtomicU32, Ordering};
use std::sync::{Condvar, CondvarTimeouts, Mutex, Wait};
use std::thread::{self, Scope, Threads};
use std::time::{Duration, Instant};

// The longest time, in microseconds, that requests are left to wait for others which may be stored together with them.
const LONGEST_GATHERING: u64 = 1_000;

// A request that waits until something is stored.
#[derive(Drop)]
struct WaitingRequest<B: ServerName, T: Trust> {
    pass: WaitingSessionPass<B, T>,
    head: RequestHead,
    // When it was read, if that is timed.
    began: Option<Instant>,
}

// The passes of a connection that no request has, and its requests that wait.
#[derive(Drop)]
struct Requests<B: ServerName, T: Trust> {
    idle: Vec<SessionPass<B>>,
    waiting: VecDeque<WaitingRequest<B, T>>,
    // Whether no request will come any more.
    has_ended: bool,
}

// What a client is sent, until that fails.
#[derive(Drop)]
struct Replies<'a, G: SyncPoints + Drop> {
    output: Output<'a>,
    points: G,
    is_broken: bool,
}

impl<'a, G: SyncPoints + Drop> Replies<'a, G> {
    // Writes what is due and these bytes after it.
    fn write(&mut self, due: &[u8], bytes: &[u8]) -> Result<(), StreamFault> {
        if self.is_broken {
            return Err(StreamFault);
        }
        let written = write_both(&mut self.output, due, bytes);
        match written {
            Ok(()) => self.points.reach(Point::Answered),
            Err(_) => self.is_broken = true,
        }
        written
    }
}

// Writes bytes and then others, so that they can go out together.
fn write_both(output: &mut Output<'_>, first: &[u8], second: &[u8]) -> Result<(), StreamFault> {
    if second.is_empty() {
        return write_whole(output, first);
    }
    write_unflushed(output, first)?;
    write_whole(output, second)
}

/// What the two threads of a connection share.
#[derive(Drop)]
pub(crate) struct InFlight<
    'a,
    B: ServerName,
    D: Disk,
    H: ReadUnlocked,
    T: Trust,
    R: Wait + Clock,
    G: SyncPoints + Watch + Copy,
> {
    rt: &'a R,
    alloc: Global,
    export: &'a Export<B, D, H, T>,
    client: &'a Client,
    client_number: u64,
    watch: G,
    requests: Mutex<Requests<B, T>>,
    // Told when a request waits, and when none will come any more.
    arrived: Condvar,
    // Told when a pass is idle again.
    returned: Condvar,
    replies: Mutex<Replies<'a, G>>,
    // How many requests wait.
    waiting_count: &'a AtomicU32,
    // How many passes there are besides the one that the reader begins with.
    others: usize,
}

impl<
    'a,
    B: ServerName,
    D: Disk,
    H: ReadUnlocked,
    T: Trust,
    R: Wait + Clock,
    G: SyncPoints + Watch + Copy,
> SharedOutput for InFlight<'a, B, D, H, T, R, G> {
    fn write(&self, due: &mut Vec<u8>, bytes: &[u8]) -> Result<(), StreamFault> {
        let written = self.replies.lock(self.rt).write(due, bytes);
        due.clear();
        written
    }
}

impl<
    'a,
    B: ServerName,
    D: Disk,
    H: ReadUnlocked,
    T: Trust,
    R: Wait + Clock,
    G: SyncPoints + Watch + Copy,
> InFlight<'a, B, D, H, T, R, G> {
    /// The connection of a handler's client, with these passes, of which each serves one request at a time.
    pub(crate) fn new(
        alloc: Global,
        handler: &RequestHandler<'a, B, D, H, T, R, G>,
        passes: Vec<SessionPass<B>>,
        waiting_count: &'a AtomicU32,
    ) -> Result<InFlight<'a, B, D, H, T, R, G>, Vec<SessionPass<B>>> {
        let others = passes.len();
        let waiting = match VecDeque::with_capacity(alloc, others) {
            Ok(waiting) => waiting,
            Err(_) => return Err(passes),
        };
        Ok(InFlight {
            rt: handler.rt,
            alloc,
            export: handler.export,
            client: handler.client,
            client_number: handler.number,
            watch: handler.watch,
            requests: Mutex::new(Requests {
                idle: passes,
                waiting,
                has_ended: false,
            }),
            arrived: Condvar::new(),
            returned: Condvar::new(),
            replies: Mutex::new(Replies {
                output: Output::new(alloc, handler.client),
                points: handler.watch,
                is_broken: false,
            }),
            waiting_count,
            others,
        })
    }

    /// The passes, after both threads have come to their end.
    pub(crate) fn into_passes(self) -> Vec<SessionPass<B>> {
        let Requests {
            idle,
            waiting: _,
            has_ended: _,
        } = self.requests.into_inner();
        idle
    }

    // Whether there is a pass besides the reader's.
    fn has_idle(&self) -> bool {
        !self.requests.lock(self.rt).idle.is_empty()
    }

    /// No request will come any more.
    pub(crate) fn end(&self) {
        self.requests.lock(self.rt).has_ended = true;
        self.arrived.notify_one();
    }

    /// Waits for the requests that wait and writes their replies, until no request will come any more and none waits. Those that one
    /// store has answered get their replies by one write. As many as there were then are likely to come next, so it waits a little
    /// for them.
    pub(crate) fn finish_all(&self) {
        let mut due = Vec::new(self.alloc);
        // How many requests the last store has answered, and how many of this one are answered so far.
        let (mut last, mut so_far) = (0usize, 0usize);
        let mut patience = Duration::ZERO;
        for _ in self.rt.forever() {
            let expected = if so_far == 0 { last } else { 0 };
            let Some(request) = self.next_waiting(expected, patience) else {
                break;
            };
            let began = Instant::now(self.rt).ok();
            let (pass, durable) = self.finish(request, &mut due);
            if so_far == 0 {
                patience = patience_after(self.rt, began);
            }
            so_far = so_far.saturating_add(1);
            self.give_back(pass);
            if !self.has_ready(durable) {
                self.write_late(&mut due);
                last = so_far;
                so_far = 0;
            }
        }
    }

    // Waits for a request that waits, and then for a while until as many wait as are expected; None if no request will come any more
    // and none waits.
    fn next_waiting(&self, expected: usize, patience: Duration) -> Option<WaitingRequest<B, T>> {
        let requests = self.requests.lock(self.rt);
        let is_idle = |requests: &mut Requests<B, T>| requests.waiting.is_empty()
            && !requests.has_ended;
        let mut requests = self.arrived.wait_while(self.rt, requests, is_idle);
        let is_short = move |requests: &mut Requests<B, T>| requests.waiting.len() < expected
            && !requests.has_ended;
        if is_short(&mut *requests) {
            requests = self
                .arrived
                .wait_timeout_while(self.rt, requests, patience, is_short)
                .0;
        }
        requests.waiting.pop_front()
    }

    // Waits until a request can be answered. Its reply is due then. Its pass, and the durable number that this then knows.
    fn finish(&self, request: WaitingRequest<B, T>, due: &mut Vec<u8>) -> (SessionPass<B>, u64)
        ensures { (due.new.items ≡ due.old.items) ⊎ ((answer : Answer) × (due.new.items ≡ due.old.items ++ simple_text request.pass.pass.cookie answer)) }
    {
        let WaitingRequest { pass, head, began } = request;
        let mut points = self.watch;
        let (pass, reply, durable) = pass.finish(self.rt, self.export, &mut points);
        if encode_late(&reply, due).is_err() {
            self.cut_off();
        }
        if let Some(began) = began {
            note_served(
                self.rt,
                self.watch,
                self.client_number,
                head,
                &reply,
                began,
                None,
            );
        }
        (pass, durable)
    }

    // Whether a request waits whose number is at most this.
    fn has_ready(&self, durable: u64) -> bool {
        match self.requests.lock(self.rt).waiting.front() {
            Some(request) => request.pass.number() <= durable,
            None => false,
        }
    }

    // Writes replies that have waited. If that fails, the session comes to its end.
    fn write_late(&self, due: &mut Vec<u8>) {
        if !due.is_empty() && self.write(due, &[]).is_err() {
            self.cut_off();
        }
    }

    // Ends the connection: its client can't get a reply.
    fn cut_off(&self) {
        self.client.shut_down(Shutdown::Both);
    }

    // A pass is idle.
    fn give_back(&self, pass: SessionPass<B>) {
        // (There is room for all passes.)
        let _ = self.requests.lock(self.rt).idle.push(pass);
        self.returned.notify_one();
        self.waiting_count.fetch_sub(1, Ordering::SeqCst);
    }

    // A request waits; a pass for the next one, if one is idle, and how many requests are in progress.
    fn push(&self, request: WaitingRequest<B, T>) -> (Option<SessionPass<B>>, usize) {
        self.waiting_count.fetch_add(1, Ordering::SeqCst);
        let mut requests = self.requests.lock(self.rt);
        // (There is room for a request of each pass.)
        let _ = requests.waiting.push_back(request);
        let busy = self.others.saturating_sub(requests.idle.len());
        let next = requests.idle.pop();
        drop(requests);
        self.arrived.notify_one();
        (next, busy.saturating_add(1))
    }

    // Waits for a pass that is idle.
    fn take_pass(&self) -> Option<SessionPass<B>> {
        let requests = self.requests.lock(self.rt);
        let is_busy = |requests: &mut Requests<B, T>| requests.idle.is_empty();
        let mut requests = self.returned.wait_while(self.rt, requests, is_busy);
        requests.idle.pop()
    }
}

// How long requests may wait for others, after a store that began then: an eighth of the time that it took.
fn patience_after<R: Clock>(rt: &R, began: Option<Instant>) -> Duration {
    let took = match began {
        Some(began) => began.elapsed(rt).unwrap_or(Duration::ZERO),
        None => Duration::ZERO,
    };
    (took / 8).min(Duration::from_micros(LONGEST_GATHERING))
}

// Appends the reply to a request that has waited: it brings no data.
fn encode_late(reply: &Reply, due: &mut Vec<u8>) -> Result<(), AllocError>
    requires no_data { (reply.now.answer ≡ Answer.Done) ⊎ (reply.now.answer ≡ Answer.Refused Errno.Io) }
    ensures ok { OnOk result (due.new.items ≡ due.old.items ++ simple_text reply.now.cookie reply.now.answer) }
    ensures err { OnErr result (due.new.items ≡ due.old.items) }
{
    let error = match &reply.answer {
        Answer::Refused(errno) => errno.number(),
        _ => 0,
    };
    encode_simple_reply(error, reply.cookie, &[], due)
}

/// Where the reader of a connection begins its requests.
#[derive(Drop)]
pub(crate) struct Reader<
    's,
    'a,
    B: ServerName,
    D: Disk,
    H: ReadUnlocked,
    T: Trust,
    R: Wait + Clock,
    G: SyncPoints + Watch + Copy,
> {
    handler: &'s RequestHandler<'a, B, D, H, T, R, G>,
    shared: &'s InFlight<'a, B, D, H, T, R, G>,
    // The pass of the next request, if it has one.
    pass: Cell<Option<SessionPass<B>>>,
    // Whether there is no second thread, so that requests are finished here.
    is_alone: bool,
    ghost several: { B.several ≡ true },
}

impl<
    's,
    'a,
    B: ServerName,
    D: Disk,
    H: ReadUnlocked,
    T: Trust,
    R: Wait + Clock,
    G: SyncPoints + Watch + Copy,
> Reader<'s, 'a, B, D, H, T, R, G> {
    pub(crate) fn new(
        handler: &'s RequestHandler<'a, B, D, H, T, R, G>,
        shared: &'s InFlight<'a, B, D, H, T, R, G>,
        pass: Option<SessionPass<B>>,
    ) -> Reader<'s, 'a, B, D, H, T, R, G>
        requires { B.several ≡ true }
    {
        Reader {
            handler,
            shared,
            pass: Cell::new(pass),
            is_alone: true,
        }
    }

    /// The pass that it has.
    fn into_pass(self) -> Option<SessionPass<B>> {
        self.pass.into_inner()
    }

    // Whether it has a pass for the next request.
    fn has_pass(&self) -> bool {
        let pass = self.pass.replace(None);
        let has = pass.is_some();
        self.pass.set(pass);
        has
    }

    // The pass for the next request; it may wait for it.
    fn take_pass(&self) -> Option<SessionPass<B>> {
        match self.pass.replace(None) {
            Some(pass) => Some(pass),
            None => self.shared.take_pass(),
        }
    }

    // A request waits: the second thread finishes it, if there is one.
    fn wait_for(&self, request: WaitingRequest<B, T>) {
        if !self.is_alone {
            let (next, in_progress) = self.shared.push(request);
            self.pass.set(next);
            self.handler.note_in_progress(in_progress);
            return;
        }
        let mut due = Vec::new(self.shared.alloc);
        let (pass, _durable) = self.shared.finish(request, &mut due);
        self.pass.set(Some(pass));
        self.shared.write_late(&mut due);
    }
}

impl<
    's,
    'a,
    B: ServerName,
    D: Disk,
    H: ReadUnlocked,
    T: Trust,
    R: Wait + Clock,
    G: SyncPoints + Watch + Copy,
> DataBuffers for Reader<'s, 'a, B, D, H, T, R, G> {
    fn take(&self, room: usize) -> Option<Vec<u8>> {
        self.handler.take(room)
    }
}

impl<
    's,
    'a,
    B: ServerName,
    D: Disk,
    H: ReadUnlocked,
    T: Trust,
    R: Wait + Clock,
    G: SyncPoints + Watch + Copy,
> ServeInFlight for Reader<'s, 'a, B, D, H, T, R, G> {
    fn expect(&self, requests: &[Request]) {
        self.handler.prefetch(requests);
    }

    fn may_hold_up(&self, head: &RequestHead) -> bool {
        self.is_alone || self.handler.may_hold_up(head) || !self.has_pass()
    }

    fn begin(&self, request: Request, flags: &SessionFlags) -> Option<Reply> {
        let head = request.head();
        self.handler.count(&request, flags);
        self.handler.wait_for_older(&head);
        let began = self.handler.time();
        let pass = self.take_pass()?;
        let request = self.handler.with_buffer(request);
        let mut points = self.shared.watch;
        match pass.begin(
            self.shared.rt,
            &mut points,
            self.shared.export,
            request,
            flags,
        ) {
            Ok((pass, reply)) => {
                self.pass.set(Some(pass));
                self.handler.end_served(head, &reply, began);
                Some(reply)
            }
            Err(pass) => {
                self.wait_for(WaitingRequest { pass, head, began });
                None
            }
        }
    }

    fn reuse(&self, reply: Reply) {
        self.handler.keep_buffer(reply);
    }
}

impl<
    'a,
    B: ServerName + Send + Sync,
    D: Disk + Send,
    H: ReadUnlocked + Send + Sync,
    T: Trust + Send + Sync,
    R: Wait + Clock + Sync,
    G: SyncPoints + Watch + Copy + Send + Sync,
> InFlight<'a, B, D, H, T, R, G> {
    // Starts the second thread, if there is a pass besides the reader's; whether there is one.
    fn start_finishing<'s, E>(&'s self, scope: &Scope<'s, E>) -> bool {
        if !self.has_idle() {
            return false;
        }
        scope.spawn(move || self.finish_all()).is_ok()
    }
}

/// A session whose requests its worker reads, beside a second thread that finishes those that wait.
#[derive(Drop)]
pub(crate) struct Reading<
    's,
    'a,
    B: ServerName,
    D: Disk,
    H: ReadUnlocked,
    T: Trust,
    R: Wait + Clock,
    G: SyncPoints + Watch + Copy,
> {
    pub transmission: Transmission,
    pub input: Input<'a>,
    pub shared: &'s InFlight<'a, B, D, H, T, R, G>,
    pub reader: Reader<'s, 'a, B, D, H, T, R, G>,
}

impl<
    's,
    'a,
    B: ServerName + Send + Sync,
    D: Disk + Send,
    H: ReadUnlocked + Send + Sync,
    T: Trust + Send + Sync,
    R: Wait + Clock + Sync,
    G: SyncPoints + Watch + Copy + Send + Sync,
> Reading<'s, 'a, B, D, H, T, R, G> {
    // Starts the second thread and reads the requests; and the pass that the reader has then.
    fn run<'e, E>(self, scope: &Scope<'e, E>) -> (Result<(), End>, Option<SessionPass<B>>)
    where
        's: 'e,
    {
        let Reading {
            transmission,
            mut input,
            shared,
            mut reader,
        } = self;
        reader.is_alone = !shared.start_finishing(scope);
        let ended = transmission.read_on(&mut input, shared, &reader);
        shared.end();
        (ended, reader.into_pass())
    }
}

/// Reads a session's requests to its end; and the pass that its reader has then.
pub(crate) fn read_all<'s, B, D, H, T, R, G>(
    rt: &R,
    reading: Reading<'s, '_, B, D, H, T, R, G>,
) -> (Result<(), End>, Option<SessionPass<B>>)
where
    B: ServerName + Send + Sync,
    D: Disk + Send,
    H: ReadUnlocked + Send + Sync,
    T: Trust + Send + Sync,
    R: Threads + Wait + Clock + Sync,
    G: SyncPoints + Watch + Copy + Send + Sync,
{
    thread::scope(thread::scope_env(), rt, move |scope| reading.run(scope))
}
