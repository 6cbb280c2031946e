ghost use Rattle.std.specs.Prelude.{◌≡◌, ◌++◌, ◌∷◌, []};
ghost use Rattle.export.specs.Submits.{IsJudged, IsSubmitted};
ghost use Rattle.export_model.specs.Log.{flush_waits};
ghost use Rattle.export_model.specs.Verdict.{verdict};
ghost use Rattle.export_model.specs.declared.event.Event.TheVariants as LogEvent;
ghost use Rattle.image_model.specs.Image.{apply_all};
ghost use Rattle.shared_store.specs.Answers.{TellsImage};
ghost use Rattle.shared_store.specs.Orders.{Trusting};

use crate::client::Client;
use crate::watch::{Event, Traffic, Watch};
use bitflags::Flags;
use disk_model::Disk;
use export::{ClientPass, Export, ExportName, ReadUnlocked, SyncPoints};
use export_model::Mode;
use image_model::Geometry;
use marks::Trust;
use nbd_wire::{
    Answer, BLOCK_STATUS, CommandFlags, DataBuffers, FLUSH, READ, Reply, Request, RequestHead,
    SessionFlags, TRIM, WRITE, WRITE_ZEROES,
};
use negotiation::{OfferedName, Serve};
use std::cell::Cell;
use std::rt::Clock;
use std::sync::Wait;
use std::sync::atomic::{AtomicBool, Ordering};
use std::time::{Duration, Instant};

// A READ of this many bytes or more takes a buffer that the export keeps, if there is one. Shorter ones use one of their connection.
const LONG_READ: u32 = 65_536;

/// Where a client's requests are submitted to an export.
#[derive(Drop)]
pub struct RequestHandler<
    'a,
    B: ExportName,
    D: Disk,
    H: ReadUnlocked,
    T: Trust,
    R: Wait + Clock,
    L: SyncPoints + Watch + Copy,
> {
    pub rt: &'a R,
    pub export: &'a Export<B, D, H, T>,
    pub client: &'a Client,
    // The client's number.
    pub number: u64,
    // What the client has asked for.
    pub traffic: &'a Cell<Traffic>,
    pub watch: L,
    // How long the client may say nothing once its handshake is over; None for no end.
    pub idle_limit: Option<Duration>,
    // How old a pending command may be when a write is accepted; None for no end.
    pub loss_age: Option<Duration>,
    // Whether what is written to the client is replies.
    pub is_replying: &'a Cell<bool>,
    // Whether its handshake is over, for other threads.
    pub has_agreed: &'a AtomicBool,
    // The name that clients ask for the export by.
    pub name: OfferedName<'a>,
    // The buffer of the last short READ, for the next one.
    pub buffer: &'a Cell<Option<Vec<u8>>>,
    // How many READs of all clients had found blocks missing when requests came last.
    pub misses: &'a Cell<u64>,
}

impl<
    'a,
    B: ExportName,
    D: Disk,
    H: ReadUnlocked,
    T: Trust,
    R: Wait + Clock,
    L: SyncPoints + Watch + Copy,
> DataBuffers for RequestHandler<'a, B, D, H, T, R, L> {
    fn take(&self, room: usize) -> Option<Vec<u8>> {
        self.export.data_buffer(self.rt, room)
    }
}

impl<
    'a,
    B: ExportName,
    D: Disk,
    H: ReadUnlocked,
    T: Trust,
    R: Wait + Clock,
    L: SyncPoints + Watch + Copy,
> Serve<ClientPass<B>> for RequestHandler<'a, B, D, H, T, R, L> {
    ghost allows = { λ handler pass request flags next reply. IsSubmitted B.opening B.image (Trusting B.opening B.image B.vouches B.trusted) request handler.export.now.mode pass next reply.answer
        × IsJudged (verdict request.head handler.export.now.geometry flags) request reply.answer
        × (Trusting B.opening B.image B.vouches B.trusted (TellsImage (apply_all next.history B.image) request.head reply.answer))
        × (next.client.by ≡ pass.client.by)
        × (next.client.mine ≡ pass.client.mine ++ LogEvent.Sent pass.client.by request ∷ LogEvent.Answered pass.client.by reply.answer ∷ []) };

    ghost extent = { λ handler. handler.export.now.geometry };

    ghost name = { λ handler. handler.name.bytes.now };

    ghost flushes = { λ handler. flush_waits handler.export.now.mode };

    fn geometry(&self) -> Geometry {
        self.export.geometry
    }

    fn name(&self) -> OfferedName<'_> {
        self.name
    }

    fn flushes(&self) -> bool {
        self.export.mode != Mode::Ordered
    }

    fn may_wait(&self, head: &RequestHead) -> bool {
        self.waits_for_store(head) || self.may_hold_up(head)
    }

    fn expect(&self, requests: &[Request]) {
        self.prefetch(requests);
    }

    fn handshake_is_over(&self) {
        self.is_replying.set(true);
        self.has_agreed.store(true, Ordering::SeqCst);
        // Where the limit can't be changed, that of the handshake stays.
        let _ = self.client.limit_wait(self.idle_limit);
    }

    fn serve(&self, pass: &mut ClientPass<B>, request: Request, flags: &SessionFlags) -> Reply {
        let head = request.head();
        self.count(&request, flags);
        self.wait_for_older(&head);
        let began = self.time();
        let mut points = self.watch;
        let request = self.with_buffer(request);
        let reply = self
            .export
            .submit(self.rt, &mut points, pass, request, flags);
        self.end_served(head, &reply, began);
        reply
    }

    fn reuse(&self, reply: Reply) {
        self.keep_buffer(reply);
    }
}

impl<
    'a,
    B: ExportName,
    D: Disk,
    H: ReadUnlocked,
    T: Trust,
    R: Wait + Clock,
    L: SyncPoints + Watch + Copy,
> RequestHandler<'a, B, D, H, T, R, L> {
    // Has the system begin to read for the READs after the first, if one has found blocks missing lately.
    pub(crate) fn prefetch(&self, requests: &[Request]) {
        let misses = self.export.misses();
        if misses == self.misses.replace(misses) {
            return;
        }
        for request in requests.iter().skip(1) {
            let head = request.head();
            if head.kind == READ {
                self.export.prefetch(&head);
            }
        }
    }

    // When a request is begun, where that matters. That it is in progress is told then.
    pub(crate) fn time(&self) -> Option<Instant> {
        if self.watch.is_timed() || self.loss_age.is_some() {
            let now = Instant::now(self.rt).ok()?;
            self.watch.note(Event::Begun);
            return Some(now);
        }
        None
    }

    // So many requests are in progress.
    pub(crate) fn note_in_progress(&self, count: usize) {
        let mut traffic = self.traffic.get();
        traffic.most_in_progress = traffic.most_in_progress.max(count);
        self.traffic.set(traffic);
    }

    // Whether a write with this head may wait while another one is pending for too long.
    pub(crate) fn may_hold_up(&self, head: &RequestHead) -> bool {
        self.loss_age.is_some() && is_write(head)
    }

    // A request has its reply: its client may be slowed down, and the request is told.
    pub(crate) fn end_served(&self, head: RequestHead, reply: &Reply, began: Option<Instant>) {
        let delay = self.slow_down(&head, began);
        if let Some(began) = began {
            note_served(self.rt, self.watch, self.number, head, reply, began, delay);
        }
    }

    // Keeps the buffer of a reply that isn't needed any more.
    pub(crate) fn keep_buffer(&self, reply: Reply) {
        if let Some(buffer) = self.export.reuse(self.rt, reply) {
            self.buffer.set(Some(buffer));
        }
    }

    // The same request. A READ gets the buffer of the one before it, if that is long enough, or a long one from the export: its bytes
    // are copied into the memory that it brings, so no memory for them is taken under the order's lock.
    pub(crate) fn with_buffer(&self, request: Request) -> Request
        ensures { result ≡ request }
    {
        let head = request.head();
        if head.kind != READ {
            return request;
        }
        let kept = if head.length < LONG_READ {
            self.buffer.replace(None)
        } else {
            self.export.data_buffer(self.rt, head.length as usize)
        };
        let Some(mut buffer) = kept else {
            return request;
        };
        if buffer.capacity() < head.length as usize {
            return request;
        }
        let (head, _none) = request.into_parts();
        buffer.clear();
        Request::new(head, buffer)
    }

    // Whether a request with this head is answered once something is stored.
    fn waits_for_store(&self, head: &RequestHead) -> bool {
        let fua = CommandFlags::FUA.bits();
        match (self.export.mode, head.kind) {
            (_, READ | BLOCK_STATUS) | (Mode::Ordered, _) => false,
            (_, FLUSH) | (Mode::Writethrough, _) => true,
            (Mode::Writeback, _) => head.flags & fua == fua,
        }
    }

    // Has a write wait while another one is pending for too long.
    pub(crate) fn wait_for_older(&self, head: &RequestHead) {
        match self.loss_age {
            Some(limit) if is_write(head) => {
                let mut watch = self.watch;
                self.export.wait_while_older(self.rt, &mut watch, limit);
            }
            _ => {}
        }
    }

    // Slows a client down that writes faster than the journal is copied; for how long, where it did. It also notes since when a
    // command may be pending that was answered before it was stored.
    fn slow_down(&self, head: &RequestHead, began: Option<Instant>) -> Option<Duration> {
        if self.waits_for_store(head) {
            return None;
        }
        match (head.kind, began) {
            (WRITE, _) => self.export.throttle(self.rt, head.length, began),
            (TRIM | WRITE_ZEROES, Some(began)) => {
                self.export.note_pending(self.rt, began);
                None
            }
            _ => None,
        }
    }

    // Counts a request, and tells of the first one.
    pub(crate) fn count(&self, request: &Request, flags: &SessionFlags) {
        let mut traffic = self.traffic.get();
        if traffic.requests == 0 {
            self.watch.note(Event::Agreed {
                client: self.number,
                flags: *flags,
            });
        }
        let head = request.head();
        traffic.requests = traffic.requests.saturating_add(1);
        match head.kind {
            READ => {
                traffic.bytes_read = traffic.bytes_read.saturating_add(u64::from(head.length));
            }
            WRITE => {
                traffic.bytes_written = traffic
                    .bytes_written
                    .saturating_add(u64::from(head.length));
            }
            _ => {}
        }
        self.traffic.set(traffic);
    }
}

// Tells of a request that has its answer.
pub(crate) fn note_served<R: Clock, L: Watch + Copy>(
    rt: &R,
    watch: L,
    client: u64,
    head: RequestHead,
    reply: &Reply,
    began: Instant,
    delay: Option<Duration>,
) {
    let refused = match &reply.answer {
        Answer::Refused(errno) => Some(*errno),
        _ => None,
    };
    watch.note(Event::Served {
        client,
        head,
        refused,
        took: began.elapsed(rt).unwrap_or(Duration::ZERO),
        delay,
    });
}

// Whether a request with this head asks for a write command.
fn is_write(head: &RequestHead) -> bool {
    matches!(head.kind, WRITE | TRIM | WRITE_ZEROES)
}
