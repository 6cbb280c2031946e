ghost use Rattle.std.specs.Prelude.{◌≡◌, ◌≤◌, ◌<◌, ℕ, ◌-◌, [], true, length, nat_lt, vec_len, IsTrue};
ghost use Rattle.export.specs.Clients.{new_client_passes};
ghost use Rattle.export_model.specs.Log.{flush_waits};
ghost use Rattle.negotiation.specs.Answered.{offered};
ghost use Rattle.server.specs.Sessions.{AreServed, HasAll};
ghost use Rattle.server.specs.declared.worker.Sessions.TheVariants as Sessions;

use crate::asked::last_name;
use crate::client::{Client, Input, Output, WatchedOutput};
use crate::client_registry::{ClientRegistry, Session};
use crate::in_flight::{InFlight, Reader, Reading, read_all};
use crate::name::ServerName;
use crate::request_handler::RequestHandler;
use crate::session_pass::{LastSessionPass, NewPasses, RetiredSessionPass, SessionPass};
use crate::watch::{Event, Traffic, Watch, Watched};
use disk_model::Disk;
use export::{ClientPass, Export, ExportFigures, LastPass, ReadUnlocked, SyncPoints};
use front_end::{OnFault, ServeOptions, WhenFull};
use marks::Trust;
use negotiation::{End, OfferedName, Transmission};
use std::alloc::Global;
use std::cell::Cell;
use std::io::ErrorKind;
use std::mem;
use std::rt::Clock;
use std::sync::atomic::AtomicU32;
use std::sync::{Mutex, Wait};
use std::thread::Threads;

// How many sessions may still begin.
#[derive(Drop)]
enum Sessions {
    // Any number.
    Endless,
    // This many.
    Left(u64),
}

impl Sessions {
    // Whether another session may begin, which does.
    fn begin(&mut self) -> bool
        ensures endless { self.old ≡ Sessions.Endless → (result ≡ true) × (self.new ≡ Sessions.Endless) }
        ensures left { (left : ℕ) → self.old ≡ Sessions.Left left → (result ≡ nat_lt 0 left) × (self.new ≡ Sessions.Left (left - 1)) }
    {
        match self {
            Sessions::Endless => true,
            Sessions::Left(0) => false,
            Sessions::Left(left) => {
                *left -= 1;
                true
            }
        }
    }
}

/// The passes of a worker: one for each request that its client may have in progress.
#[derive(Drop)]
pub(crate) struct WorkerPasses<B: ServerName> {
    // None only while a session uses it.
    first: Option<SessionPass<B>>,
    others: Vec<SessionPass<B>>,
}

/// Where the workers of a server get their passes and their clients.
#[derive(Drop)]
pub(crate) struct WorkerPool<'a, B: ServerName> {
    alloc: Global,
    registry: &'a ClientRegistry,
    passes: Mutex<NewPasses<B>>,
    // The last pass, which the others join.
    last: Mutex<LastSessionPass<B>>,
    // The pass for `nbdj status --store`. It may wait, so figures are read by another.
    storing: Mutex<Option<RetiredSessionPass<B>>>,
    sessions: Mutex<Sessions>,
    // The passes that weren't retired yet.
    unretired: Mutex<usize>,
}

impl<'a, B: ServerName> WorkerPool<'a, B> {
    /// `sessions` is how many it serves, 0 for no limit. One of the passes is kept for `nbdj status --store`.
    pub(crate) fn new<D: Disk, H: ReadUnlocked, T: Trust, R: Wait>(
        rt: &R,
        alloc: Global,
        registry: &'a ClientRegistry,
        export: &Export<B, D, H, T>,
        passes: Vec<ClientPass<B>>,
        last: LastPass<B>,
        sessions: u64,
    ) -> WorkerPool<'a, B>
        requires few { vec_len passes ≤ 257 }
        requires passes { passes.items ≡ new_client_passes B.opening (length passes.items) }
        requires made { last.roster.made ≡ vec_len passes }
        requires none { last.roster.calls ≡ [] }
    {
        let last = LastSessionPass::new(last, passes.len());
        let mut passes = NewPasses::new(passes);
        let storing = match passes.take() {
            Some(pass) => Some(pass.leave(rt, export)),
            None => None,
        };
        let sessions = if sessions == 0 {
            Sessions::Endless
        } else {
            Sessions::Left(sessions)
        };
        let unretired = passes.len();
        WorkerPool {
            alloc,
            registry,
            passes: Mutex::new(passes),
            last: Mutex::new(last),
            storing: Mutex::new(storing),
            sessions: Mutex::new(sessions),
            unretired: Mutex::new(unretired),
        }
    }

    /// The passes of a worker that has none yet, and the slot for its clients. They are `count`, or one if memory is refused.
    pub(crate) fn take_passes<D: Disk, H: ReadUnlocked, T: Trust, R: Wait>(
        &self,
        rt: &R,
        export: &Export<B, D, H, T>,
        count: u32,
    ) -> Option<(usize, WorkerPasses<B>)> {
        let mut new = self.passes.lock(rt);
        let first = new.take()?;
        let mut others = Vec::new(self.alloc);
        let has_room = others.reserve(count as usize).is_ok();
        for _ in 1..count {
            let Some(pass) = new.take() else {
                break;
            };
            if !has_room {
                self.join(rt, export, pass);
            } else if let Err(refused) = others.push(pass) {
                self.join(rt, export, refused.value);
            }
        }
        let slot = new.len().checked_div(count as usize).unwrap_or(0);
        let first = Some(first);
        Some((slot, WorkerPasses { first, others }))
    }

    /// Takes back the passes of a slot whose worker takes no more clients; whether they were the last ones.
    pub(crate) fn retire<D: Disk, H: ReadUnlocked, T: Trust, R: Wait>(
        &self,
        rt: &R,
        export: &Export<B, D, H, T>,
        slot: usize,
        passes: WorkerPasses<B>,
    ) -> bool {
        self.registry.retire(rt, slot);
        let WorkerPasses { first, others } = passes;
        let mut others = others;
        if let Some(pass) = first {
            self.join(rt, export, pass);
        }
        while let Some(pass) = others.pop() {
            self.join(rt, export, pass);
        }
        *self.unretired.lock(rt) == 0
    }

    // A pass joins the last one.
    fn join<D: Disk, H: ReadUnlocked, T: Trust, R: Wait>(
        &self,
        rt: &R,
        export: &Export<B, D, H, T>,
        pass: SessionPass<B>,
    ) {
        let left = pass.leave(rt, export);
        self.last.lock(rt).join(export, left);
        let mut unretired = self.unretired.lock(rt);
        *unretired = unretired.saturating_sub(1);
    }

    /// The figures of an export, which the last pass learns from.
    pub(crate) fn figures<D: Disk, H: ReadUnlocked, T: Trust, R: Wait + Clock>(
        &self,
        rt: &R,
        export: &Export<B, D, H, T>,
    ) -> ExportFigures {
        self.last.lock(rt).figures(rt, export)
    }

    /// Where the clients arrive.
    pub(crate) fn registry(&self) -> &'a ClientRegistry {
        self.registry
    }

    /// The last pass, and whether all others have joined it. What the log has of the clients that did comes from sessions.
    pub(crate) fn into_last<D: Disk, H: ReadUnlocked, T: Trust>(
        self,
        export: &Export<B, D, H, T>,
    ) -> (LastPass<B>, bool)
        ensures served { ∥ AreServed B.offer B.geometry B.several result.0.roster.calls ∥₁ }
        ensures all { IsTrue result.1 → HasAll result.0.roster }
    {
        let mut last = self.last.into_inner();
        if let Some(storing) = self.storing.into_inner() {
            last.join(export, storing);
        }
        last.into_last()
    }

    // Whether another session may begin, which does.
    fn begin<R: Wait>(&self, rt: &R) -> bool {
        self.sessions.lock(rt).begin()
    }
}

// What a session notes while it lasts: what was asked for, whether what is written are replies, the buffer of its last short READ, how
// many of its requests wait while it goes on, and how many READs had found blocks missing.
#[derive(Drop)]
struct SessionNotes {
    traffic: Cell<Traffic>,
    is_replying: Cell<bool>,
    buffer: Cell<Option<Vec<u8>>>,
    waiting_count: AtomicU32,
    misses: Cell<u64>,
}

/// What a thread of a server does.
#[derive(Clone, Copy)]
pub(crate) enum Task {
    Flush,
    Checkpoint,
    Work,
    /// Answers those that ask for figures.
    Answer,
    /// Guards the device, as the guard of this number.
    Guard(u32),
    // Accepts the clients of the listener at this place.
    Accept(usize),
}

impl<
    'a,
    B: ServerName,
    D: Disk,
    H: ReadUnlocked,
    T: Trust,
    R: Wait + Clock,
    G: SyncPoints + Copy,
> Watched for Server<'a, B, D, H, T, R, G> {
    fn figures(&self) -> ExportFigures {
        self.pool.figures(self.rt, self.export)
    }

    fn store(&self) -> Option<u64> {
        let mut storing = self.pool.storing.lock(self.rt);
        let pass = storing.as_mut()?;
        let mut points = self.watch;
        pass.store(self.rt, self.export, &mut points)
    }

    fn fail(&self) {
        self.export.fail(self.rt);
    }

    fn cut_off(&self) {
        self.pool.registry.cut_off(self.rt);
    }
}

/// What the threads of a server have in common.
#[derive(Drop)]
pub(crate) struct Server<'a, B: ServerName, D: Disk, H: ReadUnlocked, T: Trust, R, G> {
    pub rt: &'a R,
    pub pool: &'a WorkerPool<'a, B>,
    pub export: &'a Export<B, D, H, T>,
    pub options: ServeOptions,
    // The name that clients ask for the export by.
    pub name: OfferedName<'a>,
    pub watch: G,
    pub ghost offers: { offered export.now.geometry name.bytes.now (flush_waits export.now.mode) ≡ B.offer },
    pub ghost several: { nat_lt 1 options.in_flight ≡ B.several },
}

impl<
    'a,
    B: ServerName + Send + Sync,
    D: Disk + Send,
    H: ReadUnlocked + Send + Sync,
    T: Trust + Send + Sync,
    R: Threads + Wait + Clock + Sync,
    G: SyncPoints + Watch + Copy + Send + Sync,
> Server<'a, B, D, H, T, R, G> {
    /// Does a task to its end.
    pub(crate) fn run(&self, task: Task) {
        let mut watch = self.watch;
        match task {
            Task::Flush => {
                self.export.flusher(self.rt, &mut watch);
                // Once a call of the device has failed, the sessions are ended where the server isn't to stay.
                if self.options.on_fault == OnFault::Exit && self.export.is_stopped(self.rt) {
                    self.pool.registry.close(self.rt);
                }
            }
            Task::Checkpoint => self.export.checkpointer(self.rt, &mut watch),
            Task::Work => self.work(),
            Task::Answer => self.watch.answer(self),
            Task::Guard(at) => self.watch.guard(at, self),
            Task::Accept(at) => self.accept(at),
        }
    }

    // Accepts the clients of a listener until the registry is closed.
    fn accept(&self, at: usize) {
        let registry = self.pool.registry;
        for _ in self.rt.forever() {
            if registry.is_closed() {
                break;
            }
            match registry.accept(at) {
                Ok(client) => self.bring(client),
                Err(error) if error.kind() == ErrorKind::WouldBlock || registry.is_closed() => {}
                Err(error) => {
                    self.watch.note(Event::Unaccepted { error: &error });
                    registry.pause(self.rt);
                }
            }
        }
    }

    // Brings a client to a worker: at once if one is free, and else as the options say.
    fn bring(&self, client: Client) {
        if let Some(limit) = self.options.limits.keepalive() {
            client.drop_if_silent(limit);
        }
        let registry = self.pool.registry;
        if let Err(client) = registry.offer(self.rt, client) {
            let ServeOptions {
                workers,
                when_full,
                ..
            } = self.options;
            self.watch.note(Event::Full { workers, when_full });
            if when_full == WhenFull::Wait {
                registry.hand_over(self.rt, client);
            }
        }
    }

    // Serves one client after another in a slot of the registry, until that is closed or no session may begin any more. A session
    // that ends by a refusal counts, and is no end.
    fn work(&self) {
        let count = self.options.in_flight;
        let Some((slot, mut passes)) = self.pool.take_passes(self.rt, self.export, count) else {
            return;
        };
        let registry = self.pool.registry;
        for _ in self.rt.forever() {
            if registry.is_closed() || !self.pool.begin(self.rt) {
                break;
            }
            if let Some(session) = registry.next_session(self.rt, self.pool.alloc, slot) {
                self.receive(&mut passes, &session);
                registry.leave(self.rt, slot);
            }
        }
        self.retire(slot, passes);
    }

    /// Takes passes back. After the last ones nobody asks for figures any more.
    pub(crate) fn retire(&self, slot: usize, passes: WorkerPasses<B>) {
        if self.pool.retire(self.rt, self.export, slot, passes) {
            self.watch.end_answers();
        }
    }

    // Serves a client, and stores what is pending before the client is let go.
    fn receive(&self, passes: &mut WorkerPasses<B>, session: &Session) {
        self.watch.note(Event::Came {
            client: session.number,
            from: &session.client,
        });
        let told = SessionNotes {
            traffic: Cell::new(Traffic {
                requests: 0,
                bytes_read: 0,
                bytes_written: 0,
                most_in_progress: 0,
            }),
            is_replying: Cell::new(false),
            buffer: Cell::new(None),
            waiting_count: AtomicU32::new(0),
            misses: Cell::new(0),
        };
        let end = self.serve_client(passes, session, &told);
        let mut points = self.watch;
        if let Some(pass) = &mut passes.first {
            pass.flush(self.rt, self.export, &mut points);
        }
        self.watch.note(Event::Left {
            client: session.number,
            end,
            traffic: told.traffic.get(),
        });
    }

    // Serves a client from the first byte to the last.
    fn serve_client(
        &self,
        passes: &mut WorkerPasses<B>,
        session: &Session,
        told: &SessionNotes,
    ) -> Result<(), End> {
        let client = &session.client;
        let limits = self.options.limits;
        let Ok(()) = client.limit_wait(limits.handshake()) else {
            return Err(End::IoFault);
        };
        let handler = RequestHandler {
            rt: self.rt,
            export: self.export,
            client,
            number: session.number,
            traffic: &told.traffic,
            watch: self.watch,
            idle_limit: limits.idle(),
            loss_age: limits.loss_age(),
            is_replying: &told.is_replying,
            has_agreed: &session.has_agreed,
            name: self.name,
            buffer: &told.buffer,
            misses: &told.misses,
        };
        let mut output = WatchedOutput {
            inner: Output::new(self.pool.alloc, client),
            is_replying: &told.is_replying,
            points: self.watch,
        };
        let mut input = Input {
            client,
            registry: self.pool.registry,
            waiting_count: &told.waiting_count,
            is_replying: &told.is_replying,
            heard: Vec::new(self.pool.alloc),
        };
        let end = if self.options.in_flight > 1 {
            self.serve_in_flight(passes, &mut input, &mut output, &handler, told)
        } else {
            match &mut passes.first {
                Some(pass) => pass.serve(self.pool.alloc, &mut input, &mut output, &handler),
                None => Err(End::NoMemory),
            }
        };
        if !told.is_replying.get() {
            if let Some(name) = last_name(&input.heard) {
                self.watch.note(Event::Unagreed {
                    client: session.number,
                    name,
                });
            }
        }
        end
    }

    // Serves a client that may have several requests in progress. A second thread finishes those that wait. Without memory for that they
    // are finished here, one after another.
    fn serve_in_flight<'b>(
        &self,
        passes: &mut WorkerPasses<B>,
        input: &mut Input<'b>,
        output: &mut WatchedOutput<'_, Output<'_>, G>,
        handler: &RequestHandler<'b, B, D, H, T, R, G>,
        told: &'b SessionNotes,
    ) -> Result<(), End>
        requires { 1 < self.now.options.in_flight }
    {
        let alloc = self.pool.alloc;
        let transmission = Transmission::after_handshake(alloc, input, output, handler)?;
        let others = mem::replace(&mut passes.others, Vec::new(alloc));
        let first = mem::replace(&mut passes.first, None);
        let shared = match InFlight::new(alloc, handler, others, &told.waiting_count) {
            Ok(shared) => shared,
            Err(others) => {
                passes.others = others;
                passes.first = first;
                return Err(End::NoMemory);
            }
        };
        let reader = Reader::new(handler, &shared, first);
        let reading = Reading {
            transmission,
            input: input.for_requests(alloc),
            shared: &shared,
            reader,
        };
        let (ended, first) = read_all(self.rt, reading);
        let mut idle = shared.into_passes();
        passes.first = match first {
            Some(pass) => Some(pass),
            None => idle.pop(),
        };
        passes.others = idle;
        ended
    }
}
