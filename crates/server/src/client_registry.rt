use crate::client::Client;
use crate::listener::Listener;
use std::alloc::{AllocError, Global};
use std::collections::VecDeque;
use std::net::Shutdown;
use std::rt::Clock;
use std::sync::atomic::{AtomicBool, AtomicU64, Ordering};
use std::sync::{Arc, Condvar, CondvarTimeouts, Mutex, Wait};
use std::time::{Duration, Instant};
use std::{io, thread};

// Milliseconds until the next client is accepted, if one couldn't be.
const PAUSE: u64 = 10;

// Seconds for which a client may take the answers to what it has sent, once its session is to end.
const GRACE: u64 = 5;

// Seconds that a handshake may last while another client has no worker.
const HANDSHAKE: u64 = 1;

/// A client that a worker serves.
#[derive(Drop)]
pub(crate) struct Session {
    pub client: Client,
    /// How many clients had come with this one.
    pub number: u64,
    /// Whether its handshake is over.
    pub has_agreed: AtomicBool,
    // When it began, if the clock could be read.
    began: Option<Instant>,
    // Whether it was ended so that its worker can serve another client.
    is_ended: AtomicBool,
}

impl Session {
    // How long its handshake may go on while another client has no worker; None if the session isn't in its handshake.
    fn time_left<R: Clock>(&self, rt: &R) -> Option<Duration> {
        if self.has_agreed.load(Ordering::SeqCst) || self.is_ended() {
            return None;
        }
        let lasted = self.began?.elapsed(rt).unwrap_or(Duration::ZERO);
        Some(Duration::from_secs(HANDSHAKE).saturating_sub(lasted))
    }

    fn is_ended(&self) -> bool {
        self.is_ended.load(Ordering::SeqCst)
    }

    fn end(&self) {
        self.is_ended.store(true, Ordering::SeqCst);
        self.client.shut_down(Shutdown::Both);
    }
}

// What a worker does.
#[derive(Drop)]
enum WorkerState {
    // It waits for a client.
    Free,
    Serves(Arc<Session, Global>),
    // It serves nobody any more.
    Gone,
}

impl WorkerState {
    // Whether the worker takes another client at once.
    fn is_free(&self) -> bool {
        match self {
            WorkerState::Free => true,
            WorkerState::Serves(session) => session.is_ended(),
            WorkerState::Gone => false,
        }
    }

    fn is_gone(&self) -> bool {
        matches!(self, WorkerState::Gone)
    }

    fn session(&self) -> Option<&Session> {
        match self {
            WorkerState::Serves(session) => Some(session),
            WorkerState::Free | WorkerState::Gone => None,
        }
    }
}

// The workers, and the clients on their way to them.
#[derive(Drop)]
struct Places {
    workers: Vec<WorkerState>,
    // Accepted clients that no worker has taken yet: at most one for each free worker.
    waiting: VecDeque<Client>,
}

impl Places {
    fn set(&mut self, slot: usize, state: WorkerState) {
        if let Some(worker) = self.workers.get_mut(slot) {
            *worker = state;
        }
    }

    // Whether a worker takes one more client at once. If none is free, a handshake that has lasted too long is ended for that.
    fn make_room<R: Clock>(&self, rt: &R) -> bool {
        let free = self.workers.iter().filter(|place| place.is_free()).count();
        if free > self.waiting.len() {
            return true;
        }
        for place in &self.workers {
            if let Some(session) = place.session() {
                if session.time_left(rt) == Some(Duration::ZERO) {
                    session.end();
                    return true;
                }
            }
        }
        false
    }

    // How long it is until a handshake can be ended for another client; None if none is going on.
    fn next_end<R: Clock>(&self, rt: &R) -> Option<Duration> {
        let mut next = None;
        for place in &self.workers {
            if let Some(left) = place.session().and_then(|session| session.time_left(rt)) {
                next = match next {
                    Some(sooner) if sooner < left => Some(sooner),
                    _ => Some(left),
                };
            }
        }
        next
    }

    // Shuts down the sockets of all that are served.
    fn shut_down_all(&self, how: Shutdown) {
        for place in &self.workers {
            if let Some(session) = place.session() {
                session.client.shut_down(how);
            }
        }
    }
}

// A socket at which clients arrive, and a handle of it that wakes the thread that waits there.
#[derive(Drop)]
struct Door {
    listener: Listener,
    wake: Option<Client>,
}

/// The clients that arrive and are served, until it is closed.
#[derive(Drop)]
pub(crate) struct ClientRegistry {
    doors: Vec<Door>,
    places: Mutex<Places>,
    // How many clients have come.
    count: AtomicU64,
    // Told when a client waits for a worker.
    came: Condvar,
    // Told when a worker has taken a client, or is free.
    changed: Condvar,
    is_closed: AtomicBool,
}

impl ClientRegistry {
    /// For the clients of these listeners, with `workers` workers.
    pub(crate) fn new(
        alloc: Global,
        listeners: Vec<Listener>,
        workers: u32,
    ) -> io::Result<ClientRegistry> {
        let mut doors = Vec::with_capacity(alloc, listeners.len())?;
        for listener in listeners {
            let wake = listener.shutdown_handle()?;
            doors.push(Door { listener, wake })?;
        }
        Ok(ClientRegistry {
            doors,
            places: Mutex::new(free_places(alloc, workers)?),
            count: AtomicU64::new(0),
            came: Condvar::new(),
            changed: Condvar::new(),
            is_closed: AtomicBool::new(false),
        })
    }

    /// How many listeners there are.
    pub(crate) fn doors(&self) -> usize {
        self.doors.len()
    }

    /// Waits for the next client of a listener. If none could be accepted, it has gone, too many files are open, or the registry is
    /// closed.
    pub(crate) fn accept(&self, at: usize) -> io::Result<Client> {
        match self.doors.get(at) {
            Some(door) => door.listener.accept(),
            None => Err(io::Error::from(io::ErrorKind::NotFound)),
        }
    }

    /// Waits a little before the next client, because one couldn't be accepted.
    pub(crate) fn pause<R: Clock>(&self, rt: &R) {
        thread::sleep(rt, Duration::from_millis(PAUSE));
    }

    /// Whether no client is served any more.
    pub(crate) fn is_closed(&self) -> bool {
        self.is_closed.load(Ordering::SeqCst)
    }

    /// Hands a client to a worker, and back if none takes it at once.
    pub(crate) fn offer<R: Wait + Clock>(&self, rt: &R, client: Client) -> Result<(), Client> {
        let mut places = self.places.lock(rt);
        if !self.is_closed() {
            if !places.make_room(rt) {
                return Err(client);
            }
            self.queue(&mut *places, client);
        }
        Ok(())
    }

    /// Hands a client to a worker, for which it may wait. While it waits, a handshake that has lasted for a second is ended.
    pub(crate) fn hand_over<R: Wait + Clock>(&self, rt: &R, client: Client) {
        let mut places = self.places.lock(rt);
        for _ in rt.forever() {
            if self.is_closed() || places.make_room(rt) {
                break;
            }
            places = match places.next_end(rt) {
                Some(time) => self.changed.wait_timeout(rt, places, time).0,
                None => self.changed.wait(rt, places),
            };
        }
        if !self.is_closed() {
            self.queue(&mut *places, client);
        }
    }

    // A client waits for the next worker that is free.
    fn queue(&self, places: &mut Places, client: Client) {
        // (There is room for one client a worker.)
        let _ = places.waiting.push_back(client);
        self.came.notify_one();
    }

    /// Waits for a client, which the worker of this slot serves then. There is none if the registry is closed, or without memory.
    pub(crate) fn next_session<R: Wait + Clock>(
        &self,
        rt: &R,
        alloc: Global,
        slot: usize,
    ) -> Option<Arc<Session, Global>> {
        let places = self.places.lock(rt);
        let is_idle = |places: &mut Places| places.waiting.is_empty() && !self.is_closed();
        let mut places = self.came.wait_while(rt, places, is_idle);
        let client = places.waiting.pop_front()?;
        let session = Session {
            client,
            number: self.count.fetch_add(1, Ordering::SeqCst).wrapping_add(1),
            has_agreed: AtomicBool::new(false),
            began: Instant::now(rt).ok(),
            is_ended: AtomicBool::new(false),
        };
        let session = Arc::new(alloc, session).ok()?;
        let served = Arc::try_clone(&session).ok()?;
        places.set(slot, WorkerState::Serves(served));
        self.changed.notify_all();
        Some(session)
    }

    /// The worker of this slot serves nobody any more until it takes another client.
    pub(crate) fn leave<R: Wait>(&self, rt: &R, slot: usize) {
        self.places.lock(rt).set(slot, WorkerState::Free);
        self.changed.notify_all();
    }

    /// The worker of this slot takes no more clients. Once none does, the registry is closed.
    pub(crate) fn retire<R: Wait>(&self, rt: &R, slot: usize) {
        let mut places = self.places.lock(rt);
        places.set(slot, WorkerState::Gone);
        if places.workers.iter().all(|place| place.is_gone()) {
            self.refuse_more(&mut *places);
        }
    }

    // Takes no more clients, and lets those go that no worker has taken.
    fn refuse_more(&self, places: &mut Places) {
        self.is_closed.store(true, Ordering::SeqCst);
        for door in &self.doors {
            if let Some(wake) = &door.wake {
                wake.shut_down(Shutdown::Both);
            }
        }
        places.waiting.clear();
        self.came.notify_all();
        self.changed.notify_all();
    }

    /// Takes no more clients, and cuts those off that are served.
    pub(crate) fn cut_off<R: Wait>(&self, rt: &R) {
        let mut places = self.places.lock(rt);
        self.refuse_more(&mut *places);
        places.shut_down_all(Shutdown::Both);
    }

    /// Takes no more clients, and ends the input of those that are served. What they have sent is answered first; one that takes
    /// no answer is let go after a while.
    pub(crate) fn close<R: Wait + Clock>(&self, rt: &R) {
        let mut places = self.places.lock(rt);
        self.refuse_more(&mut *places);
        places.shut_down_all(Shutdown::Read);
        let is_served = |places: &mut Places| places
            .workers
            .iter()
            .any(|place| place.session().is_some());
        let (places, _) = self
            .changed
            .wait_timeout_while(rt, places, Duration::from_secs(GRACE), is_served);
        places.shut_down_all(Shutdown::Both);
    }
}

fn free_places(alloc: Global, workers: u32) -> Result<Places, AllocError> {
    let mut free = Vec::with_capacity(alloc, workers as usize)?;
    for _ in 0..workers {
        free.push(WorkerState::Free)?;
    }
    Ok(Places {
        workers: free,
        waiting: VecDeque::with_capacity(alloc, workers as usize)?,
    })
}
