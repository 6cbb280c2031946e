use crate::client::Client;
use export::ExportFigures;
use front_end::WhenFull;
use nbd_wire::{Errno, RequestHead, SessionFlags};
use negotiation::End;
use std::io;
use std::time::Duration;

/// What a session has asked for.
#[derive(Clone, Copy)]
pub struct Traffic {
    pub requests: u64,
    /// The bytes that READs asked for.
    pub bytes_read: u64,
    /// The bytes that WRITEs brought.
    pub bytes_written: u64,
    /// The most requests that were in progress at a time, where several may be.
    pub most_in_progress: usize,
}

/// What happens in a server. Clients are counted from 1.
#[derive(Clone, Copy)]
pub enum Event<'a> {
    /// A client has come.
    Came {
        client: u64,
        from: &'a Client,
    },
    /// A client has come while all workers have one, and waits or is refused.
    Full {
        workers: u32,
        when_full: WhenFull,
    },
    /// A client couldn't be accepted.
    Unaccepted {
        error: &'a io::Error,
    },
    /// A client's session is over before anything was agreed on: the last name of an export that it asked for.
    Unagreed {
        client: u64,
        name: &'a [u8],
    },
    /// A client's first request has come, after this was agreed on.
    Agreed {
        client: u64,
        flags: SessionFlags,
    },
    /// A request was read, and is in progress until it is `Served`. It is told only where each request is timed.
    Begun,
    /// A request has its answer, this long after it was read. It is told only where `Watch::is_timed` holds.
    Served {
        client: u64,
        head: RequestHead,
        refused: Option<Errno>,
        took: Duration,
        /// For how long of that it was slowed down; None where it wasn't.
        delay: Option<Duration>,
    },
    /// A session is over: its client ended it, or it ended for the reason in `end`.
    Left {
        client: u64,
        end: Result<(), End>,
        traffic: Traffic,
    },
}

/// A server's export, as it is watched while it serves.
pub trait Watched {
    fn figures(&self) -> ExportFigures;

    /// Waits until all that is accepted by now is stored; the number of the last of it. None if it never will be.
    fn store(&self) -> Option<u64>;
    /// A call of the device has failed by another handle than the keeper's: requests are refused from now on, and the server comes to
    /// its end as after any fault of the device.
    fn fail(&self);

    /// Cuts all connections, and takes no more clients.
    fn cut_off(&self);
}

/// Is told what happens, answers clients that ask for figures, and guards the device.
pub trait Watch {
    /// Clients are served from now on: all threads are there. If this can't be told the server ends.
    fn announce(&self) -> io::Result<()>;

    fn note(&self, event: Event<'_>);

    /// Whether each request is timed and told.
    fn is_timed(&self) -> bool;

    /// How many threads answer those that ask for figures.
    fn answerers(&self) -> u32;

    /// What each of those threads does, until `end_answers`.
    fn answer<W: Watched>(&self, watched: &W);

    /// How many threads guard the device.
    fn guards(&self) -> u32;

    /// What each of those threads does, counted from 0, until `end_answers`.
    fn guard<W: Watched>(&self, at: u32, watched: &W);

    /// Ends those threads: no client will be served any more.
    fn end_answers(&self);
}

/// Nobody is told, and nobody answers.
impl Watch for () {
    fn announce(&self) -> io::Result<()> {
        Ok(())
    }

    fn note(&self, _event: Event<'_>) {}

    fn is_timed(&self) -> bool {
        false
    }

    fn answerers(&self) -> u32 {
        0
    }

    fn answer<W: Watched>(&self, _watched: &W) {}

    fn guards(&self) -> u32 {
        0
    }

    fn guard<W: Watched>(&self, _at: u32, _watched: &W) {}

    fn end_answers(&self) {}
}
