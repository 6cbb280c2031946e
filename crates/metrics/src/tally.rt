ghost use Rattle.std.specs.Prelude.{◌≤◌};

use crate::figures::{CommandFigures, ErrorFigures, LatencyFigures, RequestFigures, WorkFigures};
use std::alloc::{AllocError, Global};
use std::sync::atomic::{AtomicU64, Ordering};

/// A number that only grows, and to which threads add side by side.
#[derive(Drop)]
pub struct Counter(AtomicU64);

impl Counter {
    pub const fn new() -> Counter {
        Counter(AtomicU64::new(0))
    }

    pub fn add(&self, more: u64) {
        self.0.fetch_add(more, Ordering::Relaxed);
    }

    pub fn get(&self) -> u64 {
        self.0.load(Ordering::Relaxed)
    }
}

/// The bounds of a histogram's buckets, in microseconds. A request falls into the first bucket whose bound it doesn't pass.
pub const BOUNDS: [u64; 16] = [
    10, 20, 50, 100, 200, 500, 1_000, 2_000, 5_000, 10_000, 20_000, 50_000, 100_000, 200_000,
    500_000, 1_000_000,
];

// One bucket for each bound, and one for what passes them all.
const BUCKETS: usize = 17;

/// The bucket of a request that took this many microseconds.
pub fn bucket_of(micros: u64) -> usize
    ensures { result ≤ 16 }
{
    BOUNDS.partition_point(|bound| *bound < micros)
}

// How long requests took.
#[derive(Drop)]
struct Histogram {
    buckets: Vec<Counter>,
    total_micros: Counter,
}

impl Histogram {
    fn new(alloc: Global) -> Result<Histogram, AllocError> {
        let mut buckets = Vec::with_capacity(alloc, BUCKETS)?;
        for _ in 0..BUCKETS {
            buckets.push(Counter::new())?;
        }
        Ok(Histogram {
            buckets,
            total_micros: Counter::new(),
        })
    }

    fn note(&self, micros: u64) {
        if let Some(bucket) = self.buckets.get(bucket_of(micros)) {
            bucket.add(1);
        }
        self.total_micros.add(micros);
    }

    // Adds what was counted to other figures.
    fn add_to(&self, figures: &mut LatencyFigures) {
        for (sum, bucket) in figures.buckets.iter_mut().zip(self.buckets.iter()) {
            *sum = sum.wrapping_add(bucket.get());
        }
        figures.total_micros = figures.total_micros.wrapping_add(self.total_micros.get());
    }
}

/// What a request asks for.
#[derive(Clone, Copy, PartialEq, Eq)]
pub enum Command {
    Read,
    Write,
    Flush,
    Trim,
    WriteZeroes,
    BlockStatus,
    /// A command that the server doesn't know.
    Other,
}

/// The error that a request was answered with.
#[derive(Clone, Copy, PartialEq, Eq)]
pub enum Failure {
    Io,
    NoMemory,
    Invalid,
    NoSpace,
}

// Requests of one command.
#[derive(Drop)]
struct CommandTally {
    requests: Counter,
    bytes: Counter,
}

impl CommandTally {
    const fn new() -> CommandTally {
        CommandTally {
            requests: Counter::new(),
            bytes: Counter::new(),
        }
    }

    fn add_to(&self, figures: &mut CommandFigures) {
        figures.requests = figures.requests.wrapping_add(self.requests.get());
        figures.bytes = figures.bytes.wrapping_add(self.bytes.get());
    }
}

/// Counts of requests. Threads that count side by side do it in tallies of their own, so that none waits for another's.
#[derive(Drop)]
pub struct RequestTally {
    read: CommandTally,
    write: CommandTally,
    flush: CommandTally,
    trim: CommandTally,
    write_zeroes: CommandTally,
    block_status: CommandTally,
    other: CommandTally,
    io: Counter,
    no_memory: Counter,
    invalid: Counter,
    no_space: Counter,
    read_latency: Histogram,
    write_latency: Histogram,
    flush_latency: Histogram,
}

impl RequestTally {
    /// Nothing is counted yet.
    pub fn new(alloc: Global) -> Result<RequestTally, AllocError> {
        let read_latency = Histogram::new(alloc)?;
        let write_latency = Histogram::new(alloc)?;
        let flush_latency = Histogram::new(alloc)?;
        Ok(RequestTally {
            read: CommandTally::new(),
            write: CommandTally::new(),
            flush: CommandTally::new(),
            trim: CommandTally::new(),
            write_zeroes: CommandTally::new(),
            block_status: CommandTally::new(),
            other: CommandTally::new(),
            io: Counter::new(),
            no_memory: Counter::new(),
            invalid: Counter::new(),
            no_space: Counter::new(),
            read_latency,
            write_latency,
            flush_latency,
        })
    }

    fn command(&self, command: Command) -> &CommandTally {
        match command {
            Command::Read => &self.read,
            Command::Write => &self.write,
            Command::Flush => &self.flush,
            Command::Trim => &self.trim,
            Command::WriteZeroes => &self.write_zeroes,
            Command::BlockStatus => &self.block_status,
            Command::Other => &self.other,
        }
    }

    /// Counts a request that named this many bytes, took this long and was answered, by an error or not.
    pub fn note(&self, command: Command, bytes: u64, failure: Option<Failure>, micros: u64) {
        let tally = self.command(command);
        tally.requests.add(1);
        if bytes > 0 {
            tally.bytes.add(bytes);
        }
        match failure {
            Some(failure) => self.failures(failure).add(1),
            None => {}
        }
        match command {
            Command::Read => self.read_latency.note(micros),
            Command::Write => self.write_latency.note(micros),
            Command::Flush => self.flush_latency.note(micros),
            _ => {}
        }
    }

    fn failures(&self, failure: Failure) -> &Counter {
        match failure {
            Failure::Io => &self.io,
            Failure::NoMemory => &self.no_memory,
            Failure::Invalid => &self.invalid,
            Failure::NoSpace => &self.no_space,
        }
    }

    /// Adds what was counted to other figures.
    pub fn add_to(&self, figures: &mut RequestFigures) {
        self.read.add_to(&mut figures.read);
        self.write.add_to(&mut figures.write);
        self.flush.add_to(&mut figures.flush);
        self.trim.add_to(&mut figures.trim);
        self.write_zeroes.add_to(&mut figures.write_zeroes);
        self.block_status.add_to(&mut figures.block_status);
        self.other.add_to(&mut figures.other);
        let errors = &mut figures.errors;
        errors.eio = errors.eio.wrapping_add(self.io.get());
        errors.enomem = errors.enomem.wrapping_add(self.no_memory.get());
        errors.einval = errors.einval.wrapping_add(self.invalid.get());
        errors.enospc = errors.enospc.wrapping_add(self.no_space.get());
        self.read_latency.add_to(&mut figures.read_latency);
        self.write_latency.add_to(&mut figures.write_latency);
        self.flush_latency.add_to(&mut figures.flush_latency);
    }
}

/// Counts of something that is done now and then.
#[derive(Drop)]
pub struct WorkTally {
    count: Counter,
    items: Counter,
    bytes: Counter,
    micros: Counter,
}

impl WorkTally {
    pub const fn new() -> WorkTally {
        WorkTally {
            count: Counter::new(),
            items: Counter::new(),
            bytes: Counter::new(),
            micros: Counter::new(),
        }
    }

    /// Counts one piece of work.
    pub fn note(&self, items: u64, bytes: u64, micros: u64) {
        self.count.add(1);
        self.items.add(items);
        self.bytes.add(bytes);
        self.micros.add(micros);
    }

    pub fn figures(&self) -> WorkFigures {
        WorkFigures {
            count: self.count.get(),
            items: self.items.get(),
            bytes: self.bytes.get(),
            micros: self.micros.get(),
        }
    }
}
