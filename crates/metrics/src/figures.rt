/// Requests of one command.
#[derive(Clone, Copy)]
pub struct CommandFigures {
    pub requests: u64,
    /// The bytes that they named.
    pub bytes: u64,
}

/// Error replies by number.
#[derive(Clone, Copy)]
pub struct ErrorFigures {
    pub eio: u64,
    pub enomem: u64,
    pub einval: u64,
    pub enospc: u64,
}

/// How long requests took, from the moment they were read to their answer.
#[derive(Clone, Copy)]
pub struct LatencyFigures {
    /// How many fell into each bucket: at most its bound, and more than the bound before it. The last bucket has no bound.
    pub buckets: [u64; 17],
    pub total_micros: u64,
}

/// What the clients of a server asked for, since its start.
#[derive(Clone, Copy)]
pub struct RequestFigures {
    pub read: CommandFigures,
    pub write: CommandFigures,
    pub flush: CommandFigures,
    pub trim: CommandFigures,
    pub write_zeroes: CommandFigures,
    pub block_status: CommandFigures,
    /// Requests of a command that the server doesn't know.
    pub other: CommandFigures,
    pub errors: ErrorFigures,
    pub read_latency: LatencyFigures,
    pub write_latency: LatencyFigures,
    pub flush_latency: LatencyFigures,
}

/// Writes that were answered and aren't stored: what a power cut would take.
#[derive(Clone, Copy)]
pub struct PendingFigures {
    pub commands: u64,
    /// Their bytes, as the journal would store them.
    pub bytes: u64,
    /// The oldest of them is at most this old.
    pub oldest_micros: u64,
}

/// How often something was done, how much of it, and how long that took.
#[derive(Clone, Copy)]
pub struct WorkFigures {
    pub count: u64,
    pub items: u64,
    pub bytes: u64,
    pub micros: u64,
}

/// The journal's areas and their bytes.
#[derive(Clone, Copy)]
pub struct JournalFigures {
    pub areas: u64,
    /// Areas that hold groups not yet copied into the image.
    pub areas_in_use: u64,
    /// The bytes of groups in them.
    pub used_bytes: u64,
    /// The bytes that groups can take before an area has to be copied.
    pub free_bytes: u64,
}

/// Frames of 4,096 bytes, each of which can hold a block.
#[derive(Clone, Copy)]
pub struct FrameFigures {
    /// They hold blocks that were written and not yet copied into the image.
    pub dirty: u64,
    /// They hold blocks as the image has them.
    pub clean: u64,
    pub free: u64,
}

/// Positions in the order of write commands.
#[derive(Clone, Copy)]
pub struct NumberFigures {
    /// The last command that the image holds without the journal.
    pub base: u64,
    /// The last command that was accepted.
    pub accepted: u64,
    /// The last command that is stored, with all before it.
    pub durable: u64,
}

/// How often writes waited before they were accepted, and for how long, by what they waited for.
#[derive(Clone, Copy)]
pub struct WaitFigures {
    /// Room in the journal, until an area of it is copied.
    pub journal: WorkFigures,
    /// A frame.
    pub frames: WorkFigures,
    /// Fewer pending bytes.
    pub loss_bytes: WorkFigures,
    /// A command that had been pending for too long.
    pub loss_seconds: WorkFigures,
    /// Nothing: they were slowed down.
    pub throttle: WorkFigures,
}

/// How a server runs, which doesn't change.
#[derive(Clone, Copy)]
pub struct Setup<'a> {
    pub version: &'a str,
    /// The path of the image as it was given, and from the root on.
    pub image: &'a str,
    pub path: &'a str,
    /// The name of the export.
    pub export: &'a str,
    pub cache: &'a str,
    /// The bytes of the image.
    pub size: u64,
    pub layout: u64,
    pub workers: u64,
    /// How many requests of a client may be in progress at a time.
    pub in_flight: u64,
    pub loss_bytes: u64,
}

/// How far the opening of an image has come, and how much is left at most.
#[derive(Clone, Copy)]
pub struct OpeningFigures {
    /// Whether it isn't over: no client is served yet.
    pub is_opening: bool,
    /// The bytes of the journal that it has scanned.
    pub scanned_bytes: u64,
    /// At most this many are left to scan.
    pub unscanned_bytes: u64,
    /// The bytes that it has copied from the journal into the image.
    pub copied_bytes: u64,
    /// At most this many are left to copy.
    pub uncopied_bytes: u64,
}

/// All figures of a running server.
#[derive(Clone, Copy)]
pub struct Figures {
    /// Whether a call of the device has failed.
    pub has_failed: bool,
    /// Whether a write of the device waits because its disk is full.
    pub waits_for_space: bool,
    /// Such waits that are over.
    pub space_waits: WorkFigures,
    pub waits: WaitFigures,
    pub uptime_micros: u64,
    pub opening: OpeningFigures,
    pub clients: u64,
    /// All clients that came since the start.
    pub clients_total: u64,
    /// Requests that were read and have no answer yet.
    pub in_progress: u64,
    pub requests: RequestFigures,
    pub pending: PendingFigures,
    /// Groups of commands that were stored together, with the time that storing them took.
    pub groups: WorkFigures,
    /// Syncs of the device.
    pub syncs: WorkFigures,
    pub journal: JournalFigures,
    pub frames: FrameFigures,
    /// Copies of journal areas into the image, by blocks.
    pub checkpoints: WorkFigures,
    /// Writes that were slowed down because they filled the frames faster than the journal is copied.
    pub delays: WorkFigures,
    /// How often storing or copying was refused memory and had to wait.
    pub refused_allocations: u64,
    pub numbers: NumberFigures,
}

impl LatencyFigures {
    /// No request.
    pub const NONE: LatencyFigures = LatencyFigures {
        buckets: [0; 17],
        total_micros: 0,
    };

    /// How many requests there were.
    pub fn count(&self) -> u64 {
        self.buckets
            .iter()
            .fold(0u64, |sum, count| sum.wrapping_add(*count))
    }
}

impl CommandFigures {
    /// No request.
    pub const NONE: CommandFigures = CommandFigures {
        requests: 0,
        bytes: 0,
    };
}

impl RequestFigures {
    /// No request.
    pub const NONE: RequestFigures = RequestFigures {
        read: CommandFigures::NONE,
        write: CommandFigures::NONE,
        flush: CommandFigures::NONE,
        trim: CommandFigures::NONE,
        write_zeroes: CommandFigures::NONE,
        block_status: CommandFigures::NONE,
        other: CommandFigures::NONE,
        errors: ErrorFigures {
            eio: 0,
            enomem: 0,
            einval: 0,
            enospc: 0,
        },
        read_latency: LatencyFigures::NONE,
        write_latency: LatencyFigures::NONE,
        flush_latency: LatencyFigures::NONE,
    };

    /// How many requests there were.
    pub fn count(&self) -> u64 {
        [
            &self.read,
            &self.write,
            &self.flush,
            &self.trim,
            &self.write_zeroes,
            &self.block_status,
            &self.other,
        ]
        .iter()
        .fold(0u64, |sum, command| sum.wrapping_add(command.requests))
    }
}
