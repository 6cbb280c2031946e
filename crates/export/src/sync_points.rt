use crate::waits::WaitReason;
use std::time::Duration;

/// A place where a thread of an export can be stopped.
#[derive(Clone, Copy, PartialEq, Eq)]
pub enum Point {
    /// Before a group is appended, with the keeper's lock taken.
    Append,
    /// After a group was stored and before those that wait for it are told, with the keeper's lock taken: how many commands it had, its
    /// bytes in the journal, and how long storing it took.
    Stored {
        commands: u64,
        bytes: u64,
        took: Duration,
    },
    /// Before a step of a checkpoint, with no lock held.
    Step,
    /// After a checkpoint, with no lock held; not where its time can't be told.
    Copied {
        blocks: u64,
        took: Duration,
    },
    /// A step that stores groups or copies the journal was refused memory, with no lock held; reached once until such a step is taken.
    NoMemory,
    /// After a write has waited before it was accepted, with no lock held; it may have to wait again.
    Waited {
        reason: WaitReason,
        took: Duration,
    },
    /// After a reply was written.
    Answered,
}

/// Is told where the threads of an export are, and may stop them there: a test stops one until another has gone on.
pub trait SyncPoints {
    /// The thread has come to this point, and goes on once this returns.
    fn reach(&mut self, at: Point);
}

/// Holds nothing.
impl SyncPoints for () {
    fn reach(&mut self, _at: Point) {}
}
