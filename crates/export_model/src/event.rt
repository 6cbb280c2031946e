use nbd_wire::{Answer, Request};
use thiserror::Error;

/// What a step did.
#[derive(Drop)]
pub enum Event {
    /// The connection sent the request.
    Sent(usize, Request),
    /// The connection was answered.
    Answered(usize, Answer),
    /// The connection's command got this number.
    Numbered(usize, u64),
    /// Another step took place.
    Took,
    /// The step's condition didn't hold.
    Skipped,
    /// The step failed.
    Failed(StepFault),
}

/// Why a step failed; `docs/FORMATS.md`, "Refusals", has the numbers.
#[derive(Clone, Copy, Debug, PartialEq, Eq, Error)]
pub enum StepFault {
    /// 0: a growth of memory was refused.
    #[error("no memory")]
    NoMemory,
    /// 1: a call of the device failed.
    #[error("device fault")]
    DeviceFault,
    /// 9: no generation is greater than that of the header in force.
    #[error("numbers full")]
    NumbersFull,
    /// 16: a call of the device has failed before.
    #[error("failed")]
    FailedBefore,
}
