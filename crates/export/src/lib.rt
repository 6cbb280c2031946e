//! An export that threads share: any of them submits requests, while one thread stores groups of commands and another copies
//! the journal into the image.
#![tactic(auto)]

mod buffer_pool;
mod checkpointing;
mod client_pass;
mod commit_queue;
mod edges;
mod export;
mod figures;
mod flushing;
mod gathering;
mod in_flight;
mod laws;
mod locking;
mod log_mode;
mod loss;
mod name;
mod prefetching;
mod retired;
mod second_handle;
mod shortage;
mod signals;
mod storage_engine;
mod storing;
mod submitting;
mod sync_points;
mod throttling;
mod waits;

pub use client_pass::ClientPass;
pub use commit_queue::NotedBase;
pub use export::{Export, OpenDevice};
pub use figures::ExportFigures;
pub use in_flight::{Finished, WaitingPass};
pub use laws::{answer_law, opened_device_law};
pub use name::ExportName;
pub use retired::{LastPass, RetiredPass};
pub use second_handle::ReadUnlocked;
pub use sync_points::{Point, SyncPoints};
pub use waits::WaitReason;
