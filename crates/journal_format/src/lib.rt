//! The list of groups that an area of a device holds: what its bytes mean, what its commands touch, and how it is read.
#![tactic(auto)]

mod fault;
mod laws;
mod noting;
mod scan;
mod spelling;
mod touch;
mod window;

pub use fault::JournalFault;
pub use laws::{damaged_holds_none, holds_one_list, last_puts_within, last_touches_tell};
pub use scan::{Behind, Place};
pub use spelling::{
    ALLOCATED_ZERO, BOTH, COMMAND_HEAD_BYTES, EDGED_ALLOCATED_ZERO, EDGED_HOLE, GROUP_HEAD_BYTES,
    HEAD, HOLE, MOST_BODY_BYTES, PUT, TAIL,
};
pub use touch::{CommandTouch, StoredEdges, Touch, TouchedRange};
