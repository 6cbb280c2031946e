//! Block devices, and what may be relied on after a crash.
//!
//! [`Disk`] is what the layers above know of a device. Beside its calls it has ghost members: `state` says what a read
//! gives and what a crash may leave, now and since an earlier moment, and clauses on it hold where `honest` does.
//! [`SimDisk`] is a device in memory that keeps to all of it, and that is proved. [`FileDisk`] works on a file: that the
//! file keeps to it is a premise, which can't be proved or refuted. [`write_synced`] is a write and a sync.
//!
//! Five things to know:
//!
//! - **What is torn.** From the beginning of a write to the next good sync a crash may leave any bytes in its range:
//!   what stood there, what was written, or anything else, byte by byte. Bytes outside the ranges written stay.
//! - **What a failed sync means.** Nothing written since the last good sync is stable, and reads of it may give any
//!   bytes until a sync is good. That later sync makes stable what reads then give, which need not be what was
//!   written, not even by a good write between the two. So a sync that is tried again doesn't take the place of the
//!   one that failed. A failed write does the same, to its own range too. A failed read changes nothing.
//! - **Why a gate is a byte of its own.** A gate says whether what stands after it counts: 0x01 is open, and any other
//!   byte is closed. If gate and body were written at once, a crash could leave the gate open and the body torn. So the
//!   body is written and synced while the gate is closed on the synced device, and then the gate's byte alone is
//!   written. Whatever a crash makes of that byte, the body after it is whole.
//! - **What isn't assumed.** That a sector, or anything longer than a byte, is written whole or not at all; that writes
//!   reach the device in their order; that a checksum tells torn bytes from whole ones.
//! - **What a file may do that the model doesn't say.** Somebody else may write it, or cut it short. The system or the
//!   drive may answer a sync before the bytes are stable. Bytes may go bad where nothing was written. Over a file the
//!   model is a premise, which no proof here supports.
#![tactic(auto)]

mod buffer;
mod disk;
mod fault_plan;
mod faults;
mod file;
mod history;
mod sim;
mod synced;

pub use buffer::free_buffer;
pub use disk::{DeviceFault, Disk};
pub use fault_plan::CallKind;
pub use file::{FileDisk, MAX_PIECE};
pub use history::CrashChoice;
pub use sim::SimDisk;
pub use synced::write_synced;
