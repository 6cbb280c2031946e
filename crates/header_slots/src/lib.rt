//! The two header slots of a device, of which one holds the header in force.
#![tactic(auto)]

mod change;
mod fault;
mod header;
mod laws;
mod slots;

pub use change::{HeaderChange, change_header, close_other, open_other, write_body};
pub use fault::HeaderFault;
pub use header::Header;
pub use laws::header_laws;
pub use slots::{SLOT_BYTES, close_gate, fill_slot, open_gate, read_current};
