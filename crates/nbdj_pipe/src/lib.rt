//! One connection served over streams of bytes, without a handshake: requests come in, replies go out, and the write
//! commands go through an order of commands to a device. And the plans of the program `nbdj` that need one device at most, carried
//! out over any device, reader and writers.
#![tactic(auto)]

mod export;
mod run;
mod session;

pub use run::{check_status, exit_status, perform};
pub use session::pipe;
