//! Requests and replies of an NBD connection's transmission phase, as bytes and as values, and the streams that they come and go by.
#![tactic(auto)]

mod bytes;
mod chunk;
mod command;
mod error;
mod head;
mod laws;
mod message;
mod reply;
mod stream;
mod transmission;

pub use bytes::{StreamFault, read_some, write_unflushed, write_whole};
pub use command::{BLOCK_STATUS, CommandFlags, DISCONNECT, FLUSH, READ, TRIM, WRITE, WRITE_ZEROES};
pub use error::{BadMagic, Errno, RequestFault, WireFault};
pub use head::{RequestHead, decode_request, encode_request, encode_simple};
pub use laws::{any_pieces, one_head, one_reading, one_reply, one_request, reads_back};
pub use message::{Answer, DATA, HOLE, ReadBytes, Reply, Request, Run, SessionFlags, States};
pub use reply::{encode_before_data, encode_chunks, encode_reply, encode_simple_reply};
pub use stream::{DataBuffers, MAX_PAYLOAD, MAX_THROWN_AWAY, StreamReader};
pub use transmission::{TransmissionFlags, transmission_flags};
