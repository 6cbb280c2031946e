use nbd_wire::{Answer, Request};

/// What a connection is at.
#[derive(Drop)]
pub enum Connection {
    /// It has no request open.
    Idle,
    /// It has sent this request, which wasn't served yet.
    Requested(Request),
    /// It is answered once the command with this number and all before it are durable.
    Waiting(u64),
    /// This answer is due.
    Ready(Answer),
    /// It is ended.
    Closed,
}
