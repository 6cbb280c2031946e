use nbd_wire::Request;

/// One step of a schedule. A connection is named by its place, from 0 on.
#[derive(Drop)]
pub enum Step {
    /// The connection sends a request.
    Send(usize, Request),
    /// The connection's request is judged, and a command gets its number.
    Serve(usize),
    /// The connection is answered.
    Answer(usize),
    /// The longest beginning of what is pending becomes a group.
    Seal,
    /// The group in hand is stored.
    Append,
    /// What is stored counts as durable.
    Publish,
    /// The next area of the journal comes into use.
    Rotate,
    /// A block of the first area in use is copied into data.
    Copy,
    /// The map after the first area in use is written.
    Map,
    /// The first area is no longer in use: map and data hold what it held.
    Finish,
    /// The frames of dirty blocks that map and data hold are let go.
    Clean,
}

/// When a write command without FUA and a FLUSH are answered.
#[derive(Clone, Copy, PartialEq, Eq)]
pub enum Mode {
    /// A write command once it has its place in the order, a FLUSH once all that it covers is stored.
    Writeback,
    /// A write command once it and all before it are stored, as one with FUA, and a FLUSH as in writeback.
    Writethrough,
    /// A FLUSH makes nothing durable: it is answered once all that it covers has its place in the order, which is at once, and a
    /// write command, with FUA too, once it has its own.
    Ordered,
}
