ghost use Rattle.std.specs.Prelude.{◌≡◌, ◌+◌, ◌-◌, ◌<◌, ◌≤◌, ℕ, List, [], ◌++◌, Some, length, take, IfOk, IfErr, IfSome, IsOkAnd, OnErr, vec_len, vec_capacity};
ghost use Rattle.std.specs.Io.KnownBytes.{Keeps};
ghost use Rattle.nbd_wire.specs.Head.{head_bytes};
ghost use Rattle.nbd_wire.specs.Request.{handed_len};
ghost use Rattle.nbd_wire.specs.Stream.{in_head, failed, reading, fresh, IsKeptWrite, IsDiscardedWrite, Reads, Feeds, Fills, answered, end_of, held, missing_len, room_of};
ghost use Rattle.nbd_wire.specs.State.{kept, reader_of, IsState, IsReader};
ghost use Rattle.nbd_wire.specs.inner.State.{wanted_of, found, Advances, AdvancesTo, IsGoing, IsQuiet, IsReadBehind};

use crate::command::WRITE;
use crate::error::{RequestFault, WireFault};
use crate::head::{RequestHead, decode_request};
use crate::message::Request;
use std::alloc::{AllocError, Global};
use std::io::{self, Read};
use std::marker::Model;

/// The most bytes of data that a WRITE is handed on with: 1 MiB.
pub const MAX_PAYLOAD: u32 = 1_048_576;
/// The most bytes of data that are read after a WRITE's head: 32 MiB.
pub const MAX_THROWN_AWAY: u32 = 33_554_432;

const HEAD_LEN: usize = 28;

// The most bytes that are read at once into the room of data: 64 KiB. They are made zero first, and lie in a cache then.
const MOST_LENT: usize = 65_536;

/// Where a reader gets memory for the data of WRITEs.
pub trait DataBuffers {
    /// An empty buffer with room for this many bytes; None if there is none.
    fn take(&self, room: usize) -> Option<Vec<u8>>
        ensures { IfSome result (λ buffer. (buffer.items ≡ []) × (room ≤ vec_capacity buffer)) };
}

/// There are none: the reader takes memory of its own.
impl DataBuffers for () {
    fn take(&self, _room: usize) -> Option<Vec<u8>> {
        None
    }
}

/// Takes requests from a stream of bytes, in whatever pieces it comes. It holds no more than the request at
/// hand, at most 28 bytes of a head and [`MAX_PAYLOAD`] of data.
#[derive(Drop)]
pub struct StreamReader {
    alloc: Global,
    // None is left where memory ran out.
    state: Option<State>,
}

impl Model for StreamReader {
    ghost use Rattle.nbd_wire.specs.Stream.{Reader};

    ghost Value = { Reader };

    ghost use Rattle.nbd_wire.specs.State.{reader_of, IsReader};

    ghost view = { λ reader. reader_of reader.state };

    ghost invariant = { λ reader. IsReader reader.state };
}

// What was read of the request at hand.
#[derive(Drop)]
enum State {
    // The first `count` bytes of its head.
    Head { bytes: [u8; 28], count: usize },
    // The head of a WRITE, and the first of its data.
    Data { head: RequestHead, bytes: Vec<u8> },
    // The head of a WRITE whose data aren't kept, and how many of them are still to come.
    Discard { head: RequestHead, missing: u32 },
    // Nothing is read any more.
    Failed(RequestFault),
}

impl StreamReader {
    /// A reader at the beginning of a stream.
    pub fn new(alloc: Global) -> StreamReader
        ensures { result ≡ fresh }
    {
        StreamReader {
            alloc,
            state: Some(at_start()),
        }
    }

    /// Reads the next piece of the stream, and answers the requests that are whole now ("Transmission" of
    /// NBD's `proto.md`). A head is looked at once its 28 bytes have come; the data of a WRITE longer than
    /// [`MAX_PAYLOAD`] are thrown away as they come.
    ///
    /// Refusals 0 (no memory), 3 (bad magic) and 4 (too long: a WRITE longer than [`MAX_THROWN_AWAY`]). Each
    /// comes after the requests before it, and all later calls give it too: what memory ran out for is lost.
    pub fn feed<B: DataBuffers>(
        &mut self,
        piece: &[u8],
        buffers: &B,
    ) -> Result<Vec<Request>, WireFault>
        // However the stream was cut, these are its next requests, up to its first fault.
        ensures stream { Feeds self.old piece.now (answered result) self.new }

        // A fault comes where there is no request before it, and then always.
        ensures fault { IfErr result (λ fault. end_of self.new ≡ Some fault) }
        ensures again { (fault : WireFault) → end_of self.old ≡ Some fault → result ≡ Err fault }
        ensures first { (fault : WireFault) → end_of self.new ≡ Some fault → IfOk result (λ requests. 0 < vec_len requests) }

        // A piece that ends neither a head nor data is taken with no memory.
        ensures part { length piece.now < missing_len self.old → IsOkAnd result (λ requests. requests.items ≡ []) }

        // Whatever is announced, no more than this is held.
        ensures held { held self.new < 28 + MAX_PAYLOAD }
    {
        // The state is moved out, and comes back but where memory runs out.
        let Some(state) = self.state.take() else {
            return Err(WireFault::NoMemory);
        };
        let (state, requests) = read_all(self.alloc, state, piece, buffers);
        self.state = state;
        answer(&self.state, requests)
    }

    /// How many bytes are still to come of the data at hand; none where nothing is kept of them.
    pub fn room(&self) -> usize
        ensures { result ≡ room_of self.now }
    {
        match &self.state {
            Some(State::Data { head, bytes }) => head.length as usize - bytes.len(),
            _ => 0,
        }
    }

    /// Reads once from the stream, straight into the room of the data at hand, 64 KiB of them at most. Their last byte is
    /// left to a piece, so that no request is whole after it. A fault of the stream leaves the reader as it was.
    pub fn fill<R: Read>(&mut self, input: &mut R) -> io::Result<usize>
        requires { 1 < room_of self.old }

        // What was read is a piece that was fed; at the end of the stream it is empty.
        ensures ok { IfOk result (λ count. Fills self.old (R.remaining input.old) (R.remaining input.new) count self.new) }
        ensures err { OnErr result ((self.new ≡ self.old) × Keeps (R.remaining input.old) (R.remaining input.new)) }
        ensures held { held self.new < 28 + MAX_PAYLOAD }
    {
        let Some(state) = self.state.take() else {
            return Ok(0);
        };
        let (state, count) = fill(state, input);
        self.state = Some(state);
        count
    }
}

// Nothing was read of the next request.
fn at_start() -> State
    ensures sound { IsState result }
    ensures value { kept result ≡ in_head [] }
{
    State::Head {
        bytes: [0; HEAD_LEN],
        count: 0,
    }
}

// The requests, or why none is handed out.
fn answer(state: &Option<State>, requests: Vec<Request>) -> Result<Vec<Request>, WireFault>
    ensures answered { answered result ≡ requests.items }
    ensures fault { IfErr result (λ fault. end_of (reader_of state.now) ≡ Some fault) }
    ensures first { (fault : WireFault) → end_of (reader_of state.now) ≡ Some fault
        → IfOk result (λ handed. 0 < vec_len handed) }
    ensures none { (fault : WireFault) → end_of (reader_of state.now) ≡ Some fault → requests.items ≡ []
        → result ≡ Err fault }
    ensures going { IsGoing (reader_of state.now) → result ≡ Ok requests }
{
    match state {
        Some(State::Failed(fault)) if requests.is_empty() => Err(WireFault::Malformed(*fault)),
        None if requests.is_empty() => Err(WireFault::NoMemory),
        _ => Ok(requests),
    }
}

// Reads all of the piece, but where memory runs out. After a fault the requests are those before it.
fn read_all<B: DataBuffers>(
    alloc: Global,
    state: State,
    piece: &[u8],
    buffers: &B,
) -> (Option<State>, Vec<Request>)
    requires { IsState state }
    ensures sound { IsReader result.0 }
    ensures reads { AdvancesTo (kept state) piece.now result.1.items (reader_of result.0) }
    ensures part { length piece.now < missing_len (reading (kept state))
        → (result.1.items ≡ []) × IsGoing (reader_of result.0) }
    ensures ended { (fault : RequestFault) → kept state ≡ failed fault
        → (result.1.items ≡ []) × (reader_of result.0 ≡ reading (failed fault)) }
{
    let mut requests = Vec::new(alloc);
    if let State::Failed(_) = state {
        return (Some(state), requests);
    }
    let mut state = state;
    let mut rest = piece;
    while !rest.is_empty() {
        let (front, behind) = rest.split_at(rest.len().min(wanted(&state)));
        let Ok((next, request)) = advance(alloc, state, front, buffers) else {
            return (None, requests);
        };
        state = next;
        if let Some(request) = request {
            if requests.push(request).is_err() {
                return (None, requests);
            }
        }
        rest = behind;
    }
    (Some(state), requests)
}

// How many bytes end what is being read.
fn wanted(state: &State) -> usize
    requires { IsState state.now }
    ensures value { result ≡ wanted_of state.now }
    ensures some { 0 < result }
{
    match state {
        State::Head { count, .. } => HEAD_LEN - *count,
        State::Data { head, bytes } => head.length as usize - bytes.len(),
        State::Discard { missing, .. } => *missing as usize,
        State::Failed(_) => usize::MAX,
    }
}

// Takes the next bytes, and answers the request that is whole now.
fn advance<B: DataBuffers>(
    alloc: Global,
    state: State,
    more: &[u8],
    buffers: &B,
) -> Result<(State, Option<Request>), AllocError>
    requires sound { IsState state }
    requires wanted { length more.now ≤ wanted_of state }
    ensures sound { IfOk result (λ step. IsState step.0) }
    ensures reads { IfOk result (λ step. Advances (kept state) more.now (found step.1) (kept step.0)) }
    ensures part { length more.now < missing_len (reading (kept state)) → IsOkAnd result IsQuiet }
{
    match state {
        State::Head { bytes, count } => take_head(alloc, bytes, count, more, buffers),
        State::Data { head, bytes } => Ok(take_data(head, bytes, more)),
        State::Discard { head, missing } => { Ok(discard(alloc, head, missing, more.len() as u32)) }
        State::Failed(fault) => Ok((State::Failed(fault), None)),
    }
}

fn take_head<B: DataBuffers>(
    alloc: Global,
    mut bytes: [u8; 28],
    count: usize,
    more: &[u8],
    buffers: &B,
) -> Result<(State, Option<Request>), AllocError>
    requires wanted { count + length more.now ≤ 28 }
    ensures sound { IfOk result (λ step. IsState step.0) }
    ensures reads { IfOk result (λ step. Reads (take count bytes ++ more.now) (found step.1) (kept step.0)) }
    ensures part { count + length more.now < 28 → IsOkAnd result IsQuiet }
{
    let end = count + more.len();
    bytes[count..end].copy_from_slice(more);
    if end < HEAD_LEN {
        let count = end;
        return Ok((State::Head { bytes, count }, None));
    }
    begin(alloc, &bytes, buffers)
}

// Decides by a head what follows it; a request with no data is whole.
fn begin<B: DataBuffers>(
    alloc: Global,
    bytes: &[u8; 28],
    buffers: &B,
) -> Result<(State, Option<Request>), AllocError>
    ensures sound { IfOk result (λ step. IsState step.0) }
    ensures reads { IfOk result (λ step. Reads bytes.now (found step.1) (kept step.0)) }
{
    let Ok(head) = decode_request(bytes) else {
        return Ok((State::Failed(RequestFault::BadMagic), None));
    };
    if head.kind != WRITE || head.length == 0 {
        return Ok((at_start(), Some(without_data(alloc, head))));
    }
    if head.length <= MAX_PAYLOAD {
        // The room for all of the data.
        let bytes = room_for(alloc, head.length as usize, buffers)?;
        return Ok((State::Data { head, bytes }, None));
    }
    if head.length <= MAX_THROWN_AWAY {
        let missing = head.length;
        return Ok((State::Discard { head, missing }, None));
    }
    Ok((State::Failed(RequestFault::TooLong), None))
}

// An empty buffer with room for this many bytes.
fn room_for<B: DataBuffers>(alloc: Global, room: usize, buffers: &B) -> Result<Vec<u8>, AllocError>
    ensures { IfOk result (λ bytes. (bytes.items ≡ []) × (room ≤ vec_capacity bytes)) }
{
    match buffers.take(room) {
        Some(buffer) => Ok(buffer),
        None => Vec::with_capacity(alloc, room),
    }
}

fn without_data(alloc: Global, head: RequestHead) -> Request
    requires { handed_len head ≡ 0 }
    ensures { result ≡ record { head = head; bytes = [] } }
{
    Request::new(head, Vec::new(alloc))
}

fn take_data(head: RequestHead, mut bytes: Vec<u8>, more: &[u8]) -> (State, Option<Request>)
    requires write { IsKeptWrite head }
    requires wanted { vec_len bytes + length more.now ≤ head.length }
    requires room { head.length ≤ vec_capacity bytes }
    ensures sound { IsState result.0 }
    ensures reads { Reads (head_bytes head ++ (bytes.items ++ more.now)) (found result.1) (kept result.0) }
    ensures part { vec_len bytes + length more.now < head.length → IsQuiet result }
{
    // The room was reserved.
    bytes.extend_from_slice(more).unwrap();
    if bytes.len() < head.length as usize {
        return (State::Data { head, bytes }, None);
    }
    (at_start(), Some(Request::new(head, bytes)))
}

// Passes over `count` bytes of data that aren't kept.
fn discard(alloc: Global, head: RequestHead, missing: u32, count: u32) -> (State, Option<Request>)
    requires write { IsDiscardedWrite head }
    requires within { missing ≤ head.length }
    requires wanted { count ≤ missing }
    ensures sound { IsState result.0 }
    ensures reads { (sent : List ℕ) → length sent + (missing - count) ≡ head.length
        → Reads (head_bytes head ++ sent) (found result.1) (kept result.0) }
    ensures part { count < missing → IsQuiet result }
{
    let missing = missing - count;
    if missing > 0 {
        return (State::Discard { head, missing }, None);
    }
    (at_start(), Some(without_data(alloc, head)))
}

// Reads once into the room of the data at hand.
fn fill<R: Read>(state: State, input: &mut R) -> (State, io::Result<usize>)
    requires sound { IsState state }
    requires room { 1 < room_of (reading (kept state)) }
    ensures sound { IsState result.0 }
    ensures ok { IfOk result.1 (λ count. Fills (reading (kept state)) (R.remaining input.old) (R.remaining input.new) count (reading (kept result.0))) }
    ensures err { OnErr result.1 ((kept result.0 ≡ kept state) × Keeps (R.remaining input.old) (R.remaining input.new)) }
{
    match state {
        State::Data { head, bytes } => {
            let most = head.length as usize - 1 - bytes.len();
            let (bytes, count) = read_after(input, bytes, most.min(MOST_LENT));
            (State::Data { head, bytes }, count)
        }
        state => (state, Ok(0)),
    }
}

// Reads once, up to this many bytes, after bytes that have the room for them.
fn read_after<R: Read>(
    input: &mut R,
    mut bytes: Vec<u8>,
    most: usize,
) -> (Vec<u8>, io::Result<usize>)
    requires some { 0 < most }
    requires room { vec_len bytes + most ≤ vec_capacity bytes }
    ensures ok { IfOk result.1 (λ count. IsReadBehind bytes.items (R.remaining input.old) (R.remaining input.new) count result.0.items) }
    ensures err { OnErr result.1 ((result.0.items ≡ bytes.items) × Keeps (R.remaining input.old) (R.remaining input.new)) }
    ensures most { vec_len result.0 ≤ vec_len bytes + most }
    ensures room { vec_capacity bytes ≤ vec_capacity result.0 }
{
    let len = bytes.len();
    // The room was reserved.
    bytes.resize(len + most, 0).unwrap();
    match input.read(&mut bytes[len..]) {
        Ok(count) => {
            bytes.truncate(len + count);
            (bytes, Ok(count))
        }
        Err(error) => {
            bytes.truncate(len);
            (bytes, Err(error))
        }
    }
}
