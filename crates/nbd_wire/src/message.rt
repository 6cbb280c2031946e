ghost use Rattle.std.specs.Prelude.{◌≡◌, ◌≤◌, ◌<◌, ◌+◌, ◌^◌, [], ◌∷◌, IfOk, length, vec_len};
ghost use Rattle.nbd_wire.specs.Answer.{IsBytesRead, IsStates, data_status, one_run};
ghost use Rattle.nbd_wire.specs.Request.{handed_len, payload_limit};

use crate::error::Errno;
use crate::head::RequestHead;
use std::alloc::{AllocError, Global};
use std::marker::Model;

/// The status of data.
pub const DATA: u32 = 0;
/// The status of bytes that are a hole and read as zero: bits 0 and 1 of the context `base:allocation`.
pub const HOLE: u32 = 3;

/// A request with the data that follow its head on the stream: a WRITE's data, of as many bytes as its head
/// says; none after another request, and none where the data were too long to be kept.
#[derive(Drop)]
pub struct Request {
    head: RequestHead,
    bytes: Vec<u8>,
}

impl Model for Request {
    ghost use Rattle.std.specs.Prelude.{◌≡◌, length};
    ghost use Rattle.nbd_wire.specs.Request.{Message, handed_len};

    ghost Value = { Message };

    ghost view = { λ request. record { head = request.head; bytes = request.bytes.items } };

    ghost invariant = { λ request. length request.bytes.items ≡ handed_len request.head };
}

impl Request {
    /// The request with this head and these data.
    pub fn new(head: RequestHead, bytes: Vec<u8>) -> Request
        requires { vec_len bytes ≡ handed_len head }
        ensures { result ≡ record { head = head; bytes = bytes.items } }
    {
        Request { head, bytes }
    }

    /// A copy of the request. Refusal 0 (no memory).
    pub fn try_clone(&self, alloc: Global) -> Result<Request, AllocError>
        ensures { IfOk result (λ copy. copy ≡ self.now) }
    {
        Ok(Request {
            head: self.head,
            bytes: Vec::from_slice(alloc, &self.bytes)?,
        })
    }

    /// Its head.
    pub fn head(&self) -> RequestHead
        ensures { result ≡ self.now.head }
    {
        self.head
    }

    /// Its data.
    pub fn bytes(&self) -> &[u8]
        ensures value { result.now ≡ self.now.bytes }
        ensures len { length result.now ≡ handed_len self.now.head }
    {
        &self.bytes
    }

    /// Its head and its data.
    pub fn into_parts(self) -> (RequestHead, Vec<u8>)
        ensures head { result.0 ≡ self.head }
        ensures bytes { result.1.items ≡ self.bytes }
        ensures len { vec_len result.1 ≡ handed_len self.head }
    {
        let Request { head, bytes } = self;
        (head, bytes)
    }
}

/// The answer to the request with this cookie.
#[derive(Drop)]
pub struct Reply {
    pub cookie: u64,
    pub answer: Answer,
}

/// What a request is answered.
#[derive(Drop)]
pub enum Answer {
    /// Done, with nothing to hand over.
    Done,
    Refused(Errno),
    /// The bytes that were read.
    Bytes(ReadBytes),
    /// The states of the bytes that were asked for, from the first on.
    States(States),
}

impl Answer {
    /// A copy of the answer. Refusal 0 (no memory).
    pub fn try_clone(&self, alloc: Global) -> Result<Answer, AllocError>
        ensures { IfOk result (λ copy. copy ≡ self.now) }
    {
        Ok(match self {
            Answer::Done => Answer::Done,
            Answer::Refused(errno) => Answer::Refused(*errno),
            Answer::Bytes(read) => Answer::Bytes(read.try_clone(alloc)?),
            Answer::States(states) => Answer::States(states.try_clone(alloc)?),
        })
    }
}

/// Bytes that were read from `offset` on, and the runs that part them into [`DATA`] and [`HOLE`]s,
/// which are zero: one run for each longest part in one status.
#[derive(Drop)]
pub struct ReadBytes {
    offset: u64,
    bytes: Vec<u8>,
    runs: Vec<Run>,
}

impl Model for ReadBytes {
    ghost use Rattle.nbd_wire.specs.Answer.{BytesRead, IsBytesRead};

    ghost Value = { BytesRead };

    ghost view = { λ read. record { offset = read.offset; bytes = read.bytes.items; runs = read.runs.items } };

    ghost invariant = { λ read. IsBytesRead (record { offset = read.offset; bytes = read.bytes.items; runs = read.runs.items }) };
}

impl ReadBytes {
    /// The bytes from `offset` on, in these runs.
    pub fn new(offset: u64, bytes: Vec<u8>, runs: Vec<Run>) -> ReadBytes
        requires { IsBytesRead (record { offset = offset; bytes = bytes.items; runs = runs.items }) }
        ensures { result ≡ record { offset = offset; bytes = bytes.items; runs = runs.items } }
    {
        ReadBytes {
            offset,
            bytes,
            runs,
        }
    }

    /// Bytes that are all data. Refusal 0 (no memory).
    pub fn data(alloc: Global, offset: u64, bytes: Vec<u8>) -> Result<ReadBytes, AllocError>
        requires some { 0 < vec_len bytes }
        requires most { vec_len bytes ≤ payload_limit }
        requires inside { offset + vec_len bytes < 2 ^ 64 }
        ensures { IfOk result (λ read. read ≡ one_run offset bytes.items data_status) }
    {
        let runs = one_run(alloc, bytes.len() as u32)?;
        Ok(ReadBytes::new(offset, bytes, runs))
    }

    /// A copy of them. Refusal 0 (no memory).
    pub fn try_clone(&self, alloc: Global) -> Result<ReadBytes, AllocError>
        ensures { IfOk result (λ copy. copy ≡ self.now) }
    {
        Ok(ReadBytes {
            offset: self.offset,
            bytes: Vec::from_slice(alloc, &self.bytes)?,
            runs: Vec::from_slice(alloc, &self.runs)?,
        })
    }

    /// The place of the first byte in the export.
    pub fn offset(&self) -> u64
        ensures { result ≡ self.now.offset }
    {
        self.offset
    }

    /// The bytes.
    pub fn bytes(&self) -> &[u8]
        ensures value { result.now ≡ self.now.bytes }
        ensures most { length result.now ≤ payload_limit }
    {
        &self.bytes
    }

    /// Their parts, from the first byte on.
    pub fn runs(&self) -> &[Run]
        ensures value { result.now ≡ self.now.runs }
        ensures sound { IsBytesRead self.now }
    {
        &self.runs
    }

    /// The bytes, so that their buffer can be kept.
    pub fn into_bytes(self) -> Vec<u8>
        ensures { result.items ≡ self.bytes }
    {
        let ReadBytes {
            offset: _,
            bytes,
            runs: _,
        } = self;
        bytes
    }
}

// A run of data alone.
fn one_run(alloc: Global, length: u32) -> Result<Vec<Run>, AllocError>
    ensures { IfOk result (λ runs. runs.items ≡ record { length = length; status = data_status } ∷ []) }
{
    let mut runs = Vec::new(alloc);
    runs.push(Run {
        length,
        status: DATA,
    })?;
    Ok(runs)
}

/// 1 to 1,024 runs of bytes by their state, none of them empty.
#[derive(Drop)]
pub struct States {
    runs: Vec<Run>,
}

impl Model for States {
    ghost use Rattle.std.specs.Prelude.{List};
    ghost use Rattle.nbd_wire.specs.declared.message.Run.{Run};
    ghost use Rattle.nbd_wire.specs.Answer.{IsStates};

    ghost Value = { List Run };

    ghost view = { λ states. states.runs.items };

    ghost invariant = { λ states. IsStates states.runs.items };
}

impl States {
    /// The answer with these runs, from the first byte on.
    pub fn new(runs: Vec<Run>) -> States
        requires { IsStates runs.items }
        ensures { result ≡ runs.items }
    {
        States { runs }
    }

    /// A copy of them. Refusal 0 (no memory).
    pub fn try_clone(&self, alloc: Global) -> Result<States, AllocError>
        ensures { IfOk result (λ copy. copy ≡ self.now) }
    {
        Ok(States {
            runs: Vec::from_slice(alloc, &self.runs)?,
        })
    }

    /// The runs, from the first byte on.
    pub fn runs(&self) -> &[Run]
        ensures value { result.now ≡ self.now }
        ensures sound { IsStates self.now }
    {
        &self.runs
    }
}

/// Bytes one after another that are in one state.
#[derive(Clone, Copy, PartialEq, Eq)]
pub struct Run {
    /// In bytes.
    pub length: u32,
    /// The status flags of the context `base:allocation`: bit 0 for a hole, bit 1 for zero bytes.
    pub status: u32,
}

/// What the handshake agreed on.
#[derive(Clone, Copy)]
pub struct SessionFlags {
    /// Structured replies.
    pub structured: bool,
    /// The metadata context `base:allocation`.
    pub context: bool,
}
