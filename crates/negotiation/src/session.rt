ghost use Rattle.std.specs.Prelude.{◌≡◌, ◌⊎◌, ◌↔◌, ℕ, ◌*◌, ◌+◌, ◌≤◌, ◌<◌, List, [], Some, IsTrue, length, vec_len, IfOk, IfErr, IsOkAnd, OnErr, Err, position};
ghost use Rattle.std.specs.Io.KnownBytes.{Keeps};
ghost use Rattle.negotiation.specs.declared.stage.Talk.{Talk};
ghost use Rattle.negotiation.specs.Dialog.{HasNoDisc, ended, in_requests, is_disc, plain, silent};
ghost use Rattle.negotiation.specs.Session.{Feeds, Fills, IsBehind, IsGreeted, IsSaid, IsStage, end_of, handed, held_by, room_of, standing_of};
ghost use Rattle.negotiation.specs.inner.Session.{wanted_of, Advances, Greets, Hands, HandsNone, Runs, state_of};

use crate::answer::Agreed;
use crate::end::End;
use crate::offer::OfferedExport;
use crate::stage::{Stage, Talk, discard, take_data, take_flags, take_head, wanted};
use nbd_wire::{DISCONNECT, DataBuffers, Request, SessionFlags, StreamReader};
use option_wire::greeting;
use std::alloc::{AllocError, Global};
use std::io::{self, Read};
use std::marker::Model;
use std::mem;

/// One connection as the server sees it, from its first byte on: the handshake, and the requests after it. What the
/// client sent may come in any pieces.
pub struct Session {
    alloc: Global,
    offer: OfferedExport,
    agreed: Agreed,
    stage: Stage,
}

impl Model for Session {
    ghost use Rattle.negotiation.specs.Session.{IsStage, SessionState, standing_of};

    ghost Value = { SessionState };

    ghost view = { λ session. record { offer = session.offer; agreed = session.agreed; standing = standing_of session.stage } };

    ghost invariant = { λ session. IsStage session.stage };
}

// Written out, it is proved once, and not again in each function that lets a session go.
impl Drop for Session {
    fn drop(self) {
        let Session {
            alloc: _,
            offer: _,
            agreed: _,
            stage: _,
        } = self;
    }
}

impl Session {
    /// A session in which nothing was said yet, and which offers this export.
    pub fn new(alloc: Global, offer: OfferedExport) -> Session
        ensures { result ≡ record { offer = offer; agreed = plain; standing = silent } }
    {
        Session {
            alloc,
            offer,
            agreed: Agreed {
                flags: SessionFlags {
                    structured: false,
                    context: false,
                },
                no_zeroes: false,
            },
            stage: Stage::Silent,
        }
    }

    /// Reads the next piece of what the client sent, appends what is due for it, and answers the requests that are
    /// whole now and stand before a DISC ("Fixed newstyle negotiation" and "Transmission" of NBD's `proto.md`). The
    /// greeting comes with the first piece, which may be empty.
    ///
    /// Refusals 0 (no memory) and 20 (protocol end: what the client sent ends the session). Each comes after the
    /// requests before it, and all later calls give it too.
    pub fn feed<B: DataBuffers>(
        &mut self,
        piece: &[u8],
        out: &mut Vec<u8>,
        buffers: &B,
    ) -> Result<Vec<Request>, End>
        // However the input was cut, these are its next requests, and this was due for its next options.
        ensures session { Feeds self.old piece.now out.old.items out.new.items (handed result) self.new }
        ensures offer { self.new.offer ≡ self.old.offer }

        // An end comes where there is no request before it, and then always.
        ensures fault { IfErr result (λ end. end_of self.new.standing ≡ Some end) }
        ensures again { (end : End) → end_of self.old.standing ≡ Some end → result ≡ Err end }
        ensures first { (end : End) → end_of self.new.standing ≡ Some end → IfOk result (λ requests. 0 < vec_len requests) }
        ensures said { IsSaid self.new.standing }
        ensures asks { IfOk result (λ requests. 0 < vec_len requests → IsBehind self.new.standing) }
        ensures no_disc { IfOk result (λ requests. HasNoDisc requests.items) }

        // Whatever is announced, no more than this is held.
        ensures held { held_by self.new.standing < 28 + 1048576 }
    {
        let stage = mem::replace(&mut self.stage, Stage::Exhausted);
        let stage = greet(self.alloc, stage, out)?;
        let talk = Talk {
            agreed: self.agreed,
            stage,
        };
        let (talk, rest) = negotiate(self.alloc, &self.offer, talk, piece, out)?;
        self.agreed = talk.agreed;
        let (stage, requests) = hand_out(self.alloc, talk.stage, rest, buffers);
        self.stage = stage;
        requests
    }

    /// How many bytes are still to come of the data at hand, of a request that isn't whole; none where nothing is kept of them.
    pub fn room(&self) -> usize
        ensures { result ≡ room_of self.now.standing }
    {
        match &self.stage {
            Stage::Requests(reader) => reader.room(),
            _ => 0,
        }
    }

    /// Reads once from the stream, straight into the room of the data at hand, but for their last byte. So no request is
    /// whole after it, and nothing is due. A fault of the stream leaves the session as it was.
    pub fn fill<R: Read>(&mut self, input: &mut R) -> io::Result<usize>
        requires { 1 < room_of self.old.standing }

        // What was read is a piece that was fed; at the end of the stream it is empty.
        ensures ok { IfOk result (λ count. Fills self.old (R.remaining input.old) (R.remaining input.new) count self.new) }
        ensures err { OnErr result ((self.new ≡ self.old) × Keeps (R.remaining input.old) (R.remaining input.new)) }
        ensures held { held_by self.new.standing < 28 + 1048576 }
    {
        let stage = mem::replace(&mut self.stage, Stage::Exhausted);
        let (stage, count) = fill(stage, input);
        self.stage = stage;
        count
    }

    /// What the replies to requests go by.
    pub fn flags(&self) -> SessionFlags
        ensures { result ≡ self.now.agreed.flags }
    {
        self.agreed.flags
    }

    /// Whether the handshake is over.
    pub fn is_handshake_over(&self) -> bool
        ensures { IsTrue result ↔ IsBehind self.now.standing }
    {
        match self.stage {
            Stage::Requests(_) | Stage::Ended | Stage::Broken | Stage::Exhausted => true,
            _ => false,
        }
    }

    /// Whether the client has ended the session, by an ABORT or a DISC.
    pub fn ended(&self) -> bool
        ensures { IsTrue result ↔ (self.now.standing ≡ ended) }
    {
        matches!(self.stage, Stage::Ended)
    }
}

// Says the greeting, where nothing was said yet.
fn greet(alloc: Global, stage: Stage, out: &mut Vec<u8>) -> Result<Stage, AllocError>
    requires { IsStage stage }
    ensures sound { IfOk result IsGreeted }
    ensures greets { IfOk result (λ new. Greets (standing_of stage) (standing_of new) out.old.items out.new.items) }
    ensures err { OnErr result (out.new.items ≡ out.old.items) }
    ensures first { OnErr result (standing_of stage ≡ silent) }
{
    match stage {
        Stage::Silent => {
            out.extend_from_slice(&greeting())?;
            Ok(Stage::Flags(Vec::new(alloc)))
        }
        stage => Ok(stage),
    }
}

// Reads the handshake as far as the piece goes, and answers its options. The rest of the piece stands after the
// handshake.
fn negotiate<'a>(
    alloc: Global,
    offer: &OfferedExport,
    talk: Talk,
    piece: &'a [u8],
    out: &mut Vec<u8>,
) -> Result<(Talk, &'a [u8]), AllocError>
    requires { IsGreeted talk.stage }
    ensures sound { IfOk result (λ read. IsGreeted read.0.stage) }
    ensures runs { IfOk result (λ read. Runs (state_of offer.now talk) piece.now read.1.now out.old.items out.new.items (state_of offer.now read.0)) }
    ensures all { IfOk result (λ read. (read.1.now ≡ []) ⊎ (wanted_of read.0.stage ≡ 0)) }
    ensures still { wanted_of talk.stage ≡ 0 → IsOkAnd result (λ read. (read.0 ≡ talk) × (read.1.now ≡ piece.now)) × (out.new.items ≡ out.old.items) }
    ensures err { OnErr result ((behind : List ℕ) × (between : Talk) × IsGreeted between.stage
        × Runs (state_of offer.now talk) piece.now behind out.old.items out.new.items (state_of offer.now between)) }
{
    let mut talk = talk;
    let mut rest = piece;
    while !rest.is_empty() {
        let wanted = wanted(&talk.stage);
        if wanted == 0 {
            break;
        }
        let (front, behind) = rest.split_at(rest.len().min(wanted));
        talk = advance(alloc, offer, talk, front, out)?;
        rest = behind;
    }
    Ok((talk, rest))
}

// Takes the next bytes of the handshake, and answers the option that is whole now.
fn advance(
    alloc: Global,
    offer: &OfferedExport,
    talk: Talk,
    front: &[u8],
    out: &mut Vec<u8>,
) -> Result<Talk, AllocError>
    requires sound { IsGreeted talk.stage }
    requires wanted { length front.now ≤ wanted_of talk.stage }
    ensures sound { IfOk result (λ new. IsGreeted new.stage) }
    ensures advances { IfOk result (λ new. Advances (state_of offer.now talk) front.now out.old.items out.new.items (state_of offer.now new)) }
    ensures err { OnErr result (out.new.items ≡ out.old.items) }
{
    let Talk { agreed, stage } = talk;
    match stage {
        Stage::Flags(bytes) => take_flags(alloc, agreed, bytes, front),
        Stage::Head(bytes) => take_head(alloc, offer, agreed, bytes, front, out),
        Stage::Data { head, bytes } => take_data(alloc, offer, agreed, head, bytes, front, out),
        Stage::Discard { option, missing } => {
            discard(alloc, agreed, option, missing, front, out)
        }
        stage => Ok(Talk { agreed, stage }),
    }
}

// Reads the rest of a piece after the handshake, and hands out the requests in it.
fn hand_out<B: DataBuffers>(
    alloc: Global,
    stage: Stage,
    rest: &[u8],
    buffers: &B,
) -> (Stage, Result<Vec<Request>, End>)
    requires sound { IsGreeted stage }
    requires all { (rest.now ≡ []) ⊎ (wanted_of stage ≡ 0) }
    ensures sound { IsGreeted result.0 }
    ensures hands { Hands (standing_of stage) rest.now (handed result.1) (standing_of result.0) }
    ensures fault { IfErr result.1 (λ end. end_of (standing_of result.0) ≡ Some end) }
    ensures again { (end : End) → end_of (standing_of stage) ≡ Some end → result.1 ≡ Err end }
    ensures first { (end : End) → end_of (standing_of result.0) ≡ Some end → IfOk result.1 (λ requests. 0 < vec_len requests) }
    ensures asks { IfOk result.1 (λ requests. 0 < vec_len requests → IsBehind (standing_of result.0)) }
    ensures no_disc { IfOk result.1 (λ requests. HasNoDisc requests.items) }
    ensures held { held_by (standing_of result.0) < 28 + 1048576 }
{
    match stage {
        Stage::Requests(reader) => ask(reader, rest, buffers),
        Stage::Broken => (Stage::Broken, Err(End::ProtocolEnd)),
        Stage::Exhausted => (Stage::Exhausted, Err(End::NoMemory)),
        stage => (stage, Ok(Vec::new(alloc))),
    }
}

// Hands out the requests before a DISC.
fn ask<B: DataBuffers>(
    reader: StreamReader,
    piece: &[u8],
    buffers: &B,
) -> (Stage, Result<Vec<Request>, End>)
    ensures sound { IsGreeted result.0 }
    ensures hands { Hands (in_requests reader) piece.now (handed result.1) (standing_of result.0) }
    ensures fault { IfErr result.1 (λ end. end_of (standing_of result.0) ≡ Some end) }
    ensures again { (end : End) → end_of (in_requests reader) ≡ Some end → result.1 ≡ Err end }
    ensures first { (end : End) → end_of (standing_of result.0) ≡ Some end → IfOk result.1 (λ requests. 0 < vec_len requests) }
    ensures asks { IfOk result.1 (λ requests. 0 < vec_len requests → IsBehind (standing_of result.0)) }
    ensures no_disc { IfOk result.1 (λ requests. HasNoDisc requests.items) }
    ensures held { held_by (standing_of result.0) < 28 + 1048576 }
{
    let mut reader = reader;
    let mut requests = match reader.feed(piece, buffers) {
        Ok(requests) => requests,
        Err(fault) => return (Stage::Requests(reader), Err(End::from(fault))),
    };
    match disc_place(&requests) {
        Some(place) => {
            requests.truncate(place);
            (Stage::Ended, Ok(requests))
        }
        None => (Stage::Requests(reader), Ok(requests)),
    }
}

// Which of the requests is the first DISC.
fn disc_place(requests: &[Request]) -> Option<usize>
    ensures { result ≡ position is_disc requests.now }
{
    requests
        .iter()
        .position(|request| request.head().kind == DISCONNECT)
}

// Reads once into the room of the data at hand.
fn fill<R: Read>(stage: Stage, input: &mut R) -> (Stage, io::Result<usize>)
    requires { 1 < room_of (standing_of stage) }
    ensures sound { IsGreeted result.0 }
    ensures ok { IfOk result.1 (λ count. HandsNone (standing_of stage) (R.remaining input.old) (R.remaining input.new) count (standing_of result.0)) }
    ensures err { OnErr result.1 ((standing_of result.0 ≡ standing_of stage) × Keeps (R.remaining input.old) (R.remaining input.new)) }
    ensures held { held_by (standing_of result.0) < 28 + 1048576 }
{
    match stage {
        Stage::Requests(reader) => {
            let mut reader = reader;
            let count = reader.fill(input);
            (Stage::Requests(reader), count)
        }
        stage => (stage, Ok(0)),
    }
}
