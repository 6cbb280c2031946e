ghost use Rattle.std.specs.Prelude.{◌≡◌, ◌⊎◌, ℕ, ◌<◌, List, [], Option, Some, IfOk, IsErrAnd, IsErrOf, OnErr, OnOk, vec_len};
ghost use Rattle.std.specs.Global.{Vec};
ghost use Rattle.std.specs.Io.KnownBytes.{IsAtEnd, Keeps};
ghost use Rattle.nbd_wire.specs.Request.{Message};
ghost use Rattle.negotiation.specs.Dialog.{HasNoDisc, ended};
ghost use Rattle.negotiation.specs.Session.{Fills, IsBehind, IsOpen, IsSaid, end_of, room_of};
ghost use Rattle.negotiation.specs.declared.end.End.{End};
ghost use Rattle.negotiation.specs.Hearing.{Hearing, ReadsOn, piece_bytes};
ghost use Rattle.negotiation.specs.inner.Hearing.{ReadsSome, as_outcome};
ghost use Rattle.negotiation.specs.Streams.{IsEarly};

use crate::end::End;
use crate::serve::write_due;
use crate::session::Session;
use nbd_wire::{DataBuffers, Request, StreamFault, read_some};
use std::io::{ErrorKind, Read, Write};

/// Says the greeting and answers options until the handshake of a session is over, and hands out the requests that came
/// with its last piece.
///
/// Refusals 0 (no memory), 19 (peer closed), 20 (protocol end) and 21 (stream fault).
pub fn negotiate<R: Read, W: Write, B: DataBuffers>(
    input: &mut R,
    output: &mut W,
    session: &mut Session,
    piece: &mut Vec<u8>,
    due: &mut Vec<u8>,
    buffers: &B,
) -> Result<Vec<Request>, End>
    requires none_due { due.old.items ≡ [] }
    requires piece { vec_len piece.old ≡ piece_bytes }
    ensures hearing { Hearing session.old (ReadsOn session.old (R.remaining input.old) (R.remaining input.new)) (W.contents output.old) (W.contents output.new) result session.new }
    ensures none_due { due.new.items ≡ [] }
    ensures piece { vec_len piece.new ≡ piece_bytes }
    ensures closed { IsErrOf result End.PeerClosed → IsAtEnd (R.remaining input.new) }
    ensures over { OnOk result (IsBehind session.new.standing) }
    ensures first { IfOk result (λ requests. (end : End) → end_of session.new.standing ≡ Some end → 0 < vec_len requests) }
    ensures no_disc { IfOk result (λ requests. HasNoDisc requests.items) }
    ensures said { IsSaid session.new.standing }
{
    let mut requests = take(session, &[], output, due, buffers)?;
    for _ in 0..u64::MAX {
        if !requests.is_empty() {
            return Ok(requests);
        }
        if session.is_handshake_over() {
            return Ok(requests);
        }
        requests = hear(input, output, session, piece, due, buffers)?;
    }
    Err(End::IoFault)
}

// Reads what there is, writes what is due for it, and hands out the requests in it. After an end it reads nothing, and an
// end after earlier requests is told before more input is waited for. With no request it has read something, or the
// session is over.
pub fn hear<R: Read, W: Write, B: DataBuffers>(
    input: &mut R,
    output: &mut W,
    session: &mut Session,
    piece: &mut Vec<u8>,
    due: &mut Vec<u8>,
    buffers: &B,
) -> Result<Vec<Request>, End>
    requires said { IsSaid session.old.standing }
    requires going { session.old.standing ≡ ended → ⊥ }
    requires none_due { due.old.items ≡ [] }
    requires piece { vec_len piece.old ≡ piece_bytes }
    ensures hearing { Hearing session.old (ReadsOn session.old (R.remaining input.old) (R.remaining input.new)) (W.contents output.old) (W.contents output.new) result session.new }
    ensures none_due { due.new.items ≡ [] }
    ensures piece { vec_len piece.new ≡ piece_bytes }
    ensures closed { IsErrOf result End.PeerClosed → IsAtEnd (R.remaining input.new) }
    ensures reads { IfOk result (λ requests. vec_len requests ≡ 0 → (session.new.standing ≡ ended) ⊎ ReadsSome (R.remaining input.old) (R.remaining input.new)) }
    ensures starved { end_of session.old.standing ≡ Some End.NoMemory → IsErrAnd result IsEarly × (R.remaining input.new ≡ R.remaining input.old) }
    ensures asks { IfOk result (λ requests. 0 < vec_len requests → IsBehind session.new.standing) }
    ensures first { IfOk result (λ requests. (end : End) → end_of session.new.standing ≡ Some end → 0 < vec_len requests) }
    ensures no_disc { IfOk result (λ requests. HasNoDisc requests.items) }
    ensures said { IsSaid session.new.standing }
{
    let requests = take(session, &[], output, due, buffers)?;
    if !requests.is_empty() {
        return Ok(requests);
    }
    if session.ended() {
        return Ok(requests);
    }
    if session.room() > piece.len() {
        fill(input, session)?;
        return Ok(requests);
    }
    let count = read_some(input, piece)?;
    if count == 0 {
        return Err(End::PeerClosed);
    }
    take(session, &piece[..count], output, due, buffers)
}

// Reads into the room of the data at hand, where so much is missing that a piece wouldn't end them.
fn fill<R: Read>(input: &mut R, session: &mut Session) -> Result<(), End>
    requires { 1 < room_of session.old.standing }
    ensures hearing { (output : Option (List ℕ)) (given : Vec Message) → given.items ≡ []
        → Hearing session.old (ReadsOn session.old (R.remaining input.old) (R.remaining input.new)) output output (as_outcome given result) session.new }
    ensures closed { IsErrOf result End.PeerClosed → IsAtEnd (R.remaining input.new) }
    ensures some { OnOk result (ReadsSome (R.remaining input.old) (R.remaining input.new)) }
    ensures going { OnOk result (IsOpen session.new.standing) }
    ensures said { IsSaid session.new.standing }
{
    if fill_some(input, session)? == 0 {
        return Err(End::PeerClosed);
    }
    Ok(())
}

// A read that was interrupted is begun again.
fn fill_some<R: Read>(input: &mut R, session: &mut Session) -> Result<usize, StreamFault>
    requires { 1 < room_of session.old.standing }
    ensures ok { IfOk result (λ count. Fills session.old (R.remaining input.old) (R.remaining input.new) count session.new) }
    ensures err { OnErr result ((session.new ≡ session.old) × Keeps (R.remaining input.old) (R.remaining input.new)) }
{
    for _ in 0..u64::MAX {
        match session.fill(input) {
            Ok(count) => return Ok(count),
            Err(error) if error.kind() == ErrorKind::Interrupted => {}
            Err(_) => break,
        }
    }
    Err(StreamFault)
}

// Feeds a piece to a session, and writes what is due for it.
fn take<W: Write, B: DataBuffers>(
    session: &mut Session,
    piece: &[u8],
    output: &mut W,
    due: &mut Vec<u8>,
    buffers: &B,
) -> Result<Vec<Request>, End>
    requires { due.old.items ≡ [] }
    ensures hearing { Hearing session.old (λ bytes. bytes ≡ piece.now) (W.contents output.old) (W.contents output.new) result session.new }
    ensures none_due { due.new.items ≡ [] }
    ensures starved { end_of session.old.standing ≡ Some End.NoMemory → IsErrAnd result IsEarly }
    ensures first { (end : End) → end_of session.new.standing ≡ Some end → IfOk result (λ requests. 0 < vec_len requests) }
    ensures asks { IfOk result (λ requests. 0 < vec_len requests → IsBehind session.new.standing) }
    ensures going { IsErrOf result End.PeerClosed → ⊥ }
    ensures no_disc { IfOk result (λ requests. HasNoDisc requests.items) }
    ensures said { IsSaid session.new.standing }
{
    let fed = session.feed(piece, due, buffers);
    write_due(output, due)?;
    fed
}
