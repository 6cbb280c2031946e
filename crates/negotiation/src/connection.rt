ghost use Rattle.std.specs.Prelude.{◌≡◌, [], IfOk, vec_len};
ghost use Rattle.negotiation.specs.Answered.{offered};
ghost use Rattle.negotiation.specs.Dialog.{HasNoDisc};
ghost use Rattle.negotiation.specs.Session.{IsBehind};
ghost use Rattle.negotiation.specs.Hearing.{piece_bytes};
ghost use Rattle.negotiation.specs.Serving.{IsServed, TransmitsOn};

use crate::end::End;
use crate::hear::{hear, negotiate};
use crate::offer::OfferedExport;
use crate::serve::{Serve, answer_all};
use crate::session::Session;
use nbd_wire::Request;
use std::alloc::{AllocError, Global};
use std::io::{Read, Write};

// The most bytes that one read takes: 64 KiB, which lie in a cache until they are copied out.
const PIECE_BYTES: usize = 65_536;

/// Serves one connection from its first byte on: the handshake, and then each request in turn, over an export that keeps
/// `pass` of the connection.
///
/// It ends with Ok after an ABORT or a DISC. Refusals 0 (no memory), 19 (peer closed), 20 (protocol end) and 21 (stream
/// fault); after an end nothing more is read or written.
pub fn serve_session<P, S: Serve<P>, R: Read, W: Write>(
    alloc: Global,
    input: &mut R,
    output: &mut W,
    export: &S,
    pass: &mut P,
) -> Result<(), End>
    ensures { IsServed (S.allows export.now) (offered (S.extent export.now) (S.name export.now) (S.flushes export.now)) pass.old pass.new (R.remaining input.old) (R.remaining input.new) (W.contents output.old) (W.contents output.new) result }
{
    let offer = OfferedExport::new(alloc, export.geometry(), export.name(), export.flushes())?;
    let mut session = Session::new(alloc, offer);
    let mut piece = empty_piece(alloc)?;
    let mut due = Vec::new(alloc);
    let requests = negotiate(input, output, &mut session, &mut piece, &mut due, export)?;
    export.handshake_is_over();
    transmit(
        input,
        output,
        export,
        pass,
        &mut session,
        requests,
        &mut piece,
        &mut due,
    )
}

/// Answers the requests of a session whose handshake is over, first those that were handed out with its last piece.
/// Refusals 0 (no memory), 19 (peer closed), 20 (protocol end) and 21 (stream fault).
pub fn transmit<P, S: Serve<P>, R: Read, W: Write>(
    input: &mut R,
    output: &mut W,
    export: &S,
    pass: &mut P,
    session: &mut Session,
    requests: Vec<Request>,
    piece: &mut Vec<u8>,
    due: &mut Vec<u8>,
) -> Result<(), End>
    requires over { IsBehind session.old.standing }
    requires no_disc { HasNoDisc requests.items }
    requires none_due { due.old.items ≡ [] }
    requires piece { vec_len piece.old ≡ piece_bytes }
    ensures { TransmitsOn (S.allows export.now) session.old requests.items pass.old pass.new (R.remaining input.old) (R.remaining input.new) (W.contents output.old) (W.contents output.new) result }
{
    let flags = session.flags();
    let mut requests = requests;
    for _ in 0..u64::MAX {
        answer_all(export, pass, &flags, requests, output, due)?;
        if session.ended() {
            return Ok(());
        }
        requests = hear(input, output, session, piece, due, export)?;
    }
    Err(End::IoFault)
}

// Room for what one read takes.
pub(crate) fn empty_piece(alloc: Global) -> Result<Vec<u8>, AllocError>
    ensures { IfOk result (λ piece. vec_len piece ≡ piece_bytes) }
{
    vec![in alloc; 0; PIECE_BYTES]
}
